//! A replay: its configuration line, and then line after line.
ghost use Rattle.std.specs.Prelude.{◌≡◌, ◌+◌, ◌*◌, ◌-◌, ◌^◌, ◌<◌, ◌≤◌, ◌⊎◌, ℕ, List, [], ◌++◌, length, true, false, is_ok, if◌then◌else◌, IfOk, IfErr, OnOk, OnErr, IfSome, IsTrue, IsErrOf, ◌≢◌};
ghost use Rattle.std.specs.Io.KnownBytes.{Appends, IsAtEnd};
ghost use Rattle.mds_request.specs.Configuration.{read_configuration};
ghost use Rattle.mds_request.specs.Reply.{is_line, refused};
ghost use Rattle.mds_request.specs.declared.code.Code.TheVariants.{BadLine};
ghost use Rattle.mds_script.specs.Ends.{Writes};
ghost use Rattle.mds_script.specs.LineReading.{left, passed, Advances, FailsReading};
ghost use Rattle.mds_script.specs.Turning.{Replies, Turns, Begins, filled_lines, written_of};
ghost use Rattle.mds_script.specs.Answering.{Configures, IsTold, IsUnconfigured, Outputs, Answered, Started};
ghost use Rattle.mds_config_error.specs.Wording.{IsFound};
ghost use Rattle.mds_script.specs.declared.gather.TheConstants.{LINE_LIMIT};
ghost use Rattle.mds_script.specs.Input.{configuration_of};
ghost use Rattle.mds_script.specs.declared.lines.TheConstants.{INPUT_LIMIT};

use crate::cut::cut;
use crate::fault::ReplayFault;
use crate::lines::{LineReader, NextLine};
use crate::machine::Machine;
use crate::source_sink::{Sink, Source};
use crate::write::write_answer;
use mds_config_error::Detail;
use mds_request::{Code, Config, Reply};
use std::alloc::Global;

/// Reads a configuration line and request lines, and writes one answer line for each request line.
///
/// A line ends at a line feed, and one carriage return before it is dropped; a last line without a line feed counts.
/// Empty lines after the first are skipped. A line that is no request, or is over the limit of 2,097,152 bytes, is
/// answered `400 {"error":"bad_line"}`. Faults are reported as `ReplayFault`; an input of more than 1,073,741,824 bytes
/// is a read fault. After a fault, what was written is a prefix of the answers, or nothing. What is wrong with a bad
/// configuration is left in `detail`.
pub fn replay<M: Machine, S: Source, W: Sink>(
    alloc: Global,
    source: &mut S,
    sink: &mut W,
    detail: &mut Detail,
) -> Result<(), ReplayFault>
    requires readable { S.failures source.old < 2 ^ 64 - 1 }
    requires writable { W.failures sink.old < 2 ^ 64 - 1 }

    // The input was read to its end, and the answers to it were written.
    ensures answered { OnOk result (Answered M.begins M.step (S.remaining source.old)
        (W.contents sink.old) (W.contents sink.new)) }
    ensures ended { OnOk result (IsAtEnd (S.remaining source.new)) }

    // No read and no write failed, and the input wasn't over its limit.
    ensures sound { OnOk result ((S.failures source.new ≡ S.failures source.old) × (W.failures sink.new ≡ W.failures sink.old)) }
    ensures limited { OnOk result (IfSome (S.remaining source.old) (λ input. length input ≤ INPUT_LIMIT)) }

    // After a fault a prefix of them was written, or nothing.
    ensures started { OnErr result (Started M.begins M.step (S.remaining source.old)
        (W.contents sink.old) (W.contents sink.new)) }

    // When each fault comes.
    ensures read { IsErrOf result ReplayFault.Read → (S.failures source.new ≡ S.failures source.old + 1)
        ⊎ IfSome (S.remaining source.old) (λ input. INPUT_LIMIT < length input) }
    ensures write { IsErrOf result ReplayFault.Write → W.failures sink.new ≡ W.failures sink.old + 1 }
    ensures bad_config { IsErrOf result ReplayFault.BadConfig → IfSome (S.remaining source.old) IsUnconfigured }
    ensures told { IsErrOf result ReplayFault.BadConfig → IfSome (S.remaining source.old) (IsTold detail.new) }
    // Out of memory hides no failed read, and no first line that is over the limit, once something was read.
    ensures memory { IsErrOf result ReplayFault.NoMemory → (source.new ≡ source.old)
        ⊎ ((S.failures source.new ≡ S.failures source.old) × IfSome (S.remaining source.old) (λ input. length (configuration_of input) ≤ LINE_LIMIT)) }

    // Before the first answer nothing is written.
    ensures unwritten_config { IsErrOf result ReplayFault.BadConfig → sink.new ≡ sink.old }
    ensures unwritten_memory { IsErrOf result ReplayFault.NoMemory → sink.new ≡ sink.old }
{
    let mut reader = LineReader::new(alloc)?;
    let mut machine = begin::<M, S>(alloc, &mut reader, source, detail)?;
    answer_all(&mut reader, &mut machine, source, sink)
}

/// The machine of the configuration on the first line.
fn begin<M: Machine, S: Source>(
    alloc: Global,
    reader: &mut LineReader,
    source: &mut S,
    detail: &mut Detail,
) -> Result<M, ReplayFault>
    requires readable { S.failures source.old < 2 ^ 64 - 1 }
    ensures begins { IfOk result (Begins M.begins (left reader.old (S.remaining source.old)) (left reader.new (S.remaining source.new))) }
    ensures advances { OnOk result (Advances (passed reader.old) (left reader.old (S.remaining source.old))
        (passed reader.new) (left reader.new (S.remaining source.new))) }
    ensures read_on { OnOk result (S.failures source.new ≡ S.failures source.old) }
    ensures read { IsErrOf result ReplayFault.Read → FailsReading (S.failures source.old) (S.failures source.new)
        (passed reader.old) (left reader.old (S.remaining source.old)) }
    ensures bad_config { IsErrOf result ReplayFault.BadConfig → IfSome (left reader.old (S.remaining source.old)) IsUnconfigured }
    ensures told { IsErrOf result ReplayFault.BadConfig → IfSome (left reader.old (S.remaining source.old)) (IsTold detail.new) }
    ensures memory { IsErrOf result ReplayFault.NoMemory → (S.failures source.new ≡ S.failures source.old)
        × IfSome (left reader.old (S.remaining source.old)) (λ input. length (configuration_of input) ≤ LINE_LIMIT) }
    ensures unwritten { IfErr result (λ fault. fault ≢ ReplayFault.Write) }
{
    match reader.next(source) {
        Err(_) => Err(ReplayFault::Read),
        Ok(NextLine::TooLong) => {
            *detail = Detail::TooLong;
            Err(ReplayFault::BadConfig)
        }
        Ok(NextLine::End) => machine_for(alloc, reader.line(), detail),
        Ok(NextLine::Line) => machine_for(alloc, reader.line(), detail),
    }
}

/// The machine of the configuration that this text is.
fn machine_for<M: Machine>(
    alloc: Global,
    text: &[u8],
    detail: &mut Detail,
) -> Result<M, ReplayFault>
    ensures begins { IfOk result (λ machine. length text.now ≤ LINE_LIMIT → Configures M.begins text.now machine) }
    ensures bad_config { IsErrOf result ReplayFault.BadConfig → is_ok (read_configuration text.now) ≡ false }
    ensures told { IsErrOf result ReplayFault.BadConfig → IsFound detail.new text.now }
    ensures fault { IfErr result (λ fault. (fault ≡ ReplayFault.BadConfig) ⊎ (fault ≡ ReplayFault.NoMemory)) }
{
    match Config::read(alloc, text) {
        Ok(config) => Ok(M::begin(alloc, config)?),
        Err(fault) => {
            *detail = Detail::of(alloc, text);
            Err(ReplayFault::from(fault))
        }
    }
}

/// Answers all remaining lines.
fn answer_all<M: Machine, S: Source, W: Sink>(
    reader: &mut LineReader,
    machine: &mut M,
    source: &mut S,
    sink: &mut W,
) -> Result<(), ReplayFault>
    requires readable { S.failures source.old < 2 ^ 64 - 1 }
    requires writable { W.failures sink.old < 2 ^ 64 - 1 }
    // All answers were written, or, after a fault, a prefix of them.
    ensures all { OnOk result ((output : List ℕ) × Appends (W.contents sink.old) (W.contents sink.new) output
        × IfSome (left reader.old (S.remaining source.old)) (λ bytes. Outputs M.step machine.old (filled_lines bytes) output)) }
    ensures ended { OnOk result (IsAtEnd (S.remaining source.new)) }
    ensures sound { OnOk result ((S.failures source.new ≡ S.failures source.old) × (W.failures sink.new ≡ W.failures sink.old)) }
    ensures limited { OnOk result (IfSome (left reader.old (S.remaining source.old)) (λ bytes. passed reader.old + length bytes ≤ INPUT_LIMIT)) }
    ensures some { OnErr result ((front : List ℕ) × (rest : List ℕ) × Appends (W.contents sink.old) (W.contents sink.new) front
        × IfSome (left reader.old (S.remaining source.old)) (λ bytes. Outputs M.step machine.old (filled_lines bytes) (front ++ rest))) }
    ensures read { IsErrOf result ReplayFault.Read → FailsReading (S.failures source.old) (S.failures source.new)
        (passed reader.old) (left reader.old (S.remaining source.old)) }
    ensures write { IsErrOf result ReplayFault.Write → W.failures sink.new ≡ W.failures sink.old + 1 }
    ensures begun { IfErr result (λ fault. (fault ≡ ReplayFault.Read) ⊎ (fault ≡ ReplayFault.Write)) }
{
    'turns: loop {
        match turn(reader, machine, source, sink) {
            Ok(true) => {}
            Ok(false) => return Ok(()),
            Err(fault) => return Err(fault),
        }
    }
}

/// Finds the next line and answers it; `false` where there is none.
fn turn<M: Machine, S: Source, W: Sink>(
    reader: &mut LineReader,
    machine: &mut M,
    source: &mut S,
    sink: &mut W,
) -> Result<bool, ReplayFault>
    requires readable { S.failures source.old < 2 ^ 64 - 1 }
    requires writable { W.failures sink.old < 2 ^ 64 - 1 }
    ensures turns { Turns M.step result (left reader.old (S.remaining source.old)) (left reader.new (S.remaining source.new))
        machine.old machine.new (W.contents sink.old) (W.contents sink.new) }
    ensures ended { IfOk result (λ more. more ≡ false → IsAtEnd (S.remaining source.new)) }
    ensures advances { OnOk result (Advances (passed reader.old) (left reader.old (S.remaining source.old))
        (passed reader.new) (left reader.new (S.remaining source.new))) }
    ensures nearer { IfOk result (λ more. more ≡ true → passed reader.old < passed reader.new) }
    ensures read_on { OnOk result (S.failures source.new ≡ S.failures source.old) }
    ensures written { OnOk result (W.failures sink.new ≡ W.failures sink.old) }
    ensures read { IsErrOf result ReplayFault.Read → FailsReading (S.failures source.old) (S.failures source.new)
        (passed reader.old) (left reader.old (S.remaining source.old)) }
    ensures write { IsErrOf result ReplayFault.Write → W.failures sink.new ≡ W.failures sink.old + 1 }
{
    match reader.next(source) {
        Err(_) => Err(ReplayFault::Read),
        Ok(NextLine::End) => Ok(false),
        Ok(NextLine::TooLong) => answer(sink, Some(refusal())),
        Ok(NextLine::Line) => answer(sink, reply_to(machine, reader.line())),
    }
}

/// Writes a reply, if there is one. The only fault is a failed write.
fn answer<W: Sink>(sink: &mut W, reply: Option<Reply>) -> Result<bool, ReplayFault>
    requires { W.failures sink.old < 2 ^ 64 - 1 }
    ensures writes { Writes (W.contents sink.old) (W.contents sink.new) result (written_of reply) }
    ensures counted { W.failures sink.new ≡ W.failures sink.old + (if is_ok result then 0 else 1) }
    ensures more { IfOk result (λ more. more ≡ true) }
    ensures fault { IfErr result (λ fault. fault ≡ ReplayFault.Write) }
    ensures line { IfSome reply (λ r. is_line r.body ≡ true) }
{
    match reply {
        Some(reply) => match write_answer(sink, &reply) {
            Ok(()) => Ok(true),
            Err(_) => Err(ReplayFault::Write),
        },
        None => Ok(true),
    }
}

/// The reply to a line that isn't over the limit; none to an empty one.
fn reply_to<M: Machine>(machine: &mut M, line: &[u8]) -> Option<Reply>
    requires { length line.now ≤ LINE_LIMIT }
    ensures { Replies M.step machine.old line.now result machine.new }
{
    if line.is_empty() {
        return None;
    }
    match cut(line) {
        Some(request) => Some(machine.answer(&request)),
        None => Some(refusal()),
    }
}

/// The reply to a line that is no request.
fn refusal() -> Reply
    ensures { result ≡ refused BadLine }
{
    Reply::from(Code::BadLine)
}
