//! A replay from a reader of the standard library to a writer.
ghost use Rattle.std.specs.Prelude.{◌≡◌, ◌≤◌, length, IfOk, IfSome, IsErrOf, OnOk};
ghost use Rattle.mds_script.specs.Answering.{Answered, IsTold, IsUnconfigured};
ghost use Rattle.mds_script.specs.declared.lines.TheConstants.{INPUT_LIMIT};

use crate::fault::ReplayFault;
use crate::machine::Machine;
use crate::replay::replay;
use crate::source_sink::{FromReader, InputStream, OutputStream, ToWriter};
use mds_config_error::Detail;
use std::alloc::Global;

/// Replays the reader's input to the writer, and returns the writer once all answers are flushed to it. A write that
/// fails, also the last one, is the fault `Write`.
pub fn run<M: Machine, R: InputStream, W: OutputStream>(
    alloc: Global,
    reader: R,
    writer: W,
) -> Result<W, ReplayFault>
    ensures answered { IfOk result (λ written. Answered M.begins M.step (R.remaining reader) (W.contents writer) (W.contents written)) }
    ensures limited { OnOk result (IfSome (R.remaining reader) (λ input. length input ≤ INPUT_LIMIT)) }
    ensures bad_config { IsErrOf result ReplayFault.BadConfig → IfSome (R.remaining reader) IsUnconfigured }
{
    run_with_detail::<M, R, W>(alloc, reader, writer, &mut Detail::Untold)
}

/// Replays as `run` does, and after the fault `BadConfig` leaves in `detail` what is wrong with the configuration.
pub fn run_with_detail<M: Machine, R: InputStream, W: OutputStream>(
    alloc: Global,
    reader: R,
    writer: W,
    detail: &mut Detail,
) -> Result<W, ReplayFault>
    ensures answered { IfOk result (λ written. Answered M.begins M.step (R.remaining reader) (W.contents writer) (W.contents written)) }
    ensures limited { OnOk result (IfSome (R.remaining reader) (λ input. length input ≤ INPUT_LIMIT)) }
    ensures bad_config { IsErrOf result ReplayFault.BadConfig → IfSome (R.remaining reader) IsUnconfigured }
    ensures told { IsErrOf result ReplayFault.BadConfig → IfSome (R.remaining reader) (IsTold detail.new) }
{
    let mut source = FromReader::new(reader);
    let mut sink = ToWriter::new(alloc, writer)?;
    replay::<M, _, _>(alloc, &mut source, &mut sink, detail)?;
    match sink.finish() {
        Ok(written) => Ok(written),
        Err(_) => Err(ReplayFault::Write),
    }
}
