//! Writes answer lines to a sink.
ghost use Rattle.std.specs.Prelude.{◌≡◌, ◌+◌, ◌-◌, ◌^◌, ◌<◌, ◌∷◌, ◌++◌, [], IsTrue, is_ok, if◌then◌else◌};
ghost use Rattle.mds_request.specs.Reply.{is_line};
ghost use Rattle.mds_script.specs.Ends.{Writes};
ghost use Rattle.mds_script.specs.Answering.{answer_line, status_text};

use crate::source_sink::{Failed, Sink};
use mds_request::Reply;

/// Writes a reply as `STATUS BODY` and a line feed. The error is a failed write; then a prefix of
/// the line may be written.
pub fn write_answer<W: Sink>(sink: &mut W, reply: &Reply) -> Result<(), Failed>
    requires { W.failures sink.old < 2 ^ 64 - 1 }
    ensures writes { Writes (W.contents sink.old) (W.contents sink.new) result (answer_line reply.now) }
    ensures counted { W.failures sink.new ≡ W.failures sink.old + (if is_ok result then 0 else 1) }
    ensures line { IsTrue (is_line reply.now.body) }
{
    let status = status_of(reply.status());
    let body = reply.body();
    match write_all(sink, &status) {
        Ok(()) => {}
        Err(failed) => return Err(failed),
    }
    match write_all(sink, body) {
        Ok(()) => {}
        Err(failed) => return Err(failed),
    }
    write_all(sink, b"\n")
}

/// The three digits of a status (RFC 9112, section 4) and a space.
fn status_of(status: u16) -> [u8; 4]
    ensures { result ≡ status_text status ++ 32 ∷ [] }
{
    [
        b'0' + (status / 100 % 10) as u8,
        b'0' + (status / 10 % 10) as u8,
        b'0' + (status % 10) as u8,
        b' ',
    ]
}

/// Writes all bytes, in as many pieces as the sink takes.
fn write_all<W: Sink>(sink: &mut W, bytes: &[u8]) -> Result<(), Failed>
    requires { W.failures sink.old < 2 ^ 64 - 1 }
    ensures writes { Writes (W.contents sink.old) (W.contents sink.new) result bytes.now }
    ensures counted { W.failures sink.new ≡ W.failures sink.old + (if is_ok result then 0 else 1) }
{
    let mut rest = bytes;
    'pieces: while !rest.is_empty() {
        match sink.write(rest) {
            Ok(0) => return Err(Failed),
            Ok(count) => rest = rest.split_at(count).1,
            Err(failed) => return Err(failed),
        }
    }
    Ok(())
}
