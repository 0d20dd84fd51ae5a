//! A request as a line of a script, which mds_replay answers.
ghost use Rattle.std.specs.Prelude.{◌≡◌, ◌++◌, IfOk, OnOk};
ghost use Rattle.mds_request.specs.Request.{request_of};
ghost use Rattle.std.specs.Fmt.{decimal};
ghost use Rattle.journal_folder.specs.Script.{word_of, blank, blanked, body_text, request_text};

use mds_request::{Request, Verb};
use mds_text::Moment;
use std::alloc::{AllocError, Global};

/// The word of a method.
fn word_of(verb: Verb) -> &'static [u8]
    ensures { result.now ≡ word_of verb }
{
    match verb {
        Verb::Get => b"GET",
        Verb::Put => b"PUT",
        Verb::Post => b"POST",
        Verb::Delete => b"DELETE",
        Verb::Other => b"OTHER",
    }
}

/// A byte of a text that is put on one line: a line break becomes a space.
fn blank_byte(byte: u8) -> u8
    ensures { result ≡ blank byte }
{
    if byte == b'\n' || byte == b'\r' {
        b' '
    } else {
        byte
    }
}

/// Appends a text on one line: a line break in it becomes a space.
///
/// # Errors
///
/// Out of memory.
pub fn push_blanked(line: &mut Vec<u8>, text: &[u8]) -> Result<(), AllocError>
    ensures { OnOk result (line.new.items ≡ line.old.items ++ blanked text.now) }
{
    for byte in text {
        line.push(blank_byte(*byte))?;
    }
    Ok(())
}

/// Appends a body, after a space unless it is empty.
fn push_body(line: &mut Vec<u8>, body: &[u8]) -> Result<(), AllocError>
    ensures { OnOk result (line.new.items ≡ line.old.items ++ body_text body.now) }
{
    if body.is_empty() {
        return Ok(());
    }
    line.push(b' ')?;
    push_blanked(line, body)
}

/// Appends a moment's digits.
fn push_moment(alloc: Global, line: &mut Vec<u8>, at: Moment) -> Result<(), AllocError>
    ensures { OnOk result (line.new.items ≡ line.old.items ++ decimal at) }
{
    let millis = at.get().unsigned_abs();
    let digits = format!(in alloc; "{millis}")?;
    line.extend_from_slice(digits.as_bytes())
}

/// A request's line, with its line break.
///
/// # Errors
///
/// Out of memory.
pub fn request_line(alloc: Global, request: &Request<'_>) -> Result<Vec<u8>, AllocError>
    ensures { IfOk result (λ line. line.items ≡ request_text (request_of request.now)) }
{
    let mut line = Vec::new(alloc);
    push_moment(alloc, &mut line, request.at)?;
    line.push(b' ')?;
    line.extend_from_slice(request.token)?;
    line.push(b' ')?;
    line.extend_from_slice(word_of(request.verb))?;
    line.push(b' ')?;
    line.extend_from_slice(request.target)?;
    push_body(&mut line, request.body)?;
    line.push(b'\n')?;
    Ok(line)
}
