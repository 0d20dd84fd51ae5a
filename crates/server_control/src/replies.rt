//! The text of a reply.
ghost use Rattle.std.specs.Prelude.{◌≡◌, IfOk, string_bytes};
ghost use Rattle.server_control.specs.Replies.{status_line, allow_field, other_fields, content, reply_text};

use crate::pages::ControlAnswer;
use crate::request::ControlReply;
use std::alloc::{AllocError, Global};

/// The line of this status, without a reason phrase (RFC 9112, section 4).
fn status_line(alloc: Global, status: u16) -> Result<String, AllocError>
    ensures { IfOk result (λ line. string_bytes line ≡ status_line status) }
{
    format!(in alloc; "HTTP/1.1 {status} \r\n")
}

/// The field `allow` of a 405, which names the methods that the page takes (RFC 9110, section
/// 15.5.6); no other answer has it.
fn allow_field(alloc: Global, answer: ControlAnswer) -> Result<String, AllocError>
    ensures { IfOk result (λ line. string_bytes line ≡ allow_field answer) }
{
    match answer {
        ControlAnswer::NotAllowed(method) => {
            let methods = method.methods();
            format!(in alloc; "allow: {methods}\r\n")
        }
        _ => Ok(String::new(alloc)),
    }
}

/// The fields that each reply has, and the end of its head, before a body of this length.
fn other_fields(alloc: Global, length: usize) -> Result<String, AllocError>
    ensures { IfOk result (λ lines. string_bytes lines ≡ other_fields length) }
{
    format!(in alloc;
        "content-type: text/plain; charset=utf-8\r\ncontent-length: {length}\r\nconnection: close\r\n\r\n"
    )
}

/// The content of a reply with this body: none, where the body isn't sent.
fn content(reply: ControlReply, body: &str) -> &str
    ensures { result.now ≡ content reply body.now }
{
    if reply.has_body { body } else { "" }
}

/// The text of a reply whose answer has this body, after which the connection is closed (RFC 9112,
/// section 9.6).
///
/// # Errors
///
/// Out of memory.
pub(crate) fn reply_text(
    alloc: Global,
    reply: ControlReply,
    body: &str,
) -> Result<String, AllocError>
    ensures { IfOk result (λ text. string_bytes text ≡ reply_text reply body.now) }
{
    let allow = allow_field(alloc, reply.answer)?;
    let fields = other_fields(alloc, body.len())?;
    let mut text = status_line(alloc, reply.answer.status())?;
    text.push_str(allow.as_str())?;
    text.push_str(fields.as_str())?;
    text.push_str(content(reply, body))?;
    Ok(text)
}
