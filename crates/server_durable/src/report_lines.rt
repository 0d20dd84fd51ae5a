//! The response to many reports.
ghost use Rattle.std.specs.Prelude.{◌≡◌, ◌++◌, IfOk, OnOk};
ghost use Rattle.std.specs.List.{flat_map};
ghost use Rattle.mds_script.specs.Answering.{status_text};
ghost use Rattle.server_durable.specs.Many.{SaysAll, told_line};

use bytes::Bytes;
use http::header::CONTENT_TYPE;
use http::{HeaderValue, Response, StatusCode};
use http_body_util::Full;
use mds_desk::SharedReply;
use server_responses::{HttpResult, with_field};
use std::alloc::{AllocError, Global};

/// How many bytes a line has besides the body of its answer.
const LINE_OVERHEAD: usize = 23;

/// The three digits of a status (RFC 9112, section 4).
fn digits(status: u16) -> [u8; 3]
    ensures { result ≡ status_text status }
{
    [
        b'0' + (status / 100 % 10) as u8,
        b'0' + (status / 10 % 10) as u8,
        b'0' + (status % 10) as u8,
    ]
}

/// Adds the line for an answer.
fn push_line(text: &mut Vec<u8>, answer: &SharedReply) -> Result<(), AllocError>
    ensures { OnOk result (text.new.items ≡ text.old.items ++ told_line answer.now) }
{
    let status = digits(answer.status());
    text.extend_from_slice(b"{\"body\":")?;
    text.extend_from_slice(answer.body())?;
    text.extend_from_slice(b",\"status\":")?;
    text.extend_from_slice(&status)?;
    text.extend_from_slice(b"}\n")
}

/// How many bytes the lines take.
fn size_of_lines(answers: &[SharedReply]) -> usize {
    let mut size: usize = 0;
    for answer in answers {
        size = size.saturating_add(answer.body().len() + LINE_OVERHEAD);
    }
    size
}

/// The lines for the answers, in their order.
fn lines_of(alloc: Global, answers: &[SharedReply]) -> Result<Vec<u8>, AllocError>
    ensures { IfOk result (λ text. text.items ≡ flat_map told_line answers.now) }
{
    let mut text = Vec::with_capacity(alloc, size_of_lines(answers))?;
    for answer in answers {
        push_line(&mut text, answer)?;
    }
    Ok(text)
}

/// The response with a line for each answer.
///
/// # Errors
///
/// Out of memory.
pub(crate) fn response_of_all(alloc: Global, answers: &[SharedReply]) -> HttpResult
    ensures { IfOk result (λ response. SaysAll response answers.now) }
{
    let body = Bytes::from_vec(lines_of(alloc, answers)?)?;
    let mut response = Response::new(alloc, Full::new(body));
    *response.status_mut() = StatusCode::OK;
    let lines = HeaderValue::from_static("application/x-ndjson");
    with_field(response, CONTENT_TYPE, lines)
}
