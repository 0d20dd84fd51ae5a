//! Refusals before a desk or the author's room is asked.
ghost use Rattle.std.specs.Prelude.{◌≡◌, IfOk, Some, MatchResult};
ghost use Rattle.server_state.specs.Early.{unheard};
ghost use Rattle.server_state.specs.WholeRequest.{request_heard, IsHeard};

use crate::whole_request::WholeRequest;
use http::request::Parts;
use mds_request::{Code, MOST_BODY};
use mds_text::Moment;
use server_admission::Arrived;

/// The request of a head, with its moment and its body.
///
/// # Errors
///
/// There is no moment (`Clock`), or there is no body within its limit (`BadBody`, `TooLarge` or
/// `NoMemory`).
pub fn read_whole<'a>(
    parts: &'a Parts,
    arrived: &'a Arrived,
    at: Option<Moment>,
) -> Result<WholeRequest<'a>, Code>
    ensures heard { MatchResult result (λ heard. IsHeard parts.now arrived.now at (request_heard heard))
        (λ code. unheard arrived.now at ≡ Some code) }
    ensures head { IfOk result (λ heard. heard.parts.now ≡ parts.now) }
{
    let Some(at) = at else {
        return Err(Code::Clock);
    };
    match arrived {
        Arrived::Broken => Err(Code::BadBody),
        Arrived::TooLong => Err(Code::TooLarge),
        Arrived::NoMemory => Err(Code::NoMemory),
        Arrived::Whole(body) if body.len() > MOST_BODY => Err(Code::TooLarge),
        Arrived::Whole(body) => Ok(WholeRequest::new(parts, body, at)),
    }
}
