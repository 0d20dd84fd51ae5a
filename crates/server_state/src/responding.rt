//! The HTTP response of an answer.
ghost use Rattle.std.specs.Prelude.{IfOk};
ghost use Rattle.server_state.specs.Response.{Says};

use http::StatusCode;
use mds_desk::SharedReply;
use server_responses::{HttpResult, json_response};
use std::alloc::{AllocError, Global};

/// The response with this answer's status and body, as JSON.
///
/// # Errors
///
/// Out of memory.
pub fn response(alloc: Global, answer: SharedReply) -> HttpResult
    ensures { IfOk result (λ response. Says response answer) }
{
    // Each answer's status has three digits.
    let Ok(status) = StatusCode::from_u16(answer.status()) else {
        return Err(AllocError);
    };
    json_response(alloc, status, answer.into_bytes(alloc)?)
}
