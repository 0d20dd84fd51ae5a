//! An answer about the past, and the response with it.
ghost use Rattle.std.specs.Prelude.{IfOk};
ghost use Rattle.server_state.specs.Response.{Says};
ghost use Rattle.server_past.specs.Past.{not_kept};
ghost use Rattle.server_past.specs.Response.{reply_in};

use bytes::Bytes;
use http::StatusCode;
use mds_desk::SharedReply;
use server_responses::{HttpResult, json_response};
use server_state::response;
use std::alloc::Global;

/// An answer about the past.
#[derive(Drop)]
pub(crate) enum PastAnswer {
    /// This reply.
    Told(SharedReply),
    /// What stood then isn't kept any more.
    NotKept,
}

/// The response where what stood then isn't kept any more: status 410 (RFC 9110, section 15.5.11).
fn not_kept_response(alloc: Global) -> HttpResult
    ensures { IfOk result (λ response. Says response not_kept) }
{
    let body = Bytes::from_static(b"{\"error\":\"not_kept\"}");
    json_response(alloc, StatusCode::GONE, body)
}

/// The response with an answer.
///
/// # Errors
///
/// Out of memory.
pub(crate) fn response_of(alloc: Global, answer: PastAnswer) -> HttpResult
    ensures { IfOk result (λ response. Says response (reply_in answer)) }
{
    match answer {
        PastAnswer::Told(reply) => response(alloc, reply),
        PastAnswer::NotKept => not_kept_response(alloc),
    }
}
