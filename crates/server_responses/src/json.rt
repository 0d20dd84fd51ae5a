//! Responses with a body of JSON.
ghost use Rattle.std.specs.Prelude.{IfOk};
ghost use Rattle.server_responses.specs.Json.{IsJson};

use crate::fields::{HttpResult, with_field};
use bytes::Bytes;
use http::header::CONTENT_TYPE;
use http::{HeaderValue, Response, StatusCode};
use http_body_util::Full;
use std::alloc::Global;

/// The response with this status and body, whose only field says that the body is JSON.
///
/// # Errors
///
/// Out of memory.
pub fn json_response(alloc: Global, status: StatusCode, body: Bytes) -> HttpResult
    ensures { IfOk result (IsJson status body) }
{
    let mut response = Response::new(alloc, Full::new(body));
    *response.status_mut() = status;
    let json = HeaderValue::from_static("application/json");
    with_field(response, CONTENT_TYPE, json)
}
