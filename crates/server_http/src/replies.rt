//! Responses that only the connection layer gives: that the server is busy, and that the connection
//! closes.
ghost use Rattle.std.specs.Prelude.{◌≡◌, IfOk, Ok, IsTrue, IsFalse};
ghost use Rattle.server_admission.specs.Arrival.{closes_after};
ghost use Rattle.server_http.specs.Busy.{Closes, SaysBusy};

use bytes::Bytes;
use http::header::CONNECTION;
use http::{HeaderValue, Response, StatusCode};
use http_body_util::Full;
use server_admission::Arrived;
use server_responses::{HttpResult, json_response, with_field};
use std::alloc::Global;

/// The response that says that too much waits: nothing was asked, and nothing has changed.
///
/// # Errors
///
/// Out of memory.
pub fn busy(alloc: Global) -> HttpResult
    ensures { IfOk result SaysBusy }
{
    let body = Bytes::from_static(b"{\"error\":\"busy\"}");
    with_close(json_response(alloc, StatusCode::SERVICE_UNAVAILABLE, body)?)
}

/// The same response, which says that the connection is closed after it.
///
/// # Errors
///
/// Out of memory.
pub fn with_close(response: Response<Full<Bytes>>) -> HttpResult
    ensures { IfOk result (Closes response) }
{
    with_field(response, CONNECTION, HeaderValue::from_static("close"))
}

/// The response to a request with this body: after one that wasn't read whole the connection is
/// closed.
///
/// # Errors
///
/// Out of memory.
pub fn close_unless_whole(response: Response<Full<Bytes>>, arrived: &Arrived) -> HttpResult
    ensures closes { IsTrue (closes_after arrived.now) → IfOk result (Closes response) }
    ensures same { IsFalse (closes_after arrived.now) → result ≡ Ok response }
{
    if arrived.closes() {
        with_close(response)
    } else {
        Ok(response)
    }
}
