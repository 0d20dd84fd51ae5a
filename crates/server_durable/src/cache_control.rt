//! Responses that no cache may store.
ghost use Rattle.std.specs.Prelude.{IfOk};
ghost use Rattle.server_durable.specs.CacheControl.{IsUnstored};

use bytes::Bytes;
use http::header::CACHE_CONTROL;
use http::{HeaderValue, Response};
use http_body_util::Full;
use server_responses::{HttpResult, with_field};

/// The same response, which no cache may store: a city's answers are of one moment and for one client.
///
/// # Errors
///
/// Out of memory for the field.
pub(crate) fn mark_unstored(response: Response<Full<Bytes>>) -> HttpResult
    ensures { IfOk result (IsUnstored response) }
{
    let no_store = HeaderValue::from_static("no-store");
    with_field(response, CACHE_CONTROL, no_store)
}
