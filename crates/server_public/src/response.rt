//! The responses with public documents, or with a refusal.
ghost use Rattle.std.specs.Prelude.{◌≡◌, [], map, IfOk, OnOk, Ok, Err};
ghost use Rattle.server_public.specs.declared.refusal.Refusal.TheVariants.{Method};
ghost use Rattle.server_public.specs.Response.{Says, common_fields, field, fields_of, refusal_status, refusal_text};

use crate::refusal::Refusal;
use bytes::Bytes;
use http::header::{ACCESS_CONTROL_ALLOW_ORIGIN, ALLOW, CACHE_CONTROL, CONTENT_TYPE};
use http::{HeaderMap, HeaderValue, Response, StatusCode};
use http_body_util::Full;
use server_responses::{HttpResult, set_field};
use std::alloc::{AllocError, Global};

/// The type of every response, with its version.
const MEDIA_TYPE: &str = "application/vnd.mds+json;version=2.0";

/// Sets the fields of every response.
fn put_common(headers: &mut HeaderMap) -> Result<(), AllocError>
    requires { headers.old ≡ [] }
    ensures { OnOk result (headers.new ≡ map field common_fields) }
{
    let no_cache = HeaderValue::from_static("no-cache");
    let any_origin = HeaderValue::from_static("*");
    set_field(headers, CONTENT_TYPE, HeaderValue::from_static(MEDIA_TYPE))?;
    set_field(headers, CACHE_CONTROL, no_cache)?;
    set_field(headers, ACCESS_CONTROL_ALLOW_ORIGIN, any_origin)
}

/// The status of a refusal.
fn status_of(refusal: Refusal) -> StatusCode
    ensures { result ≡ refusal_status refusal }
{
    match refusal {
        Refusal::BadParameter => StatusCode::BAD_REQUEST,
        Refusal::NotFound => StatusCode::NOT_FOUND,
        Refusal::Method => StatusCode::METHOD_NOT_ALLOWED,
        Refusal::NotAcceptable => StatusCode::NOT_ACCEPTABLE,
    }
}

/// The body of a refusal.
fn text_of(refusal: Refusal) -> &'static str
    ensures { result.now ≡ refusal_text refusal }
{
    match refusal {
        Refusal::BadParameter =>
            "{\"error\":\"bad_param\",\"error_description\":\"moments are milliseconds since the Unix epoch\",\"error_details\":[]}",
        Refusal::NotFound =>
            "{\"error\":\"not_found\",\"error_description\":\"nothing of this identifier is public\",\"error_details\":[]}",
        Refusal::Method =>
            "{\"error\":\"method\",\"error_description\":\"this is only to be read\",\"error_details\":[]}",
        Refusal::NotAcceptable =>
            "{\"error\":\"not_acceptable\",\"error_description\":\"the version served is 2.0\",\"error_details\":[]}",
    }
}

/// The response with this body.
fn body_response(alloc: Global, body: Bytes) -> HttpResult
    ensures { IfOk result (Says (Ok body)) }
{
    let mut response = Response::new(alloc, Full::new(body));
    put_common(response.headers_mut())?;
    Ok(response)
}

/// The response with a refusal.
fn refusal_response(alloc: Global, refusal: Refusal) -> HttpResult
    ensures { IfOk result (Says (Err refusal)) }
{
    let body = Bytes::from_static(text_of(refusal).as_bytes());
    let mut response = Response::new(alloc, Full::new(body));
    *response.status_mut() = status_of(refusal);
    put_common(response.headers_mut())?;
    if refusal == Refusal::Method {
        let reading = HeaderValue::from_static("GET, HEAD");
        set_field(response.headers_mut(), ALLOW, reading)?;
    }
    Ok(response)
}

/// The response with an answer.
///
/// # Errors
///
/// Out of memory.
pub fn response_of(alloc: Global, answer: Result<Bytes, Refusal>) -> HttpResult
    ensures { IfOk result (Says answer) }
{
    match answer {
        Ok(body) => body_response(alloc, body),
        Err(refusal) => refusal_response(alloc, refusal),
    }
}
