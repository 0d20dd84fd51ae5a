//! Header fields of responses.
ghost use Rattle.std.specs.Prelude.{◌≡◌, IfOk, OnErr, OnOk};
ghost use Rattle.http_header.specs.HeaderMap.{insert};
ghost use Rattle.server_responses.specs.Field.{HasField};

use bytes::Bytes;
use http::{HeaderMap, HeaderName, HeaderValue, Response};
use http_body_util::Full;
use std::alloc::AllocError;

/// A response with its whole body, or out of memory.
pub type HttpResult = Result<Response<Full<Bytes>>, AllocError>;

/// Sets a field to a value, in place of all its former values (RFC 9110, section 5).
///
/// # Errors
///
/// Out of memory: the fields are as they were.
pub fn set_field(
    headers: &mut HeaderMap,
    name: HeaderName,
    value: HeaderValue,
) -> Result<(), AllocError>
    ensures set { OnOk result (headers.new ≡ insert headers.old name value) }
    ensures refused { OnErr result (headers.new ≡ headers.old) }
{
    match headers.insert(name, value) {
        Ok(_) => Ok(()),
        Err(_) => Err(AllocError),
    }
}

/// The same response, with a field set to a value.
///
/// # Errors
///
/// Out of memory.
pub fn with_field(
    response: Response<Full<Bytes>>,
    name: HeaderName,
    value: HeaderValue,
) -> HttpResult
    ensures { IfOk result (HasField name value response) }
{
    let mut response = response;
    set_field(response.headers_mut(), name, value)?;
    Ok(response)
}
