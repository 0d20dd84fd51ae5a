//! A refusal with its header field: the `allow` of a 405, the scheme of a 401.
ghost use Rattle.std.specs.Prelude.{◌≡◌, IfOk, IsTrue};
ghost use Rattle.std.specs.Option.{is_some};
ghost use Rattle.http_header.specs.FieldValue.{is_visible_text};
ghost use Rattle.http_header.specs.HeaderMap.{get};
ghost use Rattle.server_responses.specs.RefusalField.{IsGuided, IsNamed};

use crate::fields::{HttpResult, with_field};
use crate::hint::RefusalHint;
use bytes::Bytes;
use http::header::{ALLOW, WWW_AUTHENTICATE};
use http::{HeaderMap, HeaderName, HeaderValue, Response};
use http_body_util::Full;

/// The status of a request without valid credentials (RFC 9110, section 15.5.2).
const UNAUTHORIZED: u16 = 401;

/// The status of a request whose target hasn't its method (RFC 9110, section 15.5.6).
const METHOD_NOT_ALLOWED: u16 = 405;

/// Whether there is a field of this name.
fn has(headers: &HeaderMap, name: &HeaderName) -> bool
    ensures { result ≡ is_some (get headers.now name.now) }
{
    headers.get(name).is_some()
}

/// The same response, with this field where it had none of the name.
fn with_missing(response: Response<Full<Bytes>>, name: HeaderName, text: &'static str) -> HttpResult
    requires { IsTrue (is_visible_text text.now) }
    ensures { IfOk result (IsNamed name text.now response) }
{
    if has(response.headers(), &name) {
        return Ok(response);
    }
    with_field(response, name, HeaderValue::from_static(text))
}

/// The same response; one with status 401 has `www-authenticate: Bearer` (RFC 9110, section
/// 11.6.1), and one with status 405 has `allow` with the methods of the hint, if it has any (RFC
/// 9110, section 10.2.1). A response that has the field already keeps it as it is.
///
/// # Errors
///
/// Out of memory.
pub fn with_refusal_field(response: Response<Full<Bytes>>, guide: RefusalHint) -> HttpResult
    ensures { IfOk result (IsGuided guide.methods response) }
{
    match (response.status().as_u16(), guide.methods) {
        (UNAUTHORIZED, _) => with_missing(response, WWW_AUTHENTICATE, "Bearer"),
        (METHOD_NOT_ALLOWED, Some(methods)) => with_missing(response, ALLOW, methods.text()),
        _ => Ok(response),
    }
}
