//! The request of an HTTP request's head and body.
ghost use Rattle.std.specs.Prelude.{◌≡◌, []};
ghost use Rattle.mds_request.specs.Request.{request_of};
ghost use Rattle.server_state.specs.HttpRequest.{token_in, token_of, target_of, request_in};

use http::header::AUTHORIZATION;
use http::request::Parts;
use http::{HeaderMap, Uri};
use mds_request::{Request, Verb};
use mds_text::Moment;

/// The length of `Bearer` and one space.
const SCHEME: usize = 7;

/// The access token of credentials of the scheme `Bearer`. Others carry the empty one, which no
/// client has.
fn bearer(credentials: &[u8]) -> &[u8]
    ensures { result.now ≡ token_in credentials.now }
{
    match credentials.split_at_checked(SCHEME) {
        Some((scheme, token)) if scheme.eq_ignore_ascii_case(b"Bearer ") => token,
        _ => &[],
    }
}

/// The access token that a head carries: that of its only `authorization` field. A head without
/// such a field, with several, or with credentials of another scheme than `Bearer` carries the
/// empty one, which no client has.
pub fn token(headers: &HeaderMap) -> &[u8]
    ensures { result.now ≡ token_of headers.now }
{
    let mut fields = headers.get_all(AUTHORIZATION).iter();
    match (fields.next(), fields.next()) {
        (Some(field), None) => bearer(field.as_bytes()),
        _ => &[],
    }
}

/// The target of a head: its path with its query (RFC 9112, section 3.2).
pub fn target(uri: &Uri) -> &[u8]
    ensures { result.now ≡ target_of uri.now }
{
    match uri.path_and_query() {
        Some(target) => target.as_str().as_bytes(),
        None => &[],
    }
}

/// The request of this head and body, to be answered at this moment.
pub(crate) fn request<'a>(parts: &'a Parts, body: &'a [u8], at: Moment) -> Request<'a>
    ensures { request_of result ≡ request_in parts.now body.now at }
{
    Request {
        at,
        token: token(&parts.headers),
        verb: Verb::read(parts.method.as_str().as_bytes()),
        target: target(&parts.uri),
        body,
    }
}

/// The request of this head with no body. What a head calls for depends neither on a body within
/// its limit nor on a moment.
pub(crate) fn head_request(parts: &Parts) -> Request<'_>
    ensures { request_of result ≡ request_in parts.now [] 0 }
{
    request(parts, &[], Moment::new(0).unwrap())
}
