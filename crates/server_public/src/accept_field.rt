//! Which versions of a response the client accepts (MDS 2.0, general information: versioning).
ghost use Rattle.std.specs.Prelude.{◌≡◌, ◌<◌, codes, length, position, IfSome};
ghost use Rattle.std.specs.List.{list_any};
ghost use Rattle.http_header.specs.HeaderMap.{get_all};
ghost use Rattle.server_public.specs.AcceptField.{has_this_version, is_accepted, is_any_version, is_semicolon, is_this_version};
ghost use Rattle.server_public.specs.AcceptField.{line_takes, takes, trimmed, type_of};

use http::HeaderMap;
use http::header::ACCEPT;

/// Without the white space around it.
fn without_space(bytes: &[u8]) -> &[u8]
    ensures { result.now ≡ trimmed bytes.now }
{
    bytes.trim_ascii()
}

/// Whether a media type accepts any version.
fn is_any_version(media_type: &[u8]) -> bool
    ensures { result ≡ is_any_version media_type.now }
{
    media_type.eq_ignore_ascii_case(b"*/*")
        || media_type.eq_ignore_ascii_case(b"application/*")
        || media_type.eq_ignore_ascii_case(b"application/json")
}

/// The length of the parameter's name in bytes, with its `=`.
const NAME: usize = 8;

/// Whether a parameter doesn't name another version.
fn is_this_version(parameter: &[u8]) -> bool
    ensures { result ≡ is_this_version parameter.now }
{
    match parameter.split_at_checked(NAME) {
        Some((name, version)) if name.eq_ignore_ascii_case(b"version=") => {
            version == b"2.0".as_slice()
        }
        _ => true,
    }
}

/// The position of the first `;` of a media range.
fn semicolon_at(range: &[u8]) -> Option<usize>
    ensures value { result ≡ position is_semicolon range.now }
    ensures bound { IfSome result (λ at. at < length range.now) }
{
    range.iter().position(|byte| *byte == b';')
}

/// The type of a media range.
fn type_of(range: &[u8]) -> &[u8]
    ensures { result.now ≡ type_of range.now }
{
    match semicolon_at(range) {
        Some(at) => without_space(&range[..at]),
        None => without_space(range),
    }
}

/// Whether no parameter of a media range names another version.
fn has_this_version(range: &[u8]) -> bool
    ensures { result ≡ has_this_version range.now }
{
    range
        .split(|byte| *byte == b';')
        .all(|parameter| is_this_version(without_space(parameter)))
}

/// Whether a media range accepts the response.
fn takes(range: &[u8]) -> bool
    ensures { result ≡ takes range.now }
{
    let media_type = type_of(range);
    is_any_version(media_type)
        || (media_type.eq_ignore_ascii_case(b"application/vnd.mds+json") && has_this_version(range))
}

/// Whether a line of `accept` has a range that accepts the response.
fn line_takes(line: &[u8]) -> bool
    ensures { result ≡ line_takes line.now }
{
    line.split(|byte| *byte == b',').any(|range| takes(range))
}

/// Whether a line of `accept` accepts the response.
fn one_takes(headers: &HeaderMap) -> bool
    ensures { result ≡ list_any (λ line. line_takes line.bytes) (get_all headers.now (codes "accept")) }
{
    headers
        .get_all(ACCEPT)
        .iter()
        .any(|line| line_takes(line.as_bytes()))
}

/// Whether the client accepts the response: it has no field `accept`, or one that allows it.
pub(crate) fn is_accepted(headers: &HeaderMap) -> bool
    ensures { result ≡ is_accepted headers.now }
{
    headers.get_all(ACCEPT).iter().next().is_none() || one_takes(headers)
}
