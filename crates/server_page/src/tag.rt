//! Entity tags: the tag of a file's bytes, and whether a request's condition names it.
ghost use Rattle.std.specs.Prelude.{◌≡◌, IfOk, codes};
ghost use Rattle.std.specs.List.{list_any, slice_split};
ghost use Rattle.http_header.specs.HeaderMap.{get_all};
ghost use Rattle.server_page.specs.Tag.{is_comma, is_named, is_member, is_named_in, opaque, tag_of, trimmed};

use http::HeaderMap;
use http::header::IF_NONE_MATCH;
use sha2::{Digest, Sha256};
use std::alloc::{AllocError, Global};

/// The entity tag of a file's bytes: strong, the SHA-256 of the bytes in quotes.
///
/// # Errors
///
/// Out of memory.
pub fn tag_of(alloc: Global, bytes: &[u8]) -> Result<Vec<u8>, AllocError>
    ensures { IfOk result (λ tag. tag.items ≡ tag_of bytes.now) }
{
    let sum = hex::encode(alloc, Sha256::digest(bytes))?;
    let mut tag = Vec::new(alloc);
    tag.push(b'"')?;
    tag.extend_from_slice(sum.as_bytes())?;
    tag.push(b'"')?;
    Ok(tag)
}

/// Without the white space around it.
fn trim_space(bytes: &[u8]) -> &[u8]
    ensures { result.now ≡ trimmed bytes.now }
{
    bytes.trim_ascii()
}

/// A tag without the prefix of a weak one.
fn opaque(tag: &[u8]) -> &[u8]
    ensures { result.now ≡ opaque tag.now }
{
    match tag {
        [b'W', b'/', rest @ ..] => rest,
        _ => tag,
    }
}

/// Whether a member of a list is the tag.
fn is_member(member: &[u8], tag: &[u8]) -> bool
    ensures { result ≡ is_member tag.now member.now }
{
    opaque(trim_space(member)) == tag
}

/// Whether a member of a list, between commas, is the tag.
fn is_listed(list: &[u8], tag: &[u8]) -> bool
    ensures { result ≡ list_any (is_member tag.now) (slice_split is_comma list.now) }
{
    list.split(|byte| *byte == b',')
        .any(|member| is_member(member, tag))
}

/// Whether a field line names the tag: by `*`, or in a list of tags.
pub fn is_named(line: &[u8], tag: &[u8]) -> bool
    ensures { result ≡ is_named tag.now line.now }
{
    trim_space(line) == b"*".as_slice() || is_listed(line, tag)
}

/// Whether a head's `if-none-match` field names the tag.
pub(crate) fn is_named_in(headers: &HeaderMap, tag: &[u8]) -> bool
    ensures { result ≡ is_named_in headers.now tag.now }
{
    headers
        .get_all(IF_NONE_MATCH)
        .iter()
        .any(|line| is_named(line.as_bytes(), tag))
}
