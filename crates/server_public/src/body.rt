//! Bodies of responses, made of texts that are already printed.
ghost use Rattle.std.specs.Prelude.{◌≡◌, ◌++◌, codes, map, IfOk, OnOk};
ghost use Rattle.std.specs.Fmt.{decimal};
ghost use Rattle.std.specs.List.{join_with_byte};
ghost use Rattle.server_public.specs.Body.{body_text};

use bytes::Bytes;
use std::alloc::{AllocError, Global};

/// Room for the bytes of a body besides its name and texts.
const MARGIN: usize = 80;

/// How many bytes these texts have, each with a comma.
fn length_of(texts: &[&[u8]]) -> usize {
    let mut length: usize = 0;
    for text in texts {
        length = length.saturating_add(text.len()).saturating_add(1);
    }
    length
}

/// Adds these texts, with a comma between each two.
fn join(body: &mut Vec<u8>, texts: &[&[u8]]) -> Result<(), AllocError>
    ensures { OnOk result (body.new.items ≡ body.old.items ++ join_with_byte 44 (map (λ t. t.now) texts.now)) }
{
    let Some((first, rest)) = texts.split_first() else {
        return Ok(());
    };
    body.extend_from_slice(first)?;
    for text in rest {
        body.push(b',')?;
        body.extend_from_slice(text)?;
    }
    Ok(())
}

/// The bytes of a body up to its documents, with capacity for documents of this length and the
/// rest.
fn begin_body(alloc: Global, name: &str, length: usize) -> Result<Vec<u8>, AllocError>
    ensures { IfOk result (λ v. v.items ≡ codes "{\"data\":{\"" ++ name.now ++ codes "\":[") }
{
    let room = length.saturating_add(name.len()).saturating_add(MARGIN);
    let mut body = Vec::with_capacity(alloc, room)?;
    body.extend_from_slice(b"{\"data\":{\"")?;
    body.extend_from_slice(name.as_bytes())?;
    body.extend_from_slice(b"\":[")?;
    Ok(body)
}

/// Adds the bytes that come after the documents.
fn end_body(body: &mut Vec<u8>, updated: u64) -> Result<(), AllocError>
    ensures { OnOk result (body.new.items
        ≡ body.old.items ++ codes "]},\"last_updated\":" ++ decimal updated ++ codes ",\"version\":\"2.0.0\"}") }
{
    let digits = updated.to_string(*body.allocator())?;
    body.extend_from_slice(b"]},\"last_updated\":")?;
    body.extend_from_slice(digits.as_bytes())?;
    body.extend_from_slice(b",\"version\":\"2.0.0\"}")?;
    Ok(())
}

/// The bytes of a body.
fn body_in(alloc: Global, name: &str, texts: &[&[u8]], updated: u64) -> Result<Vec<u8>, AllocError>
    ensures { IfOk result (λ v. v.items ≡ body_text name.now (map (λ t. t.now) texts.now) updated) }
{
    let mut body = begin_body(alloc, name, length_of(texts))?;
    join(&mut body, texts)?;
    end_body(&mut body, updated)?;
    Ok(body)
}

/// A body of documents under their name, with the moment of the last change of the public
/// documents.
///
/// # Errors
///
/// Out of memory.
pub(crate) fn body_of(
    alloc: Global,
    name: &str,
    texts: &[&[u8]],
    updated: u64,
) -> Result<Bytes, AllocError>
    ensures { IfOk result (λ b. b ≡ body_text name.now (map (λ t. t.now) texts.now) updated) }
{
    let body = body_in(alloc, name, texts, updated)?;
    Ok(Bytes::from_vec(body)?)
}
