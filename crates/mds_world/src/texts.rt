//! Bodies that are joined from texts printed before.
ghost use Rattle.std.specs.Prelude.{◌≡◌, [], ◌∷◌, ◌++◌, IfOk, OnOk, map, codes};
ghost use Rattle.std.specs.Fmt.{decimal};
ghost use Rattle.std.specs.List.{flat_map, join_with_byte};
ghost use Rattle.mds_text.specs.Printed.{escaped, quoted};
ghost use Rattle.mds_world.specs.Texts.{list_text, revised_text};

use std::alloc::{AllocError, Global};

/// The most bytes of a body apart from its name and its texts: braces, quotation marks and the
/// revision.
const MARGIN: usize = 64;

/// Something published, under its name: `{name:[text,..],"revision":revision}`, from the texts of
/// its entries.
///
/// # Errors
///
/// Out of memory for the body.
pub(crate) fn list_body(
    alloc: Global,
    name: &str,
    texts: &[&[u8]],
    revision: u64,
) -> Result<Vec<u8>, AllocError>
    requires { flat_map escaped name.now ≡ name.now }
    ensures { IfOk result (λ v. v.items
        ≡ revised_text name.now (list_text (map (λ t. t.now) texts.now)) revision) }
{
    let mut body = body_start(alloc, name, length_of(texts))?;
    body.push(b'[')?;
    join(&mut body, texts)?;
    body.push(b']')?;
    close(&mut body, revision)?;
    Ok(body)
}

/// Something published, under its name: `{name:text,"revision":revision}`, from its text.
///
/// # Errors
///
/// Out of memory for the body.
pub(crate) fn text_body(
    alloc: Global,
    name: &str,
    text: &[u8],
    revision: u64,
) -> Result<Vec<u8>, AllocError>
    requires { flat_map escaped name.now ≡ name.now }
    ensures { IfOk result (λ v. v.items ≡ revised_text name.now text.now revision) }
{
    let mut body = body_start(alloc, name, text.len())?;
    body.extend_from_slice(text)?;
    close(&mut body, revision)?;
    Ok(body)
}

/// The total length of these texts, each with a comma.
fn length_of(texts: &[&[u8]]) -> usize {
    let mut length: usize = 0;
    for text in texts {
        length = length.saturating_add(text.len()).saturating_add(1);
    }
    length
}

/// A body up to the value of its first member, with capacity for a value of this length and the
/// rest.
fn body_start(alloc: Global, name: &str, length: usize) -> Result<Vec<u8>, AllocError>
    requires { flat_map escaped name.now ≡ name.now }
    ensures { IfOk result (λ v. v.items ≡ 123 ∷ quoted name.now ++ 58 ∷ []) }
{
    let room = length.saturating_add(name.len()).saturating_add(MARGIN);
    let mut body = Vec::with_capacity(alloc, room)?;
    body.extend_from_slice(b"{\"")?;
    body.extend_from_slice(name.as_bytes())?;
    body.extend_from_slice(b"\":")?;
    Ok(body)
}

/// Appends these texts, separated by commas.
fn join(body: &mut Vec<u8>, texts: &[&[u8]]) -> Result<(), AllocError>
    ensures { OnOk result (body.new.items ≡ body.old.items ++ join_with_byte 44 (map (λ t. t.now) texts.now)) }
{
    let Some((first, rest)) = texts.split_first() else {
        return Ok(());
    };
    body.extend_from_slice(first)?;
    for text in rest {
        body.push(b',')?;
        body.extend_from_slice(text)?;
    }
    Ok(())
}

/// Appends the number of publications as the last member, and closes the object.
fn close(body: &mut Vec<u8>, revision: u64) -> Result<(), AllocError>
    ensures { OnOk result (body.new.items
        ≡ body.old.items ++ 44 ∷ quoted (codes "revision") ++ 58 ∷ decimal revision ++ 125 ∷ []) }
{
    let digits = revision.to_string(*body.allocator())?;
    body.extend_from_slice(b",\"revision\":")?;
    body.extend_from_slice(digits.as_bytes())?;
    body.push(b'}')?;
    Ok(())
}
