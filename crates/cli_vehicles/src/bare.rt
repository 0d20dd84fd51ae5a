//! Prints values whose numbers were read as the texts of their characters, with these as numbers again.
ghost use Rattle.std.specs.Prelude.{◌≡◌, false, [], ◌∷◌, ◌++◌, IfOk, OnOk, map, option_map};
ghost use Rattle.mds_text.specs.Tree.{items_of, members_of};
ghost use Rattle.mds_text.specs.View.{view, member_view};
ghost use Rattle.mds_text.specs.Printed.{quoted, printed};
ghost use Rattle.cli_vehicles.specs.Published.{bare, bare_text, bare_items, bare_members, or_null};

use mds_text::{Member, Tree, is_quoted, print_tree, text_tree};
use std::alloc::{AllocError, Global};

/// The text of a JSON string.
pub(crate) fn json_string(alloc: Global, text: &str) -> Result<Vec<u8>, AllocError>
    ensures { IfOk result (λ v. v.items ≡ quoted text.now) }
{
    print_tree(alloc, &text_tree(alloc, text)?)
}

/// Appends the text of a JSON string.
fn push_json_string(out: &mut Vec<u8>, text: &str) -> Result<(), AllocError>
    ensures { OnOk result (out.new.items ≡ out.old.items ++ quoted text.now) }
{
    let text = json_string(*out.allocator(), text)?;
    out.extend_from_slice(&text)
}

/// Appends a JSON string, or the number that the text reads as where that isn't plain.
fn push_text(out: &mut Vec<u8>, text: &str) -> Result<(), AllocError>
    ensures { OnOk result (out.new.items ≡ out.old.items ++ bare_text text.now) }
{
    if is_quoted(text.as_bytes()) {
        out.extend_from_slice(text.as_bytes())
    } else {
        push_json_string(out, text)
    }
}

/// Appends a value as it is printed, such numbers as strings.
pub(crate) fn push_tree(out: &mut Vec<u8>, value: &Tree) -> Result<(), AllocError>
    ensures { OnOk result (out.new.items ≡ out.old.items ++ printed (view value.now)) }
{
    let text = print_tree(*out.allocator(), value)?;
    out.extend_from_slice(&text)
}

/// Appends a value, such numbers as numbers.
#[cycle(push_bare)]
fn push_bare(out: &mut Vec<u8>, value: &Tree) -> Result<(), AllocError>
    ensures { OnOk result (out.new.items ≡ out.old.items ++ bare (view value.now)) }
{
    match value {
        Tree::Text(text) => push_text(out, text.as_str()),
        Tree::List(items) => push_bare_list(out, items),
        Tree::Object(members) => push_bare_object(out, members),
        Tree::Null | Tree::Bool(_) | Tree::Int(_) | Tree::Degrees(_) => push_tree(out, value),
    }
}

#[cycle(push_bare)]
fn push_bare_list(out: &mut Vec<u8>, items: &[Tree]) -> Result<(), AllocError>
    ensures { OnOk result (out.new.items ≡ out.old.items ++ 91 ∷ bare_items false (items_of (map view items.now)) ++ 93 ∷ []) }
{
    out.push(b'[')?;
    let mut later = false;
    for item in items {
        if later {
            out.push(b',')?;
        }
        push_bare(out, item)?;
        later = true;
    }
    out.push(b']')?;
    Ok(())
}

#[cycle(push_bare)]
fn push_bare_object(out: &mut Vec<u8>, members: &[Member]) -> Result<(), AllocError>
    ensures { OnOk result (out.new.items ≡ out.old.items ++ 123 ∷ bare_members false (members_of (map member_view members.now)) ++ 125 ∷ []) }
{
    out.push(b'{')?;
    let mut later = false;
    for member in members {
        if later {
            out.push(b',')?;
        }
        push_json_string(out, member.name.as_str())?;
        out.push(b':')?;
        push_bare(out, &member.value)?;
        later = true;
    }
    out.push(b'}')?;
    Ok(())
}

/// Prints a value, such numbers as numbers.
pub(crate) fn print_bare(alloc: Global, value: &Tree) -> Result<Vec<u8>, AllocError>
    ensures { IfOk result (λ v. v.items ≡ bare (view value.now)) }
{
    let mut text = Vec::new(alloc);
    push_bare(&mut text, value)?;
    Ok(text)
}

/// Appends a value as it is printed, or null.
fn push_or_null(out: &mut Vec<u8>, value: Option<&Tree>) -> Result<(), AllocError>
    ensures { OnOk result (out.new.items ≡ out.old.items ++ or_null printed (option_map (λ t. view t.now) value.entry)) }
{
    match value {
        Some(value) => push_tree(out, value),
        None => out.extend_from_slice(b"null"),
    }
}

/// Appends a value, such numbers as numbers, or null.
fn push_bare_or_null(out: &mut Vec<u8>, value: Option<&Tree>) -> Result<(), AllocError>
    ensures { OnOk result (out.new.items ≡ out.old.items ++ or_null bare (option_map (λ t. view t.now) value.entry)) }
{
    match value {
        Some(value) => push_bare(out, value),
        None => out.extend_from_slice(b"null"),
    }
}

/// Appends these bytes, and a value as it is printed, or null.
pub(crate) fn push_member(
    out: &mut Vec<u8>,
    before: &[u8],
    value: Option<&Tree>,
) -> Result<(), AllocError>
    ensures { OnOk result (out.new.items ≡ out.old.items ++ before.now ++ or_null printed (option_map (λ t. view t.now) value.entry)) }
{
    out.extend_from_slice(before)?;
    push_or_null(out, value)
}

/// Appends these bytes, and a value, such numbers as numbers, or null.
pub(crate) fn push_bare_member(
    out: &mut Vec<u8>,
    before: &[u8],
    value: Option<&Tree>,
) -> Result<(), AllocError>
    ensures { OnOk result (out.new.items ≡ out.old.items ++ before.now ++ or_null bare (option_map (λ t. view t.now) value.entry)) }
{
    out.extend_from_slice(before)?;
    push_bare_or_null(out, value)
}
