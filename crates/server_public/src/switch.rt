//! Whether a configuration turns the public documents on.
ghost use Rattle.std.specs.Prelude.{◌≡◌, codes, map, option_map, IfOk};
ghost use Rattle.mds_text.specs.Fields.{find_member};
ghost use Rattle.mds_text.specs.Tree.{members_of};
ghost use Rattle.mds_text.specs.View.{member_view, view};
ghost use Rattle.server_public.specs.Switch.{is_public, is_true, says_public};

use mds_text::{Member, TextFault, Tree, read_tree};
use std::alloc::{AllocError, Global};

/// The first member of this name.
fn find_member<'t>(members: &'t [Member], name: &str) -> Option<&'t Tree>
    ensures { option_map (λ t. view t.now) result ≡ find_member name.now (members_of (map member_view members.now)) }
{
    for member in members {
        if member.name.as_str() == name {
            return Some(&member.value);
        }
    }
    None
}

/// Whether there is a value, and it is true.
fn is_true(value: Option<&Tree>) -> bool
    ensures { result ≡ is_true (option_map (λ t. view t.now) value.entry) }
{
    match value {
        Some(Tree::Bool(value)) => *value,
        _ => false,
    }
}

/// Whether the first member of this name is true.
fn has_true(members: &[Member], name: &str) -> bool
    ensures { result ≡ is_true (find_member name.now (members_of (map member_view members.now))) }
{
    is_true(find_member(members, name))
}

/// Whether a value has a member `public` that is true.
fn says_public(value: &Tree) -> bool
    ensures { result ≡ says_public (view value.now) }
{
    match value {
        Tree::Object(members) => has_true(members, "public"),
        _ => false,
    }
}

/// Whether a configuration's text turns the public documents on: by its member `public`, which is `true`. Any other
/// value of it, and none, leaves them off.
///
/// # Errors
///
/// Out of memory.
pub fn is_public(alloc: Global, text: &[u8]) -> Result<bool, AllocError>
    ensures { IfOk result (λ is_on. is_on ≡ is_public text.now) }
{
    match read_tree(alloc, text) {
        Ok(tree) => Ok(says_public(&tree)),
        Err(TextFault::NoMemory) => Err(AllocError),
        Err(_) => Ok(false),
    }
}
