//! Trees built by the program rather than read from a text.
ghost use Rattle.std.specs.Prelude.{◌≡◌, [], ◌∷◌, ◌++◌, IfOk, OnOk, OnErr, map, pos};
ghost use Rattle.mds_text.specs.Tree.{boolean, int, list, object, text, items_of, members_of, Json};
ghost use Rattle.mds_text.specs.View.{view, member_view};
ghost use Rattle.uuid.specs.Text.{hyphenated_text, lower};

use crate::id::Id;
use crate::tree::{Member, Tree};
use std::alloc::{AllocError, Global};

/// A string.
pub fn text_tree(alloc: Global, value: &str) -> Result<Tree, AllocError>
    ensures { IfOk result (λ t. view t ≡ text value.now) }
{
    Ok(Tree::Text(String::from_str(alloc, value)?))
}

/// An identifier as a string, in the hyphenated lower-case spelling (RFC 9562, section 4).
pub fn id_tree(alloc: Global, id: &Id) -> Result<Tree, AllocError>
    ensures { IfOk result (λ t. view t ≡ text (hyphenated_text lower id.now)) }
{
    Ok(Tree::Text(id.print(alloc)?))
}

/// A whole number.
pub fn int_tree(value: i64) -> Tree
    ensures { view result ≡ int value }
{
    Tree::Int(value)
}

/// A boolean.
pub fn bool_tree(value: bool) -> Tree
    ensures { view result ≡ boolean value }
{
    Tree::Bool(value)
}

/// A list of these entries.
pub fn list_tree(entries: Vec<Tree>) -> Tree
    ensures { view result ≡ list (items_of (map view entries.items)) }
{
    Tree::List(entries)
}

/// An object of these members, in their order.
pub fn object_tree(members: Vec<Member>) -> Tree
    ensures { view result ≡ object (members_of (map member_view members.items)) }
{
    Tree::Object(members)
}

/// Appends a member. `Err` leaves the members as they were, and drops the value.
pub fn add_member(members: &mut Vec<Member>, name: &str, value: Tree) -> Result<(), AllocError>
    ensures ok { OnOk result (map member_view members.new.items
        ≡ map member_view members.old.items ++ (name.now, view value) ∷ []) }
    ensures err { OnErr result (members.new.items ≡ members.old.items) }
{
    let name = String::from_str(*members.allocator(), name)?;
    members.push(Member { name, value })?;
    Ok(())
}

/// A deep copy of a tree.
#[cycle(copy_tree)]
pub fn copy_tree(alloc: Global, tree: &Tree) -> Result<Tree, AllocError>
    ensures { IfOk result (λ t. view t ≡ view tree.now) }
{
    match tree {
        Tree::Null => Ok(Tree::Null),
        Tree::Bool(b) => Ok(Tree::Bool(*b)),
        Tree::Int(int) => Ok(Tree::Int(*int)),
        Tree::Text(text) => Ok(Tree::Text(String::from_str(alloc, text.as_str())?)),
        Tree::Degrees(units) => Ok(Tree::Degrees(*units)),
        Tree::List(entries) => Ok(Tree::List(copy_list(alloc, entries)?)),
        Tree::Object(members) => Ok(Tree::Object(copy_members(alloc, members)?)),
    }
}

#[cycle(copy_tree)]
fn copy_list(alloc: Global, entries: &[Tree]) -> Result<Vec<Tree>, AllocError>
    ensures { IfOk result (λ v. map view v.items ≡ map view entries.now) }
{
    let mut copies = Vec::with_capacity(alloc, entries.len())?;
    for entry in entries {
        copies.push(copy_tree(alloc, entry)?)?;
    }
    Ok(copies)
}

/// Deep copies of the members of an object.
#[cycle(copy_tree)]
pub fn copy_members(alloc: Global, members: &[Member]) -> Result<Vec<Member>, AllocError>
    ensures { IfOk result (λ v. map member_view v.items ≡ map member_view members.now) }
{
    let mut copies = Vec::with_capacity(alloc, members.len())?;
    for member in members {
        let name = String::from_str(alloc, member.name.as_str())?;
        let value = copy_tree(alloc, &member.value)?;
        copies.push(Member { name, value })?;
    }
    Ok(copies)
}
