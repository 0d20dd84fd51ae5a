//! Owned trees from borrowed ones, and the other way round.
ghost use Rattle.std.specs.Prelude.{◌≡◌, IfOk, map};
ghost use Rattle.mds_text.specs.Tree.{list, item, text, no_items};
ghost use Rattle.mds_text.specs.View.{view, member_view};
ghost use Rattle.mds_json.specs.Node.{node_view, node_member_view, pair_view};

use crate::node::{Node, NodeMember};
use mds_text::{Member, Tree};
use std::alloc::{AllocError, Global};

/// An owned copy of a tree.
#[cycle(own)]
pub(crate) fn own(alloc: Global, node: &Node<'_>) -> Result<Tree, AllocError>
    ensures { IfOk result (λ t. view t ≡ node_view node.now) }
{
    match node {
        Node::Null => Ok(Tree::Null),
        Node::Bool(b) => Ok(Tree::Bool(*b)),
        Node::Int(int) => Ok(Tree::Int(*int)),
        Node::Text(text) => Ok(Tree::Text(String::from_str(alloc, text)?)),
        Node::Degrees(units) => Ok(Tree::Degrees(*units)),
        Node::Pair(first, second) => own_pair(alloc, first, second),
        Node::Pairs(pairs) => Ok(Tree::List(own_pairs(alloc, pairs)?)),
        Node::List(entries) => Ok(Tree::List(own_list(alloc, entries)?)),
        Node::Object(members) => Ok(Tree::Object(own_members(alloc, members)?)),
    }
}

/// A list of two strings.
fn own_pair(alloc: Global, first: &str, second: &str) -> Result<Tree, AllocError>
    ensures { IfOk result (λ t. view t ≡ list (item (text first.now) (item (text second.now) no_items))) }
{
    let first = String::from_str(alloc, first)?;
    let second = String::from_str(alloc, second)?;
    Ok(Tree::List(vec![in alloc; Tree::Text(first), Tree::Text(second)]?))
}

fn own_pairs(alloc: Global, pairs: &[(&str, &str)]) -> Result<Vec<Tree>, AllocError>
    ensures { IfOk result (λ v. map view v.items ≡ map pair_view pairs.now) }
{
    let mut owned = Vec::with_capacity(alloc, pairs.len())?;
    for pair in pairs {
        owned.push(own_pair(alloc, pair.0, pair.1)?)?;
    }
    Ok(owned)
}

#[cycle(own)]
fn own_list(alloc: Global, entries: &[Node<'_>]) -> Result<Vec<Tree>, AllocError>
    ensures { IfOk result (λ v. map view v.items ≡ map node_view entries.now) }
{
    let mut owned = Vec::with_capacity(alloc, entries.len())?;
    for entry in entries {
        owned.push(own(alloc, entry)?)?;
    }
    Ok(owned)
}

#[cycle(own)]
fn own_members(alloc: Global, members: &[NodeMember<'_>]) -> Result<Vec<Member>, AllocError>
    ensures { IfOk result (λ v. map member_view v.items ≡ map node_member_view members.now) }
{
    let mut owned = Vec::with_capacity(alloc, members.len())?;
    for member in members {
        let name = String::from_str(alloc, member.name)?;
        let value = own(alloc, &member.value)?;
        owned.push(Member { name, value })?;
    }
    Ok(owned)
}

/// A tree that borrows from an owned one.
#[cycle(lend)]
pub(crate) fn lend<'a>(alloc: Global, tree: &'a Tree) -> Result<Node<'a>, AllocError>
    ensures { IfOk result (λ n. node_view n ≡ view tree.now) }
{
    match tree {
        Tree::Null => Ok(Node::Null),
        Tree::Bool(b) => Ok(Node::Bool(*b)),
        Tree::Int(int) => Ok(Node::Int(*int)),
        Tree::Text(text) => Ok(Node::Text(text.as_str())),
        Tree::Degrees(units) => Ok(Node::Degrees(*units)),
        Tree::List(entries) => Ok(Node::List(lend_list(alloc, entries)?)),
        Tree::Object(members) => Ok(Node::Object(lend_members(alloc, members)?)),
    }
}

#[cycle(lend)]
fn lend_list<'a>(alloc: Global, entries: &'a [Tree]) -> Result<Vec<Node<'a>>, AllocError>
    ensures { IfOk result (λ v. map node_view v.items ≡ map view entries.now) }
{
    let mut lent = Vec::with_capacity(alloc, entries.len())?;
    for entry in entries {
        lent.push(lend(alloc, entry)?)?;
    }
    Ok(lent)
}

#[cycle(lend)]
fn lend_members<'a>(alloc: Global, members: &'a [Member]) -> Result<Vec<NodeMember<'a>>, AllocError>
    ensures { IfOk result (λ v. map node_member_view v.items ≡ map member_view members.now) }
{
    let mut lent = Vec::with_capacity(alloc, members.len())?;
    for member in members {
        let name = member.name.as_str();
        let value = lend(alloc, &member.value)?;
        lent.push(NodeMember { name, value })?;
    }
    Ok(lent)
}
