//! The first entries of a list while it is read: a list of two strings needs no allocation of its
//! own.
ghost use Rattle.std.specs.Prelude.{◌≡◌, IfOk, map};
ghost use Rattle.mds_text.specs.Tree.{list, items_of};
ghost use Rattle.mds_json.specs.Node.{node_view};
ghost use Rattle.mds_json.specs.Gathered.{gathered, scalar_view};

use crate::node::Node;
use std::alloc::{AllocError, Global};

/// A plain whole number or a string. A number that isn't plain is the string of its digits.
#[derive(Clone, Copy)]
pub(crate) enum Scalar<'a> {
    Int(i64),
    Text(&'a str),
}

impl<'a> Scalar<'a> {
    /// The node of the number or the string.
    #[inline(always)]
    pub(crate) fn node(self) -> Node<'a>
        ensures { node_view result ≡ scalar_view self.entry }
    {
        match self {
            Scalar::Int(int) => Node::Int(int),
            Scalar::Text(text) => Node::Text(text),
        }
    }
}

/// The numbers and strings that a list begins with, two at most.
#[derive(Clone, Copy)]
pub(crate) enum FirstEntries<'a> {
    Empty,
    One(Scalar<'a>),
    Two(Scalar<'a>, Scalar<'a>),
}

impl<'a> FirstEntries<'a> {
    /// The list of these entries. A list of two strings allocates nothing.
    #[inline(always)]
    pub(crate) fn list(self, alloc: Global) -> Result<Node<'a>, AllocError>
        ensures { IfOk result (λ node. node_view node ≡ list (items_of (gathered self.entry))) }
    {
        match self {
            FirstEntries::Two(Scalar::Text(first), Scalar::Text(second)) => {
                Ok(Node::Pair(first, second))
            }
            others => Ok(Node::List(others.entries(alloc)?)),
        }
    }

    /// The entries in a vector of their own.
    #[inline(never)]
    pub(crate) fn entries(self, alloc: Global) -> Result<Vec<Node<'a>>, AllocError>
        ensures { IfOk result (λ entries. map node_view entries.items ≡ gathered self.entry) }
    {
        match self {
            FirstEntries::Empty => Ok(Vec::new(alloc)),
            FirstEntries::One(first) => Ok(vec![in alloc; first.node()]?),
            FirstEntries::Two(first, second) => Ok(vec![in alloc; first.node(), second.node()]?),
        }
    }
}
