//! The entries of a JSON list, built for it or borrowed.
ghost use Rattle.std.specs.Prelude.{◌≡◌, [], map, IfOk};
ghost use Rattle.mds_text.specs.Fault.{Gives, text_cause};
ghost use Rattle.mds_text.specs.Fields.{list_of};
ghost use Rattle.mds_json.specs.Entries.{entries_view, IsCausedWhere};
ghost use Rattle.mds_json.specs.Node.{node_view, pair_view};

use crate::node::Node;
use mds_text::{Field, TextFault};
use std::alloc::{AllocError, Global};

/// The entries of a list: those that were built for it, where there are any, else those borrowed
/// from its node.
#[derive(Drop)]
pub struct Entries<'t, 'a> {
    lent: &'t [Node<'a>],
    made: Vec<Node<'a>>,
}

impl<'t, 'a> Entries<'t, 'a> {
    /// The entries, in their order.
    pub fn as_slice(&self) -> &[Node<'a>]
        ensures { map node_view result.now ≡ entries_view self.now }
    {
        if self.made.is_empty() {
            self.lent
        } else {
            &self.made
        }
    }
}

/// The entries of a list. Any other value is a bad field of this name, without an allocation. A
/// list of two strings and a list of such lists have their entries allocated.
pub fn entries_of<'t, 'a>(
    alloc: Global,
    value: &'t Node<'a>,
    field: Field,
) -> Result<Entries<'t, 'a>, TextFault>
    ensures value { Gives text_cause (λ entries. entries_view entries) result (list_of field (node_view value.now)) }
    ensures memory { IsCausedWhere (list_of field (node_view value.now)) result }
{
    match value {
        Node::List(entries) => Ok(Entries {
            lent: entries,
            made: Vec::new(alloc),
        }),
        Node::Pair(first, second) => {
            let made = vec![in alloc; Node::Text(first), Node::Text(second)]?;
            Ok(Entries { lent: none(), made })
        }
        Node::Pairs(pairs) => Ok(Entries {
            lent: none(),
            made: nodes_of(alloc, pairs)?,
        }),
        _ => Err(TextFault::BadField(field)),
    }
}

/// Pairs, each as a node of its own.
pub(crate) fn nodes_of<'a>(
    alloc: Global,
    pairs: &[(&'a str, &'a str)],
) -> Result<Vec<Node<'a>>, AllocError>
    ensures { IfOk result (λ v. map node_view v.items ≡ map pair_view pairs.now) }
{
    let mut nodes = Vec::with_capacity(alloc, pairs.len())?;
    for pair in pairs {
        nodes.push(Node::Pair(pair.0, pair.1))?;
    }
    Ok(nodes)
}

fn none<'t, 'a>() -> &'t [Node<'a>]
    ensures { result.now ≡ [] }
{
    &[]
}
