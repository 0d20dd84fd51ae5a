//! The list of a publish request.
ghost use Rattle.std.specs.Prelude.{◌≡◌, true, IfOk};
ghost use Rattle.mds_text.specs.Fault.{Gives, text_cause};
ghost use Rattle.mds_json.specs.Node.{node_view};
ghost use Rattle.mds_catalog.specs.Publication.{are_distinct};
ghost use Rattle.mds_drafts.specs.Named.{distinct_ids_at};

use mds_catalog::are_distinct;
use mds_json::{Node, NodeBuffer, document_of, ids_at};
use mds_text::{Field, Id, TextFault};
use std::alloc::Global;

/// The identifiers of the drafts to publish and of the published policies to withdraw, each list in order and without
/// repeats.
#[derive(Drop)]
pub struct PublishList {
    pub(crate) geographies: Vec<Id>,
    pub(crate) policies: Vec<Id>,
    pub(crate) withdraw: Vec<Id>,
    ghost geographies_differ: { are_distinct geographies.items ≡ true },
    ghost policies_differ: { are_distinct policies.items ≡ true },
    ghost withdraw_differ: { are_distinct withdraw.items ≡ true },
}

impl PublishList {
    ghost use Rattle.mds_drafts.specs.Named.{names_nothing, publish_list_of, read_publish_list};
    ghost use Rattle.mds_drafts.specs.Values.{named_of};

    /// Reads a publish request: `geographies`, then `policies`, then `withdraw`, each an optional list of identifiers.
    /// Absent and null are the empty list.
    ///
    /// # Errors
    ///
    /// The first line that isn't met; an identifier that is twice in one list is a bad field.
    pub fn read(alloc: Global, text: &[u8]) -> Result<PublishList, TextFault>
        ensures { Gives text_cause named_of result (read_publish_list text.now) }
    {
        let mut source = NodeBuffer::new(alloc);
        let tree = source.read(alloc, text)?;
        PublishList::from_tree(alloc, &tree)
    }

    /// The list of a publish request's tree.
    fn from_tree(alloc: Global, tree: &Node<'_>) -> Result<PublishList, TextFault>
        ensures { Gives text_cause named_of result (publish_list_of (node_view tree.now)) }
    {
        let document = document_of(tree)?;
        let geographies = distinct_ids_at(alloc, document, Field::Geographies)?;
        let policies = distinct_ids_at(alloc, document, Field::Policies)?;
        let withdraw = distinct_ids_at(alloc, document, Field::Withdraw)?;
        Ok(PublishList {
            geographies,
            policies,
            withdraw,
        })
    }

    /// Whether no identifier is named.
    pub fn is_empty(&self) -> bool
        ensures { result ≡ names_nothing (named_of self.now) }
    {
        self.geographies.is_empty() && self.policies.is_empty() && self.withdraw.is_empty()
    }
}

/// An optional list of identifiers without repeats.
fn distinct_ids_at(alloc: Global, document: &Node<'_>, field: Field) -> Result<Vec<Id>, TextFault>
    ensures value { Gives text_cause (λ v. v.items) result (distinct_ids_at (node_view document.now) field) }
    ensures differ { IfOk result (λ v. are_distinct v.items ≡ true) }
{
    let ids = match ids_at(alloc, document, field)? {
        Some(ids) => ids,
        None => Vec::new(alloc),
    };
    if are_distinct(&ids) {
        Ok(ids)
    } else {
        Err(TextFault::BadField(field))
    }
}
