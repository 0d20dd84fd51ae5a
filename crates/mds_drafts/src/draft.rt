//! A draft: a document of the author that isn't published yet.
use mds_geography::Geography;
use mds_policy::Policy;
use mds_text::{DraftKind, Id};
use std::sync::Arc;

/// A document that isn't published yet, behind an `Arc` so that a batch can share it.
#[derive(Drop)]
pub enum Draft {
    /// A policy.
    Policy(Arc<Policy>),
    /// A geography.
    Geography(Arc<Geography>),
}

impl Draft {
    ghost use Rattle.std.specs.Prelude.{◌≡◌};
    ghost use Rattle.mds_drafts.specs.Entries.{document_of};
    ghost use Rattle.mds_drafts.specs.Drafts.{is_of, kind_of, id_of};

    /// The document's kind.
    pub fn kind(&self) -> DraftKind
        ensures { result ≡ kind_of (document_of self.now) }
    {
        match self {
            Draft::Policy(_) => DraftKind::Policy,
            Draft::Geography(_) => DraftKind::Geography,
        }
    }

    /// The document's own identifier.
    pub fn id(&self) -> Id
        ensures { result ≡ id_of (document_of self.now) }
    {
        match self {
            Draft::Policy(policy) => policy.id(),
            Draft::Geography(geography) => geography.id(),
        }
    }

    /// Whether the document has this kind and this identifier.
    pub(crate) fn is_of(&self, kind: DraftKind, id: Id) -> bool
        ensures { result ≡ is_of (document_of self.now) kind id }
    {
        match (self, kind) {
            (Draft::Policy(policy), DraftKind::Policy) => policy.id() == id,
            (Draft::Geography(geography), DraftKind::Geography) => geography.id() == id,
            _ => false,
        }
    }
}
