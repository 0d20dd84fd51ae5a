//! A note: a version of what is published.
ghost use Rattle.std.specs.Prelude.{◌≡◌, ◌≢◌, MatchBool};
ghost use mathlib.Core.List.{IsPrefix};
ghost use Rattle.mds_snapshot.specs.Publishing.{IsShorterFront};

use crate::history::{OpeningName, PublishedFront};
use std::marker::Model;

/// A version of what is published, for a pane to learn. Contracts see its list of publications.
#[derive(Drop)]
pub struct Note<K: OpeningName> {
    front: PublishedFront<K>,
}

impl<K: OpeningName> Model for Note<K> {
    ghost use Rattle.std.specs.Prelude.{List};
    ghost use Rattle.mds_catalog.specs.Publication.{Publication};
    ghost use Rattle.mds_snapshot.specs.Codes.{coded_publications};

    ghost Value = { List Publication };

    ghost coded = { coded_publications };

    ghost view = { λ n. n.front };
}

impl<K: OpeningName> Note<K> {
    pub(crate) fn of(front: PublishedFront<K>) -> Note<K>
        ensures { result ≡ front }
    {
        Note { front }
    }

    /// A note of the same list.
    pub fn again(&self) -> Note<K>
        ensures { result ≡ self.now }
    {
        Note {
            front: self.front.again(),
        }
    }

    /// Whether the other's list is a prefix of this one's; if not, this one's is a prefix of the other's, which is
    /// longer. Both are of one opening. Allocates nothing.
    pub fn covers(&self, other: &Note<K>) -> bool
        ensures { MatchBool result (IsPrefix other.now self.now) (IsShorterFront self.now other.now) }
    {
        self.front.covers(&other.front)
    }

    /// Whether both notes are of the same list. Allocates nothing.
    #[tactic(auto, using(crate::proofs::Fronts::one_list, crate::proofs::Fronts::longer))]
    pub fn is_of_list(&self, other: &Note<K>) -> bool
        ensures { MatchBool result (self.now ≡ other.now) (self.now ≢ other.now) }
    {
        self.covers(other) && other.covers(self)
    }

    pub(crate) fn front(&self) -> PublishedFront<K>
        ensures { result ≡ self.now }
    {
        self.front.again()
    }
}
