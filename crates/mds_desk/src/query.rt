//! Queries outside the protocol's calls.
ghost use Rattle.std.specs.Prelude.{IfOk};
ghost use Rattle.mds_catalog.specs.Catalogue.{publications_of};
ghost use Rattle.mds_drafts.specs.Values.{drafts_of};

use mds_catalog::Catalogue;
use mds_drafts::Drafts;
use std::alloc::{AllocError, Global};

/// A read-only query about what is published, outside the protocol's calls.
pub trait DeskQuery {
    ghost use Rattle.std.specs.Prelude.{List};
    ghost use Rattle.mds_catalog.specs.Publication.{Publication};

    /// The answer.
    type Told;

    /// This is the answer for these publications.
    ghost tells: { Self → List Publication → Self.Told → Type 0 };

    /// Answers the query for the publications of a catalogue.
    ///
    /// # Errors
    ///
    /// Out of memory.
    fn run_query(&self, alloc: Global, catalogue: &Catalogue) -> Result<Self::Told, AllocError>
        ensures { IfOk result (tells self.now (publications_of catalogue.now)) };
}

/// A read-only query about the drafts and about what is published, outside the protocol's calls.
pub trait RoomQuery {
    ghost use Rattle.std.specs.Prelude.{List};
    ghost use Rattle.mds_catalog.specs.Publication.{Publication};
    ghost use Rattle.mds_drafts.specs.Drafts.{Drafts as Held};

    /// The answer.
    type Told;

    /// This is the answer for these drafts and publications.
    ghost tells: { Self → Held → List Publication → Self.Told → Type 0 };

    /// Answers the query for these drafts, and for the publications of a catalogue.
    ///
    /// # Errors
    ///
    /// Out of memory.
    fn run_query(
        &self,
        alloc: Global,
        drafts: &Drafts,
        catalogue: &Catalogue,
    ) -> Result<Self::Told, AllocError>
        ensures { IfOk result (tells self.now (drafts_of drafts.now) (publications_of catalogue.now)) };
}
