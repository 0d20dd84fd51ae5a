//! Panes and looks: snapshot readers, and the snapshots that they take.
ghost use Rattle.std.specs.Prelude.{◌≡◌, ◌⊎◌, MatchResult};
ghost use mathlib.Core.List.{IsPrefix};
ghost use Rattle.mds_catalog.specs.Catalogue.{publications_of};
ghost use Rattle.mds_catalog.specs.Laws.{AreLawful};

use crate::history::{LoggedBatch, OpeningName, PublishedFront};
use crate::note::Note;
use crate::rule::Fronts;
use crate::snapshot_copy::SnapshotCopy;
use left_right::reader::{Reader, Reading};
use mds_catalog::Catalogue;
use std::marker::Model;

/// A snapshot reader: one reader's slot, and what it knows to be published. Contracts see the longest front that was
/// seen or learnt.
#[derive(Drop)]
pub struct Pane<K: OpeningName> {
    reader: Reader<SnapshotCopy, [LoggedBatch; 0], Fronts<K>>,
    known: PublishedFront<K>,
}

impl<K: OpeningName> Model for Pane<K> {
    ghost use Rattle.std.specs.Prelude.{List};
    ghost use Rattle.mds_catalog.specs.Publication.{Publication};
    ghost use Rattle.mds_snapshot.specs.Codes.{coded_publications};

    ghost Value = { List Publication };

    ghost coded = { coded_publications };

    ghost view = { λ p. p.known };
}

/// A snapshot: one front of what is published, held until it is left. Dropping a look also drops its pane. Contracts
/// see the front.
pub struct Look<K: OpeningName> {
    reading: Reading<SnapshotCopy, [LoggedBatch; 0], Fronts<K>>,
    front: PublishedFront<K>,
}

impl<K: OpeningName> Model for Look<K> {
    ghost use Rattle.std.specs.Prelude.{◌≡◌, List};
    ghost use Rattle.mds_catalog.specs.Publication.{Publication};
    ghost use Rattle.mds_catalog.specs.Catalogue.{publications_of};
    ghost use Rattle.mds_catalog.specs.Laws.{AreLawful};
    ghost use Rattle.mds_snapshot.specs.Codes.{coded_publications};

    ghost Value = { List Publication };

    ghost coded = { coded_publications };

    ghost view = { λ l. l.front };

    ghost invariant = { λ l. (publications_of l.reading.part.value.catalogue ≡ l.front) × AreLawful l.front };
}

/// There is nothing to look at: the publisher is finished. The pane is unchanged.
#[derive(Drop)]
pub struct NotShown<K: OpeningName> {
    /// The pane, for further use.
    pub pane: Pane<K>,
}

impl<K: OpeningName> Pane<K> {
    pub(crate) fn over(
        reader: Reader<SnapshotCopy, [LoggedBatch; 0], Fronts<K>>,
        known: PublishedFront<K>,
    ) -> Pane<K>
        ensures { result ≡ known }
    {
        Pane { reader, known }
    }

    pub(crate) fn front(&self) -> PublishedFront<K>
        ensures { result ≡ self.now }
    {
        self.known.again()
    }

    /// Takes a snapshot of what is published: a list of publications with all that was seen and learnt as a prefix.
    ///
    /// # Errors
    ///
    /// There is no snapshot; the pane is returned unchanged.
    pub fn look(self) -> Result<Look<K>, NotShown<K>>
        ensures { MatchResult result (λ l. IsPrefix self l) (λ n. n.pane ≡ self) }
    {
        let Self { reader, known } = self;
        match reader.enter_as::<Fronts<K>>() {
            Ok(reading) => {
                let front: PublishedFront<K> = PublishedFront::of(reading.get().trail.again());
                if front.covers(&known) {
                    Ok(Look { reading, front })
                } else {
                    let reader = reading.leave();
                    Err(NotShown {
                        pane: Pane { reader, known },
                    })
                }
            }
            Err(reader) => Err(NotShown {
                pane: Pane { reader, known },
            }),
        }
    }

    /// Learns what was published: later looks have the note's list as a prefix too.
    pub fn learn(&mut self, note: &Note<K>)
        ensures kept { IsPrefix self.old self.new }
        ensures told { IsPrefix note.now self.new }
        ensures one { (self.new ≡ self.old) ⊎ (self.new ≡ note.now) }
    {
        let front = note.front();
        if !self.known.covers(&front) {
            self.known = front;
        }
    }
}

impl<K: OpeningName> Look<K> {
    /// The catalogue of the front.
    pub fn catalogue(&self) -> &Catalogue
        ensures publications { publications_of result.now ≡ self.now }
        ensures lawful { AreLawful self.now }
    {
        &self.reading.get().catalogue
    }

    /// A note of the front. Allocates nothing.
    pub fn note(&self) -> Note<K>
        ensures { result ≡ self.now }
    {
        Note::of(self.front.again())
    }

    /// Ends the look and returns its pane, which has seen this front.
    pub fn leave(self) -> Pane<K>
        ensures { result ≡ self }
    {
        let Self { reading, front } = self;
        Pane {
            reader: reading.leave(),
            known: front,
        }
    }
}

impl<K: OpeningName> Drop for Look<K> {
    fn drop(self) {
        drop(self.leave());
    }
}
