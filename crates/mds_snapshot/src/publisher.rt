//! The publisher: the only writer of what is published.
ghost use Rattle.std.specs.Prelude.{◌≡◌, ◌++◌, ◌∷◌, [], drop, true, false, IfOk, OnOk, OnErr, IfSome, IsErr, MatchBool};
ghost use mathlib.Core.List.{IsPrefix};
ghost use Rattle.mds_catalog.specs.Publication.{publication_of, is_lawful};
ghost use Rattle.mds_catalog.specs.Catalogue.{publications_of};
ghost use Rattle.mds_catalog.specs.Laws.{AreLawful};
ghost use Rattle.mds_snapshot.specs.Copies.{IsFrontOf};
ghost use Rattle.mds_snapshot.specs.Publishing.{IsShorterFront};

use crate::history::{LoggedBatch, OpeningName, PublicationsHead, PublishedFront, UnnamedFront};
use crate::note::Note;
use crate::pane::Pane;
use crate::rule::Fronts;
use crate::snapshot_copy::{CopyOperation, SnapshotCopy};
use core::mem::replace_with;
use left_right::writer::Writer;
use mds_catalog::{Batch, Catalogue};
use std::alloc::AllocError;
use std::marker::Model;
use std::sync::{Arc, Wait};

/// The writer of the two copies of what is visible.
pub(crate) type Copies<K> = Writer<SnapshotCopy, CopyOperation, [LoggedBatch; 0], Fronts<K>>;

/// The writer of what is published, with a catalogue of its own. Contracts see the list that is published, and whether
/// the publisher is open: running out of memory within an exchange of the copies closes it. It is not `Drop`: end it
/// with `finish`.
pub struct Publisher<K: OpeningName> {
    writer: Copies<K>,
    ledger: PublicationsHead<K>,
    front: PublishedFront<K>,
    catalogue: Catalogue,
    is_open: bool,
}

impl<K: OpeningName> Model for Publisher<K> {
    ghost use Rattle.std.specs.Prelude.{◌≡◌, [], drop, true};
    ghost use Rattle.mds_catalog.specs.Catalogue.{publications_of};
    ghost use Rattle.mds_snapshot.specs.Copies.{IsFrontOf};
    ghost use Rattle.mds_snapshot.specs.Publishing.{Publishing, coded_publishing};

    ghost Value = { Publishing };

    ghost coded = { coded_publishing };

    ghost view = { λ p. record { publications = publications_of p.writer.desk.shown.value.catalogue; is_open = p.is_open } };

    ghost invariant = { λ p. IsFrontOf K.book p.writer.desk.shown.value × (publications_of p.writer.desk.shown.value.catalogue ≡ p.front) × (p.is_open ≡ true → drop p.writer.behind p.writer.log.items ≡ []) × (publications_of p.catalogue ≡ p.front) };
}

impl<K: OpeningName> Publisher<K> {
    /// An open publisher of the list that is visible.
    pub(crate) fn over(
        writer: Copies<K>,
        ledger: PublicationsHead<K>,
        front: PublishedFront<K>,
        catalogue: Catalogue,
    ) -> Publisher<K>
        requires shown { IsFrontOf K.book writer.desk.shown.value × (publications_of writer.desk.shown.value.catalogue ≡ front) }
        requires idle { drop writer.behind writer.log.items ≡ [] }
        requires own { publications_of catalogue ≡ front }
        ensures { result ≡ record { publications = front; is_open = true } }
    {
        Publisher {
            writer,
            ledger,
            front,
            catalogue,
            is_open: true,
        }
    }

    /// A pane that knows what was published so far; `None` where there is no slot for a further reader.
    pub(crate) fn pane(&self) -> Option<Pane<K>>
        requires { self.now.publications ≡ [] }
        ensures { IfSome result (λ p. p ≡ []) }
    {
        match self.writer.factory().reader() {
            Ok(reader) => Some(Pane::over(reader, self.front.again())),
            Err(_) => None,
        }
    }

    /// Runs an exchange of the copies that changes nothing. It allocates the room in the operations' log that each
    /// publication needs.
    pub(crate) fn warm_up<R: Wait>(self, rt: &R) -> (Publisher<K>, Result<(), AllocError>)
        requires { self.is_open ≡ true }
        ensures { OnOk result.1 (result.0 ≡ self) }
    {
        let Self {
            writer,
            ledger,
            front,
            catalogue,
            is_open: _,
        } = self;
        let (writer, shown) = rest::<K, R>(rt, writer);
        let publisher = Publisher {
            writer,
            ledger,
            front,
            catalogue,
            is_open: shown.is_ok(),
        };
        (publisher, shown)
    }

    /// The catalogue of the whole list.
    pub fn catalogue(&self) -> &Catalogue
        ensures publications { publications_of result.now ≡ self.now.publications }
        ensures lawful { AreLawful self.now.publications }
    {
        &self.catalogue
    }

    /// A note of the list. Allocates nothing.
    pub fn note(&self) -> Note<K>
        ensures { result ≡ self.now.publications }
    {
        Note::of(self.front.again())
    }

    /// Whether all that the pane knows is published here; if not, the pane knows all that is published here, and more.
    pub fn has_published(&self, pane: &Pane<K>) -> bool
        ensures { MatchBool result (IsPrefix pane.now self.now.publications) (IsShorterFront self.now.publications pane.now) }
    {
        self.front.covers(&pane.front())
    }

    /// Publishes a lawful batch at once, and returns a note of the list.
    ///
    /// # Errors
    ///
    /// Out of memory, or the publisher is closed. The list is unchanged, and no later call with another batch publishes
    /// this one. A closed publisher refuses every batch.
    pub fn publish<R: Wait>(&mut self, rt: &R, batch: Arc<Batch>) -> Result<Note<K>, AllocError>
        requires lawful { is_lawful self.old.publications (publication_of batch.value) ≡ true }
        ensures ok { IfOk result (λ n. (self.old.is_open ≡ true) × (self.new ≡ record { publications = self.old.publications ++ publication_of batch.value ∷ []; is_open = true }) × (n ≡ self.new.publications)) }
        ensures err { OnErr result (self.new ≡ record { publications = self.old.publications; is_open = false }) }
        ensures closed { self.old.is_open ≡ false → IsErr result × (self.new ≡ self.old) }
    {
        replace_with(
            self,
            (rt, batch),
            |publisher, (rt, batch)| publisher.publish_owned(rt, batch),
        )
    }

    fn publish_owned<R: Wait>(
        self,
        rt: &R,
        batch: Arc<Batch>,
    ) -> (Publisher<K>, Result<Note<K>, AllocError>)
        requires lawful { is_lawful self.publications (publication_of batch.value) ≡ true }
        ensures ok { IfOk result.1 (λ n. (self.is_open ≡ true) × (result.0 ≡ record { publications = self.publications ++ publication_of batch.value ∷ []; is_open = true }) × (n ≡ result.0.publications)) }
        ensures err { OnErr result.1 (result.0 ≡ record { publications = self.publications; is_open = false }) }
        ensures closed { self.is_open ≡ false → IsErr result.1 × (result.0 ≡ self) }
    {
        if !self.is_open {
            return (self, Err(AllocError));
        }
        let Ok(own) = Arc::try_clone(&batch) else {
            return (self.into_closed(), Err(AllocError));
        };
        let mut after = self.front.again();
        if !after.extend(&self.ledger, &batch) {
            return (self.into_closed(), Err(AllocError));
        }
        self.exchange_copies(rt, batch, own, after)
    }

    /// Closes the publisher: the list and the catalogue stay, and each further publication is refused.
    pub fn into_closed(self) -> Publisher<K>
        ensures { result ≡ record { publications = self.publications; is_open = false } }
    {
        let Self {
            writer,
            ledger,
            front,
            catalogue,
            is_open: _,
        } = self;
        Publisher {
            writer,
            ledger,
            front,
            catalogue,
            is_open: false,
        }
    }

    /// Runs the exchange that publishes, with the publisher's own reference to the batch and the list afterwards.
    fn exchange_copies<R: Wait>(
        self,
        rt: &R,
        batch: Arc<Batch>,
        own: Arc<Batch>,
        after: PublishedFront<K>,
    ) -> (Publisher<K>, Result<Note<K>, AllocError>)
        requires open { self.is_open ≡ true }
        requires lawful { is_lawful self.publications (publication_of batch.value) ≡ true }
        requires own { own.value ≡ batch.value }
        requires after { after ≡ self.publications ++ publication_of batch.value ∷ [] }
        ensures ok { IfOk result.1 (λ n. (result.0 ≡ record { publications = after; is_open = true }) × (n ≡ after)) }
        ensures err { OnErr result.1 (result.0 ≡ record { publications = self.publications; is_open = false }) }
    {
        let Self {
            writer,
            ledger,
            front,
            mut catalogue,
            is_open: _,
        } = self;
        let (writer, shown) = show::<K, R>(rt, writer, batch, after.trail());
        match shown {
            Ok(()) => {
                catalogue.adopt(own);
                let note = Note::of(after.again());
                let publisher = Publisher {
                    writer,
                    ledger,
                    front: after,
                    catalogue,
                    is_open: true,
                };
                (publisher, Ok(note))
            }
            Err(_) => {
                let publisher = Publisher {
                    writer,
                    ledger,
                    front,
                    catalogue,
                    is_open: false,
                };
                (publisher, Err(AllocError))
            }
        }
    }

    /// Ends the publisher, open or closed. Waits for the looks that are held; then there is nothing to look at.
    pub fn finish<R: Wait>(self, rt: &R) {
        let Self {
            writer,
            ledger: _ledger,
            front: _front,
            catalogue: _catalogue,
            is_open: _,
        } = self;
        drop(writer.take(rt));
    }
}

/// The exchange: one batch more is shown, or what was shown before.
fn show<K: OpeningName, R: Wait>(
    rt: &R,
    mut writer: Copies<K>,
    batch: Arc<Batch>,
    trail: UnnamedFront,
) -> (Copies<K>, Result<(), AllocError>)
    requires idle { drop writer.behind writer.log.items ≡ [] }
    requires lawful { is_lawful (publications_of writer.desk.shown.value.catalogue) (publication_of batch.value) ≡ true }
    requires front { trail.seen.log ≡ publications_of writer.desk.shown.value.catalogue ++ publication_of batch.value ∷ [] }
    requires named { trail.seen.book ≡ K.book }
    ensures ok { OnOk result.1 ((drop result.0.behind result.0.log.items ≡ [])
        × (publications_of result.0.desk.shown.value.catalogue ≡ trail.seen.log)
        × IsFrontOf K.book result.0.desk.shown.value) }
    ensures err { OnErr result.1 (result.0.desk.shown.value ≡ writer.desk.shown.value) }
{
    match writer.append(CopyOperation::Publish(batch, trail)) {
        Ok(()) => writer.publish_as::<Fronts<K>, R>(rt),
        Err(_) => (writer, Err(AllocError)),
    }
}

/// Runs an exchange that changes nothing. It allocates the room in the operations' log that each publication needs.
pub(crate) fn rest<K: OpeningName, R: Wait>(
    rt: &R,
    mut writer: Copies<K>,
) -> (Copies<K>, Result<(), AllocError>)
    requires idle { drop writer.behind writer.log.items ≡ [] }
    ensures ok { OnOk result.1 ((drop result.0.behind result.0.log.items ≡ [])
        × (publications_of result.0.desk.shown.value.catalogue ≡ publications_of writer.desk.shown.value.catalogue)
        × IsFrontOf K.book result.0.desk.shown.value) }
    ensures err { OnErr result.1 (result.0.desk.shown.value ≡ writer.desk.shown.value) }
{
    match writer.append(CopyOperation::Rest) {
        Ok(()) => writer.publish_as::<Fronts<K>, R>(rt),
        Err(_) => (writer, Err(AllocError)),
    }
}
