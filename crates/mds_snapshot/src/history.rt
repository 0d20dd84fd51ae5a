//! The history of what is published. It exists only in the proofs: what threads share is one word, its length.
ghost use Rattle.std.specs.Prelude.{◌≡◌, ◌+◌, ◌<◌, ◌^◌, ◌++◌, ◌∷◌, [], length, MatchBool};
ghost use mathlib.Core.List.{IsPrefix};
ghost use Rattle.mds_catalog.specs.Publication.{publication_of};
ghost use Rattle.mds_snapshot.specs.History.{head_of};
ghost use Rattle.mds_snapshot.specs.Publishing.{IsShorterFront};

use logbook::{Gain, Offer, Plain, Play, Rule, Seen, Word};
use mds_catalog::Batch;
use std::marker::{Brand, Model, PhantomData};

/// A batch, which contracts see as its publication. No value of this type exists at run time.
pub struct LoggedBatch {
    batch: Batch,
}

impl Model for LoggedBatch {
    ghost use Rattle.mds_catalog.specs.Publication.{Publication, publication_of};
    ghost use Rattle.mds_snapshot.specs.Codes.{coded_publication};

    ghost Value = { Publication };

    ghost coded = { coded_publication };

    ghost view = { λ l. publication_of l.batch };
}

/// The invariant of the book in which the history is recorded.
pub struct PublicationsRule;

impl Rule<LoggedBatch, u64> for PublicationsRule {
    ghost use Rattle.std.specs.Prelude.{[]};
    ghost use base.Fml.{ftrue};
    ghost use Rattle.mds_snapshot.specs.History.{IsKept};

    ghost holds = { λ cells log. IsKept cells log };

    ghost first = { [] };

    ghost hinted = { λ n log. Unit {0} };

    ghost shows = { λ log. [] };

    ghost keeps = { λ names log. ftrue };

    ghost moves = { λ ask before after answer. Unit {0} };
}

/// Callers trade nothing in a step.
pub struct NoSnapshotGain;

impl Gain<LoggedBatch, u64> for NoSnapshotGain {
    ghost use base.Fml.{ftrue};

    ghost after = { λ names about answer. ftrue };
}

/// The step that appends a publication.
pub struct AddPublication;

impl Play<LoggedBatch, u64> for AddPublication {
    ghost use Rattle.mds_snapshot.specs.History.{Adds};

    ghost then = { Adds };
}

impl Plain<Batch, LoggedBatch, u64> for AddPublication {
    ghost use Rattle.std.specs.Prelude.{None};
    ghost use Rattle.mds_catalog.specs.Publication.{publication_of};

    ghost ask = { publication_of };

    ghost state = { λ batch. None };
}

/// Says to which opening a publisher, a pane, a look or a note belongs. A program passes what it opens to a function
/// that is generic over this trait, and calls it with `Brand`; the proof of that call picks the book of the `Blank`.
pub trait OpeningName {
    ghost use Rattle.logbook.specs.Pages.{Book};

    ghost book: { Book };
}

impl OpeningName for Brand {
    ghost book = { record { number = 0; log_name = 0; cells_name = 0 } };
}

/// An empty history, not yet under a name.
#[derive(Drop)]
pub struct NewHistory {
    head: Word<LoggedBatch, u64, PublicationsRule>,
    pub seen: Seen<LoggedBatch, u64, PublicationsRule>,
    /// What was seen of the history: nothing yet.
    pub ghost empty: { seen.log ≡ [] },
    pub ghost head_is: { head ≡ head_of seen.book },
}

impl NewHistory {
    /// Begins a history.
    pub fn new() -> NewHistory {
        let (seen, mut first, _second) = Seen::open(logbook::Start::alone(), 0, 0);
        NewHistory {
            head: Word::tracked(0, &mut first),
            seen,
        }
    }

    /// Puts it under a name: the word that has its length, and the empty front.
    pub fn with_name<K: OpeningName>(self) -> (PublicationsHead<K>, PublishedFront<K>)
        requires { self.seen.book ≡ K.book }
        ensures { result.1 ≡ [] }
    {
        let NewHistory { head, seen } = self;
        (
            PublicationsHead {
                head,
                of: PhantomData,
            },
            PublishedFront {
                trail: UnnamedFront { count: 0, seen },
                of: PhantomData,
            },
        )
    }
}

/// The shared word: the length of the history.
#[derive(Drop)]
pub struct PublicationsHead<K: OpeningName> {
    head: Word<LoggedBatch, u64, PublicationsRule>,
    of: PhantomData<K>,
    ghost head_is: { head ≡ head_of K.book },
}

/// A front of some history that was reached, and its length, without a name.
#[derive(Drop)]
pub struct UnnamedFront {
    count: u64,
    /// What was seen of the history: the front.
    pub seen: Seen<LoggedBatch, u64, PublicationsRule>,
    ghost counted: { count ≡ length seen.log },
}

impl UnnamedFront {
    /// The same front.
    pub fn again(&self) -> UnnamedFront
        ensures { result ≡ self.now }
    {
        UnnamedFront {
            count: self.count,
            seen: self.seen.again(),
        }
    }
}

/// A front of the history of this name. Contracts see its publications.
#[derive(Drop)]
pub struct PublishedFront<K: OpeningName> {
    trail: UnnamedFront,
    of: PhantomData<K>,
}

impl<K: OpeningName> Model for PublishedFront<K> {
    ghost use Rattle.std.specs.Prelude.{◌≡◌, List};
    ghost use Rattle.mds_catalog.specs.Publication.{Publication};
    ghost use Rattle.mds_snapshot.specs.Codes.{coded_publications};

    ghost Value = { List Publication };

    ghost coded = { coded_publications };

    ghost view = { λ f. f.trail.seen.log };

    ghost invariant = { λ f. f.trail.seen.book ≡ K.book };
}

impl<K: OpeningName> PublishedFront<K> {
    /// The front of a trail of this name's history.
    pub fn of(trail: UnnamedFront) -> PublishedFront<K>
        requires { trail.seen.book ≡ K.book }
        ensures { result ≡ trail.seen.log }
    {
        PublishedFront {
            trail,
            of: PhantomData,
        }
    }

    /// The same front.
    pub fn again(&self) -> PublishedFront<K>
        ensures { result ≡ self.now }
    {
        PublishedFront {
            trail: self.trail.again(),
            of: PhantomData,
        }
    }

    /// The front's trail, for the copies, which have no name.
    pub fn trail(&self) -> UnnamedFront
        ensures { (result.seen.log ≡ self.now) × (result.seen.book ≡ K.book) }
    {
        self.trail.again()
    }

    /// Whether the other front is a prefix of this one; else this one is a prefix of the other, which is longer.
    pub fn covers(&self, other: &PublishedFront<K>) -> bool
        ensures { MatchBool result (IsPrefix other.now self.now) (IsShorterFront self.now other.now) }
    {
        let mut both = self.trail.seen.again();
        both.learn(&other.trail.seen);
        other.trail.count <= self.trail.count
    }

    /// Tries to append a batch after all that was seen, and returns whether it did.
    pub fn extend(&mut self, ledger: &PublicationsHead<K>, batch: &Batch) -> bool
        requires room { length self.old < 2 ^ 62 }
        ensures { MatchBool result (self.new ≡ self.old ++ publication_of batch.now ∷ []) (IsPrefix self.old self.new) }
    {
        let UnnamedFront { count, mut seen } = self.trail.again();
        let mut offer: Offer<LoggedBatch, u64, PublicationsRule, NoSnapshotGain> = seen.plain::<
            NoSnapshotGain,
            Batch,
            AddPublication,
        >(batch);
        let mut pen = seen.no_pen();
        let found = ledger
            .head
            .compare_exchange::<AddPublication, NoSnapshotGain>(
                count,
                count + 1,
                &mut seen,
                &mut offer,
                &mut pen,
            );
        let added = found == count;
        let count = if added { count + 1 } else { found };
        self.trail = UnnamedFront { count, seen };
        added
    }
}
