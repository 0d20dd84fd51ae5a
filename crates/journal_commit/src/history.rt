//! The history of what is appended, and of what of it is synced. It exists in the proofs alone: what threads share are
//! two atomic words, how many payloads were appended, and how many of these are synced.
ghost use Rattle.std.specs.Prelude.{◌≡◌, ◌==◌, ◌+◌, ◌<◌, ◌≤◌, ◌^◌, ◌++◌, ◌∷◌, ℕ, List, [], length, take, IfOk, MatchBool, OnOk, true};
ghost use mathlib.Core.List.{IsPrefix};
ghost use Rattle.journal_commit.specs.History.{AreSynced, appended_of, synced_of};

use journal_file::{Log, SyncFault};
use logbook::{Gain, Offer, Plain, Play, Rule, Seen, Word};
use std::marker::{Brand, Model, PhantomData};

/// A payload, which contracts see as its bytes. No value of this type is made.
pub struct Text {
    bytes: Vec<u8>,
}

impl Model for Text {
    ghost use Rattle.std.specs.Prelude.{ℕ, List};
    ghost use Rattle.journal_commit.specs.Codes.{coded_text};

    ghost Value = { List ℕ };

    ghost coded = { coded_text };

    ghost view = { λ t. t.bytes.items };
}

/// The rule of the history's book.
pub struct CommitRule<L: Log> {
    of: PhantomData<L>,
}

impl<L: Log> Rule<Text, u64> for CommitRule<L> {
    ghost use Rattle.std.specs.Prelude.{[]};
    ghost use base.Fml.{ftrue};
    ghost use Rattle.journal_commit.specs.History.{IsKept};

    ghost holds = { λ cells log. IsKept L.may_be L.is_synced cells log };

    ghost first = { [] };

    ghost hinted = { λ n log. Unit {0} };

    ghost shows = { λ log. [] };

    ghost keeps = { λ names log. ftrue };

    ghost moves = { λ ask before after answer. Unit {0} };
}

/// Callers trade nothing.
pub struct NoCommitGain;

impl Gain<Text, u64> for NoCommitGain {
    ghost use base.Fml.{ftrue};

    ghost after = { λ names about answer. ftrue };
}

/// The step that appends a payload.
pub struct AppendStep;

impl Play<Text, u64> for AppendStep {
    ghost use Rattle.journal_commit.specs.History.{Adds};

    ghost then = { Adds };
}

impl Plain<Vec<u8>, Text, u64> for AppendStep {
    ghost use Rattle.std.specs.Prelude.{None};

    ghost ask = { λ text. text.items };

    ghost state = { λ text. None };
}

/// The step that reads how many payloads were appended.
pub struct ReadAppendedStep;

impl Play<Text, u64> for ReadAppendedStep {
    ghost use Rattle.journal_commit.specs.History.{Stamps};

    ghost then = { Stamps };
}

/// The request of a step that appends nothing.
impl Plain<(), Text, u64> for ReadAppendedStep {
    ghost use Rattle.std.specs.Prelude.{None, []};

    ghost ask = { λ nothing. [] };

    ghost state = { λ nothing. None };
}

/// The step that records how many payloads are synced.
pub struct RecordSyncedStep;

impl Play<Text, u64> for RecordSyncedStep {
    ghost use Rattle.journal_commit.specs.History.{Raises};

    ghost then = { Raises };
}

/// The step that reads how many payloads are synced.
pub struct ReadSyncedStep<L: Log> {
    of: PhantomData<L>,
}

impl<L: Log> Play<Text, u64> for ReadSyncedStep<L> {
    ghost use Rattle.journal_commit.specs.History.{Finds};

    ghost then = { Finds L.may_be L.is_synced };
}

/// Names one opened log in the proofs. A program passes what it opens to a function that is generic over the name, and
/// calls it with `Brand`; the proof of that call picks the book of what was opened, the number of the client of each
/// payload, and the payloads that the log had when it was opened.
pub trait LogName {
    ghost use Rattle.std.specs.Prelude.{ℕ, List};
    ghost use Rattle.logbook.specs.Pages.{Book};

    ghost book: { Book };

    ghost client_of: { List ℕ → ℕ };

    ghost first: { List (List ℕ) };
}

/// The name of a log that several threads have. `Brand` alone has it, so that the proof of a call with `Brand` can pick
/// the book.
pub trait SharedLogName: LogName + Send + Sync {}

impl SharedLogName for Brand {}

impl LogName for Brand {
    ghost book = { record { number = 0; log_name = 0; cells_name = 0 } };

    ghost client_of = { λ text. 0 };

    ghost first = { [] };
}

/// An empty history, which has no name yet.
#[derive(Drop)]
pub struct UnnamedHistory<L: Log> {
    /// How many payloads the log has.
    pub(crate) position: u64,
    appended: Word<Text, u64, CommitRule<L>>,
    synced: Word<Text, u64, CommitRule<L>>,
    /// What is seen of the book: nothing is appended yet.
    pub seen: Seen<Text, u64, CommitRule<L>>,
    pub ghost empty: { seen.log ≡ [] },
    pub ghost appended_is: { appended ≡ appended_of seen.book },
    pub ghost synced_is: { synced ≡ synced_of seen.book },
}

impl<L: Log> UnnamedHistory<L> {
    /// Begins a history after what the log has. It syncs the log first.
    ///
    /// # Errors
    ///
    /// That sync failed.
    pub fn new(log: &mut L) -> Result<UnnamedHistory<L>, SyncFault>
        requires { (first : List (List ℕ)) × L.may_be log.old first }
        ensures unchanged { (list : List (List ℕ)) → L.may_be log.old list → L.may_be log.new list }
    {
        let position = log.sync()?;
        let (seen, mut first, mut second) = Seen::open(logbook::Start::alone(), 0, 0);
        Ok(UnnamedHistory {
            position,
            appended: Word::tracked(0, &mut first),
            synced: Word::tracked(0, &mut second),
            seen,
        })
    }

    /// Gives it a name, and returns its words and the log position at which nothing is appended.
    pub fn with_name<K: LogName>(self) -> (CommitLedger<K, L>, LogPosition<K, L>)
        requires { self.seen.book ≡ K.book }
        ensures { result.1 ≡ [] }
    {
        let UnnamedHistory {
            position: _,
            appended,
            synced,
            seen,
        } = self;
        (
            CommitLedger {
                appended,
                synced,
                of: PhantomData,
            },
            LogPosition {
                count: 0,
                seen,
                of: PhantomData,
            },
        )
    }
}

/// The words that all share: how many payloads were appended, and how many of these are synced.
#[derive(Drop)]
pub struct CommitLedger<K: LogName, L: Log> {
    appended: Word<Text, u64, CommitRule<L>>,
    synced: Word<Text, u64, CommitRule<L>>,
    of: PhantomData<K>,
    ghost appended_is: { appended ≡ appended_of K.book },
    ghost synced_is: { synced ≡ synced_of K.book },
}

/// A log position: all that was appended when something was shown. Contracts see the payloads, in order.
#[derive(Drop)]
pub struct LogPosition<K: LogName, L: Log> {
    count: u64,
    seen: Seen<Text, u64, CommitRule<L>>,
    of: PhantomData<K>,
}

impl<K: LogName, L: Log> Model for LogPosition<K, L> {
    ghost use Rattle.std.specs.Prelude.{◌≡◌, ℕ, List, length};
    ghost use Rattle.journal_commit.specs.Codes.{coded_texts};

    ghost Value = { List (List ℕ) };

    ghost coded = { coded_texts };

    ghost view = { λ s. s.seen.log };

    ghost invariant = { λ s. (s.seen.book ≡ K.book) × (s.count ≡ length s.seen.log) };
}

/// The synced prefix of what was appended, which only a sync produces. Contracts see the payloads, in order.
#[derive(Drop)]
pub struct SyncedPrefix<K: LogName, L: Log> {
    count: u64,
    seen: Seen<Text, u64, CommitRule<L>>,
    of: PhantomData<K>,
}

impl<K: LogName, L: Log> Model for SyncedPrefix<K, L> {
    ghost use Rattle.std.specs.Prelude.{◌≡◌, ◌≤◌, ℕ, List, length, take};
    ghost use Rattle.journal_commit.specs.Codes.{coded_texts};
    ghost use Rattle.journal_commit.specs.History.{AreSynced};

    ghost Value = { List (List ℕ) };

    ghost coded = { coded_texts };

    ghost view = { λ s. take s.count s.seen.log };

    ghost invariant = { λ s. (s.seen.book ≡ K.book) × (s.count ≤ length s.seen.log) × AreSynced L.may_be L.is_synced (take s.count s.seen.log) };
}

impl<K: LogName, L: Log> LogPosition<K, L> {
    /// How many payloads there are up to it.
    pub fn len(&self) -> u64
        ensures { result ≡ length self.now }
    {
        self.count
    }

    /// The same log position.
    pub fn again(&self) -> LogPosition<K, L>
        ensures { result ≡ self.now }
    {
        LogPosition {
            count: self.count,
            seen: self.seen.again(),
            of: PhantomData,
        }
    }

    /// Whether both have the same payloads, which they have where they have as many.
    pub fn is_of(&self, other: &LogPosition<K, L>) -> bool
        ensures same { result ≡ true → self.now ≡ other.now }
        ensures counted { result ≡ (length self.now == length other.now) }
    {
        let mut both = self.seen.again();
        both.learn(&other.seen);
        self.count == other.count
    }

    /// Whether the other's payloads begin with these.
    pub fn begins(&self, other: &LogPosition<K, L>) -> bool
        ensures { result ≡ true → IsPrefix self.now other.now }
    {
        let mut both = self.seen.again();
        both.learn(&other.seen);
        self.count <= other.count
    }

    /// The log position of all that was appended by now. It doesn't wait.
    pub fn later(&self, ledger: &CommitLedger<K, L>) -> LogPosition<K, L>
        ensures { IsPrefix self.now result }
    {
        let mut seen = self.seen.again();
        let mut offer: Offer<Text, u64, CommitRule<L>, NoCommitGain> = seen.plain::<
            NoCommitGain,
            (),
            ReadAppendedStep,
        >(&());
        let count = ledger
            .appended
            .load::<ReadAppendedStep, NoCommitGain>(&mut seen, &mut offer);
        LogPosition {
            count,
            seen,
            of: PhantomData,
        }
    }

    /// Appends a payload to all that was seen, and returns whether it did. It doesn't where another did.
    pub fn extend(&mut self, ledger: &CommitLedger<K, L>, text: &Vec<u8>) -> bool
        requires room { length self.old < 2 ^ 62 }
        ensures { MatchBool result (self.new ≡ self.old ++ text.now.items ∷ []) (IsPrefix self.old self.new) }
    {
        let mut seen = self.seen.again();
        let mut offer: Offer<Text, u64, CommitRule<L>, NoCommitGain> = seen.plain::<
            NoCommitGain,
            Vec<u8>,
            AppendStep,
        >(text);
        let mut pen = seen.no_pen();
        let count = self.count;
        let found = ledger
            .appended
            .compare_exchange::<AppendStep, NoCommitGain>(
                count,
                count + 1,
                &mut seen,
                &mut offer,
                &mut pen,
            );
        let added = found == count;
        self.count = if added { count + 1 } else { found };
        self.seen = seen;
        added
    }

    /// Records that all these payloads are synced.
    pub fn publish(&self, ledger: &CommitLedger<K, L>, log: &L, before: u64)
        requires synced { L.is_synced log.now }
        requires texts { (first : List (List ℕ)) × L.may_be log.now (first ++ self.now) }
    {
        let mut seen = self.seen.again();
        let mut offer: Offer<Text, u64, CommitRule<L>, NoCommitGain> = seen.plain::<
            NoCommitGain,
            (),
            ReadAppendedStep,
        >(&());
        let mut pen = seen.no_pen();
        let _found = ledger
            .synced
            .compare_exchange::<RecordSyncedStep, NoCommitGain>(
                before, self.count, &mut seen, &mut offer, &mut pen,
            );
    }

    /// What is synced by now: a prefix of what was appended. It doesn't wait.
    #[tactic(auto, using(crate::proofs::Fronts::taken_begins))]
    pub fn synced_prefix(&self, ledger: &CommitLedger<K, L>) -> SyncedPrefix<K, L>
        ensures synced { AreSynced L.may_be L.is_synced result }
        ensures front { (appended : List (List ℕ)) × IsPrefix self.now appended × IsPrefix result appended }
    {
        let mut seen = self.seen.again();
        let mut offer: Offer<Text, u64, CommitRule<L>, NoCommitGain> = seen.plain::<
            NoCommitGain,
            (),
            ReadAppendedStep,
        >(&());
        let count = ledger
            .synced
            .load::<ReadSyncedStep<L>, NoCommitGain>(&mut seen, &mut offer);
        SyncedPrefix {
            count,
            seen,
            of: PhantomData,
        }
    }

    /// Whether all these payloads are synced.
    pub fn is_within(&self, synced: &SyncedPrefix<K, L>) -> bool
        ensures { MatchBool result (IsPrefix self.now synced.now) (length synced.now < length self.now) }
    {
        let mut both = self.seen.again();
        both.learn(&synced.seen);
        self.count <= synced.count
    }
}
