//! The flusher: one thread that writes and syncs for all that wait.
ghost use Rattle.std.specs.Prelude.{◌≡◌, ◌++◌, ◌≤◌, [], map, IfOk, OnOk, vec_capacity, vec_len};
ghost use Rattle.journal_commit.specs.History.{AreSynced};
ghost use Rattle.journal_commit.specs.declared.decisions.TheConstants.{MOST_TEXTS};

use crate::commit_log::CommitLog;
use crate::decisions::MOST_TEXTS;
use crate::history::{CommitLedger, LogName, LogPosition};
use crate::rounds::{BegunRound, EndedRound, Rounds};
use crate::space::Space;
use journal_file::{AppendFault, Log, SyncFault};
use std::alloc::{AllocError, Global};
use std::marker::Model;
use std::sync::Wait;

/// Why the flusher ended. No response leaves any more then, and what is in memory may be ahead of the disk.
#[derive(Clone, Copy, Debug, PartialEq, Eq)]
pub enum FlushFault {
    /// What waited isn't known to be appended.
    NotAppended(AppendFault),
    /// What was appended isn't known to be synced.
    NotSynced,
    /// The commit log failed, which doesn't happen where each reservation is used where it was made.
    Failed,
}

impl From<AppendFault> for FlushFault {
    fn from(fault: AppendFault) -> FlushFault {
        FlushFault::NotAppended(fault)
    }
}

impl From<SyncFault> for FlushFault {
    fn from(_: SyncFault) -> FlushFault {
        FlushFault::NotSynced
    }
}

/// A log, and what was appended to it since it was opened. Contracts see these payloads: the log may be what it had then,
/// with these behind.
#[derive(Drop)]
struct FlushedLog<K: LogName, L: Log> {
    log: L,
    /// How many payloads the log has.
    position: u64,
    taken: LogPosition<K, L>,
    /// How many of the payloads the ledger reports as synced.
    synced: u64,
    /// The number of the last round that has begun.
    round: u64,
}

impl<K: LogName, L: Log> Model for FlushedLog<K, L> {
    ghost use Rattle.std.specs.Prelude.{ℕ, List, ◌++◌};
    ghost use Rattle.journal_commit.specs.Codes.{coded_texts};

    ghost Value = { List (List ℕ) };

    ghost coded = { coded_texts };

    ghost view = { λ w. w.taken };

    ghost invariant = { λ w. L.may_be w.log (K.first ++ w.taken) };
}

/// A log behind its last append. It is synced, and it may be what it had when it was opened, with the payloads behind
/// that contracts see.
#[derive(Drop)]
pub struct SyncedLog<K: LogName, L: Log> {
    log: L,
    position: LogPosition<K, L>,
}

impl<K: LogName, L: Log> Model for SyncedLog<K, L> {
    ghost use Rattle.std.specs.Prelude.{ℕ, List, ◌++◌};
    ghost use Rattle.journal_commit.specs.Codes.{coded_texts};

    ghost Value = { List (List ℕ) };

    ghost coded = { coded_texts };

    ghost view = { λ ended. ended.position };

    ghost invariant = { λ ended. L.is_synced ended.log × L.may_be ended.log (K.first ++ ended.position) };
}

impl<K: LogName, L: Log> SyncedLog<K, L> {
    /// The log position of all that was appended since the log was opened.
    pub fn position(&self) -> LogPosition<K, L>
        ensures { result ≡ self.now }
    {
        self.position.again()
    }

    /// The log itself.
    pub fn into_log(self) -> L
        ensures synced { L.is_synced result }
        ensures whole { L.may_be result (K.first ++ self) }
    {
        self.log
    }
}

/// The flusher, for a thread of its own.
#[derive(Drop)]
pub struct Flusher<K: LogName, L: Log> {
    written: FlushedLog<K, L>,
    /// The group that is written at once. It is empty between two rounds.
    group: Vec<Vec<u8>>,
    ghost empty: { vec_len group ≡ 0 },
    ghost capacity: { MOST_TEXTS ≤ vec_capacity group },
}

impl<K: LogName, L: Log> FlushedLog<K, L> {
    /// Appends a group in a round that has begun, syncs it, which ends the round, and records that in the ledger. Where the
    /// group is empty it syncs alone.
    ///
    /// # Errors
    ///
    /// An append or a sync failed.
    fn write(
        &mut self,
        ledger: &CommitLedger<K, L>,
        round: BegunRound,
        group: &[Vec<u8>],
        reached: LogPosition<K, L>,
    ) -> Result<EndedRound, FlushFault>
        requires { reached ≡ self.old ++ map (λ v. v.items) group.now }
        ensures all { OnOk result (self.new ≡ reached) }
        ensures synced { OnOk result (AreSynced L.may_be L.is_synced reached) }
        ensures round { IfOk result (λ ended. ended.number ≡ round.number) }
    {
        if !group.is_empty() {
            self.position = self.log.append(self.position, group)?;
        }
        self.taken = reached;
        let ended = round.sync(&mut self.log)?;
        self.taken.publish(ledger, &self.log, self.synced);
        self.synced = self.taken.len();
        Ok(ended)
    }

    /// A round from its beginning to its end: writes a group.
    ///
    /// # Errors
    ///
    /// An append or a sync failed.
    fn flush(
        &mut self,
        ledger: &CommitLedger<K, L>,
        rounds: &Rounds,
        group: &[Vec<u8>],
        reached: LogPosition<K, L>,
    ) -> Result<(), FlushFault>
        requires { reached ≡ self.old ++ map (λ v. v.items) group.now }
        ensures all { OnOk result (self.new ≡ reached) }
        ensures synced { OnOk result (AreSynced L.may_be L.is_synced reached) }
    {
        let round = rounds.begin(self.round).ok_or(FlushFault::Failed)?;
        self.round = round.number();
        let ended = self.write(ledger, round, group, reached)?;
        rounds.announce(ended);
        Ok(())
    }

    /// The log position of the payloads.
    fn log_position(&self) -> LogPosition<K, L>
        ensures { result ≡ self.now }
    {
        self.taken.again()
    }

    /// Syncs the log, and returns it with the log position of the payloads.
    fn into_log(self) -> Result<SyncedLog<K, L>, SyncFault>
        ensures { IfOk result (λ ended. ended ≡ self) }
    {
        let FlushedLog {
            log,
            position: _,
            taken,
            synced: _,
            round: _,
        } = self;
        let mut log = log;
        log.sync()?;
        Ok(SyncedLog {
            log,
            position: taken,
        })
    }
}

impl<K: LogName, L: Log> Flusher<K, L> {
    /// The flusher of a log that has so many payloads.
    ///
    /// # Errors
    ///
    /// Out of memory.
    pub(crate) fn new(
        alloc: Global,
        log: L,
        position: u64,
        nothing: &LogPosition<K, L>,
    ) -> Result<Flusher<K, L>, AllocError>
        requires nothing { nothing.now ≡ [] }
        requires listed { L.may_be log K.first }
    {
        Ok(Flusher {
            written: FlushedLog {
                log,
                position,
                taken: nothing.again(),
                synced: 0,
                round: 0,
            },
            group: Vec::with_capacity(alloc, MOST_TEXTS)?,
        })
    }

    /// Waits for what is to be written, or for a response that wants a round, and writes and syncs. Returns false where
    /// nothing more can come.
    fn flush_next<R: Wait, S: Space>(
        &mut self,
        rt: &R,
        keeper: &CommitLog<K, L, S>,
    ) -> Result<bool, FlushFault> {
        let taken = self.written.log_position();
        let Some(reached) = keeper.next(rt, &taken, &mut self.group)? else {
            return Ok(false);
        };
        let flushed = self
            .written
            .flush(&keeper.ledger, &keeper.rounds, &self.group, reached);
        self.group.clear();
        flushed?;
        keeper.wake_waiting(rt);
        Ok(true)
    }

    /// Writes and syncs for all that wait, until the commit log is stopped and nothing waits: then it returns the log,
    /// synced, with the log position of all that it wrote.
    ///
    /// # Errors
    ///
    /// An append or a sync failed. No response of any thread or task leaves any more.
    pub fn run<R: Wait, S: Space>(
        self,
        rt: &R,
        keeper: &CommitLog<K, L, S>,
    ) -> Result<SyncedLog<K, L>, FlushFault> {
        let mut flusher = self;
        for _ in rt.forever() {
            match flusher.flush_next(rt, keeper) {
                Ok(true) => {}
                Ok(false) => return flusher.end(rt, keeper),
                Err(fault) => {
                    keeper.fail(rt);
                    return Err(fault);
                }
            }
        }
        unreachable!()
    }

    /// Returns the log, synced, once nothing waits.
    fn end<R: Wait, S: Space>(
        self,
        rt: &R,
        keeper: &CommitLog<K, L, S>,
    ) -> Result<SyncedLog<K, L>, FlushFault> {
        match self.written.into_log() {
            Ok(ended) => {
                keeper.end_rounds(rt);
                Ok(ended)
            }
            Err(fault) => {
                keeper.fail(rt);
                Err(fault.into())
            }
        }
    }
}
