//! The commit log that all desks and the room share: it appends their records, and says when a response may leave.
ghost use Rattle.std.specs.Prelude.{◌≡◌, ◌++◌, ◌∷◌, ◌≤◌, [], map, None, true, IfOk, IfNone, IfSome, OnOk, OnErr, vec_capacity};
ghost use mathlib.Core.List.{IsPrefix};
ghost use Rattle.journal_commit.specs.Clients.{AreOf, GoesOnBy};
ghost use Rattle.journal_commit.specs.Durable.{AreDurable, AreLast, IsLast, chosen};
ghost use Rattle.journal_commit.specs.declared.decisions.TheConstants.{MOST_TEXTS};
ghost use Rattle.journal_commit.specs.declared.decisions.ResponseTiming.TheVariants as tellings;

use crate::backlog::{CommitBacklog, Reservation, Reservations, ReserveFault};
use crate::decisions::{Confirmation, ResponseTiming, Round, Usage, may_respond, response_failure};
use crate::failure::{FailureFlag, LogFailure};
use crate::flusher::{FlushFault, Flusher};
use crate::history::{CommitLedger, LogName, LogPosition, UnnamedHistory};
use crate::own_records::OwnRecords;
use crate::rounds::Rounds;
use crate::space::Space;
use journal_file::Log;
use std::alloc::{AllocError, Global};
use std::mem;
use std::sync::{Arc, Condvar, Mutex, Wait};
use tokio::sync::{Notify, OwnedNotified};

/// Why a response doesn't leave.
#[derive(Clone, Copy, Debug, PartialEq, Eq)]
pub enum CommitFault {
    /// An append or a sync failed: no response leaves any more, and the program ends. Or the flusher ended before the
    /// response was confirmed.
    Failed(LogFailure),
    /// Out of memory to wait.
    NoMemory,
    /// It left before: what waited for its sync was asked once more.
    AlreadySent,
}

impl From<AllocError> for CommitFault {
    fn from(_: AllocError) -> CommitFault {
        CommitFault::NoMemory
    }
}

/// The commit log: requests that are persisted are appended here, and it knows how far they are synced.
#[derive(Drop)]
pub struct CommitLog<K: LogName, L: Log, S: Space> {
    pub(crate) ledger: CommitLedger<K, L>,
    backlog: Mutex<CommitBacklog<K, L, S>>,
    /// Wakes the flusher when there is something to do.
    more: Condvar,
    /// Wakes waiting threads when something was synced, or when nothing more will be.
    synced: Condvar,
    /// Wakes waiting tasks at the same events.
    told: Arc<Notify>,
    failed: FailureFlag,
    pub(crate) rounds: Rounds,
    /// Whether the flusher has ended, so that no round comes any more.
    ended: FailureFlag,
}

/// Begins to serve over a log, after what it has: returns the commit log, the flusher, and the log position at which
/// nothing is appended. A client is a number below `clients`, and at most [`MOST_CLIENTS`](crate::MOST_CLIENTS) of these
/// have a share of what may wait. Where responses need no confirmation, the log is synced for what was appended alone.
///
/// # Errors
///
/// Out of memory.
pub fn open<K: LogName, L: Log, S: Space>(
    alloc: Global,
    opened: UnnamedHistory<L>,
    log: L,
    space: S,
    clients: usize,
    confirmation: Confirmation,
) -> Result<(CommitLog<K, L, S>, Flusher<K, L>, LogPosition<K, L>), AllocError>
    requires book { opened.seen.book ≡ K.book }
    requires listed { L.may_be log K.first }
    requires space { S.aside space ≡ 0 }
    ensures { IfOk result (λ all. all.2 ≡ []) }
{
    let position = opened.position;
    let (ledger, nothing) = opened.with_name::<K>();
    let flusher = Flusher::new(alloc, log, position, &nothing)?;
    let keeper = CommitLog {
        ledger,
        backlog: Mutex::new(CommitBacklog::new(alloc, &nothing, space, clients)?),
        more: Condvar::new(),
        synced: Condvar::new(),
        told: Arc::new(alloc, Notify::new(alloc)?)?,
        failed: FailureFlag::new(),
        rounds: Rounds::new(confirmation),
        ended: FailureFlag::new(),
    };
    Ok((keeper, flusher, nothing))
}

impl<K: LogName, L: Log, S: Space> CommitLog<K, L, S> {
    /// Makes a reservation for the payload of this client's request, before the request is carried out. The reservation
    /// goes to [`CommitLog::append`] where the request is to be persisted, and to [`CommitLog::release`] otherwise.
    ///
    /// # Errors
    ///
    /// No reservation is made: see [`ReserveFault`]. Nothing has changed.
    pub fn reserve<R: Wait>(
        &self,
        rt: &R,
        client: usize,
        text: Vec<u8>,
    ) -> Result<Reservation, ReserveFault>
        ensures { IfOk result (λ place. place.text ≡ text) }
    {
        if let Some(failure) = self.failed.failure() {
            return Err(ReserveFault::Failed(failure));
        }
        self.backlog.lock(rt).make_reservation(client, text)
    }

    /// Releases the reservation of a request that isn't persisted.
    pub fn release<R: Wait>(&self, rt: &R, place: Reservation) {
        self.backlog.lock(rt).release(place);
        self.more.notify_one();
    }

    /// Appends the record of a request that was carried out, and returns the log position of all that was appended by
    /// then: this client's records there are its own so far, and this one behind them. It doesn't wait for a sync.
    ///
    /// # Errors
    ///
    /// The commit log failed; this doesn't happen where the reservation was made here, and nobody else appends for this
    /// client.
    pub fn append<R: Wait>(
        &self,
        rt: &R,
        own: &mut OwnRecords<K, L>,
        place: Reservation,
    ) -> Result<LogPosition<K, L>, CommitFault>
        requires { K.client_of place.text.items ≡ own.old.client }
        ensures last { IfOk result (λ stamp. IsLast place.text.items stamp) }
        ensures records { IfOk result (λ stamp. GoesOnBy K.client_of own.old (place.text.items ∷ []) stamp) }
        ensures own { IfOk result (λ stamp. own.new.texts ≡ stamp) }
        ensures client { own.new.client ≡ own.old.client }
    {
        let appended = self.backlog.lock(rt).append(&self.ledger, own, place);
        match appended {
            Some(stamp) => {
                self.more.notify_one();
                Ok(stamp)
            }
            None => Err(CommitFault::Failed(self.fail(rt))),
        }
    }

    /// Makes a reservation for each of these payloads of one client, before their requests are carried out. The
    /// reservations go to [`CommitLog::append_chosen`], or to [`CommitLog::release_all`] where none of the requests is carried out.
    ///
    /// # Errors
    ///
    /// No reservation is made: see [`ReserveFault`]. Nothing has changed.
    pub fn reserve_all<R: Wait>(
        &self,
        rt: &R,
        client: usize,
        texts: Vec<Vec<u8>>,
    ) -> Result<Reservations, ReserveFault>
        ensures { IfOk result (λ places. places.texts ≡ texts) }
    {
        if let Some(failure) = self.failed.failure() {
            return Err(ReserveFault::Failed(failure));
        }
        self.backlog.lock(rt).make_reservations(client, texts)
    }

    /// Whether so much more may be reserved for this client now. It reserves nothing.
    pub fn has_share<R: Wait>(&self, rt: &R, client: usize, more: Usage) -> bool {
        self.backlog.lock(rt).has_share(client, more)
    }

    /// Releases all of these reservations.
    pub fn release_all<R: Wait>(&self, rt: &R, places: Reservations) {
        self.backlog.lock(rt).release_all(places);
        self.more.notify_one();
    }

    /// Appends the records of those requests that are to be persisted, by a flag for each, in their order and with
    /// nothing between, and releases the reservations of the others. Returns the log position of all that was appended
    /// by then, which isn't before the one known so far: this client's records there are its own so far, and these behind
    /// them. It doesn't wait for a sync.
    ///
    /// # Errors
    ///
    /// The commit log failed; this doesn't happen where the reservations were made here, and nobody else appends for this
    /// client.
    pub fn append_chosen<R: Wait>(
        &self,
        rt: &R,
        own: &mut OwnRecords<K, L>,
        known: &LogPosition<K, L>,
        places: Reservations,
        kept: &[bool],
    ) -> Result<LogPosition<K, L>, CommitFault>
        requires { AreOf K.client_of own.old.client (map (λ v. v.items) places.texts.items) }
        ensures last { IfOk result (λ stamp. AreLast (chosen kept.now (map (λ v. v.items) places.texts.items)) stamp) }
        ensures known { IfOk result (λ stamp. IsPrefix known.now stamp) }
        ensures records { IfOk result (λ stamp. GoesOnBy K.client_of own.old (chosen kept.now (map (λ v. v.items) places.texts.items)) stamp) }
        ensures own { IfOk result (λ stamp. own.new.texts ≡ stamp) }
        ensures client { own.new.client ≡ own.old.client }
    {
        let settled = self
            .backlog
            .lock(rt)
            .append_chosen(&self.ledger, own, places, kept);
        match settled {
            // Under the lock it is all that was appended, so it begins with what was known before.
            Some(stamp) if known.begins(&stamp) => {
                self.more.notify_one();
                Ok(stamp)
            }
            _ => Err(CommitFault::Failed(self.fail(rt))),
        }
    }

    /// Appends a record, and waits until it is synced: for what becomes visible to others at once, as a publication
    /// does. The round that syncs it begins after it was appended, so that it is confirmed by that round too.
    ///
    /// # Errors
    ///
    /// The commit log failed: then nothing may become visible.
    pub fn append_synced<R: Wait>(
        &self,
        rt: &R,
        own: &mut OwnRecords<K, L>,
        place: Reservation,
    ) -> Result<LogPosition<K, L>, CommitFault>
        requires { K.client_of place.text.items ≡ own.old.client }
        ensures last { IfOk result (λ stamp. IsLast place.text.items stamp) }
        ensures durable { IfOk result (λ stamp. AreDurable L.may_be L.is_synced stamp) }
        ensures records { IfOk result (λ stamp. GoesOnBy K.client_of own.old (place.text.items ∷ []) stamp) }
        ensures own { IfOk result (λ stamp. own.new.texts ≡ stamp) }
        ensures client { own.new.client ≡ own.old.client }
    {
        let stamp = self.append(rt, own, place)?;
        self.wait(rt, &stamp)?;
        Ok(stamp)
    }

    /// The log position of all that was appended by now, where this client's records there are just its own. None
    /// where it has others there.
    pub fn whole_position<R: Wait>(
        &self,
        rt: &R,
        own: &OwnRecords<K, L>,
    ) -> Option<LogPosition<K, L>>
        ensures { IfSome result (λ all. GoesOnBy K.client_of own.now [] all) }
    {
        self.backlog.lock(rt).whole_position(own)
    }

    /// The log position of all that was appended by now, and so of all that a response made by now can show. It doesn't
    /// wait.
    pub fn log_position(&self, known: &LogPosition<K, L>) -> LogPosition<K, L>
        ensures { IsPrefix known.now result }
    {
        known.later(&self.ledger)
    }

    /// The round behind which another confirms a response that was made by now: see
    /// [`confirmed_after`](crate::confirmed_after). It doesn't wait.
    pub fn confirmed_after(&self) -> Option<u64> {
        self.rounds.confirmed_after()
    }

    /// Whether a response with this log position may leave, by the round behind which another confirms it, as it was once
    /// the response was made. It doesn't wait.
    pub fn may_respond(&self, stamp: &LogPosition<K, L>, after: Option<u64>) -> ResponseTiming
        ensures { result ≡ tellings.Now → AreDurable L.may_be L.is_synced stamp.now }
    {
        let failed = self.failed.failure();
        // Behind the flusher's end no round ends any more, so what is seen of the rounds then stays so.
        let ended = self.ended.failure();
        let is_confirmed = self.rounds.is_confirmed(after);
        let synced = stamp.synced_prefix(&self.ledger);
        let failure = response_failure(failed, ended, is_confirmed);
        may_respond(failure, stamp.is_within(&synced), is_confirmed)
    }

    /// Blocks the thread until everything up to a log position is synced. It waits for no other round.
    ///
    /// # Errors
    ///
    /// The commit log failed.
    fn wait<R: Wait>(&self, rt: &R, stamp: &LogPosition<K, L>) -> Result<(), CommitFault>
        ensures { OnOk result (AreDurable L.may_be L.is_synced stamp.now) }
    {
        let mut backlog = self.backlog.lock(rt);
        for _ in rt.forever() {
            match self.may_respond(stamp, None) {
                ResponseTiming::Now => return Ok(()),
                ResponseTiming::Never(failure) => return Err(CommitFault::Failed(failure)),
                ResponseTiming::Later => {}
            }
            backlog = self.synced.wait(rt, backlog);
        }
        unreachable!()
    }

    /// Stops making reservations. The flusher ends once nothing waits, no response that waits wants a round, and nothing
    /// is reserved. A response that isn't confirmed by then never leaves.
    pub fn stop<R: Wait>(&self, rt: &R) {
        self.backlog.lock(rt).stop();
        self.more.notify_one();
    }

    /// A future that completes at the next wake-up of the waiting tasks.
    pub(crate) fn next_wakeup(&self) -> Result<OwnedNotified, AllocError> {
        Ok(Notify::notified_owned(Arc::try_clone(&self.told)?))
    }

    /// Asks the flusher for a round behind this one, where none has ended. Returns whether it did, or need not: it doesn't
    /// where the lock is held at this moment.
    pub(crate) fn want_round(&self, after: Option<u64>) -> bool
        ensures { after ≡ None → result ≡ true }
    {
        let Some(begun) = after else {
            return true;
        };
        if self.rounds.is_confirmed(after) {
            return true;
        }
        // Under the lock: the flusher then doesn't fall asleep between its look at what is wanted and this call.
        let Some(mut backlog) = self.backlog.try_lock() else {
            return false;
        };
        backlog.want_round(begun);
        mem::drop(backlog);
        self.more.notify_one();
        true
    }

    /// Waits until there is something to do, and moves all that waits into the group, which stays empty where responses
    /// alone want a round. None where the flusher is to end.
    pub(crate) fn next<R: Wait>(
        &self,
        rt: &R,
        taken: &LogPosition<K, L>,
        group: &mut Vec<Vec<u8>>,
    ) -> Result<Option<LogPosition<K, L>>, FlushFault>
        requires empty { group.old.items ≡ [] }
        requires capacity { MOST_TEXTS ≤ vec_capacity group.old }
        ensures some { IfOk result (λ next. IfSome next (λ stamp. stamp ≡ taken.now ++ map (λ v. v.items) group.new.items)) }
        ensures none { IfOk result (λ next. IfNone next (group.new.items ≡ [])) }
        ensures fault { OnErr result (group.new.items ≡ []) }
        ensures capacity { MOST_TEXTS ≤ vec_capacity group.new }
    {
        let ended = self.rounds.last_ended();
        let mut backlog = self.more.wait_while(rt, self.backlog.lock(rt), |backlog| {
            backlog.round(ended) == Round::Wait && self.failed.failure().is_none()
        });
        if self.failed.failure().is_some() {
            return Err(FlushFault::Failed);
        }
        match backlog.round(ended) {
            Round::End => Ok(None),
            Round::Flush | Round::Confirm | Round::Wait => match backlog.take(group, taken) {
                Some(stamp) => Ok(Some(stamp)),
                None => Err(FlushFault::Failed),
            },
        }
    }

    /// Wakes all that wait, to look again.
    pub(crate) fn wake_waiting<R: Wait>(&self, rt: &R) {
        // A thread that has looked and doesn't sleep yet holds the lock.
        mem::drop(self.backlog.lock(rt));
        self.synced.notify_all();
        self.told.notify_waiters();
    }

    /// The flusher has ended: from now on a response leaves only where it is confirmed by now.
    pub(crate) fn end_rounds<R: Wait>(&self, rt: &R) {
        self.ended.set();
        self.wake_waiting(rt);
    }

    /// From now on no response leaves any more.
    pub fn fail<R: Wait>(&self, rt: &R) -> LogFailure {
        let failure = self.failed.set();
        self.wake_waiting(rt);
        self.more.notify_one();
        failure
    }
}
