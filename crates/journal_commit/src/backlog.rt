//! The state under the commit log's lock: the payloads that wait for the flusher, and the disk space reserved for them.
ghost use Rattle.std.specs.Prelude.{◌≡◌, ◌≢◌, ◌+◌, ◌≤◌, ◌<◌, ◌++◌, ◌∷◌, [], length, map, max, true, Some, None, IfOk, IfSome, IfNone, OnOk, OnErr, OnSome, if◌then◌else◌, get_or, drop, false, vec_len, vec_capacity};
ghost use mathlib.Core.List.{IsPrefix};
ghost use Rattle.journal_file.specs.Groups.{is_taken};
ghost use Rattle.journal_commit.specs.Clients.{AreOf, GoesOnBy, of_client};
ghost use Rattle.journal_commit.specs.Durable.{chosen};
ghost use Rattle.journal_commit.specs.Tables.{bytes_in, holding};
ghost use Rattle.journal_commit.specs.declared.decisions.TheConstants.{MOST_TEXTS};
ghost use Rattle.journal_commit.specs.declared.decisions.Round.TheVariants as rounds;
ghost use Rattle.journal_commit.specs.declared.backlog.TheConstants.{RECORD_OVERHEAD};
ghost use Rattle.journal_commit.specs.declared.reserved_space.TheConstants.{STEP};

use crate::client_shares::ClientShares;
use crate::decisions::{
    MOST_CLIENTS, MOST_TEXTS, MOST_TEXTS_OF_ONE, Round, Usage, all_confirmed_after, is_confirmed,
    next_round,
};
use crate::failure::LogFailure;
use crate::history::{CommitLedger, LogName, LogPosition};
use crate::own_records::OwnRecords;
use crate::reserved_space::{ReservedSpace, STEP};
use crate::space::{NoRoom, Space};
use journal_file::{Log, fits, is_plain};
use std::alloc::{AllocError, Global};
use std::marker::Model;
use std::mem;

/// What a record takes next to its payload, in bytes, with a mark for it alone.
const RECORD_OVERHEAD: u64 = 56;

/// No log gets more payloads than this: one that got one each nanosecond would need a lifetime.
const MOST_APPENDED: u64 = 1 << 61;

/// Why no reservation was made. Nothing has changed, and the next may succeed.
#[derive(Clone, Copy, Debug, PartialEq, Eq)]
pub enum ReserveFault {
    /// The disk has no room for its record.
    NoRoom,
    /// The client's share is used up, or less than one reservation would be left for each other client that has
    /// nothing.
    Crowded,
    /// No log accepts it, since it is empty, too long, or begins as a mark does; or all of them are more than is ever
    /// reserved at once.
    Untaken,
    /// The flusher is to stop, or has stopped.
    Stopping,
    /// An append or a sync failed: no response leaves any more.
    Failed(LogFailure),
}

impl From<NoRoom> for ReserveFault {
    fn from(_: NoRoom) -> ReserveFault {
        ReserveFault::NoRoom
    }
}

/// A payload, and the reservation for its record. It has to be appended or released, and can't be dropped.
pub struct Reservation {
    /// The client's number.
    pub client: usize,
    pub text: Vec<u8>,
    pub ghost taken: { is_taken text.items ≡ true },
}

/// Payloads, and the reservations for their records. They have to be appended or released together, and can't be
/// dropped.
pub struct Reservations {
    /// The client's number.
    pub client: usize,
    pub texts: Vec<Vec<u8>>,
}

/// The queue of the payloads that wait. Contracts see what the flusher has taken, and all that was appended.
#[derive(Drop)]
pub(crate) struct CommitQueue<K: LogName, L: Log> {
    /// The payloads that wait.
    texts: Vec<Vec<u8>>,
    /// The log position of what the flusher has taken.
    taken: LogPosition<K, L>,
    /// The log position of all that was appended.
    appended: LogPosition<K, L>,
    /// How many payloads of each client were appended, by the client's number.
    counts: Vec<u64>,
}

impl<K: LogName, L: Log> Model for CommitQueue<K, L> {
    ghost use Rattle.std.specs.Prelude.{◌≡◌, ◌≤◌, ◌++◌, map, vec_capacity};
    ghost use Rattle.journal_commit.specs.Clients.{AreCounts};
    ghost use Rattle.journal_commit.specs.Waiting.{Waiting, coded_waiting};
    ghost use Rattle.journal_commit.specs.declared.decisions.TheConstants.{MOST_TEXTS};

    ghost Value = { Waiting };

    ghost coded = { coded_waiting };

    ghost view = { λ q. record { taken = q.taken; appended = q.appended } };

    ghost invariant = { λ q. (q.appended ≡ q.taken ++ map (λ v. v.items) q.texts.items) × (MOST_TEXTS ≤ vec_capacity q.texts)
        × AreCounts K.client_of q.counts.items q.appended };
}

/// The state under the commit log's lock.
#[derive(Drop)]
pub(crate) struct CommitBacklog<K: LogName, L: Log, S: Space> {
    queue: CommitQueue<K, L>,
    room: ReservedSpace<S>,
    /// What waits of each client, and what it has reserved.
    shares: ClientShares,
    /// Whether no further reservation is made.
    is_stopping: bool,
    /// The round behind which another confirms all responses that wait; none where no response ever waited for one.
    wanted: Option<u64>,
    ghost used: { room.used ≡ bytes_in shares.each.items },
}

impl Reservation {
    /// The reservation for a payload of this client.
    ///
    /// # Errors
    ///
    /// No log accepts the payload.
    fn new(client: usize, text: Vec<u8>) -> Result<Reservation, ReserveFault>
        ensures text { IfOk result (λ place. place.text ≡ text) }
        ensures client { IfOk result (λ place. place.client ≡ client) }
    {
        if fits(&text) && is_plain(&text) {
            Ok(Reservation { client, text })
        } else {
            Err(ReserveFault::Untaken)
        }
    }

    /// How many bytes its record takes in the log.
    fn bytes(&self) -> u64
        ensures value { result ≡ vec_len self.now.text + RECORD_OVERHEAD }
        ensures bounded { result ≤ STEP }
    {
        self.text.len() as u64 + RECORD_OVERHEAD
    }
}

impl<K: LogName, L: Log> CommitQueue<K, L> {
    /// An empty queue, for so many clients.
    ///
    /// # Errors
    ///
    /// Out of memory.
    #[tactic(auto, using(crate::proofs::Owning::no_counts))]
    fn new(
        alloc: Global,
        nothing: &LogPosition<K, L>,
        clients: usize,
    ) -> Result<CommitQueue<K, L>, AllocError>
        requires { nothing.now ≡ [] }
        ensures { IfOk result (λ q. (q.taken ≡ nothing.now) × (q.appended ≡ nothing.now)) }
    {
        let counts: Vec<u64> = vec![in alloc; 0; clients.min(MOST_CLIENTS)]?;
        Ok(CommitQueue {
            texts: Vec::with_capacity(alloc, MOST_TEXTS)?,
            taken: nothing.again(),
            appended: nothing.again(),
            counts,
        })
    }

    /// How many payloads wait.
    fn len(&self) -> usize
        ensures { length self.now.taken + result ≡ length self.now.appended }
    {
        self.texts.len()
    }

    /// The log position of all that was appended.
    fn all(&self) -> LogPosition<K, L>
        ensures { result ≡ self.now.appended }
    {
        self.appended.again()
    }

    /// How many payloads of this client were appended; none where the number is no client's.
    #[tactic(auto, using(crate::proofs::Owning::counted_at))]
    fn count_of(&self, client: usize) -> Option<u64>
        ensures { IfSome result (λ count. count ≡ length (of_client K.client_of client self.now.appended)) }
    {
        if client < self.counts.len() {
            Some(self.counts[client])
        } else {
            None
        }
    }

    /// The records of this client, as of all that was appended.
    fn records_of(&self, client: usize) -> Option<OwnRecords<K, L>>
        ensures client { IfSome result (λ own. own.client ≡ client) }
        ensures texts { IfSome result (λ own. own.texts ≡ self.now.appended) }
    {
        let count = self.count_of(client)?;
        Some(OwnRecords::at(client, count, self.all()))
    }

    /// Whether a client knows all its payloads that were appended.
    #[tactic(auto, using(crate::proofs::Owning::just))]
    fn has_just(&self, own: &OwnRecords<K, L>) -> bool
        ensures { result ≡ true → GoesOnBy K.client_of own.now [] self.now.appended }
    {
        let Some(count) = self.count_of(own.client()) else {
            return false;
        };
        if count != own.count() {
            return false;
        }
        own.position().begins(&self.appended)
    }

    /// Appends a payload of this client, and returns the log position after it. None where there is no room, where the
    /// number is no client's, or where another appended to the history, which doesn't happen under the lock.
    #[tactic(auto, using(crate::proofs::Owning::counts_more, crate::proofs::Owning::counted_at))]
    fn push(
        &mut self,
        ledger: &CommitLedger<K, L>,
        client: usize,
        text: Vec<u8>,
    ) -> Option<LogPosition<K, L>>
        requires { K.client_of text.items ≡ client }
        ensures pushed { IfSome result (λ stamp. (stamp ≡ self.old.appended ++ text.items ∷ []) × (self.new.appended ≡ stamp)) }
        ensures taken { self.new.taken ≡ self.old.taken }
        ensures unchanged { IfNone result (self.new.appended ≡ self.old.appended) }
    {
        if client >= self.counts.len() || self.texts.len() >= MOST_TEXTS {
            return None;
        }
        let count = self.counts[client];
        if count >= MOST_APPENDED || self.appended.len() >= MOST_APPENDED {
            return None;
        }
        let mut appended = self.appended.again();
        if !appended.extend(ledger, &text) {
            return None;
        }
        self.texts.push_reserved(text);
        self.counts[client] = count + 1;
        self.appended = appended.again();
        Some(appended)
    }

    /// Moves all that waits into a group, which is empty and has the capacity, and returns the log position of all that
    /// was appended. None where `taken` isn't the log position of what was taken so far.
    fn take(
        &mut self,
        group: &mut Vec<Vec<u8>>,
        taken: &LogPosition<K, L>,
    ) -> Option<LogPosition<K, L>>
        requires empty { group.old.items ≡ [] }
        requires capacity { MOST_TEXTS ≤ vec_capacity group.old }
        ensures taken { IfSome result (λ stamp. stamp ≡ taken.now ++ map (λ v. v.items) group.new.items) }
        ensures all { IfSome result (λ stamp. (self.new.taken ≡ stamp) × (self.new.appended ≡ stamp)) }
        ensures appended { self.new.appended ≡ self.old.appended }
        ensures capacity { MOST_TEXTS ≤ vec_capacity group.new }
        ensures unchanged { IfNone result (group.new.items ≡ []) }
    {
        if !self.taken.is_of(taken) {
            return None;
        }
        mem::swap(&mut self.texts, group);
        self.taken = self.appended.again();
        Some(self.appended.again())
    }
}

/// How many bytes the records of these payloads take in the log.
///
/// # Errors
///
/// A log doesn't accept one of them, or all of them are more than is ever reserved at once.
fn bytes_of_all(texts: &[Vec<u8>]) -> Result<u64, ReserveFault>
    ensures { IfOk result (λ bytes. bytes ≤ STEP) }
{
    if texts.len() > MOST_TEXTS_OF_ONE {
        return Err(ReserveFault::Untaken);
    }
    let mut bytes = 0;
    for text in texts {
        if !fits(text) || !is_plain(text) {
            return Err(ReserveFault::Untaken);
        }
        bytes += text.len() as u64 + RECORD_OVERHEAD;
        if bytes > STEP {
            return Err(ReserveFault::Untaken);
        }
    }
    Ok(bytes)
}

/// The first flag, unset where there is none, and the flags after it.
fn first_flag(flags: &[bool]) -> (bool, &[bool])
    ensures first { result.0 ≡ get_or flags.now 0 false }
    ensures rest { result.1.now ≡ drop 1 flags.now }
{
    match flags.split_first() {
        Some((first, rest)) => (*first, rest),
        None => (false, flags),
    }
}

impl<K: LogName, L: Log, S: Space> CommitBacklog<K, L, S> {
    /// An empty backlog, for so many clients.
    ///
    /// # Errors
    ///
    /// Out of memory.
    pub(crate) fn new(
        alloc: Global,
        nothing: &LogPosition<K, L>,
        space: S,
        clients: usize,
    ) -> Result<CommitBacklog<K, L, S>, AllocError>
        requires space { S.aside space ≡ 0 }
        requires nothing { nothing.now ≡ [] }
        ensures { IfOk result (λ b. (b.queue.taken ≡ nothing.now) × (b.queue.appended ≡ nothing.now)) }
    {
        Ok(CommitBacklog {
            queue: CommitQueue::new(alloc, nothing, clients)?,
            room: ReservedSpace::new(space),
            shares: ClientShares::new(alloc, clients)?,
            is_stopping: false,
            wanted: None,
        })
    }

    /// Whether so much more may be reserved for this client now.
    pub(crate) fn has_share(&self, client: usize, more: Usage) -> bool {
        self.shares.has_share(client, more)
    }

    /// Reserves so much more for this client.
    ///
    /// # Errors
    ///
    /// Its share is used up, or the disk has no room. Nothing is reserved then.
    fn reserve_usage(&mut self, client: usize, more: Usage) -> Result<(), ReserveFault>
        requires { more.bytes ≤ STEP }
        ensures held { OnOk result (self.new.shares.each.items ≡ holding self.old.shares.each.items client more) }
        ensures unchanged { OnErr result ((self.new.shares ≡ self.old.shares) × (self.new.room.used ≡ self.old.room.used)) }
        ensures queue { self.new.queue ≡ self.old.queue }
    {
        if !self.shares.has_share(client, more) {
            return Err(ReserveFault::Crowded);
        }
        self.room.take(more.bytes)?;
        self.shares.add_reserved(client, more);
        Ok(())
    }

    /// Makes a reservation for a payload of this client.
    ///
    /// # Errors
    ///
    /// See [`ReserveFault`]. Nothing is reserved then, and nothing has changed for others.
    pub(crate) fn make_reservation(
        &mut self,
        client: usize,
        text: Vec<u8>,
    ) -> Result<Reservation, ReserveFault>
        ensures place { IfOk result (λ place. place.text ≡ text) }
        ensures client { IfOk result (λ place. place.client ≡ client) }
        ensures held { OnOk result (self.new.shares.each.items ≡ holding self.old.shares.each.items client (record { texts = 1; bytes = vec_len text + RECORD_OVERHEAD })) }
        ensures unchanged { OnErr result ((self.new.shares ≡ self.old.shares) × (self.new.room.used ≡ self.old.room.used)) }
        ensures queue { self.new.queue ≡ self.old.queue }
    {
        if self.is_stopping {
            return Err(ReserveFault::Stopping);
        }
        let place = Reservation::new(client, text)?;
        let bytes = place.bytes();
        match self.reserve_usage(client, Usage { texts: 1, bytes }) {
            Ok(()) => Ok(place),
            Err(fault) => {
                let Reservation { client: _, text: _ } = place;
                Err(fault)
            }
        }
    }

    /// Releases a reservation.
    pub(crate) fn release(&mut self, place: Reservation)
        ensures queue { self.new.queue ≡ self.old.queue }
    {
        let bytes = place.bytes();
        let Reservation { client, text: _ } = place;
        if self.shares.release(client, bytes) {
            self.room.give_back(bytes);
        }
    }

    /// Appends the payload of a reservation, which is of the client with this number, and returns the log position of all
    /// that was appended then. None where it can't, which doesn't happen where the reservation was made here.
    fn append_place(
        &mut self,
        ledger: &CommitLedger<K, L>,
        owner: usize,
        place: Reservation,
    ) -> Option<LogPosition<K, L>>
        requires { K.client_of place.text.items ≡ owner }
        ensures pushed { IfSome result (λ stamp. (stamp ≡ self.old.queue.appended ++ place.text.items ∷ []) × (self.new.queue.appended ≡ stamp)) }
        ensures taken { self.new.queue.taken ≡ self.old.queue.taken }
    {
        let bytes = place.bytes();
        let Reservation { client, text } = place;
        if !self.shares.append(client, bytes) {
            return None;
        }
        self.queue.push(ledger, owner, text)
    }

    /// Appends the payload of a reservation, which is of the client of these records, and returns the log position of
    /// all that was appended then. None where it can't, which doesn't happen where the reservation was made here and the
    /// client knows all its records.
    #[tactic(auto, using(crate::proofs::Owning::one_more))]
    pub(crate) fn append(
        &mut self,
        ledger: &CommitLedger<K, L>,
        own: &mut OwnRecords<K, L>,
        place: Reservation,
    ) -> Option<LogPosition<K, L>>
        requires { K.client_of place.text.items ≡ own.old.client }
        ensures pushed { IfSome result (λ stamp. (stamp ≡ self.old.queue.appended ++ place.text.items ∷ []) × (self.new.queue.appended ≡ stamp)) }
        ensures taken { self.new.queue.taken ≡ self.old.queue.taken }
        ensures records { IfSome result (λ stamp. GoesOnBy K.client_of own.old (place.text.items ∷ []) stamp) }
        ensures own { IfSome result (λ stamp. own.new.texts ≡ stamp) }
        ensures client { own.new.client ≡ own.old.client }
    {
        let client = own.client();
        if !self.queue.has_just(own) {
            self.release(place);
            return None;
        }
        let stamp = self.append_place(ledger, client, place)?;
        *own = self.queue.records_of(client)?;
        Some(stamp)
    }

    /// Makes a reservation for each payload of this client.
    ///
    /// # Errors
    ///
    /// See [`ReserveFault`]. Nothing is reserved then, and nothing has changed for others.
    pub(crate) fn make_reservations(
        &mut self,
        client: usize,
        texts: Vec<Vec<u8>>,
    ) -> Result<Reservations, ReserveFault>
        ensures places { IfOk result (λ places. places.texts ≡ texts) }
        ensures client { IfOk result (λ places. places.client ≡ client) }
        ensures unchanged { OnErr result ((self.new.shares ≡ self.old.shares) × (self.new.room.used ≡ self.old.room.used)) }
        ensures queue { self.new.queue ≡ self.old.queue }
    {
        if self.is_stopping {
            return Err(ReserveFault::Stopping);
        }
        let bytes = bytes_of_all(&texts)?;
        let more = Usage {
            texts: texts.len(),
            bytes,
        };
        self.reserve_usage(client, more)?;
        Ok(Reservations { client, texts })
    }

    /// Releases all of these reservations.
    pub(crate) fn release_all(&mut self, places: Reservations)
        ensures queue { self.new.queue ≡ self.old.queue }
    {
        let Reservations { client, texts } = places;
        for text in texts {
            // It has a reservation, so a log accepts it.
            if let Ok(place) = Reservation::new(client, text) {
                self.release(place);
            }
        }
    }

    /// Appends a payload of the client with this number that has a reservation, where it is to be persisted, and releases
    /// the reservation otherwise. Returns whether it did.
    fn append_or_release(
        &mut self,
        ledger: &CommitLedger<K, L>,
        owner: usize,
        client: usize,
        text: Vec<u8>,
        is_kept: bool,
    ) -> bool
        requires { K.client_of text.items ≡ owner }
        ensures appended { result ≡ true
            → self.new.queue.appended ≡ self.old.queue.appended ++ (if is_kept then text.items ∷ [] else []) }
        ensures taken { self.new.queue.taken ≡ self.old.queue.taken }
    {
        // It has a reservation, so a log accepts it.
        let Ok(place) = Reservation::new(client, text) else {
            return false;
        };
        if is_kept {
            self.append_place(ledger, owner, place).is_some()
        } else {
            self.release(place);
            true
        }
    }

    /// Appends those payloads that are to be persisted, in their order, releases the reservations of the others, and
    /// returns the log position of all that was appended then. None where it can't, which doesn't happen where the
    /// reservations were made here.
    fn append_places(
        &mut self,
        ledger: &CommitLedger<K, L>,
        owner: usize,
        places: Reservations,
        kept: &[bool],
    ) -> Option<LogPosition<K, L>>
        requires { AreOf K.client_of owner (map (λ v. v.items) places.texts.items) }
        ensures appended { IfSome result (λ stamp. stamp ≡ self.old.queue.appended ++ chosen kept.now (map (λ v. v.items) places.texts.items)) }
        ensures stamp { IfSome result (λ stamp. self.new.queue.appended ≡ stamp) }
        ensures taken { self.new.queue.taken ≡ self.old.queue.taken }
    {
        let Reservations { client, texts } = places;
        let mut is_settled = true;
        let mut rest = kept;
        for text in texts {
            let (is_kept, others) = first_flag(rest);
            rest = others;
            let settles = self.append_or_release(ledger, owner, client, text, is_kept);
            is_settled = is_settled & settles;
        }
        if is_settled {
            Some(self.queue.all())
        } else {
            None
        }
    }

    /// Appends those payloads that are to be persisted, in their order, releases the reservations of the others, and
    /// returns the log position of all that was appended then. All are of the client of these records. None where it
    /// can't, which doesn't happen where the reservations were made here and the client knows all its records.
    #[tactic(auto, using(crate::proofs::Owning::chosen_more))]
    pub(crate) fn append_chosen(
        &mut self,
        ledger: &CommitLedger<K, L>,
        own: &mut OwnRecords<K, L>,
        places: Reservations,
        kept: &[bool],
    ) -> Option<LogPosition<K, L>>
        requires { AreOf K.client_of own.old.client (map (λ v. v.items) places.texts.items) }
        ensures appended { IfSome result (λ stamp. stamp ≡ self.old.queue.appended ++ chosen kept.now (map (λ v. v.items) places.texts.items)) }
        ensures stamp { IfSome result (λ stamp. self.new.queue.appended ≡ stamp) }
        ensures taken { self.new.queue.taken ≡ self.old.queue.taken }
        ensures records { IfSome result (λ stamp. GoesOnBy K.client_of own.old (chosen kept.now (map (λ v. v.items) places.texts.items)) stamp) }
        ensures own { IfSome result (λ stamp. own.new.texts ≡ stamp) }
        ensures client { own.new.client ≡ own.old.client }
    {
        let client = own.client();
        if !self.queue.has_just(own) {
            self.release_all(places);
            return None;
        }
        let stamp = self.append_places(ledger, client, places, kept)?;
        *own = self.queue.records_of(client)?;
        Some(stamp)
    }

    /// The log position of all that was appended, where a client knows all its records there.
    pub(crate) fn whole_position(&self, own: &OwnRecords<K, L>) -> Option<LogPosition<K, L>>
        ensures all { IfSome result (λ all. all ≡ self.now.queue.appended) }
        ensures records { IfSome result (λ all. GoesOnBy K.client_of own.now [] all) }
    {
        if self.queue.has_just(own) {
            Some(self.queue.all())
        } else {
            None
        }
    }

    /// A response waits for a round behind this one.
    pub(crate) fn want_round(&mut self, begun: u64)
        ensures first { self.old.wanted ≡ None → self.new.wanted ≡ Some begun }
        ensures both { IfSome self.old.wanted (λ before. self.new.wanted ≡ Some (max before begun)) }
        ensures queue { self.new.queue ≡ self.old.queue }
    {
        self.wanted = Some(all_confirmed_after(self.wanted, begun));
    }

    /// What the flusher does next, by the last round that ended well. No round is under way.
    pub(crate) fn round(&self, ended: u64) -> Round
        ensures { self.now.wanted ≡ None → result ≢ rounds.Confirm }
    {
        next_round(
            self.queue.len(),
            self.shares.reserved_count(),
            self.is_stopping,
            !is_confirmed(self.wanted, ended),
        )
    }

    /// Moves all that waits into a group: see [`CommitQueue::take`]. Its reserved disk space is released, since it is written
    /// now.
    pub(crate) fn take(
        &mut self,
        group: &mut Vec<Vec<u8>>,
        taken: &LogPosition<K, L>,
    ) -> Option<LogPosition<K, L>>
        requires empty { group.old.items ≡ [] }
        requires capacity { MOST_TEXTS ≤ vec_capacity group.old }
        ensures taken { IfSome result (λ stamp. stamp ≡ taken.now ++ map (λ v. v.items) group.new.items) }
        ensures all { IfSome result (λ stamp. (self.new.queue.taken ≡ stamp) × (self.new.queue.appended ≡ stamp)) }
        ensures capacity { MOST_TEXTS ≤ vec_capacity group.new }
        ensures unchanged { IfNone result (group.new.items ≡ []) }
    {
        let stamp = self.queue.take(group, taken)?;
        let bytes = self.shares.take_waiting();
        self.room.give_back(bytes);
        Some(stamp)
    }

    /// Stops making reservations.
    pub(crate) fn stop(&mut self)
        ensures queue { self.new.queue ≡ self.old.queue }
        ensures stopping { self.new.is_stopping ≡ true }
    {
        self.is_stopping = true;
    }
}
