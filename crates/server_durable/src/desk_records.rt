//! The records of an operator's desk in the log, which are those of its turns.
ghost use Rattle.std.specs.Prelude.{◌≡◌, ◌<◌, ◌++◌, [], IfOk, MatchOption, false, length, map, true};
ghost use Rattle.std.specs.Option.{ForSome};
ghost use mathlib.Core.List.{IsPrefix};
ghost use Rattle.journal_commit.specs.Clients.{AreOf, of_client};
ghost use Rattle.journal_commit.specs.Durable.{AreLast, chosen};
ghost use Rattle.mds_desk.specs.Desk.{DeskState, state_of};
ghost use Rattle.mds_request.specs.Configuration.{configuration};
ghost use Rattle.mds_request.specs.declared.config.Actor.TheVariants.{Operator};
ghost use Rattle.server_admission.specs.Actor.{index_of};
ghost use Rattle.server_state.specs.TurnList.{AreTurnsOf};
ghost use Rattle.server_durable.specs.Logged.{AreLogged, OwnsTurns, ShowsTurns};
ghost use Rattle.server_durable.specs.Owners.{IsOwnedBy, OwnsRecords, ReadsClients, appended_by};
ghost use Rattle.server_durable.specs.Records.{IsSettled};

use crate::records::{CallReservation, append_or_release, id_at};
use journal_commit::{
    CommitFault, CommitLog, LogName, LogPosition, OwnRecords, Reservations, Space,
};
use journal_entry::{EntryClient, actor_by};
use journal_file::Log;
use mds_request::{Actor, Config};
use server_admission::index_of;
use server_state::{DeskTurns, EndedDesk, HallDesk, HallName};
use std::alloc::{AllocError, Global};
use std::mem;
use std::sync::{Mutex, Wait};

/// The own records of the operator at this place of the configuration that `K` names, in the log that `N` names, and
/// the turns of its desk up to the last one that was settled. The records are those of these turns, in their order. A
/// turn is taken only where its desk has just these turns before it.
#[derive(Drop)]
pub(crate) struct DeskRecords<K: HallName, N: LogName, L: Log> {
    pub place: usize,
    pub own: OwnRecords<N, L>,
    /// None before the first turn, when there are no records either.
    turns: Option<DeskTurns<K>>,
    /// A turn isn't settled, and no later one is taken. Once a turn is settled it is none any more.
    is_lost: bool,
    ghost owned: { OwnsRecords K.configuration N.client_of (Operator place) own.client },
    ghost numbered: { own.client ≡ index_of (Operator place) },
    ghost of_desk: { ForSome turns (λ t. t.place ≡ place) },
    ghost logged: { ∥ (is_lost ≡ false → MatchOption turns (own.texts ≡ [])
        (λ t. OwnsTurns K.configuration N.client_of own t.front.seen.log)) ∥₁ },
}

/// Whether these are the same turns of one desk.
fn are_same<K: HallName>(turns: &DeskTurns<K>, others: &DeskTurns<K>) -> bool
    ensures { result ≡ true → turns.now.front.seen.log ≡ others.now.front.seen.log }
{
    turns.begins(others) && others.begins(turns)
}

impl<K: HallName, N: LogName, L: Log> DeskRecords<K, N, L> {
    /// There are none yet.
    ///
    /// # Errors
    ///
    /// Out of memory, or an earlier operator of the configuration has the same identifier, which doesn't happen.
    pub(crate) fn new(
        alloc: Global,
        config: &Config,
        place: usize,
        nothing: &LogPosition<N, L>,
    ) -> Result<DeskRecords<K, N, L>, AllocError>
        requires configured { configuration config.now ≡ K.configuration }
        requires place { place < length (configuration config.now).operators }
        requires clients { ReadsClients K.configuration N.client_of }
        requires nothing { nothing.now ≡ [] }
        ensures { IfOk result (λ records. records.place ≡ place) }
    {
        let id = id_at(config, place);
        // Records have the identifier's spelling, which reads as that identifier.
        let printed = id.print(alloc)?;
        mem::drop(printed);
        let Actor::Operator(found) = actor_by(config, EntryClient::Operator(id)) else {
            return Err(AllocError);
        };
        if found != place {
            return Err(AllocError);
        }
        Ok(DeskRecords {
            place,
            own: OwnRecords::new(index_of(Actor::Operator(place)), nothing),
            turns: None,
            is_lost: false,
        })
    }

    /// Whether they are the records of all turns of this desk so far. They always are: of a desk that took no turn yet
    /// the list has one item.
    pub(crate) fn has_all(&self, desk: &HallDesk<K>) -> bool
        ensures { result ≡ true
            → ∥ OwnsTurns K.configuration N.client_of self.now.own desk.now.turns.front.seen.log ∥₁ }
    {
        match desk.turns() {
            Some(turns) => self.has_turns(&turns),
            None => false,
        }
    }

    /// Whether they are the records of these turns, which are all of a desk's from when it was put behind its lock.
    fn has_turns(&self, turns: &DeskTurns<K>) -> bool
        requires { ∥ ((d : DeskState) × AreTurnsOf K.configuration turns.now.place turns.now.front.seen.log d) ∥₁ }
        ensures { result ≡ true → ∥ OwnsTurns K.configuration N.client_of self.now.own turns.now.front.seen.log ∥₁ }
    {
        if self.is_lost {
            return false;
        }
        match &self.turns {
            Some(known) => are_same(known, turns),
            None => turns.len() == 1,
        }
    }

    /// Whether they are the records of all turns of this desk, which takes no more, and the log position is that of all
    /// that was appended by now and has no others of this operator. It always is so where nothing is appended any more.
    pub(crate) fn are_whole<R: Wait, S: Space>(
        &self,
        rt: &R,
        keeper: &CommitLog<N, L, S>,
        ended: &EndedDesk<K>,
        all: &LogPosition<N, L>,
    ) -> bool
        requires { ∥ AreTurnsOf K.configuration ended.now.turns.place ended.now.turns.front.seen.log (state_of ended.now.desk) ∥₁ }
        ensures { result ≡ true → ∥ AreLogged K.configuration ended.now.turns.front.seen.log
            (of_client N.client_of (index_of (Operator self.now.place)) all.now) ∥₁ }
    {
        if !self.has_turns(&ended.turns) {
            return false;
        }
        match keeper.whole_position(rt, &self.own) {
            Some(position) => position.is_of(all),
            None => false,
        }
    }

    /// Takes the turns of this desk for those whose records these are, and returns whether it did, as it always does.
    pub(crate) fn learn(&mut self, desk: &HallDesk<K>) -> bool
        requires desk { self.old.place ≡ desk.now.place }
        requires logged { desk.now.is_lost ≡ false
            → ∥ OwnsTurns K.configuration N.client_of self.old.own desk.now.turns.front.seen.log ∥₁ }
        ensures learnt { result ≡ true → desk.now.is_lost ≡ false }
        ensures own { self.new.own ≡ self.old.own }
        ensures place { self.new.place ≡ self.old.place }
    {
        match desk.turns() {
            Some(turns) => {
                self.turns = Some(turns);
                self.is_lost = false;
                true
            }
            None => {
                self.is_lost = true;
                false
            }
        }
    }

    /// Appends the record of the last turn of this desk where it was accepted, and releases the reservation of any
    /// other. Returns the log position of all that was appended by then, which has the records of all turns.
    ///
    /// # Errors
    ///
    /// The log failed, as it does where the turn isn't in the desk's list.
    pub(crate) fn settle<R: Wait, S: Space>(
        &mut self,
        rt: &R,
        keeper: &CommitLog<N, L, S>,
        desk: &HallDesk<K>,
        reserved: CallReservation,
        status: u16,
    ) -> Result<LogPosition<N, L>, CommitFault>
        requires owned { IsOwnedBy N.client_of self.old.own.client reserved }
        requires desk { self.old.place ≡ desk.now.place }
        requires logged { desk.now.is_lost ≡ false → ∥ AreLogged K.configuration desk.now.turns.front.seen.log
            (of_client N.client_of self.old.own.client self.old.own.texts ++ appended_by reserved status) ∥₁ }
        ensures settled { IfOk result (IsSettled reserved status) }
        ensures place { self.new.place ≡ self.old.place }
        ensures shows { IfOk result (λ stamp. ∥ ShowsTurns K.configuration N.client_of
            (index_of (Operator self.old.place)) desk.now.turns.front.seen.log stamp ∥₁) }
    {
        self.is_lost = true;
        let stamp = append_or_release(rt, keeper, &mut self.own, reserved, status)?;
        if self.learn(desk) {
            Ok(stamp)
        } else {
            Err(CommitFault::Failed(keeper.fail(rt)))
        }
    }

    /// Appends the records of those turns of this desk's last run that were accepted, by a flag for each, and releases
    /// the reservations of the others. Returns the log position of all that was appended by then, which isn't before
    /// the one known so far and has the records of all turns.
    ///
    /// # Errors
    ///
    /// The log failed, as it does where the run isn't in the desk's list.
    pub(crate) fn settle_run<R: Wait, S: Space>(
        &mut self,
        rt: &R,
        keeper: &CommitLog<N, L, S>,
        desk: &HallDesk<K>,
        known: &LogPosition<N, L>,
        places: Reservations,
        kept: &[bool],
    ) -> Result<LogPosition<N, L>, CommitFault>
        requires owned { AreOf N.client_of self.old.own.client (map (λ v. v.items) places.texts.items) }
        requires desk { self.old.place ≡ desk.now.place }
        requires logged { desk.now.is_lost ≡ false → ∥ AreLogged K.configuration desk.now.turns.front.seen.log
            (of_client N.client_of self.old.own.client self.old.own.texts
            ++ chosen kept.now (map (λ v. v.items) places.texts.items)) ∥₁ }
        ensures last { IfOk result (λ stamp. AreLast (chosen kept.now (map (λ v. v.items) places.texts.items)) stamp) }
        ensures known { IfOk result (λ stamp. IsPrefix known.now stamp) }
        ensures place { self.new.place ≡ self.old.place }
        ensures own { IfOk result (λ stamp. self.new.own.texts ≡ stamp) }
        ensures shows { IfOk result (λ stamp. ∥ ShowsTurns K.configuration N.client_of
            (index_of (Operator self.old.place)) desk.now.turns.front.seen.log stamp ∥₁) }
    {
        self.is_lost = true;
        let stamp = keeper.append_chosen(rt, &mut self.own, known, places, kept)?;
        if self.learn(desk) {
            Ok(stamp)
        } else {
            Err(CommitFault::Failed(keeper.fail(rt)))
        }
    }
}

/// Those of each operator, each behind a lock of its own, in the configuration's order.
///
/// # Errors
///
/// As `DeskRecords::new`.
pub(crate) fn lock_each<K: HallName, N: LogName, L: Log>(
    alloc: Global,
    config: &Config,
    nothing: &LogPosition<N, L>,
) -> Result<Vec<Mutex<DeskRecords<K, N, L>>>, AllocError>
    requires configured { configuration config.now ≡ K.configuration }
    requires clients { ReadsClients K.configuration N.client_of }
    requires nothing { nothing.now ≡ [] }
{
    let operators = config.operators().len();
    let mut locked = Vec::with_capacity(alloc, operators)?;
    for place in 0..operators {
        let records = DeskRecords::new(alloc, config, place, nothing)?;
        locked.push(Mutex::new(records))?;
    }
    Ok(locked)
}
