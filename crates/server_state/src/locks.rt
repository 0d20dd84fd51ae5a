//! What lies behind the locks of a hall: of one opening and one configuration, which `K` names.
ghost use Rattle.std.specs.Prelude.{◌≡◌, ◌⊎◌, ◌++◌, ◌∷◌, [], IfErr, IfOk, IfSome, IsSome, MatchResult, Ok, OnErr, false, map, option_copied, true};
ghost use mathlib.Core.List.{IsPrefix};
ghost use Rattle.std.specs.Mem.{manually_drop_value};
ghost use Rattle.std.specs.Sync.Mutex.{mutex_guard_value};
ghost use Rattle.mds_desk.specs.Desk.{state_of};
ghost use Rattle.mds_request.specs.Call.{call_of};
ghost use Rattle.mds_request.specs.Request.{request_of};
ghost use Rattle.mds_request.specs.Reply.{refused};
ghost use Rattle.mds_request.specs.declared.call.Call.TheVariants.{Author as ByAuthor, Operator as OperatorAt};
ghost use Rattle.mds_request.specs.declared.code.Code.TheVariants.{NoMemory, NoSnapshot};
ghost use Rattle.mds_desk.specs.Room.{held_in, room_of, TakesRoomTurn};
ghost use Rattle.server_state.specs.RoomTurns.{AreRoomTurnsOf, room_opened_as};
ghost use Rattle.server_state.specs.WholeRequest.{request_heard};
ghost use Rattle.server_state.specs.Query.{DeskTells, Looks, RoomTells};
ghost use Rattle.server_state.specs.Turn.{DeskReplies, DeskRuns, IsDeskAt, IsTold, RoomReplies, TakesToldRun, TakesToldTurn};
ghost use Rattle.server_state.specs.TurnItem.{Answered, Ran};
ghost use Rattle.server_state.specs.TurnList.{AreTurnsOf, opened_as};

use crate::hall_name::HallName;
use crate::room_turns::{RoomTurnList, RoomTurns};
use crate::turn::{query_desk, take_call_turn, take_run, take_turn};
use crate::turn_list::{DeskTurns, LoggedTurn, TurnList};
use crate::whole_request::WholeRequest;
use mds_append_list::NewList;
use mds_catalog::Catalogue;
use mds_desk::{AuthorRoom, Desk, DeskQuery, Gate, PublishGuard, RoomQuery, SharedReply};
use mds_request::{AuthorCall, Code, OperatorCall, Request};
use mds_snapshot::Note;
use mds_verdict::Evaluator;
use std::alloc::{AllocError, Global};
use std::mem::ManuallyDrop;
use std::sync::atomic::{AtomicU64, Ordering};
use std::sync::{Arc, Mutex, MutexGuard, Wait};
use std::thread::yield_now;

/// How often the lock of a desk is tried, and other threads may run in between, before a thread
/// sleeps for it.
const TRIES: usize = 32;

/// The desk of the operator at this index of the configuration that `K` names, with the list of its
/// turns since it was put behind its lock.
#[derive(Drop)]
pub struct HallDesk<K: HallName> {
    place: usize,
    desk: Desk<K>,
    turns: TurnList<K>,
    /// A turn isn't in the list, and no later one is told. It doesn't happen.
    is_lost: bool,
    /// The number of vehicles, shared with its reader.
    vehicles: Option<Arc<AtomicU64>>,
    ghost configured: { (state_of desk).configuration ≡ K.configuration },
    ghost placed: { (state_of desk).place ≡ place },
    ghost listed_there: { turns.place ≡ place },
    ghost listed: { ∥ (is_lost ≡ false → AreTurnsOf K.configuration place turns.front.seen.log (state_of desk)) ∥₁ },
}

/// Stores the number of vehicles of a desk's operator, where it is wanted.
fn store_count<K: HallName>(desk: &Desk<K>, vehicles: &Option<Arc<AtomicU64>>) {
    if let Some(vehicles) = vehicles {
        vehicles.store(desk.vehicles() as u64, Ordering::SeqCst);
    }
}

/// Adds the run of turns that gave these replies to the list, where there was one, and returns
/// whether none is missing.
fn list_run<K: HallName>(
    turns: &mut TurnList<K>,
    requests: &[Request<'_>],
    run: &Result<Vec<SharedReply>, AllocError>,
) -> bool
    ensures place { turns.new.place ≡ turns.old.place }
    ensures added { MatchResult run.now
        (λ replies. result ≡ true → turns.new.front.seen.log ≡ turns.old.front.seen.log ++ Ran (map request_of requests.now) replies.items ∷ [])
        (λ _. (result ≡ true) × (turns.new.front.seen.log ≡ turns.old.front.seen.log)) }
{
    match run {
        Ok(replies) => turns.add_run(requests, replies),
        Err(_) => true,
    }
}

impl<K: HallName> HallDesk<K> {
    /// From now on this number is that of the vehicles: it is set here, and after each turn.
    pub(crate) fn count_at(&mut self, vehicles: Arc<AtomicU64>)
        ensures desk { self.new.desk ≡ self.old.desk }
        ensures place { self.new.place ≡ self.old.place }
    {
        self.vehicles = Some(vehicles);
        store_count(&self.desk, &self.vehicles);
    }

    /// Answers a query of what is published: the desk learns the note, where there is one, and
    /// takes a look. Its vehicles stay.
    ///
    /// # Errors
    ///
    /// `NoSnapshot` where there is no snapshot, `NoMemory` where memory ran out.
    pub fn query<T: DeskQuery>(
        &mut self,
        note: Option<&Note<K>>,
        telling: &T,
    ) -> Result<T::Told, Code>
        ensures looks { Looks (state_of self.old.desk) (option_copied note.entry) (state_of self.new.desk) }
        ensures told { IfOk result (T.tells telling.now (state_of self.new.desk).known) }
        ensures tells { IfOk result (DeskTells K.configuration self.old.place (T.tells telling.now)) }
        ensures refused { IfErr result (λ code. (code ≡ NoMemory) ⊎ (code ≡ NoSnapshot)) }
        ensures place { self.new.place ≡ self.old.place }
    {
        query_desk(&mut self.desk, note, telling)
    }

    /// Answers a request: the desk learns the note, where there is one, and takes one turn, whose
    /// reply is returned. The evaluator judges vehicles.
    pub fn answer<G: Gate, E: Evaluator<Catalogue>>(
        &mut self,
        heard: WholeRequest<'_>,
        note: Option<&Note<K>>,
        gate: &mut G,
        evaluator: &E,
    ) -> SharedReply
        requires { E.may_judge }
        ensures turn { TakesToldTurn (state_of self.old.desk) (option_copied note.entry) (request_heard heard.entry) result (state_of self.new.desk) }
        ensures replies { DeskReplies K.configuration self.old.place (request_heard heard.entry) result }
        ensures listed { self.new.is_lost ≡ false → self.new.turns.front.seen.log ≡ self.old.turns.front.seen.log ++ Answered (request_heard heard.entry) result ∷ [] }
        ensures place { self.new.place ≡ self.old.place }
    {
        let request = heard.request();
        self.answer_request(&request, note, gate, evaluator)
    }

    /// The same for a request that came by no head of its own.
    pub fn answer_request<G: Gate, E: Evaluator<Catalogue>>(
        &mut self,
        request: &Request<'_>,
        note: Option<&Note<K>>,
        gate: &mut G,
        evaluator: &E,
    ) -> SharedReply
        requires { E.may_judge }
        ensures turn { TakesToldTurn (state_of self.old.desk) (option_copied note.entry) (request_of request.now) result (state_of self.new.desk) }
        ensures replies { DeskReplies K.configuration self.old.place (request_of request.now) result }
        ensures listed { self.new.is_lost ≡ false → self.new.turns.front.seen.log ≡ self.old.turns.front.seen.log ++ Answered (request_of request.now) result ∷ [] }
        ensures place { self.new.place ≡ self.old.place }
    {
        let reply = take_turn(request, &mut self.desk, note, gate, evaluator);
        self.is_lost = self.is_lost | !self.turns.add(request, &reply);
        store_count(&self.desk, &self.vehicles);
        reply
    }

    /// Carries out a call of this desk's operator, that of the request: the desk learns the note,
    /// where there is one, and takes one turn, whose reply is returned. The evaluator judges
    /// vehicles.
    pub fn carry_out<G: Gate, E: Evaluator<Catalogue>>(
        &mut self,
        heard: WholeRequest<'_>,
        call: &OperatorCall,
        note: Option<&Note<K>>,
        gate: &mut G,
        evaluator: &E,
    ) -> SharedReply
        requires judge { E.may_judge }
        requires resolved { call_of K.configuration (request_heard heard) ≡ Ok (OperatorAt self.old.place call.now) }
        ensures turn { TakesToldTurn (state_of self.old.desk) (option_copied note.entry) (request_heard heard.entry) result (state_of self.new.desk) }
        ensures replies { DeskReplies K.configuration self.old.place (request_heard heard.entry) result }
        ensures listed { self.new.is_lost ≡ false → self.new.turns.front.seen.log ≡ self.old.turns.front.seen.log ++ Answered (request_heard heard.entry) result ∷ [] }
        ensures place { self.new.place ≡ self.old.place }
    {
        let request = heard.request();
        let reply = take_call_turn(&request, call, &mut self.desk, note, gate, evaluator);
        self.is_lost = self.is_lost | !self.turns.add(&request, &reply);
        store_count(&self.desk, &self.vehicles);
        reply
    }

    /// Answers many requests: the desk learns the note, where there is one, and takes a turn for
    /// each, in their order. Their replies are returned in that order. The evaluator judges
    /// vehicles.
    ///
    /// # Errors
    ///
    /// There was no memory for the list of replies: no request was answered, and no vehicle has
    /// changed.
    pub fn answer_all<G: Gate, E: Evaluator<Catalogue>>(
        &mut self,
        requests: &[Request<'_>],
        note: Option<&Note<K>>,
        gate: &mut G,
        evaluator: &E,
    ) -> Result<Vec<SharedReply>, AllocError>
        requires { E.may_judge }
        ensures run { IfOk result (λ replies. TakesToldRun (state_of self.old.desk) (option_copied note.entry) (map request_of requests.now)
            replies.items (state_of self.new.desk)) }
        ensures replies { IfOk result (λ replies. DeskRuns K.configuration self.old.place (map request_of requests.now) replies.items) }
        ensures listed { IfOk result (λ replies. self.new.is_lost ≡ false
            → self.new.turns.front.seen.log ≡ self.old.turns.front.seen.log ++ Ran (map request_of requests.now) replies.items ∷ []) }
        ensures unasked { OnErr result (IsTold (state_of self.old.desk) (option_copied note.entry) (state_of self.new.desk)) }
        ensures place { self.new.place ≡ self.old.place }
    {
        let replies = take_run(requests, &mut self.desk, note, gate, evaluator);
        self.is_lost = self.is_lost | !list_run(&mut self.turns, requests, &replies);
        store_count(&self.desk, &self.vehicles);
        replies
    }

    /// The turns of this desk so far. They aren't given where one isn't in the list, which doesn't
    /// happen.
    pub fn turns(&self) -> Option<DeskTurns<K>>
        ensures given { self.now.is_lost ≡ false → IsSome result }
        ensures place { IfSome result (λ turns. turns.place ≡ self.now.place) }
        ensures whole { IfSome result (λ turns. (self.now.is_lost ≡ false) × (turns.front.seen.log ≡ self.now.turns.front.seen.log)) }
        ensures turns { IfSome result (λ turns. ∥ AreTurnsOf K.configuration turns.place turns.front.seen.log (state_of self.now.desk) ∥₁) }
    {
        if self.is_lost {
            None
        } else {
            Some(self.turns.turns())
        }
    }
}

/// A desk behind its lock, and its list as it was put there.
#[derive(Drop)]
pub(crate) struct DeskLock<K: HallName> {
    place: usize,
    opening: DeskTurns<K>,
    desk: Mutex<HallDesk<K>>,
}

/// A desk that has taken its last turn, with all its turns since it was put behind its lock, and
/// its list as it was then.
#[derive(Drop)]
pub struct EndedDesk<K: HallName> {
    pub place: usize,
    pub desk: Desk<K>,
    pub opening: DeskTurns<K>,
    pub turns: DeskTurns<K>,
}

impl<K: HallName> DeskLock<K> {
    /// Puts the desk of the operator at this index behind a lock, with its empty list. It always
    /// does.
    pub(crate) fn new(place: usize, desk: Desk<K>, list: NewList<LoggedTurn>) -> Option<DeskLock<K>>
        requires desk { IsDeskAt K.configuration place (state_of desk) }
        requires list { list.front.seen.book ≡ K.turns place }
        ensures place { IfSome result (λ lock. lock.place ≡ place) }
        ensures opening { IfSome result (λ lock. lock.opening.front.seen.log ≡ opened_as (state_of desk)) }
    {
        let turns = TurnList::open(place, list, &desk)?;
        Some(DeskLock {
            place,
            opening: turns.turns(),
            desk: Mutex::new(HallDesk {
                place,
                desk,
                turns,
                is_lost: false,
                vehicles: None,
            }),
        })
    }

    /// Takes the desk out of its lock, once no thread has it any more, with all its turns. None is
    /// given where a turn isn't in its list, or the desk isn't that of this lock's index: neither
    /// happens.
    pub(crate) fn finish(self) -> Option<EndedDesk<K>>
        ensures opening { IfSome result (λ ended. ended.opening ≡ self.opening) }
        ensures place { IfSome result (λ ended. ended.turns.place ≡ ended.place) }
        ensures begins { IfSome result (λ ended. IsPrefix ended.opening.front.seen.log ended.turns.front.seen.log) }
        ensures turns { IfSome result (λ ended. ∥ AreTurnsOf K.configuration ended.turns.place ended.turns.front.seen.log (state_of ended.desk) ∥₁) }
    {
        let Self {
            place,
            opening,
            desk,
        } = self;
        let ended = desk.into_inner();
        if ended.place != place {
            return None;
        }
        let turns = ended.turns()?;
        if !opening.begins(&turns) {
            return None;
        }
        let HallDesk {
            place: _place,
            desk,
            turns: _turns,
            is_lost: _is_lost,
            vehicles: _vehicles,
        } = ended;
        Some(EndedDesk {
            place,
            desk,
            opening,
            turns,
        })
    }

    /// From now on this number is that of the vehicles of the desk's operator.
    pub(crate) fn count_at<R: Wait>(&self, rt: &R, vehicles: Arc<AtomicU64>) {
        self.lock_desk(rt).count_at(vehicles);
    }

    /// Takes the lock. Most answers take less time than it takes to put a thread to sleep and to
    /// wake it, so a thread sleeps only where the desk stays locked.
    fn lock_desk<R: Wait>(&self, rt: &R) -> MutexGuard<'_, HallDesk<K>> {
        for _ in 0..TRIES {
            if let Some(desk) = self.desk.try_lock() {
                return desk;
            }
            yield_now();
        }
        self.desk.lock(rt)
    }

    /// The desk of this lock's index, whose list begins as it was put behind the lock. All that is
    /// known of the desk behind the lock is its configuration and that its list is of all its turns, so
    /// the index and the list's beginning are compared; they are never others.
    pub(crate) fn lock_checked<R: Wait>(&self, rt: &R) -> Option<MutexGuard<'_, HallDesk<K>>>
        ensures place { IfSome result (λ guard. (mutex_guard_value guard).place ≡ self.now.place) }
        ensures begins { IfSome result (λ guard. IsPrefix self.now.opening.front.seen.log (mutex_guard_value guard).turns.front.seen.log) }
    {
        let desk = self.lock_desk(rt);
        if desk.place == self.place && desk.turns.begins_with(&self.opening) {
            Some(desk)
        } else {
            None
        }
    }
}

/// The author's room of the configuration that `K` names, with the list of its turns since it was
/// put behind its lock.
#[derive(Drop)]
pub struct HallRoom<K: HallName> {
    room: ManuallyDrop<AuthorRoom<K>>,
    turns: RoomTurnList<K>,
    /// A turn isn't in the list, and no later one is told. It doesn't happen.
    is_lost: bool,
    ghost configured: { (room_of (manually_drop_value room)).configuration ≡ K.configuration },
    ghost listed: { ∥ (is_lost ≡ false → AreRoomTurnsOf K.configuration turns.front.seen.log (room_of (manually_drop_value room))) ∥₁ },
}

impl<K: HallName> HallRoom<K> {
    /// Wraps a room, with its list. It has to be ended by `finish`.
    pub(crate) fn new(room: AuthorRoom<K>, turns: RoomTurnList<K>) -> HallRoom<K>
        requires room { (room_of room).configuration ≡ K.configuration }
        requires turns { turns.front.seen.log ≡ room_opened_as (held_in (room_of room)) }
    {
        HallRoom {
            room: unsafe { ManuallyDrop::new_unchecked(room) },
            turns,
            is_lost: false,
        }
    }

    /// Answers a request by one turn of the room. A publication gives a note, for desks to learn,
    /// and `leave` is asked just before the publication is visible: see
    /// `mds_desk::AuthorRoom::answer_with`.
    pub fn answer_with<R: Wait, L: PublishGuard>(
        &mut self,
        rt: &R,
        heard: WholeRequest<'_>,
        leave: &mut L,
    ) -> (SharedReply, Option<Note<K>>)
        ensures turn { TakesRoomTurn (room_of (manually_drop_value self.old.room)) (request_heard heard.entry)
            result.0 result.1 (room_of (manually_drop_value self.new.room)) }
        ensures replies { RoomReplies K.configuration (request_heard heard.entry) result.0 }
        ensures given { IfSome result.1 (λ list. L.given leave.new) }
        ensures asked { (leave.new ≡ leave.old) ⊎ (IsSome result.1 ⊎ (result.0 ≡ refused NoMemory)) }
        ensures listed { self.new.is_lost ≡ false → self.new.turns.front.seen.log ≡ self.old.turns.front.seen.log ++ Answered (request_heard heard.entry) result.0 ∷ [] }
    {
        let request = heard.request();
        let (reply, note) = self.room.answer_with(rt, &request, leave);
        self.is_lost = self.is_lost | !self.turns.add(&request, &reply);
        (reply, note)
    }

    /// The same for a call of the author, that of the request.
    pub fn carry_out<R: Wait, L: PublishGuard>(
        &mut self,
        rt: &R,
        heard: WholeRequest<'_>,
        call: &AuthorCall,
        leave: &mut L,
    ) -> (SharedReply, Option<Note<K>>)
        requires { call_of K.configuration (request_heard heard) ≡ Ok (ByAuthor call.now) }
        ensures turn { TakesRoomTurn (room_of (manually_drop_value self.old.room)) (request_heard heard.entry)
            result.0 result.1 (room_of (manually_drop_value self.new.room)) }
        ensures replies { RoomReplies K.configuration (request_heard heard.entry) result.0 }
        ensures given { IfSome result.1 (λ list. L.given leave.new) }
        ensures asked { (leave.new ≡ leave.old) ⊎ (IsSome result.1 ⊎ (result.0 ≡ refused NoMemory)) }
        ensures listed { self.new.is_lost ≡ false → self.new.turns.front.seen.log ≡ self.old.turns.front.seen.log ++ Answered (request_heard heard.entry) result.0 ∷ [] }
    {
        let request = heard.request();
        let (reply, note) = self.room.carry_out(rt, &request, call, leave);
        self.is_lost = self.is_lost | !self.turns.add(&request, &reply);
        (reply, note)
    }

    /// Answers a query of the drafts and of what is published. Nothing changes.
    ///
    /// # Errors
    ///
    /// Out of memory.
    pub fn query<T: RoomQuery>(&self, telling: &T) -> Result<T::Told, AllocError>
        ensures told { IfOk result (T.tells telling.now (room_of (manually_drop_value self.now.room)).drafts
            (room_of (manually_drop_value self.now.room)).publications) }
        ensures tells { IfOk result (RoomTells K.configuration (T.tells telling.now)) }
    {
        self.room.run_query(telling)
    }

    /// The turns of the room so far. They aren't given where one isn't in the list, which doesn't
    /// happen.
    pub fn turns(&self) -> Option<RoomTurns<K>>
        ensures given { self.now.is_lost ≡ false → IsSome result }
        ensures whole { IfSome result (λ turns. (self.now.is_lost ≡ false) × (turns.front.seen.log ≡ self.now.turns.front.seen.log)) }
        ensures turns { IfSome result (λ turns. ∥ AreRoomTurnsOf K.configuration turns.front.seen.log (room_of (manually_drop_value self.now.room)) ∥₁) }
    {
        if !self.is_lost {
            Some(self.turns.turns())
        } else {
            None
        }
    }

    /// Whether the list of the room's turns begins with these, as it does where they aren't more.
    pub(crate) fn begins_with(&self, turns: &RoomTurns<K>) -> bool
        ensures { result ≡ true → IsPrefix turns.now.front.seen.log self.now.turns.front.seen.log }
    {
        self.turns.begins_with(turns)
    }

    /// Whether all that a desk of the same opening knows is published in this room.
    pub(crate) fn has_published(&self, desk: &Desk<K>) -> bool
        ensures { result ≡ true → IsPrefix (state_of desk.now).known (room_of (manually_drop_value self.now.room)).publications }
    {
        self.room.has_published(desk)
    }

    /// Ends the room.
    pub(crate) fn finish<R: Wait>(self, rt: &R) {
        let Self {
            room,
            turns: _turns,
            is_lost: _is_lost,
        } = self;
        ManuallyDrop::into_inner(room).finish(rt);
    }
}
