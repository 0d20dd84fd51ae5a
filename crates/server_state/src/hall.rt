//! The server's state: the author's room and the desks, each behind a lock of its own.
ghost use Rattle.std.specs.Prelude.{◌≡◌, ◌<◌, ◌++◌, ◌∷◌, [], IfOk, IfSome, Ok, Some, length, map, slice_get};
ghost use mathlib.Core.List.{IsPrefix};
ghost use Rattle.std.specs.Mem.{manually_drop_value};
ghost use Rattle.std.specs.Sync.Mutex.{mutex_guard_value};
ghost use Rattle.std.specs.List.{range_with_len};
ghost use Rattle.mds_request.specs.Call.{call_of};
ghost use Rattle.mds_request.specs.Configuration.{configuration, actor_of};
ghost use Rattle.mds_request.specs.declared.call.Call.TheVariants.{Author as ByAuthor};
ghost use Rattle.mds_desk.specs.Desk.{state_of};
ghost use Rattle.mds_desk.specs.Room.{held_in, room_of};
ghost use Rattle.mds_snapshot.specs.Opening.{book_of};
ghost use Rattle.server_state.specs.HttpRequest.{token_of};
ghost use Rattle.server_state.specs.Client.{IsWithin};
ghost use Rattle.server_state.specs.WholeRequest.{request_heard};
ghost use Rattle.server_state.specs.Resolved.{call_in};
ghost use Rattle.server_state.specs.Turn.{AreDesksOf, RoomReplies};
ghost use Rattle.server_state.specs.RoomTurns.{AreRoomTurnsOf, room_opened_as};
ghost use Rattle.server_state.specs.TurnList.{AreTurnsOf, opened_as};
ghost use Rattle.server_state.specs.TurnLists.{books_of, room_book_of};

use crate::hall_name::HallName;
use crate::http_request::{head_request, token};
use crate::locks::{DeskLock, EndedDesk, HallDesk, HallRoom};
use crate::resolved::ResolvedCall;
use crate::room_turns::{RoomTurnList, RoomTurns};
use crate::turn_list::{NamedTurnLists, TurnLists};
use crate::whole_request::WholeRequest;
use http::request::Parts;
use mds_desk::{AlwaysPublish, AuthorRoom, Desk, SharedReply, furnish};
use mds_request::{Actor, AuthorCall, Call, Code, Config, Routes, read_call};
use mds_snapshot::{Blank, Note, OpenFault};
use std::alloc::{AllocError, Global};
use std::sync::atomic::AtomicU64;
use std::sync::{Arc, Mutex, MutexGuard, Wait};

/// The author's room and a desk for each operator, each behind a lock of its own, and the latest
/// note of what is published, behind a third. An operator's request takes its desk's lock, then the
/// note's while the note is copied; the author's takes the room's, and within it the note's. It has
/// to be ended by `finish`.
#[derive(Drop)]
pub struct Hall<K: HallName> {
    config: Arc<Config>,
    routes: Arc<Routes>,
    /// The list of the room's turns as the room was put behind its lock.
    room_opening: RoomTurns<K>,
    room: Mutex<HallRoom<K>>,
    desks: Vec<DeskLock<K>>,
    latest: Mutex<Option<Note<K>>>,
    ghost configured: { configuration config.value ≡ K.configuration },
    ghost in_order: { map (λ desk. desk.place) desks.items ≡ range_with_len 0 (length (configuration config.value).operators) },
}

/// Puts each desk behind a lock, in the configuration's order, with its empty list.
///
/// # Errors
///
/// Out of memory, or there are too few lists.
fn lock_each<K: HallName>(
    alloc: Global,
    desks: Vec<Desk<K>>,
    lists: &mut NamedTurnLists<K>,
) -> Result<Vec<DeskLock<K>>, AllocError>
    requires { AreDesksOf K.configuration (map state_of desks.items) }
    ensures places { IfOk result (λ locked. map (λ desk. desk.place) locked.items ≡ range_with_len 0 (length K.configuration.operators)) }
    ensures opened { IfOk result (λ locked. map (λ desk. desk.opening.front.seen.log) locked.items ≡ map (λ desk. opened_as (state_of desk)) desks.items) }
{
    let mut locked = Vec::with_capacity(alloc, desks.len())?;
    for desk in desks {
        let place = locked.len();
        let Some(list) = lists.take(place) else {
            return Err(AllocError);
        };
        let Some(lock) = DeskLock::new(place, desk, list) else {
            return Err(AllocError);
        };
        locked.push(lock)?;
    }
    Ok(locked)
}

/// A copy of the latest note, if there is one.
fn copy_note<K: HallName>(latest: &Option<Note<K>>) -> Option<Note<K>>
    ensures { result ≡ latest.now }
{
    match latest {
        Some(note) => Some(note.again()),
        None => None,
    }
}

/// Sets the latest note.
fn set_latest<K: HallName>(latest: &mut Option<Note<K>>, note: Note<K>)
    ensures { latest.new ≡ Some note }
{
    *latest = Some(note);
}

impl<K: HallName> Hall<K> {
    ghost use Rattle.server_state.specs.Openings.{BeginsAt, openings_of};

    /// Opens a `Blank` for a configuration.
    ///
    /// # Errors
    ///
    /// `NoMemory` where memory ran out, `NoPlace` where there was no place for a reader.
    pub fn new<R: Wait>(
        rt: &R,
        alloc: Global,
        config: Config,
        blank: Blank,
        lists: TurnLists,
    ) -> Result<Hall<K>, OpenFault>
        requires book { book_of blank ≡ K.book }
        requires configured { configuration config ≡ K.configuration }
        requires turns { books_of lists ≡ K.turns }
        requires room_turns { room_book_of lists ≡ K.room_turns }
        ensures { IfOk result (λ hall. configuration hall.config.value ≡ configuration config) }
    {
        let (room, desks) = furnish::<K, R>(rt, alloc, config, blank)?;
        Hall::of(rt, alloc, room, desks, lists)
    }

    /// A hall over this room and these desks, all of one opening, with an empty list for the turns of
    /// the room and of each desk. They may have answered requests before, which stand in no list.
    ///
    /// # Errors
    ///
    /// `NoMemory` where memory ran out, or there are too few lists. The room is ended then.
    pub fn of<R: Wait>(
        rt: &R,
        alloc: Global,
        room: AuthorRoom<K>,
        desks: Vec<Desk<K>>,
        lists: TurnLists,
    ) -> Result<Hall<K>, OpenFault>
        requires room { (room_of room).configuration ≡ K.configuration }
        requires desks { AreDesksOf K.configuration (map state_of desks.items) }
        requires turns { books_of lists ≡ K.turns }
        requires room_turns { room_book_of lists ≡ K.room_turns }
        ensures configured { IfOk result (λ hall. configuration hall.config.value ≡ K.configuration) }
        ensures room_opened { IfOk result (λ hall. hall.room_opening.front.seen.log ≡ room_opened_as (held_in (room_of room))) }
        ensures opened { IfOk result (λ hall. map (λ desk. desk.opening.front.seen.log) hall.desks.items ≡ map (λ desk. opened_as (state_of desk)) desks.items) }
    {
        let (mut lists, list) = NamedTurnLists::new(lists);
        match (
            room.configuration(),
            room.routes(),
            RoomTurnList::open(list, &room),
            lock_each(alloc, desks, &mut lists),
        ) {
            (Ok(config), Ok(routes), Some(turns), Ok(desks)) => Ok(Hall {
                config,
                routes,
                room_opening: turns.turns(),
                room: Mutex::new(HallRoom::new(room, turns)),
                desks,
                latest: Mutex::new(None),
            }),
            _ => {
                room.finish(rt);
                Err(OpenFault::NoMemory)
            }
        }
    }

    /// The client of a head: the one whose access token it carries.
    pub fn actor_at(&self, parts: &Parts) -> Actor
        ensures value { result ≡ actor_of (configuration self.now.config.value) (token_of parts.now.headers) }
        ensures within { IsWithin (length (configuration self.now.config.value).operators) result }
    {
        self.config.actor(token(&parts.headers))
    }

    /// What a head calls for, by its client, whatever body within its limit follows it. Takes no
    /// lock.
    ///
    /// # Errors
    ///
    /// The first refusal of the table of calls, as `mds_request::read_call` says.
    pub fn call_at(&self, parts: &Parts) -> Result<Call, Code>
        ensures { result ≡ call_in (configuration self.now.config.value) parts.now }
    {
        read_call(&self.routes, &self.config, &head_request(parts))
    }

    /// The client of a head that calls for this. The access token is looked up again only for a
    /// refusal other than `Token`.
    pub fn caller(&self, parts: &Parts, call: &Result<Call, Code>) -> Actor
        requires { call.now ≡ call_in K.configuration parts.now }
        ensures { result ≡ actor_of K.configuration (token_of parts.now.headers) }
    {
        match call {
            Ok(call) => match call {
                Call::Author(_) => Actor::Author,
                Call::Operator(place, _) => Actor::Operator(*place),
            },
            Err(code) => match code {
                Code::Token => Actor::Nobody,
                _ => self.actor_at(parts),
            },
        }
    }

    /// Resolves a head: which client asks, and for what. The request is handled by this from then
    /// on. Takes no lock.
    pub fn resolve(&self, parts: Parts) -> ResolvedCall<K>
        ensures { result.parts ≡ parts }
    {
        let call = self.call_at(&parts);
        let actor = self.caller(&parts, &call);
        ResolvedCall::new(parts, actor, call)
    }

    /// The lock of the desk of the operator at this index of the configuration.
    pub(crate) fn desk(&self, place: usize) -> &DeskLock<K>
        requires { place < length (configuration self.now.config.value).operators }
        ensures place { result.now.place ≡ place }
        ensures opening { slice_get (openings_of self.now).desks place ≡ Some result.now.opening.front.seen.log }
    {
        &self.desks[place]
    }

    /// The desk of the operator at this index, once its lock is taken. Its list begins as it was put
    /// behind the lock.
    pub fn desk_at<R: Wait>(&self, rt: &R, place: usize) -> Option<MutexGuard<'_, HallDesk<K>>>
        requires { place < length (configuration self.now.config.value).operators }
        ensures place { IfSome result (λ guard. (mutex_guard_value guard).place ≡ place) }
        ensures begins { IfSome result (λ guard. BeginsAt (openings_of self.now) place (mutex_guard_value guard).turns.front.seen.log) }
    {
        self.desk(place).lock_checked(rt)
    }

    /// From now on this number is that of the vehicles of the operator at this index: it is set at
    /// once, and after each turn of its desk, so that it is read without a lock. At an index that
    /// no operator has it isn't set.
    pub fn count_at<R: Wait>(&self, rt: &R, place: usize, vehicles: Arc<AtomicU64>) {
        if let Some(desk) = self.desks.get(place) {
            desk.count_at(rt, vehicles);
        }
    }

    /// The list of the room's turns as the room was put behind its lock.
    pub fn room_opening(&self) -> &RoomTurns<K>
        ensures { result.now ≡ self.now.room_opening }
    {
        &self.room_opening
    }

    /// The author's room, once its lock is taken.
    pub fn room<R: Wait>(&self, rt: &R) -> MutexGuard<'_, HallRoom<K>> {
        self.room.lock(rt)
    }

    /// The author's room, once its lock is taken. Its list begins as it was put behind the lock, which
    /// is compared; it never begins otherwise.
    pub fn room_checked<R: Wait>(&self, rt: &R) -> Option<MutexGuard<'_, HallRoom<K>>>
        ensures { IfSome result (λ guard. IsPrefix (openings_of self.now).room (mutex_guard_value guard).turns.front.seen.log) }
    {
        let room = self.room.lock(rt);
        if room.begins_with(&self.room_opening) {
            Some(room)
        } else {
            None
        }
    }

    /// Sets the latest note: under the room's lock, so that a later one isn't lost.
    pub fn set_note<R: Wait>(&self, rt: &R, note: Note<K>) {
        set_latest(&mut *self.latest.lock(rt), note);
    }

    /// The latest note.
    pub fn note<R: Wait>(&self, rt: &R) -> Option<Note<K>> {
        let latest = self.latest.lock(rt);
        copy_note(&*latest)
    }

    /// Carries out a call of the author, that of the request, by one turn of the author's room. A
    /// publication's note is the latest before the next request of the author is answered.
    pub(crate) fn answer_author<R: Wait>(
        &self,
        rt: &R,
        heard: WholeRequest<'_>,
        call: &AuthorCall,
    ) -> SharedReply
        requires { call_of (configuration self.now.config.value) (request_heard heard) ≡ Ok (ByAuthor call.now) }
        ensures { RoomReplies (configuration self.now.config.value) (request_heard heard.entry) result }
    {
        let mut room = self.room.lock(rt);
        let (reply, note) = room.carry_out(rt, heard, call, &mut AlwaysPublish);
        if let Some(note) = note {
            set_latest(&mut *self.latest.lock(rt), note);
        }
        reply
    }

    /// A reference to the configuration. The room and each desk have one too.
    ///
    /// # Errors
    ///
    /// There are too many references.
    pub fn configuration(&self) -> Result<Arc<Config>, AllocError>
        ensures { IfOk result (λ c. configuration c.value ≡ configuration self.now.config.value) }
    {
        Arc::try_clone(&self.config)
    }

    /// Takes the room and the desks out, after their last turns: no request can come any more. The
    /// room is still to be ended.
    pub fn end(self) -> HallEnd<K>
        ensures opening { result.opening ≡ self.room_opening }
        ensures desks { result.desks ≡ self.desks }
    {
        let Self {
            config: _config,
            routes: _routes,
            room_opening,
            room,
            desks,
            latest: _latest,
        } = self;
        HallEnd {
            opening: room_opening,
            room: room.into_inner(),
            desks,
        }
    }

    /// Ends the author's room, and gives out the desks: no request can come any more.
    pub fn finish<R: Wait>(self, rt: &R) -> EndedDesks<K>
        ensures { result.desks ≡ self.desks }
    {
        self.end().finish(rt)
    }
}

/// The room and the desks of a hall after their last turns. It has to be ended by `finish`.
#[derive(Drop)]
pub struct HallEnd<K: HallName> {
    /// The list of the room's turns as the room was put behind its lock.
    opening: RoomTurns<K>,
    room: HallRoom<K>,
    desks: Vec<DeskLock<K>>,
}

impl<K: HallName> HallEnd<K> {
    /// The author's room.
    pub fn room(&self) -> &HallRoom<K>
        ensures { result.now ≡ self.now.room }
    {
        &self.room
    }

    /// All turns of the room, from when it was put behind its lock. None is given where a turn isn't
    /// in its list, which doesn't happen.
    pub fn room_turns(&self) -> Option<RoomTurns<K>>
        ensures begins { IfSome result (λ turns. IsPrefix self.now.opening.front.seen.log turns.front.seen.log) }
        ensures whole { IfSome result (λ turns. turns.front.seen.log ≡ self.now.room.turns.front.seen.log) }
        ensures turns { IfSome result (λ turns. ∥ AreRoomTurnsOf K.configuration turns.front.seen.log (room_of (manually_drop_value self.now.room.room)) ∥₁) }
    {
        let turns = self.room.turns()?;
        if self.opening.begins(&turns) {
            Some(turns)
        } else {
            None
        }
    }

    /// How many desks are left to be taken out.
    pub fn len(&self) -> usize
        ensures { result ≡ length self.now.desks.items }
    {
        self.desks.len()
    }

    /// The last of the desks that are left, which is taken out, with all its turns, from the state in
    /// which it was put behind its lock. All that it knows is published in the room. None is given
    /// where no desk is left, or where a turn isn't in its list, the desk isn't at its place or knows
    /// what isn't published, which doesn't happen.
    pub fn pop(&mut self) -> Option<EndedDesk<K>>
        ensures opening { IfSome result (λ ended. map (λ desk. desk.opening.front.seen.log) self.old.desks.items
            ≡ map (λ desk. desk.opening.front.seen.log) self.new.desks.items ++ ended.opening.front.seen.log ∷ []) }
        ensures begins { IfSome result (λ ended. IsPrefix ended.opening.front.seen.log ended.turns.front.seen.log) }
        ensures turns { IfSome result (λ ended. ∥ AreTurnsOf K.configuration ended.turns.place ended.turns.front.seen.log (state_of ended.desk) ∥₁) }
        ensures place { IfSome result (λ ended. ended.turns.place ≡ length self.new.desks.items) }
        ensures placed { IfSome result (λ ended. ended.place ≡ length self.new.desks.items) }
        ensures published { IfSome result (λ ended. IsPrefix (state_of ended.desk).known (room_of (manually_drop_value self.new.room.room)).publications) }
        ensures room { self.new.room ≡ self.old.room }
    {
        let last = self.desks.pop()?;
        let ended = last.finish()?;
        if ended.place == self.desks.len() && self.room.has_published(&ended.desk) {
            Some(ended)
        } else {
            None
        }
    }

    /// Ends the author's room, and gives out the desks that are left.
    pub fn finish<R: Wait>(self, rt: &R) -> EndedDesks<K>
        ensures { result.desks ≡ self.desks }
    {
        let Self {
            opening: _opening,
            room,
            desks,
        } = self;
        room.finish(rt);
        EndedDesks { desks }
    }
}

/// The desks of a hall that has ended.
#[derive(Drop)]
pub struct EndedDesks<K: HallName> {
    desks: Vec<DeskLock<K>>,
}

impl<K: HallName> EndedDesks<K> {
    /// The last of these desks, which is taken out, with all its turns, from the state in which it
    /// was put behind its lock. None is given where there is none, or where a turn isn't in its
    /// list, which doesn't happen.
    pub fn pop(&mut self) -> Option<EndedDesk<K>>
        ensures opening { IfSome result (λ ended. map (λ desk. desk.opening.front.seen.log) self.old.desks.items
            ≡ map (λ desk. desk.opening.front.seen.log) self.new.desks.items ++ ended.opening.front.seen.log ∷ []) }
        ensures begins { IfSome result (λ ended. IsPrefix ended.opening.front.seen.log ended.turns.front.seen.log) }
        ensures turns { IfSome result (λ ended. ∥ AreTurnsOf K.configuration ended.turns.place ended.turns.front.seen.log (state_of ended.desk) ∥₁) }
    {
        let desk = self.desks.pop()?;
        desk.finish()
    }
}
