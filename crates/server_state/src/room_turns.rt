//! The list of the turns of the author's room, which exists in the proofs alone, as those of desks do.
ghost use Rattle.std.specs.Prelude.{◌≡◌, ◌<◌, ◌++◌, ◌∷◌, [], IfSome, false, length, true};
ghost use mathlib.Core.List.{IsPrefix};
ghost use Rattle.mds_append_list.specs.AppendList.{head_of};
ghost use Rattle.mds_desk.specs.Room.{held_in, room_of};
ghost use Rattle.mds_request.specs.Request.{request_of};
ghost use Rattle.server_state.specs.RoomTurns.{room_opened_as};
ghost use Rattle.server_state.specs.TurnItem.{Answered};
ghost use Rattle.server_state.specs.declared.turn_list.TheConstants.{MOST_TURNS};

use crate::hall_name::HallName;
use crate::turn_list::{AnsweredItem, AnsweredRequest, LoggedTurn, MOST_TURNS};
use mds_append_list::{ListFront, ListHead, NewList, Plain};
use mds_desk::{AuthorRoom, SharedReply};
use mds_request::Request;
use mds_snapshot::OpeningName;
use std::marker::PhantomData;

/// The step that adds a room without a turn.
pub struct OpenedRoomItem;

impl<K: OpeningName> Plain<AuthorRoom<K>, LoggedTurn, u64> for OpenedRoomItem {
    ghost use Rattle.std.specs.Prelude.{None};
    ghost use Rattle.mds_desk.specs.Room.{room_of};
    ghost use Rattle.server_state.specs.TurnItem.{OpenedRoom};

    ghost ask = { λ room. OpenedRoom (room_of room).drafts (room_of room).publications };

    ghost state = { λ room. None };
}

/// The list of the turns of the author's room, since it was put behind its lock, with the list's
/// word.
#[derive(Drop)]
pub(crate) struct RoomTurnList<K: HallName> {
    head: ListHead<LoggedTurn>,
    pub(crate) front: ListFront<LoggedTurn>,
    of: PhantomData<K>,
    ghost head_is: { head.word ≡ head_of K.room_turns },
    ghost front_is: { front.seen.book ≡ K.room_turns },
}

impl<K: HallName> RoomTurnList<K> {
    /// Begins the list of this room.
    pub(crate) fn open(list: NewList<LoggedTurn>, room: &AuthorRoom<K>) -> Option<RoomTurnList<K>>
        requires { list.front.seen.book ≡ K.room_turns }
        ensures { IfSome result (λ l. l.front.seen.log ≡ room_opened_as (held_in (room_of room.now))) }
    {
        let NewList { head, mut front } = list;
        if !front.extend::<AuthorRoom<K>, OpenedRoomItem>(&head, room) {
            return None;
        }
        Some(RoomTurnList {
            head,
            front,
            of: PhantomData,
        })
    }

    /// Adds a turn, and returns whether it did, as it always does.
    pub(crate) fn add(&mut self, request: &Request<'_>, reply: &SharedReply) -> bool
        ensures longer { result ≡ false → length self.old.front.seen.log < MOST_TURNS → length self.old.front.seen.log < length self.new.front.seen.log }
        ensures added { result ≡ true → self.new.front.seen.log ≡ self.old.front.seen.log ++ Answered (request_of request.now) reply.now ∷ [] }
    {
        if self.front.len() >= MOST_TURNS {
            return false;
        }
        let turn = AnsweredRequest { request, reply };
        self.front
            .extend::<AnsweredRequest<'_>, AnsweredItem>(&self.head, &turn)
    }

    /// Whether it begins with these turns, as it does where they aren't more.
    pub(crate) fn begins_with(&self, turns: &RoomTurns<K>) -> bool
        ensures { result ≡ true → IsPrefix turns.now.front.seen.log self.now.front.seen.log }
    {
        turns.front.begins(&self.front)
    }

    /// The turns so far.
    pub(crate) fn turns(&self) -> RoomTurns<K>
        ensures { result.front ≡ self.now.front }
    {
        RoomTurns {
            front: self.front.again(),
            of: PhantomData,
        }
    }
}

/// The turns of the author's room, from when it was put behind its lock up to one of them.
#[derive(Drop)]
pub struct RoomTurns<K: HallName> {
    pub(crate) front: ListFront<LoggedTurn>,
    of: PhantomData<K>,
    ghost front_is: { front.seen.book ≡ K.room_turns },
}

impl<K: HallName> RoomTurns<K> {
    /// How many items of the list they are, with the one that opened it.
    pub fn len(&self) -> u64
        ensures { result ≡ length self.now.front.seen.log }
    {
        self.front.len()
    }

    /// Whether others begin with these, as they do where they aren't fewer.
    pub fn begins(&self, other: &RoomTurns<K>) -> bool
        ensures fewer { result ≡ false → length other.now.front.seen.log < length self.now.front.seen.log }
        ensures begins { result ≡ true → IsPrefix self.now.front.seen.log other.now.front.seen.log }
    {
        self.front.begins(&other.front)
    }
}
