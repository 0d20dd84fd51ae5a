//! The list of a desk's turns. It exists in the proofs alone: what is shared is one word, its
//! length.
ghost use Rattle.std.specs.Prelude.{◌≡◌, ◌<◌, ◌++◌, ◌∷◌, [], IfSome, false, length, map, true};
ghost use mathlib.Core.List.{IsPrefix};
ghost use Rattle.mds_append_list.specs.AppendList.{head_of};
ghost use Rattle.mds_request.specs.Request.{request_of};
ghost use Rattle.mds_desk.specs.Desk.{state_of};
ghost use Rattle.server_state.specs.TurnItem.{Answered, Ran};
ghost use Rattle.server_state.specs.TurnList.{opened_as};
ghost use Rattle.server_state.specs.declared.turn_list.TheConstants.{MOST_TURNS};

use crate::hall_name::HallName;
use mds_append_list::{ListFront, ListHead, NewList, Plain};
use mds_desk::{Desk, SharedReply};
use mds_request::Request;
use mds_snapshot::OpeningName;
use std::alloc::{AllocError, Global};
use std::marker::{Model, PhantomData};

/// No list gets longer than this: a desk that took a turn each nanosecond would need a lifetime.
pub(crate) const MOST_TURNS: u64 = 1 << 61;

/// A turn, or a run of turns, which contracts see as an item of the list. No value of this type
/// exists at run time.
pub struct LoggedTurn {
    moment: u64,
}

impl Model for LoggedTurn {
    ghost use Rattle.std.specs.Prelude.{[]};
    ghost use Rattle.server_state.specs.TurnItem.{TurnItem, Ran, coded_item};

    ghost Value = { TurnItem };

    ghost coded = { coded_item };

    ghost view = { λ l. Ran [] [] };
}

/// The step that adds a desk without a turn.
pub struct OpenedItem;

impl<K: OpeningName> Plain<Desk<K>, LoggedTurn, u64> for OpenedItem {
    ghost use Rattle.std.specs.Prelude.{None};
    ghost use Rattle.mds_desk.specs.Desk.{state_of};
    ghost use Rattle.server_state.specs.TurnItem.{Opened};

    ghost ask = { λ desk. Opened (state_of desk).known (state_of desk).rows };

    ghost state = { λ desk. None };
}

/// A request, and the reply to it.
#[derive(Drop)]
pub struct AnsweredRequest<'a> {
    pub(crate) request: &'a Request<'a>,
    pub(crate) reply: &'a SharedReply,
}

/// The step that adds a turn.
pub struct AnsweredItem;

impl<'a> Plain<AnsweredRequest<'a>, LoggedTurn, u64> for AnsweredItem {
    ghost use Rattle.std.specs.Prelude.{None};
    ghost use Rattle.mds_request.specs.Request.{request_of};
    ghost use Rattle.server_state.specs.TurnItem.{Answered};

    ghost ask = { λ turn. Answered (request_of turn.request.now) turn.reply.now };

    ghost state = { λ turn. None };
}

/// Requests, and the replies to them.
#[derive(Drop)]
pub struct AnsweredRequests<'a> {
    requests: &'a [Request<'a>],
    replies: &'a Vec<SharedReply>,
}

/// The step that adds a run of turns.
pub struct RanItem;

impl<'a> Plain<AnsweredRequests<'a>, LoggedTurn, u64> for RanItem {
    ghost use Rattle.std.specs.Prelude.{None, map};
    ghost use Rattle.mds_request.specs.Request.{request_of};
    ghost use Rattle.server_state.specs.TurnItem.{Ran};

    ghost ask = { λ run. Ran (map request_of run.requests.now) run.replies.now.items };

    ghost state = { λ run. None };
}

/// An empty list for each of so many desks, in the configuration's order, and one for the author's
/// room. They have no name yet.
#[derive(Drop)]
pub struct TurnLists {
    pub(crate) lists: Vec<Option<NewList<LoggedTurn>>>,
    pub(crate) room: NewList<LoggedTurn>,
}

impl TurnLists {
    /// Begins lists for so many desks, and for the room.
    ///
    /// # Errors
    ///
    /// Out of memory.
    pub fn new(alloc: Global, desks: usize) -> Result<TurnLists, AllocError> {
        let mut lists = Vec::with_capacity(alloc, desks)?;
        for _ in 0..desks {
            lists.push(Some(NewList::new()))?;
        }
        Ok(TurnLists {
            lists,
            room: NewList::new(),
        })
    }
}

/// Lists under their names. Contracts see how many they were.
#[derive(Drop)]
pub(crate) struct NamedTurnLists<K: HallName> {
    lists: Vec<Option<NewList<LoggedTurn>>>,
    of: PhantomData<K>,
}

impl<K: HallName> Model for NamedTurnLists<K> {
    ghost use Rattle.std.specs.Prelude.{ℕ, length, map, option_map};
    ghost use Rattle.server_state.specs.TurnBooks.{AreNamed};

    ghost Value = { ℕ };

    ghost view = { λ l. length l.lists.items };

    ghost invariant = { λ l. AreNamed K.turns (map (option_map (λ list. list.front.seen.book)) l.lists.items) };
}

impl<K: HallName> NamedTurnLists<K> {
    ghost use Rattle.server_state.specs.TurnLists.{books_of, room_book_of};

    /// Puts the desks' lists under their names, and hands on the room's.
    pub(crate) fn new(lists: TurnLists) -> (NamedTurnLists<K>, NewList<LoggedTurn>)
        requires { books_of lists ≡ K.turns }
        ensures { result.1.front.seen.book ≡ room_book_of lists }
    {
        let TurnLists { lists, room } = lists;
        let named = NamedTurnLists {
            lists,
            of: PhantomData,
        };
        (named, room)
    }

    /// Takes the list of the desk at this index out, where it is there.
    pub(crate) fn take(&mut self, place: usize) -> Option<NewList<LoggedTurn>>
        ensures { IfSome result (λ list. list.front.seen.book ≡ K.turns place) }
    {
        if place < self.lists.len() {
            self.lists[place].take()
        } else {
            None
        }
    }
}

/// The list of the turns of the desk of the operator at this index, since it was put behind its
/// lock, with the list's word.
#[derive(Drop)]
pub(crate) struct TurnList<K: HallName> {
    pub(crate) place: usize,
    head: ListHead<LoggedTurn>,
    pub(crate) front: ListFront<LoggedTurn>,
    of: PhantomData<K>,
    ghost head_is: { head.word ≡ head_of (K.turns place) },
    ghost front_is: { front.seen.book ≡ K.turns place },
}

impl<K: HallName> TurnList<K> {
    /// Begins the list of this desk.
    pub(crate) fn open(
        place: usize,
        list: NewList<LoggedTurn>,
        desk: &Desk<K>,
    ) -> Option<TurnList<K>>
        requires { list.front.seen.book ≡ K.turns place }
        ensures place { IfSome result (λ l. l.place ≡ place) }
        ensures opened { IfSome result (λ l. l.front.seen.log ≡ opened_as (state_of desk.now)) }
    {
        let NewList { head, mut front } = list;
        if !front.extend::<Desk<K>, OpenedItem>(&head, desk) {
            return None;
        }
        Some(TurnList {
            place,
            head,
            front,
            of: PhantomData,
        })
    }

    /// Adds a turn, and returns whether it did, as it always does.
    pub(crate) fn add(&mut self, request: &Request<'_>, reply: &SharedReply) -> bool
        ensures place { self.new.place ≡ self.old.place }
        ensures longer { result ≡ false → length self.old.front.seen.log < MOST_TURNS → length self.old.front.seen.log < length self.new.front.seen.log }
        ensures added { result ≡ true → self.new.front.seen.log ≡ self.old.front.seen.log ++ Answered (request_of request.now) reply.now ∷ [] }
    {
        if self.front.len() >= MOST_TURNS {
            return false;
        }
        let turn = AnsweredRequest { request, reply };
        self.front
            .extend::<AnsweredRequest<'_>, AnsweredItem>(&self.head, &turn)
    }

    /// Adds a run of turns, and returns whether it did, as it always does.
    pub(crate) fn add_run(&mut self, requests: &[Request<'_>], replies: &Vec<SharedReply>) -> bool
        ensures place { self.new.place ≡ self.old.place }
        ensures longer { result ≡ false → length self.old.front.seen.log < MOST_TURNS → length self.old.front.seen.log < length self.new.front.seen.log }
        ensures added { result ≡ true → self.new.front.seen.log ≡ self.old.front.seen.log ++ Ran (map request_of requests.now) replies.now.items ∷ [] }
    {
        if self.front.len() >= MOST_TURNS {
            return false;
        }
        let run = AnsweredRequests { requests, replies };
        self.front
            .extend::<AnsweredRequests<'_>, RanItem>(&self.head, &run)
    }

    /// Whether it begins with these turns, as it does where they are of the same desk and aren't more.
    pub(crate) fn begins_with(&self, turns: &DeskTurns<K>) -> bool
        ensures { result ≡ true → IsPrefix turns.now.front.seen.log self.now.front.seen.log }
    {
        if turns.place != self.place {
            return false;
        }
        turns.front.begins(&self.front)
    }

    /// The turns so far.
    pub(crate) fn turns(&self) -> DeskTurns<K>
        ensures place { result.place ≡ self.now.place }
        ensures front { result.front ≡ self.now.front }
    {
        DeskTurns {
            place: self.place,
            front: self.front.again(),
            of: PhantomData,
        }
    }
}

/// The turns of the desk of the operator at this index, from when it was put behind its lock up to
/// one of them.
#[derive(Drop)]
pub struct DeskTurns<K: HallName> {
    pub(crate) place: usize,
    pub(crate) front: ListFront<LoggedTurn>,
    of: PhantomData<K>,
    ghost front_is: { front.seen.book ≡ K.turns place },
}

impl<K: HallName> DeskTurns<K> {
    /// How many items of the list they are, with the one that opened it.
    pub fn len(&self) -> u64
        ensures { result ≡ length self.now.front.seen.log }
    {
        self.front.len()
    }

    /// Whether others are of the same desk and begin with these, as they do where they aren't fewer.
    pub fn begins(&self, other: &DeskTurns<K>) -> bool
        ensures place { result ≡ true → self.now.place ≡ other.now.place }
        ensures fewer { self.now.place ≡ other.now.place → result ≡ false → length other.now.front.seen.log < length self.now.front.seen.log }
        ensures begins { result ≡ true → IsPrefix self.now.front.seen.log other.now.front.seen.log }
    {
        if self.place != other.place {
            return false;
        }
        self.front.begins(&other.front)
    }
}
