//! The end of a city: the lists of its turns are compared with its log.
ghost use Rattle.std.specs.Prelude.{◌≡◌, ◌<◌, [], IfSome, length, map, true};
ghost use Rattle.std.specs.Mem.{manually_drop_value};
ghost use Rattle.journal_commit.specs.Clients.{of_client};
ghost use Rattle.mds_desk.specs.Room.{room_of};
ghost use Rattle.mds_request.specs.declared.config.Actor.TheVariants.{Nobody};
ghost use Rattle.server_admission.specs.Actor.{index_of};
ghost use Rattle.server_durable.specs.Journals.{AreEndedBehind, AreEndedDesks, EndsLogged};
ghost use Rattle.server_durable.specs.Owners.{client_in};

use crate::desk_records::DeskRecords;
use crate::room_turn::AuthorLog;
use journal_commit::{CommitLog, LogName, LogPosition, OwnRecords, Space};
use journal_file::Log;
use mds_request::Actor;
use server_admission::index_of;
use server_state::{HallEnd, HallName};
use std::mem;
use std::sync::{Mutex, Wait};

/// Takes out the last desk that is left and the records of its operator, and returns whether the log, up to this
/// position of all that was appended, has the records of all turns of the desk and no others of the operator. It does.
fn pop_whole<K: HallName, N: LogName, L: Log, S: Space, R: Wait>(
    rt: &R,
    keeper: &CommitLog<N, L, S>,
    end: &mut HallEnd<K>,
    operators: &mut Vec<Mutex<DeskRecords<K, N, L>>>,
    all: &LogPosition<N, L>,
) -> bool
    requires { N.client_of ≡ client_in K.configuration }
    ensures room { end.new.room ≡ end.old.room }
    ensures fewer { result ≡ true → length end.new.desks.items < length end.old.desks.items }
    ensures ended { result ≡ true → ∥ AreEndedBehind K.configuration (room_of (manually_drop_value end.old.room.room)).publications all.now
        (map (λ desk. desk.opening.front.seen.log) end.new.desks.items) (map (λ desk. desk.opening.front.seen.log) end.old.desks.items) ∥₁ }
{
    let Some(ended) = end.pop() else {
        return false;
    };
    let Some(records) = operators.pop() else {
        return false;
    };
    let records = records.into_inner();
    if records.place != ended.place {
        return false;
    }
    records.are_whole(rt, keeper, &ended, all)
}

/// The same for all desks.
fn pop_all_whole<K: HallName, N: LogName, L: Log, S: Space, R: Wait>(
    rt: &R,
    keeper: &CommitLog<N, L, S>,
    end: &mut HallEnd<K>,
    mut operators: Vec<Mutex<DeskRecords<K, N, L>>>,
    all: &LogPosition<N, L>,
) -> bool
    requires { N.client_of ≡ client_in K.configuration }
    ensures { result ≡ true → ∥ AreEndedDesks K.configuration (room_of (manually_drop_value end.old.room.room)).publications all.now
        0 (map (λ desk. desk.opening.front.seen.log) end.old.desks.items) ∥₁ }
{
    'desks: while end.len() > 0 {
        if !pop_whole(rt, keeper, end, &mut operators, all) {
            return false;
        }
    }
    true
}

/// Whether the log, up to this position of all that was appended, has no payload that names a client which the
/// configuration doesn't have. It has none.
fn has_none_of_nobody<N: LogName, L: Log, S: Space, R: Wait>(
    rt: &R,
    keeper: &CommitLog<N, L, S>,
    nothing: &LogPosition<N, L>,
    all: &LogPosition<N, L>,
) -> bool
    requires { nothing.now ≡ [] }
    ensures { result ≡ true → of_client N.client_of (index_of Nobody) all.now ≡ [] }
{
    let nobody = OwnRecords::new(index_of(Actor::Nobody), nothing);
    match keeper.whole_position(rt, &nobody) {
        Some(position) => position.is_of(all),
        None => false,
    }
}

/// The log position of all that was appended, where its payloads are, client by client, the records of all turns of the
/// room and of the desks, each in their order, and no others; none where they aren't. The desks are taken out. `nothing`
/// is the log position at which nothing is appended.
pub(crate) fn whole_position<K: HallName, N: LogName, L: Log, S: Space, R: Wait>(
    rt: &R,
    keeper: &CommitLog<N, L, S>,
    end: &mut HallEnd<K>,
    author: Option<AuthorLog<K, N, L>>,
    operators: Vec<Mutex<DeskRecords<K, N, L>>>,
    nothing: &LogPosition<N, L>,
) -> Option<LogPosition<N, L>>
    requires clients { N.client_of ≡ client_in K.configuration }
    requires nothing { nothing.now ≡ [] }
    ensures { IfSome result (λ all. ∥ EndsLogged K.configuration end.old.opening.front.seen.log
        (map (λ desk. desk.opening.front.seen.log) end.old.desks.items) all ∥₁) }
{
    let turns = end.room_turns()?;
    mem::drop(turns);
    let all = author?.whole_position(rt, keeper, end.room())?;
    if !has_none_of_nobody(rt, keeper, nothing, &all) {
        return None;
    }
    if pop_all_whole(rt, keeper, end, operators, &all) {
        Some(all)
    } else {
        None
    }
}
