//! The replay of entries.
ghost use Rattle.std.specs.Prelude.{◌≡◌, ◌<◌, length, map, Some, IfErr, MatchOption, OnOk};
ghost use Rattle.mds_request.specs.Configuration.{configuration};
ghost use Rattle.mds_request.specs.Request.{request_of};
ghost use Rattle.mds_request.specs.Reply.{Reply};
ghost use Rattle.mds_desk.specs.Desk.{state_of};
ghost use Rattle.mds_desk.specs.Room.{RoomState};
ghost use Rattle.journal_entry.specs.Entries.{entry_of};
ghost use Rattle.journal_recovery.specs.Recovery.{server_of, AllLearn, RoomAnswers, DeskAnswers, Answers, HasNoDesk};
ghost use Rattle.journal_recovery.specs.Recovery.{IsAnsweredAgain, AreAnswered, IsRefused, IsStopped};

use crate::fault::{Cause, Fault};
use crate::progress::Progress;
use journal_entry::{JournalEntry, actor_by, request_by};
use mds_desk::{AuthorRoom, Desk, OpenGate, SharedReply};
use mds_request::{Actor, Config, Request};
use mds_snapshot::{Note, OpeningName};
use mds_verdict::Plain;
use std::sync::Wait;

/// The status of a success.
const SUCCESS: u16 = 200;

/// Each desk learns what was published.
fn learn_all<K: OpeningName>(desks: &mut [Desk<K>], note: &Note<K>)
    ensures { AllLearn (Some note.now) (map state_of desks.old) (map state_of desks.new) }
{
    for place in 0..desks.len() {
        desks[place].learn(note);
    }
}

/// Each desk learns what was published, if something was.
fn learn_note<K: OpeningName>(desks: &mut [Desk<K>], note: Option<Note<K>>)
    ensures { AllLearn note (map state_of desks.old) (map state_of desks.new) }
{
    if let Some(note) = note {
        learn_all(desks, &note);
    }
}

/// The room answers the author's request, and each desk learns what it publishes.
fn room_answers<K: OpeningName, R: Wait>(
    rt: &R,
    room: &mut AuthorRoom<K>,
    desks: &mut [Desk<K>],
    request: &Request<'_>,
) -> SharedReply
    ensures { RoomAnswers (request_of request.now) result (server_of room.old desks.old) (server_of room.new desks.new) }
{
    let (answer, note) = room.answer(rt, request);
    learn_note(desks, note);
    answer
}

/// The desk at an index answers its operator's request.
fn desk_answers<K: OpeningName>(
    desks: &mut [Desk<K>],
    place: usize,
    request: &Request<'_>,
) -> SharedReply
    requires { place < length desks.old }
    ensures { (room : RoomState) → DeskAnswers place (request_of request.now) result
        (record { room = room; desks = map state_of desks.old }) (record { room = room; desks = map state_of desks.new }) }
{
    desks[place].answer(request, &mut OpenGate, &Plain)
}

/// Answers a client's request, the author's at the room and an operator's at its desk, and returns the status; `None`
/// where there is no such desk.
fn answer_at<K: OpeningName, R: Wait>(
    rt: &R,
    room: &mut AuthorRoom<K>,
    desks: &mut [Desk<K>],
    actor: Actor,
    request: &Request<'_>,
) -> Option<u16>
    ensures { MatchOption result
        (HasNoDesk actor (server_of room.old desks.old) × (server_of room.new desks.new ≡ server_of room.old desks.old))
        (λ status. (reply : Reply) × (reply.status ≡ status)
        × Answers actor (request_of request.now) reply (server_of room.old desks.old) (server_of room.new desks.new)) }
{
    match actor {
        Actor::Author => Some(room_answers(rt, room, desks, request).status()),
        Actor::Operator(place) => {
            if place < desks.len() {
                Some(desk_answers(desks, place, request).status())
            } else {
                None
            }
        }
        Actor::Nobody => None,
    }
}

/// Replays an entry.
///
/// # Errors
///
/// Why it wasn't answered with success.
fn replay_entry<K: OpeningName, R: Wait>(
    rt: &R,
    config: &Config,
    room: &mut AuthorRoom<K>,
    desks: &mut [Desk<K>],
    entry: &JournalEntry<'_>,
) -> Result<(), Cause>
    ensures again { OnOk result (IsAnsweredAgain (configuration config.now) (entry_of entry.now)
        (server_of room.old desks.old) (server_of room.new desks.new)) }
    ensures refused { IfErr result (λ cause. IsRefused (configuration config.now) (entry_of entry.now) cause
        (server_of room.old desks.old) (server_of room.new desks.new)) }
{
    let Some(request) = request_by(config, entry) else {
        return Err(Cause::NoDesk);
    };
    let actor = actor_by(config, entry.client);
    match answer_at(rt, room, desks, actor, &request) {
        None => Err(Cause::NoDesk),
        Some(SUCCESS) => Ok(()),
        Some(status) => Err(Cause::Refused(status)),
    }
}

/// Replays entries, one after another, each at its own moment and with its client's access token in the configuration:
/// the author's at the room, an operator's at its desk; and every desk learns what is published.
///
/// The configuration is the room's and the desks'. The `laws` say what the room and the desks are afterwards: where
/// they were new and the entries are the journal of what a server did, they are as this server left them, and continue
/// as one server with it. A journal may be replayed in parts, by one call each.
///
/// # Errors
///
/// The first entry that wasn't answered with success. The room and the desks have answered those before it, and must
/// not be used.
pub fn recover<K: OpeningName, R: Wait, P: Progress>(
    rt: &R,
    config: &Config,
    room: &mut AuthorRoom<K>,
    desks: &mut [Desk<K>],
    entries: &[JournalEntry<'_>],
    progress: &mut P,
) -> Result<(), Fault>
    ensures recovered { OnOk result (AreAnswered (configuration config.now) (map entry_of entries.now)
        (server_of room.old desks.old) (server_of room.new desks.new)) }
    ensures stopped { IfErr result (λ fault. IsStopped (configuration config.now) (map entry_of entries.now) fault
        (server_of room.old desks.old) (server_of room.new desks.new)) }
{
    for entry in 0..entries.len() {
        if let Err(cause) = replay_entry(rt, config, room, desks, &entries[entry]) {
            return Err(Fault { entry, cause });
        }
        progress.on_replayed(entry + 1);
    }
    Ok(())
}
