//! The answers of a server that is started from a journal's entries.
ghost use Rattle.std.specs.Prelude.{◌≡◌, ◌<◌, List, length, map, IfOk, IfSome};
ghost use Rattle.mds_request.specs.Configuration.{configuration};
ghost use Rattle.mds_request.specs.Request.{request_of};
ghost use Rattle.mds_snapshot.specs.Opening.{book_of};
ghost use Rattle.mds_desk.specs.Desk.{DeskState, state_of};
ghost use Rattle.mds_desk.specs.Room.{RoomState, room_of};
ghost use Rattle.journal_entry.specs.Entries.{entry_of};
ghost use Rattle.journal_recovery.specs.Recovery.{server_of, DeskAnswers};
ghost use Rattle.journal_compaction.specs.Replies.{RoomTells, Tells, IsTold, AreTold, AreReplies};

use crate::fault::CompactFault;
use journal_entry::{JournalEntry, actor_by, request_by};
use journal_recovery::{Cause, Fault, SilentProgress, StartFault, start_again};
use mds_desk::{AuthorRoom, Desk, OpenGate, SharedReply};
use mds_request::{Actor, Config, Request};
use mds_snapshot::{Blank, OpenFault, OpeningName};
use mds_verdict::Plain;
use std::alloc::Global;
use std::sync::Wait;

/// The status of a server that is out of memory or has no snapshot.
const BUSY: u16 = 503;

/// What a server is started with.
pub(crate) struct ServerOpening {
    pub config: Config,
    pub blank: Blank,
}

/// The desk at a place answers its operator's request.
fn desk_answer<K: OpeningName>(
    desks: &mut [Desk<K>],
    place: usize,
    request: &Request<'_>,
) -> SharedReply
    requires { place < length desks.old }
    ensures { (room : RoomState) → DeskAnswers place (request_of request.now) result
        (record { room = room; desks = map state_of desks.old }) (record { room = room; desks = map state_of desks.new }) }
{
    desks[place].answer(request, &mut OpenGate, &Plain)
}

/// The author's room answers a request. A question publishes nothing, so desks have nothing to learn.
fn room_answer<K: OpeningName, R: Wait>(
    rt: &R,
    room: &mut AuthorRoom<K>,
    request: &Request<'_>,
) -> SharedReply
    ensures { (desks : List DeskState) → RoomTells (request_of request.now) result
        (record { room = room_of room.old; desks = desks }) (record { room = room_of room.new; desks = desks }) }
{
    let (answer, _note) = room.answer(rt, request);
    answer
}

/// The author's room, or an operator's desk, answers a request; `None` where there is no such desk.
fn answer_by<K: OpeningName, R: Wait>(
    rt: &R,
    room: &mut AuthorRoom<K>,
    desks: &mut [Desk<K>],
    actor: Actor,
    request: &Request<'_>,
) -> Option<SharedReply>
    ensures { IfSome result (λ reply. Tells actor (request_of request.now) reply
        (server_of room.old desks.old) (server_of room.new desks.new)) }
{
    match actor {
        Actor::Author => Some(room_answer(rt, room, request)),
        Actor::Operator(place) => {
            if place < desks.len() {
                Some(desk_answer(desks, place, request))
            } else {
                None
            }
        }
        Actor::Nobody => None,
    }
}

/// A question's answer.
///
/// # Errors
///
/// `NoMemory` where the status is 503, `Differs` where the question's client isn't there.
fn answer_question<K: OpeningName, R: Wait>(
    rt: &R,
    config: &Config,
    room: &mut AuthorRoom<K>,
    desks: &mut [Desk<K>],
    question: &JournalEntry<'_>,
) -> Result<SharedReply, CompactFault>
    ensures { IfOk result (λ reply. IsTold (configuration config.now) (entry_of question.now) reply
        (server_of room.old desks.old) (server_of room.new desks.new)) }
{
    let Some(request) = request_by(config, question) else {
        return Err(CompactFault::Differs);
    };
    let actor = actor_by(config, question.client);
    let Some(answer) = answer_by(rt, room, desks, actor, &request) else {
        return Err(CompactFault::Differs);
    };
    if answer.status() == BUSY {
        return Err(CompactFault::NoMemory);
    }
    Ok(answer)
}

/// The answers to questions, in their order.
fn answer_questions<K: OpeningName, R: Wait>(
    rt: &R,
    alloc: Global,
    config: &Config,
    room: &mut AuthorRoom<K>,
    desks: &mut [Desk<K>],
    questions: &[JournalEntry<'_>],
) -> Result<Vec<SharedReply>, CompactFault>
    ensures { IfOk result (λ replies. AreTold (configuration config.now) (map entry_of questions.now) replies.items
        (server_of room.old desks.old) (server_of room.new desks.new)) }
{
    let mut replies = Vec::new(alloc);
    for place in 0..questions.len() {
        let reply = answer_question(rt, config, room, desks, &questions[place])?;
        replies.push(reply)?;
    }
    Ok(replies)
}

/// Why there are no replies.
pub(crate) enum QuestionFault {
    /// The server doesn't start.
    Refused(StartFault),
    /// It doesn't answer a question.
    Untold(CompactFault),
}

/// Why a server doesn't start: it is out of memory, or else this fault.
fn start_failure(fault: StartFault) -> QuestionFault {
    match fault {
        StartFault::Opening(OpenFault::NoMemory) => QuestionFault::Untold(CompactFault::NoMemory),
        StartFault::Stopped(
            Fault {
                cause: Cause::Refused(BUSY),
                ..
            },
        ) => QuestionFault::Untold(CompactFault::NoMemory),
        _ => QuestionFault::Refused(fault),
    }
}

/// A server is started from entries, answers questions, and is ended.
///
/// # Errors
///
/// The server doesn't start, or a question isn't answered.
pub(crate) fn replies<K: OpeningName, R: Wait>(
    rt: &R,
    alloc: Global,
    config: &Config,
    opening: ServerOpening,
    entries: &[JournalEntry<'_>],
    questions: &[JournalEntry<'_>],
) -> Result<Vec<SharedReply>, QuestionFault>
    requires named { book_of opening.blank ≡ K.book }
    requires same { configuration opening.config ≡ configuration config.now }
    ensures { IfOk result (λ replies. AreReplies (configuration config.now) (map entry_of entries.now)
        (map entry_of questions.now) replies.items) }
{
    let ServerOpening { config: own, blank } = opening;
    let (mut room, mut desks) = match start_again::<K, R, SilentProgress>(
        rt,
        alloc,
        own,
        blank,
        entries,
        &mut SilentProgress,
    ) {
        Ok(started) => started,
        Err(fault) => return Err(start_failure(fault)),
    };
    let told = answer_questions(rt, alloc, config, &mut room, &mut desks, questions);
    room.finish(rt);
    match told {
        Ok(replies) => Ok(replies),
        Err(fault) => Err(QuestionFault::Untold(fault)),
    }
}
