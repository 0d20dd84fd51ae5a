//! A server restarts by replaying a journal's entries.
ghost use Rattle.std.specs.Prelude.{◌≡◌};
ghost use Rattle.mds_snapshot.specs.Opening.{book_of};

use crate::journal::{TimedExchange, configuration, entries, request};
use crate::runtime::JournalRuntime;
use journal_recovery::{SilentProgress, start_again};
use mds_desk::{AuthorRoom, Desk, OpenGate, SharedReply};
use mds_request::Config;
use mds_snapshot::{Blank, OpeningName, prepare};
use mds_verdict::Plain;
use std::marker::Brand;
use std::sync::Wait;
use tests_fixtures::{
    EXCEEDED, FixtureExchange, GEOGRAPHIES, NONE_FOR_BRAVO, PUBLISH, PUT_CAP, PUT_SQUARE,
    REPORT_FIRST, REPORT_SECOND, VEHICLES, WITHDRAW,
};

/// A publication, and a report of each of alfa's vehicles.
pub(crate) const JOURNAL: &[TimedExchange<'static>] = &[
    (1000, &PUT_SQUARE),
    (1000, &PUT_CAP),
    (1000, &PUBLISH),
    (2000, &REPORT_FIRST),
    (2001, &REPORT_SECOND),
];

/// Whether an answer is the exchange's reply.
fn is_reply(answer: &SharedReply, exchange: &FixtureExchange) -> bool {
    answer.status() == exchange.status && answer.body() == exchange.reply.as_bytes()
}

/// Whether the room gives the exchange's reply.
fn room_replies<K: OpeningName, R: Wait>(
    rt: &R,
    room: &mut AuthorRoom<K>,
    exchange: &FixtureExchange,
) -> bool {
    let Some(request) = request(exchange.at, exchange) else {
        return false;
    };
    let (answer, _note) = room.answer(rt, &request);
    is_reply(&answer, exchange)
}

/// Whether the desk at this index gives the exchange's reply.
fn desk_replies<K: OpeningName>(
    desks: &mut [Desk<K>],
    place: usize,
    exchange: &FixtureExchange,
) -> bool {
    let Some(request) = request(exchange.at, exchange) else {
        return false;
    };
    if place >= desks.len() {
        return false;
    }
    let answer = desks[place].answer(&request, &mut OpenGate, &Plain);
    is_reply(&answer, exchange)
}

/// Checks that a room and desks reply as those that wrote the journal, and ends the room: the desks know what was
/// published, and alfa's has both vehicles; the room goes on at the next revision.
pub(crate) fn expect_replies<K: OpeningName, R: JournalRuntime>(
    rt: &R,
    room: AuthorRoom<K>,
    desks: Vec<Desk<K>>,
) {
    let mut room = room;
    let mut desks = desks;
    assert!(rt; desk_replies(&mut desks, 0, &GEOGRAPHIES));
    assert!(rt; desk_replies(&mut desks, 0, &EXCEEDED));
    assert!(rt; desk_replies(&mut desks, 0, &VEHICLES));
    assert!(rt; desk_replies(&mut desks, 1, &NONE_FOR_BRAVO));
    assert!(rt; room_replies(rt, &mut room, &WITHDRAW));
    room.finish(rt);
}

/// Checks that a room and desks replayed from a journal reply as those that wrote it.
fn go_on<K: OpeningName, R: JournalRuntime>(
    rt: &R,
    config: Config,
    blank: Blank,
    journal: &[TimedExchange<'_>],
)
    requires { book_of blank ≡ K.book }
{
    let Some(entries) = entries(rt.alloc(), &config, journal) else {
        panic!(rt; "entries");
    };
    let started = start_again::<K, R, SilentProgress>(
        rt,
        rt.alloc(),
        config,
        blank,
        &entries,
        &mut SilentProgress,
    );
    let Ok((room, desks)) = started else {
        panic!(rt; "a server");
    };
    expect_replies(rt, room, desks);
}

#[test]
fn goes_on_from_a_journal(rt: HostRuntime) {
    let config = configuration(rt.alloc()).expect(&rt, "a configuration");
    let blank = prepare(rt.alloc()).expect(&rt, "a blank");
    go_on::<Brand, HostRuntime>(&rt, config, blank, JOURNAL);
}
