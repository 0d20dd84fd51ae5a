//! A room and two desks: worked scripts, looks around a publication, threads that overlap, and the same with one
//! allocation refused.
ghost use Rattle.std.specs.Prelude.{◌≡◌};
ghost use Rattle.mds_snapshot.specs.Opening.{book_of};

use crate::city::{BOTH, CAP, CONFIGURATION, NEW, SQUARE};
use crate::runtime::TestRuntime;
use mds_desk::{AuthorRoom, Desk, OpenGate, SharedReply, furnish};
use mds_request::{Config, Request, Verb};
use mds_snapshot::{Blank, Note, OpenFault, OpeningName, prepare};
use mds_text::Moment;
use mds_verdict::Plain;
use std::alloc::{AllocError, Global};
use std::marker::Brand;
use std::process::Abort;
use std::test::Fail;

mod looks;
mod memory;
mod overlapping;
mod sessions;

const NO_MEMORY: &str = r#"{"error":"no_memory"}"#;

const NO_SNAPSHOT: &str = r#"{"error":"no_snapshot"}"#;

/// A request at a moment, and the body of its success, status 200.
#[derive(Clone, Copy)]
struct DeskExchange {
    at: i64,
    token: &'static str,
    verb: Verb,
    target: &'static str,
    body: &'static str,
    success: &'static str,
}

const PUT_SQUARE: &DeskExchange = &DeskExchange {
    at: 1000,
    token: "city",
    verb: Verb::Put,
    target: "/drafts/geographies/00000000-0000-4000-8000-000000000101",
    body: SQUARE,
    success: NEW,
};

const PUT_CAP: &DeskExchange = &DeskExchange {
    at: 1000,
    token: "city",
    verb: Verb::Put,
    target: "/drafts/policies/00000000-0000-4000-8000-000000000201",
    body: CAP,
    success: NEW,
};

/// Both documents are put as drafts.
const DRAFTS: &[&DeskExchange] = &[PUT_SQUARE, PUT_CAP];

const PUBLISH: &DeskExchange = &DeskExchange {
    at: 1000,
    token: "city",
    verb: Verb::Post,
    target: "/publish",
    body: BOTH,
    success: r#"{"published_date":1000,"revision":1}"#,
};

const REPORT_FIRST: &DeskExchange = &DeskExchange {
    at: 2000,
    token: "alfa",
    verb: Verb::Post,
    target: "/fleet/events",
    body: r#"{"device_id":"00000000-0000-4000-8000-000000000401","vehicle_type":"scooter","propulsion_types":["electric"],"vehicle_state":"available","event_types":["trip_end"],"timestamp":2000,"location":{"lat":5,"lng":5}}"#,
    success: NEW,
};

const WITHIN: &DeskExchange = &DeskExchange {
    at: 2000,
    token: "alfa",
    verb: Verb::Get,
    target: "/compliance",
    body: "",
    success: r#"{"at":2000,"policies":[{"policy_id":"00000000-0000-4000-8000-000000000201","rules":[{"measure":1,"rule_id":"00000000-0000-4000-8000-000000000301","status":"ok"}]}],"revision":1,"version":2}"#,
};

const REPORT_SECOND: &DeskExchange = &DeskExchange {
    at: 2001,
    token: "alfa",
    verb: Verb::Post,
    target: "/fleet/events",
    body: r#"{"device_id":"00000000-0000-4000-8000-000000000402","vehicle_type":"scooter","propulsion_types":["electric"],"vehicle_state":"available","event_types":["trip_end"],"timestamp":2001,"location":{"lat":5,"lng":5}}"#,
    success: NEW,
};

const EXCEEDED: &DeskExchange = &DeskExchange {
    at: 2001,
    token: "alfa",
    verb: Verb::Get,
    target: "/compliance",
    body: "",
    success: r#"{"at":2001,"policies":[{"policy_id":"00000000-0000-4000-8000-000000000201","rules":[{"devices":["00000000-0000-4000-8000-000000000401","00000000-0000-4000-8000-000000000402"],"measure":2,"rule_id":"00000000-0000-4000-8000-000000000301","status":"violated"}]}],"revision":1,"version":2}"#,
};

/// One vehicle is reported, and then another, with a compliance question after each.
const LINES: &[&DeskExchange; 4] = &[REPORT_FIRST, WITHIN, REPORT_SECOND, EXCEEDED];

/// The answer at 2000 where no vehicle is counted.
const NONE_COUNTED: &str =
    r#"{"at":2000,"policies":[{"policy_id":"00000000-0000-4000-8000-000000000201","rules":[{"measure":0,"rule_id":"00000000-0000-4000-8000-000000000301","status":"ok"}]}],"revision":1,"version":2}"#;

const NONE_FOR_ALFA: &DeskExchange = &DeskExchange {
    at: 2000,
    token: "alfa",
    verb: Verb::Get,
    target: "/compliance",
    body: "",
    success: NONE_COUNTED,
};

const NONE_FOR_BRAVO: &DeskExchange = &DeskExchange {
    at: 2000,
    token: "bravo",
    verb: Verb::Get,
    target: "/compliance",
    body: "",
    success: NONE_COUNTED,
};

/// The answer at 2000 where nothing is published.
const NOTHING_PUBLISHED: &str = r#"{"at":2000,"policies":[],"revision":0,"version":2}"#;

const NOTHING_FOR_ALFA: &DeskExchange = &DeskExchange {
    at: 2000,
    token: "alfa",
    verb: Verb::Get,
    target: "/compliance",
    body: "",
    success: NOTHING_PUBLISHED,
};

const NOTHING_FOR_BRAVO: &DeskExchange = &DeskExchange {
    at: 2000,
    token: "bravo",
    verb: Verb::Get,
    target: "/compliance",
    body: "",
    success: NOTHING_PUBLISHED,
};

const GEOGRAPHIES: &DeskExchange = &DeskExchange {
    at: 1000,
    token: "alfa",
    verb: Verb::Get,
    target: "/geographies",
    body: "",
    success: r#"{"geographies":[{"geography_id":"00000000-0000-4000-8000-000000000101","geography_json":{"features":[{"geometry":{"coordinates":[[[[0,0],[10,0],[10,10],[0,10],[0,0]]]],"type":"MultiPolygon"},"properties":null,"type":"Feature"}],"type":"FeatureCollection"},"name":"square","published_date":1000}],"revision":1}"#,
};

const POLICY: &DeskExchange = &DeskExchange {
    at: 1000,
    token: "alfa",
    verb: Verb::Get,
    target: "/policies/00000000-0000-4000-8000-000000000201",
    body: "",
    success: r#"{"policy":{"name":"cap","policy_id":"00000000-0000-4000-8000-000000000201","published_date":1000,"rules":[{"geographies":["00000000-0000-4000-8000-000000000101"],"maximum":1,"name":"cap","rule_id":"00000000-0000-4000-8000-000000000301","rule_type":"count"}],"start_date":1000},"revision":1}"#,
};

/// A test of a room and the desks of two operators, none of which has learnt of a publication.
trait DeskTest {
    ghost use Rattle.std.specs.Prelude.{⊤};

    /// The condition under which it may be run.
    ghost may_play: { Type 0 } = { ⊤ };

    /// Runs the test, and returns whether it came to its end; it doesn't where memory ran out.
    fn run_test<K: OpeningName, R: TestRuntime>(
        &self,
        rt: &R,
        alloc: Global,
        room: &mut AuthorRoom<K>,
        alfa: &mut Desk<K>,
        bravo: &mut Desk<K>,
    ) -> Result<bool, AllocError>
        requires ready { may_play };
}

/// Runs a test on a room and desks that are furnished for the configuration; false where memory ran out.
fn furnish_and_run<S: DeskTest, R: TestRuntime>(
    rt: &R,
    alloc: Global,
    scene: &S,
) -> Result<bool, Fail>
    requires { S.may_play }
{
    let Ok(config) = Config::read(alloc, CONFIGURATION) else {
        return Ok(false);
    };
    let Ok(blank) = prepare(alloc) else {
        return Ok(false);
    };
    Ok(run_and_finish::<Brand, S, R>(rt, alloc, config, blank, scene)?)
}

/// The desks of two operators.
fn two<K: OpeningName>(rt: &impl Abort, mut desks: Vec<Desk<K>>) -> (Desk<K>, Desk<K>) {
    assert!(rt; desks.len() == 2);
    let bravo = desks.pop().expect(rt, "bravo's desk");
    let alfa = desks.pop().expect(rt, "alfa's desk");
    (alfa, bravo)
}

/// Runs a test, and finishes the room: a desk has no snapshot to show then.
fn run_and_finish<K: OpeningName, S: DeskTest, R: TestRuntime>(
    rt: &R,
    alloc: Global,
    config: Config,
    blank: Blank,
    scene: &S,
) -> Result<bool, AllocError>
    requires named { book_of blank ≡ K.book }
    requires ready { S.may_play }
{
    match furnish::<K, R>(rt, alloc, config, blank) {
        Ok((mut room, desks)) => {
            let (mut alfa, mut bravo) = two(rt, desks);
            let outcome = scene.run_test(rt, alloc, &mut room, &mut alfa, &mut bravo);
            drop(bravo);
            room.finish(rt);
            assert_finished(rt, &mut alfa);
            outcome
        }
        Err(fault) => {
            assert!(rt; fault == OpenFault::NoMemory);
            Ok(false)
        }
    }
}

/// Checks that the room of this desk is finished.
fn assert_finished<K: OpeningName>(rt: &impl Abort, desk: &mut Desk<K>) {
    let reply = desk_reply(rt, desk, NOTHING_FOR_ALFA);
    assert_refused(rt, &reply, 503, NO_SNAPSHOT);
}

fn moment(rt: &impl Abort, exchange: &DeskExchange) -> Moment {
    Moment::new(exchange.at).expect(rt, "a moment")
}

fn request(at: Moment, exchange: &DeskExchange) -> Request<'_> {
    Request {
        at,
        token: exchange.token.as_bytes(),
        verb: exchange.verb,
        target: exchange.target.as_bytes(),
        body: exchange.body.as_bytes(),
    }
}

fn desk_reply<K: OpeningName>(
    rt: &impl Abort,
    desk: &mut Desk<K>,
    exchange: &DeskExchange,
) -> SharedReply {
    let request = request(moment(rt, exchange), exchange);
    desk.answer(&request, &mut OpenGate, &Plain)
}

/// Whether the reply has this status and body.
fn is_reply(reply: &SharedReply, status: u16, body: &str) -> bool {
    reply.status() == status && reply.body() == body.as_bytes()
}

/// Checks that this is the exchange's reply.
fn assert_success(rt: &impl Abort, reply: &SharedReply, exchange: &DeskExchange) {
    let is_success = is_reply(reply, 200, exchange.success);
    assert!(rt; is_success, "no {} at {}", exchange.success, exchange.at);
}

/// Checks that this reply is a refusal with this status and body.
fn assert_refused(rt: &impl Abort, reply: &SharedReply, status: u16, body: &str) {
    assert!(rt; is_reply(reply, status, body), "no {body}");
}

/// Checks that the desk gives the exchange's reply.
fn assert_answers<K: OpeningName>(rt: &impl Abort, desk: &mut Desk<K>, exchange: &DeskExchange) {
    let reply = desk_reply(rt, desk, exchange);
    assert_success(rt, &reply, exchange);
}

/// Checks that the desk gives the reply of each exchange.
fn assert_answers_each<K: OpeningName>(
    rt: &impl Abort,
    desk: &mut Desk<K>,
    exchanges: &[&DeskExchange],
) {
    for exchange in exchanges {
        assert_answers(rt, desk, exchange);
    }
}

/// The requests of two exchanges.
fn two_requests<'a>(rt: &impl Abort, exchanges: &'a [&'a DeskExchange; 2]) -> [Request<'a>; 2] {
    let [first, second] = exchanges;
    [
        request(moment(rt, first), first),
        request(moment(rt, second), second),
    ]
}

/// Checks that these are the exchanges' replies.
fn assert_successes(rt: &impl Abort, replies: &[SharedReply], exchanges: &[&DeskExchange]) {
    assert!(rt; replies.len() == exchanges.len());
    for (reply, exchange) in replies.iter().zip(exchanges) {
        assert_success(rt, reply, exchange);
    }
}

/// The reply of the author's room to an exchange's request, and its note, if any.
fn room_turn<K: OpeningName, R: TestRuntime>(
    rt: &R,
    room: &mut AuthorRoom<K>,
    exchange: &DeskExchange,
) -> (SharedReply, Option<Note<K>>) {
    room.answer(rt, &request(moment(rt, exchange), exchange))
}

/// Checks that the room gives the exchange's reply, and returns its note, if any.
fn room_answers<K: OpeningName, R: TestRuntime>(
    rt: &R,
    room: &mut AuthorRoom<K>,
    exchange: &DeskExchange,
) -> Option<Note<K>> {
    let (reply, note) = room_turn(rt, room, exchange);
    assert_success(rt, &reply, exchange);
    note
}

/// Checks that the room gave a refusal with this status and body, and no note.
fn assert_unnoted<K: OpeningName>(
    rt: &impl Abort,
    given: &(SharedReply, Option<Note<K>>),
    status: u16,
    body: &str,
) {
    assert_refused(rt, &given.0, status, body);
    assert!(rt; given.1.is_none());
}

/// Puts both documents as drafts, which gives no note.
fn draft<K: OpeningName, R: TestRuntime>(rt: &R, room: &mut AuthorRoom<K>) {
    for exchange in DRAFTS {
        assert!(rt; room_answers(rt, room, exchange).is_none());
    }
}

/// Puts both documents and publishes them.
pub(crate) fn set_up<K: OpeningName, R: TestRuntime>(rt: &R, room: &mut AuthorRoom<K>) -> Note<K> {
    draft(rt, room);
    room_answers(rt, room, PUBLISH).expect(rt, "a note")
}

/// Puts both documents and publishes them, and has a desk learn of it.
fn set_up_for<K: OpeningName, R: TestRuntime>(
    rt: &R,
    room: &mut AuthorRoom<K>,
    desk: &mut Desk<K>,
) {
    desk.learn(&set_up(rt, room));
}
