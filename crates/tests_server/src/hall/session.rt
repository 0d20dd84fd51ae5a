//! Sessions at a hall: publications, operators' questions, and credentials.
ghost use Rattle.std.specs.Prelude.{◌≡◌};
ghost use Rattle.mds_snapshot.specs.Opening.{book_of};

use super::*;
use crate::counting::CountingEvaluator;
use crate::desk;
use mds_desk::{Desk, OpenGate, furnish};
use mds_snapshot::{Note, OpeningName};
use server_state::desk_turn;

/// A vehicle in the square.
const VEHICLE: &str =
    r#"{"device_id":"00000000-0000-4000-8000-000000000401","vehicle_type":"scooter","vehicle_state":"available","timestamp":1500,"location":{"lat":5,"lng":5}}"#;

/// The answer at 2000 where one vehicle is counted.
const ONE_COUNTED: &ExpectedAnswer = &ExpectedAnswer {
    status: 200,
    body: r#"{"at":2000,"policies":[{"policy_id":"00000000-0000-4000-8000-000000000201","rules":[{"measure":1,"rule_id":"00000000-0000-4000-8000-000000000301","status":"ok"}]}],"revision":1,"version":2}"#,
};

const REPORT: &HallExchange = &HallExchange {
    at: 2000,
    credentials: Some(ALFA),
    target: "/fleet/events",
    body: VEHICLE,
    answer: NEW_RESULT,
};

/// A question by alfa, by bravo, and by an anonymous client.
const QUESTIONS: &[&HallExchange] = &[
    &HallExchange {
        at: 2000,
        credentials: Some(ALFA),
        target: COMPLIANCE,
        body: "",
        answer: ONE_COUNTED,
    },
    QUESTION_OF_BRAVO,
    &HallExchange {
        at: 2000,
        credentials: None,
        target: COMPLIANCE,
        body: "",
        answer: TOKEN,
    },
];

/// Alfa has a vehicle in the square, and bravo has none.
pub(super) fn own_questions<K: HallName, R: SharedHallRuntime>(
    rt: &R,
    alloc: Global,
    hall: &Hall<K>,
) {
    set_up(rt, alloc, hall);
    assert_answers(rt, alloc, hall, Method::POST, REPORT);
    for question in QUESTIONS {
        assert_answers(rt, alloc, hall, Method::GET, question);
    }
}

#[test]
fn counts_the_vehicles_of_the_client(rt: HostRuntime) -> Result<(), Fail> {
    run_hall_test(&rt, HallTest::OwnQuestions)
}

/// The policy is withdrawn at 3000, a further publication.
const WITHDRAWAL: &HallExchange = &HallExchange {
    at: 3000,
    credentials: Some(CITY),
    target: "/publish",
    body: r#"{"withdraw":["00000000-0000-4000-8000-000000000201"]}"#,
    answer: &ExpectedAnswer {
        status: 200,
        body: r#"{"published_date":3000,"revision":2}"#,
    },
};

/// Checks that there is no note before the first publication and one after it, that a further publication's note
/// covers more, and that a further call gives the same note.
pub(super) fn latest_note<K: HallName, R: SharedHallRuntime>(
    rt: &R,
    alloc: Global,
    hall: &Hall<K>,
) {
    assert!(rt; hall.note(rt).is_none());
    set_up(rt, alloc, hall);
    let first = hall.note(rt).expect(rt, "a note");
    assert_answers(rt, alloc, hall, Method::POST, WITHDRAWAL);
    let second = hall.note(rt).expect(rt, "a later note");
    assert!(rt; second.covers(&first) && !first.covers(&second));
    let again = hall.note(rt).expect(rt, "the same note");
    assert!(rt; again.is_of_list(&second));
}

/// A hall keeps the note of its latest publication.
#[test]
fn keeps_the_latest_note(rt: HostRuntime) -> Result<(), Fail> {
    run_hall_test(&rt, HallTest::LatestNote)
}

/// Checks that bravo's question is evaluated by the given evaluator.
pub(super) fn given_evaluator<K: HallName, R: SharedHallRuntime>(
    rt: &R,
    alloc: Global,
    hall: &Hall<K>,
) {
    set_up(rt, alloc, hall);
    let counting = CountingEvaluator::new();
    let asked = parts(alloc, Method::GET, COMPLIANCE, Some(BRAVO)).expect(rt, "a head");
    let at = Moment::new(2000);
    let response = respond(rt, alloc, &asked, whole(""), at, hall, &counting);
    assert!(rt; is_answer(rt, response, NONE_COUNTED));
    assert!(rt; counting.policies() == 1);
}

/// A hall evaluates by the evaluator that it is given, and by no other.
#[test]
fn evaluates_by_the_given_evaluator(rt: HostRuntime) -> Result<(), Fail> {
    run_hall_test(&rt, HallTest::Judged)
}

const VEHICLES: &str = "/fleet/vehicles";

/// The target of alfa's vehicles, with a query. Alfa has none.
const ALL_VEHICLES: &str = "/fleet/vehicles?all";

const NO_VEHICLES: &ExpectedAnswer = &ExpectedAnswer {
    status: 200,
    body: r#"{"vehicles":[]}"#,
};

/// Credentials, and the answers to them: they are alfa's, or not known.
const CREDENTIALS: &[(&str, &ExpectedAnswer)] = &[
    ("bearer alfa", NO_VEHICLES),
    ("BEARER alfa", NO_VEHICLES),
    ("Bearer  alfa", TOKEN),
    ("Bearer\talfa", TOKEN),
    ("Beareralfa", TOKEN),
    ("Bearer alfa bravo", TOKEN),
    ("Basic alfa", TOKEN),
    ("Bearer", TOKEN),
];

/// Whether a request for vehicles, with this head, has this answer.
fn lists<K: HallName, R: SharedHallRuntime>(
    rt: &R,
    alloc: Global,
    hall: &Hall<K>,
    parts: Option<Parts>,
    answer: &ExpectedAnswer,
) -> bool {
    let at = Moment::new(2000);
    gives(rt, hall, parts, whole(""), at, answer)
}

/// A head with alfa's credentials in each of two fields.
fn head_with_two_credentials(alloc: Global) -> Option<Parts> {
    let mut parts = parts(alloc, Method::GET, VEHICLES, Some(ALFA))?;
    let again = HeaderValue::from_static(ALFA);
    match parts.headers.append(AUTHORIZATION, again) {
        Ok(_) => Some(parts),
        Err(_) => None,
    }
}

/// Checks the answer to each of `CREDENTIALS`, and that two fields with credentials are nobody's.
pub(super) fn each_form<K: HallName, R: SharedHallRuntime>(rt: &R, alloc: Global, hall: &Hall<K>) {
    for (credentials, answer) in CREDENTIALS {
        let asked = parts(alloc, Method::GET, ALL_VEHICLES, Some(credentials));
        let is_answered = lists(rt, alloc, hall, asked, answer);
        assert!(rt; is_answered, "{credentials}");
    }
    assert!(rt; lists(rt, alloc, hall, head_with_two_credentials(alloc), TOKEN));
}

#[test]
fn reads_bearer_tokens_alone(rt: HostRuntime) -> Result<(), Fail> {
    run_hall_test(&rt, HallTest::EachForm)
}

/// `desk_turn` answers at a desk without a hall.
#[test]
fn answers_at_a_desk(rt: HostRuntime) -> Result<(), Fail> {
    let alloc = rt.alloc();
    let config = Config::read(alloc, CONFIGURATION)?;
    at_desk::<Brand, _>(&rt, alloc, config, prepare(alloc)?)
}

fn at_desk<K: OpeningName, R: SharedHallRuntime>(
    rt: &R,
    alloc: Global,
    config: Config,
    blank: Blank,
) -> Result<(), Fail>
    requires { book_of blank ≡ K.book }
{
    let (mut room, mut desks) = furnish::<K, R>(rt, alloc, config, blank)?;
    let outcome = match desks.first_mut() {
        Some(desk) => Ok(two_questions(rt, alloc, desk, &desk::set_up(rt, &mut room))),
        None => Err(Fail::from("a desk")),
    };
    drop(desks);
    room.finish(rt);
    outcome
}

/// Whether a desk that is given a note answers so to a question at 2000.
fn desk_answers<K: OpeningName, R: SharedHallRuntime>(
    rt: &R,
    alloc: Global,
    credentials: Option<&str>,
    desk: &mut Desk<K>,
    note: &Note<K>,
    answer: &ExpectedAnswer,
) -> bool {
    let Some(at) = Moment::new(2000) else {
        return false;
    };
    let Some(parts) = parts(alloc, Method::GET, COMPLIANCE, credentials) else {
        return false;
    };
    let judge = &Chunked(*rt);
    let response = desk_turn(
        alloc,
        &parts,
        b"",
        at,
        desk,
        Some(note),
        &mut OpenGate,
        judge,
    );
    is_answer(rt, response, answer)
}

/// Checks the answers to a question by alfa and to one by an anonymous client.
fn two_questions<K: OpeningName, R: SharedHallRuntime>(
    rt: &R,
    alloc: Global,
    desk: &mut Desk<K>,
    note: &Note<K>,
) {
    assert!(rt; desk_answers(rt, alloc, Some(ALFA), desk, note, NONE_COUNTED));
    assert!(rt; desk_answers(rt, alloc, None, desk, note, TOKEN));
}
