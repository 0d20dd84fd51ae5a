//! Halls with two operators.
ghost use Rattle.std.specs.Prelude.{◌≡◌};
ghost use Rattle.mds_request.specs.Configuration.{configuration};
ghost use Rattle.mds_snapshot.specs.Opening.{book_of};
ghost use Rattle.server_state.specs.TurnLists.{books_of, room_book_of};

use crate::city::{BOTH, CAP, CONFIGURATION, NEW, SQUARE};
use crate::runtime::OverlapRuntime;
use bytes::Bytes;
use futures::executor::block_on;
use http::header::{AUTHORIZATION, CONTENT_TYPE};
use http::request::Parts;
use http::{HeaderMap, HeaderValue, Method, Response, Uri, Version};
use http_body_util::{BodyExt, Full};
use mds_parallel::Chunked;
use mds_request::Config;
use mds_snapshot::{Blank, prepare};
use mds_text::Moment;
use server_responses::HttpResult;
use server_state::{Arrived, Hall, HallName, SharedHallName, TurnLists, respond};
use std::alloc::{AllocGlobal, Global};
use std::marker::Brand;
use std::process::Abort;
use std::random::RandomSource;
use std::sync::Arc;
use std::test::Fail;

mod early;
mod overlapping;
mod public;
mod resolving;
mod session;

/// The status of an answer, and its body, which is JSON.
struct ExpectedAnswer {
    status: u16,
    body: &'static str,
}

const NEW_RESULT: &ExpectedAnswer = &ExpectedAnswer {
    status: 200,
    body: NEW,
};

const PUBLISHED: &ExpectedAnswer = &ExpectedAnswer {
    status: 200,
    body: r#"{"published_date":1000,"revision":1}"#,
};

/// The answer at 2000 where no vehicle is counted.
const NONE_COUNTED: &ExpectedAnswer = &ExpectedAnswer {
    status: 200,
    body: r#"{"at":2000,"policies":[{"policy_id":"00000000-0000-4000-8000-000000000201","rules":[{"measure":0,"rule_id":"00000000-0000-4000-8000-000000000301","status":"ok"}]}],"revision":1,"version":2}"#,
};

const TOKEN: &ExpectedAnswer = &ExpectedAnswer {
    status: 401,
    body: r#"{"error":"token"}"#,
};

const COMPLIANCE: &str = "/compliance";

const ALFA: &str = "Bearer alfa";

const BRAVO: &str = "Bearer bravo";

const CITY: &str = "Bearer city";

const JSON: &[u8] = b"application/json";

/// A request at a moment, and its answer.
struct HallExchange {
    at: i64,
    credentials: Option<&'static str>,
    target: &'static str,
    body: &'static str,
    answer: &'static ExpectedAnswer,
}

/// The drafts that are put before they are published.
const DRAFTS: &[HallExchange] = &[
    HallExchange {
        at: 1000,
        credentials: Some(CITY),
        target: "/drafts/geographies/00000000-0000-4000-8000-000000000101",
        body: SQUARE,
        answer: NEW_RESULT,
    },
    HallExchange {
        at: 1000,
        credentials: Some(CITY),
        target: "/drafts/policies/00000000-0000-4000-8000-000000000201",
        body: CAP,
        answer: NEW_RESULT,
    },
];

const PUBLISH: &HallExchange = &HallExchange {
    at: 1000,
    credentials: Some(CITY),
    target: "/publish",
    body: BOTH,
    answer: PUBLISHED,
};

/// A question by bravo, who has no vehicle.
const QUESTION_OF_BRAVO: &HallExchange = &HallExchange {
    at: 2000,
    credentials: Some(BRAVO),
    target: COMPLIANCE,
    body: "",
    answer: NONE_COUNTED,
};

/// What tests of halls have of the machine: random bytes and memory, by a handle that can be copied.
trait HallHost: RandomSource + AllocGlobal + Copy {}

impl HallHost for HostRuntime {}

/// What tests need of the runtime.
trait HallRuntime: HallHost + OverlapRuntime {}

impl<R: HallHost + OverlapRuntime> HallRuntime for R {}

/// The runtime of tests whose threads share it.
trait SharedHallRuntime: HallRuntime + Sync {}

impl<R: HallRuntime + Sync> SharedHallRuntime for R {}

/// The test that is run on a hall.
#[derive(Clone, Copy)]
enum HallTest {
    OwnQuestions,
    EachForm,
    EachArrival,
    LargeAndUnknown,
    BesideAHeldQuestion,
    LatestNote,
    Judged,
    RefusedBesideLocks,
    EachHead,
    LargeReport,
    PublicDocuments,
}

fn run_hall_test<R: SharedHallRuntime>(rt: &R, visit: HallTest) -> Result<(), Fail> {
    let alloc = rt.alloc();
    let config = Config::read(alloc, CONFIGURATION)?;
    let blank = prepare(alloc)?;
    let lists = TurnLists::new(alloc, config.operators().len())?;
    open_and_run::<Brand, R>(rt, alloc, config, blank, lists, visit)
}

fn open_and_run<K: SharedHallName, R: SharedHallRuntime>(
    rt: &R,
    alloc: Global,
    config: Config,
    blank: Blank,
    lists: TurnLists,
    visit: HallTest,
) -> Result<(), Fail>
    requires book { book_of blank ≡ K.book }
    requires configured { configuration config ≡ K.configuration }
    requires turns { books_of lists ≡ K.turns }
    requires room_turns { room_book_of lists ≡ K.room_turns }
{
    let hall = Hall::<K>::new(rt, alloc, config, blank, lists)?;
    let config = hall.configuration().expect(rt, "a share");
    match visit {
        HallTest::OwnQuestions => session::own_questions(rt, alloc, &hall),
        HallTest::EachForm => session::each_form(rt, alloc, &hall),
        HallTest::EachArrival => early::each_arrival(rt, alloc, &hall),
        HallTest::LargeAndUnknown => early::large_and_unknown(rt, alloc, &hall),
        HallTest::BesideAHeldQuestion => overlapping::during_a_held_question(rt, alloc, &hall),
        HallTest::LatestNote => session::latest_note(rt, alloc, &hall),
        HallTest::Judged => session::given_evaluator(rt, alloc, &hall),
        HallTest::RefusedBesideLocks => early::refusals_under_locks(rt, alloc, &hall),
        HallTest::EachHead => resolving::each_head(rt, alloc, &hall),
        HallTest::LargeReport => resolving::large_report(rt, alloc, &hall),
        HallTest::PublicDocuments => public::made_once(rt, alloc, &hall),
    }
    hall.finish(rt);
    // A room that isn't finished keeps its `Arc`.
    assert!(rt; Arc::strong_count(&config) == 1);
    Ok(())
}

/// Puts credentials into a head's fields, and returns whether there was memory for that.
fn is_signed(alloc: Global, fields: &mut HeaderMap, credentials: &str) -> bool {
    match HeaderValue::from_str(alloc, credentials) {
        Ok(value) => fields.insert(AUTHORIZATION, value).is_ok(),
        Err(_) => false,
    }
}

/// The fields of a head with these credentials, if any.
fn fields(alloc: Global, credentials: Option<&str>) -> Option<HeaderMap> {
    let mut fields = HeaderMap::new(alloc);
    let is_whole = match credentials {
        Some(credentials) => is_signed(alloc, &mut fields, credentials),
        None => true,
    };
    if is_whole { Some(fields) } else { None }
}

/// A head with these credentials, if any.
fn parts(
    alloc: Global,
    method: Method,
    target: &'static str,
    credentials: Option<&str>,
) -> Option<Parts> {
    let uri = Uri::from_static(target).ok()?;
    let headers = fields(alloc, credentials)?;
    Some(Parts {
        method,
        uri,
        version: Version::HTTP_11,
        headers,
    })
}

fn whole(body: &'static str) -> Arrived {
    Arrived::Whole(Bytes::from_static(body.as_bytes()))
}

/// The body of a response.
fn body_of<R: HallRuntime>(rt: &R, response: Response<Full<Bytes>>) -> Option<Bytes> {
    let mut body = response.into_body();
    match block_on(rt, body.frame()) {
        Ok(Some(Ok(frame))) => frame.into_data().ok(),
        _ => None,
    }
}

/// Whether the response has this status and the content type of JSON.
fn has_head(response: &Response<Full<Bytes>>, status: u16) -> bool {
    match response.headers().get(CONTENT_TYPE) {
        Some(kind) => kind.as_bytes() == JSON && response.status().as_u16() == status,
        None => false,
    }
}

/// Whether the response is this answer.
fn is_answer<R: HallRuntime>(rt: &R, response: HttpResult, answer: &ExpectedAnswer) -> bool {
    let Ok(response) = response else {
        return false;
    };
    let is_headed = has_head(&response, answer.status);
    match body_of(rt, response) {
        Some(said) => is_headed && said.as_slice() == answer.body.as_bytes(),
        None => false,
    }
}

/// Whether the hall gives this answer to a head, if there is one, with this body. Vehicles are evaluated by several
/// threads.
fn gives<K: HallName, R: SharedHallRuntime>(
    rt: &R,
    hall: &Hall<K>,
    parts: Option<Parts>,
    arrived: Arrived,
    at: Option<Moment>,
    answer: &ExpectedAnswer,
) -> bool {
    let Some(parts) = parts else {
        return false;
    };
    let response = respond(rt, rt.alloc(), &parts, arrived, at, hall, &Chunked(*rt));
    is_answer(rt, response, answer)
}

/// Whether the hall gives the exchange's answer to its request with this method.
fn answers<K: HallName, R: SharedHallRuntime>(
    rt: &R,
    alloc: Global,
    hall: &Hall<K>,
    method: Method,
    exchange: &HallExchange,
) -> bool {
    let parts = parts(alloc, method, exchange.target, exchange.credentials);
    let body = whole(exchange.body);
    let at = Moment::new(exchange.at);
    gives(rt, hall, parts, body, at, exchange.answer)
}

/// Checks that the hall gives the exchange's answer to its request with this method.
fn assert_answers<K: HallName, R: SharedHallRuntime>(
    rt: &R,
    alloc: Global,
    hall: &Hall<K>,
    method: Method,
    exchange: &HallExchange,
) {
    let is_answered = answers(rt, alloc, hall, method, exchange);
    assert!(rt; is_answered, "no {}", exchange.answer.body);
}

/// Puts the policy and its square as drafts and publishes them, at 1000.
fn set_up<K: HallName, R: SharedHallRuntime>(rt: &R, alloc: Global, hall: &Hall<K>) {
    for exchange in DRAFTS {
        assert_answers(rt, alloc, hall, Method::PUT, exchange);
    }
    assert_answers(rt, alloc, hall, Method::POST, PUBLISH);
}
