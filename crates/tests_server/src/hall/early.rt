//! Requests that are refused before a desk or the author's room is reached.
use super::*;
use mds_request::{Actor, MOST_BODY};
use std::alloc::AllocError;

const TOO_LARGE: &ExpectedAnswer = &ExpectedAnswer {
    status: 413,
    body: r#"{"error":"too_large"}"#,
};

const BAD_BODY: &ExpectedAnswer = &ExpectedAnswer {
    status: 400,
    body: r#"{"error":"bad_body"}"#,
};

const CLOCK: &ExpectedAnswer = &ExpectedAnswer {
    status: 503,
    body: r#"{"error":"clock"}"#,
};

const NO_MEMORY: &ExpectedAnswer = &ExpectedAnswer {
    status: 503,
    body: r#"{"error":"no_memory"}"#,
};

const NOWHERE: &str = "/nowhere";

const NOBODY: &str = "Bearer nobody";

/// Whether alfa's question with this body has this answer.
fn answers_alfa<K: HallName, R: SharedHallRuntime>(
    rt: &R,
    alloc: Global,
    hall: &Hall<K>,
    arrived: Arrived,
    at: Option<Moment>,
    answer: &ExpectedAnswer,
) -> bool {
    let parts = parts(alloc, Method::GET, COMPLIANCE, Some(ALFA));
    gives(rt, hall, parts, arrived, at, answer)
}

pub(super) fn each_arrival<K: HallName, R: SharedHallRuntime>(
    rt: &R,
    alloc: Global,
    hall: &Hall<K>,
) {
    assert!(rt;
        answers_alfa(
            rt,
            alloc,
            hall,
            Arrived::Broken,
            Moment::new(2000),
            BAD_BODY
        )
    );
    assert!(rt; answers_alfa(rt, alloc, hall, Arrived::Broken, None, CLOCK));
    assert!(rt;
        answers_alfa(
            rt,
            alloc,
            hall,
            Arrived::TooLong,
            Moment::new(2000),
            TOO_LARGE
        )
    );
    assert!(rt;
        answers_alfa(
            rt,
            alloc,
            hall,
            Arrived::NoMemory,
            Moment::new(2000),
            NO_MEMORY
        )
    );
}

#[test]
fn each_arrival_has_its_answer(rt: HostRuntime) -> Result<(), Fail> {
    run_hall_test(&rt, HallTest::EachArrival)
}

/// A body of so many spaces.
fn spaces(alloc: Global, length: usize) -> Result<Arrived, AllocError> {
    let spaces = vec![in alloc; b' '; length]?;
    Ok(Arrived::Whole(Bytes::from_vec(spaces)?))
}

/// Whether an anonymous request with a body of so many spaces has this answer.
fn answers_nobody<K: HallName, R: SharedHallRuntime>(
    rt: &R,
    alloc: Global,
    hall: &Hall<K>,
    length: usize,
    answer: &ExpectedAnswer,
) -> bool {
    let Ok(spaces) = spaces(alloc, length) else {
        return false;
    };
    let parts = parts(alloc, Method::GET, NOWHERE, Some(NOBODY));
    gives(rt, hall, parts, spaces, Moment::new(2000), answer)
}

pub(super) fn large_and_unknown<K: HallName, R: SharedHallRuntime>(
    rt: &R,
    alloc: Global,
    hall: &Hall<K>,
) {
    assert!(rt; answers_nobody(rt, alloc, hall, MOST_BODY, TOKEN));
    assert!(rt; answers_nobody(rt, alloc, hall, MOST_BODY + 1, TOO_LARGE));
}

#[test]
fn a_large_body_comes_before_the_token(rt: HostRuntime) -> Result<(), Fail> {
    run_hall_test(&rt, HallTest::LargeAndUnknown)
}

const NO_ROUTE: &ExpectedAnswer = &ExpectedAnswer {
    status: 404,
    body: r#"{"error":"no_route"}"#,
};

/// Whether a request for a path of no call, with these credentials, is refused with `no_route`.
fn finds_nowhere<K: HallName, R: SharedHallRuntime>(
    rt: &R,
    alloc: Global,
    hall: &Hall<K>,
    credentials: &'static str,
) -> bool {
    let parts = parts(alloc, Method::GET, NOWHERE, Some(credentials));
    gives(rt, hall, parts, whole(""), Moment::new(2000), NO_ROUTE)
}

/// Checks refusals while the locks of alfa's desk and of the author's room are held.
pub(super) fn refusals_under_locks<K: HallName, R: SharedHallRuntime>(
    rt: &R,
    alloc: Global,
    hall: &Hall<K>,
) {
    let head = parts(alloc, Method::GET, NOWHERE, Some(ALFA)).expect(rt, "a head");
    let Actor::Operator(place) = hall.actor_at(&head) else {
        panic!(rt; "alfa is an operator");
    };
    let desk = hall.desk_at(rt, place).expect(rt, "alfa's desk");
    let room = hall.room_checked(rt).expect(rt, "the author's room");
    assert!(rt; finds_nowhere(rt, alloc, hall, ALFA));
    assert!(rt; finds_nowhere(rt, alloc, hall, CITY));
    drop(room);
    drop(desk);
}

#[test]
fn refuses_without_a_lock(rt: HostRuntime) -> Result<(), Fail> {
    run_hall_test(&rt, HallTest::RefusedBesideLocks)
}
