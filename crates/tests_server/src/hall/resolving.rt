//! What heads are resolved to: the client and the call.
use super::*;
use mds_request::{Actor, Verb};
use mds_verdict::Plain;
use server_admission::{Cost, SMALL_BODY};
use server_state::{HallContext, ResolvedCall};

/// A head, its client, what its answer takes of the client's queue where there is no body, and the answer's status
/// then.
struct HeadCase {
    verb: Verb,
    target: &'static str,
    credentials: Option<&'static str>,
    actor: Actor,
    cost: Cost,
    status: u16,
}

const POLICIES: &str = "/policies";

const EVENTS: &str = "/fleet/events";

/// Calls of the author and of both operators.
const CALLS: &[HeadCase] = &[
    HeadCase {
        verb: Verb::Get,
        target: POLICIES,
        credentials: Some(CITY),
        actor: Actor::Author,
        cost: Cost::Shared,
        status: 200,
    },
    HeadCase {
        verb: Verb::Get,
        target: "/drafts/policies/00000000-0000-4000-8000-000000000201",
        credentials: Some(CITY),
        actor: Actor::Author,
        cost: Cost::Exclusive,
        status: 404,
    },
    HeadCase {
        verb: Verb::Get,
        target: POLICIES,
        credentials: Some(ALFA),
        actor: Actor::Operator(0),
        cost: Cost::Shared,
        status: 200,
    },
    HeadCase {
        verb: Verb::Get,
        target: "/fleet/vehicles",
        credentials: Some(BRAVO),
        actor: Actor::Operator(1),
        cost: Cost::Exclusive,
        status: 200,
    },
    HeadCase {
        verb: Verb::Post,
        target: EVENTS,
        credentials: Some(BRAVO),
        actor: Actor::Operator(1),
        cost: Cost::Shared,
        status: 400,
    },
];

/// Heads that the table of calls refuses: twice for the access token, for the path, for the method, twice for the
/// role, and for the identifier.
const REFUSALS: &[HeadCase] = &[
    HeadCase {
        verb: Verb::Get,
        target: POLICIES,
        credentials: None,
        actor: Actor::Nobody,
        cost: Cost::Free,
        status: 401,
    },
    HeadCase {
        verb: Verb::Put,
        target: "/nowhere",
        credentials: Some("Bearer nobody"),
        actor: Actor::Nobody,
        cost: Cost::Free,
        status: 401,
    },
    HeadCase {
        verb: Verb::Get,
        target: "/nowhere",
        credentials: Some(BRAVO),
        actor: Actor::Operator(1),
        cost: Cost::Free,
        status: 404,
    },
    HeadCase {
        verb: Verb::Post,
        target: POLICIES,
        credentials: Some(CITY),
        actor: Actor::Author,
        cost: Cost::Free,
        status: 405,
    },
    HeadCase {
        verb: Verb::Get,
        target: COMPLIANCE,
        credentials: Some(CITY),
        actor: Actor::Author,
        cost: Cost::Free,
        status: 403,
    },
    HeadCase {
        verb: Verb::Post,
        target: "/publish",
        credentials: Some(ALFA),
        actor: Actor::Operator(0),
        cost: Cost::Free,
        status: 403,
    },
    HeadCase {
        verb: Verb::Get,
        target: "/policies/first",
        credentials: Some(ALFA),
        actor: Actor::Operator(0),
        cost: Cost::Free,
        status: 400,
    },
];

/// A method that is read as this verb.
fn method(verb: Verb) -> Method {
    match verb {
        Verb::Get => Method::GET,
        Verb::Put => Method::PUT,
        Verb::Post => Method::POST,
        Verb::Delete => Method::DELETE,
        Verb::Other => Method::PATCH,
    }
}

/// What a head is resolved to.
fn resolve_case<K: HallName>(
    alloc: Global,
    hall: &Hall<K>,
    head: &HeadCase,
) -> Option<ResolvedCall<K>> {
    let parts = parts(alloc, method(head.verb), head.target, head.credentials)?;
    Some(hall.resolve(parts))
}

/// The status of the answer to a head without a body, at 2000.
fn status<K: HallName, R: HallRuntime>(
    rt: &R,
    alloc: Global,
    hall: &Hall<K>,
    head: &ResolvedCall<K>,
) -> Option<u16> {
    let context = HallContext {
        rt,
        alloc,
        hall,
        evaluator: &Plain,
    };
    match head.respond(&context, &whole(""), Moment::new(2000)) {
        Ok(response) => Some(response.status().as_u16()),
        Err(_) => None,
    }
}

/// Checks the client of each head, what its answer takes of the queue, and the answer's status.
pub(super) fn each_head<K: HallName, R: HallRuntime>(rt: &R, alloc: Global, hall: &Hall<K>) {
    for heads in [CALLS, REFUSALS] {
        for head in heads {
            let call = resolve_case(alloc, hall, head).expect(rt, "a head");
            assert!(rt; call.actor() == head.actor, "{}", head.target);
            assert!(rt; call.cost(0) == head.cost, "{}", head.target);
            let status = status(rt, alloc, hall, &call);
            assert!(rt; status == Some(head.status), "{}", head.target);
        }
    }
}

/// Checks that a report of more than 16 KiB takes a turn of its own.
pub(super) fn large_report<K: HallName, R: HallRuntime>(rt: &R, alloc: Global, hall: &Hall<K>) {
    let parts = parts(alloc, Method::POST, EVENTS, Some(ALFA)).expect(rt, "a head");
    let call = hall.resolve(parts);
    assert!(rt; call.cost(SMALL_BODY) == Cost::Shared);
    assert!(rt; call.cost(SMALL_BODY + 1) == Cost::Exclusive);
    assert!(rt; call.parts().uri.path() == EVENTS);
}

#[test]
fn resolves_each_head(rt: HostRuntime) -> Result<(), Fail> {
    run_hall_test(&rt, HallTest::EachHead)
}

#[test]
fn counts_a_large_report_as_long(rt: HostRuntime) -> Result<(), Fail> {
    run_hall_test(&rt, HallTest::LargeReport)
}
