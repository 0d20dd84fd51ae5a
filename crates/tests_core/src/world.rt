//! A whole history of requests to a `World`, with one allocation refused, whichever it is.
use crate::square::instant;
use mds_request::{Config, Reply, Request, Verb};
use mds_verdict::Plain;
use mds_world::World;
use std::alloc::Global;
use std::process::Abort;
use tests_fixtures::{CONFIGURATION, FixtureExchange, HISTORY};

const NO_MEMORY: &[u8] = br#"{"error":"no_memory"}"#;

/// A world of the configuration; `None` where memory ran out.
fn machine(alloc: Global) -> Option<World<Plain>> {
    let config = Config::read(alloc, CONFIGURATION).ok()?;
    World::new(alloc, config, Plain).ok()
}

/// A world of the configuration, made a second time where memory ran out.
fn machine_at_last(rt: &impl Abort, alloc: Global) -> World<Plain> {
    match machine(alloc) {
        Some(world) => world,
        None => machine(alloc).expect(rt, "a machine"),
    }
}

fn request<'a>(rt: &impl Abort, exchange: &'a FixtureExchange) -> Request<'a> {
    Request {
        at: instant(rt, exchange.at),
        token: exchange.token.as_bytes(),
        verb: Verb::read(exchange.method.as_bytes()),
        target: exchange.target.as_bytes(),
        body: exchange.body.as_bytes(),
    }
}

/// Whether the reply is 503. Checks that it is `no_memory` then.
fn is_out_of_memory(rt: &impl Abort, reply: &Reply) -> bool {
    assert!(rt; reply.status() != 503 || reply.body() == NO_MEMORY);
    reply.status() == 503
}

/// Checks that this is the exchange's reply.
fn assert_reply(rt: &impl Abort, reply: &Reply, exchange: &FixtureExchange) {
    assert!(rt;
        reply.status() == exchange.status && reply.body() == exchange.reply.as_bytes(),
        "{} at {}",
        exchange.target,
        exchange.at
    );
}

/// With one allocation refused, whichever it is, one answer is 503 `no_memory`; the same request is then answered as
/// if nothing had happened, and so are all others.
#[test]
fn answers_or_runs_out_of_memory(rt: HostRuntime) {
    let mut world = machine_at_last(&rt, rt.alloc());
    for exchange in HISTORY {
        let mut reply = world.answer(&request(&rt, exchange));
        if is_out_of_memory(&rt, &reply) {
            reply = world.answer(&request(&rt, exchange));
        }
        assert_reply(&rt, &reply, exchange);
    }
}

/// Room for the requests of the history, allocated a second time where memory ran out.
fn request_buffer<'a>(rt: &impl Abort, alloc: Global) -> Vec<Request<'a>> {
    match Vec::with_capacity(alloc, HISTORY.len()) {
        Ok(room) => room,
        Err(_) => Vec::with_capacity(alloc, HISTORY.len()).expect(rt, "memory"),
    }
}

/// Adds the requests of the history, for which there is room.
fn add_requests<'a>(rt: &impl Abort, requests: &mut Vec<Request<'a>>) {
    for exchange in HISTORY {
        match requests.push(request(rt, exchange)) {
            Ok(()) => {}
            Err(_) => panic!(rt; "no room for all requests"),
        }
    }
}

/// A world's replies to the requests; where the call runs out of memory, those of a second call.
fn replies_at_last(
    rt: &impl Abort,
    world: &mut World<Plain>,
    requests: &[Request<'_>],
) -> Vec<Reply> {
    match world.run(requests) {
        Ok(replies) => replies,
        Err(_) => world.run(requests).expect(rt, "memory"),
    }
}

/// All requests in one call. With one allocation refused, whichever it is, the call runs out of memory and a second
/// one answers them all; or one answer is 503 `no_memory`, and those before it are as they should be.
#[test]
fn a_run_ends_or_runs_out_of_memory(rt: HostRuntime) {
    let mut world = machine_at_last(&rt, rt.alloc());
    let mut requests = request_buffer(&rt, rt.alloc());
    add_requests(&rt, &mut requests);
    let replies = replies_at_last(&rt, &mut world, &requests);
    assert!(rt; replies.len() == HISTORY.len());
    for (reply, exchange) in replies.iter().zip(HISTORY) {
        if is_out_of_memory(&rt, reply) {
            break;
        }
        assert_reply(&rt, reply, exchange);
    }
}
