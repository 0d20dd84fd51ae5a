//! Slots of connections, requests that may wait, and the field `connection` of a last response.
use bytes::Bytes;
use futures::executor::block_on;
use http::header::CONNECTION;
use http::{Response, StatusCode};
use http_body_util::Full;
use mds_request::Actor;
use server_admission::{Arrived, MOST_ANONYMOUS, MOST_OF_CLIENT, MOST_WAITING};
use server_http::{Admittance, ConnSlot, ConnTable, busy, close_unless_whole};
use std::alloc::{AllocError, Global};
use std::process::Abort;
use std::sync::Arc;
use std::sync::atomic::{AtomicU64, Ordering};
use std::test::Fail;

/// Gives an anonymous connection a slot, and returns its key; `None` where there is no slot for it.
fn enter_anonymous(register: &mut ConnTable, alloc: Global) -> Result<Option<usize>, AllocError> {
    let seat = Arc::new(alloc, ConnSlot::new(alloc)?)?;
    Ok(register.add_conn(seat))
}

/// An empty table of connections.
fn empty_table(rt: &impl Abort, alloc: Global) -> ConnTable {
    ConnTable::new(alloc, 3).expect(rt, "memory")
}

/// Gives an anonymous connection a slot, which is there, and returns its key.
fn enter(rt: &impl Abort, register: &mut ConnTable, alloc: Global) -> usize {
    let key = enter_anonymous(register, alloc).expect(rt, "memory");
    key.expect(rt, "a slot")
}

/// Checks that a request of a client is admitted.
fn expect_admitted(rt: &impl Abort, register: &mut ConnTable, key: usize, actor: Actor) {
    assert!(rt; register.admit(key, actor, 0) == Admittance::Admitted(actor));
}

/// Checks that a request of a client isn't admitted.
fn expect_busy(rt: &impl Abort, register: &mut ConnTable, key: usize, actor: Actor) {
    assert!(rt; register.admit(key, actor, 0) == Admittance::Busy);
}

/// Anonymous connections have as many slots as they may have; one more gets in for the oldest idle one.
#[test]
fn anonymous_connections_have_half_of_the_slots(rt: HostRuntime) {
    let mut register = empty_table(&rt, rt.alloc());
    for _ in 0..MOST_ANONYMOUS {
        enter(&rt, &mut register, rt.alloc());
    }
    let last = enter(&rt, &mut register, rt.alloc());
    expect_busy(&rt, &mut register, 0, Actor::Nobody);
    expect_admitted(&rt, &mut register, last, Actor::Author);
}

/// At most `MOST_WAITING` requests of one client wait. One more may once one of them is answered.
#[test]
fn so_many_requests_wait(rt: HostRuntime) {
    let mut register = empty_table(&rt, rt.alloc());
    for _ in 0..MOST_WAITING {
        let key = enter(&rt, &mut register, rt.alloc());
        expect_admitted(&rt, &mut register, key, Actor::Nobody);
    }
    let key = enter(&rt, &mut register, rt.alloc());
    expect_busy(&rt, &mut register, key, Actor::Nobody);
    register.finish_request(0);
    expect_admitted(&rt, &mut register, key, Actor::Nobody);
}

/// A client has at most `MOST_OF_CLIENT` connections where none of them is idle.
#[test]
fn a_client_has_so_many_slots(rt: HostRuntime) {
    let mut register = empty_table(&rt, rt.alloc());
    let alfa = Actor::Operator(0);
    for _ in 0..MOST_OF_CLIENT {
        let key = enter(&rt, &mut register, rt.alloc());
        expect_admitted(&rt, &mut register, key, alfa);
    }
    let key = enter(&rt, &mut register, rt.alloc());
    expect_busy(&rt, &mut register, key, alfa);
    register.finish_request(0);
    register.set_idle(0);
    expect_admitted(&rt, &mut register, key, alfa);
}

/// A closed table of connections lets in no connection and no request.
#[test]
fn a_closed_table_lets_nothing_in(rt: HostRuntime) {
    let mut register = empty_table(&rt, rt.alloc());
    let key = enter(&rt, &mut register, rt.alloc());
    register.close();
    expect_busy(&rt, &mut register, key, Actor::Author);
    let none = enter_anonymous(&mut register, rt.alloc()).expect(&rt, "memory");
    assert!(rt; none.is_none());
}

/// Each connection is notified that the server shuts down: that it is to close, and that a response is its last one.
#[test]
fn each_connection_is_notified(rt: HostRuntime) -> Result<(), Fail> {
    let alloc = rt.alloc();
    let mut register = empty_table(&rt, alloc);
    let seat = Arc::new(alloc, ConnSlot::new(alloc)?)?;
    let (told, last) = (seat.close_notice()?, seat.shutdown_notice()?);
    register.add_conn(seat).ok_or("no seat")?;
    register.notify_shutdown();
    block_on(&rt, told)??;
    block_on(&rt, last)??;
    Ok(())
}

/// The response of a busy server is 503, and says that the connection closes.
#[test]
fn busy_says_so(rt: HostRuntime) {
    let response = busy(rt.alloc()).expect(&rt, "memory");
    assert!(rt; response.status() == StatusCode::SERVICE_UNAVAILABLE);
    let close = response.headers().get(CONNECTION).expect(&rt, "a field");
    assert!(rt; close.as_bytes() == b"close".as_slice());
}

/// Checks whether an empty response to a request whose body arrived so says that the connection closes.
fn expect_last(rt: &impl Abort, alloc: Global, arrived: &Arrived, wanted: bool) {
    let plain = Response::new(alloc, Full::new(Bytes::new()));
    let told = close_unless_whole(plain, arrived).expect(rt, "memory");
    assert!(rt; told.headers().get(CONNECTION).is_some() == wanted);
}

/// After a body that was too long the response says that the connection closes; after a whole one it doesn't.
#[test]
fn a_last_reply_says_so(rt: HostRuntime) {
    expect_last(&rt, rt.alloc(), &Arrived::TooLong, true);
    expect_last(&rt, rt.alloc(), &Arrived::Whole(Bytes::new()), false);
}

/// A counter holds the number of open connections, from the moment it is passed on.
#[test]
fn counts_open_connections(rt: HostRuntime) {
    let alloc = rt.alloc();
    let mut register = empty_table(&rt, alloc);
    let first = enter(&rt, &mut register, alloc);
    let open = Arc::new(alloc, AtomicU64::new(7))
        .ok()
        .expect(&rt, "memory");
    register.count_at(Arc::try_clone(&open).expect(&rt, "memory"));
    assert!(rt; open.load(Ordering::SeqCst) == 1);
    enter(&rt, &mut register, alloc);
    assert!(rt; open.load(Ordering::SeqCst) == 2);
    register.remove_conn(first);
    register.remove_conn(first);
    assert!(rt; open.load(Ordering::SeqCst) == 1);
}
