//! Configurations, refused ones too, and replies. Scripts test requests and which calls they are.

use crate::square::instant;
use mds_match::Local;
use mds_request::{Actor, Code, Config, Reply};
use std::alloc::Global;
use std::process::Abort;

const CITY: &[u8] =
    br#"{"author":"city","operators":[{"id":"00000000-0000-4000-8000-0000000000a1","limit":200000,"token":"alfa"},{"id":"00000000-0000-4000-8000-0000000000b1","limit":1,"token":"bravo"}],"zone":"Z"}"#;

/// Access tokens and their clients.
const ACTORS: &[(&[u8], Actor)] = &[
    (b"city", Actor::Author),
    (b"alfa", Actor::Operator(0)),
    (b"bravo", Actor::Operator(1)),
    (b"nobody", Actor::Nobody),
    (b"", Actor::Nobody),
];

/// Friday at five, 29 hours after the epoch.
const FRIDAY_AT_FIVE: Local = Local {
    weekday: 5,
    second: 18000,
};

#[test]
fn a_configuration(rt: HostRuntime) {
    let config = Config::read(rt.alloc(), CITY).expect(&rt, "a configuration");
    assert!(rt; config.author() == "city" && config.operators().len() == 2);
    let local = config.zone().local(instant(&rt, 104_400_000));
    assert!(rt; local == Ok(FRIDAY_AT_FIVE));
    for (token, actor) in ACTORS {
        assert!(rt; config.actor(token) == *actor);
    }
}

/// Texts that are no configurations, and the messages of their faults.
const REFUSED: &[(&[u8], &str)] = &[
    (br#"{"author":"city""#, "bad JSON"),
    (br#"{"author":"city"}"#, "bad field operators"),
    (
        br#"{"author":"city hall","operators":[],"zone":"Z"}"#,
        "bad field author",
    ),
    (
        br#"{"author":"","operators":[],"zone":"Z"}"#,
        "bad field author",
    ),
    (
        br#"{"author":"city","operators":[{"id":"00000000-0000-4000-8000-0000000000a1","limit":200001,"token":"alfa"}],"zone":"Z"}"#,
        "out of range",
    ),
    (
        br#"{"author":"city","operators":[{"id":"00000000-0000-4000-8000-0000000000a1","limit":0,"token":"alfa"}],"zone":"Z"}"#,
        "out of range",
    ),
    (
        br#"{"author":"alfa","operators":[{"id":"00000000-0000-4000-8000-0000000000a1","limit":2,"token":"alfa"}],"zone":"Z"}"#,
        "alike",
    ),
    (
        br#"{"author":"city","operators":[{"id":"00000000-0000-4000-8000-0000000000a1","limit":2,"token":"alfa"},{"id":"00000000-0000-4000-8000-0000000000a1","limit":2,"token":"bravo"}],"zone":"Z"}"#,
        "alike",
    ),
    (
        br#"{"author":"city","operators":[],"zone":"+15:00"}"#,
        "bad zone",
    ),
];

/// Checks that a text is refused as a configuration, with this message.
fn expect_refused(rt: &impl Abort, alloc: Global, text: &[u8], wanted: &str) {
    let fault = Config::read(alloc, text).err().expect(rt, wanted);
    let told = format!(in alloc; "{fault}").expect(rt, "memory");
    assert!(rt; told.as_str() == wanted, "{told}, not {wanted}");
}

#[test]
fn no_configurations(rt: HostRuntime) {
    for (text, wanted) in REFUSED {
        expect_refused(&rt, rt.alloc(), text, wanted);
    }
}

/// Checks a reply's status, and its body both borrowed and moved out.
fn expect_reply(rt: &impl Abort, alloc: Global, reply: Reply, status: u16, wanted: &[u8]) {
    assert!(rt; reply.status() == status && reply.body() == wanted);
    let body = reply.into_body(alloc).expect(rt, "memory");
    assert!(rt; body.as_slice() == wanted);
}

#[test]
fn replies(rt: HostRuntime) {
    let alloc = rt.alloc();
    let refused = Reply::from(Code::NotPublished);
    expect_reply(&rt, alloc, refused, 409, br#"{"error":"not_published"}"#);
    let done = Reply::ok(vec![in alloc; b'{', b'}'].expect(&rt, "memory"));
    expect_reply(&rt, alloc, done, 200, b"{}");
}
