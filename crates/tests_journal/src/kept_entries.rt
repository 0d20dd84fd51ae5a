//! Which entries of a journal stay when it is compacted, worked out by hand.
use crate::journal::{TimedExchange, configuration, entries};
use journal_compaction::compact_entries;
use std::alloc::Global;
use std::process::Abort;
use tests_fixtures::{FixtureExchange, PUT_CAP, REPORT_FIRST, REPORT_SECOND};

/// A report of alfa's first vehicle in another state.
const FIRST_RESERVED: &FixtureExchange = &FixtureExchange {
    at: 2001,
    token: "alfa",
    method: "POST",
    target: "/fleet/events",
    body: r#"{"device_id":"00000000-0000-4000-8000-000000000401","vehicle_type":"scooter","propulsion_types":["electric"],"vehicle_state":"reserved","event_types":["reservation_start"],"timestamp":2001,"location":{"lat":5,"lng":5}}"#,
    status: 200,
    reply: r#"{"result":"changed"}"#,
};

/// A report whose body isn't one.
const NO_REPORT: &FixtureExchange = &FixtureExchange {
    at: 2001,
    token: "alfa",
    method: "POST",
    target: "/fleet/events",
    body: "{}",
    status: 400,
    reply: "",
};

/// Alfa's first vehicle is removed.
const REMOVE_FIRST: &FixtureExchange = &FixtureExchange {
    at: 2001,
    token: "alfa",
    method: "DELETE",
    target: "/fleet/vehicles/00000000-0000-4000-8000-000000000401",
    body: "",
    status: 200,
    reply: "",
};

/// Three reports of the first device, in one state, and one of the second device between them.
const RUN: &[TimedExchange<'static>] = &[
    (2001, &REPORT_FIRST),
    (2002, &REPORT_SECOND),
    (2003, &REPORT_FIRST),
    (2004, &REPORT_FIRST),
];

/// Reports of a device whose state changes, and changes back.
const BACK: &[TimedExchange<'static>] = &[
    (2001, &REPORT_FIRST),
    (2002, FIRST_RESERVED),
    (2003, &REPORT_FIRST),
    (2004, &REPORT_FIRST),
];

/// A device is removed and reported again, among entries that are no reports.
const REMOVED: &[TimedExchange<'static>] = &[
    (2001, &REPORT_FIRST),
    (2002, REMOVE_FIRST),
    (2003, &PUT_CAP),
    (2004, &REPORT_FIRST),
    (2005, NO_REPORT),
    (2006, &REPORT_SECOND),
];

/// Checks that compaction leaves the entries of these moments of a journal.
fn expect_entries(rt: &impl Abort, alloc: Global, journal: &[TimedExchange<'_>], moments: &[i64]) {
    let config = configuration(alloc).expect(rt, "a configuration");
    let Some(entries) = entries(alloc, &config, journal) else {
        panic!(rt; "entries");
    };
    let Ok(kept) = compact_entries(alloc, &config, &entries) else {
        panic!(rt; "a thinned journal");
    };
    assert!(rt; kept.len() == moments.len());
    for (entry, moment) in kept.iter().zip(moments) {
        assert!(rt; entry.at.get() == *moment);
    }
}

/// The middle one of the three reports is dropped.
#[test]
fn a_run_keeps_its_ends(rt: HostRuntime) {
    expect_entries(&rt, rt.alloc(), RUN, &[2001, 2002, 2004]);
}

/// A state that comes back begins a run of its own; the reports before it are dropped.
#[test]
fn a_state_that_comes_back_begins_anew(rt: HostRuntime) {
    expect_entries(&rt, rt.alloc(), BACK, &[2003, 2004]);
}

/// The device's entries up to its removal, this one too, are dropped; what isn't a report stays.
#[test]
fn a_removal_goes_with_what_stands_before(rt: HostRuntime) {
    expect_entries(&rt, rt.alloc(), REMOVED, &[2003, 2004, 2005, 2006]);
}
