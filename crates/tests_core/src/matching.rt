//! Local times in zones, worked out by hand, and the first rule that a vehicle meets. Scripts test windows, words and
//! bounds.

use crate::square::{NOON, id_of, instant, one_square, position, words};
use mds_match::{Local, ResolvedPolicy, Vehicle, Zone, ZoneFault, first, meets, open_at};
use mds_policy::Policy;
use std::alloc::Global;
use std::process::Abort;

/// A scooter at a longitude on the tenth parallel.
fn scooter(rt: &impl Abort, alloc: Global, lng: i64) -> Vehicle {
    Vehicle {
        device: id_of(rt, "00000000-0000-4000-8000-000000000401"),
        make: words(rt, alloc, "scooter").expect(rt, "memory"),
        condition: words(rt, alloc, "available").expect(rt, "memory"),
        timestamp: instant(rt, 2000),
        position: position(rt, lng, 100_000_000),
        since: instant(rt, 2000),
    }
}

/// A rule on speed and two on counts, all in the square.
const THREE_RULES: &[u8] =
    br#"{"policy_id":"00000000-0000-4000-8000-000000000201","name":"three","start_date":1000,"rules":[{"rule_id":"00000000-0000-4000-8000-000000000301","name":"slow","rule_type":"speed","geographies":["00000000-0000-4000-8000-000000000101"],"maximum":15},{"rule_id":"00000000-0000-4000-8000-000000000302","name":"cap","rule_type":"count","geographies":["00000000-0000-4000-8000-000000000101"]},{"rule_id":"00000000-0000-4000-8000-000000000303","name":"cap","rule_type":"count","geographies":["00000000-0000-4000-8000-000000000101"]}]}"#;

/// Checks the first rule that a scooter at this longitude meets, by the policy and by the resolved policy.
fn expect_first(rt: &impl Abort, alloc: Global, policy: &Policy, lng: i64, wanted: Option<usize>) {
    let places = one_square(rt, alloc).expect(rt, "memory");
    let vehicle = scooter(rt, alloc, lng);
    let resolved = ResolvedPolicy::new(alloc, policy, &places, NOON).expect(rt, "memory");
    assert!(rt; first(policy, &places, &vehicle, NOON) == wanted);
    assert!(rt; resolved.first(&vehicle) == wanted);
    let last = policy.rules().last().expect(rt, "a rule");
    assert!(rt; open_at(last, NOON));
    assert!(rt; meets(last, &places, &vehicle, NOON) == wanted.is_some());
}

#[test]
fn the_first_rule(rt: HostRuntime) {
    let policy = Policy::read(rt.alloc(), THREE_RULES).expect(&rt, "a policy");
    expect_first(&rt, rt.alloc(), &policy, 100_000_000, Some(1));
    expect_first(&rt, rt.alloc(), &policy, 100_000_001, None);
}

const PACIFIC: &str = "PST8PDT,M3.2.0,M11.1.0";

/// Zones, moments in milliseconds since the Unix epoch, and the local times.
const LOCAL_TIMES: &[(&str, i64, Local)] = &[
    // The epoch was on a Thursday; eight hours west of Greenwich it was still Wednesday, 16:00.
    (
        "-08:00",
        0,
        Local {
            weekday: 3,
            second: 57600,
        },
    ),
    (
        "-00:00",
        0,
        Local {
            weekday: 4,
            second: 0,
        },
    ),
    (
        "+14:59",
        0,
        Local {
            weekday: 4,
            second: 53940,
        },
    ),
    // 2023-03-12 09:59:59.999 in UTC, a Sunday.
    (
        "-08:00",
        1_678_615_199_999,
        Local {
            weekday: 0,
            second: 7199,
        },
    ),
    (
        "Z",
        165_599_999,
        Local {
            weekday: 5,
            second: 79199,
        },
    ),
    (
        "Z",
        190_800_999,
        Local {
            weekday: 6,
            second: 18000,
        },
    ),
    (
        PACIFIC,
        0,
        Local {
            weekday: 3,
            second: 57600,
        },
    ),
    // The clock goes from 01:59:59 to 03:00:00 on 2023-03-12.
    (
        PACIFIC,
        1_678_615_199_999,
        Local {
            weekday: 0,
            second: 7199,
        },
    ),
    (
        PACIFIC,
        1_678_615_200_000,
        Local {
            weekday: 0,
            second: 10800,
        },
    ),
    // And from 01:59:59 back to 01:00:00 on 2023-11-05, at 09:00:00 in UTC.
    (
        PACIFIC,
        1_699_174_799_999,
        Local {
            weekday: 0,
            second: 7199,
        },
    ),
    (
        PACIFIC,
        1_699_174_800_000,
        Local {
            weekday: 0,
            second: 3600,
        },
    ),
    (
        "<+0545>-5:45",
        0,
        Local {
            weekday: 4,
            second: 20700,
        },
    ),
];

const NO_ZONES: &[&str] = &[
    "",
    "Mars",
    "UTC",
    "z",
    "+15:00",
    "+01:60",
    "+1:00",
    "PST8PDT",
    "PST25",
    "PS8",
    "PST8PDT,M3.2.0,M11.1.0 ",
];

/// The local time in a zone at a moment.
fn local_in(rt: &impl Abort, name: &str, at: i64) -> Local {
    let zone = Zone::read(name).expect(rt, "a zone");
    zone.local(instant(rt, at)).expect(rt, "memory")
}

/// Whether a text is refused as a zone.
fn is_no_zone(name: &str) -> bool {
    matches!(Zone::read(name), Err(ZoneFault::BadZone))
}

#[test]
fn zones(rt: HostRuntime) {
    for (name, at, wanted) in LOCAL_TIMES {
        assert!(rt; local_in(&rt, name, *at) == *wanted, "{name} at {at}");
    }
    for name in NO_ZONES {
        assert!(rt; is_no_zone(name), "{name}");
    }
}
