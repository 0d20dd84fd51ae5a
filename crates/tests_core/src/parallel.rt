//! Verdicts by one thread and by several, over vehicles in one square, with one allocation refused.

ghost use Rattle.std.specs.Thread.{IsSync};

use crate::square::{NOON, Square, device, id_of, instant, one_square, position, words};
use mds_match::{LocalMoment, Vehicle, Words};
use mds_parallel::{Chunked, ParallelRuntime, by_threads};
use mds_policy::Policy;
use mds_text::Moment;
use mds_verdict::{Evaluator, Plain, RuleVerdict, Status};
use std::alloc::{AllocError, Global};
use std::process::Abort;
use std::sync::Arc;

const CAP: &str =
    r#"{"policy_id":"00000000-0000-4000-8000-000000000201","name":"cap","start_date":1000,"rules":[{"rule_id":"00000000-0000-4000-8000-000000000301","name":"cap","rule_type":"count","geographies":["00000000-0000-4000-8000-000000000101"],"maximum":1}]}"#;

/// What is evaluated: a policy over a fleet in the square, at a moment. The local time is noon.
#[derive(Drop)]
struct VerdictInput {
    places: Square,
    policy: Policy,
    fleet: Vec<Vehicle>,
    moment: Moment,
}

/// A vehicle at 5 degrees east and north.
fn vehicle(rt: &impl Abort, number: u32, make: Arc<Words>, condition: Arc<Words>) -> Vehicle {
    Vehicle {
        device: device(rt, number),
        make,
        condition,
        timestamp: instant(rt, 2000),
        position: position(rt, 50_000_000, 50_000_000),
        since: instant(rt, 2000),
    }
}

/// The size of the fleet: 78 times 64, and 11 more.
const VEHICLES: u32 = 5003;

/// Vehicle types, one for each of 64 rules.
const TYPES: [&str; 64] = [
    "00", "01", "02", "03", "04", "05", "06", "07", "08", "09", "10", "11", "12", "13", "14", "15",
    "16", "17", "18", "19", "20", "21", "22", "23", "24", "25", "26", "27", "28", "29", "30", "31",
    "32", "33", "34", "35", "36", "37", "38", "39", "40", "41", "42", "43", "44", "45", "46", "47",
    "48", "49", "50", "51", "52", "53", "54", "55", "56", "57", "58", "59", "60", "61", "62", "63",
];

/// The vehicle types, without types of propulsion.
fn makes(rt: &impl Abort, alloc: Global) -> Result<Vec<Arc<Words>>, AllocError> {
    let mut makes = Vec::with_capacity(alloc, TYPES.len())?;
    for kind in &TYPES {
        makes.push(words(rt, alloc, kind)?)?;
    }
    Ok(makes)
}

/// Vehicles of 64 types in turn, in one of two states.
fn fleet(rt: &impl Abort, alloc: Global) -> Result<Vec<Vehicle>, AllocError> {
    let makes = makes(rt, alloc)?;
    let (available, reserved) = (
        words(rt, alloc, "available")?,
        words(rt, alloc, "reserved")?,
    );
    let mut fleet = Vec::with_capacity(alloc, VEHICLES as usize)?;
    for number in 0..VEHICLES {
        let state = if number % 3 == 0 {
            &available
        } else {
            &reserved
        };
        let make = makes.get((number % 64) as usize).expect(rt, "a type");
        let (make, state) = (Arc::try_clone(make)?, Arc::try_clone(state)?);
        fleet.push(vehicle(rt, number, make, state))?;
    }
    Ok(fleet)
}

const CAPS: &str =
    r#"{"policy_id":"00000000-0000-4000-8000-000000000201","name":"caps","start_date":1000,"rules":["#;

/// The text of a rule on one vehicle type, in three pieces with the number of the type between them.
const RULE: [&str; 3] = [
    r#"{"rule_id":"00000000-0000-4000-8000-0000000003"#,
    r#"","name":"cap","rule_type":"count","geographies":["00000000-0000-4000-8000-000000000101"],"maximum":78,"vehicle_types":[""#,
    r#""]},"#,
];

/// The text of a policy of 64 rules, each on one vehicle type: at most 78 vehicles of each in the square.
fn caps(alloc: Global) -> Result<String, AllocError> {
    let mut text = String::from_str(alloc, CAPS)?;
    for kind in &TYPES {
        for piece in [RULE[0], kind, RULE[1], kind, RULE[2]] {
            text.push_str(piece)?;
        }
    }
    text.pop();
    text.push_str("]}")?;
    Ok(text)
}

/// The policy of a text; `None` where memory ran out.
fn policy(alloc: Global, text: &str) -> Option<Policy> {
    Policy::read(alloc, text.as_bytes()).ok()
}

/// The policy of a text, read a second time where memory ran out.
fn policy_at_last(rt: &impl Abort, alloc: Global, text: &str) -> Policy {
    match policy(alloc, text) {
        Some(policy) => policy,
        None => policy(alloc, text).expect(rt, "a policy"),
    }
}

fn places_at_last(rt: &impl Abort, alloc: Global) -> Square {
    match one_square(rt, alloc) {
        Ok(places) => places,
        Err(_) => one_square(rt, alloc).expect(rt, "memory"),
    }
}

fn fleet_at_last(rt: &impl Abort, alloc: Global) -> Vec<Vehicle> {
    match fleet(rt, alloc) {
        Ok(fleet) => fleet,
        Err(_) => fleet(rt, alloc).expect(rt, "memory"),
    }
}

/// The fleet under the policy of a text.
fn make_input(rt: &impl Abort, alloc: Global, text: &str) -> VerdictInput {
    VerdictInput {
        places: places_at_last(rt, alloc),
        policy: policy_at_last(rt, alloc, text),
        fleet: fleet_at_last(rt, alloc),
        moment: instant(rt, 2000),
    }
}

/// References to the vehicles of the fleet.
fn vehicle_refs<'a>(alloc: Global, city: &'a VerdictInput) -> Result<Vec<&'a Vehicle>, AllocError> {
    city.fleet.iter().collect::<Vec<&Vehicle>>(alloc)
}

fn vehicle_refs_at_last<'a>(
    rt: &impl Abort,
    alloc: Global,
    city: &'a VerdictInput,
) -> Vec<&'a Vehicle> {
    match vehicle_refs(alloc, city) {
        Ok(vehicles) => vehicles,
        Err(_) => vehicle_refs(alloc, city).expect(rt, "memory"),
    }
}

/// The verdicts by one thread.
fn by_one(
    alloc: Global,
    city: &VerdictInput,
    vehicles: &[&Vehicle],
) -> Result<Vec<RuleVerdict>, AllocError> {
    let (policy, places) = (&city.policy, &city.places);
    Plain.verdicts(alloc, policy, places, vehicles, NOON, city.moment)
}

/// The verdicts by threads, however little work there is.
fn by_several<R: ParallelRuntime>(
    rt: &R,
    alloc: Global,
    city: &VerdictInput,
    vehicles: &[&Vehicle],
) -> Result<Vec<RuleVerdict>, AllocError> {
    let (policy, places) = (&city.policy, &city.places);
    let at = LocalMoment {
        moment: city.moment,
        local: NOON,
    };
    by_threads(rt, alloc, policy, places, vehicles, &at)
}

/// The verdicts by `Chunked`: by threads where there is enough work for them.
fn by_chunks<R: ParallelRuntime>(
    chunked: &Chunked<R>,
    alloc: Global,
    city: &VerdictInput,
    vehicles: &[&Vehicle],
) -> Result<Vec<RuleVerdict>, AllocError>
    requires { IsSync R.row }
{
    let (policy, places) = (&city.policy, &city.places);
    chunked.verdicts(alloc, policy, places, vehicles, NOON, city.moment)
}

/// Checks that the cap is exceeded by 5,003 vehicles, of which the first 100 are listed.
fn expect_exceeded(rt: &impl Abort, found: &[RuleVerdict]) {
    assert!(rt; found.len() == 1);
    for verdict in found {
        assert!(rt; verdict.rule == id_of(rt, "00000000-0000-4000-8000-000000000301"));
        assert!(rt; verdict.status == Status::Violated && verdict.measure == 5003);
        assert!(rt; verdict.devices.len() == 100);
        expect_every(rt, verdict, 0, 1);
    }
}

/// Checks that the listed devices are those numbered from `first` on, in steps of `step`.
fn expect_every(rt: &impl Abort, verdict: &RuleVerdict, first: u32, step: u32) {
    let mut wanted: u32 = first;
    for listed in &verdict.devices {
        assert!(rt; *listed == device(rt, wanted));
        wanted = wanted.wrapping_add(step);
    }
}

/// What tests need of the runtime.
trait VerdictRuntime: ParallelRuntime + Abort {}

impl<R: ParallelRuntime + Abort> VerdictRuntime for R {}

/// Checks the verdicts by threads, at the second try at the latest.
fn expect_by_several<R: VerdictRuntime>(
    rt: &R,
    alloc: Global,
    city: &VerdictInput,
    vehicles: &[&Vehicle],
) {
    match by_several(rt, alloc, city, vehicles) {
        Ok(found) => expect_exceeded(rt, &found),
        Err(_) => expect_exceeded(
            rt,
            &by_several(rt, alloc, city, vehicles).expect(rt, "memory"),
        ),
    }
}

/// Checks the verdicts by one thread, at the second try at the latest.
fn expect_by_one(rt: &impl Abort, alloc: Global, city: &VerdictInput, vehicles: &[&Vehicle]) {
    match by_one(alloc, city, vehicles) {
        Ok(found) => expect_exceeded(rt, &found),
        Err(_) => expect_exceeded(rt, &by_one(alloc, city, vehicles).expect(rt, "memory")),
    }
}

/// Checks the verdicts by threads on no vehicles.
fn expect_none<R: VerdictRuntime>(rt: &R, alloc: Global, city: &VerdictInput) {
    let found = match by_several(rt, alloc, city, &[]) {
        Ok(found) => found,
        Err(_) => by_several(rt, alloc, city, &[]).expect(rt, "memory"),
    };
    for verdict in &found {
        assert!(rt; verdict.status == Status::Ok && verdict.measure == 0);
    }
}

/// With one allocation refused, whichever it is, vehicles are evaluated or memory runs out; a second call succeeds.
/// Threads give the same verdicts as one thread.
#[test]
fn evaluates_or_runs_out_of_memory(rt: HostRuntime) {
    let alloc = rt.alloc();
    let city = make_input(&rt, alloc, CAP);
    let vehicles = vehicle_refs_at_last(&rt, alloc, &city);
    expect_by_several(&rt, alloc, &city, &vehicles);
    expect_by_one(&rt, alloc, &city, &vehicles);
    expect_none(&rt, alloc, &city);
}

/// The verdicts by `Chunked`, at the second try at the latest.
fn by_chunks_at_last<R: VerdictRuntime>(
    chunked: &Chunked<R>,
    alloc: Global,
    city: &VerdictInput,
    vehicles: &[&Vehicle],
) -> Vec<RuleVerdict>
    requires { IsSync R.row }
{
    match by_chunks(chunked, alloc, city, vehicles) {
        Ok(found) => found,
        Err(_) => by_chunks(chunked, alloc, city, vehicles).expect(&chunked.0, "memory"),
    }
}

/// Little work is left to one thread.
#[test]
fn evaluates_little_or_runs_out_of_memory(rt: HostRuntime) {
    let alloc = rt.alloc();
    let city = make_input(&rt, alloc, CAP);
    let vehicles = vehicle_refs_at_last(&rt, alloc, &city);
    let chunked = Chunked(rt);
    let found = by_chunks_at_last(&chunked, alloc, &city, &vehicles);
    expect_exceeded(&chunked.0, &found);
}

fn caps_at_last(rt: &impl Abort, alloc: Global) -> String {
    match caps(alloc) {
        Ok(text) => text,
        Err(_) => caps(alloc).expect(rt, "memory"),
    }
}

/// Checks a verdict on the vehicles of each of the 64 types: of the first 11 types there are 79, of the others 78.
fn expect_types(rt: &impl Abort, found: &[RuleVerdict]) {
    assert!(rt; found.len() == 64);
    for (kind, verdict) in (0..64).zip(found) {
        let (status, measure, told) = if kind < 11 {
            (Status::Violated, 79, 79)
        } else {
            (Status::Ok, 78, 0)
        };
        assert!(rt; verdict.status == status && verdict.measure == measure);
        assert!(rt; verdict.devices.len() == told);
        expect_every(rt, verdict, kind, 64);
    }
}

/// Enough work for threads: each chunk has more pairs of type and state than a table holds, and each rule has
/// vehicles in every chunk. Where an allocation is refused to the threads, one thread evaluates.
#[test]
fn evaluates_much_or_runs_out_of_memory(rt: HostRuntime) {
    let alloc = rt.alloc();
    let text = caps_at_last(&rt, alloc);
    let city = make_input(&rt, alloc, text.as_str());
    let vehicles = vehicle_refs_at_last(&rt, alloc, &city);
    let chunked = Chunked(rt);
    let found = by_chunks(&chunked, alloc, &city, &vehicles);
    expect_types(
        &chunked.0,
        &found.expect(&chunked.0, "verdicts by one thread at least"),
    );
}
