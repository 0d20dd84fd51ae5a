//! Tests of what a report says of the rules of a published policy: their units, by how much and since when they are
//! violated, and where the marks of a day's line stand, worked out by hand.
use crate::report::{has_part, operator};
use cli_report::{
    ReportHead, ReportSpan, page_start, push_page_operator, push_summary, push_verdicts,
};
use journal_samples::RuleSample;
use mds_catalog::{Batch, Catalogue};
use mds_match::Zone;
use mds_policy::Policy;
use mds_text::{Id, Moment};
use mds_verdict::Status;
use std::alloc::{AllocError, Global};
use std::sync::Arc;

/// New York: clocks are set forward on 8 March 2026 at 02:00, and back on 1 November at 02:00.
const NEW_YORK: &str = "EST5EDT,M3.2.0,M11.1.0";
/// The midnight before clocks are set back.
const AUTUMN: i64 = 1_793_505_600_000;
/// The midnight before they are set forward.
const SPRING: i64 = 1_772_946_000_000;
/// The milliseconds of half an hour.
const HALF_HOUR: i64 = 1_800_000;
/// A policy of a count rule, a time rule, one that isn't evaluated and a time rule of one hour.
const POLICY: &str =
    r#"{"policy_id":"22222222-2222-4222-8222-222222222222","name":"Streets","start_date":0,"rules":[
{"rule_id":"33333333-3333-4333-8333-333333333330","name":"Cap","rule_type":"count","rule_units":"minutes",
"geographies":[],"minimum":2,"maximum":4},
{"rule_id":"33333333-3333-4333-8333-333333333331","name":"Parked","rule_type":"time","rule_units":"hours",
"geographies":[],"maximum":24,"inclusive_maximum":false},
{"rule_id":"33333333-3333-4333-8333-333333333332","name":"Slow","rule_type":"speed","rule_units":"kph",
"geographies":[],"maximum":15},
{"rule_id":"33333333-3333-4333-8333-333333333333","name":"Left","rule_type":"time","rule_units":"hours",
"geographies":[],"maximum":1}]}"#;

/// What is published: the policy.
fn catalogue(alloc: Global) -> Result<Catalogue, AllocError> {
    let mut catalogue = Catalogue::with_room(alloc)?;
    let (Ok(policy), Some(at)) = (Policy::read(alloc, POLICY.as_bytes()), Moment::new(0)) else {
        return Ok(catalogue);
    };
    let Ok(policy) = Arc::new(alloc, policy) else {
        return Ok(catalogue);
    };
    let mut policies = Vec::new(alloc);
    if policies.push(policy).is_err() {
        return Ok(catalogue);
    }
    let batch = Batch::new(alloc, at, Vec::new(alloc), policies, Vec::new(alloc))?;
    let Ok(batch) = Arc::new(alloc, batch) else {
        return Ok(catalogue);
    };
    catalogue.absorb(&batch)?;
    Ok(catalogue)
}

/// Appends a sample of a rule of the policy, so many half hours after a midnight.
fn push_sample(
    all: &mut Vec<RuleSample>,
    midnight: i64,
    half_hours: i64,
    number: usize,
    status: Status,
    measure: u64,
) -> Result<(), AllocError> {
    let rule = match number {
        0 => "33333333-3333-4333-8333-333333333330",
        1 => "33333333-3333-4333-8333-333333333331",
        _ => "33333333-3333-4333-8333-333333333332",
    };
    let Some(after) = half_hours.checked_mul(HALF_HOUR) else {
        return Ok(());
    };
    let Some(millis) = midnight.checked_add(after) else {
        return Ok(());
    };
    let policy = Id::read("22222222-2222-4222-8222-222222222222");
    let (Some(at), Some(policy), Some(rule)) = (Moment::new(millis), policy, Id::read(rule)) else {
        return Ok(());
    };
    all.push(RuleSample {
        at,
        policy,
        number,
        rule,
        status,
        measure,
    })?;
    Ok(())
}

/// Half an hour after half an hour, from so many after a midnight to so many.
fn half_hours(midnight: i64, first: i64, last: i64) -> Option<ReportSpan> {
    let first = first.checked_mul(HALF_HOUR)?.checked_add(midnight)?;
    let last = last.checked_mul(HALF_HOUR)?.checked_add(midnight)?;
    Some(ReportSpan {
        first: Moment::new(first)?,
        last: Moment::new(last)?,
        every: 1_800_000,
    })
}

/// The rows of an operator with these samples; nothing where there is no such zone.
fn rows(alloc: Global, samples: &[RuleSample]) -> Result<Vec<u8>, AllocError> {
    let mut out = Vec::new(alloc);
    let catalogue = catalogue(alloc)?;
    if let (Ok(zone), Some(operator)) = (
        Zone::read(NEW_YORK),
        operator(b"Scoot", samples, &catalogue),
    ) {
        push_verdicts(alloc, &mut out, &zone, &operator)?;
    }
    Ok(out)
}

/// The same in short: a row for each of its rules and days.
fn rows_of_days(alloc: Global, samples: &[RuleSample]) -> Result<Vec<u8>, AllocError> {
    let mut out = Vec::new(alloc);
    let catalogue = catalogue(alloc)?;
    if let (Ok(zone), Some(operator)) = (
        Zone::read(NEW_YORK),
        operator(b"Scoot", samples, &catalogue),
    ) {
        push_summary(alloc, &mut out, &zone, &operator)?;
    }
    Ok(out)
}

/// The section of an operator with these samples; nothing where there is no such zone.
fn section(
    alloc: Global,
    span: Option<ReportSpan>,
    samples: &[RuleSample],
) -> Result<Vec<u8>, AllocError> {
    let mut out = Vec::new(alloc);
    let catalogue = catalogue(alloc)?;
    if let (Ok(zone), Some(span), Some(operator)) = (
        Zone::read(NEW_YORK),
        span,
        operator(b"Scoot", samples, &catalogue),
    ) {
        push_page_operator(alloc, &mut out, &zone, span, &operator)?;
    }
    Ok(out)
}

#[test]
fn units_are_those_of_documents(rt: HostRuntime) -> Result<(), AllocError> {
    let alloc = rt.alloc();
    let mut samples = Vec::new(alloc);
    push_sample(&mut samples, AUTUMN, 0, 0, Status::Violated, 7)?;
    push_sample(&mut samples, AUTUMN, 0, 1, Status::Violated, 3)?;
    push_sample(&mut samples, AUTUMN, 0, 2, Status::NotEvaluated, 0)?;
    let out = rows(alloc, &samples)?;
    assert!(rt; has_part(&out, ",Cap,violated,7,2,4,\r\n"));
    assert!(rt; has_part(&out, ",Parked,violated,3,,24,hours\r\n"));
    assert!(rt; has_part(&out, ",Slow,not_evaluated,0,,15,kph\r\n"));
    Ok(())
}

// A closed rule has no measure: of such samples none is the least.
#[test]
fn the_least_measure_is_of_open_rules(rt: HostRuntime) -> Result<(), AllocError> {
    let alloc = rt.alloc();
    let mut samples = Vec::new(alloc);
    push_sample(&mut samples, AUTUMN, 0, 0, Status::Ok, 3)?;
    push_sample(&mut samples, AUTUMN, 1, 0, Status::Violated, 1)?;
    push_sample(&mut samples, AUTUMN, 2, 0, Status::Ok, 2)?;
    push_sample(&mut samples, AUTUMN, 3, 0, Status::Inactive, 0)?;
    push_sample(&mut samples, AUTUMN, 3, 1, Status::Inactive, 0)?;
    let out = rows_of_days(alloc, &samples)?;
    let half_past = "2026-11-01T00:30:00-04:00";
    let cap = format!(in alloc;
        "Cap,2026-11-01,4,1,1,{half_past},{half_past},{half_past},{half_past},3,1\r\n"
    )?;
    assert!(rt; has_part(&out, cap.as_str()));
    assert!(rt; has_part(&out, "Parked,2026-11-01,1,0,0,,,,,0,\r\n"));
    Ok(())
}

// At most 4: 7 are 3 too many. At least 2: 1 is 1 too few. Kept at 01:00, and violated from 01:30 on to the end.
#[test]
fn by_how_much_a_count_is_off(rt: HostRuntime) -> Result<(), AllocError> {
    let alloc = rt.alloc();
    let mut samples = Vec::new(alloc);
    push_sample(&mut samples, AUTUMN, 0, 0, Status::Violated, 7)?;
    push_sample(&mut samples, AUTUMN, 1, 0, Status::Violated, 1)?;
    push_sample(&mut samples, AUTUMN, 2, 0, Status::Ok, 4)?;
    push_sample(&mut samples, AUTUMN, 3, 0, Status::Violated, 6)?;
    let page = section(alloc, half_hours(AUTUMN, 0, 3), &samples)?;
    let judged =
        "rule 1: at least 2 and at most 4 vehicles. Violated in 3 of 4 samples. At worst 7 of at most 4: 3 too many. \
        At worst 1 of at least 2: 1 too few.</p>\n<p>Violated at the report's end, and whenever the rule was open since \
        2026-11-01T01:30:00-04:00. Its lines show each time.</p>\n<table>";
    assert!(rt; has_part(&page, judged));
    Ok(())
}

// The rule's document says `hours`, as MDS does of any number.
#[test]
fn one_hour_is_told_in_the_singular(rt: HostRuntime) -> Result<(), AllocError> {
    let alloc = rt.alloc();
    let mut samples = Vec::new(alloc);
    push_sample(&mut samples, AUTUMN, 0, 3, Status::Violated, 2)?;
    let page = section(alloc, half_hours(AUTUMN, 0, 1), &samples)?;
    assert!(rt; has_part(&page, "rule 4: at most 1 hour in one state. "));
    Ok(())
}

// Closed, violated, closed, violated: from the report's first moment on it was never kept. Another rule is kept at the
// end.
#[test]
fn since_when_a_rule_is_violated(rt: HostRuntime) -> Result<(), AllocError> {
    let alloc = rt.alloc();
    let mut samples = Vec::new(alloc);
    push_sample(&mut samples, AUTUMN, 0, 1, Status::Inactive, 0)?;
    push_sample(&mut samples, AUTUMN, 1, 1, Status::Violated, 1)?;
    push_sample(&mut samples, AUTUMN, 2, 0, Status::Violated, 5)?;
    push_sample(&mut samples, AUTUMN, 2, 1, Status::Inactive, 0)?;
    push_sample(&mut samples, AUTUMN, 3, 0, Status::Ok, 4)?;
    push_sample(&mut samples, AUTUMN, 3, 1, Status::Violated, 5)?;
    let page = section(alloc, half_hours(AUTUMN, 0, 3), &samples)?;
    let parked =
        "rule 2: fewer than 24 hours in one state. Violated in 2 of 2 samples in which it was open (4 in all). At worst 5 vehicles at once.</p>\n\
        <p>Violated at the report's end, and whenever the rule was open since \
        2026-11-01T00:30:00-04:00 or before. Its lines show each time.</p>\n";
    assert!(rt; has_part(&page, parked));
    // The other one was violated in the sample before the last.
    let cap =
        "At worst 5 of at most 4: 1 too many.</p>\n<p>Last violated, whenever the rule was open, from \
        2026-11-01T01:00:00-04:00 to 2026-11-01T01:00:00-04:00; it was kept since. \
        Its lines show each time.</p>\n<table>";
    assert!(rt; has_part(&page, cap));
    // It began with the report's second moment: so it wasn't violated before.
    let page = section(alloc, half_hours(AUTUMN, -1, 3), &samples)?;
    assert!(rt; has_part(&page, "since 2026-11-01T00:30:00-04:00. Its lines"));
    Ok(())
}

// Violated, kept, violated, closed, violated and closed at the end: violated from 01:00 to 01:00 again, where that hour is
// shown twice.
#[test]
fn until_when_a_closed_rule_was_violated(rt: HostRuntime) -> Result<(), AllocError> {
    let alloc = rt.alloc();
    let mut samples = Vec::new(alloc);
    push_sample(&mut samples, AUTUMN, 0, 0, Status::Violated, 5)?;
    push_sample(&mut samples, AUTUMN, 1, 0, Status::Ok, 4)?;
    push_sample(&mut samples, AUTUMN, 2, 0, Status::Violated, 6)?;
    push_sample(&mut samples, AUTUMN, 3, 0, Status::Inactive, 0)?;
    push_sample(&mut samples, AUTUMN, 4, 0, Status::Violated, 5)?;
    push_sample(&mut samples, AUTUMN, 5, 0, Status::Inactive, 0)?;
    let page = section(alloc, half_hours(AUTUMN, 0, 5), &samples)?;
    let cap =
        "Violated in 3 of 4 samples in which it was open (6 in all). At worst 6 of at most 4: 2 too many.</p>\n\
        <p>Last violated, whenever the rule was open, from 2026-11-01T01:00:00-04:00 to 2026-11-01T01:00:00-05:00, \
        the last sample in which it was open. Its lines show each time.</p>\n<table>";
    assert!(rt; has_part(&page, cap));
    Ok(())
}

// 01:30, and half an hour later 01:00, as clocks are set back: the mark of each is its own half hour. 23:30 ends at
// midnight.
#[test]
fn marks_where_clocks_are_set_back(rt: HostRuntime) -> Result<(), AllocError> {
    let alloc = rt.alloc();
    let mut samples = Vec::new(alloc);
    push_sample(&mut samples, AUTUMN, 2, 0, Status::Ok, 4)?;
    push_sample(&mut samples, AUTUMN, 3, 0, Status::Violated, 5)?;
    push_sample(&mut samples, AUTUMN, 4, 0, Status::Violated, 5)?;
    push_sample(&mut samples, AUTUMN, 5, 0, Status::Ok, 4)?;
    push_sample(&mut samples, AUTUMN, 49, 0, Status::Inactive, 0)?;
    let page = section(alloc, half_hours(AUTUMN, 2, 49), &samples)?;
    let line =
        "<tr><th>2026-11-01</th><td><svg viewBox=\"0 0 1440 12\" preserveAspectRatio=\"none\">\
        <path d=\"M360 0v12M720 0v12M1080 0v12\"/><rect class=\"kept\" y=\"4\" height=\"4\" x=\"60\" width=\"30\"/>\
        <rect class=\"violated\" y=\"0\" height=\"12\" x=\"90\" width=\"30\"/>\
        <rect class=\"violated\" y=\"0\" height=\"12\" x=\"60\" width=\"30\"/>\
        <rect class=\"kept\" y=\"4\" height=\"4\" x=\"90\" width=\"30\"/>\
        <rect class=\"closed\" y=\"5.5\" height=\"1\" x=\"1410\" width=\"30\"/></svg></td><td>2 of 4</td></tr>\n";
    assert!(rt; has_part(&page, line));
    Ok(())
}

// 01:30, and half an hour later 03:00, as clocks are set forward: from 02:00 to 03:00 there is no mark, since there was no
// such hour. Where an hour isn't sampled, there is none either.
#[test]
fn marks_where_clocks_are_set_forward(rt: HostRuntime) -> Result<(), AllocError> {
    let alloc = rt.alloc();
    let mut samples = Vec::new(alloc);
    push_sample(&mut samples, SPRING, 3, 0, Status::Violated, 5)?;
    push_sample(&mut samples, SPRING, 4, 0, Status::Violated, 5)?;
    push_sample(&mut samples, SPRING, 7, 0, Status::Violated, 5)?;
    let page = section(alloc, half_hours(SPRING, 3, 7), &samples)?;
    let marks = "<rect class=\"violated\" y=\"0\" height=\"12\" x=\"90\" width=\"30\"/>\
        <rect class=\"violated\" y=\"0\" height=\"12\" x=\"180\" width=\"30\"/>\
        <rect class=\"violated\" y=\"0\" height=\"12\" x=\"270\" width=\"30\"/></svg></td><td>3 of 3</td>";
    assert!(rt; has_part(&page, marks));
    Ok(())
}

#[test]
fn a_page_says_what_it_is_about(rt: HostRuntime) -> Result<(), AllocError> {
    let alloc = rt.alloc();
    let zone = Zone::read(NEW_YORK).ok().expect(&rt, "a zone");
    let span = half_hours(AUTUMN, 0, 3).expect(&rt, "a span");
    let head = ReportHead {
        city: b"River & City",
        zone: b"America/New_York (UTC-05:00, in summer UTC-04:00)",
        made: Moment::new(AUTUMN),
        to_come: Moment::new(SPRING),
        program: b"ruffletuff 1.3.0",
        span,
    };
    let out = page_start(alloc, &zone, &head)?;
    let rows = "<tr><th>City</th><td>River &amp; City</td></tr>\n\
        <tr><th>Asked for up to</th><td>2026-03-08T00:00:00-05:00, which was still to come: the report ends when it was \
        made</td></tr>\n\
        <tr><th>Time zone</th><td>America/New_York (UTC-05:00, in summer UTC-04:00)</td></tr>\n\
        <tr><th>First sample</th><td>2026-11-01T00:00:00-04:00</td></tr>\n\
        <tr><th>Last sample</th><td>2026-11-01T01:30:00-04:00</td></tr>\n\
        <tr><th>Sampled every</th><td>30 minutes</td></tr>\n\
        <tr><th>Made</th><td>2026-11-01T00:00:00-04:00</td></tr>\n\
        <tr><th>By</th><td>ruffletuff 1.3.0</td></tr>\n</table>\n";
    assert!(rt; has_part(&out, rows));
    Ok(())
}
