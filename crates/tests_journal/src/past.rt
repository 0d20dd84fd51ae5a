//! Tests of replies of the past: what alfa would have been answered at moments of a journal, worked out by hand.
use crate::journal::{OLD, configuration, entries};
use journal_samples::OperatorReplay;
use mds_request::{OperatorCall, Request, Verb};
use mds_text::Moment;
use std::alloc::Global;
use std::process::Abort;
use tests_fixtures::WITHIN;

/// What alfa is answered before anything is published.
const NOTHING: &str = r#"{"at":999,"policies":[],"revision":0,"version":2}"#;

/// What it is answered once the cap is published, and before its first report.
const NONE_YET: &str = concat!(
    r#"{"at":1999,"policies":[{"policy_id":"00000000-0000-4000-8000-000000000201","rules":[{"measure":0,"#,
    r#""rule_id":"00000000-0000-4000-8000-000000000301","status":"ok"}]}],"revision":1,"version":2}"#,
);

/// The body of alfa's reply about its compliance at a moment; `None` where it is none, or memory ran out.
fn compliance_at(alloc: Global, at: i64) -> Option<Vec<u8>> {
    let config = configuration(alloc)?;
    if config.operators().is_empty() {
        return None;
    }
    let Some(asked) = entries(alloc, &config, OLD) else {
        return None;
    };
    let request = Request {
        at: Moment::new(at)?,
        token: b"alfa",
        verb: Verb::Get,
        target: b"/compliance",
        body: b"",
    };
    let Ok(mut replay) = OperatorReplay::new(alloc, &config, 0) else {
        return None;
    };
    let reply = replay.reply(alloc, &asked, &OperatorCall::Compliance, &request);
    reply.ok()?.into_body(alloc).ok()
}

/// That alfa would have been answered this at a moment, where memory doesn't run out.
fn expect_compliance(rt: &impl Abort, alloc: Global, at: i64, wanted: &str) {
    if let Some(body) = compliance_at(alloc, at) {
        assert!(rt; body.as_slice() == wanted.as_bytes());
    }
}

#[test]
fn replies_of_the_past(rt: HostRuntime) {
    let alloc = rt.alloc();
    assert!(&rt; compliance_at(alloc, 2000).is_some());
    expect_compliance(&rt, alloc, 999, NOTHING);
    expect_compliance(&rt, alloc, 1999, NONE_YET);
    expect_compliance(&rt, alloc, 2000, WITHIN.reply);
}

/// More moments than a day has seconds.
const MANY: i64 = 100_000;

/// Each moment below `MANY`, in their order; `None` where memory ran out.
fn many_moments(alloc: Global) -> Option<Vec<Moment>> {
    let mut moments = Vec::new(alloc);
    for at in 0..MANY {
        moments.push(Moment::new(at)?).ok()?;
    }
    Some(moments)
}

/// How many samples alfa has at each moment below `MANY`, where nothing is published; `None` where there are none.
fn count_samples(alloc: Global) -> Option<usize> {
    let config = configuration(alloc)?;
    if config.operators().is_empty() {
        return None;
    }
    let moments = many_moments(alloc)?;
    let Ok(mut replay) = OperatorReplay::new(alloc, &config, 0) else {
        return None;
    };
    let found = replay.samples(alloc, &[], &moments);
    Some(found.ok()?.len())
}

/// As many moments as one likes are sampled.
#[test]
fn many_moments_are_sampled(rt: HostRuntime) {
    assert!(rt; count_samples(rt.alloc()) == Some(0));
}
