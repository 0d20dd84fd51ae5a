//! An operator's question is held at its gate while another operator and the author are answered.
use super::*;
use crate::waiting::is_set_in_time;
use mds_desk::Gate;
use mds_verdict::Plain;
use server_state::respond_with;
use std::sync::atomic::{AtomicBool, Ordering};
use std::thread::{Threads, join};

/// The author's draft of a policy that supersedes the other.
const DRAFT_OF_NEXT: &HallExchange = &HallExchange {
    at: 2000,
    credentials: Some(CITY),
    target: "/drafts/policies/00000000-0000-4000-8000-000000000202",
    body: r#"{"policy_id":"00000000-0000-4000-8000-000000000202","name":"next","start_date":86401000,"prev_policies":["00000000-0000-4000-8000-000000000201"],"rules":[{"rule_id":"00000000-0000-4000-8000-000000000302","name":"cap","rule_type":"count","geographies":["00000000-0000-4000-8000-000000000101"],"maximum":1}]}"#,
    answer: NEW_RESULT,
};

/// Flags between the threads: that the question is held, and that the others have their answers.
#[derive(Drop)]
struct HallSignals {
    held: AtomicBool,
    answered: AtomicBool,
}

/// A gate that holds a question until the others have their answers, and notes whether that was in time.
#[derive(Drop)]
struct HeldQuestionGate<'a> {
    signals: &'a HallSignals,
    in_time: bool,
}

impl Gate for HeldQuestionGate<'_> {
    fn held(&mut self) {
        self.signals.held.store(true, Ordering::SeqCst);
        self.in_time = is_set_in_time(&self.signals.answered);
    }
}

/// A job for a thread of its own.
trait HallJob {
    /// Runs the job, and returns whether it went as it should.
    fn run(self) -> bool;
}

/// Runs a job in a thread of its own, and something else concurrently. Returns the results of both.
fn run_concurrently<R: Threads, E: HallJob + Send + Drop, F: FnOnce() -> bool>(
    rt: &R,
    errand: E,
    meanwhile: F,
) -> (bool, bool)
    requires { F.pre meanwhile }
{
    join(rt, move || -> bool { errand.run() }, meanwhile)
}

/// Alfa's question, held until the others have their answers.
#[derive(Drop)]
struct HeldQuestion<'a, K: HallName, R> {
    rt: &'a R,
    alloc: Global,
    hall: &'a Hall<K>,
    signals: &'a HallSignals,
}

impl<K: HallName, R: HallRuntime> HallJob for HeldQuestion<'_, K, R> {
    /// Whether the question has its answer, and the others had theirs in time while it was held.
    fn run(self) -> bool {
        let Some(asked) = parts(self.alloc, Method::GET, COMPLIANCE, Some(ALFA)) else {
            return false;
        };
        let mut gate = HeldQuestionGate {
            signals: self.signals,
            in_time: false,
        };
        let at = Moment::new(2000);
        let body = whole("");
        let response = respond_with(
            self.rt, self.alloc, &asked, body, at, self.hall, &mut gate, &Plain,
        );
        let is_answered = is_answer(self.rt, response, NONE_COUNTED);
        gate.in_time && is_answered
    }
}

/// Whether bravo's question and then the author's draft are answered while alfa's question is held.
fn are_answered<K: HallName, R: SharedHallRuntime>(
    rt: &R,
    alloc: Global,
    hall: &Hall<K>,
    signals: &HallSignals,
) -> bool {
    if !is_set_in_time(&signals.held) {
        return false;
    }
    let all = answers(rt, alloc, hall, Method::GET, QUESTION_OF_BRAVO)
        && answers(rt, alloc, hall, Method::PUT, DRAFT_OF_NEXT);
    signals.answered.store(all, Ordering::SeqCst);
    all
}

pub(super) fn during_a_held_question<K: SharedHallName, R: SharedHallRuntime>(
    rt: &R,
    alloc: Global,
    hall: &Hall<K>,
) {
    set_up(rt, alloc, hall);
    let signals = HallSignals {
        held: AtomicBool::new(false),
        answered: AtomicBool::new(false),
    };
    let question = HeldQuestion {
        rt,
        alloc,
        hall,
        signals: &signals,
    };
    let (held, answered) = run_concurrently(
        rt,
        question,
        || are_answered(rt, alloc, hall, &signals),
    );
    assert!(rt; answered);
    assert!(rt; held);
}

#[test]
fn others_are_answered_during_a_held_question(rt: HostRuntime) -> Result<(), Fail> {
    run_hall_test(&rt, HallTest::BesideAHeldQuestion)
}
