//! Worked scripts, one request after another.
use super::*;
use crate::counting::CountingEvaluator;

const TOKEN: &str = r#"{"error":"token"}"#;

/// The other operator asks long afterwards, and has no vehicle of its own.
const FAR: &DeskExchange = &DeskExchange {
    at: 4000000000000,
    token: "bravo",
    verb: Verb::Get,
    target: "/compliance",
    body: "",
    success: r#"{"at":4000000000000,"policies":[{"policy_id":"00000000-0000-4000-8000-000000000201","rules":[{"measure":0,"rule_id":"00000000-0000-4000-8000-000000000301","status":"ok"}]}],"revision":1,"version":2}"#,
};

const TOO_EARLY: &DeskExchange = &DeskExchange {
    at: 999,
    token: "alfa",
    verb: Verb::Get,
    target: "/compliance",
    body: "",
    success: r#"{"at":999,"policies":[],"revision":1,"version":2}"#,
};

struct AnotherToken;

impl DeskTest for AnotherToken {
    fn run_test<K: OpeningName, R: TestRuntime>(
        &self,
        rt: &R,
        _alloc: Global,
        room: &mut AuthorRoom<K>,
        alfa: &mut Desk<K>,
        _bravo: &mut Desk<K>,
    ) -> Result<bool, AllocError> {
        assert_refused(rt, &desk_reply(rt, alfa, NOTHING_FOR_BRAVO), 401, TOKEN);
        assert_unnoted(rt, &room_turn(rt, room, NOTHING_FOR_ALFA), 401, TOKEN);
        assert_answers(rt, alfa, NOTHING_FOR_ALFA);
        Ok(true)
    }
}

#[test]
fn another_token_is_refused(rt: HostRuntime) -> Result<(), Fail> {
    assert!(rt; furnish_and_run(&rt, rt.alloc(), &AnotherToken)?);
    Ok(())
}

struct FirstSession;

impl DeskTest for FirstSession {
    fn run_test<K: OpeningName, R: TestRuntime>(
        &self,
        rt: &R,
        _alloc: Global,
        room: &mut AuthorRoom<K>,
        alfa: &mut Desk<K>,
        _bravo: &mut Desk<K>,
    ) -> Result<bool, AllocError> {
        set_up_for(rt, room, alfa);
        assert_answers_each(rt, alfa, LINES);
        Ok(true)
    }
}

#[test]
fn answers_a_first_session(rt: HostRuntime) -> Result<(), Fail> {
    assert!(rt; furnish_and_run(&rt, rt.alloc(), &FirstSession)?);
    Ok(())
}

struct MomentsGoBack;

impl DeskTest for MomentsGoBack {
    fn run_test<K: OpeningName, R: TestRuntime>(
        &self,
        rt: &R,
        _alloc: Global,
        room: &mut AuthorRoom<K>,
        alfa: &mut Desk<K>,
        bravo: &mut Desk<K>,
    ) -> Result<bool, AllocError> {
        let note = set_up(rt, room);
        alfa.learn(&note);
        bravo.learn(&note.again());
        assert_answers(rt, alfa, REPORT_FIRST);
        assert_answers(rt, bravo, FAR);
        assert_answers(rt, alfa, WITHIN);
        assert_answers(rt, alfa, TOO_EARLY);
        Ok(true)
    }
}

/// A desk counts the vehicles of its own operator, and a request's moment may lie before an earlier
/// one's.
#[test]
fn counts_its_own_vehicles_at_any_moment(rt: HostRuntime) -> Result<(), Fail> {
    assert!(rt; furnish_and_run(&rt, rt.alloc(), &MomentsGoBack)?);
    Ok(())
}

const SERVED: &[&DeskExchange; 2] = &[GEOGRAPHIES, POLICY];

struct ServedDocuments;

impl DeskTest for ServedDocuments {
    fn run_test<K: OpeningName, R: TestRuntime>(
        &self,
        rt: &R,
        _alloc: Global,
        room: &mut AuthorRoom<K>,
        alfa: &mut Desk<K>,
        _bravo: &mut Desk<K>,
    ) -> Result<bool, AllocError> {
        set_up_for(rt, room, alfa);
        let requests = two_requests(rt, SERVED);
        let replies = alfa.run(&requests, &mut OpenGate, &Plain)?;
        assert_successes(rt, &replies, SERVED);
        Ok(true)
    }
}

#[test]
fn serves_what_it_learnt(rt: HostRuntime) -> Result<(), Fail> {
    assert!(rt; furnish_and_run(&rt, rt.alloc(), &ServedDocuments)?);
    Ok(())
}

struct GivenEvaluator;

impl DeskTest for GivenEvaluator {
    fn run_test<K: OpeningName, R: TestRuntime>(
        &self,
        rt: &R,
        _alloc: Global,
        room: &mut AuthorRoom<K>,
        alfa: &mut Desk<K>,
        _bravo: &mut Desk<K>,
    ) -> Result<bool, AllocError> {
        set_up_for(rt, room, alfa);
        let counting = CountingEvaluator::new();
        let question = request(moment(rt, NONE_FOR_ALFA), NONE_FOR_ALFA);
        let reply = alfa.answer(&question, &mut OpenGate, &counting);
        assert_success(rt, &reply, NONE_FOR_ALFA);
        assert!(rt; counting.policies() == 1);
        Ok(true)
    }
}

/// A desk evaluates by the evaluator that it is given, and by no other.
#[test]
fn evaluates_by_the_given_evaluator(rt: HostRuntime) -> Result<(), Fail> {
    assert!(rt; furnish_and_run(&rt, rt.alloc(), &GivenEvaluator)?);
    Ok(())
}

struct RepeatedQuestion;

impl DeskTest for RepeatedQuestion {
    fn run_test<K: OpeningName, R: TestRuntime>(
        &self,
        rt: &R,
        _alloc: Global,
        room: &mut AuthorRoom<K>,
        alfa: &mut Desk<K>,
        _bravo: &mut Desk<K>,
    ) -> Result<bool, AllocError> {
        set_up_for(rt, room, alfa);
        assert_answers(rt, alfa, REPORT_FIRST);
        assert_answers(rt, alfa, REPORT_SECOND);
        let counting = CountingEvaluator::new();
        for _ in 0..3 {
            let question = request(moment(rt, EXCEEDED), EXCEEDED);
            let reply = alfa.answer(&question, &mut OpenGate, &counting);
            assert_success(rt, &reply, EXCEEDED);
        }
        assert!(rt; counting.policies() == 1);
        Ok(true)
    }
}

/// A policy is evaluated at the first question: further ones are answered by what the desk has kept since.
#[test]
fn evaluates_once_what_is_asked_again(rt: HostRuntime) -> Result<(), Fail> {
    assert!(rt; furnish_and_run(&rt, rt.alloc(), &RepeatedQuestion)?);
    Ok(())
}
