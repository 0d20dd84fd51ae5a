//! Looks at what is published: how many there are, and what they show before and after a
//! publication.
use super::*;
use mds_desk::Gate;

pub(super) const EMPTY: &str = r#"{"policies":[],"revision":0}"#;

pub(super) const POLICIES: &DeskExchange = &DeskExchange {
    at: 1000,
    token: "alfa",
    verb: Verb::Get,
    target: "/policies",
    body: "",
    success: r#"{"policies":[{"name":"cap","policy_id":"00000000-0000-4000-8000-000000000201","published_date":1000,"rules":[{"geographies":["00000000-0000-4000-8000-000000000101"],"maximum":1,"name":"cap","rule_id":"00000000-0000-4000-8000-000000000301","rule_type":"count"}],"start_date":1000}],"revision":1}"#,
};

/// A gate that counts the looks at which it is called.
#[derive(Drop)]
struct CountingGate {
    looks: u64,
}

impl CountingGate {
    fn assert_looks(&self, rt: &impl Abort, looks: u64) {
        assert!(rt; self.looks == looks);
    }
}

impl Gate for CountingGate {
    fn held(&mut self) {
        self.looks = self.looks.saturating_add(1);
    }
}

const QUESTIONS: &[&DeskExchange; 2] = &[GEOGRAPHIES, POLICIES];

struct EachLook;

impl DeskTest for EachLook {
    fn run_test<K: OpeningName, R: TestRuntime>(
        &self,
        rt: &R,
        _alloc: Global,
        room: &mut AuthorRoom<K>,
        alfa: &mut Desk<K>,
        _bravo: &mut Desk<K>,
    ) -> Result<bool, AllocError> {
        set_up_for(rt, room, alfa);
        let requests = two_requests(rt, QUESTIONS);
        let mut gate = CountingGate { looks: 0 };
        let replies = alfa.run(&requests, &mut gate, &Plain)?;
        assert_successes(rt, &replies, QUESTIONS);
        gate.assert_looks(rt, 2);
        Ok(true)
    }
}

/// There is one look for each request.
#[test]
fn a_gate_is_called_at_each_look(rt: HostRuntime) -> Result<(), Fail> {
    assert!(rt; furnish_and_run(&rt, rt.alloc(), &EachLook)?);
    Ok(())
}

/// The revision of a reply that lists the policies, which is checked to be the list at this
/// revision.
fn revision(rt: &impl Abort, reply: &SharedReply) -> u64 {
    if is_reply(reply, 200, EMPTY) {
        0
    } else {
        assert_success(rt, reply, POLICIES);
        1
    }
}

/// The revision at which a desk lists the policies now.
fn revision_at<K: OpeningName>(rt: &impl Abort, desk: &mut Desk<K>) -> u64 {
    revision(rt, &desk_reply(rt, desk, POLICIES))
}

/// Checks that a desk's revision doesn't go back.
fn assert_goes_on<K: OpeningName>(rt: &impl Abort, desk: &mut Desk<K>) {
    let before = revision_at(rt, desk);
    assert!(rt; before <= revision_at(rt, desk));
}

struct PublicationBetween;

impl DeskTest for PublicationBetween {
    fn run_test<K: OpeningName, R: TestRuntime>(
        &self,
        rt: &R,
        _alloc: Global,
        room: &mut AuthorRoom<K>,
        alfa: &mut Desk<K>,
        _bravo: &mut Desk<K>,
    ) -> Result<bool, AllocError> {
        assert!(rt; revision_at(rt, alfa) == 0);
        let note = set_up(rt, room);
        assert_goes_on(rt, alfa);
        alfa.learn(&note);
        assert_answers(rt, alfa, POLICIES);
        Ok(true)
    }
}

/// A desk may see a publication of which it hasn't learnt, and goes on to see it then. It sees one
/// of which it has learnt.
#[test]
fn a_publication_between_looks(rt: HostRuntime) -> Result<(), Fail> {
    assert!(rt; furnish_and_run(&rt, rt.alloc(), &PublicationBetween)?);
    Ok(())
}

/// A request whose target is no call's.
const NOWHERE: &DeskExchange = &DeskExchange {
    at: 1000,
    token: "alfa",
    verb: Verb::Get,
    target: "/nowhere",
    body: "",
    success: "",
};

struct WithoutALook;

impl DeskTest for WithoutALook {
    fn run_test<K: OpeningName, R: TestRuntime>(
        &self,
        rt: &R,
        _alloc: Global,
        _room: &mut AuthorRoom<K>,
        alfa: &mut Desk<K>,
        _bravo: &mut Desk<K>,
    ) -> Result<bool, AllocError> {
        let nowhere = request(moment(rt, NOWHERE), NOWHERE);
        let mut gate = CountingGate { looks: 0 };
        let reply = alfa.answer(&nowhere, &mut gate, &Plain);
        assert_refused(rt, &reply, 404, r#"{"error":"no_route"}"#);
        gate.assert_looks(rt, 0);
        Ok(true)
    }
}

/// What the table of calls refuses needs no look at what is published.
#[test]
fn refuses_without_a_look(rt: HostRuntime) -> Result<(), Fail> {
    assert!(rt; furnish_and_run(&rt, rt.alloc(), &WithoutALook)?);
    Ok(())
}
