//! A publisher, its panes and its notes.
ghost use Rattle.std.specs.Prelude.{◌≡◌};
ghost use Rattle.mds_snapshot.specs.Opening.{book_of};

use crate::runtime::TestRuntime;
use mds_catalog::{Batch, Catalogue};
use mds_geography::Geography;
use mds_policy::Policy;
use mds_snapshot::{Blank, Note, OpenFault, OpeningName, Pane, Publisher, open, prepare};
use mds_text::{Id, Moment};
use std::alloc::{AllocError, Global};
use std::marker::Brand;
use std::process::Abort;
use std::sync::Arc;
use std::test::Fail;

const G1: &str = "00000000-0000-4000-8000-000000000101";

const P1: &str = "00000000-0000-4000-8000-000000000201";

const P2: &str = "00000000-0000-4000-8000-000000000202";

/// A policy on the square, and `NEXT`, another that supersedes it.
const CAP: &[u8] =
    br#"{"policy_id":"00000000-0000-4000-8000-000000000201","name":"cap","start_date":1000,"rules":[{"rule_id":"00000000-0000-4000-8000-000000000301","name":"cap","rule_type":"count","geographies":["00000000-0000-4000-8000-000000000101"],"maximum":1}]}"#;

const NEXT: &[u8] =
    br#"{"policy_id":"00000000-0000-4000-8000-000000000202","name":"next","start_date":86401000,"prev_policies":["00000000-0000-4000-8000-000000000201"],"rules":[{"rule_id":"00000000-0000-4000-8000-000000000302","name":"cap","rule_type":"count","geographies":["00000000-0000-4000-8000-000000000101"],"maximum":1}]}"#;

const SQUARE: &[u8] =
    br#"{"geography_id":"00000000-0000-4000-8000-000000000101","name":"square","geography_json":{"type":"Polygon","coordinates":[[[0,0],[10,0],[10,10],[0,10],[0,0]]]}}"#;

fn id(rt: &impl Abort, text: &str) -> Id {
    Id::read(text).expect(rt, "an identifier")
}

/// The square alone; `None` where memory ran out.
fn geographies(alloc: Global) -> Option<Vec<Arc<Geography>>> {
    let square = Geography::read(alloc, SQUARE).ok()?;
    let square = Arc::new(alloc, square).ok()?;
    vec![in alloc; square].ok()
}

/// The policy of this text alone; `None` where memory ran out.
fn policies(alloc: Global, text: &[u8]) -> Option<Vec<Arc<Policy>>> {
    let policy = Policy::read(alloc, text).ok()?;
    let policy = Arc::new(alloc, policy).ok()?;
    vec![in alloc; policy].ok()
}

/// A batch of these documents; `None` where memory ran out.
fn batch(
    alloc: Global,
    at: Moment,
    geographies: Vec<Arc<Geography>>,
    policies: Vec<Arc<Policy>>,
) -> Option<Arc<Batch>> {
    let batch = Batch::new(alloc, at, geographies, policies, Vec::new(alloc)).ok()?;
    Arc::new(alloc, batch).ok()
}

/// A batch of the first policy with the square; `None` where memory ran out.
fn first(alloc: Global) -> Option<Arc<Batch>> {
    let at = Moment::new(1000)?;
    let policies = policies(alloc, CAP)?;
    batch(alloc, at, geographies(alloc)?, policies)
}

/// A batch of the policy that supersedes it, a second later; `None` where memory ran out.
fn second(alloc: Global) -> Option<Arc<Batch>> {
    let at = Moment::new(2000)?;
    let policies = policies(alloc, NEXT)?;
    batch(alloc, at, Vec::new(alloc), policies)
}

fn both(alloc: Global) -> Option<(Arc<Batch>, Arc<Batch>)> {
    Some((first(alloc)?, second(alloc)?))
}

/// Publishes a batch, once it is checked to be lawful.
fn publish<K: OpeningName, R: TestRuntime>(
    rt: &R,
    publisher: &mut Publisher<K>,
    batch: &Arc<Batch>,
) -> Result<Note<K>, AllocError> {
    assert!(rt; publisher.catalogue().lawful(batch));
    publisher.publish(rt, Arc::try_clone(batch)?)
}

/// Publishes a batch, once it is checked to be lawful. Publishing needs no memory.
fn publish_lawful<K: OpeningName, R: TestRuntime>(
    rt: &R,
    publisher: &mut Publisher<K>,
    batch: &Arc<Batch>,
) -> Note<K> {
    publish(rt, publisher, batch).expect(rt, "a note")
}

/// Checks that a catalogue has the first so many batches: the square and the first policy, then the other policy.
fn assert_front(rt: &impl Abort, catalogue: &Catalogue, length: u64) {
    assert!(rt; catalogue.revision() == length);
    assert!(rt; catalogue.geography(id(rt, G1)).is_some() == (length >= 1));
    assert!(rt; catalogue.policy(id(rt, P1)).is_some() == (length >= 1));
    assert!(rt; catalogue.policy(id(rt, P2)).is_some() == (length >= 2));
}

/// Takes a look and leaves it, and checks that it shows so many batches.
fn expect_shown<K: OpeningName>(rt: &impl Abort, pane: Pane<K>, length: u64) -> Pane<K> {
    match pane.look() {
        Ok(look) => {
            assert_front(rt, look.catalogue(), length);
            look.leave()
        }
        Err(_) => panic!(rt; "not shown"),
    }
}

/// Learns a note, and checks that the next look shows so many batches.
fn learn_and_expect<K: OpeningName>(
    rt: &impl Abort,
    mut pane: Pane<K>,
    note: &Note<K>,
    length: u64,
) -> Pane<K> {
    pane.learn(note);
    expect_shown(rt, pane, length)
}

#[test]
fn notes_reach_each_pane(rt: HostRuntime) -> Result<(), Fail> {
    let blank = prepare(rt.alloc())?;
    open_two_panes::<Brand, _>(&rt, rt.alloc(), blank)
}

fn open_two_panes<K: OpeningName, R: TestRuntime>(
    rt: &R,
    alloc: Global,
    blank: Blank,
) -> Result<(), Fail>
    requires { book_of blank ≡ K.book }
{
    let (mut publisher, panes) = open::<K, R>(rt, alloc, blank, 2)?;
    let batches = both(alloc).expect(rt, "batches");
    let pane = in_turn(rt, &mut publisher, panes, &batches);
    publisher.finish(rt);
    assert!(rt; pane.look().is_err());
    Ok(())
}

/// A pane after its first look, which shows nothing published.
fn unpublished_pane<K: OpeningName>(rt: &impl Abort, panes: &mut Vec<Pane<K>>) -> Pane<K> {
    expect_shown(rt, panes.pop().expect(rt, "a pane"), 0)
}

fn in_turn<K: OpeningName, R: TestRuntime>(
    rt: &R,
    publisher: &mut Publisher<K>,
    mut panes: Vec<Pane<K>>,
    batches: &(Arc<Batch>, Arc<Batch>),
) -> Pane<K> {
    assert!(rt; panes.len() == 2);
    let left = unpublished_pane(rt, &mut panes);
    let right = unpublished_pane(rt, &mut panes);
    let note = publish_lawful(rt, publisher, &batches.0);
    let right = learn_and_expect(rt, right, &note.again(), 1);
    let left = learn_and_expect(rt, left, &note, 1);
    learn_late(rt, publisher, &batches.1, left, &note);
    expect_shown(rt, right, 2)
}

/// Checks that an older note takes nothing away from what a pane learnt.
fn learn_late<K: OpeningName, R: TestRuntime>(
    rt: &R,
    publisher: &mut Publisher<K>,
    batch: &Arc<Batch>,
    mut pane: Pane<K>,
    older: &Note<K>,
) {
    pane.learn(&publish_lawful(rt, publisher, batch));
    learn_and_expect(rt, pane, older, 2);
    assert_front(rt, publisher.catalogue(), 2);
}

/// With one allocation refused, whichever it is: opening may run out of memory; publications, notes, learning and
/// looks need none.
#[test]
fn survives_out_of_memory(rt: HostRuntime) -> Result<(), Fail> {
    let alloc = rt.alloc();
    let batches = match both(alloc) {
        Some(batches) => batches,
        None => both(alloc).ok_or("batches")?,
    };
    prepare_at_last(&rt, alloc, &batches)
}

/// Prepares a blank, at the second try at the latest, and opens it.
fn prepare_at_last<R: TestRuntime>(
    rt: &R,
    alloc: Global,
    batches: &(Arc<Batch>, Arc<Batch>),
) -> Result<(), Fail> {
    let blank = match prepare(alloc) {
        Ok(blank) => blank,
        Err(_) => prepare(alloc)?,
    };
    open_or_out_of_memory::<Brand, R>(rt, alloc, blank, batches);
    Ok(())
}

fn open_or_out_of_memory<K: OpeningName, R: TestRuntime>(
    rt: &R,
    alloc: Global,
    blank: Blank,
    batches: &(Arc<Batch>, Arc<Batch>),
)
    requires { book_of blank ≡ K.book }
{
    match open::<K, R>(rt, alloc, blank, 64) {
        Ok((mut publisher, panes)) => {
            let pane = at_each_pane(rt, &mut publisher, panes, &batches.0);
            let mut closed = publisher.into_closed();
            expect_refusals(rt, &mut closed, pane, &batches.1);
            closed.finish(rt);
        }
        Err(fault) => assert!(rt; fault == OpenFault::NoMemory),
    }
}

/// Publishes a batch, has each pane learn of it, and returns one of the panes.
fn at_each_pane<K: OpeningName, R: TestRuntime>(
    rt: &R,
    publisher: &mut Publisher<K>,
    mut panes: Vec<Pane<K>>,
    batch: &Arc<Batch>,
) -> Pane<K> {
    assert!(rt; panes.len() == 64);
    let note = publish_lawful(rt, publisher, batch);
    let kept = learn_and_expect(rt, panes.pop().expect(rt, "a pane"), &note, 1);
    for pane in panes {
        learn_and_expect(rt, pane, &note.again(), 1);
    }
    assert_front(rt, publisher.catalogue(), 1);
    kept
}

/// Checks that a closed publisher refuses every batch, and keeps its list and its catalogue.
fn expect_refusals<K: OpeningName, R: TestRuntime>(
    rt: &R,
    closed: &mut Publisher<K>,
    pane: Pane<K>,
    batch: &Arc<Batch>,
) {
    for _ in 0..2 {
        assert!(rt; publish(rt, closed, batch).is_err());
    }
    expect_shown(rt, pane, 1);
    assert_front(rt, closed.catalogue(), 1);
}
