//! Drafts and their publication, with one allocation refused.
use crate::square::{id_of, instant, position};
use mds_catalog::{Batch, Catalogue};
use mds_drafts::{Draft, Drafts, PublishFault, PublishList, Put, PutFault};
use mds_geography::Geography;
use mds_match::Places;
use mds_policy::Policy;
use mds_text::DraftKind;
use std::alloc::Global;
use std::process::Abort;
use std::sync::Arc;
use tests_fixtures::{CAP, PUBLISH, SQUARE};

const SQUARE_ID: &str = "00000000-0000-4000-8000-000000000101";

const CAP_ID: &str = "00000000-0000-4000-8000-000000000201";

fn square(alloc: Global) -> Option<Draft> {
    let square = Geography::read(alloc, SQUARE.as_bytes()).ok()?;
    Some(Draft::Geography(Arc::new(alloc, square).ok()?))
}

fn cap(alloc: Global) -> Option<Draft> {
    let cap = Policy::read(alloc, CAP.as_bytes()).ok()?;
    Some(Draft::Policy(Arc::new(alloc, cap).ok()?))
}

/// A draft of this kind; `None` where memory ran out.
fn draft(alloc: Global, kind: DraftKind) -> Option<Draft> {
    match kind {
        DraftKind::Policy => cap(alloc),
        DraftKind::Geography => square(alloc),
    }
}

/// A draft of this kind, made a second time where memory ran out.
fn draft_at_last(rt: &impl Abort, alloc: Global, kind: DraftKind) -> Draft {
    match draft(alloc, kind) {
        Some(draft) => draft,
        None => draft(alloc, kind).expect(rt, "a draft"),
    }
}

/// Puts a new draft. Where memory runs out no draft is there, and a second call puts it.
fn expect_new(rt: &impl Abort, alloc: Global, drafts: &mut Drafts, kind: DraftKind, id: &str) {
    let mut put = drafts.put(draft_at_last(rt, alloc, kind));
    if put == Err(PutFault::NoMemory) {
        assert!(rt; drafts.get(kind, id_of(rt, id)).is_none());
        put = drafts.put(draft_at_last(rt, alloc, kind));
    }
    assert!(rt; put == Ok(Put::New));
    let held = drafts.get(kind, id_of(rt, id)).expect(rt, "a draft");
    assert!(rt; held.kind() == kind && held.id() == id_of(rt, id));
}

/// Drafts of the square and of the cap.
fn two_drafts(rt: &impl Abort, alloc: Global) -> Drafts {
    let mut drafts = Drafts::new(alloc);
    expect_new(rt, alloc, &mut drafts, DraftKind::Geography, SQUARE_ID);
    expect_new(rt, alloc, &mut drafts, DraftKind::Policy, CAP_ID);
    drafts
}

/// With one allocation refused, whichever it is, a draft is put or memory runs out; a second call puts it. Replacing
/// and dropping it need no memory.
#[test]
fn puts_or_runs_out_of_memory(rt: HostRuntime) {
    let mut drafts = two_drafts(&rt, rt.alloc());
    let again = draft_at_last(&rt, rt.alloc(), DraftKind::Policy);
    assert!(rt; drafts.put(again) == Ok(Put::Replaced));
    assert!(rt;
        drafts
            .drop_draft(DraftKind::Policy, id_of(&rt, CAP_ID))
            .is_ok()
    );
    assert!(rt;
        drafts
            .drop_draft(DraftKind::Policy, id_of(&rt, CAP_ID))
            .is_err()
    );
}

/// The publish request that names both drafts, read a second time where memory ran out.
fn both(rt: &impl Abort, alloc: Global) -> PublishList {
    match PublishList::read(alloc, PUBLISH.body.as_bytes()) {
        Ok(list) => list,
        Err(_) => PublishList::read(alloc, PUBLISH.body.as_bytes()).expect(rt, "a list"),
    }
}

/// An empty catalogue, made a second time where memory ran out.
fn catalogue(rt: &impl Abort, alloc: Global) -> Catalogue {
    match Catalogue::with_room(alloc) {
        Ok(catalogue) => catalogue,
        Err(_) => Catalogue::with_room(alloc).expect(rt, "memory"),
    }
}

/// The batch of both drafts, at 1000; `None` where memory ran out.
fn batch(
    rt: &impl Abort,
    alloc: Global,
    drafts: &Drafts,
    list: &PublishList,
    catalogue: &Catalogue,
) -> Option<Arc<Batch>> {
    match drafts.batch(alloc, list, catalogue, instant(rt, 1000)) {
        Ok(batch) => Arc::new(alloc, batch).ok(),
        Err(fault) => {
            assert!(rt; fault == PublishFault::NoMemory);
            None
        }
    }
}

/// The batch of both drafts, made a second time where memory ran out.
fn batch_at_last(
    rt: &impl Abort,
    alloc: Global,
    drafts: &Drafts,
    catalogue: &Catalogue,
) -> Arc<Batch> {
    let list = both(rt, alloc);
    assert!(rt; !list.is_empty());
    match batch(rt, alloc, drafts, &list, catalogue) {
        Some(batch) => batch,
        None => batch(rt, alloc, drafts, &list, catalogue).expect(rt, "a batch"),
    }
}

/// Absorbs a lawful batch, at the second try at the latest. It isn't lawful afterwards: absorbing it again changes
/// nothing.
fn expect_absorbed(rt: &impl Abort, catalogue: &mut Catalogue, batch: &Arc<Batch>) {
    assert!(rt; catalogue.lawful(batch));
    if catalogue.absorb(batch).is_err() {
        assert!(rt; catalogue.revision() == 0);
        assert!(rt; catalogue.absorb(batch).is_ok());
    }
    assert!(rt; catalogue.revision() == 1 && !catalogue.lawful(batch));
    assert!(rt; catalogue.absorb(batch).is_ok() && catalogue.revision() == 1);
}

/// With one allocation refused, whichever it is, a batch is made or memory runs out; a second call makes it. Taking
/// its drafts out and adopting it need no memory.
#[test]
fn publishes_or_runs_out_of_memory(rt: HostRuntime) {
    let alloc = rt.alloc();
    let mut drafts = two_drafts(&rt, alloc);
    let mut adopting = catalogue(&rt, alloc);
    let mut absorbing = catalogue(&rt, alloc);
    let batch = batch_at_last(&rt, alloc, &drafts, &adopting);
    expect_absorbed(&rt, &mut absorbing, &batch);
    drafts.take_out(&batch);
    assert!(rt;
        drafts
            .get(DraftKind::Geography, id_of(&rt, SQUARE_ID))
            .is_none()
    );
    assert!(rt; drafts.get(DraftKind::Policy, id_of(&rt, CAP_ID)).is_none());
    adopting.adopt(batch);
    assert!(rt; adopting.revision() == 1 && adopting.policy(id_of(&rt, CAP_ID)).is_some());
}

/// Checks that the square and the cap can be borrowed, each under its own kind alone, and that the square holds a
/// position in it while no geography under the cap's identifier does.
fn expect_borrowed(rt: &impl Abort, alloc: Global, catalogue: &Catalogue) {
    let policies = catalogue.policies(alloc, None).expect(rt, "memory");
    let geographies = catalogue.geographies(alloc).expect(rt, "memory");
    assert!(rt; policies.len() == 1 && geographies.len() == 1);
    assert!(rt; catalogue.policy(id_of(rt, SQUARE_ID)).is_none());
    assert!(rt; catalogue.geography(id_of(rt, CAP_ID)).is_none());
    let within = position(rt, 50_000_000, 50_000_000);
    assert!(rt; catalogue.holds(id_of(rt, SQUARE_ID), within));
    assert!(rt; !catalogue.holds(id_of(rt, CAP_ID), within));
}

#[test]
fn borrows_what_is_published(rt: HostRuntime) {
    let alloc = rt.alloc();
    let drafts = two_drafts(&rt, alloc);
    let mut catalogue = catalogue(&rt, alloc);
    let batch = batch_at_last(&rt, alloc, &drafts, &catalogue);
    catalogue.adopt(batch);
    expect_borrowed(&rt, alloc, &catalogue);
}
