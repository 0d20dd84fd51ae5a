//! The public documents of a hall are made once a publication, however often they are asked for.
ghost use Rattle.server_public.specs.CachedDocuments.{IsFaceOf};

use super::*;
use mds_catalog::Catalogue;
use mds_desk::RoomQuery;
use mds_drafts::Drafts;
use mds_snapshot::Note;
use server_public::{DocumentSource, PublicCache, PublicDocuments};
use server_routes::PublicTarget;
use std::alloc::AllocError;
use std::cell::Cell;

/// A configuration that turns the public documents on.
const OPEN_TO_ALL: &[u8] = br#"{"public":true}"#;

/// Makes the public documents of what the author's room has published.
#[derive(Clone, Copy)]
struct RoomDocuments;

impl RoomQuery for RoomDocuments {
    ghost use Rattle.server_public.specs.CachedDocuments.{IsFaceOf};

    type Told = PublicDocuments;

    ghost tells = { λ _ drafts publications told. IsFaceOf publications told };

    fn run_query(
        &self,
        alloc: Global,
        _drafts: &Drafts,
        catalogue: &Catalogue,
    ) -> Result<PublicDocuments, AllocError> {
        PublicDocuments::new(alloc, catalogue)
    }
}

/// A hall, and how often its public documents were made.
#[derive(Drop)]
struct CountingSource<'a, K: HallName, R> {
    rt: &'a R,
    hall: &'a Hall<K>,
    made: Cell<u32>,
}

impl<K: HallName, R: HallRuntime> DocumentSource<K> for CountingSource<'_, K, R> {
    fn note(&self) -> Option<Note<K>> {
        self.hall.note(self.rt)
    }

    fn documents(&self) -> Result<PublicDocuments, AllocError> {
        self.made.set(self.made.get().wrapping_add(1));
        self.hall.room(self.rt).query(&RoomDocuments)
    }
}

/// Asks for the policies three times, and checks how often documents were made by then.
fn expect_made<K: HallName, R: SharedHallRuntime>(
    rt: &R,
    cache: &PublicCache<K>,
    source: &CountingSource<'_, K, R>,
    wanted: u32,
) {
    let alloc = rt.alloc();
    let asked = parts(alloc, Method::GET, "/mds/2.0/policies", None).expect(rt, "a head");
    for _ in 0..3 {
        let told = cache.respond(rt, alloc, source, PublicTarget::Policies, &asked);
        assert!(rt; told.is_ok());
    }
    assert!(rt; source.made.get() == wanted);
}

/// Checks that documents are made where the cache is opened, and once more behind a publication, by the first that asks.
pub(super) fn made_once<K: HallName, R: SharedHallRuntime>(rt: &R, alloc: Global, hall: &Hall<K>) {
    let source = CountingSource {
        rt,
        hall,
        made: Cell::new(0),
    };
    let opened = PublicCache::open(alloc, OPEN_TO_ALL, &source).expect(rt, "memory");
    let cache = opened.expect(rt, "public documents");
    expect_made(rt, &cache, &source, 1);
    set_up(rt, alloc, hall);
    expect_made(rt, &cache, &source, 2);
}

#[test]
fn documents_are_made_once_a_publication(rt: HostRuntime) -> Result<(), Fail> {
    run_hall_test(&rt, HallTest::PublicDocuments)
}
