//! A geography, read and served with one allocation refused.
use crate::square::{id_of, position};
use mds_geography::Geography;
use mds_text::{Moment, Tree, print_tree};
use std::alloc::{AllocError, Global};
use std::process::Abort;

/// A geography of two features, and the text as which it is served with a moment of publication.
const FEATURES: &[u8] =
    br#"{"geography_id":"00000000-0000-4000-8000-000000000101","name":"n","description":"d","geography_json":{"type":"FeatureCollection","features":[{"type":"Feature","geometry":{"type":"Polygon","coordinates":[[[0,0],[1.5,0],[1,1],[0,0]]]}},{"type":"Feature","geometry":{"type":"MultiPolygon","coordinates":[[[[2,2],[3,2],[3,3],[2,2]]]]}}]}}"#;

const SERVED: &[u8] =
    br#"{"description":"d","geography_id":"00000000-0000-4000-8000-000000000101","geography_json":{"features":[{"geometry":{"coordinates":[[[[0,0],[1.5,0],[1,1],[0,0]]],[[[2,2],[3,2],[3,3],[2,2]]]],"type":"MultiPolygon"},"properties":null,"type":"Feature"}],"type":"FeatureCollection"},"name":"n","published_date":1000}"#;

/// The geography, read a second time where memory ran out.
fn features(rt: &impl Abort, alloc: Global) -> Geography {
    match Geography::read(alloc, FEATURES) {
        Ok(geography) => geography,
        Err(_) => Geography::read(alloc, FEATURES).expect(rt, "a geography"),
    }
}

/// The tree as which it is served, made a second time where memory ran out.
fn served_tree(rt: &impl Abort, alloc: Global, geography: &Geography) -> Tree {
    match geography.served(alloc, Moment::new(1000)) {
        Ok(tree) => tree,
        Err(_) => geography
            .served(alloc, Moment::new(1000))
            .expect(rt, "memory"),
    }
}

/// The printed tree, printed a second time where memory ran out.
fn print_at_last(alloc: Global, tree: &Tree) -> Result<Vec<u8>, AllocError> {
    match print_tree(alloc, tree) {
        Ok(printed) => Ok(printed),
        Err(_) => print_tree(alloc, tree),
    }
}

/// Positions in units of 10^-7 degree, and whether the features hold them.
const HELD: &[((i64, i64), bool)] = &[
    ((0, 0), true),
    ((10_000_000, 10_000_000), true),
    ((30_000_000, 30_000_000), true),
    ((15_000_000, 15_000_000), false),
];

/// With one allocation refused, whichever it is, a text is read, served and printed or memory runs out; a second call
/// succeeds.
#[test]
fn reads_and_serves_or_runs_out_of_memory(rt: HostRuntime) {
    let alloc = rt.alloc();
    let geography = features(&rt, alloc);
    assert!(rt; geography.id() == id_of(&rt, "00000000-0000-4000-8000-000000000101"));
    assert!(rt; geography.polygons().len() == 2);
    for (at, wanted) in HELD {
        let at = position(&rt, at.0, at.1);
        assert!(rt; geography.holds(at) == *wanted && geography.area().holds(at) == *wanted);
    }
    let served = served_tree(&rt, alloc, &geography);
    assert!(rt;
        print_at_last(alloc, &served)
            .expect(&rt, "memory")
            .as_slice()
            == SERVED
    );
}
