//! An area worked out by hand, with one allocation refused. Scripts test areas of many forms (`tests/replays.py`).
use crate::square::position;
use mds_geometry::{
    Area, MOST_LATITUDE, Polygon, Position, Ring, RingFault, area_holds, coordinate_of,
};
use mds_text::{Field, TextFault, Tree};
use std::alloc::{AllocError, Global};
use std::process::Abort;

/// A corner as longitude and latitude in units of 10^-7 degree.
type Corner = (i64, i64);

const SQUARE: &[Corner] = &[(0, 0), (16, 0), (16, 16), (0, 16), (0, 0)];

const HOLE: &[Corner] = &[(4, 4), (8, 4), (8, 8), (4, 8), (4, 4)];

/// A ring that fills part of the hole.
const FILLING: &[Corner] = &[(5, 5), (7, 5), (7, 7), (5, 7), (5, 5)];

const AREA: &[&[&[Corner]]] = &[&[SQUARE, HOLE], &[FILLING]];

/// Positions, and whether the area and its first polygon hold them: inside, on an edge, in the filled part of the
/// hole, outside.
const HELD: &[(Corner, bool, bool)] = &[
    ((2, 2), true, true),
    ((0, 16), true, true),
    ((4, 6), true, true),
    ((8, 8), true, true),
    ((6, 6), true, false),
    ((5, 6), true, false),
    ((4, 3), true, true),
    ((5, 8), true, true),
    ((7, 8), true, true),
    ((-1, 16), false, false),
    ((17, 8), false, false),
    ((8, -1), false, false),
];

fn ring(rt: &impl Abort, alloc: Global, corners: &[Corner]) -> Result<Ring, AllocError> {
    let mut positions = Vec::new(alloc);
    for corner in corners {
        positions.push(position(rt, corner.0, corner.1))?;
    }
    Ok(Ring::new(positions).expect(rt, "a ring"))
}

fn polygon(rt: &impl Abort, alloc: Global, corners: &[&[Corner]]) -> Result<Polygon, AllocError> {
    let mut rings = Vec::new(alloc);
    for corners in corners {
        rings.push(ring(rt, alloc, corners)?)?;
    }
    Ok(Polygon::new(rings))
}

fn area(rt: &impl Abort, alloc: Global) -> Result<Area, AllocError> {
    let mut polygons = Vec::new(alloc);
    for corners in AREA {
        polygons.push(polygon(rt, alloc, corners)?)?;
    }
    Area::new(alloc, polygons)
}

/// Whether the area's first polygon holds a position.
fn is_in_first(area: &Area, at: Position) -> bool {
    match area.polygons() {
        [first, ..] => first.holds(at),
        [] => false,
    }
}

/// Whether an area holds a position, tested ring by ring.
fn is_in_rings(rt: &impl Abort, area: &Area, lng: i64, lat: i64) -> bool {
    area_holds(area.polygons(), position(rt, lng, lat))
}

/// Checks which of the positions in `HELD` the area holds.
fn expect_held(rt: &impl Abort, area: &Area) {
    for ((lng, lat), wanted, by_first) in HELD {
        assert!(rt; area.holds(position(rt, *lng, *lat)) == *wanted);
        assert!(rt; is_in_rings(rt, area, *lng, *lat) == *wanted);
        assert!(rt; is_in_first(area, position(rt, *lng, *lat)) == *by_first);
    }
}

/// With one allocation refused, whichever it is, an area is made or memory runs out; a second call makes it.
#[test]
fn indexes_or_runs_out_of_memory(rt: HostRuntime) {
    let area = match area(&rt, rt.alloc()) {
        Ok(area) => area,
        Err(_) => area(&rt, rt.alloc()).expect(&rt, "memory"),
    };
    expect_held(&rt, &area);
}

#[test]
fn rings_and_coordinates(rt: HostRuntime) {
    let none = Ring::new(Vec::new(rt.alloc()));
    assert!(rt; none.err() == Some(RingFault::Short));
    let degrees = coordinate_of(&Tree::Int(-90), Field::Lat, MOST_LATITUDE);
    assert!(rt; matches!(degrees, Ok(units) if units.get() == -900_000_000));
    let beyond = coordinate_of(&Tree::Int(91), Field::Lat, MOST_LATITUDE);
    assert!(rt; matches!(beyond, Err(TextFault::OutOfRange)));
    let none = coordinate_of(&Tree::Null, Field::Lat, MOST_LATITUDE);
    assert!(rt; matches!(none, Err(TextFault::BadField(Field::Lat))));
}
