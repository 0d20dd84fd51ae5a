//! How far the edges of an area extend, for the size of its strips and cells.
ghost use Rattle.std.specs.Prelude.{◌≡◌, ◌≤◌, ◌<◌, ◌+◌, ◌*◌, ◌/◌, ◌^◌, IsTrue};
ghost use Rattle.std.specs.Int.{abs_diff};
ghost use Rattle.mds_geometry.specs.Strips.{AreMeasured};
ghost use Rattle.mds_geometry.specs.Strips as strips;

use crate::band::Band;
use crate::bounds::BoundingBox;
use crate::strip::Edge;
use crate::strips::row_of;
use mds_text::Units7;

/// The most heights of a strip that an edge extends over, on average over all edges.
const MOST_HEIGHTS: u64 = 2;

/// From this many edges on nothing is measured.
const TOO_MANY: usize = 1 << 32;

/// The extent of some edges in one direction.
#[derive(Clone, Copy)]
pub(crate) struct Extent {
    /// The least row or column.
    pub(crate) least: u32,
    /// The greatest row or column.
    pub(crate) greatest: u32,
    /// The extents of all edges, added up. `u64::MAX` says nothing.
    pub(crate) reach: u64,
}

/// The extents of edges from south to north and from west to east.
#[derive(Clone, Copy)]
pub(crate) struct Extents {
    /// The rows of the edges' latitudes.
    pub(crate) rows: Extent,
    /// The columns of the edges' longitudes.
    pub(crate) columns: Extent,
}

/// The distance between two latitudes or two longitudes, in units of 10^-7 degree.
#[inline(always)]
fn row_distance(from: Units7, to: Units7) -> u64
    ensures value { result ≡ abs_diff (strips.row_of from) (strips.row_of to) }
    ensures few { result ≤ 4294967295 }
{
    u64::from(row_of(from).abs_diff(row_of(to)))
}

/// The extents of all edges in rows and in columns, each added up.
fn reach_of(edges: &[Edge]) -> (u64, u64)
    ensures { AreMeasured edges.now result.0 }
{
    if edges.len() >= TOO_MANY {
        return (u64::MAX, u64::MAX);
    }
    let mut rows: u64 = 0;
    let mut columns: u64 = 0;
    for edge in edges {
        rows += row_distance(edge.from.lat, edge.to.lat);
        columns += row_distance(edge.from.lng, edge.to.lng);
    }
    (rows, columns)
}

/// The row or column of a coordinate in units; 0 beyond 180 degrees.
fn row_at(units: i64) -> u32 {
    match Units7::new(units) {
        Some(units) => row_of(units),
        None => 0,
    }
}

impl Extent {
    /// The extent of edges within a band, with the sum of their extents.
    fn new(band: &Band, reach: u64) -> Extent
        ensures { result.reach ≡ reach }
    {
        Extent {
            least: row_at(band.least),
            greatest: row_at(band.greatest),
            reach,
        }
    }

    /// How many strips of 2^`shift` rows an edge reaches, on average over this many edges.
    pub(crate) fn strips(&self, shift: u32, edges: usize) -> u64
        requires { shift ≤ 31 }
    {
        (self.reach >> shift)
            .checked_div(edges as u64)
            .unwrap_or(0)
            .saturating_add(1)
    }

    /// Whether this many edges extend over at most two heights of a strip each, on average.
    pub(crate) fn is_sparse(&self, shift: u32, edges: usize) -> bool
        requires { shift ≤ 31 }
        ensures known { IsTrue result → self.now.reach < 18446744073709551615 }
        ensures spare { IsTrue result → self.now.reach / 2 ^ shift ≤ 2 * edges }
    {
        self.reach < u64::MAX && self.reach >> shift <= (edges as u64).saturating_mul(MOST_HEIGHTS)
    }
}

impl Extents {
    /// Measures these edges, which lie within these bounds.
    pub(crate) fn of(edges: &[Edge], bounds: &BoundingBox) -> Extents
        ensures { AreMeasured edges.now result.rows.reach }
    {
        let (rows, columns) = reach_of(edges);
        Extents {
            rows: Extent::new(&bounds.lat, rows),
            columns: Extent::new(&bounds.lng, columns),
        }
    }
}
