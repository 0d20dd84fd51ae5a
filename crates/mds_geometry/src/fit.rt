//! Chooses the height of an area's strips and the size of its grid's cells.
ghost use Rattle.std.specs.Prelude.{◌≡◌, ◌≤◌, ◌*◌, ◌<◌, length};
ghost use Rattle.std.specs.List.{sum_by};
ghost use Rattle.mds_geometry.specs.Strips.{AreMeasured, span};

use crate::extent::Extents;
use crate::marks::COLUMNS;
use crate::scale::Scale;
use crate::strip::Edge;

/// There is at most one strip for this many edges.
const EDGES_OF_A_STRIP: usize = 16;

/// The most cells that an edge covers, on average over all edges.
const MOST_COVERED: u64 = 8;

/// There is at most one row of a grid for this many edges.
const EDGES_OF_A_ROW: usize = 8;

impl Scale {
    /// One strip for all latitudes.
    fn one_strip() -> Scale
        ensures { result.last ≡ 0 }
    {
        Scale {
            shift: 31,
            first: 0,
            last: 0,
        }
    }

    /// The strips of 2^`shift` rows from one row to another.
    fn between(south: u32, north: u32, shift: u32) -> Scale
        requires { shift ≤ 31 }
        ensures { result.shift ≡ shift }
    {
        let first = south >> shift;
        let last = (north >> shift).saturating_sub(first);
        Scale { shift, first, last }
    }
}

/// The lowest strips of which there is at most one for sixteen edges, and in which an edge has at
/// most four entries on average; one strip where no height does. An edge has at most two entries
/// more than the heights of a strip that it extends over.
pub(crate) fn scale_of(extents: &Extents, edges: &[Edge]) -> Scale
    requires { AreMeasured edges.now extents.now.rows.reach }
    ensures { sum_by (span result) edges.now ≤ 4 * length edges.now }
{
    let rows = extents.rows;
    for shift in 0..32 {
        let scale = Scale::between(rows.least, rows.greatest, shift);
        if (scale.last as usize) < edges.len() / EDGES_OF_A_STRIP
            && rows.is_sparse(shift, edges.len())
        {
            return scale;
        }
    }
    Scale::one_strip()
}

/// The columns and the rows of the smallest square cells of which an edge of average height and
/// width covers at most eight, in at most 128 columns and 128 rows, and at most one row for eight
/// edges; one cell where no size does.
pub(crate) fn grid_of(extents: &Extents, edges: usize) -> (Scale, Scale)
    ensures narrow { result.0.last < 128 }
    ensures few { 8 * result.1.last ≤ edges }
{
    let wide = extents.columns;
    let high = extents.rows;
    let most = COLUMNS.min(edges / EDGES_OF_A_ROW);
    for shift in 0..32 {
        let columns = Scale::between(wide.least, wide.greatest, shift);
        let rows = Scale::between(high.least, high.greatest, shift);
        let covered = wide
            .strips(shift, edges)
            .saturating_mul(high.strips(shift, edges));
        if (columns.last as usize) < COLUMNS
            && (rows.last as usize) < most
            && covered <= MOST_COVERED
        {
            return (columns, rows);
        }
    }
    (Scale::one_strip(), Scale::one_strip())
}
