//! Areas of several polygons, indexed for point-in-polygon tests.
ghost use Rattle.std.specs.Prelude.{◌≡◌, IfOk};
ghost use Rattle.mds_geometry.specs.Area.{area_holds};

use crate::bounds::bounds_of;
use crate::cell::Cell;
use crate::extent::Extents;
use crate::gather::gather;
use crate::grid::Grid;
use crate::polygon::Polygon;
use crate::position::Position;
use crate::start::starts_of;
use crate::strip_index::StripIndex;
use std::alloc::{AllocError, Global};
use std::marker::Model;

/// Whether one of the polygons of an area holds the position (RFC 7946, section 3.1.7). An area
/// without polygons holds nothing.
pub fn area_holds(polygons: &[Polygon], position: Position) -> bool
    ensures { result ≡ area_holds polygons.now position }
{
    polygons.iter().any(|polygon| polygon.holds(position))
}

/// The area of several polygons (RFC 7946, section 3.1.7), with an index: a grid of cells that
/// decides most positions, and the edges by strips of latitude for the others. So a test looks at
/// few edges, however many there are. Contracts see the list of the polygons, each the list of its
/// rings.
#[derive(Drop)]
pub struct Area {
    striped: StripIndex,
    grid: Grid,
}

impl Model for Area {
    ghost use Rattle.std.specs.Prelude.{List};
    ghost use Rattle.mds_geometry.specs.Grid.{AreTold};
    ghost use Rattle.mds_geometry.specs.declared.position.Position.{Position};

    ghost Value = { List (List (List Position)) };

    ghost view = { λ a. a.striped };

    ghost invariant = { λ a. AreTold a.grid.columns a.grid.rows a.striped a.grid.cells.items };
}

impl Area {
    /// Indexes these polygons. An edge has at most four entries in the strips, on average. There
    /// are at most sixteen cells for an edge, or one row of 128.
    ///
    /// # Errors
    ///
    /// Out of memory.
    pub fn new(alloc: Global, polygons: Vec<Polygon>) -> Result<Area, AllocError>
        ensures { IfOk result (λ area. area ≡ polygons.items) }
    {
        let edges = gather(alloc, &polygons)?;
        let bounds = bounds_of(&polygons);
        let extents = Extents::of(&edges, &bounds);
        let starts = starts_of(alloc, &polygons, edges.len())?;
        let striped = StripIndex::new(alloc, polygons, bounds, &edges, &starts, &extents)?;
        let grid = Grid::new(alloc, &striped, &edges, &extents)?;
        Ok(Area { striped, grid })
    }

    /// The polygons in their order.
    pub fn polygons(&self) -> &[Polygon]
        ensures { result.now ≡ self.now }
    {
        self.striped.polygons()
    }

    /// Whether one of the polygons holds the position. An area without polygons holds nothing.
    pub fn holds(&self, position: Position) -> bool
        ensures { result ≡ area_holds self.now position }
    {
        if self.striped.excludes(&position) {
            return false;
        }
        match self.grid.cell(&position) {
            Cell::Inside => true,
            Cell::Outside => false,
            Cell::Mixed => self.striped.holds(position),
        }
    }
}
