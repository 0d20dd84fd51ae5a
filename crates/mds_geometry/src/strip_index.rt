//! Polygons with their edges sorted into strips of latitude.
ghost use Rattle.std.specs.Prelude.{◌≡◌, false, IfOk, IsTrue};
ghost use Rattle.mds_geometry.specs.Area.{area_holds};
ghost use Rattle.mds_geometry.specs.Bounds.{AreBounded};
ghost use Rattle.mds_geometry.specs.Grid.{AreClosed};
ghost use Rattle.mds_geometry.specs.Strips.{AreMeasured, edges_at, edges_from};

use crate::bounds::BoundingBox;
use crate::extent::Extents;
use crate::fit::scale_of;
use crate::polygon::Polygon;
use crate::position::Position;
use crate::scale::Scale;
use crate::start::EdgeStart;
use crate::strip::{Edge, Strip};
use crate::strips::strips_of;
use std::alloc::{AllocError, Global};
use std::marker::Model;

/// Several polygons with their bounds, and with their edges by strips of latitude. Contracts see
/// the list of the polygons, each the list of its rings.
#[derive(Drop)]
pub(crate) struct StripIndex {
    polygons: Vec<Polygon>,
    bounds: BoundingBox,
    scale: Scale,
    strips: Vec<Strip>,
}

impl Model for StripIndex {
    ghost use Rattle.std.specs.Prelude.{List};
    ghost use Rattle.mds_geometry.specs.Strips.{IsIndexed};
    ghost use Rattle.mds_geometry.specs.declared.position.Position.{Position};

    ghost Value = { List (List (List Position)) };

    ghost view = { λ a. a.polygons.items };

    ghost invariant = { λ a. IsIndexed a.polygons.items a.bounds a.scale a.strips.items };
}

impl StripIndex {
    /// Sorts the edges of these polygons into strips, by their bounds, edges, starts and extents.
    /// An edge has at most four entries in the strips, on average.
    ///
    /// # Errors
    ///
    /// Out of memory.
    pub(crate) fn new(
        alloc: Global,
        polygons: Vec<Polygon>,
        bounds: BoundingBox,
        edges: &[Edge],
        starts: &[EdgeStart],
        extents: &Extents,
    ) -> Result<StripIndex, AllocError>
        requires bounded { AreBounded bounds polygons.items }
        requires edges { edges.now ≡ edges_from 0 polygons.items }
        requires starts { edges_at polygons.items starts.now ≡ edges_from 0 polygons.items }
        requires measured { AreMeasured edges.now extents.now.rows.reach }
        ensures value { IfOk result (λ striped. striped ≡ polygons.items) }
        ensures linear { IfOk result (λ striped. AreClosed striped) }
    {
        let scale = scale_of(extents, edges);
        let strips = strips_of(alloc, &scale, &polygons, edges, starts)?;
        Ok(StripIndex {
            polygons,
            bounds,
            scale,
            strips,
        })
    }

    /// The polygons in their order.
    pub(crate) fn polygons(&self) -> &[Polygon]
        ensures { result.now ≡ self.now }
    {
        self.polygons.as_slice()
    }

    /// Whether the position lies outside the bounds of the polygons, where they hold nothing.
    pub(crate) fn excludes(&self, position: &Position) -> bool
        ensures { IsTrue result → area_holds self.now position.now ≡ false }
    {
        if self.bounds.holds(position) {
            return false;
        }
        true
    }

    /// Whether one of the polygons holds the position, by the edges of its strip.
    pub(crate) fn holds(&self, position: Position) -> bool
        ensures { result ≡ area_holds self.now position }
    {
        if self.excludes(&position) {
            return false;
        }
        let strip = self.scale.strip_of(position.lat);
        self.strips[strip].holds(self.polygons(), &position)
    }
}
