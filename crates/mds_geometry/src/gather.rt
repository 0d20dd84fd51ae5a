//! Collects the edges of several polygons.
ghost use Rattle.std.specs.Prelude.{◌≡◌, ◌≤◌, ◌++◌, length, map, OnOk, IfOk};
ghost use Rattle.mds_geometry.specs.Inside.{edges_of_ring, edges};
ghost use Rattle.mds_geometry.specs.Strips.{edge_of, edges_from};

use crate::polygon::Polygon;
use crate::position::Position;
use crate::strip::Edge;
use std::alloc::{AllocError, Global};

/// Appends the edges of a ring, as edges of the polygon at this index.
fn gather_ring(all: &mut Vec<Edge>, polygon: usize, ring: &[Position]) -> Result<(), AllocError>
    requires { 1 ≤ length ring.now }
    ensures { OnOk result (all.new.items ≡ all.old.items ++ map (edge_of polygon) (edges_of_ring ring.now)) }
{
    for (from, to) in ring.iter().zip(&ring[1..]) {
        all.push(Edge {
            from: *from,
            to: *to,
            polygon,
        })?;
    }
    Ok(())
}

/// Appends the edges of a polygon, which has this index.
fn gather_polygon(all: &mut Vec<Edge>, place: usize, polygon: &Polygon) -> Result<(), AllocError>
    ensures { OnOk result (all.new.items ≡ all.old.items ++ map (edge_of place) (edges polygon.now)) }
{
    for ring in polygon.rings() {
        gather_ring(all, place, ring.positions())?;
    }
    Ok(())
}

/// The number of positions of the polygons, which is at least that of their edges.
fn count_of(polygons: &[Polygon]) -> usize {
    let mut count: usize = 0;
    for polygon in polygons {
        for ring in polygon.rings() {
            count = count.saturating_add(ring.positions().len());
        }
    }
    count
}

/// The edges of the polygons in their order.
///
/// # Errors
///
/// Out of memory.
pub(crate) fn gather(alloc: Global, polygons: &[Polygon]) -> Result<Vec<Edge>, AllocError>
    ensures { IfOk result (λ all. all.items ≡ edges_from 0 polygons.now) }
{
    let mut all = Vec::with_capacity(alloc, count_of(polygons))?;
    for (place, polygon) in polygons.iter().enumerate() {
        gather_polygon(&mut all, place, polygon)?;
    }
    Ok(all)
}
