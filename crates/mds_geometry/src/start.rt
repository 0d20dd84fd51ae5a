//! Where the edges of an area start: a short form of its edges.
ghost use Rattle.std.specs.Prelude.{◌≡◌, ◌++◌, [], get_or, map, OnOk, IfOk};
ghost use Rattle.mds_geometry.specs.Inside.{edges_of_ring, edges};
ghost use Rattle.mds_geometry.specs.Strips.{edge_at, edge_in, edge_of, edges_at, edges_from, ring_at};

use crate::polygon::Polygon;
use crate::position::Position;
use crate::ring::Ring;
use crate::strip::Edge;
use std::alloc::{AllocError, Global};

/// The start of an edge of an area, by indices; the edge ends at the next position of the ring.
#[derive(Clone, Copy)]
pub(crate) struct EdgeStart {
    /// The index of the polygon.
    pub(crate) polygon: u32,
    /// The index of the ring in the polygon.
    pub(crate) ring: u32,
    /// The index of the position in the ring.
    pub(crate) position: u32,
}

impl EdgeStart {
    /// The first position of the first ring of the first polygon.
    pub(crate) fn first() -> EdgeStart {
        EdgeStart {
            polygon: 0,
            ring: 0,
            position: 0,
        }
    }

    /// The edge that starts here, in a ring of these positions; `None` where no position follows.
    #[inline(always)]
    pub(crate) fn edge(&self, ring: &[Position]) -> Option<Edge>
        ensures { result ≡ edge_at ring.now self.now }
    {
        let place = self.position as usize;
        if place + 1 < ring.len() {
            Some(Edge {
                from: ring[place],
                to: ring[place + 1],
                polygon: self.polygon as usize,
            })
        } else {
            None
        }
    }

    /// The edge of these polygons that starts here.
    #[inline(always)]
    pub(crate) fn edge_in(&self, polygons: &[Polygon]) -> Option<Edge>
        ensures { result ≡ edge_in polygons.now self.now }
    {
        self.edge(positions_at(polygons, self.polygon, self.ring))
    }
}

/// The positions of a ring, by the index of its polygon and its own; none where there is no such
/// ring.
pub(crate) fn positions_at(polygons: &[Polygon], polygon: u32, ring: u32) -> &[Position]
    ensures { result.now ≡ ring_at polygons.now polygon ring }
{
    if (polygon as usize) < polygons.len() {
        positions_in(polygons[polygon as usize].rings(), ring)
    } else {
        &[]
    }
}

/// The positions of the ring at this index; none where there is no such ring.
fn positions_in(rings: &[Ring], ring: u32) -> &[Position]
    ensures { result.now ≡ get_or rings.now ring [] }
{
    if (ring as usize) < rings.len() {
        rings[ring as usize].positions()
    } else {
        &[]
    }
}

/// An index in 32 bits, as it is stored.
///
/// # Errors
///
/// Out of memory, for an index of 2^32 or more.
fn index_u32(place: usize) -> Result<u32, AllocError>
    ensures { IfOk result (λ p. p ≡ place) }
{
    match u32::try_from(place) {
        Ok(place) => Ok(place),
        Err(_) => Err(AllocError),
    }
}

/// Appends the starts of a ring's edges.
fn push_ring(
    all: &mut Vec<EdgeStart>,
    polygons: &[Polygon],
    polygon: u32,
    ring: u32,
) -> Result<(), AllocError>
    ensures { OnOk result (edges_at polygons.now all.new.items
        ≡ edges_at polygons.now all.old.items ++ map (edge_of polygon) (edges_of_ring (ring_at polygons.now polygon ring))) }
{
    let positions = positions_at(polygons, polygon, ring);
    for place in 0..positions.len().saturating_sub(1) {
        let position = index_u32(place)?;
        all.push(EdgeStart {
            polygon,
            ring,
            position,
        })?;
    }
    Ok(())
}

/// Appends the starts of the edges of the polygon at this index.
fn push_polygon(
    all: &mut Vec<EdgeStart>,
    polygons: &[Polygon],
    place: usize,
    polygon: &Polygon,
) -> Result<(), AllocError>
    requires { polygon.now ≡ get_or polygons.now place [] }
    ensures { OnOk result (edges_at polygons.now all.new.items
        ≡ edges_at polygons.now all.old.items ++ map (edge_of place) (edges polygon.now)) }
{
    let number = index_u32(place)?;
    for ring in 0..polygon.rings().len() {
        push_ring(all, polygons, number, index_u32(ring)?)?;
    }
    Ok(())
}

/// The starts of all edges of the polygons, in their order, with room for `most` of them.
///
/// # Errors
///
/// Out of memory, or 2^32 or more polygons, rings of a polygon, or positions of a ring.
pub(crate) fn starts_of(
    alloc: Global,
    polygons: &[Polygon],
    most: usize,
) -> Result<Vec<EdgeStart>, AllocError>
    ensures { IfOk result (λ all. edges_at polygons.now all.items ≡ edges_from 0 polygons.now) }
{
    let mut all = Vec::with_capacity(alloc, most)?;
    for (place, polygon) in polygons.iter().enumerate() {
        push_polygon(&mut all, polygons, place, polygon)?;
    }
    Ok(all)
}
