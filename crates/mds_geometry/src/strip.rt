//! The edges that reach one strip of latitude.
ghost use Rattle.std.specs.Prelude.{◌≡◌, [], ◌∷◌, ◌++◌, false, IfOk, OnOk};
ghost use Rattle.mds_geometry.specs.Strips.{any_holds, edges_at, ring_at};

use crate::edge::{is_crossed, is_on};
use crate::polygon::Polygon;
use crate::position::Position;
use crate::start::{EdgeStart, positions_at};
use std::alloc::{AllocError, Global};
use std::marker::Model;

/// An edge of one of several polygons.
#[derive(Clone, Copy)]
pub(crate) struct Edge {
    /// The position where it starts.
    pub(crate) from: Position,
    /// The position where it ends.
    pub(crate) to: Position,
    /// The index of its polygon.
    pub(crate) polygon: usize,
}

/// The edges that reach a strip, those of one polygon next to each other. Contracts see the list of
/// their starts.
#[derive(Drop)]
pub(crate) struct Strip {
    starts: Vec<EdgeStart>,
}

impl Model for Strip {
    ghost use Rattle.std.specs.Prelude.{List};
    ghost use Rattle.mds_geometry.specs.declared.start.EdgeStart.{EdgeStart};

    ghost Value = { List EdgeStart };

    ghost view = { λ s. s.starts.items };
}

impl Strip {
    /// A strip without edges, with room for some.
    ///
    /// # Errors
    ///
    /// Out of memory.
    pub(crate) fn with_room(alloc: Global, room: usize) -> Result<Strip, AllocError>
        ensures { IfOk result (λ strip. strip ≡ []) }
    {
        Ok(Strip {
            starts: Vec::with_capacity(alloc, room)?,
        })
    }

    /// Appends an edge by its start.
    ///
    /// # Errors
    ///
    /// Out of memory.
    #[inline(always)]
    pub(crate) fn push(&mut self, start: EdgeStart) -> Result<(), AllocError>
        ensures { OnOk result (self.new ≡ self.old ++ start ∷ []) }
    {
        self.starts.reserve(1)?;
        self.starts.push_reserved(start);
        Ok(())
    }

    /// Whether one of the polygons holds a position, by the edges of the strip alone.
    pub(crate) fn holds(&self, polygons: &[Polygon], at: &Position) -> bool
        ensures { result ≡ any_holds at.now 0 false (edges_at polygons.now self.now) }
    {
        any_polygon_holds(polygons, &self.starts, at)
    }
}

/// The positions of the ring of `start`, where `positions` are those of the ring of `before`.
#[inline(always)]
fn positions_of<'a>(
    polygons: &'a [Polygon],
    start: &EdgeStart,
    before: &EdgeStart,
    positions: &'a [Position],
) -> &'a [Position]
    requires { positions.now ≡ ring_at polygons.now before.now.polygon before.now.ring }
    ensures { result.now ≡ ring_at polygons.now start.now.polygon start.now.ring }
{
    if start.polygon == before.polygon && start.ring == before.ring {
        positions
    } else {
        positions_at(polygons, start.polygon, start.ring)
    }
}

/// Whether one of the polygons of these edges holds a position, by these edges alone.
fn any_polygon_holds(polygons: &[Polygon], starts: &[EdgeStart], at: &Position) -> bool
    ensures { result ≡ any_holds at.now 0 false (edges_at polygons.now starts.now) }
{
    let mut before = EdgeStart::first();
    let mut positions = positions_at(polygons, before.polygon, before.ring);
    let mut polygon = 0;
    let mut odd = false;
    for start in starts {
        positions = positions_of(polygons, start, &before, positions);
        before = *start;
        if let Some(edge) = start.edge(positions) {
            if edge.polygon != polygon {
                if odd {
                    return true;
                }
                polygon = edge.polygon;
            }
            if is_on(&edge.from, &edge.to, at) {
                return true;
            }
            if is_crossed(&edge.from, &edge.to, at) {
                odd = !odd;
            }
        }
    }
    odd
}
