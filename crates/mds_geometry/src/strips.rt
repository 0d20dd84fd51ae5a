//! Strips of latitude, and which edges reach them.
ghost use Rattle.std.specs.Prelude.{◌≡◌, ◌+◌, ◌++◌, ◌<◌, ◌≤◌, ℕ, length, get_or, OnOk, IfOk, [], ◌∷◌, if◌then◌else◌, nat_le, ◌&&◌, false};
ghost use Rattle.std.specs.Option.{option_map_or};
ghost use Rattle.mds_geometry.specs.Strips as strips;

use crate::polygon::Polygon;
use crate::scale::Scale;
use crate::start::EdgeStart;
use crate::strip::{Edge, Strip};
use mds_text::Units7;
use std::alloc::{AllocError, Global};

/// The units of 10^-7 degree from the least coordinate, -180 degrees, to zero.
const SOUTH: i64 = 1_800_000_000;

/// The row of a latitude, or the column of a longitude: its units of 10^-7 degree from the least
/// coordinate, -180 degrees.
#[inline(always)]
pub(crate) fn row_of(lat: Units7) -> u32
    ensures { result ≡ strips.row_of lat }
{
    (lat.get() + SOUTH) as u32
}

impl Scale {
    /// The strip of a latitude; the nearest strip where the latitude lies beyond them all.
    #[inline(always)]
    pub(crate) fn strip_of(&self, lat: Units7) -> usize
        ensures value { result ≡ strips.strip_of self.now lat }
        ensures few { result < 4294967296 }
    {
        let strip = (row_of(lat) >> self.shift).saturating_sub(self.first);
        if strip <= self.last {
            strip as usize
        } else {
            self.last as usize
        }
    }

    /// The least coordinate of a strip, where it is a coordinate.
    pub(crate) fn start_of(&self, strip: usize) -> Option<Units7> {
        let strip = u32::try_from(strip).ok()?;
        let row = (u64::from(self.first) + u64::from(strip)) << self.shift;
        let row = u32::try_from(row).ok()?;
        Units7::new(i64::from(row) - SOUTH)
    }
}

/// Appends an edge's start to each strip from one to another, both included.
///
/// # Errors
///
/// Out of memory.
fn add_between(
    all: &mut [Strip],
    south: usize,
    north: usize,
    start: EdgeStart,
) -> Result<(), AllocError>
    requires ordered { south ≤ north }
    requires within { north < length all.old }
    ensures { OnOk result ((s : ℕ) → s < length all.old →
        get_or all.new s [] ≡ get_or all.old s [] ++ (if nat_le south s && nat_le s north then start ∷ [] else [])) }
{
    for place in south..north + 1 {
        let strip = &mut all[place];
        strip.push(start)?;
    }
    Ok(())
}

/// Appends an edge's start to each strip that the edge reaches.
///
/// # Errors
///
/// Out of memory.
#[inline(always)]
fn add_edge(
    all: &mut [Strip],
    scale: &Scale,
    edge: &Edge,
    start: EdgeStart,
) -> Result<(), AllocError>
    requires { length all.old ≡ scale.now.last + 1 }
    ensures { OnOk result ((s : ℕ) → s < length all.old →
        get_or all.new s [] ≡ get_or all.old s [] ++ (if strips.reaches scale.now s edge.now then start ∷ [] else [])) }
{
    let from = scale.strip_of(edge.from.lat);
    let to = scale.strip_of(edge.to.lat);
    if from == to {
        let strip = &mut all[from];
        return strip.push(start);
    }
    add_between(all, from.min(to), from.max(to), start)
}

/// Counts one more edge in each strip from one to another, both included.
fn count_between(counts: &mut [usize], south: usize, north: usize)
    requires { north < length counts.old }
{
    for place in south..north + 1 {
        counts[place] = counts[place].saturating_add(1);
    }
}

/// How many edges reach each strip of this scale.
///
/// # Errors
///
/// Out of memory.
fn count_edges(alloc: Global, scale: &Scale, edges: &[Edge]) -> Result<Vec<usize>, AllocError>
    ensures { IfOk result (λ counts. length counts.items ≡ scale.now.last + 1) }
{
    let mut counts: Vec<usize> = vec![in alloc; 0; scale.last as usize + 1]?;
    for edge in edges {
        let from = scale.strip_of(edge.from.lat);
        let to = scale.strip_of(edge.to.lat);
        count_between(&mut counts, from.min(to), from.max(to));
    }
    Ok(counts)
}

/// Strips without edges, each with room for the given number.
///
/// # Errors
///
/// Out of memory.
fn empty_strips(alloc: Global, rooms: &[usize]) -> Result<Vec<Strip>, AllocError>
    ensures count { IfOk result (λ all. length all.items ≡ length rooms.now) }
    ensures empty { IfOk result (λ all. (s : ℕ) → get_or all.items s [] ≡ []) }
{
    let mut all = Vec::with_capacity(alloc, rooms.len())?;
    for room in rooms {
        all.push(Strip::with_room(alloc, *room)?)?;
    }
    Ok(all)
}

/// Appends an edge's start to each strip that the edge reaches; does nothing where no edge starts
/// there.
///
/// # Errors
///
/// Out of memory.
#[inline(always)]
fn add_start(
    all: &mut [Strip],
    scale: &Scale,
    edge: Option<Edge>,
    start: EdgeStart,
) -> Result<(), AllocError>
    requires { length all.old ≡ scale.now.last + 1 }
    ensures { OnOk result ((s : ℕ) → s < length all.old →
        get_or all.new s [] ≡ get_or all.old s [] ++ (if option_map_or (strips.reaches scale.now s) edge false then start ∷ [] else [])) }
{
    match edge {
        Some(edge) => add_edge(all, scale, &edge, start),
        None => Ok(()),
    }
}

/// The strips of this scale, each with the starts of the edges that reach it. `edges` are the edges
/// of the polygons that start at `starts`.
///
/// # Errors
///
/// Out of memory.
pub(crate) fn strips_of(
    alloc: Global,
    scale: &Scale,
    polygons: &[Polygon],
    edges: &[Edge],
    starts: &[EdgeStart],
) -> Result<Vec<Strip>, AllocError>
    requires { strips.edges_at polygons.now starts.now ≡ edges.now }
    ensures { IfOk result (λ all. strips.AreFiled polygons.now scale.now edges.now all.items) }
{
    let rooms = count_edges(alloc, scale, edges)?;
    let mut all = empty_strips(alloc, &rooms)?;
    for start in starts {
        let edge = start.edge_in(polygons);
        add_start(&mut all, scale, edge, *start)?;
    }
    Ok(all)
}
