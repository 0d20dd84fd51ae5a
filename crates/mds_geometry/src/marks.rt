//! Marks the cells of a grid that edges cover.
ghost use Rattle.std.specs.Prelude.{◌≡◌, ◌+◌, ◌*◌, ◌<◌, ◌≤◌, ℕ, false, get_or, length, nat_le, ◌&&◌, IfOk};
ghost use Rattle.mds_geometry.specs.Grid as grid;
ghost use Rattle.mds_geometry.specs.Strips.{lies_between};

use crate::scale::Scale;
use crate::strip::Edge;
use std::alloc::{AllocError, Global};

/// The number of columns of a grid; the easternmost may lie beyond all positions.
pub(crate) const COLUMNS: usize = 128;

/// Two numbers, the lesser one first.
fn min_max(a: usize, b: usize) -> (usize, usize)
    ensures between { (n : ℕ) → lies_between a b n ≡ (nat_le result.0 n && nat_le n result.1) }
    ensures least { result.0 ≤ result.1 }
    ensures most { (n : ℕ) → a ≤ n → b ≤ n → result.1 ≤ n }
{
    if a <= b { (a, b) } else { (b, a) }
}

/// Marks the cells from one index to another, both included.
fn mark_span(marks: &mut [bool], first: usize, last: usize)
    requires { last < length marks.old }
    ensures { (k : ℕ) → get_or marks.new k false ≡ false
        → (get_or marks.old k false ≡ false) × ((first ≤ k) × (k ≤ last) → ⊥) }
{
    for place in first..last + 1 {
        marks[place] = true;
    }
}

/// Marks the cells of a box of rows and columns, the first and last of each included.
fn mark_box(marks: &mut [bool], south: usize, north: usize, west: usize, east: usize)
    requires ordered { south ≤ north }
    requires rows { north < 4294967296 }
    requires columns { west ≤ east }
    requires narrow { east < 128 }
    requires within { grid.place_of north east < length marks.old }
    ensures { (r c : ℕ) → get_or marks.new (grid.place_of r c) false ≡ false
        → (get_or marks.old (grid.place_of r c) false ≡ false) × ((south ≤ r) × (r < north + 1) × (west ≤ c) × (c ≤ east) → ⊥) }
{
    for row in south..north + 1 {
        mark_span(marks, row * COLUMNS + west, row * COLUMNS + east);
    }
}

/// Marks the cells that an edge covers: those of the box around it.
#[inline(never)]
fn mark_across(marks: &mut [bool], columns: &Scale, rows: &Scale, edge: &Edge)
    requires whole { length marks.old ≡ (rows.now.last + 1) * 128 }
    requires narrow { columns.now.last < 128 }
    ensures { (r c : ℕ) → get_or marks.new (grid.place_of r c) false ≡ false
        → (get_or marks.old (grid.place_of r c) false ≡ false) × (grid.covers columns.now rows.now r c edge.now ≡ false) }
{
    let (south, north) = min_max(rows.strip_of(edge.from.lat), rows.strip_of(edge.to.lat));
    let (west, east) = min_max(
        columns.strip_of(edge.from.lng),
        columns.strip_of(edge.to.lng),
    );
    mark_box(marks, south, north, west, east);
}

/// Marks the cells that an edge covers, with a short path for an edge within one cell.
#[inline(always)]
fn mark_edge(marks: &mut [bool], columns: &Scale, rows: &Scale, edge: &Edge)
    requires whole { length marks.old ≡ (rows.now.last + 1) * 128 }
    requires narrow { columns.now.last < 128 }
    ensures { (r c : ℕ) → get_or marks.new (grid.place_of r c) false ≡ false
        → (get_or marks.old (grid.place_of r c) false ≡ false) × (grid.covers columns.now rows.now r c edge.now ≡ false) }
{
    let row = rows.strip_of(edge.from.lat);
    let column = columns.strip_of(edge.from.lng);
    if rows.strip_of(edge.to.lat) == row && columns.strip_of(edge.to.lng) == column {
        marks[row * COLUMNS + column] = true;
        return;
    }
    mark_across(marks, columns, rows, edge);
}

/// This many cells, none of them marked.
///
/// # Errors
///
/// Out of memory.
fn no_marks(alloc: Global, count: usize) -> Result<Vec<bool>, AllocError>
    ensures { IfOk result (λ marks. length marks.items ≡ count) }
{
    vec![in alloc; false; count]
}

/// For each cell whether it is marked. Each cell that an edge covers is.
///
/// # Errors
///
/// Out of memory.
pub(crate) fn marks_of(
    alloc: Global,
    columns: &Scale,
    rows: &Scale,
    edges: &[Edge],
) -> Result<Vec<bool>, AllocError>
    requires { columns.now.last < 128 }
    ensures whole { IfOk result (λ marks. length marks.items ≡ (rows.now.last + 1) * 128) }
    ensures marked { IfOk result (λ marks. grid.AreMarked columns.now rows.now edges.now marks.items) }
{
    let mut marks = no_marks(alloc, (rows.last as usize + 1) * COLUMNS)?;
    for edge in edges {
        mark_edge(&mut marks, columns, rows, edge);
    }
    Ok(marks)
}
