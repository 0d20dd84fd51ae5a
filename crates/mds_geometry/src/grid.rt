//! A grid of cells over an area, which decides for most positions whether they are held.
ghost use Rattle.std.specs.Prelude.{◌≡◌, ◌⊎◌, ◌+◌, ◌*◌, ◌<◌, ◌≤◌, ℕ, false, get_or, length, IfOk, OnOk};
ghost use Rattle.std.specs.List.{list_any};
ghost use Rattle.mds_geometry.specs.Area.{area_holds};
ghost use Rattle.mds_geometry.specs.Grid.{AreClosed, AreMarked, AreTold, Tells, covers, place_of};
ghost use Rattle.mds_geometry.specs.Strips.{edges_from, strip_of};
ghost use Rattle.mds_geometry.specs.declared.cell.Cell.TheVariants.{Mixed};
ghost use Rattle.mds_geometry.specs.declared.position.Position.{Position};

use crate::cell::Cell;
use crate::extent::Extents;
use crate::fit::grid_of;
use crate::marks::{COLUMNS, marks_of};
use crate::position::Position;
use crate::scale::Scale;
use crate::strip::Edge;
use crate::strip_index::StripIndex;
use std::alloc::{AllocError, Global};

/// The columns and rows of a grid, and its cells.
#[derive(Drop)]
pub(crate) struct Grid {
    /// The columns, from west to east.
    pub(crate) columns: Scale,
    /// The rows, from south to north.
    pub(crate) rows: Scale,
    /// The cells, row after row.
    pub(crate) cells: Vec<Cell>,
}

impl Grid {
    /// The grid over some polygons, of which these are the edges and their extents.
    ///
    /// # Errors
    ///
    /// Out of memory.
    pub(crate) fn new(
        alloc: Global,
        striped: &StripIndex,
        edges: &[Edge],
        extents: &Extents,
    ) -> Result<Grid, AllocError>
        requires linear { AreClosed striped.now }
        requires edges { edges.now ≡ edges_from 0 striped.now }
        ensures told { IfOk result (λ grid. AreTold grid.columns grid.rows striped.now grid.cells.items) }
        ensures few { IfOk result (λ grid. length grid.cells.items ≤ 16 * length edges.now + 128) }
    {
        let (columns, rows) = grid_of(extents, edges.len());
        let marks = marks_of(alloc, &columns, &rows, edges)?;
        let cells = cells_of(alloc, striped, &columns, &rows, &marks)?;
        Ok(Grid {
            columns,
            rows,
            cells,
        })
    }

    /// The cell of a position.
    pub(crate) fn cell(&self, at: &Position) -> Cell
        ensures { result ≡ get_or self.now.cells.items (place_of (strip_of self.now.rows at.now.lat) (strip_of self.now.columns at.now.lng)) Mixed }
    {
        let place = self.rows.strip_of(at.lat) * COLUMNS + self.columns.strip_of(at.lng);
        match self.cells.get(place) {
            Some(cell) => *cell,
            None => Cell::Mixed,
        }
    }
}

/// What a cell that no edge covers says, by a test of its south-western corner; `Mixed` where no
/// such position is found in the cell.
fn cell_by_corner(
    striped: &StripIndex,
    columns: &Scale,
    rows: &Scale,
    row: usize,
    column: usize,
) -> Cell
    ensures { (result ≡ Mixed) ⊎ ((at : Position) × (strip_of rows.now at.lat ≡ row) × (strip_of columns.now at.lng ≡ column) × Tells result (area_holds striped.now at)) }
{
    let (Some(lng), Some(lat)) = (columns.start_of(column), rows.start_of(row)) else {
        return Cell::Mixed;
    };
    if rows.strip_of(lat) != row || columns.strip_of(lng) != column {
        return Cell::Mixed;
    }
    if striped.holds(Position { lng, lat }) {
        Cell::Inside
    } else {
        Cell::Outside
    }
}

/// Appends the cells of a row. A cell that isn't marked says what the one before it says, where
/// that one isn't marked either.
fn push_row(
    cells: &mut Vec<Cell>,
    striped: &StripIndex,
    columns: &Scale,
    rows: &Scale,
    row: usize,
    marks: &[bool],
) -> Result<(), AllocError>
    requires linear { AreClosed striped.now }
    requires marked { (c : ℕ) → c < length marks.now → get_or marks.now c false ≡ false → list_any (covers columns.now rows.now row c) (edges_from 0 striped.now) ≡ false }
    ensures count { OnOk result (length cells.new.items ≡ length cells.old.items + length marks.now) }
    ensures kept { OnOk result ((k : ℕ) → k < length cells.old.items → get_or cells.new.items k Mixed ≡ get_or cells.old.items k Mixed) }
    ensures told { OnOk result ((at : Position) → strip_of rows.now at.lat ≡ row → strip_of columns.now at.lng < length marks.now
        → Tells (get_or cells.new.items (length cells.old.items + strip_of columns.now at.lng) Mixed) (area_holds striped.now at)) }
{
    let mut told = Cell::Mixed;
    for (column, marked) in marks.iter().enumerate() {
        if *marked {
            told = Cell::Mixed;
        } else if matches!(told, Cell::Mixed) {
            told = cell_by_corner(striped, columns, rows, row, column);
        }
        cells.push(told)?;
    }
    Ok(())
}

/// The cells of a grid, by which of them are marked.
///
/// # Errors
///
/// Out of memory.
fn cells_of(
    alloc: Global,
    striped: &StripIndex,
    columns: &Scale,
    rows: &Scale,
    marks: &[bool],
) -> Result<Vec<Cell>, AllocError>
    requires linear { AreClosed striped.now }
    requires narrow { columns.now.last < 128 }
    requires whole { length marks.now ≡ (rows.now.last + 1) * 128 }
    requires marked { AreMarked columns.now rows.now (edges_from 0 striped.now) marks.now }
    ensures told { IfOk result (λ cells. AreTold columns.now rows.now striped.now cells.items) }
    ensures whole { IfOk result (λ cells. length cells.items ≡ length marks.now) }
{
    let mut cells = Vec::with_capacity(alloc, marks.len())?;
    for row in 0..rows.last as usize + 1 {
        let start = row * COLUMNS;
        push_row(
            &mut cells,
            striped,
            columns,
            rows,
            row,
            &marks[start..start + COLUMNS],
        )?;
    }
    Ok(cells)
}
