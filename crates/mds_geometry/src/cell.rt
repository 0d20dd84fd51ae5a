//! What a cell of the grid over an area says of the positions in it.
/// What a cell of a grid says of the positions in it.
#[derive(Clone, Copy)]
pub(crate) enum Cell {
    /// Nothing: an edge may cross the cell.
    Mixed,
    /// All of them are held.
    Inside,
    /// None of them is held.
    Outside,
}
