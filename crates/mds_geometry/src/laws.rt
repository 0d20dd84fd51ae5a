//! Laws of which positions a polygon holds, for all lists of rings. Each function's contract is the
//! law; the functions themselves do nothing.
ghost use Rattle.mds_geometry.specs.Laws.{WindingIsFree, HoldsVertices};

/// Reversing a ring doesn't change which positions a polygon holds.
pub fn winding_is_free()
    ensures { WindingIsFree }
{}

/// A polygon holds every vertex of its rings.
pub fn holds_vertices()
    ensures { HoldsVertices }
{}
