//! The strips of latitude by which edges are looked up.
ghost use Rattle.std.specs.Prelude.{◌≤◌};

/// Which latitudes lie in which strip. The height of a strip is a power of two of units of 10^-7
/// degree.
#[derive(Clone, Copy)]
pub(crate) struct Scale {
    /// The exponent of that power of two.
    pub(crate) shift: u32,
    /// The number of the southernmost strip, counted from the least coordinate, -180 degrees.
    pub(crate) first: u32,
    /// The index of the northernmost strip, counted from the southernmost.
    pub(crate) last: u32,
    ghost low: { shift ≤ 31 },
}
