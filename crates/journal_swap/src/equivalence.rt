//! The evidence that one list is equivalent to another.

/// The evidence that one list is equivalent to another, leading to where the other does: for a city, that servers
/// started from either answer alike. It exists in proofs alone.
pub trait Equivalence {
    ghost use Rattle.std.specs.Prelude.{ℕ, List};

    /// The first list was found equivalent to the second.
    ghost same: { List (List ℕ) → List (List ℕ) → Type 0 };
}
