//! Coordinates in units of 10^-7 degree.
ghost use Rattle.std.specs.Prelude.{◌≡◌, ◌≤ℤ◌, pos, IsSome, IfSome, ◌↔◌};
ghost use Rattle.mds_text.specs.Numbers.{least_units, most_units};

use std::marker::Model;

/// 180 degrees in units of 10^-7 degree.
pub(crate) const MOST_UNITS: u64 = 1_800_000_000;

/// A coordinate as a whole number of 10^-7 degree, from -1,800,000,000 to 1,800,000,000. Contracts
/// see the number.
#[derive(Clone, Copy, PartialEq, Eq, PartialOrd, Ord)]
pub struct Units7 {
    units: i32,
}

impl Model for Units7 {
    ghost use Rattle.std.specs.Prelude.{ℤ, pos, ◌≤ℤ◌};
    ghost use Rattle.mds_text.specs.Numbers.{least_units, most_units};

    ghost Value = { ℤ };

    ghost view = { λ u. u.units };

    ghost invariant = { λ u. (least_units ≤ℤ u.units) × (u.units ≤ℤ pos most_units) };

    ghost inverse = { λ z. record { units = z } };
}

impl Units7 {
    /// The coordinate of this many units; `None` beyond 180 degrees.
    pub fn new(units: i64) -> Option<Units7>
        ensures range { IsSome result ↔ ((least_units ≤ℤ units) × (units ≤ℤ pos most_units)) }
        ensures value { IfSome result (λ u. u ≡ units) }
    {
        if units.unsigned_abs() <= MOST_UNITS {
            Some(Units7 {
                units: units as i32,
            })
        } else {
            None
        }
    }

    /// The number of units of 10^-7 degree.
    pub fn get(self) -> i64
        ensures value { result ≡ self }
        ensures least { least_units ≤ℤ result }
        ensures most { result ≤ℤ pos most_units }
    {
        i64::from(self.units)
    }
}
