//! Moments in milliseconds since the Unix epoch.
ghost use Rattle.std.specs.Prelude.{◌≡◌, ◌≤ℤ◌, pos, IsSome, IfSome, ◌↔◌};
ghost use Rattle.mds_text.specs.Fields.{last_moment};

use std::marker::Model;

/// The last moment: the end of the year 2099 in UTC.
const LAST: i64 = 4_102_444_799_999;

/// A point in time: whole milliseconds since the Unix epoch, from 0 to the end of 2099 in UTC (MDS
/// 2.0, timestamps). Contracts see the number.
#[derive(Clone, Copy, PartialEq, Eq, PartialOrd, Ord)]
pub struct Moment {
    millis: u64,
}

impl Model for Moment {
    ghost use Rattle.std.specs.Prelude.{ℕ, ◌≤◌};
    ghost use Rattle.mds_text.specs.Fields.{last_moment};

    ghost Value = { ℕ };

    ghost view = { λ m. m.millis };

    ghost invariant = { λ m. m.millis ≤ last_moment };

    ghost inverse = { λ n. record { millis = n } };
}

impl Moment {
    /// The moment of this many milliseconds since the Unix epoch; `None` out of range.
    pub fn new(millis: i64) -> Option<Moment>
        ensures range { IsSome result ↔ ((pos 0 ≤ℤ millis) × (millis ≤ℤ pos last_moment)) }
        ensures value { IfSome result (λ m. pos m ≡ millis) }
    {
        if 0 <= millis && millis <= LAST {
            Some(Moment {
                millis: millis as u64,
            })
        } else {
            None
        }
    }

    /// The milliseconds since the Unix epoch.
    pub fn get(self) -> i64
        ensures { result ≡ pos self }
    {
        let Moment { millis } = self;
        millis as i64
    }
}
