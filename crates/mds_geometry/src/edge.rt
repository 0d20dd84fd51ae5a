//! One edge of a ring against one position.
ghost use Rattle.std.specs.Prelude.{◌≡◌, ◌≤◌, ◌-ℤ◌, ◌*ℤ◌, unsigned_abs};
ghost use Rattle.mds_geometry.specs.Inside as inside;

use crate::position::Position;
use mds_text::Units7;

/// `a - b` in 10^-7 degree.
fn difference(a: Units7, b: Units7) -> i64
    ensures value { result ≡ a -ℤ b }
    ensures size { unsigned_abs result ≤ 3600000000 }
{
    a.get() - b.get()
}

/// `a * b`, which may need more than 64 bits.
fn product(a: i64, b: i64) -> i128
    requires first { unsigned_abs a ≤ 3600000000 }
    requires second { unsigned_abs b ≤ 3600000000 }
    ensures value { result ≡ a *ℤ b }
    ensures size { unsigned_abs result ≤ 12960000000000000000 }
{
    i128::from(a) * i128::from(b)
}

/// The cross product of the vectors from `at` to `from` and from `at` to `to`.
fn turn(from: &Position, to: &Position, at: &Position) -> i128
    ensures { result ≡ inside.turn from.now to.now at.now }
{
    let left = product(difference(from.lng, at.lng), difference(to.lat, at.lat));
    let right = product(difference(to.lng, at.lng), difference(from.lat, at.lat));
    left - right
}

/// Whether `x` lies between `a` and `b`, both included.
fn is_between(a: Units7, b: Units7, x: Units7) -> bool
    ensures { result ≡ inside.is_between a b x }
{
    let (a, b, x) = (a.get(), b.get(), x.get());
    (a <= x && x <= b) || (b <= x && x <= a)
}

/// Whether the edge rises past the latitude of `at`: its end is above, its start isn't.
fn rises_past(from: &Position, to: &Position, at: &Position) -> bool
    ensures { result ≡ inside.rises_past from.now to.now at.now }
{
    from.lat.get() <= at.lat.get() && at.lat.get() < to.lat.get()
}

/// Whether `at` is on the edge, the ends of the edge included.
pub(crate) fn is_on(from: &Position, to: &Position, at: &Position) -> bool
    ensures { result ≡ inside.is_on from.now to.now at.now }
{
    is_between(from.lat, to.lat, at.lat)
        && is_between(from.lng, to.lng, at.lng)
        && turn(from, to, at) == 0
}

/// Whether the ray from `at` to the east crosses the edge.
pub(crate) fn is_crossed(from: &Position, to: &Position, at: &Position) -> bool
    ensures { result ≡ inside.is_crossed from.now to.now at.now }
{
    if rises_past(from, to, at) {
        turn(from, to, at) > 0
    } else {
        rises_past(to, from, at) && turn(from, to, at) < 0
    }
}
