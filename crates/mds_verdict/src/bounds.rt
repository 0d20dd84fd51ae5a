//! Bounds of rules, and whether a vehicle counts towards a rule's measure.
ghost use Rattle.std.specs.Prelude.{◌≡◌, ◌*◌, ◌≤◌};
ghost use Rattle.mds_match.specs.Row.{row_of};
ghost use Rattle.mds_verdict.specs.Verdict.{reaches, above_minimum, below_maximum, within, millis, dwell, adds};

use mds_match::Vehicle;
use mds_policy::{Bounds, Kind, TimeUnit};
use mds_text::Moment;

/// Whether a vehicle that a rule catches counts towards the rule's measure.
pub(crate) fn adds(kind: Kind, bounds: Bounds, moment: Moment, vehicle: &Vehicle) -> bool
    ensures { result ≡ adds kind bounds moment (row_of vehicle.now) }
{
    match kind {
        Kind::Count => true,
        Kind::Time(unit) => !within(bounds, millis(unit), dwell(vehicle, moment)),
        Kind::Other => false,
    }
}

/// Whether a value lies within a rule's bounds, each multiplied by the unit (MDS 2.0, Policy, Rule:
/// `minimum`, `maximum`, `inclusive_minimum`, `inclusive_maximum`). The unit is 1 for counts, and
/// `millis` of the rule's unit for times.
pub fn within(bounds: Bounds, unit: u64, value: u64) -> bool
    requires { unit ≤ 86400000 }
    ensures { result ≡ within bounds unit value }
{
    above_minimum(bounds.minimum, bounds.inclusive_minimum, unit, value)
        && below_maximum(bounds.maximum, bounds.inclusive_maximum, unit, value)
}

fn above_minimum(minimum: Option<u32>, inclusive: bool, unit: u64, value: u64) -> bool
    requires { unit ≤ 86400000 }
    ensures { result ≡ above_minimum minimum inclusive unit value }
{
    match minimum {
        None => true,
        Some(minimum) => reaches(inclusive, times(minimum, unit), value),
    }
}

fn below_maximum(maximum: Option<u32>, inclusive: bool, unit: u64, value: u64) -> bool
    requires { unit ≤ 86400000 }
    ensures { result ≡ below_maximum maximum inclusive unit value }
{
    match maximum {
        None => true,
        Some(maximum) => reaches(inclusive, value, times(maximum, unit)),
    }
}

fn reaches(inclusive: bool, least: u64, value: u64) -> bool
    ensures { result ≡ reaches inclusive least value }
{
    if inclusive {
        least <= value
    } else {
        least < value
    }
}

fn times(bound: u32, unit: u64) -> u64
    requires { unit ≤ 86400000 }
    ensures { result ≡ bound * unit }
{
    u64::from(bound) * unit
}

/// The milliseconds of a unit of time (MDS 2.0, Policy, Rule Units).
pub fn millis(unit: TimeUnit) -> u64
    ensures value { result ≡ millis unit }
    ensures most { result ≤ 86400000 }
{
    match unit {
        TimeUnit::Seconds => 1_000,
        TimeUnit::Minutes => 60_000,
        TimeUnit::Hours => 3_600_000,
        TimeUnit::Days => 86_400_000,
    }
}

fn dwell(vehicle: &Vehicle, moment: Moment) -> u64
    ensures { result ≡ dwell (row_of vehicle.now) moment }
{
    let since = vehicle.since.get();
    let now = moment.get();
    if since < now { (now - since) as u64 } else { 0 }
}
