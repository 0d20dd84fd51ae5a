//! The clock of a zone, and the moment at which it shows a time.
ghost use Rattle.std.specs.Prelude.{◌≡◌, ◌*◌, ◌+◌, ◌-◌, ◌/◌, ◌<◌, ◌≤◌, ◌^◌, option_map};
ghost use Rattle.mds_text.specs.Fields.{last_moment};
ghost use Rattle.mds_match.specs.Zone.{local_of};
ghost use Rattle.cli_calendar.specs.Clocks.{local_day, clock, clock_at, moment_if, moment_beside, is_shown, moment_showing};

use mds_match::{Local, Zone};
use mds_text::Moment;

/// The milliseconds of a day.
const DAY: u64 = 86_400_000;
/// The seconds of a day.
const DAY_SECONDS: u64 = 86_400;
/// The seconds from 29 December 1969 to the second day of 1970.
const FOUR_DAYS: u64 = 345_600;
/// The seconds from 29 December 1969 to the last day of that year.
const TWO_DAYS: u64 = 172_800;

/// The milliseconds of a moment.
pub(crate) fn millis_of(at: Moment) -> u64
    ensures value { result ≡ at }
    ensures bound { result < 2 ^ 43 }
{
    at.get().unsigned_abs()
}

/// The local day at a moment, counted from 29 December 1969.
fn local_day(local: Local, at: Moment) -> u64
    ensures { result ≡ local_day local at }
{
    let day = millis_of(at) / DAY;
    let utc = (day + 4) % 7;
    let ahead = (u64::from(local.weekday) + 10 - utc) % 7;
    day + ahead
}

/// What the clock shows, in seconds since 29 December 1969.
fn clock(local: Local, at: Moment) -> u64
    ensures { result ≡ clock local at }
{
    local_day(local, at) * DAY_SECONDS + u64::from(local.second)
}

/// What the clock of a zone shows at a moment, in seconds since 29 December 1969.
#[tactic(auto, unfolding(crate::specs::Clocks::clock_at))]
pub fn clock_at(zone: &Zone, at: Moment) -> u64
    ensures value { result ≡ clock_at zone.now at }
    ensures bound { result < 2 ^ 36 }
{
    match zone.local(at) {
        Ok(local) => clock(local, at),
        Err(_) => 0,
    }
}

/// The local day of a zone at a moment, counted from 29 December 1969.
pub fn day_at(zone: &Zone, at: Moment) -> u64
    ensures { result ≡ clock_at zone.now at / 86400 }
{
    clock_at(zone, at) / DAY_SECONDS
}

/// A whole second since the Unix epoch, as a moment; `None` out of range.
fn moment_of_second(second: u64) -> Option<Moment>
    requires { second < 2 ^ 50 }
    ensures { result ≡ moment_if second }
{
    Moment::new((second * 1000) as i64)
}

/// The moment at which a zone's clock shows this, if it is then as far ahead of UTC as in this second since the Unix
/// epoch.
fn moment_beside(zone: &Zone, shown: u64, second: u64) -> Option<Moment>
    requires shown { shown < 2 ^ 48 }
    requires second { second < 2 ^ 48 }
    ensures { result ≡ moment_beside zone.now shown second }
{
    let at = moment_of_second(second)?;
    moment_of_second((second + shown).saturating_sub(clock_at(zone, at)))
}

/// Whether a zone's clock shows this at a moment, if there is one.
fn is_shown(zone: &Zone, shown: u64, at: &Option<Moment>) -> bool
    ensures { result ≡ is_shown zone.now shown at.now }
{
    match at {
        Some(at) => clock_at(zone, *at) == shown,
        None => false,
    }
}

/// The moment at which a zone's clock shows this, in seconds since 29 December 1969: of two, as clocks are set back, the
/// earlier one; where clocks are set forward over it, the one at which it would be shown if they weren't. `None` before
/// 1970 and after 2099.
pub fn moment_showing(zone: &Zone, shown: u64) -> Option<Moment>
    requires { shown < 2 ^ 48 }
    ensures { result ≡ moment_showing zone.now shown }
{
    let early = moment_beside(zone, shown, shown.saturating_sub(FOUR_DAYS));
    let late = moment_beside(zone, shown, shown.saturating_sub(TWO_DAYS));
    if is_shown(zone, shown, &early) || !is_shown(zone, shown, &late) {
        early
    } else {
        late
    }
}
