//! Moments as they are given to a report.
ghost use Rattle.std.specs.Prelude.{◌≡◌, ◌++◌, IfOk, Ok, option_map, string_bytes};
ghost use Rattle.cli_calendar.specs.Moments.{civil_in, in_range, instant_in, local_in, millis_in, moment_in, utc_end};

use crate::clock::moment_showing;
use cli_args::moment_of;
use jiff::Timestamp;
use mds_match::Zone;
use mds_text::Moment;
use std::alloc::{AllocError, Global};

/// The seconds from 29 December 1969 to the Unix epoch.
const THREE_DAYS: u64 = 259_200;

/// Reads a moment of RFC 3339, with its offset from UTC, in milliseconds since the Unix epoch.
fn millis_in(text: &str) -> Option<i64>
    ensures { result ≡ millis_in text.now }
{
    match text.parse::<Timestamp>() {
        Ok(moment) => Some(moment.as_millisecond()),
        Err(_) => None,
    }
}

/// The moment of this many milliseconds since the Unix epoch; `None` before 1970 and after 2099.
fn in_range(millis: i64) -> Option<Moment>
    ensures { result ≡ in_range millis }
{
    Moment::new(millis)
}

/// Reads a moment of RFC 3339, with its offset from UTC; `None` for any other text, and for a moment before 1970 or after
/// 2099.
#[tactic(auto, unfolding(crate::specs::Moments::instant_in))]
fn instant_in(text: &str) -> Option<Moment>
    ensures { result ≡ instant_in text.now }
{
    match millis_in(text) {
        Some(millis) => in_range(millis),
        None => None,
    }
}

/// What stands behind a local date, or a local date and time, so that it is a moment of UTC.
fn utc_end(text: &str) -> &'static str
    ensures { result.now ≡ utc_end text.now }
{
    if text.len() == 10 { "T00:00Z" } else { "Z" }
}

/// Reads a local date or date and time as though it was in UTC.
///
/// # Errors
///
/// Memory ran out.
fn civil_in(alloc: Global, text: &str) -> Result<Option<Moment>, AllocError>
    ensures { IfOk result (λ at. at ≡ civil_in text.now) }
{
    let mut whole = String::from_str(alloc, text)?;
    whole.push_str(utc_end(text))?;
    Ok(instant_in(whole.as_str()))
}

/// Reads a local date or date and time of a zone.
///
/// # Errors
///
/// Memory ran out.
fn local_in(alloc: Global, zone: &Zone, text: &str) -> Result<Option<Moment>, AllocError>
    ensures { IfOk result (λ at. at ≡ local_in zone.now text.now) }
{
    match civil_in(alloc, text)? {
        Some(at) => {
            let second = at.get().unsigned_abs() / 1000;
            Ok(moment_showing(zone, second + THREE_DAYS))
        }
        None => Ok(None),
    }
}

/// Reads a moment: 1 to 13 digits are milliseconds since the Unix epoch, then one of RFC 3339 with its offset from UTC,
/// then a local date or date and time in a zone. `None` for any other text, and before 1970 and after 2099.
///
/// # Errors
///
/// Memory ran out.
pub fn moment_in(alloc: Global, zone: &Zone, text: &str) -> Result<Option<Moment>, AllocError>
    ensures { IfOk result (λ at. at ≡ moment_in zone.now text.now) }
{
    if let Some(at) = moment_of(text) {
        return Ok(Some(at));
    }
    if let Some(at) = instant_in(text) {
        return Ok(Some(at));
    }
    local_in(alloc, zone, text)
}
