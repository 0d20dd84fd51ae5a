//! Moments as texts (RFC 3339, section 5.6).
ghost use Rattle.std.specs.Prelude.{◌≡◌, ◌++◌, ◌<◌, ◌^◌, pos, ◌-ℤ◌, IfOk, OnOk};
ghost use Rattle.jiff_core.specs.Date.{epoch_day};
ghost use Rattle.cli_calendar.specs.Texts.{two, four, date_text, time_text, behind_date, part_text, span_text, ahead_text, utc_end, local_end, IsDay, IsClock, IsUtc, IsLocal};

use crate::clock::{clock_at, millis_of};
use jiff_core::civil::Date;
use mds_match::Zone;
use mds_text::Moment;
use std::alloc::{AllocError, Global};

/// The seconds from 29 December 1969 to the Unix epoch.
const THREE_DAYS: u64 = 259_200;
/// The seconds of a day.
const DAY_SECONDS: u64 = 86_400;

/// Appends the last two decimal digits.
fn push_two(text: &mut Vec<u8>, n: u64) -> Result<(), AllocError>
    ensures { OnOk result (text.new.items ≡ text.old.items ++ two n) }
{
    text.push(b'0' + (n / 10 % 10) as u8)?;
    text.push(b'0' + (n % 10) as u8)?;
    Ok(())
}

/// Appends the last four decimal digits.
fn push_four(text: &mut Vec<u8>, n: u64) -> Result<(), AllocError>
    ensures { OnOk result (text.new.items ≡ text.old.items ++ four n) }
{
    push_two(text, n / 100)?;
    push_two(text, n)
}

/// Appends a date, as `2026-11-23`, of a year that isn't before 0.
fn push_date(text: &mut Vec<u8>, date: Date) -> Result<(), AllocError>
    ensures { OnOk result (text.new.items ≡ text.old.items ++ date_text date) }
{
    push_four(text, u64::from(date.year.unsigned_abs()))?;
    text.push(b'-')?;
    push_two(text, u64::from(date.month))?;
    text.push(b'-')?;
    push_two(text, u64::from(date.day))
}

/// The date of a day, counted from 29 December 1969.
fn date_of(day: u64) -> Date
    requires { day < 2 ^ 20 }
    ensures { epoch_day result ≡ pos day -ℤ pos 3 }
{
    Date::from_unix_epoch_day(day as i64 - 3).unwrap()
}

/// The date of a day, counted from 29 December 1969, as `2026-11-23`.
///
/// # Errors
///
/// Memory ran out.
pub fn date_text(alloc: Global, day: u64) -> Result<Vec<u8>, AllocError>
    requires { day < 2 ^ 20 }
    ensures { IfOk result (λ text. IsDay day text.items) }
{
    let date = date_of(day);
    let mut text = Vec::new(alloc);
    push_date(&mut text, date)?;
    Ok(text)
}

/// Appends a second of the day, as `08:00:00`.
fn push_time(text: &mut Vec<u8>, second: u64) -> Result<(), AllocError>
    ensures { OnOk result (text.new.items ≡ text.old.items ++ time_text second) }
{
    push_two(text, second / 3600)?;
    text.push(b':')?;
    push_two(text, second / 60 % 60)?;
    text.push(b':')?;
    push_two(text, second % 60)
}

/// Appends a second of the day behind a date, as `T08:00:00`.
fn push_clock(text: &mut Vec<u8>, second: u64) -> Result<(), AllocError>
    ensures { OnOk result (text.new.items ≡ text.old.items ++ behind_date second) }
{
    text.push(b'T')?;
    push_time(text, second)
}

/// What a clock shows, in seconds since 29 December 1969, as `2026-11-23T08:00:00`.
fn clock_text(alloc: Global, clock: u64) -> Result<Vec<u8>, AllocError>
    requires { clock < 2 ^ 36 }
    ensures { IfOk result (λ text. IsClock clock text.items) }
{
    let mut text = date_text(alloc, clock / DAY_SECONDS)?;
    push_clock(&mut text, clock % DAY_SECONDS)?;
    Ok(text)
}

/// Appends a part of a second, where there is one, as `.250`.
fn push_part(text: &mut Vec<u8>, millis: u64) -> Result<(), AllocError>
    ensures { OnOk result (text.new.items ≡ text.old.items ++ part_text millis) }
{
    if millis == 0 {
        return Ok(());
    }
    text.push(b'.')?;
    text.push(b'0' + (millis / 100 % 10) as u8)?;
    push_two(text, millis)
}

/// Appends a span of seconds in hours and minutes, as `05:00`.
fn push_span(text: &mut Vec<u8>, span: u64) -> Result<(), AllocError>
    ensures { OnOk result (text.new.items ≡ text.old.items ++ span_text span) }
{
    push_two(text, span / 3600)?;
    text.push(b':')?;
    push_two(text, span / 60 % 60)
}

/// Appends how far a clock is ahead of UTC's, or behind it, as `-05:00`.
fn push_ahead(text: &mut Vec<u8>, shown: u64, utc: u64) -> Result<(), AllocError>
    ensures { OnOk result (text.new.items ≡ text.old.items ++ ahead_text shown utc) }
{
    if utc <= shown {
        text.push(b'+')?;
        push_span(text, shown - utc)
    } else {
        text.push(b'-')?;
        push_span(text, utc - shown)
    }
}

/// Appends what stands behind the seconds of a moment of UTC.
fn push_utc_end(text: &mut Vec<u8>, millis: u64) -> Result<(), AllocError>
    ensures { OnOk result (text.new.items ≡ text.old.items ++ utc_end millis) }
{
    push_part(text, millis % 1000)?;
    text.push(b'Z')?;
    Ok(())
}

/// A moment in UTC, as `2026-11-23T13:00:00Z`.
///
/// # Errors
///
/// Memory ran out.
pub fn utc_text(alloc: Global, at: Moment) -> Result<Vec<u8>, AllocError>
    ensures { IfOk result (λ text. IsUtc at text.items) }
{
    let millis = millis_of(at);
    let mut text = clock_text(alloc, millis / 1000 + THREE_DAYS)?;
    push_utc_end(&mut text, millis)?;
    Ok(text)
}

/// Appends what stands behind the seconds of a moment whose clock shows this.
fn push_local_end(text: &mut Vec<u8>, clock: u64, millis: u64) -> Result<(), AllocError>
    requires { millis < 2 ^ 63 }
    ensures { OnOk result (text.new.items ≡ text.old.items ++ local_end clock millis) }
{
    push_part(text, millis % 1000)?;
    push_ahead(text, clock, millis / 1000 + THREE_DAYS)
}

/// A moment in a zone, as `2026-11-23T08:00:00-05:00`.
///
/// # Errors
///
/// Memory ran out.
pub fn local_text(alloc: Global, zone: &Zone, at: Moment) -> Result<Vec<u8>, AllocError>
    ensures { IfOk result (λ text. IsLocal zone.now at text.items) }
{
    let millis = millis_of(at);
    let clock = clock_at(zone, at);
    let mut text = clock_text(alloc, clock)?;
    push_local_end(&mut text, clock, millis)?;
    Ok(text)
}
