//! A time zone as a POSIX TZ rule, and the local time at a moment.
ghost use Rattle.std.specs.Prelude.{◌≡◌, ◌≤ℤ◌, pos, negsuc, unsigned_abs, IfSome};
ghost use Rattle.jiff_core.specs.Timestamp.{IsOffsetSeconds};
ghost use Rattle.jiff_tz.specs.PosixRule.{offset_at};
ghost use Rattle.mds_text.specs.Fault.{Gives};
ghost use Rattle.mds_match.specs.Zone.{with_sign, offset_of, instant_of, local_at};

use crate::local::Local;
use jiff_core::Timestamp;
use jiff_tz::posix;
use mds_text::{Moment, two_digits};
use std::alloc::AllocError;
use std::marker::Model;

/// The most hours of an offset.
const MOST_HOURS: u8 = 14;
/// The most minutes of an offset, after its hours.
const MOST_MINUTES: u8 = 59;
/// The milliseconds from the Sunday before the Unix epoch to the epoch, which was a Thursday.
const FOUR_DAYS: i64 = 345_600_000;
/// The milliseconds of a day.
const DAY: i64 = 86_400_000;
/// The seconds of a day.
const DAY_SECONDS: i64 = 86_400;

/// Why a text is not a time zone.
#[derive(Clone, Copy, Debug, PartialEq, Eq)]
pub enum ZoneFault {
    /// The text is not a zone.
    BadZone,
    /// Out of memory.
    NoMemory,
}

/// The form of a zone: an offset in seconds, positive east of Greenwich, or a POSIX rule.
#[derive(Drop)]
enum ZoneForm {
    Fixed(i64),
    Rule(posix::TimeZone),
}

/// A time zone: a fixed offset from UTC, or a rule as in POSIX's TZ variable. Contracts see the
/// offset, or what the rule says.
#[derive(Drop)]
pub struct Zone {
    kind: ZoneForm,
}

impl Model for Zone {
    ghost use Rattle.mds_match.specs.Zone.{ZoneKind};

    ghost Value = { ZoneKind };

    ghost use Rattle.mds_match.specs.ValidZone.{zone_kind, IsKept};

    ghost view = { λ z. zone_kind z.kind };

    ghost invariant = { λ z. IsKept z.kind };
}

impl Zone {
    ghost use Rattle.std.specs.Prelude.{◌≡◌, Ok, IfErr};
    ghost use Rattle.mds_match.specs.Zone.{zone_of, offset_in, local_of};
    ghost use Rattle.mds_match.specs.ZoneFault.{zone_cause};

    /// Parses a zone: `Z`; `+hh:mm` or `-hh:mm` with hours from 00 to 14 and minutes from 00 to 59;
    /// or a POSIX rule such as `PST8PDT,M3.2.0,M11.1.0`.
    ///
    /// # Errors
    ///
    /// `BadZone` for any other text; never `NoMemory`, since no such zone allocates.
    pub fn read(text: &str) -> Result<Zone, ZoneFault>
        ensures zone { Gives zone_cause (λ z. z) result (zone_of text.now) }
        ensures memory { IfErr result (λ fault. fault ≡ ZoneFault.BadZone) }
    {
        if text == "Z" {
            let kind = ZoneForm::Fixed(0);
            return Ok(Zone { kind });
        }
        if let Some(offset) = offset_of(text.as_bytes()) {
            let kind = ZoneForm::Fixed(offset);
            return Ok(Zone { kind });
        }
        match posix::TimeZone::parse(text.as_bytes()) {
            Ok(rule) => {
                let kind = ZoneForm::Rule(rule);
                Ok(Zone { kind })
            }
            Err(_) => Err(ZoneFault::BadZone),
        }
    }

    /// The local weekday and second of the day at a moment. The second is rounded down, also before
    /// the Unix epoch.
    ///
    /// # Errors
    ///
    /// None: no such zone allocates.
    pub fn local(&self, at: Moment) -> Result<Local, AllocError>
        ensures { result ≡ Ok (local_of self.now at) }
    {
        Ok(local_at(self.offset_at(at), at))
    }

    /// How far the clock is ahead of UTC at a moment, in seconds.
    fn offset_at(&self, at: Moment) -> i64
        ensures value { result ≡ offset_in self.now at }
        ensures bounds { IsOffsetSeconds result }
    {
        match &self.kind {
            ZoneForm::Fixed(offset) => *offset,
            ZoneForm::Rule(rule) => rule_offset(rule, at),
        }
    }
}

/// How far the clock of a rule is ahead of UTC at a moment, in seconds, as `jiff` computes it.
fn rule_offset(rule: &posix::TimeZone, at: Moment) -> i64
    ensures value { result ≡ (offset_at rule.now (instant_of at)).seconds }
    ensures bounds { IsOffsetSeconds result }
{
    let instant = Timestamp::from_nanosecond(i128::from(at.get()) * 1_000_000).unwrap();
    i64::from(rule.to_offset(instant).seconds)
}

/// The local weekday and second of the day at an offset.
fn local_at(offset: i64, at: Moment) -> Local
    requires { IsOffsetSeconds offset }
    ensures { result ≡ local_at offset at }
{
    let instant = at.get() + offset * 1000;
    let days = (instant + FOUR_DAYS).div_euclid(DAY);
    let seconds = instant.div_euclid(1000);
    Local {
        weekday: days.rem_euclid(7) as u8,
        second: seconds.rem_euclid(DAY_SECONDS) as u32,
    }
}

/// The seconds of `+hh:mm` or `-hh:mm`; `None` for any other text.
fn offset_of(text: &[u8]) -> Option<i64>
    ensures value { result ≡ offset_of text.now }
    ensures least { IfSome result (λ offset. negsuc 53939 ≤ℤ offset) }
    ensures most { IfSome result (λ offset. offset ≤ℤ pos 53940) }
{
    let [sign, hour, hours, b':', minute, minutes] = text else {
        return None;
    };
    let hours = two_digits(*hour, *hours, MOST_HOURS)?;
    let minutes = two_digits(*minute, *minutes, MOST_MINUTES)?;
    offset_with_sign(*sign, u32::from(hours) * 3600 + u32::from(minutes) * 60)
}

/// An offset of this size, east of Greenwich for `+`, west of it for `-`; `None` for any other
/// sign.
fn offset_with_sign(sign: u8, size: u32) -> Option<i64>
    ensures value { result ≡ with_sign sign size }
    ensures size { IfSome result (λ offset. unsigned_abs offset ≡ size) }
{
    match sign {
        b'+' => Some(i64::from(size)),
        b'-' => Some(-i64::from(size)),
        _ => None,
    }
}
