//! A city's zone in words.
ghost use Rattle.std.specs.Prelude.{◌≡◌, ◌++◌, option_map, unsigned_abs, IfOk, OnOk};
ghost use Rattle.jiff_tz.specs.PosixText.{dst_view, tz_view};
ghost use Rattle.cli_calendar.specs.Texts.{span_text, two};
ghost use Rattle.cli_report_command.specs.Zones.{fixed_text, in_parentheses, offset_text, rule_text, saving_text, season};
ghost use Rattle.cli_report_command.specs.Zones.{sign_text, words_read, zone_text, zone_words};

use jiff_tz::posix::{Dst, TimeZone};
use std::alloc::{AllocError, Global};

/// What stands in front of an offset's hours.
fn sign_text(seconds: i32) -> &'static [u8]
    ensures { result.now ≡ sign_text seconds }
{
    if seconds < 0 { b"UTC-" } else { b"UTC+" }
}

/// Appends the last two decimal digits.
fn push_two(text: &mut Vec<u8>, number: u32) -> Result<(), AllocError>
    ensures { OnOk result (text.new.items ≡ text.old.items ++ two number) }
{
    text.push(b'0' + (number / 10 % 10) as u8)?;
    text.push(b'0' + (number % 10) as u8)?;
    Ok(())
}

/// Appends a span of seconds in hours and minutes, as `05:00`.
fn push_span(text: &mut Vec<u8>, seconds: u32) -> Result<(), AllocError>
    ensures { OnOk result (text.new.items ≡ text.old.items ++ span_text seconds) }
{
    push_two(text, seconds / 3600)?;
    text.push(b':')?;
    push_two(text, seconds / 60 % 60)
}

/// Appends how far a clock is ahead of UTC's, or behind it, as `UTC-05:00`.
fn push_offset(text: &mut Vec<u8>, seconds: i32) -> Result<(), AllocError>
    ensures { OnOk result (text.new.items ≡ text.old.items ++ offset_text seconds) }
{
    text.extend_from_slice(sign_text(seconds))?;
    push_span(text, seconds.unsigned_abs())
}

/// When daylight saving time is in force.
fn season(standard: i32, saving: i32) -> &'static [u8]
    ensures { result.now ≡ season standard saving }
{
    if standard < saving {
        b", in summer "
    } else {
        b", in winter "
    }
}

/// Appends the offset of daylight saving time, where there is such.
fn push_saving(text: &mut Vec<u8>, standard: i32, saving: &Option<Dst>) -> Result<(), AllocError>
    ensures { OnOk result (text.new.items ≡ text.old.items ++ saving_text standard (option_map dst_view saving.now)) }
{
    match saving {
        Some(dst) => {
            text.extend_from_slice(season(standard, dst.offset.seconds))?;
            push_offset(text, dst.offset.seconds)
        }
        None => Ok(()),
    }
}

/// A rule in words, as `UTC-05:00, in summer UTC-04:00`.
fn rule_text(alloc: Global, rule: &TimeZone) -> Result<Vec<u8>, AllocError>
    ensures { IfOk result (λ text. text.items ≡ rule_text (tz_view rule.now)) }
{
    let mut text = Vec::new(alloc);
    push_offset(&mut text, rule.std_offset.seconds)?;
    push_saving(&mut text, rule.std_offset.seconds, &rule.dst)?;
    Ok(text)
}

/// A zone in words whose text is no rule.
fn fixed_text(alloc: Global, zone: &str) -> Result<Vec<u8>, AllocError>
    ensures { IfOk result (λ text. text.items ≡ fixed_text zone.now) }
{
    let mut text = Vec::new(alloc);
    text.extend_from_slice(b"UTC")?;
    if zone == "Z" {
        return Ok(text);
    }
    text.extend_from_slice(zone.as_bytes())?;
    Ok(text)
}

/// A zone in words, by its text in a configuration: how far its clock is ahead of UTC or behind it.
///
/// # Errors
///
/// Memory ran out.
pub fn zone_words(alloc: Global, zone: &str) -> Result<Vec<u8>, AllocError>
    ensures { IfOk result (λ text. text.items ≡ zone_words zone.now) }
{
    match TimeZone::parse(zone.as_bytes()) {
        Ok(rule) => rule_text(alloc, &rule),
        Err(_) => fixed_text(alloc, zone),
    }
}

/// Appends words behind a name.
fn push_words(text: &mut Vec<u8>, words: &[u8]) -> Result<(), AllocError>
    ensures { OnOk result (text.new.items ≡ text.old.items ++ in_parentheses words.now) }
{
    text.extend_from_slice(b" (")?;
    text.extend_from_slice(words)?;
    text.extend_from_slice(b")")
}

/// A zone by its name, with these words, or else by the words alone.
///
/// # Errors
///
/// Memory ran out.
pub fn zone_text(alloc: Global, name: Option<&str>, words: &[u8]) -> Result<Vec<u8>, AllocError>
    ensures { IfOk result (λ zone. zone.items ≡ zone_text (option_map (λ s. s.now) name.entry) words.now) }
{
    let mut zone = Vec::new(alloc);
    match name {
        Some(name) => {
            zone.extend_from_slice(name.as_bytes())?;
            push_words(&mut zone, words)?;
            Ok(zone)
        }
        None => {
            zone.extend_from_slice(words)?;
            Ok(zone)
        }
    }
}
