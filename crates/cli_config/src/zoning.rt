//! The name of a zone in a configuration, and the rule that replaces it.
ghost use Rattle.std.specs.Prelude.{◌≡◌, ◌++◌, ◌∷◌, [], IfOk, codes, option_map, vec_len};
ghost use Rattle.std.specs.Result.{is_ok};
ghost use Rattle.mds_match.specs.Zone.{zone_of};
ghost use Rattle.cli_config.specs.Zoning.{ended, name_in, named_zone, replaced, stand_in, with_rule, with_zone, written_end, zone_value};

use crate::lexemes::{LexemeKind, is_space, lexemes_of};
use crate::located_members::{Value, piece, string_text};
use crate::members::KnownMember;
use crate::paths::{Path, last_value};
use crate::walk::members_of_text;
use cli_timezone::{ZoneFileFault, ZoneName, ZoneRule};
use mds_match::Zone;
use std::alloc::{AllocError, Global};

/// What the zone of a configuration is.
#[derive(Drop)]
pub enum ResolvedZone {
    /// The text itself.
    Plain,
    /// A name, with this rule.
    Rule(ZoneRule),
    /// A name for which there is no rule.
    Fault(ZoneFileFault),
}

/// The value of the configuration's member `zone`.
fn zone_value(alloc: Global, text: &[u8]) -> Result<Option<Value>, AllocError>
    ensures { IfOk result (λ value. value ≡ zone_value text.now) }
{
    let marks = lexemes_of(alloc, text)?;
    let spots = members_of_text(alloc, text, &marks)?;
    Ok(last_value(Path::Member(KnownMember::Zone), &spots))
}

/// Whether a text is a zone by itself.
fn is_zone(text: &str) -> bool
    ensures { result ≡ is_ok (zone_of text.now) }
{
    Zone::read(text).is_ok()
}

/// The name of a configuration's zone: its member `zone`, where that is a text which is no zone by itself, and which
/// may be the name of one. For a text that is no JSON the result means nothing.
///
/// # Errors
///
/// Out of memory.
pub fn zone_name_in(alloc: Global, text: &[u8]) -> Result<Option<ZoneName>, AllocError>
    ensures { IfOk result (λ name. option_map (λ n. n) name ≡ named_zone text.now) }
{
    let Some(value) = zone_value(alloc, text)? else {
        return Ok(None);
    };
    if value.sign != LexemeKind::Text {
        return Ok(None);
    }
    let name = string_text(alloc, piece(text, value.from, value.to))?;
    if is_zone(name.as_str()) {
        return Ok(None);
    }
    ZoneName::read(alloc, name.as_str())
}

/// The offset after the last byte of a value that isn't white space.
fn written_end(text: &[u8], value: Value) -> usize
    ensures { result ≡ written_end text.now value }
{
    let mut at = value.from;
    let mut end = value.from;
    for byte in piece(text, value.from, value.to) {
        at += 1;
        if !is_space(*byte) {
            end = at;
        }
    }
    end
}

/// The text with another string in place of a value.
fn replace_value(
    alloc: Global,
    text: &[u8],
    value: Value,
    rule: &str,
) -> Result<Vec<u8>, AllocError>
    ensures { IfOk result (λ new. new.items ≡ replaced text.now value rule.now) }
{
    let mut new = Vec::new(alloc);
    new.extend_from_slice(piece(text, 0, value.from))?;
    new.push(b'"')?;
    new.extend_from_slice(rule.as_bytes())?;
    new.push(b'"')?;
    new.extend_from_slice(piece(text, written_end(text, value), text.len()))?;
    Ok(new)
}

/// The text with a string in place of its zone.
fn with_text(alloc: Global, text: &[u8], rule: &str) -> Result<Vec<u8>, AllocError>
    ensures { IfOk result (λ new. new.items ≡ with_zone text.now rule.now) }
{
    match zone_value(alloc, text)? {
        Some(value) if value.sign == LexemeKind::Text => replace_value(alloc, text, value, rule),
        _ => Vec::from_slice(alloc, text),
    }
}

/// The configuration with this rule in place of its zone's name: all else stays as it was, byte for byte. A text
/// without a member `zone` that is a string stays as it is.
///
/// # Errors
///
/// Out of memory.
pub fn with_zone(alloc: Global, text: &[u8], rule: &ZoneRule) -> Result<Vec<u8>, AllocError>
    ensures { IfOk result (λ new. new.items ≡ with_zone text.now rule.now) }
{
    with_text(alloc, text, rule.as_str())
}

/// The text that is checked; where there is no rule for the name, some zone takes its place.
///
/// # Errors
///
/// Out of memory.
pub(crate) fn text_to_check(
    alloc: Global,
    text: &[u8],
    zoned: &ResolvedZone,
) -> Result<Vec<u8>, AllocError>
    ensures { IfOk result (λ new. new.items ≡ stand_in text.now zoned.now) }
{
    match zoned {
        ResolvedZone::Plain => Vec::from_slice(alloc, text),
        ResolvedZone::Rule(rule) => with_zone(alloc, text, rule),
        ResolvedZone::Fault(_) => with_text(alloc, text, "Z"),
    }
}
