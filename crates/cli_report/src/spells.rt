//! The last spell in which a rule was violated, on the page.
ghost use Rattle.std.specs.Prelude.{◌≡◌, OnOk};
ghost use Rattle.cli_report.specs.Page.{before_text, begin_text, end_pieces, end_text, spell_pieces, told_at, until_text};
ghost use Rattle.cli_report.specs.Pieces.{IsWritten};
ghost use Rattle.cli_report.specs.Texts.{Appends};

use crate::cell::CellValue;
use crate::days::DaySample;
use crate::pieces::{PagePiece, push_pieces};
use crate::reported::ReportSpan;
use crate::since::{Spell, SpellEnd, last_violated, spell_of};
use mds_match::Zone;
use mds_text::Moment;
use std::alloc::AllocError;

/// The words for a rule that may have been violated before.
fn before_text(before: bool) -> &'static str
    ensures { result.now ≡ before_text before }
{
    if before { " or before" } else { "" }
}

/// What stands in front of the moment at which a spell began.
fn begin_text(end: SpellEnd) -> &'static str
    ensures { result.now ≡ begin_text end }
{
    match end {
        SpellEnd::Present => {
            "<p>Violated at the report's end, and whenever the rule was open since "
        }
        SpellEnd::Closed | SpellEnd::Over => "<p>Last violated, whenever the rule was open, from ",
    }
}

/// What stands in front of the moment at which it ended.
fn until_text(end: SpellEnd) -> &'static str
    ensures { result.now ≡ until_text end }
{
    match end {
        SpellEnd::Present => "",
        SpellEnd::Closed | SpellEnd::Over => " to ",
    }
}

/// The moment at which it ended; none where it goes on.
fn told_at(end: SpellEnd, until: Moment) -> Option<Moment>
    ensures { result ≡ told_at end until }
{
    match end {
        SpellEnd::Present => None,
        SpellEnd::Closed | SpellEnd::Over => Some(until),
    }
}

/// What stands behind it.
fn end_text(end: SpellEnd) -> &'static str
    ensures { result.now ≡ end_text end }
{
    match end {
        SpellEnd::Present => ". Its lines show each time.</p>\n",
        SpellEnd::Closed => {
            ", the last sample in which it was open. Its lines show each time.</p>\n"
        }
        SpellEnd::Over => "; it was kept since. Its lines show each time.</p>\n",
    }
}

/// Appends since when a rule was violated in a spell, and until when.
fn push_spell(out: &mut Vec<u8>, zone: &Zone, spell: &Spell) -> Result<(), AllocError>
    ensures { OnOk result (Appends (IsWritten zone.now (spell_pieces spell.now)) out.old.items out.new.items) }
{
    let pieces = [
        PagePiece::Markup(begin_text(spell.end)),
        PagePiece::Value(CellValue::Local(spell.since)),
        PagePiece::Markup(before_text(spell.is_before)),
        PagePiece::Markup(until_text(spell.end)),
        PagePiece::Value(CellValue::Local(told_at(spell.end, spell.until))),
        PagePiece::Markup(end_text(spell.end)),
    ];
    push_pieces(out, zone, &pieces)
}

/// Appends since when a rule was violated last, and until when; nothing where it never was.
///
/// # Errors
///
/// Out of memory. Then a part may have been appended.
pub(crate) fn push_end(
    out: &mut Vec<u8>,
    zone: &Zone,
    span: &ReportSpan,
    samples: &[DaySample],
) -> Result<(), AllocError>
    ensures { OnOk result (Appends (IsWritten zone.now (end_pieces span.now samples.now)) out.old.items out.new.items) }
{
    match last_violated(samples) {
        Some(until) => {
            let spell = spell_of(*out.allocator(), span, until, samples)?;
            push_spell(out, zone, &spell)
        }
        None => push_pieces(out, zone, &[]),
    }
}
