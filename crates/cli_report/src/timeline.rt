//! A rule's day as a time line: a drawing of 1,440 units, one for each minute of the local day, by the clock.
ghost use Rattle.std.specs.Prelude.{◌≡◌, ◌==◌, ◌<◌, ◌≤◌, ◌+◌, ◌-◌, ◌/◌, ◌∷◌, ◌++◌, drop, length, take, IfOk, OnOk};
ghost use Rattle.std.specs.Prelude.{string_bytes};
ghost use Rattle.cli_report.specs.Days.{grouped_by};
ghost use Rattle.cli_report.specs.Lines.{are_alike, begin_text, goes_on, is_same, mark_begin, mark_end, mark_of};
ghost use Rattle.cli_report.specs.Lines.{mark_text, mark_width, marks, minute_at, place_text, shape, shape_text};
ghost use Rattle.cli_report.specs.Lines.{width_text};
ghost use Rattle.cli_report.specs.Page.{day_pieces, line_pieces};
ghost use Rattle.cli_report.specs.Pieces.{IsWritten};
ghost use Rattle.cli_report.specs.Texts.{Appends};

use crate::cell::CellValue;
use crate::days::{DaySample, first_of, front_of, last_of, open_ones, rest_of, violations};
use crate::pieces::{PagePiece, push_bytes, push_pieces};
use crate::reported::ReportSpan;
use cli_calendar::clock_at;
use mds_match::Zone;
use mds_text::Moment;
use std::alloc::{AllocError, Global};

/// The seconds of a day.
const DAY_SECONDS: u64 = 86_400;
/// The seconds of a minute.
const MINUTE_SECONDS: u64 = 60;
/// The milliseconds of a minute.
const MINUTE: u64 = 60_000;
/// The minutes of a day, and so the units of a line.
const DAY_MINUTES: u64 = 1_440;
/// What a drawing begins with: marks at 6, 12 and 18 o'clock.
const DRAWING: &str =
    "</th><td><svg viewBox=\"0 0 1440 12\" preserveAspectRatio=\"none\"><path d=\"M360 0v12M720 0v12M1080 0v12\"/>";

/// Whether two answers are the same.
fn is_same(one: bool, other: bool) -> bool
    ensures { result ≡ is_same one other }
{
    if one { other } else { !other }
}

/// Whether two samples are drawn alike.
fn are_alike(one: &DaySample, other: &DaySample) -> bool
    ensures { result ≡ are_alike one.now other.now }
{
    is_same(one.violated, other.violated) && is_same(one.judged, other.judged)
}

/// The minute of the local day that the clock shows at a moment.
fn minute_at(zone: &Zone, at: Moment) -> u64
    ensures value { result ≡ minute_at zone.now at }
    ensures bound { result < 1440 }
{
    clock_at(zone, at) % DAY_SECONDS / MINUTE_SECONDS
}

/// Whether a moment is so many milliseconds behind another one.
fn is_next(at: Moment, next: Moment, every: u64) -> bool
    ensures { result ≡ (next - at == every) }
{
    let begin = at.get().unsigned_abs();
    next.get().unsigned_abs().saturating_sub(begin) == every
}

/// Whether the clock went so many milliseconds from a moment to another one: it wasn't set in between.
fn is_shown_next(zone: &Zone, at: Moment, next: Moment, every: u64) -> bool
    ensures { result ≡ (minute_at zone.now next == minute_at zone.now at + every / 60000) }
{
    let went = every / MINUTE;
    minute_at(zone, next) == minute_at(zone, at) + went
}

/// Whether one mark goes on from a sample to the next one.
fn goes_on(zone: &Zone, span: &ReportSpan, one: &DaySample, other: &DaySample) -> bool
    ensures { result ≡ goes_on zone.now span.now.every one.now other.now }
{
    are_alike(one, other)
        && is_next(one.at, other.at, span.every)
        && is_shown_next(zone, one.at, other.at, span.every)
}

/// How many samples, from the first one on, are of one mark.
fn count_in_mark(zone: &Zone, span: &ReportSpan, samples: &[DaySample]) -> usize
    requires { 0 < length samples.now }
    ensures group { grouped_by (goes_on zone.now span.now.every) samples.now
        ≡ take result samples.now ∷ grouped_by (goes_on zone.now span.now.every) (drop result samples.now) }
    ensures some { 0 < result }
    ensures within { result ≤ length samples.now }
{
    for last in 0..samples.len() - 1 {
        if !goes_on(zone, span, &samples[last], &samples[last + 1]) {
            return last + 1;
        }
    }
    samples.len()
}

/// How high a mark is: a violated rule's is as high as the line, a kept one's a third of it, that of one that is closed or
/// not evaluated a hair.
fn shape_of(violated: bool, judged: bool) -> &'static str
    ensures { result.now ≡ shape violated judged }
{
    match (violated, judged) {
        (true, _) => "class=\"violated\" y=\"0\" height=\"12\"",
        (false, true) => "class=\"kept\" y=\"4\" height=\"4\"",
        (false, false) => "class=\"closed\" y=\"5.5\" height=\"1\"",
    }
}

/// Where the mark ends that a sample is the last one of, at most at midnight.
fn mark_end(zone: &Zone, span: &ReportSpan, last: &DaySample) -> u64
    ensures { result ≡ mark_end zone.now span.now.every last.now }
{
    let stands = span.every / MINUTE;
    (minute_at(zone, last.at) + stands).min(DAY_MINUTES)
}

/// How wide the mark of samples from one to another is; a unit at least.
fn mark_width(zone: &Zone, span: &ReportSpan, first: &DaySample, last: &DaySample) -> u64
    ensures { result ≡ mark_width zone.now span.now.every first.now last.now }
{
    let begin = minute_at(zone, first.at);
    mark_end(zone, span, last).saturating_sub(begin).max(1)
}

/// Where a mark begins.
fn begin_text(alloc: Global, begin: u64) -> Result<String, AllocError>
    ensures { IfOk result (λ text. string_bytes text ≡ begin_text begin) }
{
    format!(in alloc; " x=\"{begin}\"")
}

/// How wide a mark is, and its end.
fn width_text(alloc: Global, width: u64) -> Result<String, AllocError>
    ensures { IfOk result (λ text. string_bytes text ≡ width_text width) }
{
    format!(in alloc; " width=\"{width}\"/>")
}

/// Where a mark begins and how wide it is.
fn place_text(alloc: Global, begin: u64, width: u64) -> Result<String, AllocError>
    ensures { IfOk result (λ text. string_bytes text ≡ place_text begin width) }
{
    let mut text = begin_text(alloc, begin)?;
    let width = width_text(alloc, width)?;
    text.push_str(width.as_str())?;
    Ok(text)
}

/// The beginning of a mark.
fn shape_text(alloc: Global, violated: bool, judged: bool) -> Result<String, AllocError>
    ensures { IfOk result (λ text. string_bytes text ≡ shape_text violated judged) }
{
    let shape = shape_of(violated, judged);
    format!(in alloc; "<rect {shape}")
}

/// The mark of samples from one to another.
fn mark_text(
    alloc: Global,
    zone: &Zone,
    span: &ReportSpan,
    first: &DaySample,
    last: &DaySample,
) -> Result<String, AllocError>
    ensures { IfOk result (λ text. string_bytes text ≡ mark_text zone.now span.now.every first.now last.now) }
{
    let mut text = shape_text(alloc, first.violated, first.judged)?;
    let begin = minute_at(zone, first.at);
    let width = mark_width(zone, span, first, last);
    let place = place_text(alloc, begin, width)?;
    text.push_str(place.as_str())?;
    Ok(text)
}

/// Appends the mark of samples.
fn push_mark(
    out: &mut Vec<u8>,
    zone: &Zone,
    span: &ReportSpan,
    samples: &[DaySample],
) -> Result<(), AllocError>
    requires { 0 < length samples.now }
    ensures { OnOk result (out.new.items ≡ out.old.items ++ mark_of zone.now span.now.every samples.now) }
{
    let first = first_of(samples);
    let last = last_of(samples);
    let text = mark_text(*out.allocator(), zone, span, first, last)?;
    push_bytes(out, text.as_bytes())
}

/// The marks of a day's samples.
///
/// # Errors
///
/// Out of memory.
fn marks_of(
    alloc: Global,
    zone: &Zone,
    span: &ReportSpan,
    samples: &[DaySample],
) -> Result<Vec<u8>, AllocError>
    ensures { IfOk result (λ text. text.items ≡ marks zone.now span.now.every samples.now) }
{
    let mut out = Vec::new(alloc);
    let mut left = samples;
    'marks: while !left.is_empty() {
        let count = count_in_mark(zone, span, left);
        let group = front_of(left, count);
        let rest = rest_of(left, count);
        push_mark(&mut out, zone, span, group)?;
        left = rest;
    }
    Ok(out)
}

/// Appends the row of the day of a sample, with these marks, and so many violated ones of so many samples in which the rule
/// was open.
fn push_line(
    out: &mut Vec<u8>,
    zone: &Zone,
    first: &DaySample,
    marks: &[u8],
    violated: usize,
    judged: usize,
) -> Result<(), AllocError>
    ensures { OnOk result (Appends (IsWritten zone.now (line_pieces first.now.at marks.now violated judged))
        out.old.items out.new.items) }
{
    let pieces = [
        PagePiece::Markup("<tr><th>"),
        PagePiece::Value(CellValue::Day(first.at)),
        PagePiece::Markup(DRAWING),
        PagePiece::Drawn(marks),
        PagePiece::Markup("</svg></td><td>"),
        PagePiece::Value(CellValue::Number(violated as u64)),
        PagePiece::Markup(" of "),
        PagePiece::Value(CellValue::Number(judged as u64)),
        PagePiece::Markup("</td></tr>\n"),
    ];
    push_pieces(out, zone, &pieces)
}

/// Appends a row of a table: a day, its time line, and in how many of its samples in which the rule was open it was violated.
///
/// # Errors
///
/// Out of memory. Then a part may have been appended.
pub(crate) fn push_day_line(
    out: &mut Vec<u8>,
    zone: &Zone,
    span: &ReportSpan,
    samples: &[DaySample],
) -> Result<(), AllocError>
    requires { 0 < length samples.now }
    ensures { OnOk result (Appends (IsWritten zone.now (day_pieces zone.now span.now.every samples.now))
        out.old.items out.new.items) }
{
    let alloc = *out.allocator();
    let first = first_of(samples);
    let marks = marks_of(alloc, zone, span, samples)?;
    let violated = violations(alloc, samples)?.len();
    let judged = open_ones(alloc, samples)?.len();
    push_line(out, zone, first, &marks, violated, judged)
}
