//! The report as a page of HTML that needs no other file, runs no script and prints: its head and its end, and an
//! operator's section.
ghost use Rattle.std.specs.Prelude.{◌≡◌, ◌++◌, codes, IfOk, OnOk};
ghost use Rattle.mds_catalog.specs.Catalogue.{publications_of};
ghost use Rattle.cli_report.specs.Names.{policies_in};
ghost use Rattle.cli_report.specs.Page.{IsSection, city_pieces, head_pieces, head_view, minutes_text, moments_pieces};
ghost use Rattle.cli_report.specs.Page.{name_pieces, title_text, to_come_pieces};
ghost use Rattle.cli_report.specs.Pieces.{IsWritten};
ghost use Rattle.cli_report.specs.Rows.{operator_view};
ghost use Rattle.cli_report.specs.Texts.{Appends};

use crate::cell::CellValue;
use crate::days::ordered_days;
use crate::names::trees_in;
use crate::pieces::{PagePiece, push_markup, push_pieces};
use crate::ranking::ranked_rules;
use crate::reported::{ReportHead, ReportSpan, ReportedOperator};
use crate::rule_section::push_rules;
use mds_match::Zone;
use mds_text::Moment;
use std::alloc::{AllocError, Global};

/// The milliseconds of a minute.
const MINUTE: u64 = 60_000;
/// The page up to what is said of the report.
const HEAD: &str = "<!DOCTYPE html>
<html lang=\"en\">
<head>
<meta charset=\"utf-8\">
<meta name=\"viewport\" content=\"width=device-width\">
<title>How operators stood</title>
<style>
body{font:10pt sans-serif;margin:1.5em;color:#000;background:#fff}
h3{margin:1.2em 0 0}
p{margin:.2em 0}
table{border-collapse:collapse;width:100%}
th,td{font-weight:normal;text-align:left;white-space:nowrap;padding:1px 6px 1px 0}
td:nth-child(2){width:100%}
.head td{white-space:normal}
svg{display:block;width:100%;height:12px;background:#fff;border:1px solid #ccc}
svg path{stroke:#ccc;stroke-width:2}
.violated{fill:#000}
.kept{fill:#888}
.closed{fill:#888}
section{break-inside:auto}
h2,h3{break-after:avoid}
tr{break-inside:avoid}
small{font-weight:normal}
</style>
</head>
<body>
<h1>How operators stood</h1>
<table class=\"head\">
";
/// What the signs and words mean.
const LEGEND: &str = "</table>
<p>A line is a local day, from midnight to midnight, with marks at 6, 12 and 18 o'clock. \
A black bar as high as the line: the rule was violated. A gray bar, a third as high: it was kept. \
A thin line: it was closed, or isn't evaluated. Nothing: it wasn't in force, nothing was sampled, \
or there was no such hour, as clocks were set forward over it. The numbers behind a line: in how many of the day's samples \
the rule was violated, of those in which it was open.</p>
<p>A sample is what the operator would have been told of its own fleet at that moment; of what was between two samples \
nothing is said. Of each rule that was violated the last time is told, from when to when; its lines show each time.</p>
";

/// What a city is called that has this title; what is said where it has none.
fn title_text(title: &[u8]) -> &[u8]
    ensures { result.now ≡ title_text title.now }
{
    if title.is_empty() {
        b"Rules for shared vehicles (no city is named: the configuration has no page.title)"
    } else {
        title
    }
}

/// Appends the row of the city's title.
fn push_city(out: &mut Vec<u8>, zone: &Zone, title: &[u8]) -> Result<(), AllocError>
    ensures { OnOk result (Appends (IsWritten zone.now (city_pieces title.now)) out.old.items out.new.items) }
{
    let pieces = [
        PagePiece::Markup("<tr><th>City</th><td>"),
        PagePiece::Value(CellValue::Text(title_text(title))),
        PagePiece::Markup("</td></tr>\n"),
    ];
    push_pieces(out, zone, &pieces)
}

/// Appends the row of the moment up to which a report was asked for, where it was still to come.
fn push_to_come(out: &mut Vec<u8>, zone: &Zone, to_come: Option<Moment>) -> Result<(), AllocError>
    ensures { OnOk result (Appends (IsWritten zone.now (to_come_pieces to_come)) out.old.items out.new.items) }
{
    match to_come {
        Some(at) => {
            let pieces = [
                PagePiece::Markup("<tr><th>Asked for up to</th><td>"),
                PagePiece::Value(CellValue::Local(Some(at))),
                PagePiece::Markup(
                    ", which was still to come: the report ends when it was made</td></tr>\n",
                ),
            ];
            push_pieces(out, zone, &pieces)
        }
        None => push_pieces(out, zone, &[]),
    }
}

/// The word behind a number of minutes.
fn minutes_text<'x>(minutes: u64) -> &'x str
    ensures { result.now ≡ minutes_text minutes }
{
    if minutes == 1 { " minute" } else { " minutes" }
}

/// Appends the rows of a report's zone and moments, of when it was made and by what, and what signs and words mean.
fn push_moments(out: &mut Vec<u8>, zone: &Zone, head: &ReportHead<'_>) -> Result<(), AllocError>
    ensures { OnOk result (Appends (IsWritten zone.now (moments_pieces (head_view head.now)))
        out.old.items out.new.items) }
{
    let minutes = head.span.every / MINUTE;
    let pieces = [
        PagePiece::Markup("<tr><th>Time zone</th><td>"),
        PagePiece::Value(CellValue::Text(head.zone)),
        PagePiece::Markup("</td></tr>\n<tr><th>First sample</th><td>"),
        PagePiece::Value(CellValue::Local(Some(head.span.first))),
        PagePiece::Markup("</td></tr>\n<tr><th>Last sample</th><td>"),
        PagePiece::Value(CellValue::Local(Some(head.span.last))),
        PagePiece::Markup("</td></tr>\n<tr><th>Sampled every</th><td>"),
        PagePiece::Value(CellValue::Number(minutes)),
        PagePiece::Markup(minutes_text(minutes)),
        PagePiece::Markup("</td></tr>\n<tr><th>Made</th><td>"),
        PagePiece::Value(CellValue::Local(head.made)),
        PagePiece::Markup("</td></tr>\n<tr><th>By</th><td>"),
        PagePiece::Value(CellValue::Text(head.program)),
        PagePiece::Markup("</td></tr>\n"),
        PagePiece::Markup(LEGEND),
    ];
    push_pieces(out, zone, &pieces)
}

/// Appends what a page begins with.
fn push_head(out: &mut Vec<u8>, zone: &Zone, head: &ReportHead<'_>) -> Result<(), AllocError>
    ensures { OnOk result (Appends (IsWritten zone.now (head_pieces (head_view head.now)))
        out.old.items out.new.items) }
{
    push_markup(out, zone, HEAD)?;
    push_city(out, zone, head.city)?;
    push_to_come(out, zone, head.to_come)?;
    push_moments(out, zone, head)
}

/// The beginning of the page: its style, its title, what the report is about, and what its signs mean.
///
/// # Errors
///
/// Out of memory.
pub fn page_start(alloc: Global, zone: &Zone, head: &ReportHead<'_>) -> Result<Vec<u8>, AllocError>
    ensures { IfOk result (λ text. IsWritten zone.now (head_pieces (head_view head.now)) text.items) }
{
    let mut out = Vec::new(alloc);
    push_head(&mut out, zone, head)?;
    Ok(out)
}

/// Appends the beginning of an operator's section: its name and its identifier.
fn push_name(
    out: &mut Vec<u8>,
    zone: &Zone,
    operator: &ReportedOperator<'_>,
) -> Result<(), AllocError>
    ensures { OnOk result (Appends (IsWritten zone.now (name_pieces (operator_view operator.now)))
        out.old.items out.new.items) }
{
    let pieces = [
        PagePiece::Markup("<section>\n<h2>"),
        PagePiece::Value(CellValue::Text(operator.name)),
        PagePiece::Markup(" <small>"),
        PagePiece::Value(CellValue::Id(operator.id)),
        PagePiece::Markup("</small></h2>\n"),
    ];
    push_pieces(out, zone, &pieces)
}

/// Appends an operator's section: its name and its rules, the most often violated one first.
///
/// # Errors
///
/// Out of memory. Then a part may have been appended.
pub fn push_page_operator(
    alloc: Global,
    out: &mut Vec<u8>,
    zone: &Zone,
    span: ReportSpan,
    operator: &ReportedOperator<'_>,
) -> Result<(), AllocError>
    ensures { OnOk result (Appends (IsSection zone.now span (operator_view operator.now)
        (policies_in (publications_of operator.now.catalogue.now)) operator.now.samples.now)
        out.old.items out.new.items) }
{
    let trees = trees_in(alloc, operator.catalogue)?;
    let ordered = ordered_days(alloc, zone, operator.samples)?;
    let rules = ranked_rules(alloc, &ordered)?;
    push_name(out, zone, operator)?;
    push_rules(out, zone, &span, &trees, &ordered, &rules)?;
    push_markup(out, zone, "</section>\n")
}

/// Appends the end of the page.
///
/// # Errors
///
/// Out of memory.
pub fn push_page_end(out: &mut Vec<u8>) -> Result<(), AllocError>
    ensures { OnOk result (out.new.items ≡ out.old.items ++ codes "</body>\n</html>\n") }
{
    out.extend_from_slice(b"</body>\n</html>\n")
}
