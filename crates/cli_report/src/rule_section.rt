//! A rule on the page: its titles, its bounds, how often, by how much and since when it is violated, and its days.
ghost use Rattle.std.specs.Prelude.{◌≡◌, ◌++◌, IfOk, OnOk, map, option_map, string_bytes};
ghost use Rattle.mds_policy.specs.Policy.{rule_document};
ghost use Rattle.cli_report.specs.Cells.{cell_view};
ghost use Rattle.cli_report.specs.Counts.{all_behind, counts_of};
ghost use Rattle.cli_report.specs.Days.{grouped, violations};
ghost use Rattle.cli_report.specs.Names.{label_view, tree_policy};
ghost use Rattle.cli_report.specs.Page.{counts_pieces, day_pieces, days_pieces, heading, heading_text, judgment_pieces};
ghost use Rattle.cli_report.specs.Page.{limits_behind, rule_pieces, rules_pieces, title_pieces, worst_behind};
ghost use Rattle.cli_report.specs.Pieces.{IsWritten};
ghost use Rattle.cli_report.specs.Ranks.{samples_of};
ghost use Rattle.cli_report.specs.Texts.{Appends, Spells};

use crate::cell::CellValue;
use crate::counts::{SampleCounts, all_behind, counts_of};
use crate::days::{DaySample, count_first, first_of, front_of, rest_of, violations};
use crate::excess::worst_text;
use crate::names::{PolicyTree, RuleLabel, label_of};
use crate::pieces::{PagePiece, push_markup, push_pieces};
use crate::ranking::{RuleSpan, samples_of};
use crate::reported::ReportSpan;
use crate::spells::push_end;
use crate::timeline::push_day_line;
use crate::words::push_bounds;
use mds_match::Zone;
use mds_policy::Rule;
use std::alloc::{AllocError, Global};

/// What stands in front of what a rule goes by: nothing in front of its name.
fn heading_text(name: &[u8]) -> &'static str
    ensures { result.now ≡ heading_text name.now }
{
    if name.is_empty() { "Rule " } else { "" }
}

/// What a rule goes by: its name, or else its number.
fn heading(name: &[u8], place: usize) -> CellValue<'_>
    ensures { cell_view result ≡ heading name.now place }
{
    if name.is_empty() {
        CellValue::Place(place)
    } else {
        CellValue::Text(name)
    }
}

/// Appends a rule's titles, by its names and by a sample of it.
fn push_titles<'x>(
    out: &mut Vec<u8>,
    zone: &Zone,
    label: &RuleLabel<'x>,
    first: &DaySample,
) -> Result<(), AllocError>
    ensures { OnOk result (Appends (IsWritten zone.now (title_pieces (label_view label.now) first.now))
        out.old.items out.new.items) }
{
    let pieces = [
        PagePiece::Markup("<h3>"),
        PagePiece::Markup(heading_text(label.name)),
        PagePiece::Value(heading(label.name, first.number)),
        PagePiece::Markup(" <small>"),
        PagePiece::Value(CellValue::Id(first.rule)),
        PagePiece::Markup("</small></h3>\n<p>Policy &ldquo;"),
        PagePiece::Value(CellValue::Text(label.policy)),
        PagePiece::Markup("&rdquo; <small>"),
        PagePiece::Value(CellValue::Id(first.policy)),
        PagePiece::Markup("</small>, rule "),
        PagePiece::Value(CellValue::Place(first.number)),
    ];
    push_pieces(out, zone, &pieces)
}

/// A rule's bounds in words, behind a colon; nothing where the rule isn't known.
fn limits_text(alloc: Global, rule: Option<&Rule>) -> Result<Vec<u8>, AllocError>
    ensures { IfOk result (λ text. text.items ≡ limits_behind (option_map (λ r. rule_document r.now) rule.entry)) }
{
    let mut text = Vec::new(alloc);
    match rule {
        Some(rule) => {
            text.extend_from_slice(b": ")?;
            push_bounds(&mut text, rule.kind, &rule.bounds)?;
            Ok(text)
        }
        None => Ok(text),
    }
}

/// By how much a rule was violated in these samples, all of them violated; nothing where the rule isn't known.
fn worst_of(
    alloc: Global,
    rule: Option<&Rule>,
    violated: &[DaySample],
) -> Result<String, AllocError>
    ensures { IfOk result (λ text. string_bytes text
        ≡ worst_behind (option_map (λ r. rule_document r.now) rule.entry) violated.now) }
{
    match rule {
        Some(rule) => worst_text(alloc, rule.kind, &rule.bounds, violated),
        None => Ok(String::new(alloc)),
    }
}

/// Appends a rule's bounds in words, how many of its samples are violated, of those in which it was open and of all, and by
/// how much.
fn push_counts<'x>(
    out: &mut Vec<u8>,
    zone: &Zone,
    limits: &'x [u8],
    worst: &'x str,
    all: &'x str,
    counts: &SampleCounts,
) -> Result<(), AllocError>
    ensures { OnOk result (Appends (IsWritten zone.now (counts_pieces limits.now worst.now all.now counts.now))
        out.old.items out.new.items) }
{
    let pieces = [
        PagePiece::Drawn(limits),
        PagePiece::Markup(". Violated in "),
        PagePiece::Value(CellValue::Number(counts.violated)),
        PagePiece::Markup(" of "),
        PagePiece::Value(CellValue::Number(counts.judged)),
        PagePiece::Markup(" samples"),
        PagePiece::Markup(all),
        PagePiece::Markup("."),
        PagePiece::Markup(worst),
        PagePiece::Markup("</p>\n"),
    ];
    push_pieces(out, zone, &pieces)
}

/// Appends a rule's bounds in words, how many of its samples are violated, and by how much.
fn push_judgment(
    out: &mut Vec<u8>,
    zone: &Zone,
    rule: Option<&Rule>,
    samples: &[DaySample],
) -> Result<(), AllocError>
    ensures { OnOk result (Appends (IsWritten zone.now
        (judgment_pieces (option_map (λ r. rule_document r.now) rule.entry) samples.now)) out.old.items out.new.items) }
{
    let alloc = *out.allocator();
    let violated = violations(alloc, samples)?;
    let limits = limits_text(alloc, rule)?;
    let worst = worst_of(alloc, rule, &violated)?;
    let counts = counts_of(alloc, samples)?;
    let all = all_behind(alloc, &counts)?;
    push_counts(out, zone, &limits, worst.as_str(), all.as_str(), &counts)
}

/// Appends a line for each day of a rule's samples in order.
#[tactic(auto, using(crate::proofs::Dayed::none_yet))]
fn push_day_lines(
    out: &mut Vec<u8>,
    zone: &Zone,
    span: &ReportSpan,
    samples: &[DaySample],
) -> Result<(), AllocError>
    ensures { OnOk result (Appends (Spells (λ day. IsWritten zone.now (day_pieces zone.now span.now.every day))
        (grouped samples.now)) out.old.items out.new.items) }
{
    let mut left = samples;
    'days: while !left.is_empty() {
        let count = count_first(left);
        let group = front_of(left, count);
        let rest = rest_of(left, count);
        push_day_line(out, zone, span, group)?;
        left = rest;
    }
    Ok(())
}

/// Appends the table of a rule's days, by its samples in order.
fn push_days(
    out: &mut Vec<u8>,
    zone: &Zone,
    span: &ReportSpan,
    samples: &[DaySample],
) -> Result<(), AllocError>
    ensures { OnOk result (Appends (IsWritten zone.now (days_pieces zone.now span.now.every samples.now))
        out.old.items out.new.items) }
{
    push_markup(out, zone, "<table>\n")?;
    push_day_lines(out, zone, span, samples)?;
    push_markup(out, zone, "</table>\n")
}

/// Appends a rule with its days, by its samples in order; nothing where there are none.
fn push_rule(
    out: &mut Vec<u8>,
    zone: &Zone,
    span: &ReportSpan,
    trees: &[PolicyTree<'_>],
    samples: &[DaySample],
) -> Result<(), AllocError>
    ensures { OnOk result (Appends (IsWritten zone.now (rule_pieces zone.now span.now (map tree_policy trees.now) samples.now))
        out.old.items out.new.items) }
{
    if samples.is_empty() {
        return push_pieces(out, zone, &[]);
    }
    let first = first_of(samples);
    let label = label_of(trees, first.policy, first.number);
    push_titles(out, zone, &label, first)?;
    push_judgment(out, zone, label.rule, samples)?;
    push_end(out, zone, span, samples)?;
    push_days(out, zone, span, samples)
}

/// Appends a rule of samples in order.
fn push_ranked_rule(
    out: &mut Vec<u8>,
    zone: &Zone,
    span: &ReportSpan,
    trees: &[PolicyTree<'_>],
    ordered: &[DaySample],
    rule: &RuleSpan,
) -> Result<(), AllocError>
    ensures { OnOk result (Appends (IsWritten zone.now
        (rule_pieces zone.now span.now (map tree_policy trees.now) (samples_of ordered.now rule.now)))
        out.old.items out.new.items) }
{
    let samples = samples_of(ordered, rule);
    push_rule(out, zone, span, trees, samples)
}

/// Appends these rules of samples in order, in their order.
///
/// # Errors
///
/// Out of memory. Then a part may have been appended.
#[tactic(auto, using(crate::proofs::Spelled::none_yet))]
pub(crate) fn push_rules(
    out: &mut Vec<u8>,
    zone: &Zone,
    span: &ReportSpan,
    trees: &[PolicyTree<'_>],
    ordered: &[DaySample],
    rules: &[RuleSpan],
) -> Result<(), AllocError>
    ensures { OnOk result (Appends (IsWritten zone.now
        (rules_pieces zone.now span.now (map tree_policy trees.now) ordered.now rules.now)) out.old.items out.new.items) }
{
    for rule in rules {
        push_ranked_rule(out, zone, span, trees, ordered, rule)?;
    }
    Ok(())
}
