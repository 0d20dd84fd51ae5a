//! The summary of an operator's rules, day by day, as rows of CSV.
ghost use Rattle.std.specs.Prelude.{◌≡◌, ◌<◌, IfOk, OnOk, length, map};
ghost use Rattle.mds_catalog.specs.Catalogue.{publications_of};
ghost use Rattle.cli_report.specs.Cells.{IsRow};
ghost use Rattle.cli_report.specs.Names.{label_view, policies_in, tree_policy};
ghost use Rattle.cli_report.specs.Rows.{IsDays, IsSummary, day_cells, day_row, first_moment, last_moment};
ghost use Rattle.cli_report.specs.Rows.{operator_view, summary_header, tally_of};
ghost use Rattle.cli_report.specs.Texts.{Appends};

use crate::cell::CellValue;
use crate::days::{
    DaySample, count_first, first_of, front_of, greatest_measure, least_measure, longest_run,
    open_ones, ordered_days, rest_of, violations,
};
use crate::names::{PolicyTree, RuleLabel, label_of, trees_in};
use crate::reported::ReportedOperator;
use crate::rows::push_row;
use mds_match::Zone;
use mds_text::Moment;
use std::alloc::{AllocError, Global};

/// The names of the columns up to the samples.
const COLUMNS: &str =
    "operator_id,operator_name,policy_id,policy_name,rule_number,rule_id,rule_name,day,samples,violated,";
/// The names of the other columns.
const RUN_COLUMNS: &str =
    "longest,longest_first,longest_last,first_violated,last_violated,greatest_measure,least_measure\r\n";

/// What the samples of a rule's day come to.
#[derive(Clone, Copy)]
pub(crate) struct Tally {
    /// How many there are.
    pub(crate) samples: u64,
    /// How many are of a violated rule.
    pub(crate) violated: u64,
    /// How many are in the longest run of these in a row.
    pub(crate) longest: u64,
    /// The moment of its first sample, where there is one.
    pub(crate) longest_first: Option<Moment>,
    /// The moment of its last sample.
    pub(crate) longest_last: Option<Moment>,
    /// The moment of the first violated sample, where there is one.
    pub(crate) first_violated: Option<Moment>,
    /// The moment of the last violated sample.
    pub(crate) last_violated: Option<Moment>,
    /// The greatest measure.
    pub(crate) greatest_measure: u64,
    /// The least measure of those in which the rule was open, where there are any.
    pub(crate) least_measure: Option<u64>,
}

/// The moment of the first of some samples, where there is one.
fn first_moment(samples: &[DaySample]) -> Option<Moment>
    ensures { result ≡ first_moment samples.now }
{
    match samples.first() {
        Some(sample) => Some(sample.at),
        None => None,
    }
}

/// The moment of the last of some samples, where there is one.
fn last_moment(samples: &[DaySample]) -> Option<Moment>
    ensures { result ≡ last_moment samples.now }
{
    match samples.last() {
        Some(sample) => Some(sample.at),
        None => None,
    }
}

/// What the samples of a rule's day come to.
fn tally_of(alloc: Global, samples: &[DaySample]) -> Result<Tally, AllocError>
    ensures { IfOk result (λ tally. tally ≡ tally_of samples.now) }
{
    let violated = violations(alloc, samples)?;
    let open = open_ones(alloc, samples)?;
    let longest = longest_run(samples);
    Ok(Tally {
        samples: samples.len() as u64,
        violated: violated.len() as u64,
        longest: longest.len() as u64,
        longest_first: first_moment(longest),
        longest_last: last_moment(longest),
        first_violated: first_moment(&violated),
        last_violated: last_moment(&violated),
        greatest_measure: greatest_measure(samples),
        least_measure: least_measure(&open),
    })
}

/// Appends the row of a rule's day, of which this is the first sample.
fn push_tally<'x>(
    out: &mut Vec<u8>,
    zone: &Zone,
    operator: &ReportedOperator<'x>,
    label: &RuleLabel<'x>,
    first: &DaySample,
    tally: &Tally,
) -> Result<(), AllocError>
    ensures { OnOk result (Appends (IsRow zone.now (day_cells (operator_view operator.now)
        (label_view label.now) first.now tally.now))
        out.old.items out.new.items) }
{
    let cells = [
        CellValue::Id(operator.id),
        CellValue::Text(operator.name),
        CellValue::Id(first.policy),
        CellValue::Text(label.policy),
        CellValue::Number(first.number as u64),
        CellValue::Id(first.rule),
        CellValue::Text(label.name),
        CellValue::Day(first.at),
        CellValue::Number(tally.samples),
        CellValue::Number(tally.violated),
        CellValue::Number(tally.longest),
        CellValue::Local(tally.longest_first),
        CellValue::Local(tally.longest_last),
        CellValue::Local(tally.first_violated),
        CellValue::Local(tally.last_violated),
        CellValue::Number(tally.greatest_measure),
        CellValue::NumberIf(tally.least_measure),
    ];
    push_row(out, zone, &cells)
}

/// Appends the row of the samples of a rule's day.
fn push_day(
    out: &mut Vec<u8>,
    zone: &Zone,
    operator: &ReportedOperator<'_>,
    trees: &[PolicyTree<'_>],
    samples: &[DaySample],
) -> Result<(), AllocError>
    requires { 0 < length samples.now }
    ensures { OnOk result (Appends (IsRow zone.now (day_row (operator_view operator.now)
        (map tree_policy trees.now) samples.now))
        out.old.items out.new.items) }
{
    let first = first_of(samples);
    let label = label_of(trees, first.policy, first.number);
    let tally = tally_of(*out.allocator(), samples)?;
    push_tally(out, zone, &*operator, &label, first, &tally)
}

/// Appends a row for each rule and day of samples in order.
#[tactic(auto, using(crate::proofs::Dayed::none_yet))]
fn push_days(
    out: &mut Vec<u8>,
    zone: &Zone,
    operator: &ReportedOperator<'_>,
    trees: &[PolicyTree<'_>],
    ordered: &[DaySample],
) -> Result<(), AllocError>
    ensures { OnOk result (Appends (IsDays zone.now (operator_view operator.now)
        (map tree_policy trees.now) ordered.now)
        out.old.items out.new.items) }
{
    let mut left = ordered;
    'days: while !left.is_empty() {
        let count = count_first(left);
        let group = front_of(left, count);
        let rest = rest_of(left, count);
        push_day(out, zone, operator, trees, group)?;
        left = rest;
    }
    Ok(())
}

/// The first row: the names of the columns.
///
/// # Errors
///
/// Out of memory.
pub fn summary_header(alloc: Global) -> Result<Vec<u8>, AllocError>
    ensures { IfOk result (λ text. text.items ≡ summary_header) }
{
    let mut text = Vec::new(alloc);
    text.extend_from_slice(COLUMNS.as_bytes())?;
    text.extend_from_slice(RUN_COLUMNS.as_bytes())?;
    Ok(text)
}

/// Appends a row for each rule and local day of an operator's samples, in the order of the policies' identifiers, of
/// the rules' numbers and of the days.
///
/// # Errors
///
/// Out of memory. Then some of the rows may have been appended.
pub fn push_summary(
    alloc: Global,
    out: &mut Vec<u8>,
    zone: &Zone,
    operator: &ReportedOperator<'_>,
) -> Result<(), AllocError>
    ensures { OnOk result (Appends (IsSummary zone.now (operator_view operator.now)
        (policies_in (publications_of operator.now.catalogue.now)) operator.now.samples.now)
        out.old.items out.new.items) }
{
    let trees = trees_in(alloc, operator.catalogue)?;
    let ordered = ordered_days(alloc, zone, operator.samples)?;
    push_days(out, zone, operator, &trees, &ordered)
}
