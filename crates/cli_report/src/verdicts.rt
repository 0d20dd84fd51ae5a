//! The samples of an operator as rows of CSV.
ghost use Rattle.std.specs.Prelude.{◌≡◌, IfOk, OnOk, map};
ghost use Rattle.mds_catalog.specs.Catalogue.{publications_of};
ghost use Rattle.mds_verdict.specs.Verdict.{status_name};
ghost use Rattle.cli_report.specs.Cells.{IsRow};
ghost use Rattle.cli_report.specs.Names.{label_view, policies_in, tree_policy};
ghost use Rattle.cli_report.specs.Rows.{IsVerdicts, kind_units, maximum, minimum, operator_view, units};
ghost use Rattle.cli_report.specs.Rows.{verdict_cells, verdict_header, verdict_row};
ghost use Rattle.cli_report.specs.Texts.{Appends};

use crate::cell::CellValue;
use crate::names::{PolicyTree, RuleLabel, label_of, trees_in};
use crate::reported::ReportedOperator;
use crate::rows::push_row;
use journal_samples::RuleSample;
use mds_match::Zone;
use mds_policy::Kind;
use mds_verdict::Status;
use std::alloc::{AllocError, Global};

/// The names of the columns.
const COLUMNS: &str =
    "moment,local,operator_id,operator_name,policy_id,policy_name,rule_number,rule_id,rule_name,\
    status,measure,minimum,maximum,units\r\n";

/// The name of a status, as a compliance report has it.
fn status_name<'x>(status: Status) -> &'x str
    ensures { result.now ≡ status_name status }
{
    match status {
        Status::NotEvaluated => "not_evaluated",
        Status::Inactive => "inactive",
        Status::Ok => "ok",
        Status::Violated => "violated",
    }
}

/// The least measure of a rule, where it has one.
fn minimum(label: &RuleLabel<'_>) -> Option<u32>
    ensures { result ≡ minimum (label_view label.now) }
{
    match label.rule {
        Some(rule) => rule.bounds.minimum,
        None => None,
    }
}

/// The greatest measure of a rule, where it has one.
fn maximum(label: &RuleLabel<'_>) -> Option<u32>
    ensures { result ≡ maximum (label_view label.now) }
{
    match label.rule {
        Some(rule) => rule.bounds.maximum,
        None => None,
    }
}

/// The unit of a rule of this kind, by what its document says of it: none of a count rule.
fn kind_units(kind: Kind, words: &[u8]) -> &[u8]
    ensures { result.now ≡ kind_units kind words.now }
{
    match kind {
        Kind::Count => b"",
        Kind::Time(_) | Kind::Other => words,
    }
}

/// The unit of a rule's bounds, in the words of its document; empty for a count rule.
fn units<'x>(label: &RuleLabel<'x>) -> &'x [u8]
    ensures { result.now ≡ units (label_view label.now) }
{
    match label.rule {
        Some(rule) => kind_units(rule.kind, label.units),
        None => b"",
    }
}

/// Appends the row of a sample.
fn push_verdict<'x>(
    out: &mut Vec<u8>,
    zone: &Zone,
    operator: &ReportedOperator<'x>,
    label: &RuleLabel<'x>,
    sample: &RuleSample,
) -> Result<(), AllocError>
    ensures { OnOk result (Appends (IsRow zone.now (verdict_cells (operator_view operator.now)
        (label_view label.now) sample.now))
        out.old.items out.new.items) }
{
    let cells = [
        CellValue::Utc(sample.at),
        CellValue::Local(Some(sample.at)),
        CellValue::Id(operator.id),
        CellValue::Text(operator.name),
        CellValue::Id(sample.policy),
        CellValue::Text(label.policy),
        CellValue::Number(sample.number as u64),
        CellValue::Id(sample.rule),
        CellValue::Text(label.name),
        CellValue::Text(status_name(sample.status).as_bytes()),
        CellValue::Number(sample.measure),
        CellValue::Bound(minimum(label)),
        CellValue::Bound(maximum(label)),
        CellValue::Text(units(label)),
    ];
    push_row(out, zone, &cells)
}

/// Appends a row for each of these samples, in their order.
#[tactic(auto, using(crate::proofs::Spelled::none_yet))]
fn push_samples(
    out: &mut Vec<u8>,
    zone: &Zone,
    operator: &ReportedOperator<'_>,
    trees: &[PolicyTree<'_>],
    samples: &[RuleSample],
) -> Result<(), AllocError>
    ensures { OnOk result (Appends (IsVerdicts zone.now (operator_view operator.now)
        (map tree_policy trees.now) samples.now)
        out.old.items out.new.items) }
{
    for sample in samples {
        let label = label_of(trees, sample.policy, sample.number);
        push_verdict(out, zone, &*operator, &label, sample)?;
    }
    Ok(())
}

/// The first row: the names of the columns.
///
/// # Errors
///
/// Out of memory.
pub fn verdicts_header(alloc: Global) -> Result<Vec<u8>, AllocError>
    ensures { IfOk result (λ text. text.items ≡ verdict_header) }
{
    let mut text = Vec::new(alloc);
    text.extend_from_slice(COLUMNS.as_bytes())?;
    Ok(text)
}

/// Appends a row for each sample of an operator, in their order.
///
/// # Errors
///
/// Out of memory. Then some of the rows may have been appended.
pub fn push_verdicts(
    alloc: Global,
    out: &mut Vec<u8>,
    zone: &Zone,
    operator: &ReportedOperator<'_>,
) -> Result<(), AllocError>
    ensures { OnOk result (Appends (IsVerdicts zone.now (operator_view operator.now)
        (policies_in (publications_of operator.now.catalogue.now)) operator.now.samples.now)
        out.old.items out.new.items) }
{
    let trees = trees_in(alloc, operator.catalogue)?;
    push_samples(out, zone, operator, &trees, operator.samples)
}
