//! What each file of a report says.
ghost use Rattle.std.specs.Prelude.{IfOk};
ghost use Rattle.mds_catalog.specs.Catalogue.{publications_of};
ghost use Rattle.cli_report.specs.Names.{policies_in};
ghost use Rattle.cli_report.specs.Page.{head_view};
ghost use Rattle.cli_report.specs.Rows.{operator_view};
ghost use Rattle.cli_report_command.specs.Parts.{IsHeadOf, IsReportOf};

use crate::report_files::ReportBytes;
use cli_report::{
    ReportHead, ReportSpan, ReportedOperator, page_start, push_page_end, push_page_operator,
    push_summary, push_verdicts, summary_header, verdicts_header,
};
use mds_match::Zone;
use std::alloc::{AllocError, Global};

/// What stands in each file of a report in front of all operators.
///
/// # Errors
///
/// Memory ran out.
pub fn report_head(
    alloc: Global,
    zone: &Zone,
    head: &ReportHead<'_>,
) -> Result<ReportBytes, AllocError>
    ensures { IfOk result (IsHeadOf zone.now (head_view head.now)) }
{
    Ok(ReportBytes {
        verdicts: verdicts_header(alloc)?,
        summary: summary_header(alloc)?,
        page: page_start(alloc, zone, head)?,
    })
}

/// What each file of a report says of an operator.
///
/// # Errors
///
/// Memory ran out.
pub fn operator_report(
    alloc: Global,
    zone: &Zone,
    span: ReportSpan,
    operator: &ReportedOperator<'_>,
) -> Result<ReportBytes, AllocError>
    ensures { IfOk result (IsReportOf zone.now span (operator_view operator.now)
        (policies_in (publications_of operator.now.catalogue.now)) operator.now.samples.now) }
{
    let mut verdicts = Vec::new(alloc);
    let mut summary = Vec::new(alloc);
    let mut page = Vec::new(alloc);
    push_verdicts(alloc, &mut verdicts, zone, operator)?;
    push_summary(alloc, &mut summary, zone, operator)?;
    push_page_operator(alloc, &mut page, zone, span, operator)?;
    Ok(ReportBytes {
        verdicts,
        summary,
        page,
    })
}

/// What stands in each file of a report behind all operators.
///
/// # Errors
///
/// Memory ran out.
pub fn report_end(alloc: Global) -> Result<ReportBytes, AllocError> {
    let mut page = Vec::new(alloc);
    push_page_end(&mut page)?;
    Ok(ReportBytes {
        verdicts: Vec::new(alloc),
        summary: Vec::new(alloc),
        page,
    })
}
