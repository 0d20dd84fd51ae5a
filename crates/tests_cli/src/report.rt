//! Tests of reports: the examples of RFC 4180, and a night on which the clocks of New York are set back, worked out by
//! hand.
use cli_report::{
    ReportHead, ReportSpan, ReportedOperator, page_start, push_page_end, push_page_operator,
    push_summary, push_verdicts, summary_header, verdicts_header,
};
use journal_samples::RuleSample;
use mds_catalog::Catalogue;
use mds_match::Zone;
use mds_text::{Id, Moment};
use mds_verdict::Status;
use std::alloc::{AllocError, Global};

/// New York: clocks are set back on 1 November 2026 at 02:00.
const NEW_YORK: &str = "EST5EDT,M3.2.0,M11.1.0";
/// The midnight before.
const MIDNIGHT: i64 = 1_793_505_600_000;
/// The milliseconds of an hour.
const HOUR: i64 = 3_600_000;
/// The operator's identifier.
const OPERATOR: &str = "11111111-1111-4111-8111-111111111111";
/// What each row of the rule has behind the operator's cells.
const RULE: &str = "22222222-2222-4222-8222-222222222222,,0,33333333-3333-4333-8333-333333333333,,";

/// What the row of a violated sample at 01:00 has before the operator's name.
const BEFORE_NAME: &str =
    "2026-11-01T05:00:00Z,2026-11-01T01:00:00-04:00,11111111-1111-4111-8111-111111111111,";
/// What it has behind the name.
const BEHIND_NAME: &str =
    ",22222222-2222-4222-8222-222222222222,,0,33333333-3333-4333-8333-333333333333,,violated,7,,,\r\n";

/// A sample of the rule, so many hours after midnight.
fn sample(hour: i64, status: Status, measure: u64) -> Option<RuleSample> {
    let after = hour.checked_mul(HOUR)?;
    let at = Moment::new(MIDNIGHT.checked_add(after)?)?;
    let policy = Id::read("22222222-2222-4222-8222-222222222222")?;
    let rule = Id::read("33333333-3333-4333-8333-333333333333")?;
    Some(RuleSample {
        at,
        policy,
        number: 0,
        rule,
        status,
        measure,
    })
}

/// Appends a sample of the rule, so many hours after midnight.
fn push_sample(
    all: &mut Vec<RuleSample>,
    hour: i64,
    status: Status,
    measure: u64,
) -> Result<(), AllocError> {
    if let Some(sample) = sample(hour, status, measure) {
        all.push(sample)?;
    }
    Ok(())
}

/// A sample on the evening before, and five of a night that has 01:00 twice.
fn samples(alloc: Global) -> Result<Vec<RuleSample>, AllocError> {
    let mut all = Vec::new(alloc);
    push_sample(&mut all, -1, Status::Violated, 5)?;
    push_sample(&mut all, 0, Status::Ok, 2)?;
    push_sample(&mut all, 1, Status::Violated, 7)?;
    push_sample(&mut all, 2, Status::Violated, 9)?;
    push_sample(&mut all, 3, Status::Inactive, 0)?;
    push_sample(&mut all, 4, Status::Violated, 8)?;
    Ok(all)
}

/// Each hour from one moment to another.
fn hours(first: Moment, last: Moment) -> ReportSpan {
    ReportSpan {
        first,
        last,
        every: 3_600_000,
    }
}

/// The head of a report of a city without a title.
fn head(span: ReportSpan) -> ReportHead<'static> {
    ReportHead {
        city: b"",
        zone: b"America/New_York",
        made: None,
        to_come: None,
        program: b"ruffletuff",
        span,
    }
}

/// Whether a text has this part.
pub(crate) fn has_part(text: &[u8], part: &str) -> bool {
    for start in 0..text.len() {
        if text[start..].starts_with(part.as_bytes()) {
            return true;
        }
    }
    false
}

/// An operator with this name and these samples.
pub(crate) fn operator<'a>(
    name: &'a [u8],
    samples: &'a [RuleSample],
    catalogue: &'a Catalogue,
) -> Option<ReportedOperator<'a>> {
    Some(ReportedOperator {
        id: Id::read(OPERATOR)?,
        name,
        samples,
        catalogue,
    })
}

/// The row of a sample of an operator with this name; nothing where there is no such zone.
fn verdict_row(alloc: Global, name: &[u8]) -> Result<Vec<u8>, AllocError> {
    let mut row = Vec::new(alloc);
    let catalogue = Catalogue::with_room(alloc)?;
    let mut samples = Vec::new(alloc);
    push_sample(&mut samples, 1, Status::Violated, 7)?;
    if let (Ok(zone), Some(operator)) = (
        Zone::read(NEW_YORK),
        operator(name, &samples, &catalogue),
    ) {
        push_verdicts(alloc, &mut row, &zone, &operator)?;
    }
    Ok(row)
}

/// The rows of the night of an operator, in short; nothing where there is no such zone.
fn summary_rows(alloc: Global) -> Result<Vec<u8>, AllocError> {
    let mut rows = Vec::new(alloc);
    let catalogue = Catalogue::with_room(alloc)?;
    let samples = samples(alloc)?;
    if let (Ok(zone), Some(operator)) = (
        Zone::read(NEW_YORK),
        operator(b"Scoot", &samples, &catalogue),
    ) {
        push_summary(alloc, &mut rows, &zone, &operator)?;
    }
    Ok(rows)
}

/// Appends the section of the night of an operator whose name is markup; nothing where there is no such operator.
fn push_section(out: &mut Vec<u8>, zone: &Zone, span: ReportSpan) -> Result<(), AllocError> {
    let alloc = *out.allocator();
    let catalogue = Catalogue::with_room(alloc)?;
    let samples = samples(alloc)?;
    if let Some(operator) = operator(b"<script>", &samples, &catalogue) {
        push_page_operator(alloc, out, zone, span, &operator)?;
    }
    Ok(())
}

/// The page of the night; nothing where there is no such zone.
fn page(alloc: Global, first: Moment, last: Moment) -> Result<Vec<u8>, AllocError> {
    let Ok(zone) = Zone::read(NEW_YORK) else {
        return Ok(Vec::new(alloc));
    };
    let head = head(hours(first, last));
    let mut out = page_start(alloc, &zone, &head)?;
    push_section(&mut out, &zone, hours(first, last))?;
    push_page_end(&mut out)?;
    Ok(out)
}

/// Appends the cell that an operator's name has in the row of a sample: what stands between the cells before it and
/// those behind it.
fn push_name_cell(out: &mut Vec<u8>, name: &[u8]) -> Result<(), AllocError> {
    let row = verdict_row(*out.allocator(), name)?;
    if let Some(left) = row.strip_prefix(BEFORE_NAME.as_bytes()) {
        if let Some(cell) = left.strip_suffix(BEHIND_NAME.as_bytes()) {
            out.extend_from_slice(cell)?;
        }
    }
    Ok(())
}

// RFC 4180, section 2, rules 6 and 7.
#[test]
fn cells_of_csv(rt: HostRuntime) -> Result<(), AllocError> {
    let mut out = Vec::new(rt.alloc());
    push_name_cell(&mut out, b"aaa")?;
    out.push(b',')?;
    push_name_cell(&mut out, b"b \r\nbb")?;
    out.push(b',')?;
    push_name_cell(&mut out, b"b\"bb")?;
    assert!(rt; out.as_slice() == b"aaa,\"b \r\nbb\",\"b\"\"bb\"".as_slice());
    Ok(())
}

#[test]
fn formulas_are_texts(rt: HostRuntime) -> Result<(), AllocError> {
    let mut out = Vec::new(rt.alloc());
    push_name_cell(&mut out, b"=1+1")?;
    push_name_cell(&mut out, b"\t,")?;
    push_name_cell(&mut out, b"1-1")?;
    assert!(rt; out.as_slice() == b"'=1+1\"'\t,\"1-1".as_slice());
    Ok(())
}

#[test]
fn a_night_of_verdicts(rt: HostRuntime) -> Result<(), AllocError> {
    let alloc = rt.alloc();
    let header = verdicts_header(alloc)?;
    assert!(rt; has_part(&header, ",status,measure,minimum,maximum,units\r\n"));
    let out = verdict_row(alloc, b"=cmd, \"x\"")?;
    let row = format!(in alloc;
        "2026-11-01T05:00:00Z,2026-11-01T01:00:00-04:00,{OPERATOR},\"'=cmd, \"\"x\"\"\",{RULE}violated,7,,,\r\n"
    )?;
    assert!(rt; out.as_slice() == row.as_bytes());
    Ok(())
}

#[test]
fn a_night_in_short(rt: HostRuntime) -> Result<(), AllocError> {
    let alloc = rt.alloc();
    let header = summary_header(alloc)?;
    assert!(rt; has_part(&header, ",day,samples,violated,longest,"));
    let out = summary_rows(alloc)?;
    let evening = "2026-10-31T23:00:00-04:00";
    let one = "2026-11-01T01:00:00-04:00";
    let again = "2026-11-01T01:00:00-05:00";
    let three = "2026-11-01T03:00:00-05:00";
    let first = format!(in alloc;
        "{OPERATOR},Scoot,{RULE}2026-10-31,1,1,1,{evening},{evening},{evening},{evening},5,5\r\n"
    )?;
    let second = format!(in alloc;
        "{OPERATOR},Scoot,{RULE}2026-11-01,5,3,2,{one},{again},{one},{three},9,2\r\n"
    )?;
    let mut rows = first;
    rows.push_str(second.as_str())?;
    assert!(rt; out.as_slice() == rows.as_bytes());
    Ok(())
}

#[test]
fn a_night_on_the_page(rt: HostRuntime) -> Result<(), AllocError> {
    let first = Moment::new(1_793_502_000_000).expect(&rt, "a moment");
    let last = Moment::new(1_793_520_000_000).expect(&rt, "a moment");
    let out = page(rt.alloc(), first, last)?;
    assert!(rt;
        has_part(
            &out,
            "<th>First sample</th><td>2026-10-31T23:00:00-04:00</td>"
        )
    );
    assert!(rt;
        has_part(
            &out,
            "<th>Last sample</th><td>2026-11-01T03:00:00-05:00</td>"
        )
    );
    assert!(rt; has_part(&out, "<th>Sampled every</th><td>60 minutes</td>"));
    assert!(rt;
        has_part(
            &out,
            "<th>City</th><td>Rules for shared vehicles (no city is named: the configuration has no page.title)</td>"
        )
    );
    assert!(rt; has_part(&out, "<h2>&lt;script&gt; <small>"));
    assert!(rt; !has_part(&out, "<script"));
    // The rule has no name.
    assert!(rt;
        has_part(
            &out,
            "<h3>Rule 1 <small>33333333-3333-4333-8333-333333333333</small></h3>"
        )
    );
    assert!(rt; has_part(&out, "</small>, rule 1. Violated in 4 of"));
    // Two samples at 01:00, as that hour is shown twice: by the clock from 01:00 to 02:00.
    assert!(rt; has_part(&out, "height=\"12\" x=\"60\" width=\"60\"/>"));
    // It was closed in one of six.
    assert!(rt;
        has_part(
            &out,
            "Violated in 4 of 5 samples in which it was open (6 in all).</p>"
        )
    );
    assert!(rt; has_part(&out, "</svg></td><td>3 of 4</td>"));
    Ok(())
}

/// How many minutes a week has, and ten weeks.
const WEEK: i64 = 10_080;

const TEN_WEEKS: i64 = 100_800;

/// A violated sample of the rule at each of so many minutes from midnight on; `None` where memory ran out.
fn each_minute(alloc: Global, minutes: i64) -> Option<Vec<RuleSample>> {
    let first = sample(0, Status::Violated, 7)?;
    let mut all = Vec::new(alloc);
    for minute in 0..minutes {
        let after = minute.checked_mul(60_000)?;
        let at = Moment::new(MIDNIGHT.checked_add(after)?)?;
        all.push(RuleSample { at, ..first }).ok()?;
    }
    Some(all)
}

/// How many lines a text has.
fn count_lines(text: &[u8]) -> usize {
    text.iter().filter(|byte| **byte == b'\n').count()
}

/// How many rows the samples of a week have; `None` where memory ran out.
fn count_rows(alloc: Global) -> Option<usize> {
    let zone = Zone::read(NEW_YORK).ok()?;
    let catalogue = Catalogue::with_room(alloc).ok()?;
    let samples = each_minute(alloc, WEEK)?;
    let mut rows = Vec::new(alloc);
    if let Some(operator) = operator(b"Scoot", &samples, &catalogue) {
        push_verdicts(alloc, &mut rows, &zone, &operator).ok()?;
    }
    Some(count_lines(&rows))
}

/// How many rows ten weeks have in short; `None` where memory ran out.
fn count_days(alloc: Global) -> Option<usize> {
    let zone = Zone::read(NEW_YORK).ok()?;
    let catalogue = Catalogue::with_room(alloc).ok()?;
    let samples = each_minute(alloc, TEN_WEEKS)?;
    let mut rows = Vec::new(alloc);
    if let Some(operator) = operator(b"Scoot", &samples, &catalogue) {
        push_summary(alloc, &mut rows, &zone, &operator).ok()?;
    }
    Some(count_lines(&rows))
}

/// What the page tells of an operator in a week; `None` where memory ran out.
fn week_section(alloc: Global) -> Option<Vec<u8>> {
    let zone = Zone::read(NEW_YORK).ok()?;
    let catalogue = Catalogue::with_room(alloc).ok()?;
    let samples = each_minute(alloc, WEEK)?;
    let after = WEEK.checked_mul(60_000)?;
    let last = Moment::new(MIDNIGHT.checked_add(after)?)?;
    let span = hours(Moment::new(MIDNIGHT)?, last);
    let mut out = Vec::new(alloc);
    if let Some(operator) = operator(b"Scoot", &samples, &catalogue) {
        push_page_operator(alloc, &mut out, &zone, span, &operator).ok()?;
    }
    Some(out)
}

#[test]
fn a_week_has_a_row_for_each_minute(rt: HostRuntime) {
    assert!(rt; count_rows(rt.alloc()) == Some(10_080));
}

/// The first day has an hour more, so that the last of seventy has one less.
#[test]
fn ten_weeks_in_short(rt: HostRuntime) {
    assert!(rt; count_days(rt.alloc()) == Some(70));
}

#[test]
fn a_week_on_the_page(rt: HostRuntime) {
    let out = week_section(rt.alloc()).expect(&rt, "memory");
    assert!(rt; has_part(&out, "Violated in 10080 of 10080 samples"));
}
