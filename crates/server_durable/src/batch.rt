//! Many reports, one on each line of a body.
ghost use Rattle.std.specs.Prelude.{◌≡◌, ◌⊎◌, ◌++◌, ◌∷◌, [], ◌≤◌, ◌<◌, Bool, true, IfOk, IfErr, IfSome, OnOk, filter, find, length, map, not, option_copied, position, take};
ghost use Rattle.std.specs.Io.BufRead.{strip_last};
ghost use Rattle.mds_script.specs.Input.{is_feed, is_filled, lines};
ghost use Rattle.mds_request.specs.Request.{request_of};
ghost use Rattle.server_durable.specs.Chunks.{AreAlike, is_space, may_be_report};
ghost use Rattle.server_durable.specs.Many.{IsRefusedWhole, report_of, reports_of};
ghost use Rattle.server_durable.specs.declared.batch.TheConstants.{CHUNK, MOST_REPORTS};
ghost use Rattle.mds_request.specs.declared.code.Code.TheVariants.{NoMemory, TooLarge};

use mds_request::{Code, Request, Verb};
use memchr::memchr;
use std::alloc::Global;

/// The most reports of one body.
pub const MOST_REPORTS: usize = 16_384;

/// The most reports for whose records there are reservations at once.
pub(crate) const CHUNK: usize = 256;

/// The position of the first line feed.
fn line_feed(text: &[u8]) -> Option<usize>
    ensures place { result ≡ position is_feed text.now }
    ensures within { IfSome result (λ end. end < length text.now) }
{
    memchr(b'\n', text)
}

/// A line without one carriage return at its end.
fn without_return(line: &[u8]) -> &[u8]
    ensures { result.now ≡ strip_last 13 line.now }
{
    match line {
        [front @ .., b'\r'] => front,
        _ => line,
    }
}

/// The first line, without its end, and the text after it.
fn first_line(text: &[u8]) -> (&[u8], &[u8])
    requires { 0 < length text.now }
    ensures lines { lines text.now ≡ result.0.now ∷ lines result.1.now }
    ensures shorter { length result.1.now < length text.now }
{
    match line_feed(text) {
        Some(end) => (without_return(&text[..end]), &text[end + 1..]),
        None => (text, &[]),
    }
}

/// Whether a byte is white space of JSON (RFC 8259, section 2).
fn is_space(byte: u8) -> bool
    ensures { result ≡ is_space byte }
{
    matches!(byte, b' ' | b'\t' | b'\n' | b'\r')
}

/// The first byte of a line that isn't white space.
fn first_non_space(line: &[u8]) -> Option<&u8>
    ensures { option_copied result ≡ find (λ byte. not (is_space byte)) line.now }
{
    line.iter().find(|byte| !is_space(**byte))
}

/// Whether a line may be a report: after white space it begins as an object of JSON does (RFC 8259, section 4).
pub(crate) fn may_be_report(line: &[u8]) -> bool
    ensures { result ≡ may_be_report line.now }
{
    matches!(first_non_space(line), Some(b'{'))
}

/// How many of these requests, from the first on, may all be reports, or may none be: fewer than `CHUNK`.
fn run_length(requests: &[Request<'_>], may_be_reports: bool) -> usize
    ensures within { result ≤ length requests.now }
    ensures few { result < CHUNK }
    ensures alike { AreAlike may_be_reports (take result requests.now) }
{
    let mut count = 0;
    for request in requests {
        if count == CHUNK - 1 || may_be_report(request.body) != may_be_reports {
            return count;
        }
        count += 1;
    }
    count
}

/// How many requests the first chunk has: all of them may be reports, or none, and they are `CHUNK` at most.
pub(crate) fn chunk_length(requests: &[Request<'_>]) -> usize
    requires { 0 < length requests.now }
    ensures some { 0 < result }
    ensures within { result ≤ length requests.now }
    ensures few { result ≤ CHUNK }
    ensures alike { (may_be_reports : Bool) × AreAlike may_be_reports (take result requests.now) }
{
    let may_be_reports = may_be_report(requests[0].body);
    // The first one always belongs to the chunk.
    1 + run_length(&requests[1..], may_be_reports)
}

/// Adds the report on a line, unless the line is empty.
fn push_report<'a>(
    reports: &mut Vec<Request<'a>>,
    request: &Request<'a>,
    line: &'a [u8],
) -> Result<(), Code>
    ensures refused { IfErr result (λ code. (code ≡ NoMemory)
        ⊎ ((code ≡ TooLarge) × (MOST_REPORTS ≤ length reports.old.items) × (is_filled line.now ≡ true))) }
    ensures pushed { OnOk result (map request_of reports.new.items
        ≡ map request_of reports.old.items ++ map (report_of (request_of request.now)) (filter is_filled (line.now ∷ []))) }
{
    if line.is_empty() {
        return Ok(());
    }
    if reports.len() >= MOST_REPORTS {
        return Err(Code::TooLarge);
    }
    let report = Request {
        verb: Verb::Post,
        target: b"/fleet/events",
        body: line,
        ..*request
    };
    match reports.push(report) {
        Ok(()) => Ok(()),
        Err(_) => Err(Code::NoMemory),
    }
}

/// The reports of a request's body: one for each line that isn't empty.
///
/// # Errors
///
/// `TooLarge` where there are more than one body may have, `NoMemory` where out of memory.
pub(crate) fn reports<'a>(alloc: Global, request: &Request<'a>) -> Result<Vec<Request<'a>>, Code>
    ensures refused { IfErr result (IsRefusedWhole (request_of request.now)) }
    ensures reports { IfOk result (λ reports. map request_of reports.items ≡ reports_of (request_of request.now)) }
{
    let mut reports = Vec::new(alloc);
    let mut rest = request.body;
    'lines: while !rest.is_empty() {
        let (line, behind) = first_line(rest);
        push_report(&mut reports, request, line)?;
        rest = behind;
    }
    Ok(reports)
}
