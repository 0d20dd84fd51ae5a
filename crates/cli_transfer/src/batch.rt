//! Batches of reports, each sent in one request, and the responses to them.

use crate::end::{TransferEnd, TransferTally};
use crate::escape::escape_bytes;
use crate::meaning::{Meaning, meaning_of};
use crate::messages::location_at;
use crate::sending::note_reply;
use cli_client::HttpResponse;
use cli_documents::{Origin, member_of};
use cli_host::{MessageHost, OutputHost};
use mds_json::read_tree;
use mds_text::{TextFault, Tree, print_tree};
use std::alloc::Global;

/// The most reports and the most bytes of a batch.
const MOST_REPORTS: usize = 4_000;

const MOST_BYTES: usize = 1_000_000;

/// Reports that are sent in one request, a line each.
#[derive(Drop)]
pub(crate) struct ReportBatch {
    body: Vec<u8>,
    /// Where each report comes from.
    origins: Vec<Origin>,
}

impl ReportBatch {
    /// A batch without a report.
    fn new(alloc: Global) -> ReportBatch {
        ReportBatch {
            body: Vec::new(alloc),
            origins: Vec::new(alloc),
        }
    }

    /// Its reports, a line each.
    pub(crate) fn body(&self) -> &[u8] {
        &self.body
    }

    /// Whether a report of this many bytes still fits.
    fn has_room(&self, bytes: usize) -> bool {
        self.origins.len() < MOST_REPORTS && self.body.len().saturating_add(bytes) < MOST_BYTES
    }

    /// Adds a report.
    ///
    /// # Errors
    ///
    /// `NoMemory`.
    fn add(&mut self, origin: Origin, report: &[u8]) -> Result<(), TransferEnd> {
        self.body.extend_from_slice(report)?;
        self.body.extend_from_slice(b"\n")?;
        match self.origins.push(origin) {
            Ok(()) => Ok(()),
            Err(_) => Err(TransferEnd::NoMemory),
        }
    }
}

/// Appends a new batch with a report.
///
/// # Errors
///
/// `NoMemory`.
fn put_behind(
    alloc: Global,
    batches: &mut Vec<ReportBatch>,
    origin: Origin,
    report: &[u8],
) -> Result<(), TransferEnd> {
    let mut batch = ReportBatch::new(alloc);
    batch.add(origin, report)?;
    match batches.push(batch) {
        Ok(()) => Ok(()),
        Err(_) => Err(TransferEnd::NoMemory),
    }
}

/// Appends a report to the last of these batches, or to a new one where it has no room.
///
/// # Errors
///
/// `NoMemory`.
pub(crate) fn put_in(
    alloc: Global,
    batches: &mut Vec<ReportBatch>,
    origin: Origin,
    report: &[u8],
) -> Result<(), TransferEnd> {
    let is_full = match batches.last() {
        Some(last) => !last.has_room(report.len()),
        None => true,
    };
    if is_full {
        return put_behind(alloc, batches, origin, report);
    }
    match batches.last_mut() {
        Some(last) => last.add(origin, report),
        None => Ok(()),
    }
}

/// The length of the first line, without its line end.
fn line_len(bytes: &[u8]) -> usize {
    match bytes.iter().position(|byte| *byte == b'\n') {
        Some(end) => end,
        None => bytes.len(),
    }
}

/// The first line, without its line end.
fn line_in(bytes: &[u8]) -> &[u8] {
    bytes.get(..line_len(bytes)).unwrap_or_default()
}

/// What follows the first line.
fn behind_line(bytes: &[u8]) -> &[u8] {
    bytes
        .get(line_len(bytes).saturating_add(1)..)
        .unwrap_or_default()
}

/// Prints the requests of a batch's reports, a line each, with bytes from elsewhere escaped.
///
/// # Errors
///
/// `NotPrinted`, `NoMemory`.
pub(crate) fn print_batch<R: OutputHost>(
    rt: &R,
    batch: &ReportBatch,
    tally: &mut TransferTally,
) -> Result<(), TransferEnd> {
    let mut rest: &[u8] = &batch.body;
    for _ in &batch.origins {
        let line = escape_bytes(rt.alloc(), line_in(rest))?;
        if println!(rt; "POST /fleet/events {}", line.as_str()).is_err() {
            return Err(TransferEnd::NotPrinted);
        }
        tally.count_sent();
        rest = behind_line(rest);
    }
    Ok(())
}

/// Reads a line of a response: the status and the body that its report would have been answered with by itself.
///
/// # Errors
///
/// `NoMemory`, and `NoServer` where the line doesn't say so.
fn reply_in(alloc: Global, line: &[u8]) -> Result<HttpResponse, TransferEnd> {
    let tree = match read_tree(alloc, line) {
        Ok(tree) => tree,
        Err(TextFault::NoMemory) => return Err(TransferEnd::NoMemory),
        Err(_) => return Err(TransferEnd::NoServer),
    };
    let Some(body) = member_of(&tree, "body") else {
        return Err(TransferEnd::NoServer);
    };
    match status_in(&tree) {
        Some(status) => Ok(HttpResponse {
            status,
            body: print_tree(alloc, body)?,
        }),
        None => Err(TransferEnd::NoServer),
    }
}

/// The status in a line of a response.
fn status_in(line: &Tree) -> Option<u16> {
    match member_of(line, "status") {
        Some(Tree::Int(status)) => u16::try_from(*status).ok(),
        _ => None,
    }
}

/// Counts what the lines of a response say of a batch's reports, and reports each refusal.
///
/// # Errors
///
/// `NoServer`, `Barred`, `NoMemory`.
fn note_lines<R: MessageHost>(
    rt: &R,
    files: &[String],
    batch: &ReportBatch,
    lines: &[u8],
    tally: &mut TransferTally,
) -> Result<(), TransferEnd> {
    let mut rest: &[u8] = lines;
    for origin in &batch.origins {
        let reply = reply_in(rt.alloc(), line_in(rest))?;
        note_reply(rt, location_at(files, *origin), &reply, tally)?;
        rest = behind_line(rest);
    }
    Ok(())
}

/// Counts what a response says of a batch, and reports each refusal: by a line for each report, or by its status where
/// the batch is refused as a whole.
///
/// # Errors
///
/// `NoServer`, `Barred`, `NoMemory`.
pub(crate) fn note_batch<R: MessageHost>(
    rt: &R,
    files: &[String],
    batch: &ReportBatch,
    reply: &HttpResponse,
    tally: &mut TransferTally,
) -> Result<(), TransferEnd> {
    if meaning_of(reply.status) == Meaning::Taken {
        return note_lines(rt, files, batch, &reply.body, tally);
    }
    for origin in &batch.origins {
        note_reply(rt, location_at(files, *origin), reply, tally)?;
    }
    Ok(())
}
