//! Imports vehicles of feeds as reports and removals.

use crate::batch::{ReportBatch, note_batch, print_batch, put_in};
use crate::end::{TransferEnd, TransferTally};
use crate::feed::{
    FeedFile, FeedIndex, is_feed, is_gbfs, statuses_in, type_of, vehicle_of, vehicles_in,
};
use crate::host::TransferHost;
use crate::messages::{DocumentLocation, location_at, print_message, refusal_text};
use crate::sending::{client_of, note_reply, response_or_end};
use crate::sources::read_and_parse;
use cli_args::Import;
use cli_client::{ClientRequest, HttpResponse, RemoteServer};
use cli_documents::{Origin, member_of};
use cli_host::{MessageHost, OutputHost};
use cli_vehicles::{VehicleOutcome, gbfs_outcome, instant_of, mds_outcome};
use mds_text::{Id, Tree};
use std::alloc::{AllocError, Global};
use std::io::Print;

/// A vehicle that is removed from the fleet.
#[derive(Clone, Copy)]
struct Removal {
    origin: Origin,
    device: Id,
}

/// The reports and removals of the files' vehicles, and how many vehicles or files were refused.
#[derive(Drop)]
struct StatusImport {
    batches: Vec<ReportBatch>,
    removals: Vec<Removal>,
    tally: TransferTally,
}

/// Adds what a vehicle becomes, or reports why nothing is sent.
///
/// # Errors
///
/// `NoMemory`.
fn take_in<R: MessageHost>(
    rt: &R,
    files: &[String],
    gathered: &mut StatusImport,
    origin: Origin,
    meant: VehicleOutcome,
) -> Result<(), TransferEnd> {
    match meant {
        VehicleOutcome::Present(body) => put_in(rt.alloc(), &mut gathered.batches, origin, &body),
        VehicleOutcome::Gone(device) => match gathered.removals.push(Removal { origin, device }) {
            Ok(()) => Ok(()),
            Err(_) => Err(TransferEnd::NoMemory),
        },
        VehicleOutcome::Faulty(member) => {
            gathered.tally.count_refused();
            let words = format!(in rt.alloc();
                "{member}: it is missing, or isn't as it has to be"
            )?;
            print_message(rt, location_at(files, origin), words.as_str())
        }
    }
}

/// What a vehicle of MDS becomes, by its own entry, or by its status where no file has that entry.
///
/// # Errors
///
/// Memory ran out.
fn status_outcome(
    alloc: Global,
    sheets: &[FeedFile],
    known: &FeedIndex,
    status: &Tree,
) -> Result<VehicleOutcome, AllocError> {
    match vehicle_of(sheets, known, status) {
        Some(vehicle) => mds_outcome(alloc, status, vehicle),
        None => mds_outcome(alloc, status, status),
    }
}

/// When a vehicle of GBFS was last seen: as its entry says, or else as its file does.
fn last_report_moment(file: &Tree, vehicle: &Tree) -> Option<i64> {
    match member_of(vehicle, "last_reported") {
        Some(seen) => instant_of(seen),
        None => instant_of(member_of(file, "last_updated")?),
    }
}

/// Adds the MDS vehicles of a file, by their status.
///
/// # Errors
///
/// `NoMemory`.
fn gather_statuses<R: MessageHost>(
    rt: &R,
    files: &[String],
    sheets: &[FeedFile],
    known: &FeedIndex,
    sheet: &FeedFile,
    gathered: &mut StatusImport,
) -> Result<(), TransferEnd> {
    for (document, status) in statuses_in(&sheet.source.tree).iter().enumerate() {
        let meant = status_outcome(rt.alloc(), sheets, known, status)?;
        let file = sheet.file;
        take_in(rt, files, gathered, Origin { file, document }, meant)?;
    }
    Ok(())
}

/// Adds the GBFS vehicles of a file.
///
/// # Errors
///
/// `NoMemory`.
fn gather_vehicles<R: MessageHost>(
    rt: &R,
    files: &[String],
    sheets: &[FeedFile],
    known: &FeedIndex,
    sheet: &FeedFile,
    gathered: &mut StatusImport,
) -> Result<(), TransferEnd> {
    let tree = &sheet.source.tree;
    for (document, vehicle) in vehicles_in(tree).iter().enumerate() {
        if is_gbfs(vehicle) {
            let moment = last_report_moment(tree, vehicle);
            let kind = type_of(sheets, known, vehicle);
            let meant = gbfs_outcome(rt.alloc(), vehicle, kind, moment)?;
            let file = sheet.file;
            take_in(rt, files, gathered, Origin { file, document }, meant)?;
        }
    }
    Ok(())
}

/// Reports that a file has none of the lists of a feed.
///
/// # Errors
///
/// `NoMemory`.
fn report_no_feed<R: MessageHost>(rt: &R, path: &str) -> Result<(), TransferEnd> {
    let spot = DocumentLocation {
        file: path,
        document: None,
    };
    print_message(rt, spot, "it has no list of vehicles or of their types")
}

/// Reads a file; `None` where it can't be read or has no list of a feed, which is reported.
///
/// # Errors
///
/// `NoMemory`.
fn read_feed_file<R: TransferHost>(
    rt: &R,
    file: usize,
    path: &str,
) -> Result<Option<FeedFile>, TransferEnd> {
    let Some(source) = read_and_parse(rt, path)? else {
        return Ok(None);
    };
    if is_feed(&source.tree) {
        return Ok(Some(FeedFile { file, source }));
    }
    report_no_feed(rt, path)?;
    Ok(None)
}

/// Reads all files. One that is reported counts as refused.
///
/// # Errors
///
/// `NoMemory`.
fn read_all<R: TransferHost>(
    rt: &R,
    files: &[String],
    tally: &mut TransferTally,
) -> Result<Vec<FeedFile>, TransferEnd> {
    let mut sheets = Vec::new(rt.alloc());
    for (file, path) in files.iter().enumerate() {
        match read_feed_file(rt, file, path.as_str())? {
            Some(sheet) => {
                if sheets.push(sheet).is_err() {
                    return Err(TransferEnd::NoMemory);
                }
            }
            None => tally.count_refused(),
        }
    }
    Ok(sheets)
}

/// Indexes the entries of these files.
///
/// # Errors
///
/// `NoMemory`.
fn index_entries(alloc: Global, sheets: &[FeedFile]) -> Result<FeedIndex, TransferEnd> {
    let mut known = FeedIndex::new(alloc);
    for (place, sheet) in sheets.iter().enumerate() {
        known.add_file(place, &sheet.source.tree)?;
    }
    Ok(known)
}

/// Reads all files, and adds what their vehicles become.
///
/// # Errors
///
/// `NoMemory`.
fn gather_all<R: TransferHost>(rt: &R, files: &[String]) -> Result<StatusImport, TransferEnd> {
    let mut gathered = StatusImport {
        batches: Vec::new(rt.alloc()),
        removals: Vec::new(rt.alloc()),
        tally: TransferTally::new(),
    };
    let sheets = read_all(rt, files, &mut gathered.tally)?;
    let known = index_entries(rt.alloc(), &sheets)?;
    for sheet in &sheets {
        gather_statuses(rt, files, &sheets, &known, sheet, &mut gathered)?;
        gather_vehicles(rt, files, &sheets, &known, sheet, &mut gathered)?;
    }
    Ok(gathered)
}

/// The target of the request that removes a vehicle.
///
/// # Errors
///
/// Memory ran out.
fn removal_target(alloc: Global, device: Id) -> Result<String, AllocError> {
    let device = device.print(alloc)?;
    format!(in alloc; "/fleet/vehicles/{}", device.as_str())
}

/// Whether a response to a removal says that the vehicle isn't there.
///
/// # Errors
///
/// `NoMemory`.
fn is_absent(alloc: Global, reply: &HttpResponse) -> Result<bool, TransferEnd> {
    if reply.status != 404 {
        return Ok(false);
    }
    let word = refusal_text(alloc, &reply.body)?;
    Ok(word.as_str() == "not_found")
}

/// Counts what a response says of a removal, and reports a refusal. A vehicle that isn't there counts as removed.
///
/// # Errors
///
/// `NoServer`, `Barred`, `NoMemory`.
fn note_removal<R: MessageHost>(
    rt: &R,
    spot: DocumentLocation<'_>,
    reply: &HttpResponse,
    tally: &mut TransferTally,
) -> Result<(), TransferEnd> {
    if is_absent(rt.alloc(), reply)? {
        tally.count_sent();
        return Ok(());
    }
    note_reply(rt, spot, reply, tally)
}

/// Sends the removals, then the batches of reports, and reports refusals and progress.
///
/// # Errors
///
/// `BadPlace`, `NoServer`, `BadReply`, `Barred`, `NoMemory`: the requests behind aren't sent then.
fn send_all<R: TransferHost>(
    rt: &R,
    server: &RemoteServer<'_>,
    files: &[String],
    gathered: &StatusImport,
    tally: &mut TransferTally,
) -> Result<(), TransferEnd> {
    let mut client = client_of(rt, server)?;
    for removal in &gathered.removals {
        let target = removal_target(rt.alloc(), removal.device)?;
        let call = ClientRequest {
            method: "DELETE",
            target: target.as_str(),
            body: b"",
        };
        let reply = response_or_end(client.ask(rt.alloc(), &call))?;
        note_removal(rt, location_at(files, removal.origin), &reply, tally)?;
    }
    let all = gathered.batches.len();
    for (place, batch) in gathered.batches.iter().enumerate() {
        if place > 0 {
            let _ = eprintln!(rt; "ruffletuff: {place} of {all} requests with reports are through");
        }
        let call = ClientRequest {
            method: "POST",
            target: "/app/fleet/events",
            body: batch.body(),
        };
        let reply = response_or_end(client.ask(rt.alloc(), &call))?;
        note_batch(rt, files, batch, &reply, tally)?;
    }
    Ok(())
}

/// Prints which vehicles would be removed, and which reports sent.
///
/// # Errors
///
/// `NotPrinted`, `NoMemory`.
fn print_all<R: OutputHost>(
    rt: &R,
    gathered: &StatusImport,
    tally: &mut TransferTally,
) -> Result<(), TransferEnd> {
    for removal in &gathered.removals {
        let target = removal_target(rt.alloc(), removal.device)?;
        if println!(rt; "DELETE {}", target.as_str()).is_err() {
            return Err(TransferEnd::NotPrinted);
        }
        tally.count_sent();
    }
    for batch in &gathered.batches {
        print_batch(rt, batch, tally)?;
    }
    Ok(())
}

/// Prints how many reports and removals were sent and how many refused, and gives the end of the transfer.
fn print_summary<R: Print>(rt: &R, import: &Import<'_>, tally: &TransferTally) -> TransferEnd {
    let TransferTally { sent, refused } = *tally;
    let said = match import.destination {
        Some(_) => println!(rt; "{sent} reports sent, {refused} refused"),
        None => println!(rt; "{sent} reports would be sent, {refused} refused"),
    };
    match said {
        Ok(()) => tally.end(),
        Err(_) => TransferEnd::NotPrinted,
    }
}

/// Sends what the vehicles of files do to a server as reports, many in one request, and removes those that aren't on
/// the street; without a server it prints what would be sent. Reports on standard error which vehicle isn't sent or is
/// refused, and why; prints on standard output, at the end, how many were sent and how many refused.
pub fn import_status<R: TransferHost>(
    rt: &R,
    import: &Import<'_>,
    server: Option<RemoteServer<'_>>,
) -> TransferEnd {
    let gathered = match gather_all(rt, import.files) {
        Ok(gathered) => gathered,
        Err(end) => return end,
    };
    let mut tally = gathered.tally;
    let done = match server {
        Some(server) => send_all(rt, &server, import.files, &gathered, &mut tally),
        None => print_all(rt, &gathered, &mut tally),
    };
    let end = print_summary(rt, import, &tally);
    match done {
        Ok(()) => end,
        Err(end) => end,
    }
}
