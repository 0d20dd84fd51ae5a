//! Writes what is published at a server as files.

use crate::end::TransferEnd;
use crate::host::TransferHost;
use crate::meaning::{Meaning, meaning_of};
use crate::messages::DocumentLocation;
use crate::sending::{client_of, report_refusal, response_or_end};
use cli_client::{ClientRequest, HttpResponse, RemoteServer};
use cli_documents::list_member;
use cli_host::{FileHost, MessageHost};
use cli_vehicles::{features_file, geographies_file, policies_file};
use mds_json::read_tree;
use mds_text::{TextFault, Tree};
use std::alloc::Global;
use std::fs;
use std::io::Print;

/// The body of a response as JSON.
///
/// # Errors
///
/// `NoServer` where it can't be read, `NoMemory`.
fn tree_in(alloc: Global, reply: &HttpResponse) -> Result<Tree, TransferEnd> {
    match read_tree(alloc, &reply.body) {
        Ok(tree) => Ok(tree),
        Err(TextFault::NoMemory) => Err(TransferEnd::NoMemory),
        Err(_) => Err(TransferEnd::NoServer),
    }
}

/// Reports a response other than 200, and gives the end of the transfer.
///
/// # Errors
///
/// `NoMemory`.
fn end_of_refusal<R: MessageHost>(
    rt: &R,
    target: &str,
    reply: &HttpResponse,
) -> Result<TransferEnd, TransferEnd> {
    let spot = DocumentLocation {
        file: target,
        document: None,
    };
    report_refusal(rt, spot, reply)?;
    match meaning_of(reply.status) {
        Meaning::Barred => Ok(TransferEnd::Barred),
        _ => Ok(TransferEnd::NoServer),
    }
}

/// Asks a server for what is published at a path.
///
/// # Errors
///
/// `BadPlace`, `NoServer` where the response is of no use, `BadReply`, `Barred`, `NoMemory`.
fn fetch_tree<R: TransferHost>(
    rt: &R,
    server: &RemoteServer<'_>,
    target: &str,
) -> Result<Tree, TransferEnd> {
    let mut client = client_of(rt, server)?;
    let call = ClientRequest {
        method: "GET",
        target,
        body: b"",
    };
    let reply = response_or_end(client.ask(rt.alloc(), &call))?;
    if meaning_of(reply.status) != Meaning::Taken {
        return Err(end_of_refusal(rt, target, &reply)?);
    }
    tree_in(rt.alloc(), &reply)
}

/// Writes a file in a folder.
///
/// # Errors
///
/// `NotWritten`, `NoMemory`.
fn write<R: FileHost>(rt: &R, folder: &str, name: &str, text: &[u8]) -> Result<(), TransferEnd> {
    let path = format!(in rt.alloc(); "{folder}/{name}")?;
    match fs::write(rt, path.as_str(), text) {
        Ok(()) => Ok(()),
        Err(_) => Err(TransferEnd::NotWritten),
    }
}

/// Writes the three files of what is published, in a folder that is made where it isn't there.
///
/// # Errors
///
/// `NotWritten`, `NoMemory`.
fn write_all<R: FileHost>(
    rt: &R,
    folder: &str,
    policies: &[Tree],
    geographies: &[Tree],
) -> Result<(), TransferEnd> {
    if fs::create_dir_all(rt, folder).is_err() {
        return Err(TransferEnd::NotWritten);
    }
    let file = policies_file(rt.alloc(), policies)?;
    write(rt, folder, "policies.json", &file)?;
    let file = geographies_file(rt.alloc(), geographies)?;
    write(rt, folder, "geographies.json", &file)?;
    let file = features_file(rt.alloc(), geographies)?;
    write(rt, folder, "geographies.geojson", &file)
}

/// Asks for what is published, writes it, and prints how many documents there are.
///
/// # Errors
///
/// `BadPlace`, `NoServer`, `BadReply`, `Barred`, `NotWritten`, `NotPrinted`, `NoMemory`.
fn fetch_and_write<R: TransferHost>(
    rt: &R,
    folder: &str,
    server: &RemoteServer<'_>,
) -> Result<(), TransferEnd> {
    let told_policies = fetch_tree(rt, server, "/policies")?;
    let told_geographies = fetch_tree(rt, server, "/geographies")?;
    let Some(policies) = list_member(&told_policies, "policies") else {
        return Err(TransferEnd::NoServer);
    };
    let Some(geographies) = list_member(&told_geographies, "geographies") else {
        return Err(TransferEnd::NoServer);
    };
    write_all(rt, folder, policies, geographies)?;
    print_counts(rt, policies.len(), geographies.len())
}

/// Prints how many documents are written.
///
/// # Errors
///
/// `NotPrinted`.
fn print_counts<R: Print>(rt: &R, policies: usize, geographies: usize) -> Result<(), TransferEnd> {
    match println!(rt; "{policies} policies, {geographies} geographies") {
        Ok(()) => Ok(()),
        Err(_) => Err(TransferEnd::NotPrinted),
    }
}

/// Writes what is published at a server into a folder, which is made where it isn't there: its policies as a file of
/// MDS 2.0 (`policies.json`), its geographies as one (`geographies.json`) and as GeoJSON (`geographies.geojson`).
/// Prints how many of each on standard output.
pub fn export_published<R: TransferHost>(
    rt: &R,
    folder: &str,
    server: &RemoteServer<'_>,
) -> TransferEnd {
    match fetch_and_write(rt, folder, server) {
        Ok(()) => TransferEnd::Done,
        Err(end) => end,
    }
}
