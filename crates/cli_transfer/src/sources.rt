//! The files of an import.

use crate::end::TransferEnd;
use crate::fetching::{MOST_BYTES, TOO_LONG, fetch_file, link_of};
use crate::host::TransferHost;
use crate::messages::{DocumentLocation, print_message};
use crate::opening::{FileOpenFault, open_source};
use mds_json::read_and_count;
use mds_text::{TextFault, Tree};
use std::alloc::Global;
use std::fs::File;
use std::io::{ErrorKind, Read};

/// What a file holds.
#[derive(Drop)]
pub struct ParsedFile {
    pub tree: Tree,
    /// Whether it has numbers that aren't plain.
    pub decimals: bool,
}

/// The bytes of an open file, or in words why they can't be had.
///
/// # Errors
///
/// `NoMemory`.
fn bytes_in(alloc: Global, file: File) -> Result<Result<Vec<u8>, &'static str>, TransferEnd> {
    let mut bytes = Vec::new(alloc);
    let mut front = file.take(MOST_BYTES + 1);
    if let Err(error) = front.read_to_end(&mut bytes) {
        return match error.kind() {
            ErrorKind::OutOfMemory => Err(TransferEnd::NoMemory),
            _ => Ok(Err(FileOpenFault::Unreadable.words())),
        };
    }
    if bytes.len() as u64 > MOST_BYTES {
        return Ok(Err(TOO_LONG));
    }
    Ok(Ok(bytes))
}

/// Parses the bytes of a file, or says in words why they hold nothing.
///
/// # Errors
///
/// `NoMemory`.
fn parse_file(
    alloc: Global,
    bytes: &[u8],
) -> Result<Result<ParsedFile, &'static str>, TransferEnd> {
    match read_and_count(alloc, bytes) {
        Ok((tree, quoted)) => Ok(Ok(ParsedFile {
            tree,
            decimals: quoted > 0,
        })),
        Err(TextFault::NoMemory) => Err(TransferEnd::NoMemory),
        Err(_) => Ok(Err("it isn't JSON in UTF-8 of at most 127 levels")),
    }
}

/// The bytes of a file, or of what a server has at an address `http://..`, or in words why they can't be had.
///
/// # Errors
///
/// `NoMemory`.
fn bytes_of<R: TransferHost>(
    rt: &R,
    path: &str,
) -> Result<Result<Vec<u8>, &'static str>, TransferEnd> {
    let alloc = rt.alloc();
    match link_of(alloc, path)? {
        Some(link) => fetch_file(rt, alloc, &link),
        None => match open_source(rt, path) {
            Ok(file) => bytes_in(alloc, file),
            Err(fault) => Ok(Err(fault.words())),
        },
    }
}

/// What a file holds, or what a server has at an address `http://..`; `None` where nothing can be read, which is
/// reported.
///
/// # Errors
///
/// `NoMemory`.
pub fn read_and_parse<R: TransferHost>(
    rt: &R,
    path: &str,
) -> Result<Option<ParsedFile>, TransferEnd> {
    let source = match bytes_of(rt, path)? {
        Ok(bytes) => parse_file(rt.alloc(), &bytes)?,
        Err(words) => Err(words),
    };
    match source {
        Ok(source) => Ok(Some(source)),
        Err(words) => {
            let spot = DocumentLocation {
                file: path,
                document: None,
            };
            print_message(rt, spot, words)?;
            Ok(None)
        }
    }
}
