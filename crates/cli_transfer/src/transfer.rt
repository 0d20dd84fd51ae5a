//! Runs a transfer: an import or an export.

use crate::end::TransferEnd;
use crate::export::export_published;
use crate::host::TransferHost;
use crate::policies::import_policies;
use crate::status::import_status;
use crate::token::{server_for, server_of, token_for};
use cli_args::{Destination, TokenSource, Transfer};

/// The server of a transfer, and where its access token comes from; `None` where nothing is sent.
fn destination_of<'a>(errand: &Transfer<'a>) -> Option<Destination<'a>> {
    match errand {
        Transfer::Policies(import) => import.destination,
        Transfer::Status(import) => import.destination,
        Transfer::Published(export) => Some(export.source),
    }
}

/// The address of a transfer's server, or the path of its access token's file where the end is about
/// that.
fn address_of<'a>(errand: &Transfer<'a>, end: TransferEnd) -> Option<&'a str> {
    match (destination_of(errand)?, end) {
        (
            Destination {
                token: TokenSource::File(path),
                ..
            },
            TransferEnd::NoToken(_),
        ) => Some(path),
        (Destination { address, .. }, _) => Some(address),
    }
}

/// The folder, file or address that the end of a transfer is about.
fn place_in<'a>(errand: &Transfer<'a>, end: TransferEnd) -> Option<&'a str> {
    match errand {
        Transfer::Published(export) if end == TransferEnd::NotWritten => Some(export.folder),
        _ => address_of(errand, end),
    }
}

/// Runs a transfer, for which its access token is read first.
///
/// # Errors
///
/// `NoToken`, `BadPlace`, `NoMemory`, where the access token can't be had.
fn run_with_token<R: TransferHost>(
    rt: &R,
    errand: &Transfer<'_>,
) -> Result<TransferEnd, TransferEnd> {
    let token = token_for(rt, destination_of(errand))?;
    let token = token.as_str();
    Ok(match errand {
        Transfer::Policies(import) => {
            import_policies(rt, import, server_for(import.destination, token))
        }
        Transfer::Status(import) => import_status(
            rt,
            import,
            server_for(import.destination, token),
        ),
        Transfer::Published(export) => {
            export_published(rt, export.folder, &server_of(export.source, token))
        }
    })
}

/// Runs a transfer, says on standard error how it ended, and gives the exit status.
pub fn run_transfer<R: TransferHost>(rt: &R, errand: &Transfer<'_>) -> u8 {
    let end = match run_with_token(rt, errand) {
        Ok(end) => end,
        Err(end) => end,
    };
    let message = end.message();
    if end != TransferEnd::Done {
        let _ = match place_in(errand, end) {
            Some(place) => eprintln!(rt; "ruffletuff: {message}: {place}"),
            None => eprintln!(rt; "ruffletuff: {message}"),
        };
    }
    end.status()
}
