//! The access token of an import or an export.
ghost use Rattle.std.specs.Prelude.{◌≡◌, MatchResult, Ok, Err};
ghost use Rattle.cli_transfer.specs.Tokens.{without_line_end, token_in};

use crate::end::TransferEnd;
use crate::opening::{FileOpenFault, open_source};
use cli_args::{Destination, TokenSource};
use cli_client::RemoteServer;
use cli_host::FileHost;
use std::alloc::Global;
use std::fs::File;
use std::io::{ErrorKind, Read};
use std::str::from_utf8;

/// The most bytes of an access token.
const MOST_TOKEN: usize = 64;

/// How many bytes of its file are read: those of an access token and of a line end, and one more.
const MOST_READ: u64 = 67;

/// Why a file has no access token.
#[derive(Clone, Copy, Debug, PartialEq, Eq)]
pub enum TokenFault {
    /// It is a FIFO, a socket, a device or a folder.
    NotRegular,
    /// It can't be read.
    Unreadable,
    /// It has nothing in front of its line end.
    Empty,
    /// It has more than 64 bytes in front of its line end.
    TooLong,
}

impl TokenFault {
    /// The fault in words.
    pub fn words(self) -> &'static str {
        match self {
            TokenFault::NotRegular => "the access token's file isn't a regular file",
            TokenFault::Unreadable => "the access token's file can't be read",
            TokenFault::Empty => "the access token's file is empty",
            TokenFault::TooLong => "the access token's file has more than 64 bytes",
        }
    }
}

/// The bytes without the one line end, LF or CR LF, behind them.
fn without_line_end(bytes: &[u8]) -> &[u8]
    ensures { result.now ≡ without_line_end bytes.now }
{
    if let Some(front) = bytes.strip_suffix(b"\r\n".as_slice()) {
        return front;
    }
    match bytes.strip_suffix(b"\n".as_slice()) {
        Some(front) => front,
        None => bytes,
    }
}

/// The access token in the bytes of a file.
///
/// # Errors
///
/// `Empty`, `TooLong`.
fn token_in(bytes: &[u8]) -> Result<&[u8], TokenFault>
    ensures { MatchResult result
        (λ token. token_in bytes.now ≡ Ok token.now)
        (λ fault. token_in bytes.now ≡ Err fault) }
{
    let token = without_line_end(bytes);
    if token.is_empty() {
        Err(TokenFault::Empty)
    } else if token.len() > MOST_TOKEN {
        Err(TokenFault::TooLong)
    } else {
        Ok(token)
    }
}

/// The first bytes of a file, up to `MOST_READ`.
///
/// # Errors
///
/// `NoToken` where they can't be read, `NoMemory`.
fn first_bytes(alloc: Global, file: File) -> Result<Vec<u8>, TransferEnd> {
    let mut bytes = Vec::new(alloc);
    let mut front = file.take(MOST_READ);
    match front.read_to_end(&mut bytes) {
        Ok(_) => Ok(bytes),
        Err(error) => Err(match error.kind() {
            ErrorKind::OutOfMemory => TransferEnd::NoMemory,
            _ => TransferEnd::NoToken(TokenFault::Unreadable),
        }),
    }
}

/// Reads the access token in a file.
///
/// # Errors
///
/// `NoToken`, `BadPlace` where it isn't UTF-8, `NoMemory`.
fn read_token<R: FileHost>(rt: &R, path: &str) -> Result<String, TransferEnd> {
    let file = match open_source(rt, path) {
        Ok(file) => file,
        Err(FileOpenFault::NotRegular) => return Err(TransferEnd::NoToken(TokenFault::NotRegular)),
        Err(FileOpenFault::Unreadable) => return Err(TransferEnd::NoToken(TokenFault::Unreadable)),
    };
    let bytes = first_bytes(rt.alloc(), file)?;
    match token_in(&bytes) {
        Ok(token) => match from_utf8(token) {
            Ok(token) => Ok(String::from_str(rt.alloc(), token)?),
            Err(_) => Err(TransferEnd::BadPlace),
        },
        Err(fault) => Err(TransferEnd::NoToken(fault)),
    }
}

/// The access token, as it is given or from its file.
///
/// # Errors
///
/// As `read_token`.
fn token_from<R: FileHost>(rt: &R, source: TokenSource<'_>) -> Result<String, TransferEnd> {
    match source {
        TokenSource::Argument(token) => Ok(String::from_str(rt.alloc(), token)?),
        TokenSource::File(path) => read_token(rt, path),
    }
}

/// The access token for a server; empty where nothing is sent.
///
/// # Errors
///
/// As `read_token`.
pub(crate) fn token_for<R: FileHost>(
    rt: &R,
    destination: Option<Destination<'_>>,
) -> Result<String, TransferEnd> {
    match destination {
        Some(destination) => token_from(rt, destination.token),
        None => Ok(String::new(rt.alloc())),
    }
}

/// The server of a destination, with this access token.
pub(crate) fn server_of<'a>(destination: Destination<'a>, token: &'a str) -> RemoteServer<'a> {
    RemoteServer {
        host: destination.address,
        token,
    }
}

/// The server of a destination, if there is one, with this access token.
pub(crate) fn server_for<'a>(
    destination: Option<Destination<'a>>,
    token: &'a str,
) -> Option<RemoteServer<'a>> {
    match destination {
        Some(destination) => Some(server_of(destination, token)),
        None => None,
    }
}
