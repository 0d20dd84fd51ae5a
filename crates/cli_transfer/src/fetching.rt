//! Files that are read from another server.

use crate::dialing::{Dialer, TimedStream};
use crate::draft_limits::is_visible;
use crate::end::TransferEnd;
use crate::host::DialHost;
use cli_client::{Dial, HeadProgress, ResponseFault, body_of, parse_head};
use std::alloc::{AllocError, Global};
use std::io::{self, ErrorKind, Read, Write};

/// The most bytes of a file, and of a response that has one.
pub(crate) const MOST_BYTES: u64 = 67_108_864;

/// The message for one with more.
pub(crate) const TOO_LONG: &str = "it has more than 67108864 bytes";

/// The address of a file: its host, with the port, and its path.
#[derive(Drop)]
pub(crate) struct Link {
    host: String,
    target: String,
}

/// A host with its port, which is 80 where none is given.
///
/// # Errors
///
/// Memory ran out.
fn with_port(alloc: Global, host: &str) -> Result<String, AllocError> {
    if host.contains(':') {
        String::from_str(alloc, host)
    } else {
        format!(in alloc; "{host}:80")
    }
}

/// The address of a path at a host.
///
/// # Errors
///
/// Memory ran out.
fn link_to(alloc: Global, host: &str, path: &str) -> Result<Link, AllocError> {
    Ok(Link {
        host: with_port(alloc, host)?,
        target: format!(in alloc; "/{path}")?,
    })
}

/// Reads an address `http://HOST/PATH`; `None` for any other word.
///
/// # Errors
///
/// Memory ran out.
pub(crate) fn link_of(alloc: Global, word: &str) -> Result<Option<Link>, AllocError> {
    if !is_visible(word) {
        return Ok(None);
    }
    let Some(rest) = word.strip_prefix("http://") else {
        return Ok(None);
    };
    match rest.split_once('/') {
        Some((host, path)) => Ok(Some(link_to(alloc, host, path)?)),
        None => Ok(Some(link_to(alloc, rest, "")?)),
    }
}

/// Sends a request, and reads what comes over the connection up to its end or to this many bytes.
///
/// # Errors
///
/// The connection's; out of memory.
fn send_and_read<R: DialHost>(
    alloc: Global,
    stream: TimedStream<'_, R>,
    request: &[u8],
    most: u64,
) -> io::Result<Vec<u8>> {
    let mut stream = stream;
    stream.write_all(request)?;
    let mut bytes = Vec::new(alloc);
    let mut front = stream.take(most);
    front.read_to_end(&mut bytes)?;
    Ok(bytes)
}

/// The body of a response of 200 that is complete by its head; or in words why there is none.
///
/// # Errors
///
/// `NoMemory`.
fn body_in(alloc: Global, bytes: &[u8]) -> Result<Result<Vec<u8>, &'static str>, TransferEnd> {
    let head = match parse_head(bytes) {
        HeadProgress::Whole(head) => head,
        HeadProgress::Partial | HeadProgress::Broken => {
            return Ok(Err(ResponseFault::InvalidHead.words()));
        }
    };
    if head.status != 200 {
        return Ok(Err("the server doesn't give it"));
    }
    match body_of(alloc, &head, bytes.get(head.len..).unwrap_or_default()) {
        Ok(body) => Ok(Ok(body)),
        Err(ResponseFault::NoMemory) => Err(TransferEnd::NoMemory),
        Err(fault) => Ok(Err(fault.words())),
    }
}

/// The request for a file, of HTTP/1.0.
///
/// # Errors
///
/// Memory ran out.
fn request_for(alloc: Global, link: &Link) -> Result<String, AllocError> {
    format!(in alloc;
        "GET {} HTTP/1.0\r\nhost: {}\r\nconnection: close\r\n\r\n",
        link.target.as_str(),
        link.host.as_str()
    )
}

/// Opens a connection to an address.
///
/// # Errors
///
/// Nothing listens there.
fn open_stream<'a, R: DialHost>(rt: &'a R, address: &'a str) -> io::Result<TimedStream<'a, R>> {
    let dialer = Dialer { rt, address };
    dialer.dial()
}

/// Sends a request to an address, and reads the response up to the end of its connection or to this
/// many bytes.
///
/// # Errors
///
/// Nothing listens there; the connection's; out of memory.
fn answer_of<R: DialHost>(
    rt: &R,
    alloc: Global,
    address: &str,
    request: &str,
    most: u64,
) -> io::Result<Vec<u8>> {
    let stream = open_stream(rt, address)?;
    send_and_read(alloc, stream, request.as_bytes(), most)
}

/// Asks for a file once, and gives its bytes, or in words why they can't be had.
///
/// # Errors
///
/// `NoMemory`.
pub(crate) fn fetch_file<R: DialHost>(
    rt: &R,
    alloc: Global,
    link: &Link,
) -> Result<Result<Vec<u8>, &'static str>, TransferEnd> {
    let request = request_for(alloc, link)?;
    match answer_of(
        rt,
        alloc,
        link.host.as_str(),
        request.as_str(),
        MOST_BYTES + 1,
    ) {
        Ok(bytes) => {
            if bytes.len() as u64 > MOST_BYTES {
                return Ok(Err(TOO_LONG));
            }
            body_in(alloc, &bytes)
        }
        Err(error) => match error.kind() {
            ErrorKind::OutOfMemory => Err(TransferEnd::NoMemory),
            _ => Ok(Err("the server doesn't answer")),
        },
    }
}
