//! Bodies of responses.
ghost use Rattle.std.specs.Prelude.{◌≡◌, ◌≤◌, length, take, IfOk, IfErr, OnErr, vec_len};
ghost use Rattle.cli_client.specs.Bodies.{IsSized, Takes, IsBody};

use crate::fault::ResponseFault;
use crate::head::ParsedHead;
use http1::Limits;
use http1::decode::{Decoded, Decoder};
use http1::framing::Framing;
use httparse::spans::EMPTY_HEADER_SPAN;
use std::alloc::Global;
use std::io::Read;

/// The longest body that is read, in bytes.
pub(crate) const MOST_OF_BODY: u64 = 1_073_741_824;

/// The most trailer fields behind the last chunk.
const MOST_TRAILERS: usize = 64;

/// How many bytes a step of decoding took, and whether the body ends with them.
#[derive(Clone, Copy)]
enum ChunkProgress {
    /// So many; the body goes on behind them.
    Part(usize),
    /// So many; the body ends with them.
    Whole(usize),
}

/// A complete body.
#[derive(Drop)]
pub(crate) struct CompleteBody {
    pub body: Vec<u8>,
    /// Whether further bytes came behind it, which belong to no response (RFC 9112, section 6.3).
    pub has_surplus: bool,
}

/// Reads more bytes and appends them to those received so far.
///
/// # Errors
///
/// `Incomplete` where the connection ends, `NoConnection`, `NoMemory`.
pub(crate) fn read_more<S: Read>(stream: &mut S, came: &mut Vec<u8>) -> Result<(), ResponseFault> {
    let mut part = [0u8; 4096];
    let count = stream.read(&mut part)?;
    if count == 0 {
        return Err(ResponseFault::Incomplete);
    }
    came.extend_from_slice(part.get(..count).unwrap_or_default())?;
    Ok(())
}

/// A body of `size` bytes: the first of `bytes`.
///
/// # Errors
///
/// `TooLong`, `Incomplete` where fewer bytes have come, `NoMemory`.
fn sized_body(alloc: Global, size: u64, bytes: &[u8]) -> Result<Vec<u8>, ResponseFault>
    ensures value { IfOk result (λ body. IsSized size bytes.now body.items) }
{
    if size > MOST_OF_BODY {
        return Err(ResponseFault::TooLong);
    }
    match bytes.get(..size as usize) {
        Some(body) => Ok(Vec::from_slice(alloc, body)?),
        None => Err(ResponseFault::Incomplete),
    }
}

/// Reads until at least `size` bytes have been received.
///
/// # Errors
///
/// `TooLong`; as `read_more`.
fn read_sized<S: Read>(stream: &mut S, size: u64, came: &mut Vec<u8>) -> Result<(), ResponseFault> {
    if size > MOST_OF_BODY {
        return Err(ResponseFault::TooLong);
    }
    for _ in 0..size {
        if came.len() as u64 >= size {
            break;
        }
        read_more(stream, came)?;
    }
    Ok(())
}

/// Decodes a piece of a chunked body and appends its data to `body` (RFC 9112, section 7.1).
///
/// # Errors
///
/// `InvalidChunk`, `NoMemory`.
fn take_chunk(
    decoder: &mut Decoder,
    bytes: &[u8],
    body: &mut Vec<u8>,
) -> Result<ChunkProgress, ResponseFault>
    ensures { IfOk result (Takes decoder.old bytes.now body.old.items decoder.new body.new.items) }
{
    let mut trailers = [EMPTY_HEADER_SPAN; MOST_TRAILERS];
    match decoder.decode(bytes, &mut trailers)? {
        Decoded::NeedMore(len) => Ok(ChunkProgress::Part(len)),
        Decoded::Data(span) => {
            body.extend_from_slice(span.of(bytes))?;
            Ok(ChunkProgress::Part(span.end))
        }
        Decoded::End { len, .. } => Ok(ChunkProgress::Whole(len)),
    }
}

/// Reads a chunked body, whose first bytes came with the head.
///
/// # Errors
///
/// `TooLong`, `InvalidChunk`; as `read_more`.
fn read_chunks<S: Read>(
    alloc: Global,
    stream: &mut S,
    came: Vec<u8>,
) -> Result<CompleteBody, ResponseFault> {
    let mut came = came;
    let mut body = Vec::new(alloc);
    let mut decoder = Decoder::new(Framing::Chunked, &Limits::default());
    let mut start = 0usize;
    for _ in 0..u64::MAX {
        let rest = came.get(start..).unwrap_or_default();
        match take_chunk(&mut decoder, rest, &mut body)? {
            ChunkProgress::Whole(len) => {
                let has_surplus = len < rest.len();
                return Ok(CompleteBody { body, has_surplus });
            }
            ChunkProgress::Part(0) => {
                if rest.is_empty() {
                    came.clear();
                    start = 0;
                }
                read_more(stream, &mut came)?;
            }
            ChunkProgress::Part(len) => start = start.saturating_add(len),
        }
        if body.len() as u64 > MOST_OF_BODY {
            break;
        }
    }
    Err(ResponseFault::TooLong)
}

/// Reads a body, whose first bytes came with the head. A body that only ends with the connection isn't read, since
/// whether it is complete can't be seen.
///
/// # Errors
///
/// `TooLong`, `InvalidChunk`, `NoLength`; as `read_more`.
pub(crate) fn read_body<S: Read>(
    alloc: Global,
    stream: &mut S,
    framing: Framing,
    came: Vec<u8>,
) -> Result<CompleteBody, ResponseFault> {
    match framing {
        Framing::NoBody => Ok(CompleteBody {
            body: Vec::new(alloc),
            has_surplus: !came.is_empty(),
        }),
        Framing::Length(size) => {
            let mut came = came;
            read_sized(stream, size, &mut came)?;
            Ok(CompleteBody {
                body: sized_body(alloc, size, &came)?,
                has_surplus: came.len() as u64 > size,
            })
        }
        Framing::Chunked => read_chunks(alloc, stream, came),
        Framing::UntilClose => Err(ResponseFault::NoLength),
    }
}

/// The body of a response to an HTTP/1.0 request: `bytes` came behind its head before the connection ended. A chunked
/// body, which such a request doesn't ask for (RFC 9112, section 6.1), isn't read.
///
/// # Errors
///
/// The fault of `head.framing`; `UnknownCoding` for a chunked body; `Incomplete`, `TooLong`, `NoMemory`.
pub fn body_of(alloc: Global, head: &ParsedHead, bytes: &[u8]) -> Result<Vec<u8>, ResponseFault>
    ensures { IfOk result (λ body. IsBody head.now.framing bytes.now body.items) }
{
    match head.framing? {
        Framing::NoBody => Ok(Vec::new(alloc)),
        Framing::Length(size) => sized_body(alloc, size, bytes),
        Framing::Chunked => Err(ResponseFault::UnknownCoding),
        Framing::UntilClose => Ok(Vec::from_slice(alloc, bytes)?),
    }
}
