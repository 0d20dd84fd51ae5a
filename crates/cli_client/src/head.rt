//! Heads of responses.
ghost use Rattle.std.specs.Prelude.{◌≡◌, not};
ghost use Rattle.httparse.specs.Grammar.{HasNoResponse};
ghost use Rattle.http1.specs.Conn.{keeps_alive};
ghost use Rattle.cli_client.specs.Heads.{framing_of, HeadingOf};

use crate::fault::ResponseFault;
use http1::fields::{KnownFields, TransferEncoding};
use http1::framing::{Framing, MethodKind, response_framing};
use httparse::Status;
use httparse::spans::{EMPTY_HEADER_SPAN, parse_response};

/// The most fields of a head that is read.
const MOST_FIELDS: usize = 64;

/// The head of a response to a request that is neither `HEAD` nor `CONNECT`.
#[derive(Clone, Copy)]
pub struct ParsedHead {
    pub status: u16,
    /// Its length in bytes; the body begins behind it.
    pub len: usize,
    /// How the body ends, or why the head doesn't say (RFC 9112, section 6.3).
    pub framing: Result<Framing, ResponseFault>,
    /// Whether the server closes the connection behind the body (RFC 9112, section 9.3).
    pub closes: bool,
}

/// What the bytes received so far begin with.
#[derive(Clone, Copy)]
pub enum HeadProgress {
    /// A whole head.
    Whole(ParsedHead),
    /// No whole head yet.
    Partial,
    /// Nothing that can become a head, or one with more than 64 fields.
    Broken,
}

/// How the body of a response of HTTP/1.`minor` ends (RFC 9112, section 6.3).
///
/// # Errors
///
/// `InvalidLength`, `LengthAndCoding`, and `UnknownCoding`, which is also given for a coding that isn't decoded here.
fn framing_of(status: u16, minor: u8, known: &KnownFields) -> Result<Framing, ResponseFault>
    ensures { result ≡ framing_of status minor known.now }
{
    match response_framing(MethodKind::Other, status, minor, known) {
        Ok(Framing::NoBody) => Ok(Framing::NoBody),
        Ok(_) if known.other_coding => Err(ResponseFault::UnknownCoding),
        Ok(framing) => Ok(framing),
        Err(error) => Err(ResponseFault::from(error)),
    }
}

/// Whether the connection is closed behind a response of HTTP/1.`minor` (RFC 9112, section 9.3).
fn is_closing(minor: u8, known: &KnownFields) -> bool
    ensures { result ≡ not (keeps_alive minor known.now) }
{
    let is_coded = known.transfer_encoding != TransferEncoding::Absent;
    known.close || (minor == 0 && (!known.keep_alive || is_coded))
}

/// Parses the head that the bytes begin with (RFC 9112, sections 4 and 5).
pub fn parse_head(bytes: &[u8]) -> HeadProgress
    ensures { HeadingOf bytes.now result }
{
    let mut headers = [EMPTY_HEADER_SPAN; MOST_FIELDS];
    match parse_response(bytes, &mut headers) {
        Ok(Status::Complete(found)) => {
            let known = KnownFields::from_spans(bytes, &headers[..found.headers]);
            HeadProgress::Whole(ParsedHead {
                status: found.code,
                len: found.len,
                framing: framing_of(found.code, found.version, &known),
                closes: is_closing(found.version, &known),
            })
        }
        Ok(Status::Partial) => HeadProgress::Partial,
        Err(_) => HeadProgress::Broken,
    }
}
