//! One request over a connection, and its response.
ghost use Rattle.std.specs.Prelude.{IfOk, IfErr};
ghost use Rattle.journal_gateway.specs.Replies.{Takes, Refuses};

use crate::dial::MemberStream;
use crate::fault::GatewayFault;
use crate::request::push_request;
use http1::{Client, Event, Limits};
use httparse::spans::{EMPTY_HEADER_SPAN, ResponseSpans};
use std::alloc::Global;
use std::io::Read;

/// The longest body that is read, in bytes: several times that of four chunks.
const MOST_REPLY: usize = 16_777_216;

/// The most fields of a head that is read, and of a trailer.
const MOST_FIELDS: usize = 64;

/// A response of a member.
#[derive(Debug, Drop)]
pub struct GatewayReply {
    /// Its status.
    pub status: u16,
    /// Its body.
    pub body: Vec<u8>,
}

/// A response, and what becomes of the connection.
#[derive(Debug, Drop)]
pub struct Exchange {
    /// The response.
    pub reply: GatewayReply,
    /// Whether the connection can be used again.
    pub is_kept: bool,
}

/// How far a response was read.
#[derive(Clone, Copy, Debug, PartialEq, Eq)]
pub enum ReplyProgress {
    /// More has to come.
    Waiting,
    /// A part of it was taken.
    Part,
    /// It was read whole.
    Whole,
}

/// Takes what was read of a response.
///
/// # Errors
///
/// `NotHttp` where it isn't what may follow a request, `NoMemory`.
fn take_event(
    event: Event<ResponseSpans>,
    input: &[u8],
    reply: &mut GatewayReply,
) -> Result<ReplyProgress, GatewayFault>
    ensures taken { IfOk result (Takes event input.now reply.old reply.new) }
    ensures refused { IfErr result (Refuses event input.now) }
{
    match event {
        Event::NeedMore => Ok(ReplyProgress::Waiting),
        Event::Head(head) => {
            reply.status = head.code;
            Ok(ReplyProgress::Part)
        }
        Event::Informational(_) => Ok(ReplyProgress::Part),
        Event::Data(span) => {
            if span.start > span.end || span.end > input.len() {
                return Err(GatewayFault::NotHttp);
            }
            reply.body.extend_from_slice(&input[span.start..span.end])?;
            Ok(ReplyProgress::Part)
        }
        Event::End(_) => Ok(ReplyProgress::Whole),
        Event::Paused | Event::Upgraded | Event::Closed => Err(GatewayFault::NotHttp),
    }
}

/// Reads more bytes behind those that came.
///
/// # Errors
///
/// `Incomplete` where the connection ends, `NoConnection`, `NoMemory`.
fn read_more<S: Read>(stream: &mut S, came: &mut Vec<u8>) -> Result<(), GatewayFault> {
    let mut part = [0u8; 16_384];
    let count = stream.read(&mut part)?;
    if count == 0 {
        return Err(GatewayFault::Incomplete);
    }
    came.extend_from_slice(part.get(..count).unwrap_or_default())?;
    Ok(())
}

/// Reads a response; and whether further bytes came behind it, which belong to none.
///
/// # Errors
///
/// `NotHttp`, `TooLong`; as `read_more`.
fn read_reply<S: Read>(
    alloc: Global,
    client: &mut Client,
    stream: &mut S,
) -> Result<(GatewayReply, bool), GatewayFault> {
    let mut reply = GatewayReply {
        status: 0,
        body: Vec::new(alloc),
    };
    let mut came = Vec::new(alloc);
    let mut start = 0usize;
    for _ in 0..u64::MAX {
        let mut spans = [EMPTY_HEADER_SPAN; MOST_FIELDS];
        let rest = came.get(start..).unwrap_or_default();
        let read = client.read(rest, &mut spans)?;
        let has_surplus = read.consumed < rest.len();
        let progress = take_event(read.event, rest, &mut reply)?;
        start = start.saturating_add(read.consumed);
        match progress {
            ReplyProgress::Whole => return Ok((reply, has_surplus)),
            ReplyProgress::Part if reply.body.len() <= MOST_REPLY => {}
            ReplyProgress::Part => break,
            ReplyProgress::Waiting => {
                came = Vec::from_slice(alloc, came.get(start..).unwrap_or_default())?;
                start = 0;
                read_more(stream, &mut came)?;
            }
        }
    }
    Err(GatewayFault::TooLong)
}

/// Posts a body to a path over a connection, and reads the response whole.
///
/// # Errors
///
/// Why there is no response. The connection can't be used again then.
pub fn make_exchange<'a, S: MemberStream>(
    alloc: Global,
    stream: &mut S,
    path: &str,
    host: &'a str,
    token: Option<&'a str>,
    body: &[u8],
) -> Result<Exchange, GatewayFault> {
    let mut client = Client::new(Limits::default());
    let mut text = Vec::with_capacity(alloc, body.len())?;
    push_request(&mut client, &mut text, path, host, token, body)?;
    stream.begin()?;
    stream.write_all(&text)?;
    let (reply, has_surplus) = read_reply(alloc, &mut client, stream)?;
    let is_kept = client.is_idle() && !has_surplus;
    Ok(Exchange { reply, is_kept })
}
