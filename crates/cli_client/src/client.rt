//! A client of one server, whose connection is kept between requests and opened again.

use crate::body::{CompleteBody, read_body, read_more};
use crate::fault::ResponseFault;
use crate::head::{HeadProgress, ParsedHead, parse_head};
use crate::request::{ClientRequest, RemoteServer, request_text};
use std::alloc::Global;
use std::io::{self, Read, Write};

/// With more bytes than these, a head that isn't whole is given up.
const MOST_OF_HEAD: usize = 65_536;

/// The most heads that are read for a response, interim ones included.
const MOST_INTERIM: u32 = 16;

/// The first status of a final response (RFC 9110, section 15).
const FIRST_FINAL: u16 = 200;

/// The most times that a request is sent.
const TRIES: u32 = 5;

/// The status of a server that can't answer now, Service Unavailable (RFC 9110, section 15.6.4).
const UNAVAILABLE: u16 = 503;

/// Opens connections, and waits before a request is sent again.
pub trait Dial {
    type Stream: Read + Write + Drop;

    /// Opens a new connection.
    fn dial(&self) -> io::Result<Self::Stream>;

    /// Waits before a request is sent again.
    fn pause(&self);
}

/// The final response of a server.
#[derive(Drop)]
pub struct HttpResponse {
    pub status: u16,
    pub body: Vec<u8>,
}

/// A response, and whether the connection is closed behind it.
#[derive(Drop)]
struct ExchangeResult {
    reply: HttpResponse,
    closes: bool,
}

/// A client of one server, by one access token.
#[derive(Drop)]
pub struct Client<'a, D: Dial> {
    dial: D,
    server: RemoteServer<'a>,
    stream: Option<D::Stream>,
}

/// Reads into `came` until it begins with a whole head; the first bytes may have come already, and more may come behind
/// it.
///
/// # Errors
///
/// `InvalidHead` where no head comes; as `read_more`.
fn read_head<S: Read>(stream: &mut S, came: &mut Vec<u8>) -> Result<ParsedHead, ResponseFault> {
    for _ in 0..=MOST_OF_HEAD {
        match parse_head(came) {
            HeadProgress::Whole(head) => return Ok(head),
            HeadProgress::Partial if came.len() <= MOST_OF_HEAD => read_more(stream, came)?,
            _ => break,
        }
    }
    Err(ResponseFault::InvalidHead)
}

/// Reads the head of the final response, and gives it with the bytes that came behind it. Interim responses in front of
/// it are skipped (RFC 9110, section 15.2).
///
/// # Errors
///
/// As `read_head`.
fn read_final_head<S: Read>(
    alloc: Global,
    stream: &mut S,
) -> Result<(ParsedHead, Vec<u8>), ResponseFault> {
    let mut came = Vec::new(alloc);
    for _ in 0..MOST_INTERIM {
        let head = read_head(stream, &mut came)?;
        let behind = Vec::from_slice(alloc, came.get(head.len..).unwrap_or_default())?;
        if head.status >= FIRST_FINAL {
            return Ok((head, behind));
        }
        came = behind;
    }
    Err(ResponseFault::InvalidHead)
}

/// Sends a request over a connection and reads the response.
///
/// # Errors
///
/// Why there is no response.
fn exchange<S: Read + Write>(
    alloc: Global,
    stream: &mut S,
    request: &[u8],
) -> Result<ExchangeResult, ResponseFault> {
    stream.write_all(request)?;
    let (head, came) = read_final_head(alloc, stream)?;
    let CompleteBody { body, has_surplus } = read_body(alloc, stream, head.framing?, came)?;
    Ok(ExchangeResult {
        reply: HttpResponse {
            status: head.status,
            body,
        },
        closes: head.closes || has_surplus,
    })
}

impl<'a, D: Dial> Client<'a, D> {
    /// A client without a connection as yet.
    pub fn new(dial: D, server: RemoteServer<'a>) -> Client<'a, D> {
        Client {
            dial,
            server,
            stream: None,
        }
    }

    /// Sends a request once, over the open connection or a new one.
    ///
    /// # Errors
    ///
    /// Why there is no response; the connection isn't kept then.
    fn ask_once(&mut self, alloc: Global, request: &[u8]) -> Result<HttpResponse, ResponseFault> {
        let mut stream = match self.stream.take() {
            Some(stream) => stream,
            None => self.dial.dial()?,
        };
        let read = exchange(alloc, &mut stream, request)?;
        if !read.closes {
            self.stream = Some(stream);
        }
        Ok(read.reply)
    }

    /// Sends a request, and sends it again a few times after a passing fault (`ResponseFault::is_passing`) or a status of
    /// 503.
    ///
    /// # Errors
    ///
    /// Why there is no response: the fault of the last attempt.
    pub fn ask(
        &mut self,
        alloc: Global,
        call: &ClientRequest<'_>,
    ) -> Result<HttpResponse, ResponseFault> {
        let request = request_text(alloc, &self.server, call)?;
        for _ in 1..TRIES {
            match self.ask_once(alloc, &request) {
                Ok(reply) if reply.status != UNAVAILABLE => return Ok(reply),
                Err(fault) if !fault.is_passing() => return Err(fault),
                _ => self.dial.pause(),
            }
        }
        self.ask_once(alloc, &request)
    }
}
