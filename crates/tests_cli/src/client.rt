//! Tests of requests over connections that answer with fixed bytes.
use cli_client::{
    Client, ClientRequest, Dial, HeadProgress, RemoteServer, ResponseFault, body_of, parse_head,
    request_text,
};
use http1::framing::Framing;
use std::cell::Cell;
use std::io::{self, Read, Write};
use std::test::Fail;

/// A response of 503 that closes its connection.
const UNAVAILABLE_RESPONSE: &[u8] =
    b"HTTP/1.1 503 \r\nConnection: close\r\ncontent-length: 2\r\n\r\n{}";

/// A final response.
const OK_RESPONSE: &[u8] = b"HTTP/1.1 200 OK\r\ncontent-length: 3\r\n\r\nall";

/// A connection that answers with these bytes.
#[derive(Drop)]
struct FixedStream(&'static [u8]);

impl Read for FixedStream {
    fn read(&mut self, buf: &mut [u8]) -> io::Result<usize> {
        self.0.read(buf)
    }
}

impl Write for FixedStream {
    fn write(&mut self, buf: &[u8]) -> io::Result<usize> {
        Ok(buf.len())
    }

    fn flush(&mut self) -> io::Result<()> {
        Ok(())
    }
}

/// Connections, the first of which answers 503.
#[derive(Drop)]
struct RetryDialer(Cell<u32>);

impl Dial for RetryDialer {
    type Stream = FixedStream;

    fn dial(&self) -> io::Result<FixedStream> {
        let count = self.0.get();
        self.0.set(1);
        Ok(FixedStream(if count == 0 {
            UNAVAILABLE_RESPONSE
        } else {
            OK_RESPONSE
        }))
    }

    fn pause(&self) {}
}

/// Connections that all answer with the same bytes.
#[derive(Drop)]
struct FixedDialer(&'static [u8]);

impl Dial for FixedDialer {
    type Stream = FixedStream;

    fn dial(&self) -> io::Result<FixedStream> {
        Ok(FixedStream(self.0))
    }

    fn pause(&self) {}
}

/// Responses that aren't complete or can't be seen to be complete, each with its fault.
const FAULTS: &[(&[u8], ResponseFault)] = &[
    (
        b"HTTP/1.1 200 OK\r\ncontent-length: 99999999999999999999\r\n\r\n{}",
        ResponseFault::InvalidLength,
    ),
    (
        b"HTTP/1.1 200 OK\r\ncontent-length: 2\r\ncontent-length: 3\r\n\r\n{} ",
        ResponseFault::InvalidLength,
    ),
    (
        b"HTTP/1.1 200 OK\r\ncontent-length: +2\r\n\r\n{}",
        ResponseFault::InvalidLength,
    ),
    (
        b"HTTP/1.1 200 OK\r\ncontent-length: -2\r\n\r\n{}",
        ResponseFault::InvalidLength,
    ),
    (
        b"HTTP/1.1 200 OK\r\ncontent-length: 9\r\n\r\n{}",
        ResponseFault::Incomplete,
    ),
    (
        b"HTTP/1.1 200 OK\r\ncontent-length: 9999999999\r\n\r\n{}",
        ResponseFault::TooLong,
    ),
    (
        b"HTTP/1.1 200 OK\r\ncontent-length: 2\r\ntransfer-encoding: chunked\r\n\r\n0\r\n\r\n",
        ResponseFault::LengthAndCoding,
    ),
    (
        b"HTTP/1.1 200 OK\r\ntransfer-encoding: gzip, chunked\r\n\r\n0\r\n\r\n",
        ResponseFault::UnknownCoding,
    ),
    (
        b"HTTP/1.1 200 OK\r\ntransfer-encoding: chunked\r\n\r\n2\r\n{}\r\n0\r\n",
        ResponseFault::Incomplete,
    ),
    (
        b"HTTP/1.1 200 OK\r\ntransfer-encoding: chunked\r\n\r\n2\r\n{}}\r\n0\r\n\r\n",
        ResponseFault::InvalidChunk,
    ),
    (b"HTTP/1.1 200 OK\r\n\r\n{}", ResponseFault::NoLength),
    (b"no head at all", ResponseFault::InvalidHead),
];

/// A chunked response, behind an interim one, with a surplus byte behind its end.
const CHUNKS: &[u8] = b"HTTP/1.1 102 \r\n\r\nHTTP/1.1 200 OK\r\nTransfer-Encoding: Chunked\r\n\r\n\
    1;a=b\r\na\r\n02\r\nll\r\n0\r\nx: y\r\n\r\n!";

const TEST_SERVER: RemoteServer<'static> = RemoteServer {
    host: "here",
    token: "city",
};

const TEST_REQUEST: ClientRequest<'static> = ClientRequest {
    method: "GET",
    target: "/policies",
    body: b"",
};

#[test]
fn takes_no_reply_that_is_not_whole(rt: HostRuntime) -> Result<(), Fail> {
    for (said, fault) in FAULTS {
        let mut client = Client::new(FixedDialer(said), TEST_SERVER);
        match client.ask(rt.alloc(), &TEST_REQUEST) {
            Err(found) => assert!(rt; found == *fault && !found.words().is_empty()),
            Ok(_) => assert!(rt; false),
        }
    }
    Ok(())
}

#[test]
fn reads_chunks(rt: HostRuntime) -> Result<(), Fail> {
    let mut client = Client::new(FixedDialer(CHUNKS), TEST_SERVER);
    for _ in 0..2 {
        match client.ask(rt.alloc(), &TEST_REQUEST) {
            Ok(reply) => assert!(rt; reply.body.as_slice() == b"all".as_slice()),
            Err(_) => assert!(rt; false),
        }
    }
    Ok(())
}

/// Whether a response that was received up to the end of its connection has this body, or this fault.
fn is_body(rt: &HostRuntime, said: &[u8], wanted: Result<&[u8], ResponseFault>) -> bool {
    let HeadProgress::Whole(head) = parse_head(said) else {
        return false;
    };
    let bytes = said.get(head.len..).unwrap_or_default();
    match (body_of(rt.alloc(), &head, bytes), wanted) {
        (Ok(body), Ok(wanted)) => body.as_slice() == wanted,
        (Err(found), Err(wanted)) => found == wanted,
        _ => false,
    }
}

#[test]
fn reads_bodies_that_have_come(rt: HostRuntime) -> Result<(), Fail> {
    assert!(rt;
        is_body(
            &rt,
            b"HTTP/1.1 200 OK\r\ncontent-length: 2\r\n\r\n{} ",
            Ok(b"{}")
        )
    );
    assert!(rt; is_body(&rt, b"HTTP/1.0 200 OK\r\n\r\n{} ", Ok(b"{} ")));
    assert!(rt; is_body(&rt, b"HTTP/1.1 204 \r\n\r\n", Ok(b"")));
    let fault = ResponseFault::InvalidLength;
    assert!(rt;
        is_body(
            &rt,
            b"HTTP/1.1 200 OK\r\ncontent-length: x\r\n\r\n{}",
            Err(fault)
        )
    );
    let fault = ResponseFault::Incomplete;
    assert!(rt;
        is_body(
            &rt,
            b"HTTP/1.1 200 OK\r\ncontent-length: 3\r\n\r\n{}",
            Err(fault)
        )
    );
    let fault = ResponseFault::UnknownCoding;
    let said = b"HTTP/1.1 200 OK\r\ntransfer-encoding: chunked\r\n\r\n0\r\n\r\n";
    assert!(rt; is_body(&rt, said, Err(fault)));
    Ok(())
}

#[test]
fn asks_again(rt: HostRuntime) -> Result<(), Fail> {
    let call = ClientRequest {
        method: "PUT",
        target: "/drafts/policies/1",
        body: b"{}",
    };
    let mut client = Client::new(RetryDialer(Cell::new(0)), TEST_SERVER);
    match client.ask(rt.alloc(), &call) {
        Ok(reply) => {
            assert!(rt; reply.status == 200 && reply.body.as_slice() == b"all".as_slice());
        }
        Err(_) => assert!(rt; false),
    }
    Ok(())
}

#[test]
fn writes_and_reads_heads(rt: HostRuntime) -> Result<(), Fail> {
    let call = ClientRequest {
        method: "DELETE",
        target: "/fleet/vehicles/1",
        body: b"",
    };
    let text = request_text(rt.alloc(), &TEST_SERVER, &call)?;
    let wanted =
        b"DELETE /fleet/vehicles/1 HTTP/1.1\r\nhost: here\r\nauthorization: Bearer city\r\ncontent-length: 0\r\n\r\n";
    assert!(rt; text.as_slice() == wanted.as_slice());
    match parse_head(UNAVAILABLE_RESPONSE) {
        HeadProgress::Whole(head) => {
            assert!(rt;
                head.status == 503 && head.closes && head.framing == Ok(Framing::Length(2))
            );
        }
        _ => assert!(rt; false),
    }
    assert!(rt; matches!(parse_head(b"HTTP/1.1 2"), HeadProgress::Partial));
    assert!(rt; matches!(parse_head(b"no head at all"), HeadProgress::Broken));
    Ok(())
}
