//! A server over loopback whose service says a few times that a client is crowded.
ghost use Rattle.std.specs.Prelude.{IfOk, IsSome};

use bytes::Bytes;
use futures::future::{Ready, ready};
use http::Response;
use http::request::Parts;
use http_body_util::Full;
use mds_request::{Actor, Config};
use server_admission::{Arrived, Cost};
use server_http::{
    Crowded, Queues, RequestService, ServeOutcome, ShutdownHandle, bind_first, serve_by,
};
use server_responses::HttpResult;
use std::alloc::{AllocError, Global};
use std::io::{self, Read, Write};
use std::net::TcpStream;
use std::sync::atomic::{AtomicU64, Ordering};
use std::test::Fail;
use std::thread::join;
use tokio::runtime::Runtime;

const CONFIGURATION: &[u8] = br#"{"author":"city","operators":[],"zone":"Z"}"#;

const REQUEST: &[u8] =
    b"POST /policies HTTP/1.1\r\nhost: localhost\r\nconnection: close\r\ncontent-length: 7\r\n\r\nas ever";

const BODY: &[u8] = b"as ever";

/// How often the service says that the client is crowded.
const CROWDED: u64 = 3;

/// A service that takes every request as the author's and answers with its body, after it said so
/// often that the client is crowded.
#[derive(Drop)]
struct Echo {
    alloc: Global,
    asked: AtomicU64,
}

impl RequestService for Echo {
    type Head = Parts;

    type Reply = Ready<HttpResult>;

    fn resolve(&self, parts: Parts) -> Parts {
        parts
    }

    fn actor(_head: &Parts) -> Actor {
        Actor::Author
    }

    fn cost(_head: &Parts, _length: usize) -> Cost {
        Cost::Exclusive
    }

    fn answer(&self, _head: &Parts, body: &Arrived) -> Result<Self::Reply, Crowded>
        ensures { IfOk result (λ reply. IsSome reply.0) }
    {
        if self.asked.fetch_add(1, Ordering::SeqCst) < CROWDED {
            return Err(Crowded);
        }
        let Arrived::Whole(body) = body else {
            return Ok(ready(Err(AllocError)));
        };
        Ok(ready(match body.clone() {
            Ok(body) => Ok(Response::new(self.alloc, Full::new(body))),
            Err(_) => Err(AllocError),
        }))
    }
}

/// Sends a request over a connection that closes after it, and returns the response.
fn send_request(stream: &mut TcpStream, alloc: Global) -> io::Result<Vec<u8>> {
    stream.write_all(REQUEST)?;
    let mut told = Vec::new(alloc);
    stream.read_to_end(&mut told)?;
    Ok(told)
}

/// Sends a request, shuts the server down, and returns the response.
fn send_and_shut_down(
    mut stream: TcpStream,
    closing: &ShutdownHandle,
    alloc: Global,
) -> io::Result<Vec<u8>> {
    let told = send_request(&mut stream, alloc);
    closing.close();
    told
}

/// A request of a crowded client is passed to the service again, with its body, until it is
/// answered.
#[test]
fn tries_a_crowded_request_again(rt: HostRuntime) -> Result<(), Fail> {
    let alloc = rt.alloc();
    let config = Config::read(alloc, CONFIGURATION)?;
    let queues = Queues::new(alloc, &config)?;
    let mut runtime = Runtime::with_worker_threads(&rt, 2)?;
    let listener = bind_first(&rt, "127.0.0.1:0", runtime.handle().reactor())?;
    let stream = TcpStream::connect(&rt, listener.local_addr()?)?;
    let closing = ShutdownHandle::new(alloc)?;
    let echo = Echo {
        alloc,
        asked: AtomicU64::new(0),
    };
    let (told, served) = join(
        &rt,
        || send_and_shut_down(stream, &closing, alloc),
        || serve_by(&rt, &mut runtime, listener, echo, queues, &closing),
    );
    let ServeOutcome { answers, outcome } = served?;
    outcome?;
    let told = told?;
    assert!(rt; told.starts_with(b"HTTP/1.1 200 "));
    assert!(rt; told.ends_with(BODY));
    let echo = answers.ok_or("held")?;
    assert_eq!(rt; echo.asked.load(Ordering::SeqCst), CROWDED + 1);
    Ok(())
}
