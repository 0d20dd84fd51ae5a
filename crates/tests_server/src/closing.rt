//! A server over loopback that shuts down while a connection is idle.
ghost use Rattle.std.specs.Prelude.{IfOk, IsSome};

use bytes::Bytes;
use futures::future::{Ready, ready};
use http::Response;
use http::request::Parts;
use http_body_util::Full;
use mds_request::{Actor, Config};
use server_admission::{Arrived, Cost};
use server_http::{
    Crowded, Queues, RequestService, ServeOutcome, ShutdownHandle, bind_first, serve_by,
};
use server_responses::HttpResult;
use std::alloc::Global;
use std::io::{self, Read, Write};
use std::net::TcpStream;
use std::test::Fail;
use std::thread::join;
use tokio::runtime::Runtime;

const CONFIGURATION: &[u8] = br#"{"author":"city","operators":[],"zone":"Z"}"#;

const REQUEST: &[u8] = b"GET /policies HTTP/1.1\r\nhost: localhost\r\n\r\n";

const ANSWER: &[u8] = b"as ever";

/// The most reads for one answer.
const MOST_READS: u32 = 1000;

/// A service that takes every request as the author's, and gives each the same answer.
#[derive(Drop)]
struct FixedAnswerService {
    alloc: Global,
}

impl RequestService for FixedAnswerService {
    type Head = Parts;

    type Reply = Ready<HttpResult>;

    fn resolve(&self, parts: Parts) -> Parts {
        parts
    }

    fn actor(_head: &Parts) -> Actor {
        Actor::Author
    }

    fn cost(_head: &Parts, _length: usize) -> Cost {
        Cost::Shared
    }

    fn answer(&self, _head: &Parts, _body: &Arrived) -> Result<Self::Reply, Crowded>
        ensures { IfOk result (λ reply. IsSome reply.0) }
    {
        let body = Full::new(Bytes::from_static(ANSWER));
        Ok(ready(Ok(Response::new(self.alloc, body))))
    }
}

/// Sends a request over a connection that may stay open, and returns whether the answer came.
fn is_answered(stream: &mut TcpStream, alloc: Global) -> io::Result<bool> {
    stream.write_all(REQUEST)?;
    let mut answer = Vec::new(alloc);
    let mut part = [0u8; 512];
    for _ in 0..MOST_READS {
        let count = stream.read(&mut part)?;
        answer.extend_from_slice(part.get(..count).unwrap_or_default())?;
        if count == 0 || answer.ends_with(ANSWER) {
            break;
        }
    }
    Ok(answer.ends_with(ANSWER))
}

/// Sends a request, shuts the server down, and returns whether the answer came and the connection then closed with no
/// further byte.
fn is_ended(mut stream: TcpStream, closing: &ShutdownHandle, alloc: Global) -> io::Result<bool> {
    let is_answered = is_answered(&mut stream, alloc);
    closing.close();
    let mut rest = Vec::new(alloc);
    stream.read_to_end(&mut rest)?;
    Ok(is_answered? && rest.is_empty())
}

/// An idle connection closes when its server shuts down, and the service is returned.
#[test]
fn ends_with_an_idle_connection(rt: HostRuntime) -> Result<(), Fail> {
    let alloc = rt.alloc();
    let config = Config::read(alloc, CONFIGURATION)?;
    let queues = Queues::new(alloc, &config)?;
    let mut runtime = Runtime::with_worker_threads(&rt, 2)?;
    let listener = bind_first(&rt, "127.0.0.1:0", runtime.handle().reactor())?;
    let stream = TcpStream::connect(&rt, listener.local_addr()?)?;
    let closing = ShutdownHandle::new(alloc)?;
    let (ended, served) = join(
        &rt,
        || is_ended(stream, &closing, alloc),
        || serve_by(
            &rt,
            &mut runtime,
            listener,
            FixedAnswerService { alloc },
            queues,
            &closing,
        ),
    );
    let ServeOutcome { answers, outcome } = served?;
    outcome?;
    assert!(rt; ended?);
    assert!(rt; answers.is_some());
    Ok(())
}
