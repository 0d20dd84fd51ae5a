//! A connection of the control port, whose calls don't block.
use crate::control::{ControlledServer, StopServer};
use crate::counters::Counters;
use crate::exposition::metrics;
use crate::hosts::Hosts;
use crate::pages::ControlAnswer;
use crate::port::Stream;
use crate::replies::reply_text;
use crate::request::{ControlReply, MOST_OF_HEAD, control_head_of, reply_due};
use crate::runtime::ControlRuntime;
use std::alloc::{AllocError, Global};
use std::io::{self, ErrorKind, Read, Write};
use std::time::{Duration, Instant};

/// Within how many seconds a head has to come, and then its response to be written.
const LIMIT_SECONDS: u64 = 5;

/// Whether a connection goes on.
#[derive(Clone, Copy, PartialEq, Eq)]
pub(crate) enum ConnProgress {
    /// It waits for its bytes, or to write its response.
    Waits,
    /// Its request is answered.
    Ends,
}

/// A response that is being written.
#[derive(Drop)]
struct ReplyWriter {
    text: String,
    /// How many of its bytes are written.
    written: usize,
}

/// A connection, of which one request is answered.
#[derive(Drop)]
pub(crate) struct Connection {
    stream: Stream,
    hosts: Hosts,
    head: Vec<u8>,
    /// None, until the head has come.
    reply: Option<ReplyWriter>,
    /// When it was accepted, and then when its head had come.
    since: Instant,
}

impl ReplyWriter {
    /// Writes as much as the socket takes.
    ///
    /// # Errors
    ///
    /// The connection's.
    fn write_to<C: Write>(&mut self, stream: &mut C) -> io::Result<ConnProgress> {
        for _ in 0..=self.text.len() {
            let rest = self.text.as_bytes().get(self.written..).unwrap_or_default();
            if rest.is_empty() {
                return Ok(ConnProgress::Ends);
            }
            match stream.write(rest) {
                Ok(0) => return Err(ErrorKind::WriteZero.into()),
                Ok(count) => self.written = self.written.saturating_add(count),
                Err(error) if error.kind() == ErrorKind::WouldBlock => return Ok(
                    ConnProgress::Waits,
                ),
                Err(error) => return Err(error),
            }
        }
        Ok(ConnProgress::Ends)
    }
}

impl Connection {
    /// A connection that was just accepted, whose request may name these hosts.
    ///
    /// # Errors
    ///
    /// The clock's.
    pub(crate) fn new<R: ControlRuntime>(
        rt: &R,
        stream: Stream,
        hosts: Hosts,
    ) -> io::Result<Connection> {
        Ok(Connection {
            stream,
            hosts,
            head: Vec::new(rt.alloc()),
            reply: None,
            since: Instant::now(rt)?,
        })
    }

    /// Reads what has come, and returns the reply if one is due.
    ///
    /// # Errors
    ///
    /// The connection's, or memory ran out.
    fn read_head(&mut self, serves: bool) -> io::Result<Option<ControlReply>> {
        let mut part = [0u8; 512];
        for _ in 0..=MOST_OF_HEAD {
            let count = match self.stream.read(&mut part) {
                Ok(count) => count,
                Err(error) if error.kind() == ErrorKind::WouldBlock => return Ok(None),
                Err(error) => return Err(error),
            };
            self.head
                .extend_from_slice(part.get(..count).unwrap_or_default())?;
            let heading = control_head_of(&self.head, &self.hosts, serves);
            let reply = reply_due(heading, self.head.len(), count == 0);
            if reply.is_some() {
                return Ok(reply);
            }
        }
        Ok(None)
    }

    /// Goes on as far as its bytes do.
    ///
    /// # Errors
    ///
    /// `TimedOut` where its time is over, the connection's, or memory ran out.
    pub(crate) fn advance<R, S>(
        &mut self,
        rt: &R,
        server: &ControlledServer<'_, S>,
    ) -> io::Result<ConnProgress>
    where
        R: ControlRuntime,
        S: StopServer,
    {
        if self.since.elapsed(rt)? >= Duration::from_secs(LIMIT_SECONDS) {
            return Err(ErrorKind::TimedOut.into());
        }
        if self.reply.is_none()
            && let Some(reply) = self.read_head(server.control.is_serving())?
        {
            let body = body(rt.alloc(), reply.answer, server.counters)?;
            let text = reply_text(rt.alloc(), reply, &body)?;
            self.reply = Some(ReplyWriter { text, written: 0 });
            self.since = Instant::now(rt)?;
            if reply.answer == ControlAnswer::Stops {
                server.control.set_stopping();
                server.stop.stop();
            }
        }
        match &mut self.reply {
            Some(reply) => reply.write_to(&mut self.stream),
            None => Ok(ConnProgress::Waits),
        }
    }
}

/// The body of the response.
fn body(alloc: Global, answer: ControlAnswer, counters: &Counters) -> Result<String, AllocError> {
    let text = match answer {
        ControlAnswer::Metrics => return metrics(alloc, &counters.lines(alloc)?),
        ControlAnswer::Healthy => "ok\n",
        ControlAnswer::Unready => "not ready\n",
        ControlAnswer::Stops => "stopping\n",
        ControlAnswer::Unread => "bad request\n",
        ControlAnswer::Forbidden => "forbidden\n",
        ControlAnswer::NotFound => "not found\n",
        ControlAnswer::NotAllowed(_) => "method not allowed\n",
    };
    String::from_str(alloc, text)
}
