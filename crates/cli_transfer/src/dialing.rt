//! Connections to a server, with a deadline.

use crate::host::DialHost;
use cli_client::Dial;
use std::io::{self, ErrorKind, Read, Write};
use std::net::{Net, OpenStream, TcpStream};
use std::thread;
use std::time::{Clock, Duration};

/// How many seconds a server has for a response, and each single read or write.
const ANSWER_SECONDS: u64 = 20;

/// The pause before a request is sent again, in milliseconds.
const PAUSE_MILLIS: u64 = 200;

/// Opens connections to an address.
#[derive(Drop)]
pub struct Dialer<'a, R> {
    pub rt: &'a R,
    pub address: &'a str,
}

/// A connection with a deadline for reading, which each write sets anew.
#[derive(Drop)]
pub struct TimedStream<'a, R: Net> {
    rt: &'a R,
    stream: R::Stream,
    /// The deadline, by the monotonic clock: after it no read begins.
    until: Duration,
}

/// The deadline of a response that is waited for from now on.
///
/// # Errors
///
/// The clock can't be read, or has no such moment.
fn deadline<R: Clock>(rt: &R) -> io::Result<Duration> {
    match rt
        .monotonic()?
        .checked_add(Duration::from_secs(ANSWER_SECONDS))
    {
        Some(until) => Ok(until),
        None => Err(ErrorKind::TimedOut.into()),
    }
}

impl<R: DialHost> Read for TimedStream<'_, R> {
    fn read(&mut self, buf: &mut [u8]) -> io::Result<usize> {
        if self.rt.monotonic()? > self.until {
            return Err(ErrorKind::TimedOut.into());
        }
        self.stream.read(buf)
    }
}

impl<R: DialHost> Write for TimedStream<'_, R> {
    fn write(&mut self, buf: &[u8]) -> io::Result<usize> {
        self.until = deadline(self.rt)?;
        self.stream.write(buf)
    }

    fn flush(&mut self) -> io::Result<()> {
        self.stream.flush()
    }
}

impl<'a, R: DialHost> Dial for Dialer<'a, R> {
    type Stream = TimedStream<'a, R>;

    fn dial(&self) -> io::Result<TimedStream<'a, R>> {
        let stream = TcpStream::connect(self.rt, self.address)?;
        let limit = Some(Duration::from_secs(ANSWER_SECONDS));
        stream.set_read_timeout(limit)?;
        stream.set_write_timeout(limit)?;
        let until = deadline(self.rt)?;
        Ok(TimedStream {
            rt: self.rt,
            stream,
            until,
        })
    }

    fn pause(&self) {
        thread::sleep(self.rt, Duration::from_millis(PAUSE_MILLIS));
    }
}
