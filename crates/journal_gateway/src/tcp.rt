//! Connections by TCP, each with a time limit.
ghost use Rattle.std.specs.Prelude.{◌≡◌, ◌+◌, ◌<◌, IfSome};
ghost use Rattle.std.specs.Duration.{as_nanos};
ghost use Rattle.journal_gateway.specs.Times.{IsLeft};

use crate::dial::{Dial, MemberStream};
use std::io::{self, ErrorKind, Read, Write};
use std::net::{Net, OpenStream, TcpStream, ToSocketAddrs};
use std::thread;
use std::time::{Clock, Duration};

/// How many milliseconds a member has to take a connection.
const CONNECT_MILLIS: u64 = 500;

/// How many milliseconds a member has for an answer: fewer than the 7 seconds behind which etcd gives up itself.
const ANSWER_MILLIS: u64 = 2000;

/// How many milliseconds are waited before a request is sent again.
const PAUSE_MILLIS: u64 = 50;

/// What connections by TCP need of the machine: sockets and the clock.
pub trait DialHost: Net + Clock {}

impl<R: Net + Clock> DialHost for R {}

/// Opens connections by TCP.
#[derive(Drop)]
pub struct MemberDialer<'a, R> {
    pub rt: &'a R,
}

/// A connection by TCP. Behind the end of its time nothing is read or written.
#[derive(Drop)]
pub struct TcpMember<'a, R: Net> {
    rt: &'a R,
    stream: R::Stream,
    /// When the time ends, by the monotonic clock.
    until: Duration,
}

/// How much time is left. `None` where there is none.
pub fn left_of(until: Duration, now: Duration) -> Option<Duration>
    ensures { IsLeft until now result }
{
    let left = until.saturating_sub(now);
    if left.as_nanos() > 0 {
        Some(left)
    } else {
        None
    }
}

impl<R: DialHost> TcpMember<'_, R> {
    /// How much time is left.
    ///
    /// # Errors
    ///
    /// `TimedOut` where there is none; the clock's.
    fn time_left(&self) -> io::Result<Duration> {
        match left_of(self.until, self.rt.monotonic()?) {
            Some(left) => Ok(left),
            None => Err(ErrorKind::TimedOut.into()),
        }
    }
}

impl<R: DialHost> Read for TcpMember<'_, R> {
    fn read(&mut self, buf: &mut [u8]) -> io::Result<usize> {
        let left = self.time_left()?;
        self.stream.set_read_timeout(Some(left))?;
        self.stream.read(buf)
    }
}

impl<R: DialHost> Write for TcpMember<'_, R> {
    fn write(&mut self, buf: &[u8]) -> io::Result<usize> {
        let left = self.time_left()?;
        self.stream.set_write_timeout(Some(left))?;
        self.stream.write(buf)
    }

    fn flush(&mut self) -> io::Result<()> {
        self.stream.flush()
    }
}

impl<R: DialHost> MemberStream for TcpMember<'_, R> {
    fn begin(&mut self) -> io::Result<()> {
        let now = self.rt.monotonic()?;
        match now.checked_add(Duration::from_millis(ANSWER_MILLIS)) {
            Some(until) => {
                self.until = until;
                Ok(())
            }
            None => Err(ErrorKind::TimedOut.into()),
        }
    }
}

/// Opens a connection to the first of a member's addresses that takes one in time.
///
/// # Errors
///
/// The last one's.
fn open_stream<R: DialHost>(rt: &R, address: &str) -> io::Result<R::Stream> {
    let mut last = ErrorKind::NotFound.into();
    for found in address.to_socket_addrs(rt)? {
        match TcpStream::connect_timeout(rt, &found, Duration::from_millis(CONNECT_MILLIS)) {
            Ok(stream) => return Ok(stream),
            Err(error) => last = error,
        }
    }
    Err(last)
}

impl<'a, R: DialHost> Dial for MemberDialer<'a, R> {
    type Stream = TcpMember<'a, R>;

    fn dial(&mut self, address: &str) -> io::Result<TcpMember<'a, R>> {
        let stream = open_stream(self.rt, address)?;
        stream.set_nodelay(true)?;
        Ok(TcpMember {
            rt: self.rt,
            stream,
            until: Duration::from_millis(0),
        })
    }

    fn pause(&mut self) {
        thread::sleep(self.rt, Duration::from_millis(PAUSE_MILLIS));
    }
}
