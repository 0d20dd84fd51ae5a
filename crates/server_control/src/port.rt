//! Where a control port listens.
ghost use Rattle.server_control.specs.PortAddress.{PlaceOf};

use crate::hosts::Hosts;
use crate::runtime::SocketRuntime;
use libc::net::listen;
use mio::unix::SourceFd;
use mio::{Events, Interest, Poll, Token, Waker};
use std::alloc::{AllocError, AllocGlobal, Global};
use std::fs::{self, Files, Permissions};
use std::io::{self, ErrorKind, Read, Write};
use std::net::{IpAddr, Net, SocketAddr, TcpListener, TcpStream};
use std::os::fd::{AsFd, AsRawFd, RawFd};
use std::os::unix::fs::{FileTypeExt, PermissionsExt};
use std::os::unix::net::{SocketAddr as UnixAddr, UnixListener, UnixStream};
use std::time::Duration;

/// The prefix of a Unix socket's address, before its path.
const UNIX: &str = "unix:";

/// The mode of a Unix socket: its owner alone may connect.
const OWNER_ONLY: u32 = 0o600;

/// How many connections to a Unix socket may wait to be accepted.
const BACKLOG: i32 = 128;

/// How many events are read at once.
const EVENTS: usize = 64;

/// All sources have one token: whichever is ready, each is tried.
const ANY: Token = Token(0);

/// Where to listen, or to connect.
#[derive(Clone, Copy)]
pub(crate) enum PortAddress<'a> {
    /// An address and a port of TCP.
    Tcp(&'a str),
    /// The path of a Unix socket.
    Unix(&'a str),
}

/// The endpoint of an address: `unix:` stands before the path of a Unix socket.
pub(crate) fn port_address_of(address: &str) -> PortAddress<'_>
    ensures { PlaceOf address.now result }
{
    match address.strip_prefix(UNIX) {
        Some(path) => PortAddress::Unix(path),
        None => PortAddress::Tcp(address),
    }
}

/// The listening socket.
#[derive(Drop)]
enum Listener {
    Tcp(TcpListener),
    Unix(UnixListener),
}

/// A connection that was accepted.
#[derive(Drop)]
pub(crate) enum Stream {
    Tcp(TcpStream),
    Unix(UnixStream),
}

impl Read for Stream {
    fn read(&mut self, buf: &mut [u8]) -> io::Result<usize> {
        match self {
            Stream::Tcp(stream) => stream.read(buf),
            Stream::Unix(stream) => stream.read(buf),
        }
    }
}

impl Write for Stream {
    fn write(&mut self, buf: &[u8]) -> io::Result<usize> {
        match self {
            Stream::Tcp(stream) => stream.write(buf),
            Stream::Unix(stream) => stream.write(buf),
        }
    }

    fn flush(&mut self) -> io::Result<()> {
        Ok(())
    }
}

/// A control port that listens.
#[derive(Drop)]
pub struct Port {
    listener: Listener,
    /// One more host name of it.
    name: Option<String>,
    poll: Poll,
    events: Events,
}

/// Wakes a control port that waits for requests, from another thread.
#[derive(Drop)]
pub struct PortWaker {
    waker: Waker,
}

impl PortWaker {
    /// The port checks whether the server has ended.
    pub(crate) fn wake(&self) {
        let _ = self.waker.wake();
    }
}

/// Listens at a path that no file has. Nobody can connect before the socket is its owner's alone.
///
/// # Errors
///
/// The path is too long or can't be bound, as there is a file.
fn listen_at<R: SocketRuntime>(rt: &R, path: &str) -> io::Result<UnixListener> {
    let socket = rt.unix_socket()?;
    rt.bind_unix(socket.as_fd(), &UnixAddr::from_pathname(path)?)?;
    fs::set_permissions(rt, path, Permissions::from_mode(OWNER_ONLY))?;
    if listen(socket.as_raw_fd(), BACKLOG) != 0 {
        return Err(ErrorKind::AddrInUse.into());
    }
    Ok(UnixListener::from(socket))
}

/// Whether a path is that of a socket at which nobody listens any more.
fn is_abandoned<R: SocketRuntime>(rt: &R, path: &str) -> bool {
    let is_socket = match fs::symlink_metadata(rt, path) {
        Ok(found) => found.file_type().is_socket(),
        Err(_) => false,
    };
    is_socket
        && match UnixStream::connect(rt, path) {
            Ok(_) => false,
            Err(error) => error.kind() == ErrorKind::ConnectionRefused,
        }
}

/// Listens at the path of a Unix socket, in the place of one that was left behind.
///
/// # Errors
///
/// The path can't be bound, as somebody listens there, or another file has it.
fn bind_unix<R: SocketRuntime>(rt: &R, path: &str) -> io::Result<UnixListener> {
    if is_abandoned(rt, path) {
        fs::remove_file(rt, path)?;
    }
    listen_at(rt, path)
}

/// An address as it stands in a URI (RFC 3986, section 3.2.2).
fn host_text(alloc: Global, address: IpAddr) -> Result<String, AllocError> {
    match address.to_canonical() {
        IpAddr::V4(address) => format!(in alloc; "{address}"),
        IpAddr::V6(address) => format!(in alloc; "[{address}]"),
    }
}

/// Registers this descriptor with the poll, to be read or written.
fn watch(poll: &Poll, descriptor: RawFd) -> io::Result<()> {
    let ready = Interest::READABLE | Interest::WRITABLE;
    poll.registry()
        .register(&mut SourceFd(&descriptor), ANY, ready)
}

impl Port {
    /// Listens at an address, as `127.0.0.1:9090`, or at a Unix socket, as
    /// `unix:/run/city/control`, with one more host name where one is given. A Unix socket is its
    /// owner's alone, and takes the place of one at which nobody listens.
    ///
    /// # Errors
    ///
    /// Nothing can be listened to there, or memory ran out.
    pub fn bind<R>(rt: &R, address: &str, name: Option<&str>) -> io::Result<Port>
    where
        R: Net<Listener = TcpListener, Stream = TcpStream> + Files + AllocGlobal,
    {
        let alloc = rt.alloc();
        let poll = Poll::new(rt)?;
        let listener = match port_address_of(address) {
            PortAddress::Tcp(address) => {
                let listener = TcpListener::bind(rt, address)?;
                listener.set_nonblocking(true)?;
                watch(&poll, listener.as_raw_fd())?;
                Listener::Tcp(listener)
            }
            PortAddress::Unix(path) => {
                let listener = bind_unix(rt, path)?;
                listener.set_nonblocking(true)?;
                watch(&poll, listener.as_raw_fd())?;
                Listener::Unix(listener)
            }
        };
        let name = match name {
            Some(name) => Some(String::from_str(alloc, name)?),
            None => None,
        };
        let events = Events::with_capacity(alloc, EVENTS)?;
        Ok(Port {
            listener,
            name,
            poll,
            events,
        })
    }

    /// What wakes it.
    ///
    /// # Errors
    ///
    /// The system gives no more descriptors.
    pub fn waker(&self) -> io::Result<PortWaker> {
        let waker = Waker::new(self.poll.registry(), ANY)?;
        Ok(PortWaker { waker })
    }

    /// Where it listens.
    ///
    /// # Errors
    ///
    /// `Unsupported` at a Unix socket, or the system's.
    pub fn local_addr(&self) -> io::Result<SocketAddr> {
        match &self.listener {
            Listener::Tcp(listener) => listener.local_addr(),
            Listener::Unix(_) => Err(ErrorKind::Unsupported.into()),
        }
    }

    /// The hosts that the request of a connection to this address may name.
    fn hosts(&self, alloc: Global, reached: SocketAddr) -> io::Result<Hosts> {
        let listening = host_text(alloc, self.local_addr()?.ip())?;
        let name = self.name.as_deref();
        let text = host_text(alloc, reached.ip())?;
        Ok(Hosts::new(alloc, &listening, &text, reached.port(), name)?)
    }

    /// The next connection, with the hosts that its request may name. Its calls don't block.
    ///
    /// # Errors
    ///
    /// `WouldBlock` where none waits, the system's, or memory ran out.
    pub(crate) fn accept(&self, alloc: Global) -> io::Result<(Stream, Hosts)> {
        match &self.listener {
            Listener::Tcp(listener) => {
                let (stream, _) = listener.accept()?;
                stream.set_nonblocking(true)?;
                watch(&self.poll, stream.as_raw_fd())?;
                let hosts = self.hosts(alloc, stream.local_addr()?)?;
                Ok((Stream::Tcp(stream), hosts))
            }
            Listener::Unix(listener) => {
                let (stream, _) = listener.accept()?;
                stream.set_nonblocking(true)?;
                watch(&self.poll, stream.as_raw_fd())?;
                Ok((Stream::Unix(stream), Hosts::Any))
            }
        }
    }

    /// Waits until a connection comes, one can be read or written, or it is woken, and no longer
    /// than the limit, where there is one.
    ///
    /// # Errors
    ///
    /// The system's.
    pub(crate) fn wait(&mut self, limit: Option<Duration>) -> io::Result<()> {
        self.poll.poll(&mut self.events, limit)
    }
}
