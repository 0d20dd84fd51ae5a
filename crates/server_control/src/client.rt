//! The client of a control port, which stops a server.
ghost use Rattle.std.specs.Prelude.{◌≡◌, IfOk, string_bytes};
ghost use Rattle.server_control.specs.PortAddress.{stop_request};

use crate::port::{PortAddress, port_address_of};
use crate::runtime::ControlClientRuntime;
use std::alloc::{AllocError, Global};
use std::io::{self, Read, Write};
use std::net::{OpenStream, TcpStream};
use std::os::unix::net::UnixStream;
use std::time::Duration;

/// The start of the response of a server that stops.
const ACCEPTED: &[u8] = b"HTTP/1.1 202";

/// Within how many seconds the server has to answer that it stops.
const ANSWER_SECONDS: u64 = 5;

/// The request to stop, to a server with this host name.
fn stop_request(alloc: Global, host: &str) -> Result<String, AllocError>
    ensures { IfOk result (λ text. string_bytes text ≡ stop_request host.now) }
{
    format!(in alloc;
        "POST /stop HTTP/1.1\r\nhost: {host}\r\ncontent-length: 0\r\nconnection: close\r\n\r\n"
    )
}

/// Whether the response over a connection is that of a server that stops.
///
/// # Errors
///
/// The connection's, or it ends before a response came.
fn is_accepted<C: Read>(stream: &mut C) -> io::Result<bool> {
    let mut answer = [0u8; 12];
    stream.read_exact(&mut answer)?;
    Ok(answer.as_slice() == ACCEPTED)
}

/// Asks the server whose control port is at this address to stop, and returns whether it does. Its
/// host is the address that was reached, and `localhost` at a Unix socket.
///
/// # Errors
///
/// Nothing listens there, no answer comes in five seconds, or memory ran out.
pub fn stop<R: ControlClientRuntime>(rt: &R, address: &str) -> io::Result<bool> {
    let limit = Some(Duration::from_secs(ANSWER_SECONDS));
    match port_address_of(address) {
        PortAddress::Tcp(address) => {
            let mut stream = TcpStream::connect(rt, address)?;
            stream.set_read_timeout(limit)?;
            let host = format!(in rt.alloc(); "{}", stream.peer_addr()?)?;
            stream.write_all(stop_request(rt.alloc(), &host)?.as_bytes())?;
            is_accepted(&mut stream)
        }
        PortAddress::Unix(path) => {
            let mut stream = UnixStream::connect(rt, path)?;
            stream.set_read_timeout(limit)?;
            stream.write_all(stop_request(rt.alloc(), "localhost")?.as_bytes())?;
            is_accepted(&mut stream)
        }
    }
}
