//! The control port, served by one thread.
use crate::connection::{ConnProgress, Connection};
use crate::control::{Control, ControlledServer, StopServer};
use crate::counters::Counters;
use crate::port::Port;
use crate::runtime::ControlRuntime;
use std::collections::VecDeque;
use std::io::{self, ErrorKind};
use std::thread;
use std::time::Duration;

/// How many connections may be open. Where one more comes, the oldest is closed.
const MOST_CONNECTIONS: usize = 64;

/// How often deadlines of connections are checked, in milliseconds.
const TICK_MILLIS: u64 = 250;

/// The pause after the system refused to wait, in milliseconds.
const PAUSE_MILLIS: u64 = 20;

/// The open connections, the oldest first.
type Connections = VecDeque<Connection>;

/// What became of the connections that wait to be accepted.
#[derive(Clone, Copy)]
enum AcceptBacklog {
    /// All are accepted.
    Empty,
    /// As many were accepted as may be open, and more may wait.
    Remains,
    /// The system accepts none at the moment.
    Refused,
}

impl AcceptBacklog {
    /// For how long nothing else can be done, with so many open connections; none, until something
    /// comes.
    fn wait_limit(self, open: usize) -> Option<Duration> {
        match self {
            AcceptBacklog::Remains => Some(Duration::ZERO),
            AcceptBacklog::Empty if open == 0 => None,
            AcceptBacklog::Empty | AcceptBacklog::Refused => Some(Duration::from_millis(
                TICK_MILLIS,
            )),
        }
    }
}

/// Answers at a control port until the server has ended. Each connection goes on as its bytes come,
/// whatever the others do: a request has five seconds to come, and five more for its response to be
/// written. Of more than 64 connections the oldest is closed.
pub fn serve_control<R, S>(
    rt: &R,
    port: &mut Port,
    control: &Control,
    counters: &Counters,
    stop: &S,
)
where
    R: ControlRuntime,
    S: StopServer,
{
    let server = ControlledServer {
        control,
        counters,
        stop,
    };
    let mut connections = VecDeque::new(rt.alloc());
    for _ in 0..u64::MAX {
        if control.has_ended() {
            return;
        }
        advance_all(rt, &mut connections, &server);
        let backlog = accept_some(rt, port, &mut connections, &server);
        if port.wait(backlog.wait_limit(connections.len())).is_err() {
            thread::sleep(rt, Duration::from_millis(PAUSE_MILLIS));
        }
    }
}

/// Lets a connection go on, and puts it back unless it is over.
///
/// # Errors
///
/// Out of memory.
fn advance<R, S>(
    rt: &R,
    mut connection: Connection,
    connections: &mut Connections,
    server: &ControlledServer<'_, S>,
) -> io::Result<()>
where
    R: ControlRuntime,
    S: StopServer,
{
    if connection.advance(rt, server)? == ConnProgress::Waits {
        connections.push_back(connection)?;
    }
    Ok(())
}

/// Lets each connection go on. One that fails is closed.
fn advance_all<R, S>(rt: &R, connections: &mut Connections, server: &ControlledServer<'_, S>)
where
    R: ControlRuntime,
    S: StopServer,
{
    for _ in 0..connections.len() {
        if let Some(connection) = connections.pop_front() {
            let _ = advance(rt, connection, connections, server);
        }
    }
}

/// Accepts connections that wait, no more than may be open, and lets each go on.
fn accept_some<R, S>(
    rt: &R,
    port: &Port,
    connections: &mut Connections,
    server: &ControlledServer<'_, S>,
) -> AcceptBacklog
where
    R: ControlRuntime,
    S: StopServer,
{
    for _ in 0..MOST_CONNECTIONS {
        let (stream, hosts) = match port.accept(rt.alloc()) {
            Ok(accepted) => accepted,
            Err(error) if error.kind() == ErrorKind::WouldBlock => return AcceptBacklog::Empty,
            Err(_) => return AcceptBacklog::Refused,
        };
        if connections.len() >= MOST_CONNECTIONS {
            connections.pop_front();
        }
        if let Ok(connection) = Connection::new(rt, stream, hosts) {
            let _ = advance(rt, connection, connections, server);
        }
    }
    AcceptBacklog::Remains
}
