//! Serves a listener by any service, until so many connections are over or the server is to end.
ghost use Rattle.std.specs.Prelude.{◌≡◌, IfOk, IfSome};

use crate::accept::AcceptOrPause;
use crate::queues::Queues;
use crate::runtime::ConnectionRuntime;
use crate::server_context::{RequestService, ServerContext, SharedService};
use crate::serving::{AcceptorParts, serve_all};
use crate::shutdown::ShutdownHandle;
use crate::slots::ConnTable;
use futures::StreamExt;
use hyper::rt::TokioTimer;
use hyper::server::conn::http1::Builder;
use std::hash::RandomState;
use std::io;
use std::net::{Net, ToSocketAddrs};
use std::sync::{Arc, Mutex};
use tokio::net::TcpListener;
use tokio::reactor;
use tokio::runtime::Runtime;
use tokio::time::Handle;

/// A listener at the first address of that name that can be bound.
///
/// # Errors
///
/// The name stands for no address, or none of them can be listened to.
pub fn bind_first<N: Net>(
    net: &N,
    address: &str,
    reactor: &reactor::Handle,
) -> io::Result<TcpListener> {
    for address in address.to_socket_addrs(net)? {
        if let Ok(listener) = TcpListener::bind(net, address, reactor) {
            return Ok(listener);
        }
    }
    Err(io::ErrorKind::AddrNotAvailable.into())
}

/// What connections need in addition to their service.
#[derive(Drop)]
struct HttpParts<R> {
    timers: Handle,
    pauses: Handle,
    http: Builder<TokioTimer<R>>,
    acceptor_parts: AcceptorParts,
}

impl<R: ConnectionRuntime> HttpParts<R> {
    fn new(rt: &R, runtime: &Runtime) -> io::Result<HttpParts<R>> {
        let timers = runtime.handle().time().clone()?;
        let pauses = timers.clone()?;
        let timer = TokioTimer::new(*rt, timers.clone()?);
        let mut http = Builder::new(rt.alloc(), RandomState::new(rt)?).timer(timer);
        http.header_read_timeout(None);
        Ok(HttpParts {
            timers,
            pauses,
            http,
            acceptor_parts: AcceptorParts::new(rt.alloc())?,
        })
    }
}

/// A server, before its connections come.
#[derive(Drop)]
struct ServerParts<A, R> {
    http: Builder<TokioTimer<R>>,
    acceptor_parts: AcceptorParts,
    pauses: Handle,
    context: Arc<ServerContext<A, R>>,
    shared: Arc<ServerContext<A, R>>,
}

/// What connections share, for this service and these queues, with no connection yet.
fn open_server<A: Drop, R: ConnectionRuntime>(
    rt: &R,
    runtime: &Runtime,
    answers: A,
    queues: Queues,
) -> io::Result<ServerParts<A, R>>
    ensures { IfOk result (λ parts. parts.context.value.answers ≡ answers) }
{
    let HttpParts {
        timers,
        pauses,
        http,
        acceptor_parts,
    } = HttpParts::new(rt, runtime)?;
    let table = ConnTable::new(rt.alloc(), queues.clients())?;
    let context = Arc::new(
        rt.alloc(),
        ServerContext {
            alloc: rt.alloc(),
            answers,
            queues,
            table: Mutex::new(table),
            clock: *rt,
            timers,
        },
    )?;
    Ok(ServerParts {
        http,
        acceptor_parts,
        pauses,
        shared: Arc::try_clone(&context)?,
        context,
    })
}

/// A server that has ended.
#[derive(Drop)]
pub struct ServeOutcome<A> {
    /// The service by which it was served; none, where something still holds it.
    pub answers: Option<A>,
    /// Whether it ended in order, or waiting for events failed.
    pub outcome: io::Result<()>,
}

/// Serves so many connections of a listener, or all, by this service.
///
/// # Errors
///
/// The server couldn't be started.
pub fn serve_up_to<A, R>(
    rt: &R,
    runtime: &mut Runtime,
    listener: TcpListener,
    answers: A,
    queues: Queues,
    connections: Option<usize>,
) -> io::Result<ServeOutcome<A>>
where
    A: SharedService,
    A::Head: Send,
    A::Reply: Send,
    R: ConnectionRuntime,
    requires ready { A.may_answer }
    ensures served { IfOk result (λ ended. IfSome ended.answers (λ service. service ≡ answers)) }
{
    let ServerParts {
        http,
        acceptor_parts,
        pauses,
        context,
        shared,
    } = open_server(rt, runtime, answers, queues)?;
    let sockets = listener
        .incoming()
        .take(connections.unwrap_or(usize::MAX))
        .filter_map(|accepted| AcceptOrPause::new(accepted, rt, &pauses));
    let outcome = serve_all(rt, runtime, http, sockets, shared, acceptor_parts);
    let answers = Arc::into_inner(context).map(|context| context.answers);
    Ok(ServeOutcome { answers, outcome })
}

/// Serves the connections of a listener by this service until it is to end, and then what has
/// begun, within 10 seconds.
///
/// # Errors
///
/// The server couldn't be started.
pub fn serve_by<A, R>(
    rt: &R,
    runtime: &mut Runtime,
    listener: TcpListener,
    answers: A,
    queues: Queues,
    closing: &ShutdownHandle,
) -> io::Result<ServeOutcome<A>>
where
    A: SharedService,
    A::Head: Send,
    A::Reply: Send,
    R: ConnectionRuntime,
    requires ready { A.may_answer }
    ensures served { IfOk result (λ ended. IfSome ended.answers (λ service. service ≡ answers)) }
{
    let ServerParts {
        http,
        acceptor_parts,
        pauses,
        context,
        shared,
    } = open_server(rt, runtime, answers, queues)?;
    let closed = closing.shutdown_future(Arc::try_clone(&context)?)?;
    let sockets = listener
        .incoming()
        .take_until(closed)
        .filter_map(|accepted| AcceptOrPause::new(accepted, rt, &pauses));
    let outcome = serve_all(rt, runtime, http, sockets, shared, acceptor_parts);
    let answers = Arc::into_inner(context).map(|context| context.answers);
    Ok(ServeOutcome { answers, outcome })
}
