//! Connections as tasks.
ghost use Rattle.std.specs.Prelude.{IfSome, ⊤};
ghost use Rattle.futures.specs.declared.future.either.Either.TheVariants.{Left, Right};

use crate::conn_handle::ConnHandle;
use crate::http_service::HttpService;
use crate::keepalive::{ReactorKeepalive, ReactorNudge, keepalive_pair};
use crate::runtime::ConnectionRuntime;
use crate::server_conn::ServerConn;
use crate::server_context::{ServerContext, SharedService};
use crate::shutdown::GracePeriod;
use crate::slots::ConnSlot;
use crate::timed_io::TimedIo;
use bytes::Bytes;
use futures::future::Either;
use futures::task::{Context, Poll};
use futures::{Future, Stream};
use http_body_util::Full;
use hyper::rt::{Timer, TokioTimer};
use hyper::server::conn::http1::{Builder, Connection};
use std::alloc::{AllocError, Global};
use std::io;
use std::sync::Arc;
use tokio::io::{AsyncRead, AsyncWrite};
use tokio::net::TcpStream;
use tokio::runtime::Runtime;
use tokio::sync::OwnedNotified;

/// What the accept loop owns, and the reactor's keep-alive task.
#[derive(Drop)]
pub struct AcceptorParts {
    slot: Arc<ConnSlot>,
    nudge: Arc<ReactorNudge>,
    keepalive: ReactorKeepalive,
}

impl AcceptorParts {
    /// The same, of no connection.
    ///
    /// # Errors
    ///
    /// Out of memory.
    pub fn new(alloc: Global) -> Result<AcceptorParts, AllocError> {
        let (nudge, keepalive) = keepalive_pair(alloc)?;
        let nudge = Arc::new(alloc, nudge)?;
        let slot = Arc::new(alloc, ConnSlot::new(alloc)?)?;
        Ok(AcceptorParts {
            slot,
            nudge,
            keepalive,
        })
    }
}

/// A new connection: its socket with deadlines, its HTTP service, the future that ends when the
/// server shuts down, and the handle that gives its slot back.
#[derive(Drop)]
struct NewConn<I, P> {
    io: TimedIo<I, P>,
    service: HttpService<P>,
    last: OwnedNotified,
    conn: P,
}

/// A new connection; none, where there is no slot for it.
fn new_conn<I: Drop, P: ServerConn>(io: I, acceptor: &P) -> Option<NewConn<I, P>> {
    let conn = acceptor.open_conn()?;
    match conn_parts(io, &conn) {
        Ok((io, service, last)) => Some(NewConn {
            io,
            service,
            last,
            conn,
        }),
        Err(_) => {
            conn.release();
            None
        }
    }
}

/// A socket with deadlines, its HTTP service, and the future that ends when the server shuts down.
fn conn_parts<I: Drop, P: ServerConn>(
    io: I,
    conn: &P,
) -> Result<(TimedIo<I, P>, HttpService<P>, OwnedNotified), AllocError> {
    let service = HttpService {
        conn: conn.clone_handle()?,
    };
    let last = conn.shutdown_notice()?;
    Ok((TimedIo::new(io, conn.clone_handle()?)?, service, last))
}

/// A connection's future, which gives its slot back at the end.
#[derive(Drop)]
struct ConnTask<F, P> {
    future: F,
    ending: GracePeriod,
    conn: P,
}

impl<F: Future<Output: Drop>, P: ServerConn> Future for ConnTask<F, P> {
    type Output = ();

    ghost can_poll = { λ seated. F.can_poll seated.future };

    fn poll(&mut self, cx: &mut Context<'_>) -> Poll<()> {
        if self.future.poll(cx).is_pending() && !self.ending.is_over(&self.conn, cx) {
            return Poll::Pending;
        }
        self.conn.release();
        Poll::Ready(())
    }
}

/// Makes the tasks of connections.
trait ConnFactory<I>: Drop {
    type Task: Future<Output = ()>;

    /// Holds of a factory that may make the task of any connection.
    ghost can_seat: { Self → Type 0 } = { λ _. ⊤ };

    /// The task of a connection; none, where as many are served as may be.
    fn task_for(&self, io: I) -> Option<Self::Task>
        requires { can_seat self.now }
        ensures { IfSome result Self.Task.can_poll };

    /// Ends a connection whose task can't be run.
    fn end(task: Self::Task);
}

/// What each connection of a server is made with: the HTTP settings, and the acceptor's handle.
#[derive(Drop)]
struct HttpConnFactory<P, T> {
    http: Builder<T>,
    acceptor: P,
}

impl<I, P, T> ConnFactory<I> for HttpConnFactory<P, T>
where
    I: AsyncRead + AsyncWrite,
    P: ServerConn,
    T: Timer,
{
    type Task = ConnTask<Connection<TimedIo<I, P>, HttpService<P>, Full<Bytes>, T>, P>;

    ghost can_seat = { λ _. P.may_answer };

    fn task_for(&self, io: I) -> Option<Self::Task> {
        let NewConn {
            io,
            service,
            last,
            conn,
        } = new_conn(io, &self.acceptor)?;
        Some(ConnTask {
            future: self.http.serve_connection(io, service),
            ending: GracePeriod::new(last),
            conn,
        })
    }

    fn end(task: Self::Task) {
        task.conn.release();
    }
}

/// A task on the heap: what runs tasks moves each one out of its place for a poll, and back.
#[derive(Drop)]
struct BoxedTask<F> {
    task: Box<F>,
}

impl<F: Future<Output = ()>> Future for BoxedTask<F> {
    type Output = ();

    ghost can_poll = { λ boxed. F.can_poll boxed.task.value };

    fn poll(&mut self, cx: &mut Context<'_>) -> Poll<()> {
        self.task.poll(cx)
    }
}

/// The tasks of a server: the reactor's keep-alive task, then each connection that gets a slot.
#[derive(Drop)]
struct ServerTasks<S, H> {
    keepalive: Option<ReactorKeepalive>,
    sockets: S,
    host: H,
    alloc: Global,
}

impl<S: Stream, H: ConnFactory<S::Item>> ServerTasks<S, H> {
    /// The task of a connection, on the heap; none, where as many are served as may be, or memory is refused.
    fn task_for(&self, io: S::Item) -> Option<BoxedTask<H::Task>>
        requires { H.can_seat self.now.host }
        ensures { IfSome result (λ boxed. H.Task.can_poll boxed.task.value) }
    {
        match Box::new(self.alloc, self.host.task_for(io)?) {
            Ok(task) => Some(BoxedTask { task }),
            Err(refused) => {
                H::end(refused.value);
                None
            }
        }
    }
}

impl<S: Stream, H: ConnFactory<S::Item>> Stream for ServerTasks<S, H> {
    type Item = Either<BoxedTask<H::Task>, ReactorKeepalive>;

    ghost can_poll = { λ tasks. S.can_poll tasks.sockets × H.can_seat tasks.host };

    ghost yields = { λ _ _ last. IfSome last
        (elim [ Left boxed ↦ H.Task.can_poll boxed.task.value | Right _ ↦ ⊤ ]) };

    fn poll_next(&mut self, cx: &mut Context<'_>) -> Poll<Option<Self::Item>> {
        if let Some(keepalive) = self.keepalive.take() {
            return Poll::Ready(Some(Either::Right(keepalive)));
        }
        match self.sockets.poll_next(cx) {
            Poll::Ready(Some(io)) => match self.task_for(io) {
                Some(task) => Poll::Ready(Some(Either::Left(task))),
                None => cx.yield_now(),
            },
            Poll::Ready(None) => Poll::Ready(None),
            Poll::Pending => Poll::Pending,
        }
    }
}

/// Runs all tasks of a server to their end.
fn run_tasks<R, S, H>(rt: &R, runtime: &mut Runtime, tasks: ServerTasks<S, H>) -> io::Result<()>
where
    R: ConnectionRuntime,
    S: Stream,
    H: ConnFactory<S::Item>,
    H::Task: Send,
    requires sockets { S.can_poll tasks.sockets }
    requires seats { H.can_seat tasks.host }
{
    runtime.run_all(rt, tasks)
}

/// Serves each connection in a task of its own, until no more come.
pub fn serve_all<R, S, A>(
    rt: &R,
    runtime: &mut Runtime,
    http: Builder<TokioTimer<R>>,
    sockets: S,
    context: Arc<ServerContext<A, R>>,
    acceptor_parts: AcceptorParts,
) -> io::Result<()>
where
    R: ConnectionRuntime,
    S: Stream<Item = TcpStream>,
    A: SharedService,
    A::Head: Send,
    A::Reply: Send,
    requires sockets { S.can_poll sockets }
    requires ready { A.may_answer }
{
    let AcceptorParts {
        slot,
        nudge,
        keepalive,
    } = acceptor_parts;
    let acceptor = ConnHandle::acceptor(context, slot, nudge);
    serve_with(rt, runtime, http, sockets, acceptor, keepalive)
}

/// The same, by an acceptor's handle.
fn serve_with<R, S, I, P, T>(
    rt: &R,
    runtime: &mut Runtime,
    http: Builder<T>,
    sockets: S,
    acceptor: P,
    keepalive: ReactorKeepalive,
) -> io::Result<()>
where
    R: ConnectionRuntime,
    S: Stream<Item = I>,
    I: AsyncRead + AsyncWrite + Send,
    P: ServerConn + Send,
    P::Head: Send,
    P::Reply: Send,
    T: Timer + Send,
    requires sockets { S.can_poll sockets }
    requires ready { P.may_answer }
{
    let tasks = ServerTasks {
        keepalive: Some(keepalive),
        sockets,
        host: HttpConnFactory { http, acceptor },
        alloc: rt.alloc(),
    };
    run_tasks(rt, runtime, tasks)
}
