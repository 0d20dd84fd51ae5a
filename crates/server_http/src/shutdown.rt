//! Graceful shutdown: what has begun is answered, within a deadline.
ghost use Rattle.futures.specs.Task.{Keeps};

use crate::server_conn::ServerConn;
use crate::server_context::ServerContext;
use futures::Future;
use futures::task::{Context, Poll};
use std::alloc::{AllocError, Global};
use std::sync::atomic::AtomicU64;
use std::sync::{Arc, Wait};
use tokio::sync::{Notify, OwnedNotified};
use tokio::time::Sleep;

/// How long a connection may stay once its server shuts down, in seconds.
const CLOSING_SECONDS: u64 = 10;

/// Shuts a server down, from any thread, and says how many connections it has.
#[derive(Drop)]
pub struct ShutdownHandle {
    notify: Arc<Notify>,
    connections: Arc<AtomicU64>,
}

/// Ends once the server is to shut down. The table of its connections is closed then, and each
/// connection has been notified.
#[derive(Drop)]
pub struct ShutdownFuture<A, C> {
    notified: OwnedNotified,
    context: Arc<ServerContext<A, C>>,
}

/// The grace period of a connection, once its server shuts down.
#[derive(Drop)]
pub struct GracePeriod {
    last: OwnedNotified,
    limit: Option<Sleep>,
}

impl ShutdownHandle {
    /// A handle for a server that isn't to shut down yet.
    ///
    /// # Errors
    ///
    /// Out of memory.
    pub fn new(alloc: Global) -> Result<ShutdownHandle, AllocError> {
        Ok(ShutdownHandle {
            notify: Arc::new(alloc, Notify::new(alloc)?)?,
            connections: Arc::new(alloc, AtomicU64::new(0))?,
        })
    }

    /// A reference to the number of open connections: 0 until the server is served.
    ///
    /// # Errors
    ///
    /// There are too many references.
    pub fn connections(&self) -> Result<Arc<AtomicU64>, AllocError> {
        Arc::try_clone(&self.connections)
    }

    /// Shuts the server down: it accepts nothing more, connections that wait for a head are closed,
    /// and what has begun is answered, within 10 seconds. A server that isn't served yet ends as
    /// soon as it is.
    pub fn close(&self) {
        self.notify.notify_one();
    }

    /// The future that closes this table of connections, once the server is to shut down. Its
    /// connections are counted from now on.
    ///
    /// # Errors
    ///
    /// There are too many references.
    pub fn shutdown_future<A: Drop, C: Wait + Drop>(
        &self,
        context: Arc<ServerContext<A, C>>,
    ) -> Result<ShutdownFuture<A, C>, AllocError> {
        let connections = self.connections()?;
        context.table.lock(&context.clock).count_at(connections);
        Ok(ShutdownFuture {
            notified: Notify::notified_owned(Arc::try_clone(&self.notify)?),
            context,
        })
    }
}

impl<A: Drop, C: Wait + Drop> Future for ShutdownFuture<A, C> {
    type Output = ();

    fn poll(&mut self, cx: &mut Context<'_>) -> Poll<()> {
        if self.notified.poll(cx).is_pending() {
            return Poll::Pending;
        }
        let mut table = self.context.table.lock(&self.context.clock);
        table.close();
        table.notify_shutdown();
        Poll::Ready(())
    }
}

impl GracePeriod {
    /// The grace period of a connection whose server isn't shutting down.
    pub fn new(last: OwnedNotified) -> GracePeriod {
        GracePeriod { last, limit: None }
    }

    /// Whether the server shuts down, and the connection's grace period is over.
    pub fn is_over<P: ServerConn>(&mut self, conn: &P, cx: &mut Context<'_>) -> bool
        ensures { Keeps cx.old cx.new }
    {
        if self.limit.is_none() {
            if self.last.poll(cx).is_pending() {
                return false;
            }
            self.limit = conn.sleep(CLOSING_SECONDS);
        }
        match &mut self.limit {
            Some(limit) => limit.poll(cx).is_ready(),
            None => true,
        }
    }
}
