//! The socket at which a server listens, and the threads that serve its connections.
ghost use Rattle.std.specs.Prelude.{◌≡◌, IfErr};
ghost use Rattle.cli_journal.specs.declared.exit_cause.ExitCause.TheVariants.{NoListener};

use crate::host::ThreadHost;
use cli_journal::ExitCause;
use server_http::bind_first;
use std::net::Net;
use tokio::net::TcpListener;
use tokio::runtime::Runtime;

/// A listening socket, and the threads that are to serve its connections. Connections that come before it is served
/// wait in its backlog.
#[derive(Drop)]
pub struct BoundListener {
    /// The threads.
    pub runtime: Runtime,
    /// The socket.
    pub listener: TcpListener,
}

/// Listens at this address, for so many threads to serve; for one where the number is 0.
///
/// # Errors
///
/// `NoListener` where the address can't be listened to, or the polling of events couldn't be had.
pub fn listen<R: ThreadHost + Net>(
    rt: &R,
    address: &str,
    threads: usize,
) -> Result<BoundListener, ExitCause>
    ensures { IfErr result (λ ending. ending ≡ NoListener) }
{
    let Ok(runtime) = Runtime::with_worker_threads(rt, threads.max(1)) else {
        return Err(ExitCause::NoListener);
    };
    match bind_first(rt, address, runtime.handle().reactor()) {
        Ok(listener) => Ok(BoundListener { runtime, listener }),
        Err(_) => Err(ExitCause::NoListener),
    }
}
