//! Serves a hall over a listener, and ends it.

use crate::hall_service::HallService;
use mds_parallel::Chunked;
use server_admission::Moments;
use server_http::{ConnectionRuntime, Queues, ServeOutcome, serve_up_to};
use server_state::SharedHallName;
use std::io;
use tokio::net::TcpListener;
use tokio::runtime::Runtime;

/// Serves so many connections of a listener, or all, by this service, and ends its hall.
///
/// # Errors
///
/// The server couldn't be started, or waiting for events failed.
pub fn serve<K, R, M>(
    rt: &R,
    runtime: &mut Runtime,
    listener: TcpListener,
    reception: HallService<K, R, Chunked<R>, M>,
    queues: Queues,
    connections: Option<usize>,
) -> io::Result<()>
where
    K: SharedHallName,
    R: ConnectionRuntime,
    M: Moments + Send + Sync,
{
    let ended = serve_up_to(rt, runtime, listener, reception, queues, connections);
    let ServeOutcome { answers, outcome } = ended?;
    if let Some(reception) = answers {
        reception.hall.finish(rt);
    }
    outcome
}
