//! A listener's HTTP connections, served by any service: slots, request bodies, a queue for each
//! client, limits and deadlines.
#![tactic(auto)]

mod accept;
mod admitted_request;
mod body_reader;
mod conn_handle;
mod head_timer;
mod http_service;
mod keepalive;
mod queues;
mod replies;
mod request_future;
mod runtime;
mod server;
mod server_conn;
mod server_context;
mod serving;
mod shutdown;
mod slots;
mod timed_body;
mod timed_io;
mod turn;
mod write_progress;

pub use accept::AcceptOrPause;
pub use queues::Queues;
pub use replies::{busy, close_unless_whole, with_close};
pub use runtime::{ConnectionHost, ConnectionRuntime};
pub use server::{ServeOutcome, bind_first, serve_by, serve_up_to};
pub use server_context::{Crowded, RequestService, ServerContext, SharedService};
pub use serving::{AcceptorParts, serve_all};
pub use shutdown::{ShutdownFuture, ShutdownHandle};
pub use slots::{Admittance, ConnSlot, ConnTable};
pub use turn::{Permits, Turn};
