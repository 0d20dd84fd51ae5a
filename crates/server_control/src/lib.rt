//! The control port: whether the server serves, its metrics, and its stop; and responses that are counted as they
//! leave.
#![tactic(auto)]

mod admission;
mod client;
mod connection;
mod control;
mod counters;
mod exposition;
mod families;
mod fleets;
mod hosts;
mod metered;
mod pages;
mod port;
mod replies;
mod request;
mod runtime;
mod serving;

pub use client::stop;
pub use control::{Control, StopServer};
pub use counters::{CallKind, Counters, Figure, StatusClass};
pub use exposition::{Metadata, MetricLine, metrics};
pub use families::Family;
pub use fleets::Fleet;
pub use hosts::Hosts;
pub use metered::{MeteredReply, RequestTimer};
pub use pages::{ControlAnswer, ControlMethod, answer_for};
pub use port::{Port, PortWaker};
pub use request::{ControlHead, ControlReply, control_head_of, reply_due};
pub use runtime::{ControlClientRuntime, ControlRuntime};
pub use serving::serve_control;
