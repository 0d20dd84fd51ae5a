//! Replay of a journal at a start: each entry is answered again, in order, at its own moment.
#![tactic(auto)]

mod fault;
pub mod laws;
mod progress;
mod replay;
mod restart;

pub use fault::{Cause, Fault, StartFault};
pub use progress::{Progress, SilentProgress};
pub use replay::recover;
pub use restart::start_again;
