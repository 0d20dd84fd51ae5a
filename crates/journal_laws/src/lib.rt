//! What a journal of accepted requests persists, which of its records compaction may drop, and the laws of the server
//! that replays it.
#![tactic(auto)]

mod compaction;
pub mod laws;
mod persistence;

pub use compaction::{KeptReports, reports_to_keep};
pub use persistence::{is_persisted, may_change, persists};
