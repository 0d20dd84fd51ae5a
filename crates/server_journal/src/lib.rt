//! The journal of a city that is served: opened, replayed to the state that is served, compacted in the background, and
//! swapped.
#![tactic(auto)]

mod compactor;
mod fault;
mod file_swap;
mod host;
mod progress;
mod reporting_space;
mod starting;
mod thread_job;

pub use compactor::Compactor;
pub use fault::JournalFault;
pub use file_swap::{FileJournal, JournalHandoff, JournalSwapper};
pub use host::{CompactorHost, JournalHost, ReplayHost, ReportingHost};
pub use reporting_space::ReportingSpace;
pub use starting::{dropped_ids, resume};
pub use thread_job::{ThreadJob, run_concurrently};
