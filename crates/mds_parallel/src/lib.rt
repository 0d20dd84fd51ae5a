//! Verdicts by several threads, over vehicles in chunks.
#![tactic(auto)]

mod chunked;
mod table;

pub use chunked::{Chunked, ParallelRuntime, by_threads};
