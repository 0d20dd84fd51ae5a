//! Whether an operator's vehicles keep the rules of a policy, and the report on it.
#![tactic(auto)]

mod bounds;
mod evaluator;
mod judge;
pub mod laws;
mod report;
mod tally;
mod verdict;

pub use bounds::{millis, within};
pub use evaluator::{Evaluator, Plain};
pub use report::report_tree;
pub use tally::{VerdictTally, count_device, initial_verdicts, trim_verdicts};
pub use verdict::{MOST_DEVICES, RuleVerdict, Status};
