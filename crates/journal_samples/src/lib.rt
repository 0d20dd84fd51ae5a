//! How an operator stood at moments of the past: the entries of a journal are answered again up to each of them, and the
//! verdicts are those that the operator would have been told then, and the replies those that it would have had.
#![tactic(auto)]

mod fault;
mod journals;
pub mod laws;
mod replay;
mod sample;
mod standing;

pub use fault::SampleFault;
pub use journals::count_covered;
pub use replay::OperatorReplay;
pub use sample::RuleSample;
