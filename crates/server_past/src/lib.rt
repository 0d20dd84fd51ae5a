//! The past of operators' fleets: what an operator's own desk would have answered it at a moment, worked out from a
//! journal that tells of that moment, and the responses to questions about it.
#![tactic(auto)]

mod answer;
mod journals;
pub mod laws;
mod past_fleets;
mod replies;
mod subject;

pub use journals::{PastFault, PastJournals};
pub use past_fleets::PastFleets;
