//! Answers for people, outside the protocol: who the client is, which policies are withdrawn, which drafts are held, how
//! each operator stands.
#![tactic(auto)]

mod bodies;
mod compliance_list;
mod draft_list;
mod identity;
pub mod laws;
mod operator_names;
mod oversight;
mod withdrawal;

pub use compliance_list::{begin_compliance_list, push_compliance};
pub use draft_list::list_drafts;
pub use identity::whoami;
pub use operator_names::{MOST_NAME, OperatorName, OperatorNames};
pub use oversight::Oversight;
pub use withdrawal::withdrawals;
