//! The state machine as a program: it answers requests, and holds each operator's vehicles, the
//! drafts and the published catalogue.
#![tactic(auto)]

mod author;
mod bodies;
mod call_fault;
mod compliance;
mod operator;
mod published;
mod texts;
mod world;

pub use author::{AuthorAct, author_step};
pub use operator::{OperatorContext, indexed_operator_step, operator_step};
pub use world::World;
