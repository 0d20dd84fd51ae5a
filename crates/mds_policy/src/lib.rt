//! Policies and their rules, as MDS 2.0 Policy describes them.
#![tactic(auto)]

mod bounds;
mod dated_tree;
mod fault;
mod kind;
mod lists;
mod policy;
mod reading;
mod rule;
mod states;
mod window;

pub use fault::PolicyFault;
pub use policy::Policy;
pub use rule::{Bounds, Kind, Rule, StateEvents, TimeUnit, Window};
