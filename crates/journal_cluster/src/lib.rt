//! The engine of a journal in etcd: what the journal's storage sends to its register, in the messages of etcd's JSON
//! gateway, posted to the cluster's members.
#![tactic(auto)]

mod answer;
mod engine;
mod fault;

pub use answer::answer_by;
pub use engine::{ClusterEngine, MOST_CHUNKS};
pub use fault::ClusterFault;
