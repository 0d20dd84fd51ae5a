//! The published policies and geographies, which policies are withdrawn, and which are in force (MDS 2.0 Policy,
//! publication and immutability).
#![tactic(auto)]

mod batch;
mod catalogue;
mod distinct;
mod document_index;
mod in_force;
pub mod laws;
mod lists;
mod places;
mod policy_index;
mod print;
mod published;
mod sharing;

pub use batch::Batch;
pub use catalogue::{Catalogue, MOST_GEOGRAPHIES, MOST_POLICIES, MOST_PUBLICATIONS};
pub use distinct::are_distinct;
pub use in_force::is_meant_for;
pub use published::Published;
