//! What is wrong with a text that is no configuration, and where: the member, and the operator's place. No access token
//! is reported.
#![tactic(auto)]

mod alike;
mod detail;
mod judge;
mod operators;
mod stop;
mod wrong;

pub use detail::Detail;
pub use judge::diagnose;
pub use wrong::{Key, OperatorFlaw, Wrong};
