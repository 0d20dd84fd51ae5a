//! The definitions of running desks and of HTTP tried on worked examples. Each function's contract is an example, or
//! a few of one kind, and each clause is named by what it shows. The functions themselves do nothing.
#![tactic(auto)]

pub mod counts;
pub mod desks;
pub mod early;
pub mod fronts;
pub mod histories;
pub mod http_requests;
pub mod learning;
pub mod limits;
pub mod resolution;
pub mod rooms;
