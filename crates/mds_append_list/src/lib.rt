//! An append-only list, which exists in the proofs alone: what threads share of it is one word, its length.
#![tactic(auto)]

mod list;

pub use list::{ListFront, ListHead, NewList};
pub use logbook::Plain;
