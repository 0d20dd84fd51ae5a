//! Vehicle reports, and the store of an operator's vehicles: each device's last accepted report,
//! and since when its state lasts.
#![tactic(auto)]

mod book;
mod interner;
pub mod laws;
mod reading;
mod report;

pub use book::{Absent, Book, BookFault, Taken};
pub use report::Report;
