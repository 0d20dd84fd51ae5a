//! What `import` and `export` do between files and a server: which drafts and reports are sent, what a response says of
//! them, and what is written.
#![tactic(auto)]

mod batch;
mod dialing;
mod draft_limits;
mod end;
mod escape;
mod export;
mod feed;
mod fetching;
mod host;
mod meaning;
mod messages;
mod opening;
mod policies;
mod sending;
mod sources;
mod status;
mod token;
mod transfer;

pub use end::{TransferEnd, TransferTally};
pub use escape::escape_bytes;
pub use host::TransferHost;
pub use meaning::{Meaning, meaning_of};
pub use token::TokenFault;
pub use transfer::run_transfer;
