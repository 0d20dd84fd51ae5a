//! The payloads of a journal's records: an accepted request with its client in place of the access token, behind a head
//! that says whose journal it is.
#![tactic(auto)]

mod decoding;
mod encoding;
mod entry;
mod entry_requests;
mod fitting;
mod head;

pub use decoding::{EntryFault, read_entry};
pub use entry::{ENTRY, EntryClient, JournalEntry, MOST_TARGET, WriteFault, entry_text, is_short};
pub use entry_requests::{actor_by, entry_by, reads_the_request, request_by};
pub use fitting::{Unfit, fits};
pub use head::{HeadFault, LAYOUT, OperatorShare, head_text, read_head, shares};
