//! Group commit: a reservation in the log before a request, one thread that writes and syncs for all, and
//! responses that wait until what they show is synced.
#![tactic(auto)]

mod backlog;
mod ballast;
mod client_shares;
mod commit_log;
mod decisions;
mod failure;
mod flusher;
mod history;
pub mod laws;
mod own_records;
mod reserved_space;
mod rounds;
mod space;
mod sync_wait;

pub use backlog::{Reservation, Reservations, ReserveFault};
pub use ballast::Ballast;
pub use commit_log::{CommitFault, CommitLog, open};
pub use decisions::{
    Confirmation, LEAST_BYTES, MOST_BYTES, MOST_BYTES_OF_ONE, MOST_CLIENTS, MOST_TEXTS,
    MOST_TEXTS_OF_ONE, ResponseTiming, Round, Usage, confirmed_after, is_confirmed, may_reserve,
    may_respond, next_round,
};
pub use failure::LogFailure;
pub use flusher::{FlushFault, Flusher, SyncedLog};
pub use history::{
    CommitLedger, LogName, LogPosition, SharedLogName, SyncedPrefix, UnnamedHistory,
};
pub use own_records::OwnRecords;
pub use space::{CountedSpace, NoRoom, Space};
pub use sync_wait::AwaitSync;
