//! The journal's file format: records with chained checksums, read up to the first place where no whole record stands.
#![tactic(auto)]

mod ending;
mod file_storage;
mod group;
mod journal;
pub mod laws;
mod log;
mod log_end;
mod marks;
mod memory_storage;
mod numbers;
mod reading;
mod record;
mod signature;
mod storage;
mod sum;
mod tail_store;

pub use ending::{CutTail, JournalEnding, ending_of};
pub use file_storage::FileStorage;
pub use group::{Group, are_taken, group_of, is_plain};
pub use journal::{Journal, JournalOpenFault};
pub use log::{AppendFault, Log, ReadFault, SyncFault};
pub use log_end::{HasLogEnd, LogEnd, texts_between};
pub use marks::{MARK, push_mark};
pub use memory_storage::MemoryStorage;
pub use reading::{Record, RecordScan, read};
pub use record::{HEAD, MOST_TEXT, fits, push};
pub use signature::Signature;
pub use storage::{Storage, StorageFault, storage_fault};
pub use sum::sum_over;
pub use tail_store::{MemoryTailStore, TailStore};
