//! Compaction of a city's journal: a shorter one that leads to the same server, written next to it, compared and put in
//! its place.
#![tactic(auto)]

mod choosing;
mod compacting;
mod compaction;
mod comparing;
mod fault;
mod folder;
mod journal_location;
mod kind;
pub mod laws;
mod prefix;
mod questions;
mod replies;
mod writing;

pub use compacting::compact_entries;
pub use compaction::{Counts, SourceJournal, compact};
pub use fault::CompactFault;
pub use folder::{compact_folder, record_compacted};
pub use journal_location::{JournalLocation, compact_at};
pub use prefix::{
    AnswersAgree, ConfigName, JournalPrefix, SharedConfigName, check_empty, compact_prefix,
};
