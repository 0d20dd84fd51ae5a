//! A city's state folder: its lock and files, the head and entries of its journal, a journal as a script, journals in an
//! archive, and which of them tells what stood at a moment.
#![tactic(auto)]

mod archive;
mod archive_files;
mod compaction_files;
mod compactions;
mod cut_files;
mod extraction;
mod fault;
mod files;
mod folder;
mod folders;
mod journal;
mod latest;
mod script;
mod startable;
mod survey;

pub use archive::{
    Archive, ArchiveFault, ArchiveSlot, JournalSpan, archive_journal, archive_name, journal_span,
    slot_of,
};
pub use archive_files::{archive_in, check_archive};
pub use compaction_files::{
    CompactedJournal, RecordedCompactions, archive_compacted, journal_at, open_compactions,
    record_compaction,
};
pub use compactions::{
    ArchivedJournal, Compaction, PastSource, first_text, further_text, read_compactions, source_of,
};
pub use cut_files::CutFiles;
pub use extraction::{Extract, extract_entries, without_operators};
pub use fault::{Damage, FolderFault};
pub use files::{Identity, NameOwner, PathEntry, create_locked, lock_file, owner_of};
pub use folder::{Folder, journal_bytes, open_folder, sync_names};
pub use folders::Folders;
pub use journal::{begin_journal, entries_in, lent_entries_in, suits};
pub use latest::{journal_latest, latest_moment};
pub use script::{push_blanked, request_line};
pub use startable::{startable_entries, startable_texts};
pub use survey::{LentSurvey, Survey, damage_of, lent_survey_of, survey_of};
