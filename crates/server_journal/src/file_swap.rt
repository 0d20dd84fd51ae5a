//! Swaps the journal's file of a served city for compacted ones.

use journal_compaction::{AnswersAgree, ConfigName};
use journal_file::{FileStorage, Journal, LogEnd};
use journal_folder::{FolderFault, Folders};
use journal_swap::{CompactedLog, CompactionSource, Handoff, ReplaceFault};
use server_control::{Counters, Figure};
use std::alloc::Global;
use std::fs::File;
use std::sync::{Arc, Wait};

/// A journal in a file.
pub type FileJournal = Journal<FileStorage<File>>;

/// Where the flusher and the compaction hand over what is compacted by the configuration of a name.
pub type JournalHandoff<C> = Handoff<FileJournal, AnswersAgree<C>>;

/// Swaps the journal's file in a city's folder: takes compacted journals from the compaction, and renames them over the
/// journal. It also counts the journal's bytes and syncs.
#[derive(Drop)]
pub struct JournalSwapper<R, C: ConfigName> {
    rt: R,
    meeting: Arc<JournalHandoff<C>>,
    counters: Arc<Counters>,
    /// The folder, which is synced after a file in it is renamed.
    folder: File,
    /// The path of the journal.
    journal: String,
    /// The path of the compacted journal.
    thinned: String,
}

impl<R: Folders + Drop, C: ConfigName> JournalSwapper<R, C> {
    /// Swaps the file of this folder's journal.
    ///
    /// # Errors
    ///
    /// `Unusable` where the folder can't be opened, `NoMemory`.
    pub fn new(
        rt: R,
        alloc: Global,
        folder: &str,
        meeting: Arc<JournalHandoff<C>>,
        counters: Arc<Counters>,
    ) -> Result<JournalSwapper<R, C>, FolderFault> {
        let journal = format!(in alloc; "{folder}/journal")?;
        let thinned = format!(in alloc; "{folder}/journal.thinned")?;
        let Ok(folder) = rt.open(folder) else {
            return Err(FolderFault::Unusable);
        };
        Ok(JournalSwapper {
            rt,
            meeting,
            counters,
            folder,
            journal,
            thinned,
        })
    }
}

impl<R: Folders + Wait + Drop, C: ConfigName> CompactionSource<FileJournal, AnswersAgree<C>>
    for JournalSwapper<R, C> {
    fn take_ready(&mut self) -> Option<CompactedLog<FileJournal, AnswersAgree<C>>> {
        self.meeting.take(&self.rt)
    }

    fn replace(&mut self, log: &FileJournal) -> Result<(), ReplaceFault> {
        let is_renamed = self
            .rt
            .rename(self.thinned.as_str(), self.journal.as_str())
            .is_ok();
        if is_renamed && self.folder.sync_all().is_ok() {
            Ok(())
        } else {
            Err(ReplaceFault)
        }
    }

    fn on_swap_tried(&mut self, is_exchanged: bool, bytes: u64) {
        self.meeting.report_outcome(&self.rt, is_exchanged, bytes);
    }

    fn on_synced(&mut self, seal: LogEnd) -> bool {
        self.counters.set(Figure::JournalBytes, seal.position);
        self.counters.add(Figure::Syncs, 1);
        self.meeting.report_synced(&self.rt, seal)
    }
}
