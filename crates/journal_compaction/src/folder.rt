//! Compaction of the journal in a city's folder.

use crate::compaction::{Counts, SourceJournal};
use crate::fault::CompactFault;
use crate::journal_location::{JournalLocation, compact_at};
use crate::prefix::check_empty;
use journal_file::{FileStorage, Journal, Log};
use journal_folder::{
    CompactedJournal, CutFiles, Folder, FolderFault, Folders, archive_compacted, create_locked,
    journal_bytes, open_folder, record_compaction, sync_names,
};
use mds_text::Moment;
use std::alloc::Global;
use std::fs::{self, File, Files};
use std::sync::Wait;

/// A city's folder, whose journal is to be replaced by the holder of its lock.
#[derive(Drop)]
struct LockedFolder<'a, 'b, R: Files<File = File>> {
    rt: &'a R,
    alloc: Global,
    folder: &'b str,
    /// The folder in which the journal is archived; `None` for nowhere.
    archive: Option<&'b str>,
    /// The journal, once it is archived, where that is to be; `None` before, and where it has no entries.
    compacted: Option<CompactedJournal>,
    /// Locked as long as they are open: the folder's lock, and its journal.
    locks: (File, File),
    /// Another handle of the compacted journal, which is locked as long as it is open: a program that opens the journal
    /// finds a locked file before it is renamed and after.
    thinned: Option<File>,
}

/// Another handle of a file.
fn clone_handle(file: &File) -> Result<File, FolderFault> {
    match file.try_clone() {
        Ok(file) => Ok(file),
        Err(_) => Err(FolderFault::Unusable),
    }
}

/// Records that a journal is compacted, in the file `compactions` of a city's folder, and waits until that is synced. A
/// journal without entries, `None`, isn't recorded.
///
/// # Errors
///
/// `NotWritten` where that can't be done, `NoMemory`.
pub fn record_compacted<R: Folders>(
    rt: &R,
    alloc: Global,
    folder: &str,
    journal: &Option<CompactedJournal>,
) -> Result<(), CompactFault> {
    let Some(journal) = journal else {
        return Ok(());
    };
    match record_compaction(rt, alloc, folder, journal) {
        Ok(()) => Ok(()),
        Err(FolderFault::NoMemory) => Err(CompactFault::NoMemory),
        Err(_) => Err(CompactFault::NotWritten),
    }
}

/// Renames the compacted journal over the journal.
fn rename<R: Files<File = File>>(rt: &R, alloc: Global, folder: &str) -> Result<(), FolderFault> {
    let from = format!(in alloc; "{folder}/journal.thinned")?;
    let to = format!(in alloc; "{folder}/journal")?;
    match fs::rename(rt, from.as_str(), to.as_str()) {
        Ok(()) => Ok(()),
        Err(_) => Err(FolderFault::Unusable),
    }
}

impl<R: Folders + Files<File = File>> JournalLocation<Journal<FileStorage<File>>>
    for LockedFolder<'_, '_, R> {
    ghost use Rattle.std.specs.Prelude.{⊤};

    // the proofs know nothing of the contents of files
    ghost is_replaced = { λ _. ⊤ };

    ghost is_archived = { λ _. ⊤ };

    ghost is_recorded = { λ _. ⊤ };

    fn create_log(&mut self) -> Result<Journal<FileStorage<File>>, FolderFault> {
        let path = format!(in self.alloc; "{}/journal.thinned", self.folder)?;
        let file = create_locked(self.rt, path.as_str())?;
        self.thinned = Some(clone_handle(&file)?);
        match Journal::open(self.alloc, FileStorage::new(file)) {
            Ok(log) => check_empty(log),
            Err(fault) => Err(FolderFault::from(fault)),
        }
    }

    fn archive(&mut self) -> Result<(), CompactFault> {
        let bytes = journal_bytes(self.rt, self.alloc, self.folder)?;
        self.compacted = archive_compacted(self.rt, self.alloc, self.archive, &bytes)?;
        Ok(())
    }

    fn record(&mut self) -> Result<(), CompactFault> {
        record_compacted(self.rt, self.alloc, self.folder, &self.compacted)
    }

    fn replace(&mut self) -> Result<(), FolderFault> {
        rename(self.rt, self.alloc, self.folder)?;
        sync_names(self.rt, self.folder)
    }
}

/// The payloads of a folder's journal. A torn tail that is cut off is saved.
fn texts_in<R: Files<File = File>>(
    rt: &R,
    alloc: Global,
    folder: &str,
    file: File,
) -> Result<Vec<Vec<u8>>, FolderFault> {
    let mut aside = CutFiles::new(rt, alloc, folder)?;
    let mut log = match Journal::recover(alloc, FileStorage::new(file), &mut aside) {
        Ok(log) => log,
        Err(fault) => return Err(FolderFault::from(fault)),
    };
    match log.read_from(0) {
        Ok(texts) => Ok(texts),
        Err(fault) => Err(FolderFault::from(fault)),
    }
}

/// Compacts the journal of a city's folder, which no server may have meanwhile. It takes the folder's lock and reads
/// the journal (a tail that isn't whole is saved next to it, and cut). It writes the compacted one to `journal.thinned`
/// next to it, syncs that, starts a server from each and compares their answers at this moment. It archives the journal
/// in another folder, where one is given, records the compaction in the file `compactions`, renames the compacted journal
/// over it and syncs the folder. The configuration is its text, as `Config::read` reads it.
///
/// # Errors
///
/// Those of `compact_at`, where `Folder` is also where another program has the folder. The journal stays as it was,
/// except where renaming it or syncing the folder failed: then it isn't known whether it did.
pub fn compact_folder<R: Wait + Folders + Files<File = File>>(
    rt: &R,
    alloc: Global,
    folder: &str,
    archive: Option<&str>,
    config: &[u8],
    at: Moment,
) -> Result<Counts, CompactFault> {
    let Folder {
        lock,
        journal,
        ballast: _ballast,
    } = open_folder(rt, alloc, folder)?;
    let held = clone_handle(&journal)?;
    let texts = texts_in(rt, alloc, folder, journal)?;
    let old = SourceJournal {
        config,
        texts: &texts,
        at,
    };
    let mut place = LockedFolder {
        rt,
        alloc,
        folder,
        archive,
        compacted: None,
        locks: (lock, held),
        thinned: None,
    };
    compact_at::<LockedFolder<'_, '_, R>, Journal<FileStorage<File>>, R>(
        rt, alloc, &mut place, &old,
    )
}
