//! A disk in memory, of which one call fails, or each one from a call on.
use journal_compaction::{CompactFault, JournalLocation};
use journal_file::{Journal, Log, MemoryStorage, Storage, StorageFault};
use journal_folder::{ArchiveFault, FolderFault};
use std::alloc::Global;
use std::cell::{Cell, RefCell};

/// The capacity in bytes of the file next to a journal, so that no allocation for it is refused.
const ROOM: usize = 16_384;

/// Which calls on a disk fail.
#[derive(Clone, Copy, PartialEq, Eq)]
pub(crate) enum FailingCalls {
    /// One call alone.
    Once,
    /// Each call from one on.
    Onward,
}

/// A disk with a journal and a file next to it, on which so many calls succeed before one fails. Where an append
/// fails half of its bytes are appended. What wasn't synced of the file is lost where it takes the journal's place.
#[derive(Drop)]
pub(crate) struct Disk {
    alloc: Global,
    journal: RefCell<Vec<u8>>,
    beside: RefCell<Vec<u8>>,
    /// The journal that was archived last.
    archived: RefCell<Vec<u8>>,
    /// How many compactions were recorded.
    recorded: Cell<u32>,
    /// How many bytes of the file next to the journal are synced.
    synced: Cell<usize>,
    calls_left: Cell<u32>,
    failing: FailingCalls,
}

impl Disk {
    /// A disk with a journal of these payloads; `None` where memory ran out.
    pub(crate) fn new(
        alloc: Global,
        texts: &[Vec<u8>],
        calls: u32,
        failing: FailingCalls,
    ) -> Option<Disk> {
        let mut log = Journal::open(alloc, memory(Vec::new(alloc))).ok()?;
        log.append(0, texts).ok()?;
        let beside = Vec::with_capacity(alloc, ROOM).ok()?;
        Some(Disk {
            alloc,
            journal: RefCell::new(log.into_storage().bytes),
            beside: RefCell::new(beside),
            archived: RefCell::new(Vec::new(alloc)),
            recorded: Cell::new(0),
            synced: Cell::new(0),
            calls_left: Cell::new(calls),
            failing,
        })
    }

    /// All calls succeed from here on.
    pub(crate) fn mend(&self) {
        self.calls_left.set(u32::MAX);
    }

    /// How many compactions were recorded.
    pub(crate) fn compaction_count(&self) -> u32 {
        self.recorded.get()
    }

    /// The payloads of the journal, as they are read once it is opened; `None` where memory ran out.
    pub(crate) fn texts(&self) -> Option<Vec<Vec<u8>>> {
        self.texts_in(&self.journal)
    }

    /// The payloads of the journal that was archived last; `None` where memory ran out.
    pub(crate) fn archived_texts(&self) -> Option<Vec<Vec<u8>>> {
        self.texts_in(&self.archived)
    }

    /// The payloads of the journal in a cell, as they are read once it is opened; `None` where memory ran out.
    fn texts_in(&self, cell: &RefCell<Vec<u8>>) -> Option<Vec<Vec<u8>>> {
        let bytes = copy_of(self.alloc, cell).ok()?;
        let mut log = Journal::open(self.alloc, memory(bytes)).ok()?;
        log.read_from(0).ok()
    }

    /// Counts a call, and returns whether it succeeds.
    fn is_answered(&self) -> bool {
        let left = self.calls_left.get();
        if left > 0 {
            self.calls_left.set(left - 1);
            return true;
        }
        if self.failing == FailingCalls::Once {
            self.mend();
        }
        false
    }

    /// Empties the file next to the journal, and returns whether that succeeded.
    fn empties(&self) -> bool {
        if !self.is_answered() {
            return false;
        }
        let Ok(mut beside) = self.beside.try_borrow_mut() else {
            return false;
        };
        beside.truncate(0);
        self.synced.set(0);
        true
    }

    /// Puts what is synced of the file next to the journal into the journal's place, and returns whether that
    /// succeeded.
    fn renames(&self) -> bool {
        if !self.is_answered() {
            return false;
        }
        let Ok(mut bytes) = self.beside.try_replace(Vec::new(self.alloc)) else {
            return false;
        };
        bytes.truncate(self.synced.get());
        self.journal.try_replace(bytes).is_ok()
    }
}

/// Storage in memory, on which the calls of a test succeed.
fn memory(bytes: Vec<u8>) -> MemoryStorage {
    MemoryStorage {
        bytes,
        calls_left: 5,
        is_synced: true,
    }
}

/// A copy of the bytes in a cell.
fn copy_of(alloc: Global, cell: &RefCell<Vec<u8>>) -> Result<Vec<u8>, StorageFault> {
    match cell.try_borrow() {
        Ok(bytes) => Ok(Vec::from_slice(alloc, &bytes)?),
        Err(_) => Err(StorageFault::Failed),
    }
}

/// The file next to a disk's journal.
#[derive(Drop)]
pub(crate) struct NewFileStorage<'d> {
    disk: &'d Disk,
}

impl Storage for NewFileStorage<'_> {
    ghost use Rattle.std.specs.Prelude.{⊤};

    // the proofs know nothing of the bytes in cells
    ghost holds = { λ _ _. ⊤ };

    ghost is_synced = { λ _. ⊤ };

    fn read(&mut self, alloc: Global) -> Result<Vec<u8>, StorageFault> {
        if !self.disk.is_answered() {
            return Err(StorageFault::Failed);
        }
        copy_of(alloc, &self.disk.beside)
    }

    fn append(&mut self, bytes: &[u8]) -> Result<(), StorageFault> {
        let is_answered = self.disk.is_answered();
        let Ok(mut beside) = self.disk.beside.try_borrow_mut() else {
            return Err(StorageFault::Failed);
        };
        if !is_answered {
            beside.extend_from_slice(&bytes[..bytes.len() / 2])?;
            return Err(StorageFault::Failed);
        }
        beside.extend_from_slice(bytes)?;
        Ok(())
    }

    fn cut(&mut self, len: u64) -> Result<(), StorageFault> {
        if !self.disk.is_answered() {
            return Err(StorageFault::Failed);
        }
        let Ok(mut beside) = self.disk.beside.try_borrow_mut() else {
            return Err(StorageFault::Failed);
        };
        beside.truncate(len as usize);
        Ok(())
    }

    fn sync(&mut self) -> Result<(), StorageFault> {
        if !self.disk.is_answered() {
            return Err(StorageFault::Failed);
        }
        match self.disk.beside.try_borrow() {
            Ok(bytes) => self.disk.synced.set(bytes.len()),
            Err(_) => return Err(StorageFault::Failed),
        }
        Ok(())
    }
}

/// The place of a disk's journal.
#[derive(Drop)]
pub(crate) struct JournalOnDisk<'d> {
    pub(crate) disk: &'d Disk,
}

impl<'d> JournalLocation<Journal<NewFileStorage<'d>>> for JournalOnDisk<'d> {
    ghost use Rattle.std.specs.Prelude.{⊤};

    // the proofs know nothing of the bytes in cells
    ghost is_replaced = { λ _. ⊤ };

    ghost is_archived = { λ _. ⊤ };

    ghost is_recorded = { λ _. ⊤ };

    fn create_log(&mut self) -> Result<Journal<NewFileStorage<'d>>, FolderFault> {
        let disk = self.disk;
        if !disk.empties() {
            return Err(FolderFault::Unusable);
        }
        let mut log = match Journal::open(disk.alloc, NewFileStorage { disk }) {
            Ok(log) => log,
            Err(fault) => return Err(FolderFault::from(fault)),
        };
        match log.read_from(0) {
            Ok(texts) if texts.is_empty() => Ok(log),
            Ok(_) => Err(FolderFault::Unusable),
            Err(fault) => Err(FolderFault::from(fault)),
        }
    }

    fn archive(&mut self) -> Result<(), CompactFault> {
        let disk = self.disk;
        if !disk.is_answered() {
            return Err(CompactFault::NotArchived(ArchiveFault::Unusable));
        }
        let bytes = match copy_of(disk.alloc, &disk.journal) {
            Ok(bytes) => bytes,
            Err(StorageFault::NoMemory) => return Err(CompactFault::NoMemory),
            Err(StorageFault::Failed) => return Err(CompactFault::Folder(FolderFault::Unusable)),
        };
        match disk.archived.try_replace(bytes) {
            Ok(_) => Ok(()),
            Err(_) => Err(CompactFault::NotArchived(ArchiveFault::Unusable)),
        }
    }

    fn record(&mut self) -> Result<(), CompactFault> {
        if !self.disk.is_answered() {
            return Err(CompactFault::NotWritten);
        }
        let before = self.disk.recorded.get();
        self.disk.recorded.set(before.saturating_add(1));
        Ok(())
    }

    fn replace(&mut self) -> Result<(), FolderFault> {
        // the second call syncs the file names
        if self.disk.renames() && self.disk.is_answered() {
            Ok(())
        } else {
            Err(FolderFault::Unusable)
        }
    }
}
