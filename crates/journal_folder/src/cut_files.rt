//! The files next to a journal in which bytes that are cut off it are saved.

use crate::fault::FolderFault;
use crate::files::open_new;
use crate::folder::sync_names;
use journal_file::{StorageFault, TailStore};
use std::alloc::{AllocError, Global};
use std::fs::{self, File, Files};
use std::io::Write;

/// The most such files that a folder has.
const MOST_FILES: u32 = 10_000;

/// The files `journal.cut`, `journal.cut.1`, `journal.cut.2` and so on of a city's folder. An existing one is never
/// changed.
#[derive(Drop)]
pub struct CutFiles<R> {
    rt: R,
    alloc: Global,
    folder: String,
}

/// The path of the file with this number.
fn path_of(alloc: Global, folder: &str, number: u32) -> Result<String, AllocError> {
    if number == 0 {
        format!(in alloc; "{folder}/journal.cut")
    } else {
        format!(in alloc; "{folder}/journal.cut.{number}")
    }
}

/// The storage fault of a folder's fault.
fn storage_fault(fault: FolderFault) -> StorageFault {
    match fault {
        FolderFault::NoMemory => StorageFault::NoMemory,
        _ => StorageFault::Failed,
    }
}

impl<R: Files<File = File> + Drop> CutFiles<R> {
    /// The files of this folder.
    ///
    /// # Errors
    ///
    /// Out of memory.
    pub fn new(rt: R, alloc: Global, folder: &str) -> Result<CutFiles<R>, AllocError> {
        Ok(CutFiles {
            rt,
            alloc,
            folder: String::from_str(alloc, folder)?,
        })
    }

    /// Creates a new file, and returns it with its path.
    ///
    /// # Errors
    ///
    /// The folder has as many as it may have, none can be made there, or out of memory.
    fn create(&self) -> Result<(File, String), StorageFault> {
        for number in 0..MOST_FILES {
            let path = path_of(self.alloc, self.folder.as_str(), number)?;
            match open_new(&self.rt, path.as_str()) {
                Ok(Some(file)) => return Ok((file, path)),
                Ok(None) => {}
                Err(fault) => return Err(storage_fault(fault)),
            }
        }
        Err(StorageFault::Failed)
    }

    /// Writes all bytes to a file, syncs it and its name, and returns whether that succeeded.
    fn write_synced(&self, file: File, bytes: &[u8]) -> bool {
        let mut file = file;
        file.write_all(bytes).is_ok()
            && file.sync_all().is_ok()
            && sync_names(&self.rt, self.folder.as_str()).is_ok()
    }
}

impl<R: Files<File = File> + Drop> TailStore for CutFiles<R> {
    ghost use Rattle.std.specs.Prelude.{⊤};

    // nothing is known in the proofs of the contents of files
    ghost has_kept = { λ _ _ _. ⊤ };

    fn save(&mut self, _from: u64, bytes: &[u8]) -> Result<(), StorageFault> {
        let (file, path) = self.create()?;
        if self.write_synced(file, bytes) {
            return Ok(());
        }
        // A file that couldn't be written whole takes no disk space.
        let _ = fs::remove_file(&self.rt, path.as_str());
        Err(StorageFault::Failed)
    }
}
