//! An archive of files in a folder.

use crate::archive::{Archive, ArchiveFault, ArchiveSlot, archive_journal, slot_of};
use crate::fault::FolderFault;
use crate::files::lock_file;
use crate::folders::Folders;
use std::alloc::{AllocError, Global};
use std::fs::{self, File, Files};
use std::io::{Error, ErrorKind, Read, Write};

/// An archive of files in a folder, which this program alone writes to meanwhile, where the file system locks folders.
#[derive(Drop)]
struct ArchiveFiles<'a, R> {
    rt: &'a R,
    alloc: Global,
    folder: &'a str,
    /// The folder, locked as long as it is open, where that can be.
    names: File,
}

/// Why writing failed.
fn write_fault(error: &Error) -> ArchiveFault {
    match error.kind() {
        ErrorKind::OutOfMemory => ArchiveFault::NoMemory,
        ErrorKind::StorageFull | ErrorKind::QuotaExceeded => ArchiveFault::NoRoom,
        _ => ArchiveFault::Unusable,
    }
}

/// Writes bytes to a new file and syncs it.
fn write_synced(file: File, bytes: &[u8]) -> Result<(), ArchiveFault> {
    let mut file = file;
    if let Err(error) = file.write_all(bytes) {
        return Err(write_fault(&error));
    }
    match file.sync_all() {
        Ok(()) => Ok(()),
        Err(error) => Err(write_fault(&error)),
    }
}

impl<'a, R: Folders> ArchiveFiles<'a, R> {
    /// The archive in a folder that is there.
    ///
    /// # Errors
    ///
    /// `Unusable` where it can't be opened, `Locked` where another program writes to it.
    fn open(
        rt: &'a R,
        alloc: Global,
        folder: &'a str,
    ) -> Result<ArchiveFiles<'a, R>, ArchiveFault> {
        let Ok(names) = rt.open(folder) else {
            return Err(ArchiveFault::Unusable);
        };
        // Some file systems of networks lock no folder: there nothing is locked.
        if matches!(lock_file(&names), Err(FolderFault::Locked)) {
            return Err(ArchiveFault::Locked);
        }
        Ok(ArchiveFiles {
            rt,
            alloc,
            folder,
            names,
        })
    }

    /// The path of a file of this name.
    fn path(&self, name: &str) -> Result<String, AllocError> {
        format!(in self.alloc; "{}/{name}", self.folder)
    }

    /// Waits until the names are on the disk.
    fn sync_names(&self) -> Result<(), ArchiveFault> {
        match self.names.sync_all() {
            Ok(()) => Ok(()),
            Err(_) => Err(ArchiveFault::Unusable),
        }
    }

    /// What a file has, beside these bytes, once it is synced.
    fn slot_in(&self, path: &str, bytes: &[u8]) -> Result<ArchiveSlot, ArchiveFault> {
        let Ok(mut file) = self.rt.open(path) else {
            return Err(ArchiveFault::Unusable);
        };
        let mut found = Vec::new(self.alloc);
        if let Err(error) = file.read_to_end(&mut found) {
            return Err(write_fault(&error));
        }
        if file.sync_all().is_err() {
            return Err(ArchiveFault::Unusable);
        }
        Ok(slot_of(Some(&found), bytes))
    }
}

impl<R: Folders> Archive for ArchiveFiles<'_, R> {
    ghost use Rattle.std.specs.Prelude.{⊤};

    // the proofs know nothing of the contents of files
    ghost has = { λ _ _ _. ⊤ };

    fn slot_at(&mut self, name: &str, bytes: &[u8]) -> Result<ArchiveSlot, ArchiveFault> {
        let path = self.path(name)?;
        let slot = match self.rt.look(path.as_str()) {
            // A file of another length has other bytes.
            Ok(found) if found.is_file() && found.len() == bytes.len() as u64 => {
                self.slot_in(path.as_str(), bytes)?
            }
            Ok(_) => ArchiveSlot::Taken,
            Err(error) if error.kind() == ErrorKind::NotFound => slot_of(None, bytes),
            Err(_) => return Err(ArchiveFault::Unusable),
        };
        if slot == ArchiveSlot::Same {
            self.sync_names()?;
        }
        Ok(slot)
    }

    fn keep(&mut self, name: &str, bytes: &[u8]) -> Result<(), ArchiveFault> {
        let part = self.path("archive.part")?;
        let path = self.path(name)?;
        let file = match self.rt.make(part.as_str()) {
            Ok(file) => file,
            Err(error) => return Err(write_fault(&error)),
        };
        if let Err(fault) = write_synced(file, bytes) {
            // A file that couldn't be written whole takes no disk space.
            let _ = self.rt.remove(part.as_str());
            return Err(fault);
        }
        if self.rt.rename(part.as_str(), path.as_str()).is_err() {
            return Err(ArchiveFault::Unusable);
        }
        self.sync_names()
    }
}

/// Whether journals can be archived in a folder: it is there.
///
/// # Errors
///
/// `Unusable` where it isn't there, or is no folder.
pub fn check_archive<R: Files<File = File>>(rt: &R, folder: &str) -> Result<(), ArchiveFault> {
    match fs::metadata(rt, folder) {
        Ok(found) if found.is_dir() => Ok(()),
        _ => Err(ArchiveFault::Unusable),
    }
}

/// Archives a journal's bytes in a folder, as `archive_journal` does, and returns the file's name: in a file
/// `archive.part`, which is renamed once it is whole and synced. Then the folder's names are synced.
///
/// # Errors
///
/// Those of `archive_journal`, and `Locked` where another program writes to the folder.
pub fn archive_in<R: Folders>(
    rt: &R,
    alloc: Global,
    folder: &str,
    bytes: &[u8],
) -> Result<Option<String>, ArchiveFault> {
    let mut archive = ArchiveFiles::open(rt, alloc, folder)?;
    archive_journal(alloc, &mut archive, bytes)
}
