//! Storage in a file.
use crate::storage::{Storage, StorageFault, storage_fault};
use std::alloc::Global;
use std::fs::OpenFile;
use std::io::{Read, Seek, SeekFrom, Write};

/// Storage in a file, which is open for reading and for writing and to which nothing else writes. The proofs know
/// nothing of its contents: that the disk keeps what it reported as synced is a premise.
#[derive(Debug, Drop)]
pub struct FileStorage<F> {
    file: F,
}

impl<F> FileStorage<F> {
    /// Storage in this file.
    pub fn new(file: F) -> FileStorage<F> {
        FileStorage { file }
    }
}

impl<F: Read + Write + Seek + OpenFile + Drop> Storage for FileStorage<F> {
    ghost use Rattle.std.specs.Prelude.{⊤};

    ghost holds = { λ _ _. ⊤ };

    ghost is_synced = { λ _. ⊤ };

    fn read(&mut self, alloc: Global) -> Result<Vec<u8>, StorageFault> {
        if self.file.seek(SeekFrom::Start(0)).is_err() {
            return Err(StorageFault::Failed);
        }
        let mut bytes = Vec::new(alloc);
        match self.file.read_to_end(&mut bytes) {
            Ok(_) => Ok(bytes),
            Err(error) => Err(storage_fault(error.kind())),
        }
    }

    fn append(&mut self, bytes: &[u8]) -> Result<(), StorageFault> {
        if self.file.seek(SeekFrom::End(0)).is_err() || self.file.write_all(bytes).is_err() {
            return Err(StorageFault::Failed);
        }
        Ok(())
    }

    fn cut(&mut self, len: u64) -> Result<(), StorageFault> {
        match self.file.set_len(len) {
            Ok(()) => Ok(()),
            Err(_) => Err(StorageFault::Failed),
        }
    }

    fn sync(&mut self) -> Result<(), StorageFault> {
        match self.file.sync_data() {
            Ok(()) => Ok(()),
            Err(_) => Err(StorageFault::Failed),
        }
    }
}
