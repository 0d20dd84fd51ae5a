//! Storage in memory, for tests.
ghost use Rattle.std.specs.Prelude.{◌≡◌, true};

use crate::storage::{Storage, StorageFault};
use std::alloc::Global;

/// Bytes in memory. Each call is counted; once `calls_left` is 0, every call fails.
#[derive(Debug, Drop)]
pub struct MemoryStorage {
    /// The bytes.
    pub bytes: Vec<u8>,
    /// How many more calls succeed.
    pub calls_left: u32,
    /// Whether the contents were synced.
    pub is_synced: bool,
}

impl MemoryStorage {
    /// Counts a call, and returns whether it succeeds.
    fn count_call(&mut self) -> bool
        ensures bytes { self.new.bytes ≡ self.old.bytes }
        ensures synced { self.new.is_synced ≡ self.old.is_synced }
    {
        if self.calls_left == 0 {
            return false;
        }
        self.calls_left -= 1;
        true
    }
}

impl Storage for MemoryStorage {
    ghost holds = { λ m bytes. m.bytes.items ≡ bytes };

    ghost is_synced = { λ m. m.is_synced ≡ true };

    fn read(&mut self, alloc: Global) -> Result<Vec<u8>, StorageFault> {
        if !self.count_call() {
            return Err(StorageFault::Failed);
        }
        Ok(Vec::from_slice(alloc, &self.bytes)?)
    }

    fn append(&mut self, bytes: &[u8]) -> Result<(), StorageFault> {
        if !self.count_call() {
            return Err(StorageFault::Failed);
        }
        self.is_synced = false;
        self.bytes.extend_from_slice(bytes)?;
        Ok(())
    }

    fn cut(&mut self, len: u64) -> Result<(), StorageFault> {
        if !self.count_call() {
            return Err(StorageFault::Failed);
        }
        self.is_synced = false;
        self.bytes.truncate(len as usize);
        Ok(())
    }

    fn sync(&mut self) -> Result<(), StorageFault> {
        if !self.count_call() {
            return Err(StorageFault::Failed);
        }
        self.is_synced = true;
        Ok(())
    }
}
