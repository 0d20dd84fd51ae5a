//! Storage of a journal's bytes.
ghost use Rattle.std.specs.Prelude.{◌≡◌, ◌↔◌};

use std::alloc::{AllocError, Global};
use std::io::ErrorKind;

/// Why storage returned nothing, or isn't known to have stored what it was given.
#[derive(Clone, Copy, Debug, PartialEq, Eq)]
pub enum StorageFault {
    /// A read, a write or a sync failed.
    Failed,
    /// Out of memory.
    NoMemory,
}

impl From<AllocError> for StorageFault {
    fn from(_: AllocError) -> StorageFault {
        StorageFault::NoMemory
    }
}

/// The fault for an error of a file, by its kind: out of memory, or failed.
pub fn storage_fault(kind: ErrorKind) -> StorageFault
    ensures { (result ≡ StorageFault.NoMemory) ↔ (kind ≡ ErrorKind.OutOfMemory) }
{
    match kind {
        ErrorKind::OutOfMemory => StorageFault::NoMemory,
        _ => StorageFault::Failed,
    }
}

/// Storage of a journal's bytes: a file, or memory in tests. The clauses describe storage that keeps what it is given;
/// nothing is known of a real file.
pub trait Storage: Drop {
    ghost use Rattle.std.specs.Prelude.{ℕ, List, ◌++◌, take, IfOk, OnOk};

    /// It holds these bytes, as far as is known.
    ghost holds: { Self → List ℕ → Type 0 };

    /// What it holds is on the disk, as far as is known.
    ghost is_synced: { Self → Type 0 };

    /// All its bytes.
    fn read(&mut self, alloc: Global) -> Result<Vec<u8>, StorageFault>
        ensures bytes { IfOk result (λ v. holds self.new v.items) }
        ensures before { IfOk result (λ v. holds self.old v.items) }
        ensures unchanged { (bytes : List ℕ) → holds self.old bytes → holds self.new bytes };

    /// Appends bytes at its end. After an error it is unknown what it holds.
    fn append(&mut self, bytes: &[u8]) -> Result<(), StorageFault>
        ensures { OnOk result ((before : List ℕ) → holds self.old before → holds self.new (before ++ bytes.now)) };

    /// Truncates it to a length. After an error it is unknown what it holds.
    fn cut(&mut self, len: u64) -> Result<(), StorageFault>
        ensures { OnOk result ((before : List ℕ) → holds self.old before → holds self.new (take len before)) };

    /// Waits until what it holds is on the disk.
    fn sync(&mut self) -> Result<(), StorageFault>
        ensures synced { OnOk result (is_synced self.new) }
        ensures unchanged { (bytes : List ℕ) → holds self.old bytes → holds self.new bytes };
}
