//! Where bytes that are cut off a journal are saved.
ghost use Rattle.std.specs.Prelude.{◌≡◌};

use crate::storage::StorageFault;

/// Saves bytes before they are cut off a journal: to a separate file, or to memory in tests. The clause describes
/// storage that keeps what it is given; nothing is known of a real file.
pub trait TailStore {
    ghost use Rattle.std.specs.Prelude.{ℕ, List, OnOk};

    /// The bytes that stood in the journal from this position on have been saved, as far as is known.
    ghost has_kept: { Self → ℕ → List ℕ → Type 0 };

    /// Saves bytes that stand in the journal from a position on, and waits until they are on the disk.
    fn save(&mut self, from: u64, bytes: &[u8]) -> Result<(), StorageFault>
        ensures { OnOk result (has_kept self.new from bytes.now) };
}

/// An `TailStore` in memory, for tests.
#[derive(Debug, Drop)]
pub struct MemoryTailStore {
    /// The position in the journal from which the bytes stood.
    pub from: u64,
    /// The saved bytes.
    pub bytes: Vec<u8>,
    /// Whether calls succeed; each fails otherwise.
    pub is_answering: bool,
}

impl TailStore for MemoryTailStore {
    ghost has_kept = { λ aside from bytes. (aside.from ≡ from) × (aside.bytes.items ≡ bytes) };

    fn save(&mut self, from: u64, bytes: &[u8]) -> Result<(), StorageFault> {
        if !self.is_answering {
            return Err(StorageFault::Failed);
        }
        self.bytes.clear();
        self.bytes.extend_from_slice(bytes)?;
        self.from = from;
        Ok(())
    }
}
