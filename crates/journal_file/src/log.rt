//! The log trait: an append-only list of payloads.
use std::alloc::AllocError;

/// Why an append isn't known to have happened.
#[derive(Clone, Copy, Debug, PartialEq, Eq)]
pub enum AppendFault {
    /// The list doesn't have the expected number of payloads: another appended. Nothing was appended.
    Conflict,
    /// A payload is empty, too long, or begins as a mark does. Nothing was appended.
    Untaken,
    /// The list has no room for so many. Nothing was appended.
    Full,
    /// It isn't known whether the payloads were appended, or will be, or an earlier call ended so: the log has to be
    /// opened again.
    Unknown,
    /// Out of memory before anything was sent to the storage.
    NoMemory,
}

/// Why nothing was read.
#[derive(Clone, Copy, Debug, PartialEq, Eq)]
pub enum ReadFault {
    /// The storage gave no answer, or an earlier call ended with an unknown outcome.
    NoAnswer,
    /// What was read isn't the list.
    Damaged,
    /// Out of memory.
    NoMemory,
}

/// It isn't known whether what was appended is synced: the log has to be opened again.
#[derive(Clone, Copy, Debug, PartialEq, Eq)]
pub struct SyncFault;

impl From<AllocError> for AppendFault {
    ghost use Rattle.std.specs.Prelude.{◌≡◌};
    ghost use Rattle.journal_file.specs.declared.log.AppendFault.TheVariants.{NoMemory};

    ghost from_gives = { λ _ fault. fault ≡ NoMemory };

    fn from(_: AllocError) -> AppendFault {
        AppendFault::NoMemory
    }
}

impl From<AllocError> for ReadFault {
    ghost use Rattle.std.specs.Prelude.{◌≡◌};
    ghost use Rattle.journal_file.specs.declared.log.ReadFault.TheVariants.{NoMemory};

    ghost from_gives = { λ _ fault. fault ≡ NoMemory };

    fn from(_: AllocError) -> ReadFault {
        ReadFault::NoMemory
    }
}

/// An append-only list of payloads, stored in a file or by several machines. The clauses speak of every list that the
/// log may hold; assuming no checksum collision, there is one.
pub trait Log: Drop {
    ghost use Rattle.std.specs.Prelude.{◌≡◌, ◌≢◌, ◌+◌, ℕ, List, ◌++◌, map, drop, length, false, IfOk, OnOk, OnErr, IsErrOf};
    ghost use Rattle.journal_file.specs.Groups.{are_taken};

    /// The log may hold this list, as far as it knows.
    ghost may_be: { Self → List (List ℕ) → Type 0 };

    /// What was appended is on the disk, or wherever a crash doesn't reach it.
    ghost is_synced: { Self → Type 0 };

    /// Appends the payloads at once, where the list has `expected` payloads, and returns how many it has then.
    fn append(&mut self, expected: u64, texts: &[Vec<u8>]) -> Result<u64, AppendFault>
        ensures appended { OnOk result ((list : List (List ℕ)) → may_be self.old list → may_be self.new (list ++ map (λ v. v.items) texts.now)) }
        ensures expected { OnOk result ((list : List (List ℕ)) → may_be self.old list → expected ≡ length list) }
        ensures count { IfOk result (λ count. (list : List (List ℕ)) → may_be self.old list → count ≡ length list + length texts.now) }
        ensures unchanged { OnErr result ((list : List (List ℕ)) → may_be self.old list → may_be self.new list) }
        ensures conflict { IsErrOf result AppendFault.Conflict → (list : List (List ℕ)) → may_be self.old list → expected ≢ length list }
        ensures untaken { IsErrOf result AppendFault.Untaken → are_taken (map (λ v. v.items) texts.now) ≡ false };

    /// Waits until all that was appended is synced, and returns how many payloads the list has.
    fn sync(&mut self) -> Result<u64, SyncFault>
        ensures synced { OnOk result (is_synced self.new) }
        ensures count { IfOk result (λ count. (list : List (List ℕ)) → may_be self.old list → count ≡ length list) }
        ensures unchanged { (list : List (List ℕ)) → may_be self.old list → may_be self.new list };

    /// The payloads from a position on, counted from 0; none where the list ends there or before.
    fn read_from(&mut self, position: u64) -> Result<Vec<Vec<u8>>, ReadFault>
        ensures texts { IfOk result (λ found. (list : List (List ℕ)) × may_be self.new list × (map (λ v. v.items) found.items ≡ drop position list)) }
        ensures unchanged { (list : List (List ℕ)) → may_be self.old list → may_be self.new list };
}
