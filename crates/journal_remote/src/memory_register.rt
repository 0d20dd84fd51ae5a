//! A register in memory.
ghost use Rattle.std.specs.Prelude.{◌≡◌, [], option_map};
ghost use Rattle.journal_register.specs.Register.{has_head, holds, is_at, is_of};
ghost use Rattle.journal_remote.specs.Memory.{register_of, Comes};

use crate::protocol::is_lawful;
use journal_register::{Answer, ChunkKey, Generation, Head, Owner, Transaction};
use std::alloc::Global;

/// What a transaction wrote to the chunks of a register in memory.
#[derive(Debug, Drop)]
pub struct ChunkWrite {
    /// The chunk that it put.
    pub put: Option<ChunkKey>,
    /// The generation whose chunks it deleted.
    pub deleted: Option<Generation>,
    /// The bytes of the chunk that it put.
    pub bytes: Vec<u8>,
}

/// A register in memory.
#[derive(Debug, Drop)]
pub struct MemoryRegister {
    /// Its revision.
    pub revision: u64,
    /// Its owner.
    pub owner: Owner,
    /// Its head.
    pub head: Head,
    /// What was written to its chunks, the latest first.
    pub writes: Vec<ChunkWrite>,
}

/// Whether the head is the one that is compared, where one is.
fn has_head(compared: Option<Head>, head: Head) -> bool
    ensures { result ≡ has_head compared head }
{
    match compared {
        None => true,
        Some(compared) => compared.is(head),
    }
}

/// Whether this chunk is put.
fn is_at(put: Option<ChunkKey>, key: ChunkKey) -> bool
    ensures { result ≡ is_at put key.generation key.index }
{
    match put {
        None => false,
        Some(put) => put.generation.is(key.generation) && put.index == key.index,
    }
}

/// Whether this generation's chunks are deleted.
fn is_of(deleted: Option<Generation>, generation: Generation) -> bool
    ensures { result ≡ is_of deleted generation }
{
    match deleted {
        None => false,
        Some(deleted) => deleted.is(generation),
    }
}

impl MemoryRegister {
    /// A register with this owner and this head, and no chunks.
    pub fn new(alloc: Global, owner: Owner, head: Head) -> MemoryRegister
        ensures owner { result.owner ≡ owner }
        ensures head { result.head ≡ head }
        ensures empty { result.writes.items ≡ [] }
    {
        MemoryRegister {
            revision: 1,
            owner,
            head,
            writes: Vec::new(alloc),
        }
    }

    /// The bytes of a chunk; `None` where it doesn't stand.
    pub fn chunk(&self, key: ChunkKey) -> Option<&[u8]>
        ensures { option_map (λ b. b.now) result ≡ (register_of self.now).chunk key.generation key.index }
    {
        for write in &self.writes {
            if is_at(write.put, key) {
                return Some(&write.bytes);
            }
            if is_of(write.deleted, key.generation) {
                return None;
            }
        }
        None
    }

    /// Whether all that a transaction compares holds.
    fn holds(&self, transaction: &Transaction) -> bool
        ensures { result ≡ holds (register_of self.now) transaction.now }
    {
        transaction.owner.is(self.owner) && has_head(transaction.head, self.head)
    }

    /// A message comes: it is done where all that it compares holds, and answered. Without memory, at the last
    /// revision, and where it doesn't keep to the protocol, it is lost.
    pub fn receive(&mut self, alloc: Global, transaction: &Transaction, bytes: &[u8]) -> Answer
        ensures { Comes (record { transaction = transaction.now; bytes = bytes.now }) result (register_of self.old) (register_of self.new) }
    {
        if self.revision == u64::MAX || !is_lawful(transaction) {
            return Answer::Missing;
        }
        if !self.holds(transaction) {
            return Answer::Failed(self.owner, self.head);
        }
        let Ok(bytes) = Vec::from_slice(alloc, bytes) else {
            return Answer::Missing;
        };
        let write = ChunkWrite {
            put: transaction.chunk,
            deleted: transaction.deleted,
            bytes,
        };
        let Ok(()) = self.writes.insert(0, write) else {
            return Answer::Missing;
        };
        self.owner = transaction.new_owner.unwrap_or(self.owner);
        self.head = transaction.new_head.unwrap_or(self.head);
        self.revision += 1;
        Answer::Succeeded
    }
}
