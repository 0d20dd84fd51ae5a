//! The transactions that change a register.
ghost use Rattle.std.specs.Prelude.{◌≡◌, IfSome};
ghost use Rattle.journal_register.specs.Kinds.{
  comparing,
  comparing_both,
  claim_of,
  index_behind,
  chunk_behind,
  append_of,
  beat_of,
  stage_of,
  switch_of,
  removal_of,
};
ghost use Rattle.journal_register.specs.Lawful.{IsLawful};

use crate::head::{Extent, FIRST_HEAD, Generation, Head, NO_HEAD, Switch};
use crate::owner::{MOST_COUNT, Owner};
use journal_file::LogEnd;

/// Where a chunk of the journal's bytes stands.
#[derive(Clone, Copy, Debug, PartialEq, Eq)]
pub struct ChunkKey {
    /// The generation that it is of.
    pub generation: Generation,
    /// Its place among the chunks of its generation, from 0 on.
    pub index: u64,
}

/// A transaction of etcd on a register: where all that it compares holds, all that it puts and deletes is done at once,
/// else nothing. It may come late, or more than once: a head or an owner that was left never comes back, so it is done
/// once at the most, or does what it did before.
#[derive(Clone, Copy, Debug, PartialEq, Eq)]
pub struct Transaction {
    /// The owner that the register must have.
    pub owner: Owner,
    /// The head that it must have, where that is compared.
    pub head: Option<Head>,
    /// The owner that is put.
    pub new_owner: Option<Owner>,
    /// The head that is put.
    pub new_head: Option<Head>,
    /// The chunk that is put.
    pub chunk: Option<ChunkKey>,
    /// The generation whose chunks are deleted.
    pub deleted: Option<Generation>,
}

/// Compares the owner, and writes nothing yet.
fn comparing(owner: Owner) -> Transaction
    ensures { result ≡ comparing owner }
{
    Transaction {
        owner,
        head: None,
        new_owner: None,
        new_head: None,
        chunk: None,
        deleted: None,
    }
}

/// Compares owner and head, and writes nothing yet.
fn comparing_both(owner: Owner, head: Head) -> Transaction
    ensures { result ≡ comparing_both owner head }
{
    Transaction {
        head: Some(head),
        ..comparing(owner)
    }
}

/// The index of a chunk that stands so many places behind the head's end.
fn index_behind(head: Head, place: u64) -> Option<u64>
    ensures { result ≡ index_behind head place }
{
    if head.extent.chunks >= MOST_COUNT - place {
        return None;
    }
    Some(head.extent.chunks + place)
}

impl Transaction {
    /// Claims the register from the owner that was seen. The nonce is drawn at random; with 0 the register is handed
    /// over. Where it was never claimed, it begins with `FIRST_HEAD`. `None` where epochs are used up.
    pub fn claim(seen: Owner, nonce: u64) -> Option<Transaction>
        ensures value { result ≡ claim_of seen nonce }
        ensures lawful { IfSome result IsLawful }
    {
        if seen.epoch >= MOST_COUNT {
            return None;
        }
        let is_first = seen.epoch == 0;
        Some(Transaction {
            head: if is_first { Some(NO_HEAD) } else { None },
            new_owner: Some(Owner {
                epoch: seen.epoch + 1,
                nonce,
            }),
            new_head: if is_first { Some(FIRST_HEAD) } else { None },
            ..comparing(seen)
        })
    }

    /// Puts a chunk of a group of several `place` places behind the head's end; the head stays, so the chunk isn't
    /// there yet. `None` where indices are used up.
    pub fn put_behind(owner: Owner, head: Head, place: u64) -> Option<Transaction>
        ensures value { result ≡ chunk_behind owner head place }
        ensures lawful { IfSome result IsLawful }
    {
        let index = index_behind(head, place)?;
        Some(Transaction {
            chunk: Some(ChunkKey {
                generation: head.extent.generation,
                index,
            }),
            ..comparing_both(owner, head)
        })
    }

    /// Appends a group: puts its last chunk `place` places behind the head's end, and the head behind that, where the
    /// journal then has the given end. `None` where indices are used up.
    pub fn append(owner: Owner, head: Head, place: u64, end: LogEnd) -> Option<Transaction>
        ensures value { result ≡ append_of owner head place end }
        ensures lawful { IfSome result IsLawful }
    {
        let index = index_behind(head, place)?;
        let generation = head.extent.generation;
        let extent = Extent {
            generation,
            chunks: index + 1,
            end,
        };
        Some(Transaction {
            chunk: Some(ChunkKey { generation, index }),
            new_head: Some(Head { extent, ..head }),
            ..comparing_both(owner, head)
        })
    }

    /// Shows that the owner lives, where it has nothing to append. `None` where beats are used up.
    pub fn beat(owner: Owner, head: Head) -> Option<Transaction>
        ensures value { result ≡ beat_of owner head }
        ensures lawful { IfSome result IsLawful }
    {
        if head.beat >= MOST_COUNT {
            return None;
        }
        let beat = head.beat + 1;
        Some(Transaction {
            new_head: Some(Head { beat, ..head }),
            ..comparing_both(owner, head)
        })
    }

    /// Puts a chunk of a generation that the owner is making, which isn't read yet. The head isn't compared: appends go
    /// on. `None` where the generation isn't this owner's, or not later than the head's.
    pub fn stage(
        owner: Owner,
        head: Head,
        generation: Generation,
        index: u64,
    ) -> Option<Transaction>
        ensures value { result ≡ stage_of owner head generation index }
        ensures lawful { IfSome result IsLawful }
    {
        if generation.epoch != owner.epoch || !head.extent.generation.is_earlier(generation) {
            return None;
        }
        Some(Transaction {
            chunk: Some(ChunkKey { generation, index }),
            ..comparing(owner)
        })
    }

    /// Switches to a generation that the owner has made as far as this, in place of the head's. `None` as for `stage`.
    pub fn switch(owner: Owner, head: Head, to: Extent) -> Option<Transaction>
        ensures value { result ≡ switch_of owner head to }
        ensures lawful { IfSome result IsLawful }
    {
        let latest = head.extent.generation;
        if to.generation.epoch != owner.epoch || !latest.is_earlier(to.generation) {
            return None;
        }
        let switch = Switch {
            from: head.extent,
            chunks: to.chunks,
            end: to.end,
        };
        Some(Transaction {
            new_head: Some(Head {
                extent: to,
                switch,
                ..head
            }),
            ..comparing_both(owner, head)
        })
    }

    /// Deletes the chunks of a generation that the head has left, or that was given up. `None` where it is the head's.
    pub fn remove(owner: Owner, head: Head, generation: Generation) -> Option<Transaction>
        ensures value { result ≡ removal_of owner head generation }
        ensures lawful { IfSome result IsLawful }
    {
        if generation.is(head.extent.generation) {
            return None;
        }
        Some(Transaction {
            deleted: Some(generation),
            ..comparing_both(owner, head)
        })
    }
}
