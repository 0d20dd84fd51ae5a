//! Storage of a journal in a register's chunks.
ghost use Rattle.std.specs.Prelude.{◌≡◌, true, false, Some};
ghost use Rattle.journal_register.specs.Order.{is_owner};
ghost use Rattle.journal_register.specs.Register.{Register, Message};
ghost use Rattle.journal_remote.specs.Kept.{AreSettled, Keeps, is_current};

use crate::end::end_behind;
use crate::engine::Engine;
use crate::fetch::fetch;
use crate::group::put_group;
use crate::send::look;
use crate::tenure::Tenure;
use journal_file::{Storage, StorageFault};
use std::alloc::Global;

/// Storage of a journal's bytes in the chunks below the head of a register that one owner writes, until another owner
/// comes: from then on all calls but `cut` fail. What lies behind the head isn't there, so an append is there whole or
/// not at all. After an append whose outcome isn't known every call fails.
#[derive(Drop)]
pub struct RemoteStorage<E: Engine> {
    alloc: Global,
    engine: E,
    tenure: Tenure,
    /// How many times a transaction is sent, or a look made, where nothing that decides comes back.
    tries: u32,
    /// Whether the outcome of an append isn't known, or another owner has come.
    is_broken: bool,
    /// Whether an append has shown the owner since the last sync.
    is_confirmed: bool,
    ghost own: { E.is_own engine tenure.owner ≡ true },
    ghost settled: { is_broken ≡ false → AreSettled (E.sends engine) tenure.owner tenure.head },
    ghost current: { is_broken ≡ false → (k : Register) → E.register engine ≡ Some k → is_current tenure.owner tenure.head k ≡ true },
    ghost confirmed: { is_confirmed ≡ true → (k : Register) → E.register engine ≡ Some k → is_owner tenure.owner k.owner ≡ true },
}

impl<E: Engine> RemoteStorage<E> {
    /// The storage of an owner that has claimed its register, and has sent nothing else yet, with the head that a look
    /// showed it then.
    pub fn new(alloc: Global, engine: E, tenure: Tenure, tries: u32) -> RemoteStorage<E>
        requires own { E.is_own engine tenure.owner ≡ true }
        requires settled { AreSettled (E.sends engine) tenure.owner tenure.head }
        requires current { (k : Register) → E.register engine ≡ Some k → is_current tenure.owner tenure.head k ≡ true }
        ensures engine { result.engine ≡ engine }
        ensures tenure { result.tenure ≡ tenure }
        ensures unbroken { result.is_broken ≡ false }
    {
        RemoteStorage {
            alloc,
            engine,
            tenure,
            tries,
            is_broken: false,
            is_confirmed: false,
        }
    }

    /// Who owns the register, and its head, as far as is known.
    pub fn tenure(&self) -> Tenure
        ensures { result ≡ self.now.tenure }
    {
        self.tenure
    }

    /// What carries the transactions, once the storage isn't used any more.
    pub fn into_engine(self) -> E
        ensures { result ≡ self.engine }
    {
        self.engine
    }
}

impl<E: Engine> Storage for RemoteStorage<E> {
    ghost use Rattle.std.specs.Prelude.{◌≡◌, Some};
    ghost use Rattle.journal_register.specs.Register.{Register};
    ghost use Rattle.journal_remote.specs.Kept.{Keeps};

    ghost holds = { λ s bytes. Keeps s.tenure.owner s.tenure.head bytes (E.register s.engine) };

    ghost is_synced = { λ s. (k : Register) → E.register s.engine ≡ Some k → k.owner ≡ s.tenure.owner };

    fn read(&mut self, alloc: Global) -> Result<Vec<u8>, StorageFault> {
        if self.is_broken {
            return Err(StorageFault::Failed);
        }
        self.is_confirmed = false;
        fetch(alloc, &mut self.engine, self.tenure, self.tries)
    }

    fn append(&mut self, bytes: &[u8]) -> Result<(), StorageFault> {
        if self.is_broken {
            return Err(StorageFault::Failed);
        }
        let end = end_behind(self.alloc, self.tenure.head.extent.end, bytes)?;
        self.is_broken = true;
        self.is_confirmed = false;
        let head = put_group(&mut self.engine, self.tenure, bytes, end, self.tries)?;
        self.tenure.head = head;
        self.is_broken = false;
        self.is_confirmed = true;
        Ok(())
    }

    fn cut(&mut self, len: u64) -> Result<(), StorageFault> {
        if len == self.tenure.head.extent.end.position {
            Ok(())
        } else {
            Err(StorageFault::Failed)
        }
    }

    fn sync(&mut self) -> Result<(), StorageFault> {
        if self.is_broken {
            return Err(StorageFault::Failed);
        }
        if self.is_confirmed {
            self.is_confirmed = false;
            return Ok(());
        }
        let Some(seen) = look(&mut self.engine, self.tries) else {
            return Err(StorageFault::Failed);
        };
        if !seen.confirms(self.tenure.owner) {
            self.is_broken = true;
            return Err(StorageFault::Failed);
        }
        Ok(())
    }
}
