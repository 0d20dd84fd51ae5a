//! What carries transactions to a register.
use journal_file::StorageFault;
use journal_register::{Answer, ChunkKey, Look, Transaction};

/// What carries transactions to a register and brings the answers back: etcd's interface, or memory in tests.
///
/// The clauses are all that is taken of etcd: it orders what comes and does each whole or not at all; an answer is made
/// when the message comes, and shows the register as it then is; and nothing but what is sent here comes of an owner
/// whose nonce was drawn here, but for claims. They speak of a register that is known, as in memory. Nothing is known
/// of a real one.
pub trait Engine: Drop {
    ghost use Rattle.std.specs.Prelude.{◌≡◌, ◌⊎◌, ◌+◌, ◌<◌, ◌≤◌, ◌++◌, ℕ, List, Bool, true, Option, Some, IfSome, IfOk};
    ghost use Rattle.journal_register.specs.declared.owner.Owner.{Owner};
    ghost use Rattle.journal_register.specs.Register.{Register, Message};
    ghost use Rattle.journal_register.specs.Laws.{look_at};
    ghost use Rattle.journal_remote.specs.Passing.{Between, Goes, Exchanges};
    ghost use Rattle.journal_remote.specs.Joined.{JoinsFrom};

    /// The register when the last answer was made; none where that isn't known.
    ghost register: { Self → Option Register };

    /// Whether a message has been sent.
    ghost sends: { Self → Message → Bool };

    /// Whether an owner's nonce was drawn for what is sent here.
    ghost is_own: { Self → Owner → Bool };

    /// Reads both keys, as a majority of the members has them. `None` where nothing that can be read came back.
    fn look(&mut self) -> Option<Look>
        ensures goes { Between (register self.old) (register self.new) (Goes (is_own self.old) (sends self.new)) }
        ensures shows { IfSome result (λ look. (k : Register) → register self.new ≡ Some k → look ≡ look_at look.cluster k) }
        ensures sent { sends self.new ≡ sends self.old }
        ensures own { is_own self.new ≡ is_own self.old };

    /// Sends a transaction with the bytes of the chunk that it puts, where it puts one, and waits for the answer.
    fn transact(&mut self, transaction: &Transaction, bytes: &[u8]) -> Answer
        ensures goes { Between (register self.old) (register self.new) (Exchanges (is_own self.old) (sends self.new) (record { transaction = transaction.now; bytes = bytes.now }) result) }
        ensures sent { (m : Message) → sends self.new m ≡ true → (m ≡ record { transaction = transaction.now; bytes = bytes.now }) ⊎ (sends self.old m ≡ true) }
        ensures kept { (m : Message) → sends self.old m ≡ true → sends self.new m ≡ true }
        ensures own { is_own self.new ≡ is_own self.old };

    /// Appends to `bytes` the bytes of the chunks from this one on, one at least and `most` at most, and returns how
    /// many chunks these are.
    ///
    /// # Errors
    ///
    /// `Failed` where nothing that can be read came back, or the chunk doesn't stand; `NoMemory`.
    fn read_chunks(
        &mut self,
        from: ChunkKey,
        most: u64,
        bytes: &mut Vec<u8>,
    ) -> Result<u64, StorageFault>
        ensures goes { Between (register self.old) (register self.new) (Goes (is_own self.old) (sends self.new)) }
        ensures some { IfOk result (λ count. 0 < count) }
        ensures most { IfOk result (λ count. count ≤ most) }
        ensures read { IfOk result (λ count. (more : List ℕ) × (bytes.new.items ≡ bytes.old.items ++ more)
            × ((k : Register) → register self.new ≡ Some k → JoinsFrom (k.chunk from.generation) from.index count more)) }
        ensures sent { sends self.new ≡ sends self.old }
        ensures own { is_own self.new ≡ is_own self.old };
}
