//! An engine in memory, for tests.
ghost use Rattle.std.specs.Prelude.{◌≡◌, ◌⊎◌, true, false, [], IsSome};
ghost use Rattle.journal_register.specs.Register.{Message};
ghost use Rattle.journal_remote.specs.Memory.{register_of, is_sent, any_owner};
ghost use Rattle.journal_remote.specs.Passing.{Goes, Exchanges};

use crate::engine::Engine;
use crate::memory_register::MemoryRegister;
use crate::remote_storage::RemoteStorage;
use crate::tenure::Tenure;
use journal_file::StorageFault;
use journal_register::{Answer, ChunkKey, Look, Transaction};
use std::alloc::Global;

/// How a message is carried to the register in memory, and its answer back.
#[derive(Clone, Copy, Debug, PartialEq, Eq)]
pub enum Delivery {
    /// Once, and the answer comes back.
    Whole,
    /// The message is lost.
    LostRequest,
    /// The message comes, and its answer is lost.
    LostAnswer,
    /// The message comes, and its answer comes back; it comes again before the next one.
    Twice,
    /// The message is held back in place of any other, and nothing comes back.
    Held,
    /// The one that was held back comes first, and then the message, whose answer comes back.
    BehindHeld,
    /// The message comes, and its answer comes back; the one that was held back comes before the next one.
    BeforeHeld,
    /// Another owner, with this nonce, claims first; then the message comes, and its answer comes back.
    BehindClaim(u64),
}

/// A message that was sent.
#[derive(Debug, Drop)]
pub struct MemoryMessage {
    /// The transaction.
    pub transaction: Transaction,
    /// The bytes of the chunk that it puts, where it puts one.
    pub bytes: Vec<u8>,
}

/// A register in memory, and how messages are carried to it: by a fixed list; once that is used up, whole.
#[derive(Debug, Drop)]
pub struct MemoryEngine {
    alloc: Global,
    /// The register.
    pub register: MemoryRegister,
    /// The transactions that were sent, in order.
    pub messages: Vec<MemoryMessage>,
    /// How many transactions were sent, looks made and chunks asked for.
    pub sent: u64,
    /// How the next ones are carried, the next one first.
    deliveries: Vec<Delivery>,
    /// Which message is held back.
    held: Option<usize>,
    /// Which message comes before the next one.
    due: Option<usize>,
}

/// The storage of an owner over a register in memory, which has this owner and this head, and no chunks.
pub fn memory_storage(
    alloc: Global,
    tenure: Tenure,
    deliveries: Vec<Delivery>,
    tries: u32,
) -> RemoteStorage<MemoryEngine>
    ensures tenure { result.tenure ≡ tenure }
    ensures unbroken { result.is_broken ≡ false }
{
    let engine = MemoryEngine::new(alloc, tenure, deliveries);
    RemoteStorage::new(alloc, engine, tenure, tries)
}

impl MemoryEngine {
    /// An engine to which nothing was sent yet.
    fn new(alloc: Global, tenure: Tenure, deliveries: Vec<Delivery>) -> MemoryEngine
        ensures owner { result.register.owner ≡ tenure.owner }
        ensures head { result.register.head ≡ tenure.head }
        ensures silent { result.messages.items ≡ [] }
    {
        MemoryEngine {
            alloc,
            register: MemoryRegister::new(alloc, tenure.owner, tenure.head),
            messages: Vec::new(alloc),
            sent: 0,
            deliveries,
            held: None,
            due: None,
        }
    }

    /// How the next message is carried.
    fn next_delivery(&mut self) -> Delivery
        ensures register { self.new.register ≡ self.old.register }
        ensures messages { self.new.messages ≡ self.old.messages }
    {
        self.sent = self.sent.saturating_add(1);
        if self.deliveries.is_empty() {
            Delivery::Whole
        } else {
            self.deliveries.remove(0)
        }
    }

    /// A message that was sent comes.
    fn deliver_late(&mut self, index: Option<usize>)
        ensures goes { Goes any_owner (is_sent self.new.messages.items) (register_of self.old.register) (register_of self.new.register) }
        ensures messages { self.new.messages ≡ self.old.messages }
    {
        let Some(index) = index else {
            return;
        };
        let Some(message) = self.messages.get(index) else {
            return;
        };
        self.register
            .receive(self.alloc, &message.transaction, &message.bytes);
    }

    /// The message that is due comes, where one is.
    pub fn settle(&mut self)
        ensures goes { Goes any_owner (is_sent self.new.messages.items) (register_of self.old.register) (register_of self.new.register) }
        ensures messages { self.new.messages ≡ self.old.messages }
    {
        let due = self.due;
        self.due = None;
        self.deliver_late(due);
    }

    /// The message that was held back comes, where one was.
    fn deliver_held(&mut self)
        ensures goes { Goes any_owner (is_sent self.new.messages.items) (register_of self.old.register) (register_of self.new.register) }
        ensures messages { self.new.messages ≡ self.old.messages }
    {
        let held = self.held;
        self.held = None;
        self.deliver_late(held);
    }

    /// An owner with this nonce claims the register.
    fn deliver_claim(&mut self, nonce: u64)
        ensures goes { Goes any_owner (is_sent self.new.messages.items) (register_of self.old.register) (register_of self.new.register) }
        ensures messages { self.new.messages ≡ self.old.messages }
    {
        if let Some(claim) = Transaction::claim(self.register.owner, nonce) {
            self.register.receive(self.alloc, &claim, &[]);
        }
    }

    /// What comes before a message that is carried so, or a question.
    fn deliver_before(&mut self, delivery: Delivery)
        ensures goes { Goes any_owner (is_sent self.new.messages.items) (register_of self.old.register) (register_of self.new.register) }
        ensures messages { self.new.messages ≡ self.old.messages }
    {
        self.settle();
        match delivery {
            Delivery::BehindHeld => self.deliver_held(),
            Delivery::BehindClaim(nonce) => self.deliver_claim(nonce),
            _ => {}
        }
    }

    /// Notes which message comes before the next one, behind a message with this index that was carried so.
    fn note_due(&mut self, delivery: Delivery, index: usize)
        ensures register { self.new.register ≡ self.old.register }
        ensures messages { self.new.messages ≡ self.old.messages }
    {
        match delivery {
            Delivery::Twice => self.due = Some(index),
            Delivery::BeforeHeld => self.due = self.held,
            Delivery::Held => self.held = Some(index),
            _ => {}
        }
    }

    /// Keeps a message that is sent, and returns its index; `None` without memory.
    fn keep(&mut self, transaction: &Transaction, bytes: &[u8]) -> Option<usize>
        ensures register { self.new.register ≡ self.old.register }
        ensures sent { (m : Message) → is_sent self.new.messages.items m ≡ true
            → (m ≡ record { transaction = transaction.now; bytes = bytes.now }) ⊎ (is_sent self.old.messages.items m ≡ true) }
        ensures kept { (m : Message) → is_sent self.old.messages.items m ≡ true → is_sent self.new.messages.items m ≡ true }
        ensures last { IsSome result → is_sent self.new.messages.items (record { transaction = transaction.now; bytes = bytes.now }) ≡ true }
    {
        let Ok(bytes) = Vec::from_slice(self.alloc, bytes) else {
            return None;
        };
        let index = self.messages.len();
        let message = MemoryMessage {
            transaction: *transaction,
            bytes,
        };
        let Ok(()) = self.messages.push(message) else {
            return None;
        };
        Some(index)
    }

    /// Carries a message that was sent to the register, and its answer back.
    fn carry(&mut self, delivery: Delivery, transaction: &Transaction, bytes: &[u8]) -> Answer
        requires sent { is_sent self.old.messages.items (record { transaction = transaction.now; bytes = bytes.now }) ≡ true }
        ensures goes { Exchanges any_owner (is_sent self.new.messages.items) (record { transaction = transaction.now; bytes = bytes.now })
            result (register_of self.old.register) (register_of self.new.register) }
        ensures messages { self.new.messages ≡ self.old.messages }
    {
        self.deliver_before(delivery);
        if is_lost(delivery) {
            return Answer::Missing;
        }
        let answer = self.register.receive(self.alloc, transaction, bytes);
        if delivery == Delivery::LostAnswer {
            return Answer::Missing;
        }
        answer
    }

    /// Carries a question; whether its answer comes back.
    fn ask(&mut self) -> bool
        ensures goes { Goes any_owner (is_sent self.new.messages.items) (register_of self.old.register) (register_of self.new.register) }
        ensures messages { self.new.messages ≡ self.old.messages }
    {
        let delivery = self.next_delivery();
        self.deliver_before(delivery);
        !is_lost(delivery) && delivery != Delivery::LostAnswer
    }
}

/// Whether a message that is carried so doesn't come now.
fn is_lost(delivery: Delivery) -> bool {
    matches!(delivery, Delivery::LostRequest | Delivery::Held)
}

impl Engine for MemoryEngine {
    ghost use Rattle.std.specs.Prelude.{Some};
    ghost use Rattle.journal_remote.specs.Memory.{register_of, is_sent, any_owner};

    ghost register = { λ e. Some (register_of e.register) };

    ghost sends = { λ e. is_sent e.messages.items };

    ghost is_own = { λ _. any_owner };

    fn look(&mut self) -> Option<Look> {
        if !self.ask() {
            return None;
        }
        Some(Look {
            cluster: 1,
            revision: self.register.revision,
            owner: self.register.owner,
            head: self.register.head,
        })
    }

    fn transact(&mut self, transaction: &Transaction, bytes: &[u8]) -> Answer {
        let delivery = self.next_delivery();
        let Some(index) = self.keep(transaction, bytes) else {
            return Answer::Missing;
        };
        let answer = self.carry(delivery, transaction, bytes);
        self.note_due(delivery, index);
        answer
    }

    fn read_chunks(
        &mut self,
        from: ChunkKey,
        most: u64,
        bytes: &mut Vec<u8>,
    ) -> Result<u64, StorageFault> {
        if most == 0 || !self.ask() {
            return Err(StorageFault::Failed);
        }
        let Some(found) = self.register.chunk(from) else {
            return Err(StorageFault::Failed);
        };
        bytes.extend_from_slice(found)?;
        Ok(1)
    }
}
