//! What a journal takes of its room in etcd.
ghost use Rattle.std.specs.Prelude.{◌≡◌};

use journal_commit::{NoRoom, Space};
use journal_remote::{LogBudget, LogUsage};
use std::sync::Arc;
use std::sync::atomic::{AtomicU64, Ordering};

/// The room of a journal in etcd: what it has, as its storage counts it, and what is reserved are within a budget.
#[derive(Drop)]
pub struct RegisterRoom {
    budget: LogBudget,
    position: Arc<AtomicU64>,
    /// How many bytes are reserved.
    pub aside: u64,
}

impl RegisterRoom {
    /// The room of a journal whose bytes are counted at `position`; nothing is reserved.
    pub fn new(budget: LogBudget, position: Arc<AtomicU64>) -> RegisterRoom
        ensures { result.aside ≡ 0 }
    {
        RegisterRoom {
            budget,
            position,
            aside: 0,
        }
    }
}

impl Space for RegisterRoom {
    ghost aside = { λ s. s.aside };

    fn set_aside(&mut self, bytes: u64) -> Result<(), NoRoom> {
        let usage = LogUsage {
            current: self.position.load(Ordering::SeqCst),
            left: 0,
            staged: 0,
            reserved: self.aside,
        };
        if bytes > u64::MAX - self.aside || !self.budget.has_room(&usage, bytes) {
            return Err(NoRoom);
        }
        self.aside += bytes;
        Ok(())
    }

    fn give_back(&mut self, bytes: u64) {
        self.aside -= bytes;
    }
}
