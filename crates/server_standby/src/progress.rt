//! The log of an owner, whose file nothing replaces.

use journal_file::{HasLogEnd, LogEnd};
use journal_swap::{CompactedLog, CompactionSource, Equivalence, ReplaceFault};
use server_control::{Counters, Figure};
use std::sync::Arc;

/// Counts the bytes and syncs of a journal in etcd, which isn't compacted while it is served.
#[derive(Drop)]
pub struct RegisterProgress {
    counters: Arc<Counters>,
}

impl RegisterProgress {
    /// Counts by these counters.
    pub fn new(counters: Arc<Counters>) -> RegisterProgress {
        RegisterProgress { counters }
    }
}

impl<L: HasLogEnd, P: Equivalence> CompactionSource<L, P> for RegisterProgress {
    fn take_ready(&mut self) -> Option<CompactedLog<L, P>> {
        None
    }

    fn replace(&mut self, _: &L) -> Result<(), ReplaceFault> {
        Err(ReplaceFault)
    }

    fn on_swap_tried(&mut self, _: bool, _: u64) {}

    fn on_synced(&mut self, seal: LogEnd) -> bool {
        self.counters.set(Figure::JournalBytes, seal.position);
        self.counters.add(Figure::Syncs, 1);
        false
    }
}
