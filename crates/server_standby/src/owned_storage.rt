//! The storage of an owner, which shows that it lives.
ghost use Rattle.std.specs.Prelude.{◌≡◌, IfOk};

use crate::clock::now_millis;
use journal_cluster::ClusterEngine;
use journal_file::{Storage, StorageFault};
use journal_gateway::Dial;
use journal_register::{Head, Outcome};
use journal_remote::{Engine, RemoteStorage, Tenure, is_beat_due};
use std::alloc::Global;
use std::sync::Arc;
use std::sync::atomic::{AtomicU64, Ordering};
use std::time::Clock;

/// How many times a transaction is sent, or a look made, where nothing that decides comes back: an owner goes on until it
/// is overtaken.
const TRIES: u32 = u32::MAX;

/// How many milliseconds an owner stays silent at the most, where it is asked to sync.
const BEAT_MILLIS: u64 = 1000;

/// The storage of a journal in a register that this process owns. A sync that comes a second or more behind the last
/// append or beat is a beat, which shows the owner as a look does, and shows others that it lives.
#[derive(Drop)]
pub struct OwnedStorage<'a, D: Dial, C: Drop> {
    alloc: Global,
    clock: C,
    /// `None` once a call has failed.
    engine: Option<ClusterEngine<'a, D>>,
    tenure: Tenure,
    /// Whether an append has shown the owner since the last sync.
    is_confirmed: bool,
    /// When the head moved last, by the clock.
    moved: u64,
    /// How many bytes the journal has, as others see it.
    position: Arc<AtomicU64>,
}

impl<'a, D: Dial, C: Clock + Drop> OwnedStorage<'a, D, C> {
    /// The storage of an owner that has claimed its register, and sent nothing else yet. The journal's bytes are counted
    /// at `position`.
    pub fn new(
        alloc: Global,
        clock: C,
        engine: ClusterEngine<'a, D>,
        tenure: Tenure,
        position: Arc<AtomicU64>,
    ) -> OwnedStorage<'a, D, C> {
        let moved = now_millis(&clock);
        position.store(tenure.head.extent.end.position, Ordering::SeqCst);
        OwnedStorage {
            alloc,
            clock,
            engine: Some(engine),
            tenure,
            is_confirmed: false,
            moved,
            position,
        }
    }
}

/// Shows by a beat that the owner lives, and that it still is the owner. Returns the head, which goes as far as before.
///
/// # Errors
///
/// `Failed` where the owner was overtaken, or beats are used up.
fn beat<D: Dial>(engine: &mut ClusterEngine<'_, D>, tenure: Tenure) -> Result<Head, StorageFault>
    ensures { IfOk result (λ head. head.extent ≡ tenure.head.extent) }
{
    let Some(beat) = tenure.beat() else {
        return Err(StorageFault::Failed);
    };
    let Some(head) = beat.new_head else {
        return Err(StorageFault::Failed);
    };
    'tries: for _ in 0..TRIES {
        match beat.outcome(engine.transact(&beat, &[])) {
            Outcome::Unknown => {}
            Outcome::Applied => return Ok(head),
            Outcome::Overtaken | Outcome::Elsewhere => return Err(StorageFault::Failed),
        }
    }
    Err(StorageFault::Failed)
}

impl<D: Dial, C: Clock + Drop> Storage for OwnedStorage<'_, D, C> {
    ghost use Rattle.journal_remote.specs.Ends.{EndsBehind, no_end};

    // Of a register that a cluster keeps nothing is known but where the head of its owner says that it ends.
    ghost holds = { λ s bytes. EndsBehind no_end bytes s.tenure.head.extent.end };

    ghost is_synced = { λ _. Unit {0} };

    fn read(&mut self, alloc: Global) -> Result<Vec<u8>, StorageFault> {
        let Some(engine) = self.engine.take() else {
            return Err(StorageFault::Failed);
        };
        let mut storage = RemoteStorage::new(self.alloc, engine, self.tenure, TRIES);
        let bytes = storage.read(alloc);
        self.engine = Some(storage.into_engine());
        bytes
    }

    fn append(&mut self, bytes: &[u8]) -> Result<(), StorageFault> {
        let Some(engine) = self.engine.take() else {
            return Err(StorageFault::Failed);
        };
        let mut storage = RemoteStorage::new(self.alloc, engine, self.tenure, TRIES);
        storage.append(bytes)?;
        self.tenure = storage.tenure();
        self.engine = Some(storage.into_engine());
        self.is_confirmed = true;
        self.moved = now_millis(&self.clock);
        let position = self.tenure.head.extent.end.position;
        self.position.store(position, Ordering::SeqCst);
        Ok(())
    }

    fn cut(&mut self, len: u64) -> Result<(), StorageFault> {
        if len == self.tenure.head.extent.end.position {
            Ok(())
        } else {
            Err(StorageFault::Failed)
        }
    }

    fn sync(&mut self) -> Result<(), StorageFault> {
        if self.is_confirmed {
            self.is_confirmed = false;
            return Ok(());
        }
        let now = now_millis(&self.clock);
        let Some(engine) = self.engine.take() else {
            return Err(StorageFault::Failed);
        };
        if is_beat_due(self.moved, now, BEAT_MILLIS) {
            let mut engine = engine;
            self.tenure.head = beat(&mut engine, self.tenure)?;
            self.moved = now;
            self.engine = Some(engine);
            return Ok(());
        }
        let mut storage = RemoteStorage::new(self.alloc, engine, self.tenure, TRIES);
        storage.sync()?;
        self.engine = Some(storage.into_engine());
        Ok(())
    }
}
