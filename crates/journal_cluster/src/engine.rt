//! An engine over a cluster's gateway.
ghost use Rattle.std.specs.Prelude.{◌≡◌};
ghost use Rattle.journal_cluster.specs.Faults.{storage_fault_of};

use crate::answer::answer_by;
use crate::fault::ClusterFault;
use journal_etcd::{
    ChunkRun, GatewayPath, Keys, chunks_request, look_request, read_chunks, read_look,
    read_transaction, transaction_request,
};
use journal_file::StorageFault;
use journal_gateway::{Dial, Gateway};
use journal_register::{Answer, ChunkKey, Look, Transaction};
use journal_remote::Engine;
use std::alloc::Global;

/// The most chunks that are asked for at once: 1 MB, which a slow network carries in the time for an answer too.
pub const MOST_CHUNKS: u64 = 4;

/// An engine over a cluster's gateway, for the register whose keys begin with a prefix.
#[derive(Drop)]
pub struct ClusterEngine<'a, D: Dial> {
    alloc: Global,
    gateway: Gateway<'a, D>,
    prefix: &'a str,
    /// Why nothing that decides came back of what was sent last.
    fault: Option<ClusterFault>,
}

impl<'a, D: Dial> ClusterEngine<'a, D> {
    /// The engine of a register, as `ruffletuff/portland`.
    pub fn new(alloc: Global, gateway: Gateway<'a, D>, prefix: &'a str) -> ClusterEngine<'a, D> {
        ClusterEngine {
            alloc,
            gateway,
            prefix,
            fault: None,
        }
    }

    /// Why nothing that decides came back of what was sent last; `None` where it was answered.
    pub fn last_fault(&self) -> Option<ClusterFault> {
        self.fault
    }

    /// Looks.
    ///
    /// # Errors
    ///
    /// Why nothing that can be read came back.
    fn ask_look(&mut self) -> Result<Look, ClusterFault> {
        let keys = Keys {
            prefix: self.prefix,
        };
        let body = look_request(self.alloc, &keys)?;
        let path = GatewayPath::Range.as_str();
        let answer = self.gateway.post(path, body.as_str().as_bytes())?;
        Ok(read_look(self.alloc, &keys, &answer)?)
    }

    /// Sends a transaction, with the bytes of the chunk that it puts.
    ///
    /// # Errors
    ///
    /// Why nothing that decides came back.
    fn ask_transaction(
        &mut self,
        transaction: &Transaction,
        bytes: &[u8],
    ) -> Result<Answer, ClusterFault> {
        let keys = Keys {
            prefix: self.prefix,
        };
        let body = transaction_request(self.alloc, &keys, transaction, bytes)?;
        let path = GatewayPath::Transaction.as_str();
        let answer = self.gateway.post(path, body.as_str().as_bytes())?;
        let read = read_transaction(self.alloc, &keys, transaction, &answer)?;
        Ok(answer_by(&read))
    }

    /// Asks for the chunks from this one on, so many at most.
    ///
    /// # Errors
    ///
    /// Why nothing that can be read came back.
    fn ask_chunks(&mut self, from: ChunkKey, most: u64) -> Result<ChunkRun, ClusterFault> {
        let keys = Keys {
            prefix: self.prefix,
        };
        let body = chunks_request(self.alloc, &keys, from, most)?;
        let path = GatewayPath::Range.as_str();
        let answer = self.gateway.post(path, body.as_str().as_bytes())?;
        Ok(read_chunks(self.alloc, &keys, from, most, &answer)?)
    }
}

/// The fault as the journal's storage has it.
fn storage_fault_of(fault: ClusterFault) -> StorageFault
    ensures { result ≡ storage_fault_of fault }
{
    match fault {
        ClusterFault::NoMemory => StorageFault::NoMemory,
        _ => StorageFault::Failed,
    }
}

/// Of a register that a cluster keeps nothing is known, and so nothing of what comes to it: that it does what the clauses
/// of `Engine` say of one that is known is the premise.
impl<D: Dial> Engine for ClusterEngine<'_, D> {
    ghost use Rattle.std.specs.Prelude.{true, false, None};

    ghost register = { λ _. None };

    ghost sends = { λ _ _. false };

    ghost is_own = { λ _ _. true };

    fn look(&mut self) -> Option<Look> {
        match self.ask_look() {
            Ok(look) => {
                self.fault = None;
                Some(look)
            }
            Err(fault) => {
                self.fault = Some(fault);
                None
            }
        }
    }

    fn transact(&mut self, transaction: &Transaction, bytes: &[u8]) -> Answer {
        match self.ask_transaction(transaction, bytes) {
            Ok(answer) => {
                self.fault = None;
                answer
            }
            Err(fault) => {
                self.fault = Some(fault);
                Answer::Missing
            }
        }
    }

    fn read_chunks(
        &mut self,
        from: ChunkKey,
        most: u64,
        bytes: &mut Vec<u8>,
    ) -> Result<u64, StorageFault> {
        let run = match self.ask_chunks(from, most.min(MOST_CHUNKS)) {
            Ok(run) => run,
            Err(fault) => {
                self.fault = Some(fault);
                return Err(storage_fault_of(fault));
            }
        };
        self.fault = None;
        if run.count == 0 || run.count > most {
            return Err(StorageFault::Failed);
        }
        bytes.extend_from_slice(&run.bytes)?;
        Ok(run.count)
    }
}
