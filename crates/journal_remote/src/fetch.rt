//! Reading all that stands below a head.
ghost use Rattle.std.specs.Prelude.{◌≡◌, ℕ, List, true, Some, IfOk};
ghost use Rattle.journal_register.specs.Register.{Register, Message};
ghost use Rattle.journal_remote.specs.Ends.{EndsBehind, no_end};
ghost use Rattle.journal_remote.specs.Joined.{Joins};
ghost use Rattle.journal_remote.specs.Kept.{AreSettled, is_current};
ghost use Rattle.journal_remote.specs.Passing.{Between, Goes};

use crate::end::check_end;
use crate::engine::Engine;
use crate::send::look;
use crate::tenure::Tenure;
use journal_file::StorageFault;
use journal_register::ChunkKey;
use std::alloc::Global;

/// The bytes of all chunks below the head, where a look that follows shows the same owner and head.
///
/// # Errors
///
/// `Failed` where something wasn't answered, a chunk is missing, another owner has come, or the bytes aren't whole
/// records whose list ends where the head says; `NoMemory`.
pub(crate) fn fetch<E: Engine>(
    alloc: Global,
    engine: &mut E,
    tenure: Tenure,
    tries: u32,
) -> Result<Vec<u8>, StorageFault>
    requires own { E.is_own engine.old tenure.owner ≡ true }
    requires settled { AreSettled (E.sends engine.old) tenure.owner tenure.head }
    requires current { (k : Register) → E.register engine.old ≡ Some k → is_current tenure.owner tenure.head k ≡ true }
    ensures goes { Between (E.register engine.old) (E.register engine.new) (Goes (E.is_own engine.old) (E.sends engine.new)) }
    ensures ended { IfOk result (λ v. EndsBehind no_end v.items tenure.head.extent.end) }
    ensures joined { IfOk result (λ v. (k : Register) → E.register engine.old ≡ Some k → Joins (k.chunk tenure.head.extent.generation) tenure.head.extent.chunks v.items) }
    ensures joins { IfOk result (λ v. (k : Register) → E.register engine.new ≡ Some k → Joins (k.chunk tenure.head.extent.generation) tenure.head.extent.chunks v.items) }
    ensures sent { E.sends engine.new ≡ E.sends engine.old }
    ensures own { E.is_own engine.new ≡ E.is_own engine.old }
{
    let extent = tenure.head.extent;
    let mut bytes = Vec::new(alloc);
    let mut index: u64 = 0;
    'chunks: while index < extent.chunks {
        let from = ChunkKey {
            generation: extent.generation,
            index,
        };
        let count = engine.read_chunks(from, extent.chunks - index, &mut bytes)?;
        index += count;
    }
    let Some(seen) = look(engine, tries) else {
        return Err(StorageFault::Failed);
    };
    if !tenure.is_shown(&seen) {
        return Err(StorageFault::Failed);
    }
    check_end(alloc, &bytes, extent.end)?;
    Ok(bytes)
}
