//! Reading what stands below a head, by who doesn't own the register.
ghost use Rattle.std.specs.Prelude.{◌≡◌, IfOk};
ghost use Rattle.journal_remote.specs.Ends.{EndsBehind, no_end};

use crate::end::check_end;
use crate::engine::Engine;
use journal_file::StorageFault;
use journal_register::{ChunkKey, Head};
use std::alloc::Global;

/// The bytes of all chunks below a head that a look showed. They are whole records, whose list ends where the head says:
/// a chunk that was deleted since, or is another's, doesn't lead there.
///
/// # Errors
///
/// `Failed` where something wasn't answered, a chunk is missing, or the bytes don't end so; `NoMemory`.
pub fn read_below<E: Engine>(
    alloc: Global,
    engine: &mut E,
    head: Head,
) -> Result<Vec<u8>, StorageFault>
    ensures ended { IfOk result (λ v. EndsBehind no_end v.items head.extent.end) }
    ensures sent { E.sends engine.new ≡ E.sends engine.old }
    ensures own { E.is_own engine.new ≡ E.is_own engine.old }
{
    let extent = head.extent;
    let mut bytes = Vec::new(alloc);
    let mut index: u64 = 0;
    'chunks: while index < extent.chunks {
        let from = ChunkKey {
            generation: extent.generation,
            index,
        };
        let count = engine.read_chunks(from, extent.chunks - index, &mut bytes)?;
        index += count;
    }
    check_end(alloc, &bytes, extent.end)?;
    Ok(bytes)
}
