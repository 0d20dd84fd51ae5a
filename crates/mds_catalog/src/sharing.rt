//! Further lists of a catalogue's batches and entries, with room for more.
ghost use Rattle.std.specs.Prelude.{◌≡◌, ◌≤◌, vec_capacity, IfOk};
ghost use Rattle.mds_catalog.specs.Publication.{publications_in};

use crate::batch::Batch;
use std::alloc::{AllocError, Global};
use std::sync::Arc;

/// Further references to these batches, with memory for at least `most` of them.
///
/// # Errors
///
/// Out of memory, or no further reference could be made.
pub(crate) fn share_batches(
    alloc: Global,
    most: usize,
    batches: &[Arc<Batch>],
) -> Result<Vec<Arc<Batch>>, AllocError>
    ensures same { IfOk result (λ v. publications_in v.items ≡ publications_in batches.now) }
    ensures room { IfOk result (λ v. most ≤ vec_capacity v) }
{
    let mut shared = Vec::with_capacity(alloc, most)?;
    for batch in batches {
        let share = Arc::try_clone(batch)?;
        match shared.push(share) {
            Ok(()) => {}
            Err(_) => return Err(AllocError),
        }
    }
    Ok(shared)
}

/// A copy of these entries, with memory for at least `most` of them.
///
/// # Errors
///
/// Out of memory.
pub(crate) fn copy_entries<T: Copy>(
    alloc: Global,
    most: usize,
    entries: &[T],
) -> Result<Vec<T>, AllocError>
    ensures same { IfOk result (λ v. v.items ≡ entries.now) }
    ensures room { IfOk result (λ v. most ≤ vec_capacity v) }
{
    let mut copy = Vec::with_capacity(alloc, most)?;
    copy.extend_from_slice(entries)?;
    Ok(copy)
}
