//! Log ends behind more records.
ghost use Rattle.std.specs.Prelude.{◌≡◌, ℕ, List, length, map, IfOk, OnOk};
ghost use Rattle.journal_file.specs.Groups.{listed};
ghost use Rattle.journal_remote.specs.Ends.{EndsBehind, no_end};

use journal_file::{LogEnd, Record, StorageFault, is_plain, read};
use std::alloc::Global;

/// Where a list of no payloads ends.
const NO_END: LogEnd = LogEnd {
    position: 0,
    sum: 0,
    count: 0,
};

/// How many records are no marks.
fn plain_count(records: &[Record<'_>]) -> usize
    ensures { result ≡ length (listed (map (λ x. x.text.now) records.now)) }
{
    let mut count: usize = 0;
    for record in records {
        if is_plain(record.text) {
            count += 1;
        }
    }
    count
}

/// Where a list ends that ended so before these bytes, which are whole records.
///
/// # Errors
///
/// `Failed` where they aren't, or counts are used up; `NoMemory`.
pub(crate) fn end_behind(alloc: Global, from: LogEnd, bytes: &[u8]) -> Result<LogEnd, StorageFault>
    ensures { IfOk result (λ to. EndsBehind from bytes.now to) }
{
    let found = read(alloc, from.sum, bytes)?;
    let count = plain_count(&found.records) as u64;
    if found.whole != bytes.len()
        || from.position > u64::MAX - bytes.len() as u64
        || from.count > u64::MAX - count
    {
        return Err(StorageFault::Failed);
    }
    Ok(LogEnd {
        position: from.position + bytes.len() as u64,
        sum: found.sum,
        count: from.count + count,
    })
}

/// Checks that a journal's bytes are whole records, and that their list ends so.
///
/// # Errors
///
/// `Failed` where they aren't, or it doesn't; `NoMemory`.
pub(crate) fn check_end(alloc: Global, bytes: &[u8], end: LogEnd) -> Result<(), StorageFault>
    ensures { OnOk result (EndsBehind no_end bytes.now end) }
{
    let found = end_behind(alloc, NO_END, bytes)?;
    if found.position != end.position || found.sum != end.sum || found.count != end.count {
        return Err(StorageFault::Failed);
    }
    Ok(())
}
