//! Log ends: where a log's list ends in its file, and the payloads between two such ends.
ghost use Rattle.std.specs.Prelude.{◌≡◌, ◌++◌, [], ℕ, List, map, IfOk};
ghost use Rattle.journal_file.specs.LogEnds.{IsSealed};

use crate::journal::plain_texts;
use crate::log::{Log, ReadFault};
use crate::reading::read;
use std::alloc::Global;

/// A log end: where a log's list ends in its file. Two lists with the same log end are taken to be one, as with a file:
/// assuming no checksum collision.
#[derive(Clone, Copy, Debug, PartialEq, Eq)]
pub struct LogEnd {
    /// Where the records end, in bytes.
    pub position: u64,
    /// The checksum there.
    pub sum: u64,
    /// How many payloads the list has.
    pub count: u64,
}

impl LogEnd {
    /// The log end of an empty list, in an empty file.
    pub fn of_empty_log() -> LogEnd
        ensures { IsSealed result [] }
    {
        LogEnd {
            position: 0,
            sum: 0,
            count: 0,
        }
    }
}

/// A log that reports its log end.
pub trait HasLogEnd: Log {
    ghost use Rattle.std.specs.Prelude.{ℕ, List};
    ghost use Rattle.journal_file.specs.LogEnds.{IsSealed};

    /// Where the list ends in its file.
    fn log_end(&self) -> LogEnd
        ensures { (list : List (List ℕ)) → Self.may_be self.now list → IsSealed result list };
}

/// The payloads from one log end up to another, in the bytes of the file between the two positions.
///
/// # Errors
///
/// `Damaged` where the bytes differ from what the second log end says, `NoMemory`.
pub fn texts_between(
    alloc: Global,
    from: LogEnd,
    to: LogEnd,
    bytes: &[u8],
) -> Result<Vec<Vec<u8>>, ReadFault>
    ensures { IfOk result (λ more. (list : List (List ℕ)) → IsSealed from list → IsSealed to (list ++ map (λ v. v.items) more.items)) }
{
    if to.position < from.position || to.count < from.count {
        return Err(ReadFault::Damaged);
    }
    let found = read(alloc, from.sum, bytes)?;
    let texts = plain_texts(alloc, &found.records)?;
    if found.whole as u64 != to.position - from.position || found.whole != bytes.len() {
        return Err(ReadFault::Damaged);
    }
    if found.sum != to.sum || texts.len() as u64 != to.count - from.count {
        return Err(ReadFault::Damaged);
    }
    Ok(texts)
}
