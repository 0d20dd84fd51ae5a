//! The compaction side of a log whose file is replaced.

use crate::compacted_log::CompactedLog;
use crate::equivalence::Equivalence;
use journal_file::{HasLogEnd, LogEnd};

/// It isn't known which file stands in the log's place.
#[derive(Clone, Copy, Debug, PartialEq, Eq)]
pub struct ReplaceFault;

/// The compaction side of a log: where compacted logs come from, and the file that one replaces.
pub trait CompactionSource<L: HasLogEnd, P: Equivalence>: Drop {
    /// The compacted log that is ready to replace this one, if there is one. It is returned once.
    fn take_ready(&mut self) -> Option<CompactedLog<L, P>>;

    /// Puts the compacted log's file in the log's place atomically, and waits until the disk has it so. After an error
    /// either file may stand there.
    fn replace(&mut self, log: &L) -> Result<(), ReplaceFault>
        requires { L.is_synced log.now };

    /// A compacted log was ready, and took the log's place or didn't; the log has so many bytes now.
    fn on_swap_tried(&mut self, is_exchanged: bool, bytes: u64);

    /// The log was synced up to this log end. Returns whether copies of what is appended from here on are to be kept
    /// for a compacted log.
    fn on_synced(&mut self, seal: LogEnd) -> bool;
}
