//! A log whose file is replaced by a compacted one while it is appended to, and when that is due.
#![tactic(auto)]

mod catch_up_buffer;
mod compacted_log;
mod compaction_source;
mod equivalence;
mod handoff;
mod schedule;
mod swap_log;

pub use compacted_log::{CatchUpFault, CompactedLog};
pub use compaction_source::{CompactionSource, ReplaceFault};
pub use equivalence::Equivalence;
pub use handoff::Handoff;
pub use schedule::{CompactionSchedule, due_after, due_again, is_due, is_small_lag};
pub use swap_log::SwapLog;
