//! When a journal is compacted: by its size in bytes.
ghost use Rattle.std.specs.Prelude.{◌≡◌, true, false};
ghost use Rattle.journal_swap.specs.Schedule.{is_due, due_after, due_again, is_little};

/// Whether a journal of so many bytes is to be compacted: beyond `due`; never, where the least growth is 0.
pub fn is_due(at_least: u64, due: u64, bytes: u64) -> bool
    ensures { result ≡ is_due at_least due bytes }
{
    at_least != 0 && bytes > due
}

/// The size in bytes beyond which a journal that was compacted to so many bytes is compacted again.
pub fn due_after(at_least: u64, bytes: u64) -> u64
    ensures { result ≡ due_after at_least bytes }
{
    bytes.saturating_mul(3).saturating_add(at_least)
}

/// The size in bytes beyond which compaction is tried again, of a journal that had so many when it failed.
pub fn due_again(bytes: u64) -> u64
    ensures { result ≡ due_again bytes }
{
    bytes.saturating_mul(2)
}

/// The most bytes that a compacted log may lack when it takes the log's place: 1 MiB.
const SMALL_LAG: u64 = 1_048_576;

/// Whether a compacted log that lacks so many bytes may take the log's place.
pub fn is_small_lag(bytes: u64) -> bool
    ensures { result ≡ is_little bytes }
{
    bytes <= SMALL_LAG
}

/// The compaction schedule of a journal.
#[derive(Clone, Copy, Debug, PartialEq, Eq)]
pub struct CompactionSchedule {
    /// The least growth, in bytes, after which it is compacted; 0 for never.
    at_least: u64,
    /// The size in bytes beyond which it is compacted next.
    due: u64,
}

impl CompactionSchedule {
    /// The schedule of a journal whose last compaction isn't known: it is compacted once it is beyond the least growth.
    pub fn new(at_least: u64) -> CompactionSchedule
        ensures least { result.at_least ≡ at_least }
        ensures due { result.due ≡ at_least }
    {
        CompactionSchedule {
            at_least,
            due: at_least,
        }
    }

    /// Whether a journal of so many bytes is to be compacted.
    pub fn is_due(&self, bytes: u64) -> bool
        ensures { result ≡ is_due self.now.at_least self.now.due bytes }
    {
        is_due(self.at_least, self.due, bytes)
    }

    /// Compaction of the journal was tried, and the journal has so many bytes now.
    pub fn record_attempt(&mut self, is_thinned: bool, bytes: u64)
        ensures thinned { is_thinned ≡ true → self.new.due ≡ due_after self.old.at_least bytes }
        ensures failed { is_thinned ≡ false → self.new.due ≡ due_again bytes }
        ensures least { self.new.at_least ≡ self.old.at_least }
    {
        self.due = if is_thinned {
            due_after(self.at_least, bytes)
        } else {
            due_again(bytes)
        };
    }
}
