//! How much room a journal may take in etcd.
ghost use Rattle.std.specs.Prelude.{◌≡◌};
ghost use Rattle.journal_remote.specs.Budget.{budget_within, usage_of, has_room};

use journal_register::Head;

/// The most bytes that a register's chunks may have together. What would pass it is refused before anything changes.
/// So etcd doesn't come to its own alarm, behind which it takes no put: an append is lost then, and a claim too.
#[derive(Clone, Copy, Debug, PartialEq, Eq)]
pub struct LogBudget {
    /// The most bytes.
    pub most: u64,
}

/// How many bytes a register's chunks have, and how many are reserved.
#[derive(Clone, Copy, Debug, PartialEq, Eq)]
pub struct LogUsage {
    /// Those of the head's generation.
    pub current: u64,
    /// Those of the generation that the head has left, until they are deleted.
    pub left: u64,
    /// Those of a generation that is being made.
    pub staged: u64,
    /// What is reserved for appends that wait.
    pub reserved: u64,
}

impl LogUsage {
    /// What a register's chunks take by its head.
    pub fn of(head: &Head, is_left_deleted: bool, staged: u64, reserved: u64) -> LogUsage
        ensures { result ≡ usage_of head.now is_left_deleted staged reserved }
    {
        let left = if is_left_deleted {
            0
        } else {
            head.switch.from.end.position
        };
        LogUsage {
            current: head.extent.end.position,
            left,
            staged,
            reserved,
        }
    }
}

impl LogBudget {
    /// A budget of so many bytes, where etcd's quota is this. `None` where that is less than twice as many: the quota is
    /// of etcd's file, which has more bytes than the chunks, and doesn't shrink where some are deleted.
    pub fn within(most: u64, quota: u64) -> Option<LogBudget>
        ensures { result ≡ budget_within most quota }
    {
        if most > quota || most > quota - most {
            return None;
        }
        Some(LogBudget { most })
    }

    /// Whether so many bytes more may be reserved for an append.
    pub fn has_room(self, usage: &LogUsage, more: u64) -> bool
        ensures { result ≡ has_room self usage.now more }
    {
        let used = usage.current as u128
            + usage.left as u128
            + usage.staged as u128
            + usage.reserved as u128;
        used + more as u128 <= self.most as u128
    }
}
