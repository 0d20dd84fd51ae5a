//! The verdict on a rule: its status, its measure and the devices that it counts.
use mds_text::Id;

/// The status of a rule in this project's compliance report.
#[derive(Clone, Copy, Debug, PartialEq, Eq)]
pub enum Status {
    /// The rule is of a kind that isn't evaluated.
    NotEvaluated,
    /// The rule isn't open at the local time.
    Inactive,
    /// The vehicles comply with the rule.
    Ok,
    /// The rule is violated.
    Violated,
}

/// The most devices that a verdict lists.
pub const MOST_DEVICES: usize = 100;

/// The verdict on one rule.
#[derive(Drop)]
pub struct RuleVerdict {
    /// The rule's identifier.
    pub rule: Id,
    /// The status of the rule.
    pub status: Status,
    /// For a count rule, the number of vehicles that it catches; for a time rule, the number of
    /// those whose time in their state is outside the bounds; 0 for a rule that isn't evaluated or
    /// isn't open.
    pub measure: u64,
    /// The identifiers of the first `MOST_DEVICES` vehicles that the measure of a violated rule
    /// counts, ascending; none for any other rule.
    pub devices: Vec<Id>,
}
