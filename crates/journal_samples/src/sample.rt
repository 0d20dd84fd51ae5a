//! The sample of a rule.
ghost use Rattle.std.specs.Prelude.{◌≡◌, ◌++◌, OnOk, map};
ghost use Rattle.mds_verdict.specs.Verdict.{verdict_document};
ghost use Rattle.journal_samples.specs.Samples.{policy_samples};

use mds_text::{Id, Moment};
use mds_verdict::{RuleVerdict, Status};
use std::alloc::AllocError;

/// How a rule of a policy in force stood for an operator at a moment.
#[derive(Clone, Copy)]
pub struct RuleSample {
    /// The moment, in milliseconds since the Unix epoch.
    pub at: Moment,
    /// The policy's identifier.
    pub policy: Id,
    /// The rule's number in the policy, counted from 0.
    pub number: usize,
    /// The rule's identifier.
    pub rule: Id,
    /// Its status, as a compliance report says it.
    pub status: Status,
    /// Its measure, as a compliance report says it: for a count rule the vehicles that it catches, for a time rule those
    /// whose time in their state is outside the bounds.
    pub measure: u64,
}

/// Appends the samples of a policy's rules.
pub(crate) fn push_policy(
    found: &mut Vec<RuleSample>,
    at: Moment,
    policy: Id,
    verdicts: &[RuleVerdict],
) -> Result<(), AllocError>
    ensures { OnOk result (found.new.items ≡ found.old.items ++ policy_samples at policy (map verdict_document verdicts.now)) }
{
    for (number, verdict) in verdicts.iter().enumerate() {
        found.push(RuleSample {
            at,
            policy,
            number,
            rule: verdict.rule,
            status: verdict.status,
            measure: verdict.measure,
        })?;
    }
    Ok(())
}
