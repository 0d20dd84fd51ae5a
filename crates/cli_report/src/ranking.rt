//! The rules of an operator, the most often violated one first.
ghost use Rattle.std.specs.Prelude.{◌≡◌, ◌∷◌, ◌+◌, ◌^◌, ◌<◌, ◌≤◌, drop, length, map, take, IfOk, OnOk};
ghost use Rattle.cli_report.specs.Days.{grouped_by, is_of_rule};
ghost use Rattle.cli_report.specs.Ranks.{AreRanked, IsRanked, samples_of, span_of, span_view, spans};

use crate::days::{DaySample, front_of, rest_of, violations};
use std::alloc::{AllocError, Global};
use std::cmp::Reverse;

/// Where the samples of a rule stand among samples in order. Rules are ordered by how many of their samples are violated,
/// the most first, then by their places.
#[derive(Clone, Copy, PartialEq, Eq, PartialOrd, Ord)]
pub(crate) struct RuleSpan {
    /// How many samples are violated.
    violated: Reverse<usize>,
    /// The index of the first sample.
    start: usize,
    /// The index behind the last sample.
    end: usize,
}

/// Whether two samples are of the same rule.
fn is_of_rule(one: &DaySample, other: &DaySample) -> bool
    ensures { result ≡ is_of_rule one.now other.now }
{
    one.policy == other.policy && one.number == other.number
}

/// How many samples, from the first one on, are of one rule.
fn count_of_rule(samples: &[DaySample]) -> usize
    requires { 0 < length samples.now }
    ensures group { grouped_by is_of_rule samples.now ≡ take result samples.now ∷ grouped_by is_of_rule (drop result samples.now) }
    ensures some { 0 < result }
    ensures within { result ≤ length samples.now }
{
    for last in 0..samples.len() - 1 {
        if !is_of_rule(&samples[last], &samples[last + 1]) {
            return last + 1;
        }
    }
    samples.len()
}

/// The rule of these samples, of which the first one stands at an index.
fn span_of(alloc: Global, start: usize, samples: &[DaySample]) -> Result<RuleSpan, AllocError>
    requires { start + length samples.now < 2 ^ 64 }
    ensures { IfOk result (λ rule. span_view rule ≡ span_of start samples.now) }
{
    let violated = violations(alloc, samples)?.len();
    Ok(RuleSpan {
        violated: Reverse(violated),
        start,
        end: start + samples.len(),
    })
}

/// The rules of samples in order, in their order.
fn rules_in(alloc: Global, ordered: &[DaySample]) -> Result<Vec<RuleSpan>, AllocError>
    ensures { IfOk result (λ rules. map span_view rules.items ≡ spans ordered.now) }
{
    let mut rules = Vec::new(alloc);
    let mut left = ordered;
    'rules: while !left.is_empty() {
        let count = count_of_rule(left);
        let group = front_of(left, count);
        let rest = rest_of(left, count);
        let start = ordered.len() - left.len();
        let rule = span_of(alloc, start, group)?;
        rules.push(rule)?;
        left = rest;
    }
    Ok(rules)
}

/// Orders rules, the most often violated one first; of those that are as often, the one that stands first.
fn rank(rules: &mut Vec<RuleSpan>) -> Result<(), AllocError>
    ensures { OnOk result (IsRanked rules.old.items rules.new.items) }
{
    rules.sort()
}

/// The rules of samples in order, the most often violated one first.
///
/// # Errors
///
/// Out of memory.
pub(crate) fn ranked_rules(
    alloc: Global,
    ordered: &[DaySample],
) -> Result<Vec<RuleSpan>, AllocError>
    ensures { IfOk result (λ rules. AreRanked ordered.now rules.items) }
{
    let mut rules = rules_in(alloc, ordered)?;
    rank(&mut rules)?;
    Ok(rules)
}

/// The samples of a rule among samples in order.
#[tactic(auto, using(std::proofs::lemmas::List::take_min, std::proofs::lemmas::List::drop_min))]
pub(crate) fn samples_of<'s>(ordered: &'s [DaySample], rule: &RuleSpan) -> &'s [DaySample]
    ensures { result.now ≡ samples_of ordered.now rule.now }
{
    let rest = rest_of(ordered, rule.start.min(ordered.len()));
    let count = rule.end.saturating_sub(rule.start);
    front_of(rest, count.min(rest.len()))
}
