//! The samples of a rule's local days.
ghost use Rattle.std.specs.Prelude.{◌≡◌, ◌+◌, ◌-◌, ◌^◌, ◌≤◌, ◌<◌, ◌∷◌, drop, if◌then◌else◌, length, map, slice_index_or, take, IfOk};
ghost use Rattle.cli_report.specs.Days.{IsOrdered, day_sample, grouped, greatest_measure, least_measure, lesser};
ghost use Rattle.cli_report.specs.Days.{is_beside, is_judged, is_violated, longest, open_ones, violations};

use cli_calendar::day_at;
use journal_samples::RuleSample;
use mds_match::Zone;
use mds_text::{Id, Moment};
use mds_verdict::Status;
use std::alloc::{AllocError, Global};

/// A sample with its local day. Samples are ordered by policy, rule and day, then by moment.
#[derive(Clone, Copy, PartialEq, Eq, PartialOrd, Ord)]
pub(crate) struct DaySample {
    /// The policy's identifier.
    pub(crate) policy: Id,
    /// The rule's number in the policy, counted from 0.
    pub(crate) number: usize,
    /// The local day, counted from 29 December 1969.
    pub(crate) day: u64,
    /// The moment.
    pub(crate) at: Moment,
    /// The rule's identifier.
    pub(crate) rule: Id,
    /// Whether the rule was violated.
    pub(crate) violated: bool,
    /// Whether the rule was open and is evaluated.
    pub(crate) judged: bool,
    /// The rule's measure.
    pub(crate) measure: u64,
}

/// Whether this is the status of a violated rule.
fn is_violated(status: Status) -> bool
    ensures { result ≡ is_violated status }
{
    status == Status::Violated
}

/// Whether this is the status of a rule that was open and is evaluated.
fn is_judged(status: Status) -> bool
    ensures { result ≡ is_judged status }
{
    matches!(status, Status::Ok | Status::Violated)
}

/// A sample with its local day in a zone.
fn day_sample(zone: &Zone, sample: &RuleSample) -> DaySample
    ensures { result ≡ day_sample zone.now sample.now }
{
    DaySample {
        policy: sample.policy,
        number: sample.number,
        day: day_at(zone, sample.at),
        at: sample.at,
        rule: sample.rule,
        violated: is_violated(sample.status),
        judged: is_judged(sample.status),
        measure: sample.measure,
    }
}

/// Samples with their local days.
fn day_samples(
    alloc: Global,
    zone: &Zone,
    samples: &[RuleSample],
) -> Result<Vec<DaySample>, AllocError>
    ensures { IfOk result (λ v. v.items ≡ map (day_sample zone.now) samples.now) }
{
    let mut days = Vec::with_capacity(alloc, samples.len())?;
    for sample in samples {
        days.push(day_sample(zone, sample))?;
    }
    Ok(days)
}

/// Samples with their local days, in order.
///
/// # Errors
///
/// Out of memory.
pub(crate) fn ordered_days(
    alloc: Global,
    zone: &Zone,
    samples: &[RuleSample],
) -> Result<Vec<DaySample>, AllocError>
    ensures { IfOk result (λ v. IsOrdered (map (day_sample zone.now) samples.now) v.items) }
{
    let mut days = day_samples(alloc, zone, samples)?;
    days.sort()?;
    Ok(days)
}

/// The first of some samples.
pub(crate) fn first_of(samples: &[DaySample]) -> &DaySample
    requires { 0 < length samples.now }
    ensures { result.now ≡ slice_index_or samples.now 0 result.now }
{
    &samples[0]
}

/// The last of some samples.
pub(crate) fn last_of(samples: &[DaySample]) -> &DaySample
    requires { 0 < length samples.now }
    ensures { result.now ≡ slice_index_or samples.now (length samples.now - 1) result.now }
{
    &samples[samples.len() - 1]
}

/// So many samples, from the first one on.
pub(crate) fn front_of(samples: &[DaySample], count: usize) -> &[DaySample]
    requires { count ≤ length samples.now }
    ensures { result.now ≡ take count samples.now }
{
    &samples[..count]
}

/// The samples behind so many.
pub(crate) fn rest_of(samples: &[DaySample], count: usize) -> &[DaySample]
    requires { count ≤ length samples.now }
    ensures { result.now ≡ drop count samples.now }
{
    &samples[count..]
}

/// Whether two samples are of the same rule and day.
fn is_beside(one: &DaySample, other: &DaySample) -> bool
    ensures { result ≡ is_beside one.now other.now }
{
    one.policy == other.policy && one.number == other.number && one.day == other.day
}

/// How many samples, from the first one on, are of one rule and day.
pub(crate) fn count_first(samples: &[DaySample]) -> usize
    requires { 0 < length samples.now }
    ensures group { grouped samples.now ≡ take result samples.now ∷ grouped (drop result samples.now) }
    ensures some { 0 < result }
    ensures within { result ≤ length samples.now }
{
    for last in 0..samples.len() - 1 {
        if !is_beside(&samples[last], &samples[last + 1]) {
            return last + 1;
        }
    }
    samples.len()
}

/// How long a run is with a sample in front of it: none where that isn't violated.
fn run_with(sample: &DaySample, run: usize) -> usize
    requires { run + 1 < 2 ^ 64 }
    ensures { result ≡ (if sample.now.violated then run + 1 else 0) }
{
    if sample.violated { run + 1 } else { 0 }
}

/// The longest run of violated samples in a row; of runs as long the first.
pub(crate) fn longest_run(samples: &[DaySample]) -> &[DaySample]
    ensures { result.now ≡ longest samples.now }
{
    let mut left = samples.len();
    let mut leading = 0;
    let mut first = left;
    let mut count = 0;
    while left > 0 {
        left -= 1;
        let run = run_with(&samples[left], leading);
        leading = run;
        if count <= leading {
            first = left;
            count = leading;
        }
    }
    &samples[first..first + count]
}

/// The violated ones of these samples.
///
/// # Errors
///
/// Out of memory.
pub(crate) fn violations(alloc: Global, samples: &[DaySample]) -> Result<Vec<DaySample>, AllocError>
    ensures { IfOk result (λ v. v.items ≡ violations samples.now) }
{
    let mut found = Vec::new(alloc);
    for sample in samples {
        if sample.violated {
            found.push(*sample)?;
        }
    }
    Ok(found)
}

/// The greatest measure of these samples; 0 where there are none.
pub(crate) fn greatest_measure(samples: &[DaySample]) -> u64
    ensures { result ≡ greatest_measure samples.now }
{
    let mut most = 0;
    for sample in samples {
        most = sample.measure.max(most);
    }
    most
}

/// The samples in which the rule was open: others have no measure.
///
/// # Errors
///
/// Out of memory.
pub(crate) fn open_ones(alloc: Global, samples: &[DaySample]) -> Result<Vec<DaySample>, AllocError>
    ensures { IfOk result (λ v. v.items ≡ open_ones samples.now) }
{
    let mut found = Vec::new(alloc);
    for sample in samples {
        if sample.judged {
            found.push(*sample)?;
        }
    }
    Ok(found)
}

/// The lesser one of a measure and of one before it, where there is one.
fn lesser(known: Option<u64>, measure: u64) -> u64
    ensures { result ≡ lesser known measure }
{
    match known {
        Some(least) => measure.min(least),
        None => measure,
    }
}

/// The least measure of these samples, where there are any.
pub(crate) fn least_measure(samples: &[DaySample]) -> Option<u64>
    ensures { result ≡ least_measure samples.now }
{
    let mut least: Option<u64> = None;
    for sample in samples {
        least = Some(lesser(least, sample.measure));
    }
    least
}
