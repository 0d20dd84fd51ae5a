//! The last spell in which a rule was violated: since when, whenever it was open, and until when.
ghost use Rattle.std.specs.Prelude.{◌≡◌, ◌==◌, ◌&&◌, nat_le, nat_lt, is_some, IfOk};
ghost use Rattle.std.specs.List.{list_any};
ghost use Rattle.cli_report.specs.Since.{earlier, end_of, is_behind, is_kept, is_kept_behind, is_over, is_sampled_at};
ghost use Rattle.cli_report.specs.Since.{kept_by, last_kept, last_violated, later, may_be_before, spell_of, up_to};
ghost use Rattle.cli_report.specs.Since.{violated_by, violated_last, violated_since};

use crate::days::DaySample;
use crate::reported::ReportSpan;
use mds_text::Moment;
use std::alloc::{AllocError, Global};

/// How a spell in which a rule was violated ends.
#[derive(Clone, Copy)]
pub(crate) enum SpellEnd {
    /// It goes on at the report's last moment.
    Present,
    /// Behind it the rule was closed, or no longer in force, up to the report's last moment.
    Closed,
    /// The rule was kept later.
    Over,
}

/// A spell in which a rule was violated whenever it was open.
#[derive(Clone, Copy)]
pub(crate) struct Spell {
    /// The moment of its first violated sample.
    pub(crate) since: Option<Moment>,
    /// Whether it may have begun before the report did.
    pub(crate) is_before: bool,
    /// The moment of its last violated sample.
    pub(crate) until: Moment,
    /// How it ends.
    pub(crate) end: SpellEnd,
}

/// Whether the rule was kept in a sample: it was open, and not violated.
fn is_kept(sample: &DaySample) -> bool
    ensures { result ≡ is_kept sample.now }
{
    sample.judged && !sample.violated
}

/// The later one of two moments, of which the first may be none.
fn later(known: Option<Moment>, at: Moment) -> Moment
    ensures { result ≡ later known at }
{
    match known {
        Some(known) => { if at < known { known } else { at } }
        None => at,
    }
}

/// The earlier one of two moments, of which the first may be none.
fn earlier(known: Option<Moment>, at: Moment) -> Moment
    ensures { result ≡ earlier known at }
{
    match known {
        Some(known) => { if known < at { known } else { at } }
        None => at,
    }
}

/// The latest moment at which the rule was kept, behind one more sample.
fn kept_by(latest: Option<Moment>, sample: &DaySample) -> Option<Moment>
    ensures { result ≡ kept_by latest sample.now }
{
    if is_kept(sample) {
        Some(later(latest, sample.at))
    } else {
        latest
    }
}

/// The latest moment at which the rule was kept, where there is one.
fn last_kept(samples: &[DaySample]) -> Option<Moment>
    ensures { result ≡ last_kept samples.now }
{
    let mut latest: Option<Moment> = None;
    for sample in samples {
        latest = kept_by(latest, sample);
    }
    latest
}

/// Whether a moment is behind another one, where there is that.
fn is_behind(kept: &Option<Moment>, at: Moment) -> bool
    ensures { result ≡ is_behind kept.now at }
{
    match kept {
        Some(kept) => *kept < at,
        None => true,
    }
}

/// The earliest moment at which the rule was violated, behind a moment, with one more sample.
fn violated_by(kept: &Option<Moment>, since: Option<Moment>, sample: &DaySample) -> Option<Moment>
    ensures { result ≡ violated_by kept.now since sample.now }
{
    if sample.violated && is_behind(kept, sample.at) {
        Some(earlier(since, sample.at))
    } else {
        since
    }
}

/// The earliest moment at which a rule was violated, behind the latest at which it was kept, where there is one.
fn violated_since(samples: &[DaySample]) -> Option<Moment>
    ensures { result ≡ violated_since samples.now }
{
    let kept = last_kept(samples);
    let mut since: Option<Moment> = None;
    for sample in samples {
        since = violated_by(&kept, since, sample);
    }
    since
}

/// Whether two moments are the same.
fn is_same(at: Moment, other: Moment) -> bool
    ensures { result ≡ (at == other) }
{
    at == other
}

/// Whether there is a sample of a rule at a moment.
fn is_sampled_at(at: Moment, samples: &[DaySample]) -> bool
    ensures { result ≡ is_sampled_at at samples.now }
{
    for sample in samples {
        if is_same(sample.at, at) {
            return true;
        }
    }
    false
}

/// Whether a rule that is violated since it was kept last may have been so before this moment, the first of all: there is a
/// sample of it then, and it is kept in none.
fn may_be_before(first: Moment, samples: &[DaySample]) -> bool
    ensures { result ≡ may_be_before first samples.now }
{
    is_sampled_at(first, samples) && last_kept(samples).is_none()
}

/// The latest moment at which the rule was violated, behind one more sample.
fn violated_last(latest: Option<Moment>, sample: &DaySample) -> Option<Moment>
    ensures { result ≡ violated_last latest sample.now }
{
    if sample.violated {
        Some(later(latest, sample.at))
    } else {
        latest
    }
}

/// The latest moment at which a rule was violated, where there is one.
pub(crate) fn last_violated(samples: &[DaySample]) -> Option<Moment>
    ensures { result ≡ last_violated samples.now }
{
    let mut latest: Option<Moment> = None;
    for sample in samples {
        latest = violated_last(latest, sample);
    }
    latest
}

/// Whether a moment isn't later than another one.
fn is_by(at: Moment, until: Moment) -> bool
    ensures { result ≡ nat_le at until }
{
    at <= until
}

/// The samples up to a moment.
fn up_to(alloc: Global, until: Moment, samples: &[DaySample]) -> Result<Vec<DaySample>, AllocError>
    ensures { IfOk result (λ v. v.items ≡ up_to until samples.now) }
{
    let mut found = Vec::new(alloc);
    for sample in samples {
        if is_by(sample.at, until) {
            found.push(*sample)?;
        }
    }
    Ok(found)
}

/// Whether the rule was kept in a sample behind a moment.
fn is_kept_behind(until: Moment, sample: &DaySample) -> bool
    ensures { result ≡ is_kept_behind until sample.now }
{
    is_kept(sample) && until < sample.at
}

/// Whether a rule was kept behind a moment.
fn is_over(until: Moment, samples: &[DaySample]) -> bool
    ensures { result ≡ is_over until samples.now }
{
    for sample in samples {
        if is_kept_behind(until, sample) {
            return true;
        }
    }
    false
}

/// How a spell with its last violated sample at a moment ends, by the report's last moment.
fn end_of(last: Moment, until: Moment, samples: &[DaySample]) -> SpellEnd
    ensures { result ≡ end_of last until samples.now }
{
    if is_same(until, last) {
        SpellEnd::Present
    } else if is_over(until, samples) {
        SpellEnd::Over
    } else {
        SpellEnd::Closed
    }
}

/// The last spell in which a rule was violated, by the moment of its last violated sample.
///
/// # Errors
///
/// Out of memory.
pub(crate) fn spell_of(
    alloc: Global,
    span: &ReportSpan,
    until: Moment,
    samples: &[DaySample],
) -> Result<Spell, AllocError>
    ensures { IfOk result (λ spell. spell ≡ spell_of span.now until samples.now) }
{
    let front = up_to(alloc, until, samples)?;
    Ok(Spell {
        since: violated_since(&front),
        is_before: may_be_before(span.first, &front),
        until,
        end: end_of(span.last, until, samples),
    })
}
