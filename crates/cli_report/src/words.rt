//! A rule's bounds in words.
ghost use Rattle.std.specs.Prelude.{◌≡◌, ◌++◌, IfOk, OnOk, string_bytes};
ghost use Rattle.cli_report.specs.Bounds.{bounds_text, ends_with_one, least_text, limits_text, most_text, unit_text};

use mds_policy::{Bounds, Kind, TimeUnit};
use std::alloc::{AllocError, Global};

/// The words for the least measure of a rule, as `at least 40`.
///
/// # Errors
///
/// Out of memory.
pub(crate) fn least_text(alloc: Global, inclusive: bool, least: u32) -> Result<String, AllocError>
    ensures { IfOk result (λ text. string_bytes text ≡ least_text inclusive least) }
{
    if inclusive {
        format!(in alloc; "at least {least}")
    } else {
        format!(in alloc; "more than {least}")
    }
}

/// The words for the greatest measure of a rule, as `at most 40`.
///
/// # Errors
///
/// Out of memory.
pub(crate) fn most_text(alloc: Global, inclusive: bool, most: u32) -> Result<String, AllocError>
    ensures { IfOk result (λ text. string_bytes text ≡ most_text inclusive most) }
{
    if inclusive {
        format!(in alloc; "at most {most}")
    } else {
        format!(in alloc; "fewer than {most}")
    }
}

/// Appends the least measure.
fn push_least(out: &mut Vec<u8>, inclusive: bool, least: u32) -> Result<(), AllocError>
    ensures { OnOk result (out.new.items ≡ out.old.items ++ least_text inclusive least) }
{
    let text = least_text(*out.allocator(), inclusive, least)?;
    out.extend_from_slice(text.as_bytes())
}

/// Appends the greatest measure.
fn push_most(out: &mut Vec<u8>, inclusive: bool, most: u32) -> Result<(), AllocError>
    ensures { OnOk result (out.new.items ≡ out.old.items ++ most_text inclusive most) }
{
    let text = most_text(*out.allocator(), inclusive, most)?;
    out.extend_from_slice(text.as_bytes())
}

/// Appends both.
fn push_limits(out: &mut Vec<u8>, bounds: &Bounds) -> Result<(), AllocError>
    ensures { OnOk result (out.new.items ≡ out.old.items ++ limits_text bounds.now bounds.now.minimum bounds.now.maximum) }
{
    match (bounds.minimum, bounds.maximum) {
        (None, None) => out.extend_from_slice(b"any number of"),
        (Some(least), None) => push_least(out, bounds.inclusive_minimum, least),
        (None, Some(most)) => push_most(out, bounds.inclusive_maximum, most),
        (Some(least), Some(most)) => {
            push_least(out, bounds.inclusive_minimum, least)?;
            out.extend_from_slice(b" and ")?;
            push_most(out, bounds.inclusive_maximum, most)
        }
    }
}

/// Whether the last number in the words for bounds is one, so that what is counted stands in the singular.
fn ends_with_one(bounds: &Bounds) -> bool
    ensures { result ≡ ends_with_one bounds.now.minimum bounds.now.maximum }
{
    match (bounds.minimum, bounds.maximum) {
        (_, Some(most)) => most == 1,
        (Some(least), None) => least == 1,
        (None, None) => false,
    }
}

/// What a rule counts: of one, or of any other number.
fn unit_text(kind: Kind, one: bool) -> &'static str
    ensures { result.now ≡ unit_text kind one }
{
    match (kind, one) {
        (Kind::Count, true) => " vehicle",
        (Kind::Count, false) => " vehicles",
        (Kind::Time(TimeUnit::Seconds), true) => " second in one state",
        (Kind::Time(TimeUnit::Seconds), false) => " seconds in one state",
        (Kind::Time(TimeUnit::Minutes), true) => " minute in one state",
        (Kind::Time(TimeUnit::Minutes), false) => " minutes in one state",
        (Kind::Time(TimeUnit::Hours), true) => " hour in one state",
        (Kind::Time(TimeUnit::Hours), false) => " hours in one state",
        (Kind::Time(TimeUnit::Days), true) => " day in one state",
        (Kind::Time(TimeUnit::Days), false) => " days in one state",
        (Kind::Other, _) => " (not evaluated)",
    }
}

/// Appends a rule's bounds in words, as `at most 100 vehicles`.
///
/// # Errors
///
/// Out of memory. Then a part may have been appended.
pub(crate) fn push_bounds(out: &mut Vec<u8>, kind: Kind, bounds: &Bounds) -> Result<(), AllocError>
    ensures { OnOk result (out.new.items ≡ out.old.items ++ bounds_text kind bounds.now) }
{
    push_limits(out, bounds)?;
    out.extend_from_slice(unit_text(kind, ends_with_one(bounds)).as_bytes())
}
