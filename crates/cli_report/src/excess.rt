//! By how much a rule was violated, in words.
ghost use Rattle.std.specs.Prelude.{◌≡◌, ◌++◌, IfOk, string_bytes};
ghost use Rattle.cli_report.specs.Days.{greatest_measure, least_measure};
ghost use Rattle.cli_report.specs.Bounds.{least_text, most_text};
ghost use Rattle.cli_report.specs.Excess.{at_once_text, at_worst, worst_measure, beyond, excess_text, excess_words, lack_text};
ghost use Rattle.cli_report.specs.Excess.{lack_words, over_most, over_text, too_few, too_many, under_least, under_text};
ghost use Rattle.cli_report.specs.Excess.{vehicles_text, words_of, worst_text};

use crate::days::{DaySample, greatest_measure, least_measure};
use crate::words::{least_text, most_text};
use mds_policy::{Bounds, Kind};
use std::alloc::{AllocError, Global};

/// A number, or the next one where a bound isn't within itself.
fn beyond(inclusive: bool, number: u64) -> u128
    ensures { result ≡ beyond inclusive number }
{
    if inclusive {
        u128::from(number)
    } else {
        u128::from(number) + 1
    }
}

/// How many vehicles more than a maximum allows.
fn too_many(inclusive: bool, most: u32, measure: u64) -> u128
    ensures { result ≡ too_many inclusive most measure }
{
    beyond(inclusive, measure).saturating_sub(u128::from(most))
}

/// How many vehicles fewer than a minimum asks for.
fn too_few(inclusive: bool, least: u32, measure: u64) -> u128
    ensures { result ≡ too_few inclusive least measure }
{
    beyond(inclusive, u64::from(least)).saturating_sub(u128::from(measure))
}

/// A number of vehicles in words.
fn vehicles_text(alloc: Global, number: u64) -> Result<String, AllocError>
    ensures { IfOk result (λ text. string_bytes text ≡ vehicles_text number) }
{
    if number == 1 {
        String::from_str(alloc, "1 vehicle")
    } else {
        format!(in alloc; "{number} vehicles")
    }
}

/// What stands in front of the bound that a measure is beyond.
fn worst_measure(alloc: Global, measure: u64) -> Result<String, AllocError>
    ensures { IfOk result (λ text. string_bytes text ≡ worst_measure measure) }
{
    format!(in alloc; " At worst {measure} of ")
}

/// What stands in front of how many vehicles are too many or too few: the measure, and the bound that it is beyond.
fn at_worst(alloc: Global, measure: u64, bound: &str) -> Result<String, AllocError>
    ensures { IfOk result (λ text. string_bytes text ≡ at_worst measure bound.now) }
{
    let mut text = worst_measure(alloc, measure)?;
    text.push_str(bound)?;
    text.push_str(": ")?;
    Ok(text)
}

/// So many too many.
fn excess_words(alloc: Global, excess: u128) -> Result<String, AllocError>
    ensures { IfOk result (λ text. string_bytes text ≡ excess_words excess) }
{
    format!(in alloc; "{excess} too many.")
}

/// So many too few.
fn lack_words(alloc: Global, lack: u128) -> Result<String, AllocError>
    ensures { IfOk result (λ text. string_bytes text ≡ lack_words lack) }
{
    format!(in alloc; "{lack} too few.")
}

/// The words for a measure that is too great; none where it isn't.
fn excess_text(alloc: Global, measure: u64, bound: &str, excess: u128) -> Result<String, AllocError>
    ensures { IfOk result (λ text. string_bytes text ≡ excess_text measure bound.now excess) }
{
    if excess == 0 {
        return Ok(String::new(alloc));
    }
    let mut text = at_worst(alloc, measure, bound)?;
    let words = excess_words(alloc, excess)?;
    text.push_str(words.as_str())?;
    Ok(text)
}

/// The words for a measure that is too small; none where it isn't.
fn lack_text(alloc: Global, measure: u64, bound: &str, lack: u128) -> Result<String, AllocError>
    ensures { IfOk result (λ text. string_bytes text ≡ lack_text measure bound.now lack) }
{
    if lack == 0 {
        return Ok(String::new(alloc));
    }
    let mut text = at_worst(alloc, measure, bound)?;
    let words = lack_words(alloc, lack)?;
    text.push_str(words.as_str())?;
    Ok(text)
}

/// The words for the greatest measure of a count rule.
fn over_text(alloc: Global, bounds: &Bounds, measure: u64) -> Result<String, AllocError>
    ensures { IfOk result (λ text. string_bytes text ≡ over_text bounds.now measure) }
{
    match bounds.maximum {
        Some(most) => {
            let bound = most_text(alloc, bounds.inclusive_maximum, most)?;
            let excess = too_many(bounds.inclusive_maximum, most, measure);
            excess_text(alloc, measure, bound.as_str(), excess)
        }
        None => Ok(String::new(alloc)),
    }
}

/// The words for a measure of a count rule that may be too small.
fn under_least(alloc: Global, bounds: &Bounds, measure: u64) -> Result<String, AllocError>
    ensures { IfOk result (λ text. string_bytes text
        ≡ under_least bounds.now.inclusive_minimum bounds.now.minimum measure) }
{
    match bounds.minimum {
        Some(least) => {
            let bound = least_text(alloc, bounds.inclusive_minimum, least)?;
            let lack = too_few(bounds.inclusive_minimum, least, measure);
            lack_text(alloc, measure, bound.as_str(), lack)
        }
        None => Ok(String::new(alloc)),
    }
}

/// The words for the least measure of a count rule.
fn under_text(alloc: Global, bounds: &Bounds, least: Option<u64>) -> Result<String, AllocError>
    ensures { IfOk result (λ text. string_bytes text ≡ under_text bounds.now least) }
{
    match least {
        Some(measure) => under_least(alloc, bounds, measure),
        None => Ok(String::new(alloc)),
    }
}

/// The words for the measure of a time rule, which is how many vehicles violate it.
fn at_once_text(alloc: Global, measure: u64) -> Result<String, AllocError>
    ensures { IfOk result (λ text. string_bytes text ≡ at_once_text measure) }
{
    if measure == 0 {
        return Ok(String::new(alloc));
    }
    let vehicles = vehicles_text(alloc, measure)?;
    format!(in alloc; " At worst {vehicles} at once.")
}

/// The words for the worst measures of a count rule.
fn count_text(alloc: Global, bounds: &Bounds, violated: &[DaySample]) -> Result<String, AllocError>
    ensures { IfOk result (λ text. string_bytes text ≡ over_text bounds.now (greatest_measure violated.now)
        ++ under_text bounds.now (least_measure violated.now)) }
{
    let mut text = over_text(alloc, bounds, greatest_measure(violated))?;
    let least = under_text(alloc, bounds, least_measure(violated))?;
    text.push_str(least.as_str())?;
    Ok(text)
}

/// The words for the worst measures of a rule.
fn words_of(
    alloc: Global,
    kind: Kind,
    bounds: &Bounds,
    violated: &[DaySample],
) -> Result<String, AllocError>
    ensures { IfOk result (λ text. string_bytes text ≡ words_of kind bounds.now violated.now) }
{
    match kind {
        Kind::Count => count_text(alloc, bounds, violated),
        Kind::Time(_) => at_once_text(alloc, greatest_measure(violated)),
        Kind::Other => Ok(String::new(alloc)),
    }
}

/// By how much a rule was violated in these samples, all of them violated, as ` At worst 12 of at most 10: 2 too many.`;
/// nothing where there are none.
///
/// # Errors
///
/// Out of memory.
pub(crate) fn worst_text(
    alloc: Global,
    kind: Kind,
    bounds: &Bounds,
    violated: &[DaySample],
) -> Result<String, AllocError>
    ensures { IfOk result (λ text. string_bytes text ≡ worst_text kind bounds.now violated.now) }
{
    if violated.is_empty() {
        return Ok(String::new(alloc));
    }
    words_of(alloc, kind, bounds, violated)
}
