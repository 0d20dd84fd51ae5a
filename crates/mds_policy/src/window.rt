//! The hours and days of a rule (MDS 2.0 Policy, rules: start_time, end_time and days).
ghost use Rattle.std.specs.Prelude.{◌≡◌, ◌+◌, ◌<◌, length, map, Ok, option_map};
ghost use Rattle.mds_text.specs.Fault.{Gives, text_cause};
ghost use Rattle.mds_text.specs.Fields.{each, optional_at, list_each};
ghost use Rattle.mds_json.specs.Node.{node_view};
ghost use Rattle.mds_policy.specs.Reading.{digits_at, second_of_day, time_of_day, time_of, weekday_of, day_of, days_listed, optional_list, window_of};

use crate::rule::Window;
use mds_json::{Node, entries_of, member_at, text_of};
use mds_text::{Field, TextFault, two_digits};
use std::alloc::Global;

/// The last second of a day.
const LAST_SECOND: u32 = 86_399;

#[tactic(auto, unfolding(crate::specs::Reading::window_of))]
pub(crate) fn window_of(alloc: Global, rule: &Node<'_>) -> Result<Window, TextFault>
    ensures { Gives text_cause (λ w. w) result (window_of (node_view rule.now)) }
{
    let start = time_at(rule, Field::StartTime)?;
    let end = time_at(rule, Field::EndTime)?;
    let days = days_at(alloc, rule)?;
    Ok(Window {
        start: start.unwrap_or(0),
        end: end.unwrap_or(LAST_SECOND),
        days: day_flags(&days),
    })
}

fn time_at(rule: &Node<'_>, field: Field) -> Result<Option<u32>, TextFault>
    ensures { Gives text_cause (option_map (λ s. s)) result (optional_at time_of (node_view rule.now) field) }
{
    match member_at(rule, field)? {
        Some(value) => Ok(Some(time_of(value, field)?)),
        None => Ok(None),
    }
}

fn time_of(value: &Node<'_>, field: Field) -> Result<u32, TextFault>
    ensures { Gives text_cause (λ s. s) result (time_of field (node_view value.now)) }
{
    let text = text_of(value, field)?;
    time_of_day(text.as_bytes()).ok_or(TextFault::BadField(field))
}

/// The second of the day of `hh:mm`, which means `hh:mm:00`, or of `hh:mm:ss`.
fn time_of_day(text: &[u8]) -> Option<u32>
    ensures { result ≡ time_of_day text.now }
{
    if text.len() == 5 && text[2] == b':' {
        second_of_day(digits_at(text, 23, 0), digits_at(text, 59, 3), Some(0))
    } else if text.len() == 8 && text[2] == b':' && text[5] == b':' {
        second_of_day(
            digits_at(text, 23, 0),
            digits_at(text, 59, 3),
            digits_at(text, 59, 6),
        )
    } else {
        None
    }
}

fn second_of_day(hour: Option<u8>, minute: Option<u8>, second: Option<u8>) -> Option<u32>
    ensures { result ≡ second_of_day hour minute second }
{
    Some(3600 * u32::from(hour?) + 60 * u32::from(minute?) + u32::from(second?))
}

/// The number of the two decimal digits at this index, where it is at most `most`.
fn digits_at(text: &[u8], most: u8, place: usize) -> Option<u8>
    requires { place + 1 < length text.now }
    ensures { result ≡ digits_at most text.now place }
{
    two_digits(text[place], text[place + 1], most)
}

fn days_at(alloc: Global, rule: &Node<'_>) -> Result<Vec<u8>, TextFault>
    ensures { Gives text_cause (λ v. v.items) result (optional_list (list_each day_of) (node_view rule.now) Field.Days) }
{
    match member_at(rule, Field::Days)? {
        Some(value) => {
            let list = entries_of(alloc, value, Field::Days)?;
            days_of(alloc, list.as_slice())
        }
        None => Ok(Vec::new(alloc)),
    }
}

fn days_of(alloc: Global, entries: &[Node<'_>]) -> Result<Vec<u8>, TextFault>
    ensures { Gives text_cause (λ v. v.items) result (each (day_of Field.Days) (map node_view entries.now)) }
{
    let mut days = Vec::with_capacity(alloc, entries.len())?;
    for entry in entries {
        days.push(day_of(entry)?)?;
    }
    Ok(days)
}

fn day_of(value: &Node<'_>) -> Result<u8, TextFault>
    ensures { Gives text_cause (λ d. d) result (day_of Field.Days (node_view value.now)) }
{
    let text = text_of(value, Field::Days)?;
    weekday_of(text).ok_or(TextFault::BadField(Field::Days))
}

/// A day of the week by its name, counted from Sunday on.
fn weekday_of(name: &str) -> Option<u8>
    ensures { result ≡ weekday_of name.now }
{
    match name {
        "sun" => Some(0),
        "mon" => Some(1),
        "tue" => Some(2),
        "wed" => Some(3),
        "thu" => Some(4),
        "fri" => Some(5),
        "sat" => Some(6),
        _ => None,
    }
}

/// Whether each weekday is listed; no day listed means all.
fn day_flags(days: &[u8]) -> [bool; 7]
    ensures { result ≡ days_listed days.now }
{
    if days.is_empty() {
        return [true; 7];
    }
    [
        days.contains(&0),
        days.contains(&1),
        days.contains(&2),
        days.contains(&3),
        days.contains(&4),
        days.contains(&5),
        days.contains(&6),
    ]
}
