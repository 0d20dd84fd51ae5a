//! Numbers in keys, values and answers.
ghost use Rattle.std.specs.Prelude.{◌≡◌, ◌<◌, ◌++◌, length, position, Some, IfSome, OnOk};
ghost use Rattle.journal_etcd.specs.Values.{number_text, hex_text};
ghost use Rattle.journal_etcd.specs.Reading.{Gives, are_digits, is_space, number_of, number_before, number_at};

use crate::fault::{AnswerError, AnswerFault};
use fast_float::parse_u64;
use std::alloc::AllocError;

/// Appends a number's digits and a space.
#[tactic(auto, unfolding(crate::specs::Values::number_text))]
pub(crate) fn push_number(text: &mut Vec<u8>, number: u64) -> Result<(), AllocError>
    ensures { OnOk result (text.new.items ≡ text.old.items ++ number_text number) }
{
    let digits = number.to_string(*text.allocator())?;
    text.extend_from_slice(digits.as_bytes())?;
    text.extend_from_slice(b" ")
}

/// Appends a number as 16 hex digits, so that the texts of numbers are in the numbers' order.
#[tactic(auto, unfolding(crate::specs::Values::hex_text))]
pub(crate) fn push_hex(text: &mut Vec<u8>, number: u64) -> Result<(), AllocError>
    ensures { OnOk result (text.new.items ≡ text.old.items ++ hex_text number) }
{
    let digits = hex::encode(*text.allocator(), number.to_be_bytes())?;
    text.extend_from_slice(digits.as_bytes())
}

fn are_digits(text: &[u8]) -> bool
    ensures { result ≡ are_digits text.now }
{
    for byte in text {
        if !byte.is_ascii_digit() {
            return false;
        }
    }
    true
}

/// The number that a text's digits are.
pub(crate) fn number_of(text: &[u8]) -> Result<u64, AnswerError>
    ensures { Gives (λ n. n) result (number_of text.now) }
{
    if !are_digits(text) {
        return Err(AnswerError::Fault(AnswerFault::BadNumber));
    }
    match parse_u64(text) {
        Ok(number) => Ok(number),
        Err(_) => Err(AnswerError::Fault(AnswerFault::BadNumber)),
    }
}

fn space_in(text: &[u8]) -> Option<usize>
    ensures value { result ≡ position is_space text.now }
    ensures bound { IfSome result (λ space. space < length text.now) }
{
    text.iter().position(|byte| *byte == b' ')
}

/// The number in front of a space, and what stands behind that.
fn number_before(text: &[u8], space: usize) -> Result<(u64, &[u8]), AnswerError>
    requires { space < length text.now }
    ensures { Gives (λ r. (r.0, r.1.now)) result (number_before (Some space) text.now) }
{
    let number = number_of(&text[..space])?;
    Ok((number, &text[space + 1..]))
}

/// The number that a text begins with, and what stands behind its space.
#[tactic(auto, unfolding(crate::specs::Reading::number_at))]
pub(crate) fn number_at(text: &[u8]) -> Result<(u64, &[u8]), AnswerError>
    ensures { Gives (λ r. (r.0, r.1.now)) result (number_at text.now) }
{
    match space_in(text) {
        Some(space) => number_before(text, space),
        None => Err(AnswerError::Fault(AnswerFault::BadShape)),
    }
}
