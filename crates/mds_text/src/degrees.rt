//! Coordinates in decimal notation: from the text of a number to units of 10^-7 degree.
ghost use Rattle.std.specs.Prelude.{◌≡◌, ◌+◌, ◌^◌, ◌<◌, ◌≤◌, ◌++◌, length, slice_index, IfOk};
ghost use Rattle.std.specs.Char.{digit_value};
ghost use Rattle.std.specs.Str.Parse.{AllDigits, digits_value};
ghost use Rattle.mds_text.specs.Fault.{Gives, number_cause};
ghost use Rattle.mds_text.specs.Numbers.{digit_at, leading, places_of, up_to_limit, HasDigits};
ghost use Rattle.mds_text.specs.Numbers.{in_range, most_bytes, most_exponent_digits, most_units, number_of, parts_view, short_number, size_of, units_of};

use crate::fault::NumberFault;
use crate::number::{Number, number_of};
use crate::units::{MOST_UNITS, Units7};

/// The most bytes of a number's text.
const MOST_BYTES: usize = 64;

/// The most digits of an exponent.
const MOST_EXPONENT_DIGITS: usize = 3;

/// The most tenths of a unit that are still rounded to 180 degrees.
const MOST_TENTHS: u64 = 10 * MOST_UNITS + 4;

/// The coordinate that a number's text (RFC 8259, section 6) gives in degrees, in units of 10^-7
/// degree, rounded half away from zero. Allocates nothing.
///
/// # Errors
///
/// `BadNumber` for a text that is no number, has more than 64 bytes or an exponent of more than
/// three digits; else `OutOfRange` beyond 180 degrees.
#[tactic(auto, unfolding(crate::specs::Numbers::units_of))]
pub fn units_of(text: &str) -> Result<Units7, NumberFault>
    ensures { Gives number_cause (λ u. u) result (units_of text.now) }
{
    let number = short_number(text.as_bytes())?;
    let Some(size) = size_of(&number) else {
        return Err(NumberFault::OutOfRange);
    };
    with_sign(number.negative, size)
}

/// Parses a number whose text and exponent aren't too long; `BadNumber` for any other text.
fn short_number(text: &[u8]) -> Result<Number<'_>, NumberFault>
    ensures value { Gives number_cause parts_view result (short_number (length text.now) (number_of text.now)) }
    ensures digits { IfOk result (λ n. HasDigits (parts_view n)) }
    ensures short { IfOk result (λ n. (length n.whole.now ≤ most_bytes) × (length n.exponent.now ≤ most_exponent_digits)) }
{
    let Some(number) = number_of(text) else {
        return Err(NumberFault::BadNumber);
    };
    if text.len() <= MOST_BYTES && number.exponent.len() <= MOST_EXPONENT_DIGITS {
        Ok(number)
    } else {
        Err(NumberFault::BadNumber)
    }
}

/// A size with its sign; `OutOfRange` beyond 180 degrees.
fn with_sign(negative: bool, size: u64) -> Result<Units7, NumberFault>
    ensures { Gives number_cause (λ u. u) result (in_range negative size) }
{
    if size > MOST_UNITS {
        return Err(NumberFault::OutOfRange);
    }
    let size = size as i64;
    let units = if negative { -size } else { size };
    Units7::new(units).ok_or(NumberFault::OutOfRange)
}

/// The absolute value of a number of degrees, in units; `None` beyond 180 degrees.
fn size_of(number: &Number<'_>) -> Option<u64>
    requires digits { HasDigits (parts_view number.now) }
    requires short { length number.now.whole.now ≤ most_bytes }
    requires exponent { length number.now.exponent.now ≤ most_exponent_digits }
    ensures { result ≡ up_to_limit most_units (size_of (parts_view number.now)) }
{
    match leading_value(number.whole, number.fraction, places_of(number)) {
        Some(tenths) => Some((tenths + 5) / 10),
        None => None,
    }
}

/// How many of a number's digits come before the hundredths of a unit.
fn places_of(number: &Number<'_>) -> usize
    requires digits { HasDigits (parts_view number.now) }
    requires short { length number.now.whole.now ≤ most_bytes }
    requires exponent { length number.now.exponent.now ≤ most_exponent_digits }
    ensures value { result ≡ places_of (parts_view number.now) }
    ensures small { result ≤ 1071 }
{
    let shift = value_of(number.exponent);
    let places = number.whole.len() + 8;
    if number.lowers {
        places.saturating_sub(shift)
    } else {
        places + shift
    }
}

/// The value of at most three digits.
fn value_of(digits: &[u8]) -> usize
    requires digits { AllDigits 10 digits.now }
    requires few { length digits.now ≤ most_exponent_digits }
    ensures value { result ≡ digits_value 10 digits.now }
    ensures small { result < 1000 }
{
    let mut value = 0;
    for place in 0..digits.len() {
        value = value * 10 + usize::from(digit_of(digits, place));
    }
    value
}

/// The value of the first `places` digits, the last followed by zeros; `None` above the limit.
fn leading_value(whole: &[u8], fraction: &[u8], places: usize) -> Option<u64>
    requires whole { AllDigits 10 whole.now }
    requires fraction { AllDigits 10 fraction.now }
    ensures { result ≡ up_to_limit MOST_TENTHS (leading (whole.now ++ fraction.now) places) }
{
    let mut value = 0;
    for place in 0..places {
        value = value * 10 + u64::from(digit_at(whole, fraction, place));
        if value > MOST_TENTHS {
            return None;
        }
    }
    Some(value)
}

/// The digit at a place of a number, and zero after the last one.
fn digit_at(whole: &[u8], fraction: &[u8], place: usize) -> u8
    requires whole { AllDigits 10 whole.now }
    requires fraction { AllDigits 10 fraction.now }
    ensures value { result ≡ digit_at (whole.now ++ fraction.now) place }
    ensures small { result < 10 }
{
    if place < whole.len() {
        return digit_of(whole, place);
    }
    let place = place - whole.len();
    if place < fraction.len() {
        digit_of(fraction, place)
    } else {
        0
    }
}

/// The value of the digit at a place.
fn digit_of(digits: &[u8], place: usize) -> u8
    requires digits { AllDigits 10 digits.now }
    requires within { place < length digits.now }
    ensures value { result ≡ digit_value (slice_index digits.now place) }
    ensures small { result < 10 }
{
    digits[place].saturating_sub(b'0')
}
