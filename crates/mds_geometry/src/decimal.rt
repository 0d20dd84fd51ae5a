//! A fast parser of degrees in decimal notation.
ghost use Rattle.std.specs.Prelude.{◌≡◌, ℕ, List, nat_le, ◌+◌, ◌*◌, ◌-◌, ◌^◌, ◌<◌, ◌≤◌, [], drop, length, option_map, true, None, Ok, Some, if◌then◌else◌, IfSome};
ghost use Rattle.std.specs.Char.{is_ascii_digit};
ghost use Rattle.std.specs.List.{prefix_len};
ghost use Rattle.std.specs.Str.Parse.{digits_value};
ghost use Rattle.std.specs.Simd.Lanes.{number_l};
ghost use Rattle.std.specs.Int.Digits.{number_from_digits};
ghost use Rattle.core.specs.Dec2flt.Digits.{IsEightBytes, IsEightDigits};
ghost use Rattle.core.specs.Slice.Scan.{digits_from, flag_word};
ghost use Rattle.mds_text.specs.Fault.{Gives, number_cause};
ghost use Rattle.mds_text.specs.Numbers.{begins_with, behind_digits, behind_minus, digits, in_range, is_whole, units_of};

use mds_text::{NumberFault, Units7, units_of};

/// Units of 10^-7 degree in a degree.
const DEGREE: u64 = 10_000_000;

/// 180 degrees in units of 10^-7 degree.
const MOST_UNITS: u64 = 180 * DEGREE;

/// The most bytes of a number's text.
const MOST_BYTES: usize = 64;

/// The most digits in a row of a number that is read in one pass.
const MOST_DIGITS: usize = 9;

/// Eight bytes of the digit 0.
const EIGHT_ZEROS: u64 = 0x3030_3030_3030_3030;

/// What is added to a point in the lowest byte to make it a zero.
const POINT_TO_ZERO: u64 = 2;

/// The high bit of each byte.
const HIGH_BITS: u64 = 0x8080_8080_8080_8080;

/// The other seven bits of each byte.
const LOW_BITS: u64 = 0x7f7f_7f7f_7f7f_7f7f;

/// Added to the low bits of each byte, it sets the high bit where they are 10 or more.
const UP_FROM_TEN: u64 = 0x7676_7676_7676_7676;

/// The bytes of a word with the first and the third pair of digits.
const TWO_LANES: u64 = 0x0000_00ff_0000_00ff;

/// The weights of those pairs, for the upper half of the product.
const FIRST_PLACES: u64 = 100 + (1_000_000 << 32);

/// The weights of the second and the fourth pair, likewise.
const SECOND_PLACES: u64 = 1 + (10_000 << 32);

/// The coordinate that a number's text gives, as `mds_text::units_of` reads it. Allocates nothing.
///
/// # Errors
///
/// `BadNumber` for a text that is no number, has more than 64 bytes or an exponent of more than
/// three digits; else `OutOfRange` beyond 180 degrees.
#[inline(always)]
pub(crate) fn units_of_text(text: &str) -> Result<Units7, NumberFault>
    ensures { Gives number_cause (λ u. u) result (units_of text.now) }
{
    match decimal_units(text.as_bytes()) {
        Some(units) => Ok(units),
        None => other_units(text),
    }
}

/// The slow path: the coordinate of a number's text in any notation.
///
/// # Errors
///
/// Those of `units_of_text`.
#[cold]
#[inline(never)]
fn other_units(text: &str) -> Result<Units7, NumberFault>
    ensures { Gives number_cause (λ u. u) result (units_of text.now) }
{
    units_of(text)
}

/// The coordinate of an optional minus, digits, a point and one to seven digits. `None` says
/// nothing of a text: it may be another notation, or beyond 180 degrees.
#[inline(always)]
fn decimal_units(text: &[u8]) -> Option<Units7>
    ensures { IfSome result (λ u. units_of text.now ≡ Ok u) }
{
    match usual_units(text) {
        Some(units) => Some(units),
        None => plain_units(text),
    }
}

/// The same for one to three whole digits and exactly seven decimals. It has no loop.
#[inline(always)]
fn usual_units(text: &[u8]) -> Option<Units7>
    ensures { IfSome result (λ u. units_of text.now ≡ Ok u) }
{
    let (negative, number) = sign_of(text);
    let (whole, fraction) = number.split_last_chunk::<8>()?;
    let decimals = seven_decimals(fraction)?;
    let degrees = few_digits(whole)?;
    with_sign(negative, degrees * DEGREE + decimals)
}

/// The same for up to nine whole digits and one to seven decimals.
#[inline(never)]
fn plain_units(text: &[u8]) -> Option<Units7>
    ensures { IfSome result (λ u. units_of text.now ≡ Ok u) }
{
    if text.len() > MOST_BYTES {
        return None;
    }
    let (negative, number) = sign_of(text);
    let (degrees, fraction) = degrees_of(number)?;
    let decimals = decimals_of(fraction)?;
    with_sign(negative, degrees * DEGREE + decimals)
}

/// Whether a text begins with a minus, and the text without it.
#[inline(always)]
fn sign_of(text: &[u8]) -> (bool, &[u8])
    ensures negative { result.0 ≡ begins_with 45 text.now }
    ensures number { result.1.now ≡ behind_minus text.now }
{
    match strip_byte(text, b'-') {
        Some(number) => (true, number),
        None => (false, text),
    }
}

/// The whole degrees at the beginning of a number, and what follows its point.
#[inline(always)]
fn degrees_of(number: &[u8]) -> Option<(u64, &[u8])>
    ensures whole { IfSome result (λ r. is_whole (digits number.now) ≡ true) }
    ensures value { IfSome result (λ r. r.0 ≡ digits_value 10 (digits number.now)) }
    ensures point { IfSome result (λ r. begins_with 46 (behind_digits number.now) ≡ true) }
    ensures behind { IfSome result (λ r. r.1.now ≡ drop 1 (behind_digits number.now)) }
    ensures small { IfSome result (λ r. r.0 < 10 ^ 9) }
{
    let (degrees, count) = leading_digits(number)?;
    if count == 0 || (number[0] == b'0' && count > 1) {
        return None;
    }
    let fraction = strip_byte(&number[count..], b'.')?;
    Some((degrees, fraction))
}

/// One to seven decimals, in units of 10^-7 degree.
#[inline(always)]
fn decimals_of(fraction: &[u8]) -> Option<u64>
    ensures some { IfSome result (λ n. 1 ≤ length (digits fraction.now)) }
    ensures few { IfSome result (λ n. length (digits fraction.now) ≤ 7) }
    ensures all { IfSome result (λ n. behind_digits fraction.now ≡ []) }
    ensures value { IfSome result (λ n. n ≡ digits_value 10 (digits fraction.now) * 10 ^ (7 - length (digits fraction.now))) }
    ensures small { IfSome result (λ n. n < 10 ^ 16) }
{
    let (decimals, count) = leading_digits(fraction)?;
    if count < fraction.len() {
        return None;
    }
    Some(decimals * place_units(count)?)
}

/// The units of the last one of this many decimals.
fn place_units(count: usize) -> Option<u64>
    ensures value { IfSome result (λ n. n ≡ 10 ^ (7 - count)) }
    ensures some { IfSome result (λ n. 1 ≤ count) }
    ensures few { IfSome result (λ n. count ≤ 7) }
    ensures small { IfSome result (λ n. n ≤ 1000000) }
{
    match count {
        1 => Some(1_000_000),
        2 => Some(100_000),
        3 => Some(10_000),
        4 => Some(1_000),
        5 => Some(100),
        6 => Some(10),
        7 => Some(1),
        _ => None,
    }
}

/// The number of the digits that a text begins with, and how many they are; `None` where there are
/// more than `MOST_DIGITS`.
#[inline(always)]
fn leading_digits(text: &[u8]) -> Option<(u64, usize)>
    ensures value { IfSome result (λ r. r.0 ≡ digits_value 10 (digits text.now)) }
    ensures count { IfSome result (λ r. r.1 ≡ prefix_len is_ascii_digit text.now) }
    ensures within { IfSome result (λ r. r.1 ≤ length text.now) }
    ensures small { IfSome result (λ r. r.0 < 10 ^ 9) }
{
    let mut value: u64 = 0;
    for (place, byte) in text.iter().enumerate() {
        if !byte.is_ascii_digit() {
            return Some((value, place));
        }
        if place >= MOST_DIGITS {
            return None;
        }
        value = value * 10 + u64::from(*byte - b'0');
    }
    Some((value, text.len()))
}

/// The number of one to three digits, without a leading zero unless it stands alone; `None` for any
/// other text.
#[inline(always)]
fn few_digits(text: &[u8]) -> Option<u64>
    ensures whole { IfSome result (λ n. is_whole text.now ≡ true) }
    ensures count { IfSome result (λ n. prefix_len is_ascii_digit text.now ≡ length text.now) }
    ensures few { IfSome result (λ n. length text.now ≤ 3) }
    ensures value { IfSome result (λ n. n ≡ digits_value 10 text.now) }
    ensures small { IfSome result (λ n. n < 1000) }
{
    match text {
        [first, second, third] => {
            let (first, second, third) = (
                digit_value_of(*first),
                digit_value_of(*second),
                digit_value_of(*third),
            );
            if first == 0 || first > 9 || second > 9 || third > 9 {
                return None;
            }
            Some(first * 100 + second * 10 + third)
        }
        [first, second] => {
            let (first, second) = (digit_value_of(*first), digit_value_of(*second));
            if first == 0 || first > 9 || second > 9 {
                return None;
            }
            Some(first * 10 + second)
        }
        [only] => {
            let only = digit_value_of(*only);
            if only > 9 {
                return None;
            }
            Some(only)
        }
        _ => None,
    }
}

/// The value of a digit; more than 9 for any other byte.
#[inline(always)]
fn digit_value_of(byte: u8) -> u64
    ensures { result ≤ 9 → byte ≡ 48 + result }
{
    u64::from(byte).wrapping_sub(u64::from(b'0'))
}

/// The number of seven digits after a point; `None` for any other text.
#[inline(always)]
fn seven_decimals(fraction: &[u8; 8]) -> Option<u64>
    ensures point { IfSome result (λ n. begins_with 46 fraction.now ≡ true) }
    ensures count { IfSome result (λ n. prefix_len is_ascii_digit (drop 1 fraction.now) ≡ 7) }
    ensures all { IfSome result (λ n. behind_digits (drop 1 fraction.now) ≡ []) }
    ensures value { IfSome result (λ n. n ≡ digits_value 10 (digits (drop 1 fraction.now))) }
    ensures small { IfSome result (λ n. n < 10 ^ 7) }
{
    if fraction[0] != b'.' {
        return None;
    }
    eight_digits(u64::from_le_bytes(*fraction) + POINT_TO_ZERO)
}

/// The number of eight digits, the first of them in the lowest byte; `None` where a byte is no
/// digit.
#[inline(always)]
fn eight_digits(word: u64) -> Option<u64>
    ensures digits { (xs : List ℕ) → IsEightBytes xs → word ≡ number_l 256 xs → IfSome result (λ n. prefix_len is_ascii_digit xs ≡ 8) }
    ensures value { (xs : List ℕ) → IsEightBytes xs → word ≡ number_l 256 xs → IfSome result (λ n. n ≡ digits_value 10 xs) }
{
    let lanes = word ^ EIGHT_ZEROS;
    if flags_from_ten(lanes) != 0 {
        return None;
    }
    Some(value_of_eight(lanes))
}

/// Sets the high bit of each byte that is 10 or more, and no other bit. No sum carries into the
/// next byte.
#[inline(always)]
fn flags_from_ten(word: u64) -> u64
    ensures { (byte : ℕ → ℕ) → ((k : ℕ) → byte k < 256) → word ≡ digits_from byte 0 8 → result ≡ flag_word (λ k. nat_le 10 (byte k)) }
{
    (((word & LOW_BITS) + UP_FROM_TEN) | word) & HIGH_BITS
}

/// The number of eight digit values, one in each byte and the first in the lowest: neighbours are
/// joined into pairs, then all four pairs into one number.
#[inline(always)]
fn value_of_eight(word: u64) -> u64
    ensures { (ds : List ℕ) → IsEightDigits ds → word ≡ number_l 256 ds → result ≡ number_from_digits 10 ds }
{
    let pairs = word.wrapping_mul(10).wrapping_add(word >> 8);
    let first = (pairs & TWO_LANES).wrapping_mul(FIRST_PLACES);
    let second = ((pairs >> 16) & TWO_LANES).wrapping_mul(SECOND_PLACES);
    first.wrapping_add(second) >> 32
}

/// What follows this byte, where the text begins with it.
#[inline(always)]
fn strip_byte(text: &[u8], byte: u8) -> Option<&[u8]>
    ensures { option_map (λ rest. rest.now) result ≡ (if begins_with byte text.now then Some (drop 1 text.now) else None) }
{
    match text.split_first() {
        Some((first, rest)) if *first == byte => Some(rest),
        _ => None,
    }
}

/// A size with its sign; `None` beyond 180 degrees.
#[inline(always)]
fn with_sign(negative: bool, size: u64) -> Option<Units7>
    ensures { IfSome result (λ u. in_range negative size ≡ Ok u) }
{
    if size > MOST_UNITS {
        return None;
    }
    let size = size as i64;
    Units7::new(if negative { -size } else { size })
}
