//! Splits a line of the script into the parts of a request.
ghost use Rattle.std.specs.Prelude.{◌≡◌, ◌^◌, ◌<◌, ◌≤◌, length, Some, None, IfSome, option_map, if◌then◌else◌};
ghost use Rattle.mds_script.specs.Input.{word_of, behind_word, are_digits, decimal, moment_of, request_from, request_on};
ghost use Rattle.mds_request.specs.Request.{request_of};

use crate::gather::position_of;
use mds_request::{Request, Verb};
use mds_text::Moment;

/// The request on a line `AT TOKEN METHOD TARGET [BODY]`, split at the first four spaces; the rest is the body. `None`
/// where one of the first four is missing or empty, and where the first isn't 1 to 13 decimal digits (leading zeros are
/// allowed) of a moment.
pub fn cut(line: &[u8]) -> Option<Request<'_>>
    ensures { option_map request_of result ≡ request_on line.now }
{
    let (at, rest) = split_word(line);
    let (token, rest) = split_word(rest);
    let (method, rest) = split_word(rest);
    let (target, body) = split_word(rest);
    request_of_words(at, token, method, target, body)
}

/// The request of these words, unless one of the first four is empty or the first is no moment.
#[tactic(auto, unfolding(crate::specs::Input::request_from))]
fn request_of_words<'a>(
    at: &[u8],
    token: &'a [u8],
    method: &[u8],
    target: &'a [u8],
    body: &'a [u8],
) -> Option<Request<'a>>
    ensures { option_map request_of result ≡ request_from at.now token.now method.now target.now body.now }
{
    if token.is_empty() || method.is_empty() || target.is_empty() {
        return None;
    }
    match moment_of(at) {
        Some(at) => Some(Request {
            at,
            token,
            verb: Verb::read(method),
            target,
            body,
        }),
        None => None,
    }
}

/// The bytes before the first space and those after it; without a space, all bytes and none.
fn split_word(bytes: &[u8]) -> (&[u8], &[u8])
    ensures word { result.0.now ≡ word_of bytes.now }
    ensures behind { result.1.now ≡ behind_word bytes.now }
{
    match position_of(bytes, b' ') {
        Some(at) => (&bytes[..at], &bytes[at + 1..]),
        None => bytes.split_at(bytes.len()),
    }
}

/// The moment written as 1 to 13 digits, in milliseconds since the Unix epoch: leading zeros are allowed. `None` where
/// there is another byte or another number of them, or for a moment after the last one.
pub fn moment_of(digits: &[u8]) -> Option<Moment>
    ensures { result ≡ moment_of digits.now }
{
    if digits.is_empty() || digits.len() > 13 {
        return None;
    }
    Moment::new(number_of(digits)? as i64)
}

/// The number written in decimal digits; `None` where there is another byte.
fn number_of(digits: &[u8]) -> Option<u64>
    requires { length digits.now ≤ 13 }
    ensures value { result ≡ (if are_digits digits.now then Some (decimal digits.now) else None) }
    ensures bound { IfSome result (λ number. number < 10 ^ 13) }
{
    let mut number = 0;
    for digit in digits {
        if !digit.is_ascii_digit() {
            return None;
        }
        number = 10 * number + u64::from(*digit - b'0');
    }
    Some(number)
}
