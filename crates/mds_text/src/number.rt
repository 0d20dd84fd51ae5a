//! Parses a number into its parts (RFC 8259, section 6).
ghost use Rattle.std.specs.Prelude.{◌≡◌, ◌≤◌, ◌++◌, drop, length, false, Option, None, Some, option_map, if◌then◌else◌, IfSome};
ghost use Rattle.std.specs.Char.{is_ascii_digit};
ghost use Rattle.std.specs.List.{prefix_len};
ghost use Rattle.std.specs.Str.Parse.{AllDigits};
ghost use Rattle.mds_text.specs.Numbers.{begins_with, behind_digits, behind_sign, digits, digits_at, exponent_at, fraction_at, has_exponent, is_lowering, is_plain, is_whole, number_of, parts_view, two_digits, whole_at};

/// The most digits of a plain number.
const PLAIN_DIGITS: usize = 18;

/// A number's parts, borrowed from its text: `-12.50e-3` is negative, has the digits `12` before
/// the point and `50` after it, and `lowers` says that its exponent `3` has a minus. Where there is
/// no fraction or no exponent, it is empty.
#[derive(Clone, Copy)]
pub struct Number<'a> {
    pub negative: bool,
    pub whole: &'a [u8],
    pub fraction: &'a [u8],
    pub lowers: bool,
    pub exponent: &'a [u8],
}

/// Parses the whole text as a number; `None` for any other text.
#[tactic(auto, unfolding(crate::specs::Numbers::number_of))]
pub fn number_of(text: &[u8]) -> Option<Number<'_>>
    ensures { option_map parts_view result ≡ number_of text.now }
{
    let (negative, rest) = match strip_byte(text, b'-') {
        Some(rest) => (true, rest),
        None => (false, text),
    };
    let (whole, rest) = whole_at(rest)?;
    let (fraction, rest) = fraction_at(rest)?;
    let lowers = is_lowering(rest);
    let (exponent, rest) = exponent_at(rest)?;
    if rest.is_empty() {
        Some(Number {
            negative,
            whole,
            fraction,
            lowers,
            exponent,
        })
    } else {
        None
    }
}

/// Whether a number is plain: 1 to 18 digits, with a minus or none, no fraction, no exponent, and
/// not `-0`.
pub fn is_plain(number: &Number<'_>) -> bool
    ensures { result ≡ is_plain (parts_view number.now) }
{
    number.fraction.is_empty()
        && number.exponent.is_empty()
        && number.whole.len() <= PLAIN_DIGITS
        && !(number.negative && strip_byte(number.whole, b'0').is_some())
}

/// What follows this byte, where the text begins with it.
fn strip_byte(text: &[u8], byte: u8) -> Option<&[u8]>
    ensures { option_map (λ rest. rest.now) result ≡ (if begins_with byte text.now then Some (drop 1 text.now) else None) }
{
    match text.split_first() {
        Some((first, rest)) if *first == byte => Some(rest),
        _ => None,
    }
}

/// The digits that a text begins with, and what follows them.
fn split_digits(text: &[u8]) -> (&[u8], &[u8])
    ensures digits { result.0.now ≡ digits text.now }
    ensures rest { result.1.now ≡ behind_digits text.now }
{
    let len = digits_len(text);
    text.split_at(len)
}

fn digits_len(text: &[u8]) -> usize
    ensures value { result ≡ prefix_len is_ascii_digit text.now }
    ensures within { result ≤ length text.now }
{
    text.iter().take_while(|b| b.is_ascii_digit()).count()
}

/// The whole part: zero, or digits that begin with no zero, and what follows.
fn whole_at(text: &[u8]) -> Option<(&[u8], &[u8])>
    ensures { option_map (λ p. (p.0.now, p.1.now)) result ≡ whole_at text.now }
{
    let (whole, rest) = split_digits(text);
    match whole.split_first() {
        None => None,
        Some((first, others)) => {
            if *first == b'0' && !others.is_empty() {
                None
            } else {
                Some((whole, rest))
            }
        }
    }
}

/// One digit or more, and what follows them.
fn digits_at(text: &[u8]) -> Option<(&[u8], &[u8])>
    ensures { option_map (λ p. (p.0.now, p.1.now)) result ≡ digits_at text.now }
{
    let (digits, rest) = split_digits(text);
    if digits.is_empty() {
        None
    } else {
        Some((digits, rest))
    }
}

/// The digits after a decimal point, where there is one, and what follows them.
fn fraction_at(text: &[u8]) -> Option<(&[u8], &[u8])>
    ensures { option_map (λ p. (p.0.now, p.1.now)) result ≡ fraction_at text.now }
{
    match strip_byte(text, b'.') {
        Some(rest) => digits_at(rest),
        None => Some((&text[..0], text)),
    }
}

/// What follows an `e` or `E`, where the text begins with one.
fn strip_e(text: &[u8]) -> Option<&[u8]>
    ensures { option_map (λ rest. rest.now) result ≡ (if has_exponent text.now then Some (drop 1 text.now) else None) }
{
    match strip_byte(text, b'e') {
        Some(rest) => Some(rest),
        None => strip_byte(text, b'E'),
    }
}

/// What follows a sign, or the text where it begins with none.
fn behind_sign(text: &[u8]) -> &[u8]
    ensures { result.now ≡ behind_sign text.now }
{
    match strip_byte(text, b'-') {
        Some(rest) => rest,
        None => match strip_byte(text, b'+') {
            Some(rest) => rest,
            None => text,
        },
    }
}

/// The digits of an exponent, where there is one, and what follows them.
fn exponent_at(text: &[u8]) -> Option<(&[u8], &[u8])>
    ensures { option_map (λ p. (p.0.now, p.1.now)) result ≡ exponent_at text.now }
{
    match strip_e(text) {
        Some(rest) => digits_at(behind_sign(rest)),
        None => Some((&text[..0], text)),
    }
}

/// Whether the text begins with an exponent that has a minus.
fn is_lowering(text: &[u8]) -> bool
    ensures { result ≡ is_lowering text.now }
{
    match strip_e(text) {
        Some(rest) => strip_byte(rest, b'-').is_some(),
        None => false,
    }
}

/// The number of two decimal digits, as in hours, minutes and seconds; `None` where a byte is no
/// digit or the number is above `most`.
pub fn two_digits(tens: u8, ones: u8, most: u8) -> Option<u8>
    ensures value { result ≡ two_digits most tens ones }
    ensures most { IfSome result (λ n. n ≤ most) }
{
    if !tens.is_ascii_digit() || !ones.is_ascii_digit() {
        return None;
    }
    let number = (tens - b'0') * 10 + (ones - b'0');
    if number <= most { Some(number) } else { None }
}
