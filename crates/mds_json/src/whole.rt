//! Parses plain whole numbers.
ghost use Rattle.std.specs.Prelude.{◌≡◌, ◌<◌, ◌^◌, ◌∷◌, Some, IfSome, slice_index};
ghost use Rattle.std.specs.Fmt.{decimal};
ghost use Rattle.mds_json.specs.Direct.{whole_number};

/// The most digits of a plain whole number.
const MOST_DIGITS: usize = 18;

/// The number that a text of 1 to 18 digits, after an optional minus, is. `None` for any other
/// text, also for digits that begin with a zero that doesn't stand alone, and for a zero after a
/// minus.
pub(crate) fn whole_number(text: &[u8]) -> Option<i64>
    ensures { IfSome result (λ z. whole_number text.now ≡ Some z) }
{
    match text.split_first() {
        Some((first, digits)) if *first == b'-' => negative_number(digits),
        _ => Some(size_of(text)? as i64),
    }
}

/// The negative number of these digits.
fn negative_number(digits: &[u8]) -> Option<i64>
    ensures { IfSome result (λ z. whole_number (45 ∷ digits.now) ≡ Some z) }
{
    let size = size_of(digits)?;
    if size == 0 {
        return None;
    }
    Some(-(size as i64))
}

/// The number of these digits.
fn size_of(digits: &[u8]) -> Option<u64>
    ensures written { IfSome result (λ n. digits.now ≡ decimal n) }
    ensures below { IfSome result (λ n. n < 10 ^ 18) }
{
    if digits.is_empty() || digits.len() > MOST_DIGITS {
        return None;
    }
    let first = digits[0];
    if first == b'0' {
        return zero_of(digits);
    }
    if first == b'+' {
        return None;
    }
    match fast_float::parse_u64(digits) {
        Ok(size) => Some(size),
        Err(_) => None,
    }
}

/// Zero, where its digit stands alone.
fn zero_of(digits: &[u8]) -> Option<u64>
    requires { slice_index digits.now 0 ≡ 48 }
    ensures written { IfSome result (λ n. digits.now ≡ decimal n) }
    ensures below { IfSome result (λ n. n < 10 ^ 18) }
{
    if digits.len() == 1 { Some(0) } else { None }
}
