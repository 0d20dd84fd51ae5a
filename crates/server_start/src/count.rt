//! The number of connections to serve.
ghost use Rattle.std.specs.Prelude.{◌≡◌};
ghost use Rattle.server_start.specs.Input.{are_digits, count_in};

/// The most digits of a number of connections.
const MOST_DIGITS: usize = 9;

fn are_digits(bytes: &[u8]) -> bool
    ensures { result ≡ are_digits bytes.now }
{
    for byte in bytes {
        if !byte.is_ascii_digit() {
            return false;
        }
    }
    true
}

/// The number of connections that a text of 1 to 9 decimal digits names; `None` for any other text.
pub fn count_of(text: &str) -> Option<usize>
    ensures { result ≡ count_in text.now }
{
    let digits = text.as_bytes();
    if digits.is_empty() || digits.len() > MOST_DIGITS || !are_digits(digits) {
        return None;
    }
    text.parse::<usize>().ok()
}
