//! The period of a query: which policies of the list it asks for.
ghost use Rattle.std.specs.Prelude.{◌≡◌, find, option_copied};
ghost use Rattle.std.specs.List.{list_all, slice_split};
ghost use Rattle.std.specs.Char.{is_ascii_digit};
ghost use Rattle.server_public.specs.View.{notice};
ghost use Rattle.server_public.specs.Period.{as_given, begins, is_ampersand, is_in, moment_at, moment_in, number_in};
ghost use Rattle.server_public.specs.Period.{period_in, stripped, value_of};

use crate::public_document::PublicDocument;

/// The moments from which and up to which, in milliseconds since the Unix epoch; one that isn't given is no bound.
#[derive(Clone, Copy)]
pub struct Period {
    /// `start_date` of the query.
    pub from: Option<u64>,
    /// `end_date` of the query.
    pub to: Option<u64>,
}

/// The most digits of a moment.
const MOST_DIGITS: usize = 18;

/// Whether all of these bytes are decimal digits.
fn are_digits(bytes: &[u8]) -> bool
    ensures { result ≡ list_all is_ascii_digit bytes.now }
{
    for byte in bytes {
        if !byte.is_ascii_digit() {
            return false;
        }
    }
    true
}

/// The first parameter that begins with this name.
fn parameter<'a>(name: &[u8], query: &'a [u8]) -> Option<&'a [u8]>
    ensures { option_copied result ≡ find (begins name.now) (slice_split is_ampersand query.now) }
{
    query
        .split(|byte| *byte == b'&')
        .find(|parameter| parameter.starts_with(name))
}

/// The value of a parameter, if it begins with this name.
fn after_name<'a>(name: &[u8], parameter: &'a [u8]) -> Option<&'a [u8]>
    ensures { option_copied result ≡ stripped name.now parameter.now }
{
    parameter.strip_prefix(name)
}

/// The value of the first parameter that begins with this name.
fn value_of<'a>(name: &[u8], query: &'a [u8]) -> Option<&'a [u8]>
    ensures { option_copied result ≡ value_of name.now query.now }
{
    match parameter(name, query) {
        Some(parameter) => after_name(name, parameter),
        None => None,
    }
}

/// The number that one to eighteen digits write.
fn number(text: &str) -> Option<u64>
    ensures { result ≡ number_in text.now }
{
    let digits = text.as_bytes();
    if digits.is_empty() || digits.len() > MOST_DIGITS || !are_digits(digits) {
        return None;
    }
    text.parse::<u64>().ok()
}

/// The moment of a number.
fn as_given(number: Option<u64>) -> Option<Option<u64>>
    ensures { result ≡ as_given number }
{
    match number {
        Some(number) => Some(Some(number)),
        None => None,
    }
}

/// The moment that a value writes.
fn moment_at(value: &[u8]) -> Option<Option<u64>>
    ensures { result ≡ moment_at value.now }
{
    match str::from_utf8(value) {
        Ok(text) => as_given(number(text)),
        Err(_) => None,
    }
}

/// An optional moment. None where it is given and is none.
fn moment_in(value: Option<&[u8]>) -> Option<Option<u64>>
    ensures { result ≡ moment_in (option_copied value.entry) }
{
    match value {
        Some(value) => moment_at(value),
        None => Some(None),
    }
}

impl Period {
    /// The period of a query; none where one of its moments is none.
    pub fn read(query: &[u8]) -> Option<Period>
        ensures { result ≡ period_in query.now }
    {
        let from = moment_in(value_of(b"start_date=", query))?;
        let to = moment_in(value_of(b"end_date=", query))?;
        Some(Period { from, to })
    }

    /// Whether a document hasn't ended by the beginning of the period, and has taken effect by its end.
    pub fn holds(&self, sheet: &PublicDocument) -> bool
        ensures { result ≡ is_in self.now (notice sheet.now) }
    {
        let isnt_over = match (self.from, sheet.end) {
            (Some(from), Some(end)) => from < end,
            _ => true,
        };
        let has_begun = match self.to {
            Some(to) => sheet.start <= to,
            None => true,
        };
        isnt_over && has_begun
    }
}
