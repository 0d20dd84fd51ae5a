//! Where a city's journal stands in etcd.
ghost use Rattle.std.specs.Prelude.{◌≡◌, ◌++◌, string_bytes, codes, IfOk};
ghost use Rattle.std.specs.List.{list_all};
ghost use Rattle.cli_log.specs.Places.{is_city_byte, is_city};

use std::alloc::{AllocError, Global};

/// The most bytes of a city's name.
const MOST_CITY: usize = 64;

/// Whether a byte may stand in a city's name: a letter, a digit, `-` or `_`.
fn is_city_byte(byte: u8) -> bool
    ensures { result ≡ is_city_byte byte }
{
    byte.is_ascii_alphanumeric() || byte == b'-' || byte == b'_'
}

/// Whether all bytes may stand in a city's name.
fn are_city_bytes(word: &[u8]) -> bool
    ensures { result ≡ list_all is_city_byte word.now }
{
    word.iter().all(|byte| is_city_byte(*byte))
}

/// Whether a word may be a city's name: 1 to 64 letters, digits, `-` and `_`.
pub fn is_city(word: &str) -> bool
    ensures { result ≡ is_city word.now }
{
    !word.is_empty() && word.len() <= MOST_CITY && are_city_bytes(word.as_bytes())
}

/// What the keys of a city's register begin with.
pub fn prefix_of(alloc: Global, city: &str) -> Result<String, AllocError>
    ensures { IfOk result (λ prefix. string_bytes prefix ≡ codes "ruffletuff/" ++ city.now) }
{
    let mut prefix = String::from_str(alloc, "ruffletuff/")?;
    prefix.push_str(city)?;
    Ok(prefix)
}
