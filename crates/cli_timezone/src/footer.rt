//! The footer of a TZif file (RFC 9636).
ghost use Rattle.std.specs.Prelude.{◌≡◌, ℕ, List, true, MatchOption, MatchResult};
ghost use Rattle.cli_timezone.specs.Footer.{is_tzif, is_first_version, HasFault, HasRule, IsFooter, IsLastLine};

use crate::fault::ZoneFileFault;
use crate::rule::ZoneRule;
use memchr::memrchr;
use std::alloc::Global;

/// The bytes of a header (RFC 9636, section 3.1).
const HEADER: usize = 44;

/// The rule of a TZif file: the text between the line feed at its end and the one before (RFC 9636, section 3.3). It is
/// in force after the file's last transition.
///
/// # Errors
///
/// The first of these: `NoTzif`, `FirstVersion`, `NoFooter`, `NoRule` where the footer is empty, `NoText` where it isn't printable
/// ASCII without quotes and backslashes; `NoMemory`.
pub fn rule_in(alloc: Global, file: &[u8]) -> Result<ZoneRule, ZoneFileFault>
    ensures { MatchResult result (HasRule file.now) (HasFault file.now) }
{
    if !is_tzif(file) {
        return Err(ZoneFileFault::NoTzif);
    }
    if is_first_version(file) {
        return Err(ZoneFileFault::FirstVersion);
    }
    let Some(line) = footer_of(file) else {
        return Err(ZoneFileFault::NoFooter);
    };
    if line.is_empty() {
        return Err(ZoneFileFault::NoRule);
    }
    let Ok(text) = std::str::from_utf8(line) else {
        return Err(ZoneFileFault::NoText);
    };
    match ZoneRule::read(alloc, text)? {
        Some(rule) => Ok(rule),
        None => Err(ZoneFileFault::NoText),
    }
}

/// Whether a file begins as a TZif file does (RFC 9636, section 3.1).
fn is_tzif(file: &[u8]) -> bool
    ensures { result ≡ is_tzif file.now }
{
    file.len() >= HEADER && file.starts_with(b"TZif")
}

/// Whether a TZif file is of version 1.
fn is_first_version(file: &[u8]) -> bool
    requires { is_tzif file.now ≡ true }
    ensures { result ≡ is_first_version file.now }
{
    file[4] == 0
}

/// The text after the last line feed, if there is one.
fn last_line(text: &[u8]) -> Option<&[u8]>
    ensures { MatchOption result ((line : List ℕ) → ¬ IsLastLine text.now line) (λ line. IsLastLine text.now line.now) }
{
    match memrchr(b'\n', text) {
        Some(place) => Some(&text[place + 1..]),
        None => None,
    }
}

/// The last line of a file that ends with a line feed and has one more before it.
fn footer_of(file: &[u8]) -> Option<&[u8]>
    ensures { MatchOption result ((line : List ℕ) → ¬ IsFooter file.now line) (λ line. IsFooter file.now line.now) }
{
    if file.is_empty() || file[file.len() - 1] != b'\n' {
        return None;
    }
    last_line(&file[..file.len() - 1])
}
