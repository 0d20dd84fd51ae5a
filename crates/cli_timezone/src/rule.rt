//! The rule of a named zone.
ghost use Rattle.std.specs.Prelude.{◌≡◌, true, IfOk, IfSome, is_some};
ghost use Rattle.std.specs.List.{list_all};
ghost use Rattle.cli_timezone.specs.Footer.{is_rule_byte, is_plain};

use std::alloc::{AllocError, Global};
use std::marker::Model;

/// A text in the place of a zone's name: printable ASCII without quotes and backslashes, so that it needs no escapes in
/// a JSON string. Whether it is a rule of POSIX's TZ variable, `mds_match::Zone::read` says. Contracts see the text.
#[derive(Drop)]
pub struct ZoneRule {
    text: String,
}

impl Model for ZoneRule {
    ghost use Rattle.std.specs.Prelude.{◌≡◌, ℕ, List, true, string_bytes};
    ghost use Rattle.cli_timezone.specs.Footer.{is_plain};

    ghost Value = { List ℕ };

    ghost view = { λ rule. string_bytes rule.text };

    ghost invariant = { λ rule. is_plain (string_bytes rule.text) ≡ true };
}

impl ZoneRule {
    /// The rule in a text, or `None` where it has another byte.
    ///
    /// # Errors
    ///
    /// Out of memory.
    pub fn read(alloc: Global, text: &str) -> Result<Option<ZoneRule>, AllocError>
        ensures rule { IfOk result (λ found. IfSome found (λ rule. rule ≡ text.now)) }
        ensures cases { IfOk result (λ found. is_some found ≡ is_plain text.now) }
    {
        if is_plain(text.as_bytes()) {
            let text = String::from_str(alloc, text)?;
            Ok(Some(ZoneRule { text }))
        } else {
            Ok(None)
        }
    }

    /// The rule.
    pub fn as_str(&self) -> &str
        ensures rule { result.now ≡ self.now }
        ensures plain { is_plain result.now ≡ true }
    {
        self.text.as_str()
    }
}

/// Whether a byte is printable ASCII and neither the quote nor the backslash.
fn is_rule_byte(byte: u8) -> bool
    ensures { result ≡ is_rule_byte byte }
{
    32 <= byte && byte <= 126 && byte != b'"' && byte != b'\\'
}

fn is_plain(text: &[u8]) -> bool
    ensures { result ≡ is_plain text.now }
{
    text.iter().all(|byte| is_rule_byte(*byte))
}
