//! Names of time zones.
ghost use Rattle.std.specs.Prelude.{◌≡◌, true, false, IfOk, IfSome, is_some, string_bytes};
ghost use Rattle.cli_timezone.specs.Names.{is_part_byte, are_parts, is_zone_name, path_of};

use std::alloc::{AllocError, Global};
use std::marker::Model;

/// The most bytes of a zone's name.
pub const MOST_NAME: usize = 255;
/// The folder of the zones' files.
const FOLDER: &str = "/usr/share/zoneinfo/";

/// The name of a time zone, as `America/New_York`: parts of letters, digits, `_`, `-` and `+`, with slashes between
/// them, of at most 255 bytes. So a path that ends with it leads to no other folder. Contracts see the name.
#[derive(Drop)]
pub struct ZoneName {
    text: String,
}

impl Model for ZoneName {
    ghost use Rattle.std.specs.Prelude.{◌≡◌, ℕ, List, true, string_bytes};
    ghost use Rattle.cli_timezone.specs.Names.{is_zone_name};

    ghost Value = { List ℕ };

    ghost view = { λ name. string_bytes name.text };

    ghost invariant = { λ name. is_zone_name (string_bytes name.text) ≡ true };
}

impl ZoneName {
    /// The name in a text, or `None`: an empty text, one with a slash at an end or next to another, or with any byte
    /// but letters, digits, `_`, `-`, `+` and `/` (so none with a dot) is no name. Whether there is a file of it is
    /// another matter.
    ///
    /// # Errors
    ///
    /// Out of memory.
    pub fn read(alloc: Global, text: &str) -> Result<Option<ZoneName>, AllocError>
        ensures name { IfOk result (λ found. IfSome found (λ name. name ≡ text.now)) }
        ensures cases { IfOk result (λ found. is_some found ≡ is_zone_name text.now) }
    {
        if is_zone_name(text.as_bytes()) {
            let text = String::from_str(alloc, text)?;
            Ok(Some(ZoneName { text }))
        } else {
            Ok(None)
        }
    }

    /// The name.
    pub fn as_str(&self) -> &str
        ensures name { result.now ≡ self.now }
        ensures safe { is_zone_name result.now ≡ true }
    {
        self.text.as_str()
    }

    /// The file of the zone: below `/usr/share/zoneinfo`, whatever `TZDIR` says.
    ///
    /// # Errors
    ///
    /// Out of memory.
    pub fn path(&self, alloc: Global) -> Result<String, AllocError>
        ensures { IfOk result (λ path. string_bytes path ≡ path_of self.now) }
    {
        let mut path = String::from_str(alloc, FOLDER)?;
        path.push_str(self.text.as_str())?;
        Ok(path)
    }
}

/// Whether a byte is a letter, a digit, `_`, `-` or `+`.
fn is_part_byte(byte: u8) -> bool
    ensures { result ≡ is_part_byte byte }
{
    byte.is_ascii_alphanumeric() || byte == b'_' || byte == b'-' || byte == b'+'
}

/// Whether a text is parts of such bytes, each of one at least, with a slash between each two.
fn are_parts(text: &[u8]) -> bool
    ensures { result ≡ are_parts false text.now }
{
    let mut begun = false;
    for byte in text {
        if *byte == b'/' {
            if !begun {
                return false;
            }
            begun = false;
        } else {
            if !is_part_byte(*byte) {
                return false;
            }
            begun = true;
        }
    }
    begun
}

/// Whether a text is the name of a zone.
fn is_zone_name(text: &[u8]) -> bool
    ensures { result ≡ is_zone_name text.now }
{
    text.len() <= MOST_NAME && are_parts(text)
}
