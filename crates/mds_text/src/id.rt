//! Identifiers: UUIDs (RFC 9562).
ghost use Rattle.std.specs.Prelude.{◌≡◌, IfOk, Some, string_bytes};
ghost use Rattle.uuid.specs.Text.{parsed, hyphenated_text, lower};

use std::alloc::{AllocError, Global};
use std::marker::Model;
use uuid::Uuid;

/// An identifier: a UUID by value (RFC 9562). Contracts see its sixteen bytes.
#[derive(Clone, Copy, PartialEq, Eq, PartialOrd, Ord)]
pub struct Id(Uuid);

impl Model for Id {
    ghost use Rattle.std.specs.Prelude.{List, ℕ};

    ghost Value = { List ℕ };

    ghost view = { λ a. a.0 };

    ghost inverse = { λ xs. record { 0 = xs } };
}

impl Id {
    /// Parses a UUID in any of its four spellings: simple, hyphenated, URN or braced, in either
    /// case (RFC 9562, section 4). `None` for any other text.
    pub fn read(text: &str) -> Option<Id>
        ensures { result ≡ parsed text.now }
    {
        match Uuid::try_parse(text) {
            Ok(uuid) => Some(Id(uuid)),
            Err(_) => None,
        }
    }

    /// The hyphenated lower-case spelling, which `read` parses back to this identifier.
    pub fn print(&self, alloc: Global) -> Result<String, AllocError>
        ensures text { IfOk result (λ s. string_bytes s ≡ hyphenated_text lower self.now) }
        ensures back { IfOk result (λ s. parsed (string_bytes s) ≡ Some self.now) }
    {
        let mut buffer = Uuid::encode_buffer();
        let text = self.0.hyphenated().encode_lower(&mut buffer);
        String::from_str(alloc, text)
    }
}
