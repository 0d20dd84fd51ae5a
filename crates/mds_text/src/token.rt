//! Words of the vocabulary, such as vehicle types and event types.
ghost use Rattle.std.specs.Prelude.{◌≡◌, ◌≤◌, length, true};
ghost use Rattle.std.specs.List.{list_all};
ghost use Rattle.std.specs.Cmp.Rules.{comparing};
ghost use Rattle.std.proofs.Common.{rules};
ghost use Rattle.mds_text.specs.Vocabulary.{as_token, is_token, is_token_byte, word_len};

use std::marker::Model;

/// The most bytes of a token.
const MOST: usize = 40;

/// A word of the vocabulary, such as a vehicle type or an event type: 1 to 40 bytes of `a-z`, `0-9`
/// and `_`, stored inline. Contracts see its bytes.
#[derive(Clone, Copy)]
pub struct Token {
    // the word, padded with zeros
    bytes: [u8; 40],
}

impl Model for Token {
    ghost use Rattle.std.specs.Prelude.{List, ℕ, ◌++◌, take, length, replicate, ◌-◌};

    ghost Value = { List ℕ };

    ghost use Rattle.mds_text.specs.Vocabulary.{IsPadded, padded_back, word_len};

    ghost view = { λ t. take (word_len t.bytes) t.bytes };

    ghost invariant = { λ t. IsPadded (word_len t.bytes) t.bytes };

    ghost inverse = { λ xs. record { bytes = xs ++ replicate (40 - length xs) 0 } };

    ghost inverse_ok = { λ a h i. record { bytes = padded_back (word_len a.bytes) a.bytes h i } };
}

impl PartialEq for Token {
    ghost use Rattle.std.specs.Prelude.{bytes_eq};

    // two tokens are equal where their bytes are
    ghost eq = { bytes_eq };

    ghost laws = { Prim.search (comparing, rules) };

    fn eq(&self, other: &Token) -> bool {
        self.bytes == other.bytes
    }
}

impl Eq for Token {
    ghost laws = { Prim.search (comparing, rules) };
}

impl Token {
    /// Parses a token; `None` for any other text. Allocates nothing.
    pub fn read(text: &str) -> Option<Token>
        ensures { result ≡ as_token text.now }
    {
        let word = text.as_bytes();
        if word.is_empty() || word.len() > MOST || !has_token_bytes(word) {
            return None;
        }
        let mut bytes = [0; 40];
        bytes[..word.len()].copy_from_slice(word);
        Some(Token { bytes })
    }

    /// The word as text.
    pub fn as_str(&self) -> &str
        ensures text { result.now ≡ self.now }
        ensures token { is_token result.now ≡ true }
    {
        let len = word_len(&self.bytes);
        let word = &self.bytes[..len];
        unsafe { std::str::from_utf8_unchecked(word) }
    }
}

/// How many bytes come before the padding.
fn word_len(bytes: &[u8]) -> usize
    ensures value { result ≡ word_len bytes.now }
    ensures within { result ≤ length bytes.now }
{
    bytes.iter().take_while(|b| **b != 0).count()
}

fn has_token_bytes(word: &[u8]) -> bool
    ensures { result ≡ list_all is_token_byte word.now }
{
    word.iter()
        .all(|b| matches!(*b, b'a'..=b'z' | b'0'..=b'9' | b'_'))
}
