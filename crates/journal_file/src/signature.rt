//! What a file begins with where a journal's records would begin.
ghost use Rattle.std.specs.Prelude.{◌≡◌, ◌==◌, ◌≤◌, length, take};
ghost use Rattle.std.specs.List.{list_all};
ghost use Rattle.journal_file.specs.Endings.{is_written, is_ordered, signature_of};

use crate::marks::furthest_synced_end;

/// How many bytes are looked at to recognize a text.
const SAMPLE: usize = 16;

/// What stands where a journal's records would begin, as far as its bytes show.
#[derive(Clone, Copy, Debug, PartialEq, Eq)]
pub enum Signature {
    /// Data that was compressed with gzip.
    Gzip,
    /// A byte order mark of UTF-8 or UTF-16, as editors put at the start of a text.
    ByteOrderMark,
    /// Zeros, and nothing else.
    Zeros,
    /// Bytes with a journal's mark among them: a journal whose beginning is changed or missing.
    Records,
    /// A text.
    Text,
    /// Other bytes.
    Unknown,
}

/// Whether a byte occurs in ASCII text.
fn is_written(byte: u8) -> bool
    ensures { result ≡ is_written byte }
{
    if byte < 32 {
        (9..=13).contains(&byte)
    } else {
        byte < 127
    }
}

/// Whether the bytes begin with a byte order mark.
fn is_ordered(bytes: &[u8]) -> bool
    ensures { result ≡ is_ordered bytes.now }
{
    bytes.starts_with(b"\xef\xbb\xbf")
        || bytes.starts_with(b"\xfe\xff")
        || bytes.starts_with(b"\xff\xfe")
}

/// Whether all bytes are 0.
fn are_zeros(bytes: &[u8]) -> bool
    ensures { result ≡ list_all (λ byte. byte == 0) bytes.now }
{
    bytes.iter().all(|byte| *byte == 0)
}

/// Whether the first bytes are those of a text.
fn is_text(bytes: &[u8]) -> bool
    ensures { result ≡ list_all is_written (take 16 bytes.now) }
{
    let sample = &bytes[..bytes.len().min(SAMPLE)];
    sample.iter().all(|byte| is_written(*byte))
}

/// What bytes are that stand where a journal's records would begin.
pub(crate) fn signature_of(bytes: &[u8]) -> Signature
    ensures { result ≡ signature_of bytes.now }
{
    if bytes.starts_with(b"\x1f\x8b") {
        Signature::Gzip
    } else if is_ordered(bytes) {
        Signature::ByteOrderMark
    } else if are_zeros(bytes) {
        Signature::Zeros
    } else if furthest_synced_end(bytes).is_some() {
        Signature::Records
    } else if is_text(bytes) {
        Signature::Text
    } else {
        Signature::Unknown
    }
}
