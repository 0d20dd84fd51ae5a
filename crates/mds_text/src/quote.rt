//! Puts numbers that aren't plain in quotation marks, before a text is read.
ghost use Rattle.std.specs.Prelude.{◌≡◌, ◌≤◌, ◌++◌, ◌∷◌, [], length, IfOk, OnOk};
ghost use Rattle.std.specs.List.{prefix_len};
ghost use Rattle.mds_text.specs.Quoting.{begins_token, continues_token, is_quoted, piece_tail, quoted_count, quoted_text, shown, string_len};

use crate::number::{is_plain, number_of};
use std::alloc::{AllocError, Global};

/// A backslash and the byte after it, which doesn't end a string (RFC 8259, section 7).
const ESCAPE_LEN: usize = 2;

/// The text with each number that isn't plain in quotation marks, and how many were quoted.
/// Strings, and what is no number (RFC 8259, section 6), stay as they are.
pub fn quote_numbers(alloc: Global, text: &[u8]) -> Result<(Vec<u8>, u64), AllocError>
    ensures text { IfOk result (λ r. r.0.items ≡ quoted_text text.now) }
    ensures count { IfOk result (λ r. r.1 ≡ quoted_count text.now) }
{
    let mut out = Vec::with_capacity(alloc, text.len())?;
    let mut count = 0;
    let mut rest = text;
    while let Some((first, behind)) = rest.split_first() {
        let (piece, left) = rest.split_at(1 + piece_tail(*first, behind));
        if is_quoted(piece) {
            count += 1;
        }
        push_piece(&mut out, piece)?;
        rest = left;
    }
    Ok((out, count))
}

/// Appends a piece of the text, in quotation marks where it is a number that isn't plain.
fn push_piece(out: &mut Vec<u8>, piece: &[u8]) -> Result<(), AllocError>
    ensures { OnOk result (out.new.items ≡ out.old.items ++ shown piece.now) }
{
    if !is_quoted(piece) {
        return out.extend_from_slice(piece);
    }
    out.push(b'"')?;
    out.extend_from_slice(piece)?;
    out.push(b'"')?;
    Ok(())
}

/// Whether a piece of the text is a number that isn't plain.
pub fn is_quoted(piece: &[u8]) -> bool
    ensures { result ≡ is_quoted piece.now }
{
    match number_of(piece) {
        Some(number) => !is_plain(&number),
        None => false,
    }
}

/// How many bytes, after the first one, belong to the piece that it begins.
fn piece_tail(first: u8, behind: &[u8]) -> usize
    ensures value { result ≡ piece_tail first behind.now }
    ensures within { result ≤ length behind.now }
{
    if first == b'"' {
        string_len(behind)
    } else if begins_token(first) {
        token_len(behind)
    } else {
        0
    }
}

/// The length of a string after its opening quotation mark, the closing one included.
fn string_len(text: &[u8]) -> usize
    ensures value { result ≡ string_len text.now }
    ensures within { result ≤ length text.now }
{
    let mut at = 0;
    while at < text.len() {
        if text[at] == b'"' {
            return at + 1;
        }
        at += if text[at] == b'\\' && at + 1 < text.len() {
            ESCAPE_LEN
        } else {
            1
        };
    }
    at
}

/// How many bytes at the beginning of the text continue a token.
fn token_len(text: &[u8]) -> usize
    ensures value { result ≡ prefix_len continues_token text.now }
    ensures within { result ≤ length text.now }
{
    text.iter().take_while(|b| continues_token(**b)).count()
}

fn begins_token(byte: u8) -> bool
    ensures { result ≡ begins_token byte }
{
    byte == b'-' || byte.is_ascii_digit()
}

fn continues_token(byte: u8) -> bool
    ensures { result ≡ continues_token byte }
{
    byte.is_ascii_digit() || matches!(byte, b'+' | b'-' | b'.' | b'e' | b'E')
}
