//! Gathers the bytes of one line from pieces of the input.
ghost use Rattle.std.specs.Prelude.{◌≡◌, ◌==◌, ◌+◌, ◌<◌, ◌≤◌, ◌++◌, position, take, length, nat_lt, if◌then◌else◌, vec_len, vec_capacity};
ghost use Rattle.std.specs.Io.BufRead.{ends_with_byte, strip_last};
ghost use Rattle.mds_script.specs.LineReading.{Gathers};

use crate::lines::NextLine;
use memchr::memchr;

/// The most bytes of a line, without its end.
pub const LINE_LIMIT: usize = 2_097_152;

/// How many bytes of a line are stored: one that is truncated there is over the limit, even if its
/// last byte is a carriage return that is dropped.
pub const STORED_LIMIT: usize = LINE_LIMIT + 2;

/// Appends the bytes before the first line feed to the line, as many as there is room for. Returns
/// how many bytes come before the line feed, plus one for it; `None` without a line feed, where all
/// bytes are appended, as many as there is room for.
pub fn gather(line: &mut Vec<u8>, bytes: &[u8]) -> Option<usize>
    requires short { vec_len line.old ≤ STORED_LIMIT }
    requires reserved { STORED_LIMIT ≤ vec_capacity line.old }
    ensures gathers { Gathers line.old.items bytes.now result line.new.items }
    ensures short { vec_len line.new ≤ STORED_LIMIT }
    ensures reserved { STORED_LIMIT ≤ vec_capacity line.new }
{
    match position_of(bytes, b'\n') {
        Some(at) => {
            append_within_limit(line, &bytes[..at]);
            Some(at + 1)
        }
        None => {
            append_within_limit(line, bytes);
            None
        }
    }
}

/// Appends as many of the bytes as there is room for.
fn append_within_limit(line: &mut Vec<u8>, bytes: &[u8])
    requires short { vec_len line.old ≤ STORED_LIMIT }
    requires reserved { STORED_LIMIT ≤ vec_capacity line.old }
    ensures items { line.new.items ≡ take STORED_LIMIT (line.old.items ++ bytes.now) }
    ensures short { vec_len line.new ≤ STORED_LIMIT }
    ensures reserved { STORED_LIMIT ≤ vec_capacity line.new }
{
    let room = STORED_LIMIT - line.len();
    let count = bytes.len().min(room);
    append(line, &bytes[..count]);
}

/// Appends bytes that there is room for, so that it can't fail.
fn append(line: &mut Vec<u8>, bytes: &[u8])
    requires { vec_len line.old + length bytes.now ≤ vec_capacity line.old }
    ensures items { line.new.items ≡ line.old.items ++ bytes.now }
    ensures capacity { vec_capacity line.old ≤ vec_capacity line.new }
{
    let _ = line.extend_from_slice(bytes);
}

/// Ends a line at a line feed: drops a carriage return at its end, and checks its length.
pub fn close(line: &mut Vec<u8>) -> NextLine
    requires short { vec_len line.old ≤ STORED_LIMIT }
    requires reserved { STORED_LIMIT ≤ vec_capacity line.old }
    ensures line { line.new.items ≡ strip_last 13 line.old.items }
    ensures found { result ≡ (if nat_lt LINE_LIMIT (length line.new.items) then NextLine.TooLong else NextLine.Line) }
    ensures short { vec_len line.new ≤ STORED_LIMIT }
    ensures reserved { STORED_LIMIT ≤ vec_capacity line.new }
{
    if ends_with_return(line) {
        line.pop();
    }
    check_length(line)
}

/// Whether the last byte is a carriage return.
fn ends_with_return(line: &[u8]) -> bool
    ensures { result ≡ ends_with_byte 13 line.now }
{
    match line.last() {
        Some(byte) => *byte == b'\r',
        None => false,
    }
}

/// Ends the last line, which has no line feed.
pub fn close_last(line: &mut Vec<u8>) -> NextLine
    requires { vec_len line.old ≤ STORED_LIMIT }
    ensures found { result ≡ (if length line.old.items == 0 then NextLine.End else (if nat_lt LINE_LIMIT (length line.old.items) then NextLine.TooLong else NextLine.Line)) }
    ensures same { line.new ≡ line.old }
{
    if line.is_empty() {
        NextLine::End
    } else {
        check_length(line)
    }
}

/// Whether a line is over the limit.
fn check_length(line: &[u8]) -> NextLine
    ensures { result ≡ (if nat_lt LINE_LIMIT (length line.now) then NextLine.TooLong else NextLine.Line) }
{
    if line.len() > LINE_LIMIT {
        NextLine::TooLong
    } else {
        NextLine::Line
    }
}

/// The position of the first such byte.
pub fn position_of(bytes: &[u8], wanted: u8) -> Option<usize>
    ensures { result ≡ position (λ byte. byte == wanted) bytes.now }
{
    memchr(wanted, bytes)
}
