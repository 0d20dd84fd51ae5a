//! Where the lexemes of a JSON text begin.
ghost use Rattle.std.specs.Prelude.{◌≡◌, ◌≤◌, length, map, IfOk};
ghost use Rattle.cli_config.specs.Lexemes.{begun, begun_outside, is_space, mark_at, marks_of, mode_after, mode_outside, structural, word_sign};

use std::alloc::{AllocError, Global};

/// The kind of lexeme that begins at a byte (RFC 8259, section 2).
#[derive(Clone, Copy, Debug, PartialEq, Eq)]
pub(crate) enum LexemeKind {
    OpenObject,
    CloseObject,
    OpenList,
    CloseList,
    Colon,
    Comma,
    /// A string.
    Text,
    /// `true` or `false`.
    Truth,
    Null,
    Number,
}

/// Where a lexeme begins, in bytes from 0.
#[derive(Clone, Copy, Debug, PartialEq, Eq)]
pub(crate) struct LexemeAt {
    pub(crate) at: usize,
    pub(crate) sign: LexemeKind,
}

/// The state of the lexer between two bytes.
#[derive(Clone, Copy, Debug, PartialEq, Eq)]
pub(crate) enum Mode {
    /// Between two lexemes.
    Between,
    /// A literal name or a number.
    Word,
    /// A string.
    Quoted,
    /// A string, after a backslash.
    Escaped,
}

pub(crate) fn is_space(byte: u8) -> bool
    ensures { result ≡ is_space byte }
{
    byte == b' ' || byte == b'\t' || byte == b'\n' || byte == b'\r'
}

/// The structural character or the string that begins with a byte.
fn structural(byte: u8) -> Option<LexemeKind>
    ensures { result ≡ structural byte }
{
    match byte {
        b'{' => Some(LexemeKind::OpenObject),
        b'}' => Some(LexemeKind::CloseObject),
        b'[' => Some(LexemeKind::OpenList),
        b']' => Some(LexemeKind::CloseList),
        b':' => Some(LexemeKind::Colon),
        b',' => Some(LexemeKind::Comma),
        b'"' => Some(LexemeKind::Text),
        _ => None,
    }
}

/// The literal name or the number that begins with a byte.
fn word_sign(byte: u8) -> LexemeKind
    ensures { result ≡ word_sign byte }
{
    match byte {
        b't' | b'f' => LexemeKind::Truth,
        b'n' => LexemeKind::Null,
        _ => LexemeKind::Number,
    }
}

/// The lexeme that begins at a byte outside of a string, by whether a word may go on there.
fn kind_outside(goes_on: bool, byte: u8) -> Option<LexemeKind>
    ensures { result ≡ begun_outside goes_on byte (structural byte) }
{
    match structural(byte) {
        Some(sign) => Some(sign),
        None if is_space(byte) || goes_on => None,
        None => Some(word_sign(byte)),
    }
}

/// The lexeme that begins at a byte, if one does.
fn kind_begun_at(mode: Mode, byte: u8) -> Option<LexemeKind>
    ensures { result ≡ begun mode byte }
{
    match mode {
        Mode::Between => kind_outside(false, byte),
        Mode::Word => kind_outside(true, byte),
        Mode::Quoted | Mode::Escaped => None,
    }
}

/// The state after a byte outside of a string.
fn mode_outside(byte: u8) -> Mode
    ensures { result ≡ mode_outside byte (structural byte) }
{
    match structural(byte) {
        Some(LexemeKind::Text) => Mode::Quoted,
        Some(_) => Mode::Between,
        None if is_space(byte) => Mode::Between,
        None => Mode::Word,
    }
}

/// The state after a byte.
fn mode_after(mode: Mode, byte: u8) -> Mode
    ensures { result ≡ mode_after mode byte }
{
    match mode {
        Mode::Between | Mode::Word => mode_outside(byte),
        Mode::Quoted => match byte {
            b'"' => Mode::Between,
            b'\\' => Mode::Escaped,
            _ => Mode::Quoted,
        },
        Mode::Escaped => Mode::Quoted,
    }
}

/// The lexemes of a text.
///
/// # Errors
///
/// Out of memory.
pub(crate) fn lexemes_of(alloc: Global, text: &[u8]) -> Result<Vec<LexemeAt>, AllocError>
    ensures { IfOk result (λ marks. marks.items ≡ marks_of text.now) }
{
    let mut marks = Vec::new(alloc);
    let mut mode = Mode::Between;
    for (at, byte) in text.iter().enumerate() {
        if let Some(sign) = kind_begun_at(mode, *byte) {
            marks.push(LexemeAt { at, sign })?;
        }
        mode = mode_after(mode, *byte);
    }
    Ok(marks)
}
