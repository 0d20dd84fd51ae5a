//! Lines and columns of a text.
ghost use Rattle.std.specs.Prelude.{◌≡◌};
ghost use Rattle.cli_config.specs.Positions.{begins_char, past, place_at};

/// A position in a text. Lines and columns count from 1, columns in characters (Unicode scalar values).
#[derive(Clone, Copy, Debug, PartialEq, Eq)]
pub struct TextPosition {
    pub line: u64,
    pub column: u64,
}

/// Whether a byte begins a character of UTF-8 (RFC 3629, section 3).
fn begins_char(byte: u8) -> bool
    ensures { result ≡ begins_char byte }
{
    !(128 <= byte && byte <= 191)
}

/// The position of the byte with this offset; that of the end where the text has none.
pub fn position_of(text: &[u8], offset: usize) -> TextPosition
    ensures { result ≡ place_at text.now offset }
{
    let mut line = 1;
    let mut column = 1;
    for byte in &text[..offset.min(text.len())] {
        if *byte == b'\n' {
            line += 1;
            column = 1;
        } else if begins_char(*byte) {
            column += 1;
        }
    }
    TextPosition { line, column }
}
