//! Bytes from elsewhere, escaped for a terminal.
ghost use Rattle.std.specs.Prelude.{◌≡◌, ◌++◌, ◌<◌, ◌≤◌, IfOk, OnOk, string_bytes};
ghost use Rattle.cli_transfer.specs.Escapes.{is_shown, hex_digit, escaped_byte, escaped};

use std::alloc::{AllocError, Global};

/// Whether a byte is shown as it is.
pub(crate) fn is_shown(byte: u8) -> bool
    ensures { result ≡ is_shown byte }
{
    32 <= byte && byte <= 126 && byte != b'\\'
}

fn hex_digit(digit: u8) -> u8
    requires { digit < 16 }
    ensures value { result ≡ hex_digit digit }
    ensures within { result < 128 }
{
    if digit < 10 {
        b'0' + digit
    } else {
        b'a' + (digit - 10)
    }
}

/// Appends a byte, escaped where it isn't shown as it is.
fn push_escaped(text: &mut String, byte: u8) -> Result<(), AllocError>
    ensures { OnOk result (string_bytes text.new ≡ string_bytes text.old ++ escaped_byte byte) }
{
    if is_shown(byte) {
        text.push(char::from(byte))
    } else {
        text.push_str("\\x")?;
        text.push(char::from(hex_digit(byte / 16)))?;
        text.push(char::from(hex_digit(byte % 16)))
    }
}

/// Bytes escaped for a terminal: printable ASCII as it is, each other byte, and the backslash, as `\x` and two
/// hexadecimal digits. So nothing of a file or a server moves a cursor, changes a colour or begins a line.
pub fn escape_bytes(alloc: Global, bytes: &[u8]) -> Result<String, AllocError>
    ensures { IfOk result (λ text. string_bytes text ≡ escaped bytes.now) }
{
    let mut text = String::new(alloc);
    for byte in bytes {
        push_escaped(&mut text, *byte)?;
    }
    Ok(text)
}
