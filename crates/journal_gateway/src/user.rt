//! The user by which a cluster is asked.
ghost use Rattle.std.specs.Prelude.{◌≡◌, ◌+◌, ◌<◌, Some, length, take, drop, position, IfSome};
ghost use Rattle.journal_gateway.specs.Users.{without_line_end, is_colon, parts_of};

use std::str::from_utf8;

/// A user of etcd.
#[derive(Clone, Copy, Debug, PartialEq, Eq)]
pub struct GatewayUser<'a> {
    /// The user's name.
    pub name: &'a str,
    /// The user's password.
    pub password: &'a str,
}

/// The bytes without the one line end, LF or CR LF, behind them.
fn without_line_end(bytes: &[u8]) -> &[u8]
    ensures { result.now ≡ without_line_end bytes.now }
{
    if let Some(front) = bytes.strip_suffix(b"\r\n".as_slice()) {
        return front;
    }
    match bytes.strip_suffix(b"\n".as_slice()) {
        Some(front) => front,
        None => bytes,
    }
}

/// Where the first colon stands.
fn colon_in(text: &[u8]) -> Option<usize>
    ensures value { result ≡ position is_colon text.now }
    ensures bound { IfSome result (λ colon. colon < length text.now) }
{
    text.iter().position(|byte| *byte == b':')
}

/// The user whose name stands before a colon, and whose password behind it. `None` where either is no UTF-8, or there is
/// no name.
fn user_at(text: &[u8], colon: usize) -> Option<GatewayUser<'_>>
    requires { colon < length text.now }
    ensures name { IfSome result (λ user. user.name.now ≡ take colon text.now) }
    ensures password { IfSome result (λ user. user.password.now ≡ drop (colon + 1) text.now) }
    ensures named { IfSome result (λ user. 0 < length user.name.now) }
{
    let Ok(name) = from_utf8(&text[..colon]) else {
        return None;
    };
    let Ok(password) = from_utf8(&text[colon + 1..]) else {
        return None;
    };
    if name.is_empty() {
        return None;
    }
    Some(GatewayUser { name, password })
}

/// The user in the bytes of a file: name, colon and password, in UTF-8, with one line end behind them at the most. `None`
/// where there is no colon, or no name before the first one.
pub fn user_in(bytes: &[u8]) -> Option<GatewayUser<'_>>
    ensures parts { IfSome result (λ user. parts_of (without_line_end bytes.now) ≡ Some (user.name.now, user.password.now)) }
    ensures name { IfSome result (λ user. 0 < length user.name.now) }
{
    let text = without_line_end(bytes);
    match colon_in(text) {
        Some(colon) => user_at(text, colon),
        None => None,
    }
}
