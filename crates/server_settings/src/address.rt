//! Addresses of map tiles.
ghost use Rattle.std.specs.Prelude.{◌≡◌, ◌≤◌, length, option_copied};
ghost use Rattle.std.specs.List.{list_all, prefix_len};
ghost use Rattle.std.specs.Char.{is_ascii_digit};
ghost use Rattle.server_settings.specs.Address.{
  begins_with,
  behind,
  behind_digits,
  behind_host,
  behind_origin,
  behind_port,
  behind_scheme,
  is_address,
  is_host_byte,
  is_path,
  is_path_byte,
  origin_of,
  times,
};

/// The most bytes of an address.
const MOST_ADDRESS: usize = 256;

/// The most digits of a port.
const MOST_DIGITS: usize = 5;

/// What follows the word that a text begins with.
fn behind<'a>(word: &[u8], text: &'a [u8]) -> Option<&'a [u8]>
    ensures { option_copied result ≡ behind word.now text.now }
{
    text.strip_prefix(word)
}

/// What follows the scheme: `https://` or `http://`.
fn behind_scheme(address: &[u8]) -> Option<&[u8]>
    ensures { option_copied result ≡ behind_scheme address.now }
{
    match behind(b"https://", address) {
        Some(rest) => Some(rest),
        None => behind(b"http://", address),
    }
}

/// Whether a byte may stand in a host.
fn is_host_byte(byte: u8) -> bool
    ensures { result ≡ is_host_byte byte }
{
    byte.is_ascii_alphanumeric() || byte == b'-' || byte == b'.'
}

/// How many bytes of a host a text begins with.
fn host_len(text: &[u8]) -> usize
    ensures value { result ≡ prefix_len is_host_byte text.now }
    ensures within { result ≤ length text.now }
{
    text.iter().take_while(|byte| is_host_byte(**byte)).count()
}

/// What follows the host.
fn behind_host(text: &[u8]) -> Option<&[u8]>
    ensures { option_copied result ≡ behind_host text.now }
{
    let len = host_len(text);
    if len == 0 { None } else { Some(&text[len..]) }
}

/// How many digits a text begins with.
fn digits_len(text: &[u8]) -> usize
    ensures value { result ≡ prefix_len is_ascii_digit text.now }
    ensures within { result ≤ length text.now }
{
    text.iter().take_while(|byte| byte.is_ascii_digit()).count()
}

/// What follows the digits of a port.
fn behind_digits(text: &[u8]) -> Option<&[u8]>
    ensures { option_copied result ≡ behind_digits text.now }
{
    let len = digits_len(text);
    if 1 <= len && len <= MOST_DIGITS {
        Some(&text[len..])
    } else {
        None
    }
}

/// What follows the port, if there is one.
fn behind_port(text: &[u8]) -> Option<&[u8]>
    ensures { option_copied result ≡ behind_port text.now }
{
    match text {
        [b':', rest @ ..] => behind_digits(rest),
        _ => Some(text),
    }
}

/// Whether a byte may stand in a path: none that could end a content policy, or a part of it.
fn is_path_byte(byte: u8) -> bool
    ensures { result ≡ is_path_byte byte }
{
    33 <= byte && byte <= 126 && !matches!(byte, b'"' | b'\'' | b',' | b';')
}

/// Whether all bytes may stand in a path.
fn has_path_bytes(path: &[u8]) -> bool
    ensures { result ≡ list_all is_path_byte path.now }
{
    path.iter().all(|byte| is_path_byte(*byte))
}

/// Whether a text begins with a word.
fn begins_with(word: &[u8], text: &[u8]) -> bool
    ensures { result ≡ begins_with word.now text.now }
{
    text.starts_with(word)
}

/// At how many places of a text a word stands.
fn times(word: &[u8], text: &[u8]) -> usize
    ensures { result ≡ times word.now text.now }
{
    let mut count = 0;
    for place in 0..text.len() {
        let (_, rest) = text.split_at(place);
        if begins_with(word, rest) {
            count += 1;
        }
    }
    count
}

/// Whether a path has the zoom, the column and the row of a tile, once each.
fn is_path(path: &[u8]) -> bool
    ensures { result ≡ is_path path.now }
{
    begins_with(b"/", path)
        && has_path_bytes(path)
        && times(b"{z}", path) == 1
        && times(b"{x}", path) == 1
        && times(b"{y}", path) == 1
}

/// What follows the origin: a scheme, a host and an optional port.
fn behind_origin(address: &[u8]) -> Option<&[u8]>
    ensures { option_copied result ≡ behind_origin address.now }
{
    behind_port(behind_host(behind_scheme(address)?)?)
}

/// Whether a text is an address of map tiles, as `https://tiles.example.org/{z}/{x}/{y}.png`.
pub(crate) fn is_address(address: &[u8]) -> bool
    ensures { result ≡ is_address address.now }
{
    if MOST_ADDRESS < address.len() {
        return false;
    }
    match behind_origin(address) {
        Some(path) => is_path(path),
        None => false,
    }
}

/// The origin of an address.
pub(crate) fn origin_of(address: &[u8]) -> &[u8]
    ensures { result.now ≡ origin_of address.now }
{
    match behind_origin(address) {
        Some(path) => &address[..address.len().saturating_sub(path.len())],
        None => &[],
    }
}
