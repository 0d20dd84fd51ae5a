//! Reading the next token where its kind is expected already.
ghost use Rattle.std.specs.Prelude.{◌≡◌, ◌<◌, ◌∷◌, length, IfSome, IsTrue};
ghost use Rattle.json.specs.Print.{IsNumber};
ghost use Rattle.json.specs.Token.{begin_array, number, string};

use json::{Reader, Token};

/// The byte of the text at this place, or a space beyond its end. It is a guess at the next token,
/// and no contract says anything of it.
#[inline(always)]
pub(crate) fn byte_or_space(text: &[u8], place: usize) -> u8 {
    if place < text.len() {
        text[place]
    } else {
        b' '
    }
}

/// The number that comes next; an empty string where another token does, which is lost. An `Option`
/// of a string would be returned through memory.
#[inline(never)]
pub(crate) fn next_number<'a>(reader: &mut Reader<'a>) -> &'a str
    ensures some { 0 < length result.now → reader.old ≡ number result.now ∷ reader.new }
    ensures number { 0 < length result.now → IsNumber result.now }
{
    match reader.next() {
        Some(Token::Number(text)) => text,
        _ => "",
    }
}

/// The string that comes next; `None` where another token does, which is lost.
#[inline(never)]
pub(crate) fn next_string<'a>(reader: &mut Reader<'a>) -> Option<&'a str>
    ensures { IfSome result (λ s. reader.old ≡ string s.now ∷ reader.new) }
{
    match reader.next() {
        Some(Token::String(text)) => Some(text),
        _ => None,
    }
}

/// Whether the bracket that opens a list comes next. Another token is lost.
#[inline(never)]
pub(crate) fn opens_list(reader: &mut Reader<'_>) -> bool
    ensures { IsTrue result → reader.old ≡ begin_array ∷ reader.new }
{
    matches!(reader.next(), Some(Token::BeginArray))
}
