//! Tokens of a cluster's users: the request for one, and what it is answered.
ghost use Rattle.std.specs.Prelude.{◌≡◌, true, Some, string_bytes, codes, IfOk, option_and_then};
ghost use Rattle.std.specs.List.{list_all};
ghost use Rattle.json.specs.Find.{get, as_str};
ghost use Rattle.json.specs.Json.{Json, document};
ghost use Rattle.json.specs.Value.{value_view};
ghost use Rattle.journal_gateway.specs.Tokens.{token_json, is_token_byte, is_token};

use crate::fault::GatewayFault;
use json::{Error, Scratch, Value, Writer};
use std::alloc::{AllocError, Global};

/// Where a token is asked for.
pub(crate) const TOKEN_PATH: &str = "/v3/auth/authenticate";

/// The most bytes of a token that is used.
const MOST_TOKEN: usize = 4096;

/// The body of the request for a user's token.
pub fn token_request(alloc: Global, name: &str, password: &str) -> Result<Vec<u8>, AllocError>
    ensures { IfOk result (λ text. text.items ≡ token_json name.now password.now) }
{
    let mut writer = Writer::new(Vec::new(alloc));
    writer.begin_object()?;
    writer.key("name")?;
    writer.string(name)?;
    writer.key("password")?;
    writer.string(password)?;
    writer.end_object()?;
    Ok(writer.into_inner())
}

/// Whether a byte may stand in a token: printable ASCII, and no space.
fn is_token_byte(byte: u8) -> bool
    ensures { result ≡ is_token_byte byte }
{
    33 <= byte && byte <= 126
}

/// Whether all bytes may stand in a token.
fn are_token_bytes(text: &[u8]) -> bool
    ensures { result ≡ list_all is_token_byte text.now }
{
    text.iter().all(|byte| is_token_byte(*byte))
}

/// Whether a text may stand in the field of a request as a token.
fn is_token(text: &[u8]) -> bool
    ensures { result ≡ is_token text.now }
{
    !text.is_empty() && text.len() <= MOST_TOKEN && are_token_bytes(text)
}

/// The JSON that a body is.
///
/// # Errors
///
/// `NoToken` where it is none, `NoMemory`.
fn json_of<'a>(
    alloc: Global,
    body: &'a [u8],
    scratch: &'a mut Scratch<Global>,
) -> Result<Value<'a>, GatewayFault>
    ensures { IfOk result (λ value. document body.now ≡ Some (value_view value)) }
{
    match Value::from_slice(alloc, body, scratch) {
        Ok(value) => Ok(value),
        Err(Error::Invalid) => Err(GatewayFault::NoToken),
        Err(_) => Err(GatewayFault::NoMemory),
    }
}

/// Reads the body of the answer to a request for a token.
///
/// # Errors
///
/// `NoToken` where it has none that may stand in a request's field, `NoMemory`.
pub fn read_token(alloc: Global, body: &[u8]) -> Result<String, GatewayFault>
    ensures read { IfOk result (λ token. (answer : Json) × (document body.now ≡ Some answer)
        × (option_and_then as_str (get (codes "token") answer) ≡ Some (string_bytes token))) }
    ensures fits { IfOk result (λ token. is_token (string_bytes token) ≡ true) }
{
    let mut scratch = Scratch::new(alloc);
    let answer = json_of(alloc, body, &mut scratch)?;
    let Some(found) = answer.get("token") else {
        return Err(GatewayFault::NoToken);
    };
    let Some(text) = found.as_str() else {
        return Err(GatewayFault::NoToken);
    };
    if !is_token(text.as_bytes()) {
        return Err(GatewayFault::NoToken);
    }
    Ok(String::from_str(alloc, text)?)
}
