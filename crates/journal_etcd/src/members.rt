//! Members of JSON answers.
ghost use Rattle.std.specs.Prelude.{◌≡◌};
ghost use Rattle.json.specs.Value.{value_view};
ghost use Rattle.journal_etcd.specs.Reading.{Gives, member, item_at, text_in, bytes_of, number_in, bytes_in, flag_in};

use crate::fault::{AnswerError, AnswerFault};
use crate::numbers::number_of;
use base64::DecodeAllocError;
use base64::engine::general_purpose::STANDARD;
use json::Value;
use std::alloc::Global;

/// The member of an object with this name.
#[tactic(auto, unfolding(crate::specs::Reading::member))]
pub(crate) fn member<'v, 'a>(value: &'v Value<'a>, name: &str) -> Result<&'v Value<'a>, AnswerError>
    ensures { Gives (λ v. value_view v.now) result (member name.now (value_view value.now)) }
{
    match value.get(name) {
        Some(found) => Ok(found),
        None => Err(AnswerError::Fault(AnswerFault::BadShape)),
    }
}

/// The item of an array at this index.
#[tactic(auto, unfolding(crate::specs::Reading::item_at))]
pub(crate) fn item_at<'v, 'a>(
    value: &'v Value<'a>,
    index: usize,
) -> Result<&'v Value<'a>, AnswerError>
    ensures { Gives (λ v. value_view v.now) result (item_at index (value_view value.now)) }
{
    match value.at(index) {
        Some(found) => Ok(found),
        None => Err(AnswerError::Fault(AnswerFault::BadShape)),
    }
}

/// The text that a value is.
#[tactic(auto, unfolding(crate::specs::Reading::text_in))]
fn text_in<'a>(value: &Value<'a>) -> Result<&'a str, AnswerError>
    ensures { Gives (λ t. t.now) result (text_in (value_view value.now)) }
{
    match value.as_str() {
        Some(text) => Ok(text),
        None => Err(AnswerError::Fault(AnswerFault::BadShape)),
    }
}

/// The bytes that a text is in base64, in its one form (RFC 4648, section 3.5).
#[tactic(auto, unfolding(crate::specs::Reading::bytes_of))]
fn bytes_of(alloc: Global, text: &[u8]) -> Result<Vec<u8>, AnswerError>
    ensures { Gives (λ bytes. bytes.items) result (bytes_of text.now) }
{
    match STANDARD.decode(alloc, text) {
        Ok(bytes) => Ok(bytes),
        Err(DecodeAllocError::OutOfMemory) => Err(AnswerError::NoMemory),
        Err(DecodeAllocError::DecodeError(_)) => Err(AnswerError::Fault(AnswerFault::BadShape)),
    }
}

/// The number that a member is.
#[tactic(auto, unfolding(crate::specs::Reading::number_in))]
pub(crate) fn number_in(value: &Value<'_>, name: &str) -> Result<u64, AnswerError>
    ensures { Gives (λ n. n) result (number_in name.now (value_view value.now)) }
{
    let found = member(value, name)?;
    let text = text_in(found)?;
    number_of(text.as_bytes())
}

/// The bytes that a member is.
#[tactic(auto, unfolding(crate::specs::Reading::bytes_in))]
pub(crate) fn bytes_in(alloc: Global, value: &Value<'_>, name: &str) -> Result<Vec<u8>, AnswerError>
    ensures { Gives (λ bytes. bytes.items) result (bytes_in name.now (value_view value.now)) }
{
    let found = member(value, name)?;
    let text = text_in(found)?;
    bytes_of(alloc, text.as_bytes())
}

/// Whether a member is `true`; one that is missing or another value isn't.
#[tactic(auto, unfolding(crate::specs::Reading::flag_in))]
pub(crate) fn flag_in(value: &Value<'_>, name: &str) -> bool
    ensures { result ≡ flag_in name.now (value_view value.now) }
{
    match value.get(name) {
        Some(found) => found.as_bool().unwrap_or(false),
        None => false,
    }
}
