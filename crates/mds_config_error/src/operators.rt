//! Reading the operators of a configuration, with the place of the first that has a flaw.
ghost use Rattle.std.specs.Prelude.{◌≡◌, map, length, vec_len, IfOk};
ghost use Rattle.std.specs.List.{list_all};
ghost use Rattle.mds_text.specs.Fault.{Gives, text_cause, IsCaused};
ghost use Rattle.mds_json.specs.Node.{node_view};
ghost use Rattle.mds_request.specs.Configuration.{is_access_byte, is_access_token, access_at, in_limits};
ghost use Rattle.mds_config_error.specs.Diagnosis.{says, says_at, operator_of, each_from};
ghost use Rattle.mds_config_error.specs.Relations.{operator, Shows, Tells};
ghost use Rattle.mds_text.specs.Fields.{required_at, int_of};
ghost use Rattle.mds_text.specs.declared.field.Field.TheVariants.{Limit as LimitName};
ghost use Rattle.mds_config_error.specs.declared.wrong.OperatorFlaw.TheVariants as flaw;

use crate::stop::DiagnosisStop;
use crate::wrong::{OperatorFlaw, Wrong};
use mds_json::{Node, int_of, object_of, required_id, required_member, text_of};
use mds_match::MOST_VEHICLES;
use mds_request::MOST_TOKEN;
use mds_text::{Field, Id, TextFault};
use std::alloc::Global;

/// An operator as it is read.
#[derive(Drop)]
pub(crate) struct ReadOperator {
    pub(crate) id: Id,
    pub(crate) limit: usize,
    pub(crate) token: String,
}

/// The operators in order, up to the first that has a flaw.
pub(crate) fn operators_of(
    alloc: Global,
    entries: &[Node<'_>],
) -> Result<Vec<ReadOperator>, DiagnosisStop>
    ensures reading { Tells (λ v. map operator v.items) result (each_from 0 (map node_view entries.now)) }
    ensures count { IfOk result (λ v. vec_len v ≡ length entries.now) }
{
    let mut operators = Vec::with_capacity(alloc, entries.len())?;
    for entry in entries {
        let place = operators.len();
        operators.push(operator_at(alloc, place, entry)?)?;
    }
    Ok(operators)
}

/// The operator at this place.
fn operator_at(alloc: Global, place: usize, value: &Node<'_>) -> Result<ReadOperator, DiagnosisStop>
    ensures { Tells operator result (says_at place (operator_of (node_view value.now))) }
{
    match operator_of(value) {
        Ok((id, limit, token)) => {
            let token = String::from_str(alloc, token)?;
            Ok(ReadOperator { id, limit, token })
        }
        Err(flaw) => Err(DiagnosisStop::Wrong(Wrong::Operator(place, flaw))),
    }
}

/// An operator's identifier, limit and access token, or the first flaw.
fn operator_of<'a>(value: &Node<'a>) -> Result<(Id, usize, &'a str), OperatorFlaw>
    ensures { Shows (λ o. record { id = o.0; limit = o.1; token = o.2.now }) result (operator_of (node_view value.now)) }
{
    let Ok(entry) = object_of(value, Field::Operators) else {
        return Err(OperatorFlaw::Entry);
    };
    let Ok(id) = required_id(entry, Field::Id) else {
        return Err(OperatorFlaw::Id);
    };
    let Ok(number) = number_at(entry) else {
        return Err(OperatorFlaw::Limit);
    };
    let limit = in_limits(number)?;
    let Ok(token) = access_at(entry, Field::Token) else {
        return Err(OperatorFlaw::Token);
    };
    Ok((id, limit, token))
}

/// The member `limit`, a whole number.
fn number_at(entry: &Node<'_>) -> Result<i64, TextFault>
    ensures value { Gives text_cause (λ z. z) result (required_at int_of (node_view entry.now) LimitName) }
    ensures memory { IsCaused result }
{
    int_of(required_member(entry, Field::Limit)?, Field::Limit)
}

/// A limit from 1 to `MOST_VEHICLES`.
fn in_limits(number: i64) -> Result<usize, OperatorFlaw>
    ensures { Shows (λ n. n) result (says flaw.LimitRange (in_limits number)) }
{
    if 1 <= number && number <= i64::from(MOST_VEHICLES) {
        Ok(number as usize)
    } else {
        Err(OperatorFlaw::LimitRange)
    }
}

/// A required access token: 1 to 64 letters, digits, `-` and `_`.
pub(crate) fn access_at<'a>(document: &Node<'a>, field: Field) -> Result<&'a str, TextFault>
    ensures value { Gives text_cause (λ s. s.now) result (access_at (node_view document.now) field) }
    ensures memory { IsCaused result }
{
    let text = text_of(required_member(document, field)?, field)?;
    if is_access_token(text.as_bytes()) {
        Ok(text)
    } else {
        Err(TextFault::BadField(field))
    }
}

fn is_access_token(text: &[u8]) -> bool
    ensures { result ≡ is_access_token text.now }
{
    1 <= text.len() && text.len() <= MOST_TOKEN && are_access_bytes(text)
}

fn are_access_bytes(text: &[u8]) -> bool
    ensures { result ≡ list_all is_access_byte text.now }
{
    text.iter().all(|byte| is_access_byte(*byte))
}

fn is_access_byte(byte: u8) -> bool
    ensures { result ≡ is_access_byte byte }
{
    byte.is_ascii_alphanumeric() || byte == b'-' || byte == b'_'
}
