//! Reading the members of a configuration.
ghost use Rattle.std.specs.Prelude.{◌≡◌, ◌≤◌, map, vec_len, length, IfOk};
ghost use Rattle.std.specs.List.{list_all};
ghost use Rattle.mds_text.specs.Fault.{Gives, text_cause};
ghost use Rattle.mds_text.specs.Fields.{each};
ghost use Rattle.mds_json.specs.Node.{node_view};
ghost use Rattle.mds_match.specs.declared.vehicle.TheConstants.{MOST_VEHICLES};
ghost use Rattle.mds_request.specs.declared.config.TheConstants.{MOST_OPERATORS};
ghost use Rattle.mds_request.specs.Configuration.{configuration, operator, is_access_byte, is_access_token, access_of, access_at, in_limits, limit_at, operator_of, operators_at, zone_at, configuration_of, read_configuration};
ghost use Rattle.mds_request.specs.Fault.{config_cause};

use crate::config::{Config, MOST_OPERATORS, MOST_TOKEN, Operator};
use crate::fault::ConfigFault;
use crate::lookup::are_alike;
use mds_json::{
    Node, NodeBuffer, document_of, int_of, object_of, required_id, required_list, required_member,
    required_text, text_of,
};
use mds_match::{MOST_VEHICLES, Zone};
use mds_text::{Field, TextFault};
use std::alloc::Global;

/// Reads a configuration. Out of memory may be reported as a fault of the text.
pub(crate) fn config_from(alloc: Global, text: &[u8]) -> Result<Config, ConfigFault>
    ensures { Gives config_cause configuration result (read_configuration text.now) }
{
    let mut source = NodeBuffer::new(alloc);
    let tree = source.read(alloc, text)?;
    config_of(alloc, &tree)
}

fn config_of(alloc: Global, tree: &Node<'_>) -> Result<Config, ConfigFault>
    ensures { Gives config_cause configuration result (configuration_of (node_view tree.now)) }
{
    let document = document_of(tree)?;
    let author = access_at(document, Field::Author)?;
    let operators = operators_at(alloc, document)?;
    let zone = zone_at(document)?;
    if are_alike(author, &operators) {
        return Err(ConfigFault::Alike);
    }
    let author = String::from_str(alloc, author)?;
    Ok(Config {
        author,
        operators,
        zone,
    })
}

/// A required member that is an access token.
fn access_at<'a>(document: &Node<'a>, field: Field) -> Result<&'a str, TextFault>
    ensures { Gives text_cause (λ s. s.now) result (access_at (node_view document.now) field) }
{
    access_of(required_member(document, field)?, field)
}

/// An access token: 1 to 64 letters, digits, `-` and `_`.
fn access_of<'a>(value: &Node<'a>, field: Field) -> Result<&'a str, TextFault>
    ensures { Gives text_cause (λ s. s.now) result (access_of field (node_view value.now)) }
{
    let text = text_of(value, field)?;
    if is_access_token(text.as_bytes()) {
        Ok(text)
    } else {
        Err(TextFault::BadField(field))
    }
}

fn is_access_token(text: &[u8]) -> bool
    ensures { result ≡ is_access_token text.now }
{
    1 <= text.len() && text.len() <= MOST_TOKEN && are_access_bytes(text)
}

fn are_access_bytes(text: &[u8]) -> bool
    ensures { result ≡ list_all is_access_byte text.now }
{
    text.iter().all(|byte| is_access_byte(*byte))
}

fn is_access_byte(byte: u8) -> bool
    ensures { result ≡ is_access_byte byte }
{
    byte.is_ascii_alphanumeric() || byte == b'-' || byte == b'_'
}

/// The required member `operators`.
fn operators_at(alloc: Global, document: &Node<'_>) -> Result<Vec<Operator>, ConfigFault>
    ensures reading { Gives config_cause (λ v. map operator v.items) result (operators_at (node_view document.now)) }
    ensures few { IfOk result (λ v. vec_len v ≤ MOST_OPERATORS) }
{
    let list = required_list(alloc, document, Field::Operators)?;
    let entries = list.as_slice();
    if entries.len() > MOST_OPERATORS {
        return Err(ConfigFault::TooManyOperators);
    }
    let operators = operators_of(alloc, entries)?;
    Ok(operators)
}

/// The operators in order, up to the first fault.
fn operators_of(alloc: Global, entries: &[Node<'_>]) -> Result<Vec<Operator>, TextFault>
    ensures reading { Gives text_cause (λ v. map operator v.items) result (each operator_of (map node_view entries.now)) }
    ensures count { IfOk result (λ v. vec_len v ≡ length entries.now) }
{
    let mut operators = Vec::with_capacity(alloc, entries.len())?;
    for entry in entries {
        operators.push(operator_of(alloc, entry)?)?;
    }
    Ok(operators)
}

fn operator_of(alloc: Global, value: &Node<'_>) -> Result<Operator, TextFault>
    ensures { Gives text_cause operator result (operator_of (node_view value.now)) }
{
    let entry = object_of(value, Field::Operators)?;
    let id = required_id(entry, Field::Id)?;
    let limit = limit_at(entry)?;
    let token = access_at(entry, Field::Token)?;
    let token = String::from_str(alloc, token)?;
    Ok(Operator { id, limit, token })
}

/// The member `limit`, from 1 to `MOST_VEHICLES`.
fn limit_at(entry: &Node<'_>) -> Result<usize, TextFault>
    ensures reading { Gives text_cause (λ n. n) result (limit_at (node_view entry.now)) }
    ensures least { IfOk result (λ n. 1 ≤ n) }
    ensures most { IfOk result (λ n. n ≤ MOST_VEHICLES) }
{
    let limit = int_of(required_member(entry, Field::Limit)?, Field::Limit)?;
    in_limits(limit)
}

/// A number from 1 to `MOST_VEHICLES`.
fn in_limits(limit: i64) -> Result<usize, TextFault>
    ensures reading { Gives text_cause (λ n. n) result (in_limits limit) }
    ensures least { IfOk result (λ n. 1 ≤ n) }
    ensures most { IfOk result (λ n. n ≤ MOST_VEHICLES) }
{
    if 1 <= limit && limit <= i64::from(MOST_VEHICLES) {
        Ok(limit as usize)
    } else {
        Err(TextFault::OutOfRange)
    }
}

/// The required member `zone`.
fn zone_at(document: &Node<'_>) -> Result<Zone, ConfigFault>
    ensures { Gives config_cause (λ z. z) result (zone_at (node_view document.now)) }
{
    let zone = Zone::read(required_text(document, Field::Zone)?)?;
    Ok(zone)
}
