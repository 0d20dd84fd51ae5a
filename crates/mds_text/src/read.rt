//! Reads a JSON text into a tree.
ghost use Rattle.std.specs.Prelude.{◌≡◌, IfOk, map};
ghost use Rattle.mds_text.specs.Fault.{Gives, text_cause};
ghost use Rattle.mds_text.specs.Reading.{json_of, items_from, members_from, plain_int, read_json, read_text};
ghost use Rattle.mds_text.specs.Quoting.{quoted_count};
ghost use Rattle.mds_text.specs.Tree.{items_of, members_of};
ghost use Rattle.mds_text.specs.View.{view, member_view};
ghost use Rattle.serde_json.specs.View.{view as data_view, number_view, items_view, members_view};

use crate::fault::TextFault;
use crate::quote::quote_numbers;
use crate::tree::{Member, Tree};
use serde_json::{Map, Number, Value};
use std::alloc::Global;

/// Just above the greatest plain whole number, which has 18 digits.
const LIMIT: i64 = 1_000_000_000_000_000_000;

/// Reads a JSON text (RFC 8259) of at most 127 levels. Numbers that aren't plain become strings; of
/// equal names in one object the last is kept. `BadJson` where the text is not such a text, or not
/// UTF-8.
pub fn read_tree(alloc: Global, bytes: &[u8]) -> Result<Tree, TextFault>
    ensures { Gives text_cause view result (read_text bytes.now) }
{
    let (tree, _quoted) = read_and_count(alloc, bytes)?;
    Ok(tree)
}

/// Reads a text as `read_tree` does, and counts its numbers that aren't plain.
pub fn read_and_count(alloc: Global, bytes: &[u8]) -> Result<(Tree, u64), TextFault>
    ensures tree { Gives text_cause (λ r. view r.0) result (read_text bytes.now) }
    ensures quoted { IfOk result (λ r. r.1 ≡ quoted_count bytes.now) }
{
    let (text, quoted) = quote_numbers(alloc, bytes)?;
    let tree = read_json(alloc, &text)?;
    Ok((tree, quoted))
}

fn read_json(alloc: Global, bytes: &[u8]) -> Result<Tree, TextFault>
    ensures { Gives text_cause view result (read_json bytes.now) }
{
    match Value::from_slice(alloc, bytes) {
        Ok(value) => tree_from(alloc, value),
        Err(error) => {
            if error.is_memory() {
                Err(TextFault::NoMemory)
            } else {
                Err(TextFault::BadJson)
            }
        }
    }
}

/// A plain whole number; `BadJson` for any other.
fn int_from(number: Number) -> Result<i64, TextFault>
    ensures { Gives text_cause (λ z. z) result (plain_int (number_view number)) }
{
    match number.as_i64() {
        Some(int) if -LIMIT < int && int < LIMIT => Ok(int),
        _ => Err(TextFault::BadJson),
    }
}

#[cycle(tree_from)]
fn tree_from(alloc: Global, value: Value) -> Result<Tree, TextFault>
    ensures { Gives text_cause view result (json_of (data_view value)) }
{
    match value {
        Value::Null => Ok(Tree::Null),
        Value::Bool(b) => Ok(Tree::Bool(b)),
        Value::Number(number) => Ok(Tree::Int(int_from(number)?)),
        Value::String(text) => Ok(Tree::Text(text)),
        Value::Array(values) => Ok(Tree::List(list_from(alloc, values)?)),
        Value::Object(members) => Ok(Tree::Object(object_from(alloc, members)?)),
    }
}

#[cycle(tree_from)]
fn list_from(alloc: Global, values: Vec<Value>) -> Result<Vec<Tree>, TextFault>
    ensures { Gives text_cause (λ v. items_of (map view v.items)) result (items_from (items_view values.items)) }
{
    let mut found = Vec::with_capacity(alloc, values.len())?;
    for value in values {
        found.push(tree_from(alloc, value)?)?;
    }
    Ok(found)
}

#[cycle(tree_from)]
fn object_from(alloc: Global, members: Map<String, Value>) -> Result<Vec<Member>, TextFault>
    ensures { Gives text_cause (λ v. members_of (map member_view v.items)) result (members_from (members_view members.entries)) }
{
    let mut found = Vec::with_capacity(alloc, members.len())?;
    for (name, value) in members {
        let value = tree_from(alloc, value)?;
        found.push(Member { name, value })?;
    }
    Ok(found)
}
