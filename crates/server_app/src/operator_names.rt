//! The operators' names, how far the author sees how they stand, and the zone in a configuration's text, for people.
ghost use Rattle.std.specs.Prelude.{◌≡◌, IfSome, map, option_and_then, option_map, string_bytes};
ghost use Rattle.mds_text.specs.Fault.{Gives, text_cause};
ghost use Rattle.mds_text.specs.Fields.{each};
ghost use Rattle.mds_json.specs.Node.{node_view};
ghost use Rattle.server_app.specs.OperatorNames.{as_name, badge_of, badge_view, badges_of, badges_view, name_at, read_badges};

use crate::oversight::{Oversight, oversight_at};
use mds_json::{
    Node, NodeBuffer, document_of, member_at, object_of, required_id, required_list, required_text,
};
use mds_text::{Field, Id, TextFault};
use std::alloc::{AllocError, Global};

/// The most bytes of an operator's name.
pub const MOST_NAME: usize = 256;

/// An operator's identifier and name.
#[derive(Drop)]
pub struct OperatorName {
    pub id: Id,
    /// The operator's name, where the configuration gives one: at most `MOST_NAME` bytes.
    pub name: Option<String>,
}

/// The operators' identifiers and names, in the configuration's order, how far the author sees how each stands, and the
/// zone as it is written.
#[derive(Drop)]
pub struct OperatorNames {
    pub(crate) operators: Vec<OperatorName>,
    pub(crate) oversight: Oversight,
    pub(crate) zone: String,
}

impl OperatorNames {
    /// Reads a configuration's text: of each operator its `id` and its `name`, the `oversight` and the `zone`. A name is
    /// a text of at most 256 bytes; any other value of that member is ignored. So is a value of `oversight` that is
    /// none of its texts: nobody is watched. The text of each `mds_request::Config` can be read so.
    ///
    /// # Errors
    ///
    /// The text is no JSON object with such operators and a zone; `NoMemory`.
    pub fn read(alloc: Global, text: &[u8]) -> Result<OperatorNames, TextFault>
        ensures { Gives text_cause badges_view result (read_badges text.now) }
    {
        let mut source = NodeBuffer::new(alloc);
        let tree = source.read(alloc, text)?;
        operator_names_of(alloc, &tree)
    }

    /// Each operator's identifier and name, in the configuration's order.
    pub fn operators(&self) -> &[OperatorName]
        ensures { map badge_view result.now ≡ (badges_view self.now).operators }
    {
        &self.operators
    }

    /// How far the author sees how each operator stands.
    pub fn oversight(&self) -> Oversight
        ensures { result ≡ (badges_view self.now).oversight }
    {
        self.oversight
    }
}

fn operator_names_of(alloc: Global, tree: &Node<'_>) -> Result<OperatorNames, TextFault>
    ensures { Gives text_cause badges_view result (badges_of (node_view tree.now)) }
{
    let document = document_of(tree)?;
    let list = required_list(alloc, document, Field::Operators)?;
    let operators = operator_names_in(alloc, list.as_slice())?;
    let oversight = oversight_at(document)?;
    let zone = String::from_str(alloc, required_text(document, Field::Zone)?)?;
    Ok(OperatorNames {
        operators,
        oversight,
        zone,
    })
}

/// Each operator's identifier and name, in their order, up to the first fault.
fn operator_names_in(alloc: Global, entries: &[Node<'_>]) -> Result<Vec<OperatorName>, TextFault>
    ensures { Gives text_cause (λ v. map badge_view v.items) result (each badge_of (map node_view entries.now)) }
{
    let mut badges = Vec::with_capacity(alloc, entries.len())?;
    for entry in entries {
        badges.push(operator_name_of(alloc, entry)?)?;
    }
    Ok(badges)
}

fn operator_name_of(alloc: Global, value: &Node<'_>) -> Result<OperatorName, TextFault>
    ensures { Gives text_cause badge_view result (badge_of (node_view value.now)) }
{
    let entry = object_of(value, Field::Operators)?;
    let id = required_id(entry, Field::Id)?;
    let name = name_at(alloc, entry)?;
    Ok(OperatorName { id, name })
}

/// The name of an operator, where it has one.
fn name_at(alloc: Global, entry: &Node<'_>) -> Result<Option<String>, TextFault>
    ensures { Gives text_cause (option_map string_bytes) result (name_at (node_view entry.now)) }
{
    match name_in(member_at(entry, Field::Name)?) {
        Some(name) => Ok(Some(String::from_str(alloc, name)?)),
        None => Ok(None),
    }
}

/// The name in a value, if it is one.
fn name_in<'a>(value: Option<&Node<'a>>) -> Option<&'a str>
    ensures { option_map (λ s. s.now) result ≡ option_and_then as_name (option_map (λ t. node_view t.now) value.entry) }
{
    match value {
        Some(Node::Text(text)) if text.len() <= MOST_NAME => Some(text),
        _ => None,
    }
}
