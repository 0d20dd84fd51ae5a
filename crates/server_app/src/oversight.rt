//! How far the author sees how each operator stands, in a configuration's document.
ghost use Rattle.std.specs.Prelude.{◌≡◌, codes, map, option_map};
ghost use Rattle.mds_text.specs.Fault.{Gives, text_cause};
ghost use Rattle.mds_text.specs.Fields.{find_member};
ghost use Rattle.mds_text.specs.Tree.{members_of};
ghost use Rattle.mds_json.specs.Node.{node_member_view, node_view};
ghost use Rattle.server_app.specs.Oversight.{as_oversight, oversight_at, oversight_of, oversight_word};

use mds_json::{Node, NodeMember};
use mds_text::{Field, TextFault};

/// How far the author sees how each operator stands: the member `oversight` of a configuration. An operator is told it.
#[derive(Clone, Copy, Debug, PartialEq, Eq)]
pub enum Oversight {
    /// Not at all, `"none"`: what a configuration without the member says.
    Nothing,
    /// The author sees each operator's compliance, `"verdicts"`.
    Verdicts,
    /// The author sees each operator's compliance and its vehicles, `"vehicles"`.
    Vehicles,
}

impl Oversight {
    /// The text for it in a configuration.
    pub fn word(self) -> &'static str
        ensures { result.now ≡ oversight_word self }
    {
        match self {
            Oversight::Nothing => "none",
            Oversight::Verdicts => "verdicts",
            Oversight::Vehicles => "vehicles",
        }
    }
}

/// What a text stands for; where it is none of the three, nobody is watched.
fn oversight_of(word: &str) -> Oversight
    ensures { result ≡ oversight_of word.now }
{
    if word == "verdicts" {
        Oversight::Verdicts
    } else if word == "vehicles" {
        Oversight::Vehicles
    } else {
        Oversight::Nothing
    }
}

/// What a value stands for; where it is absent, or no text, nobody is watched.
fn as_oversight(value: Option<&Node<'_>>) -> Oversight
    ensures { result ≡ as_oversight (option_map (λ t. node_view t.now) value.entry) }
{
    match value {
        Some(Node::Text(word)) => oversight_of(word),
        _ => Oversight::Nothing,
    }
}

/// The first member of this name.
fn find_member<'t, 'a>(members: &'t [NodeMember<'a>], name: &str) -> Option<&'t Node<'a>>
    ensures { option_map (λ t. node_view t.now) result ≡ find_member name.now (members_of (map node_member_view members.now)) }
{
    for member in members {
        if member.name == name {
            return Some(&member.value);
        }
    }
    None
}

/// What these members say.
fn oversight_in(members: &[NodeMember<'_>]) -> Oversight
    ensures { result ≡ as_oversight (find_member (codes "oversight") (members_of (map node_member_view members.now))) }
{
    as_oversight(find_member(members, "oversight"))
}

/// How far the author sees how each operator stands, by a configuration's document. A value other than the three texts
/// counts as `"none"`, so that nobody is watched by mistake: `cli_config` finds it, and no server starts with it.
///
/// # Errors
///
/// `BadField` of the document where it is no object.
pub(crate) fn oversight_at(document: &Node<'_>) -> Result<Oversight, TextFault>
    ensures { Gives text_cause (λ o. o) result (oversight_at (node_view document.now)) }
{
    match document {
        Node::Object(members) => Ok(oversight_in(members)),
        _ => Err(TextFault::BadField(Field::Document)),
    }
}
