//! Members of an imported document.
ghost use Rattle.std.specs.Prelude.{◌≡◌, map, option_map};
ghost use Rattle.mds_text.specs.Fields.{find_member};
ghost use Rattle.mds_text.specs.Tree.{members_of};
ghost use Rattle.mds_text.specs.View.{view, member_view};
ghost use Rattle.cli_documents.specs.Members.{named, as_text, as_id, as_list, text_named, id_named, list_named};

use mds_text::{Id, Member, Tree};

/// The first member of this name.
fn find_member<'t>(members: &'t [Member], name: &str) -> Option<&'t Tree>
    ensures { option_map (λ t. view t.now) result ≡ find_member name.now (members_of (map member_view members.now)) }
{
    for member in members {
        if member.name.as_str() == name {
            return Some(&member.value);
        }
    }
    None
}

/// The member of this name; `None` where it is absent or null, and where the value is no object.
pub fn member_of<'t>(value: &'t Tree, name: &str) -> Option<&'t Tree>
    ensures { option_map (λ t. view t.now) result ≡ named name.now (view value.now) }
{
    let Tree::Object(members) = value else {
        return None;
    };
    match find_member(members, name) {
        Some(Tree::Null) => None,
        found => found,
    }
}

/// The value as a text; `None` where it is none.
pub(crate) fn as_text(value: &Tree) -> Option<&str>
    ensures { option_map (λ s. s.now) result ≡ as_text (view value.now) }
{
    match value {
        Tree::Text(text) => Some(text.as_str()),
        _ => None,
    }
}

/// The value as an identifier (RFC 9562, section 4); `None` where it is none.
pub(crate) fn as_id(value: &Tree) -> Option<Id>
    ensures { result ≡ as_id (view value.now) }
{
    match as_text(value) {
        Some(text) => Id::read(text),
        None => None,
    }
}

/// The entries of a value that is a list.
pub(crate) fn as_list(value: &Tree) -> Option<&[Tree]>
    ensures { option_map (λ ts. map view ts.now) result ≡ as_list (view value.now) }
{
    match value {
        Tree::List(entries) => Some(entries),
        _ => None,
    }
}

/// The member of this name, where it is a text.
pub fn text_member<'t>(value: &'t Tree, name: &str) -> Option<&'t str>
    ensures { option_map (λ s. s.now) result ≡ text_named name.now (view value.now) }
{
    match member_of(value, name) {
        Some(found) => as_text(found),
        None => None,
    }
}

/// The member of this name, where it is an identifier.
pub fn id_member(value: &Tree, name: &str) -> Option<Id>
    ensures { result ≡ id_named name.now (view value.now) }
{
    match member_of(value, name) {
        Some(found) => as_id(found),
        None => None,
    }
}

/// The entries of the member of this name, where it is a list.
pub fn list_member<'t>(value: &'t Tree, name: &str) -> Option<&'t [Tree]>
    ensures { option_map (λ ts. map view ts.now) result ≡ list_named name.now (view value.now) }
{
    match member_of(value, name) {
        Some(found) => as_list(found),
        None => None,
    }
}
