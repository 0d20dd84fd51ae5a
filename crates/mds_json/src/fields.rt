//! The members of a document, each read as one kind of value. Each function takes a document and
//! the name of a member. An absent member and one that is null are `None`; a document that is no
//! object and a member of another kind are a bad field of that name.
ghost use Rattle.std.specs.Prelude.{◌≡◌, option_map, map};
ghost use Rattle.mds_text.specs.Fault.{Gives, IsCaused, text_cause};
ghost use Rattle.mds_text.specs.Fields.{find_member, member_at, optional_at, required_at, required_member, object_of, document_of};
ghost use Rattle.mds_text.specs.Fields.{text_of, bool_of, int_of, id_of, token_of, moment_of, bound_of, list_of, list_each};
ghost use Rattle.mds_json.specs.Entries.{entries_view, IsCausedWhere};
ghost use Rattle.mds_text.specs.Tree.{members_of};
ghost use Rattle.mds_json.specs.Node.{node_view, node_member_view};

use crate::entries::{Entries, entries_of};
use crate::node::{Node, NodeMember};
use mds_text::{Field, Id, Moment, TextFault, Token};
use std::alloc::Global;

/// The greatest bound of a rule.
const MOST_BOUND: i64 = 1_000_000_000;

/// A document, which must be an object. Anything else is the bad field `document`.
pub fn document_of<'t, 'a>(tree: &'t Node<'a>) -> Result<&'t Node<'a>, TextFault>
    ensures value { Gives text_cause (λ t. node_view t.now) result (document_of (node_view tree.now)) }
    ensures memory { IsCaused result }
{
    object_of(tree, Field::Document)
}

/// The value, which must be an object. Anything else is a bad field of this name.
pub fn object_of<'t, 'a>(tree: &'t Node<'a>, field: Field) -> Result<&'t Node<'a>, TextFault>
    ensures value { Gives text_cause (λ t. node_view t.now) result (object_of field (node_view tree.now)) }
    ensures memory { IsCaused result }
{
    match tree {
        Node::Object(_) => Ok(tree),
        _ => Err(TextFault::BadField(field)),
    }
}

/// The member of this name, where it is present and isn't null.
pub fn member_at<'t, 'a>(
    document: &'t Node<'a>,
    field: Field,
) -> Result<Option<&'t Node<'a>>, TextFault>
    ensures value { Gives text_cause (option_map (λ t. node_view t.now)) result (member_at (node_view document.now) field) }
    ensures memory { IsCaused result }
{
    let Node::Object(members) = document else {
        return Err(TextFault::BadField(field));
    };
    match find_member(members, field.name()) {
        Some(Node::Null) => Ok(None),
        found => Ok(found),
    }
}

fn find_member<'t, 'a>(members: &'t [NodeMember<'a>], name: &str) -> Option<&'t Node<'a>>
    ensures { option_map (λ t. node_view t.now) result ≡ find_member name.now (members_of (map node_member_view members.now)) }
{
    for member in members {
        if member.name == name {
            return Some(&member.value);
        }
    }
    None
}

/// A string. Any other value is a bad field of this name.
pub fn text_of<'a>(value: &Node<'a>, field: Field) -> Result<&'a str, TextFault>
    ensures value { Gives text_cause (λ s. s.now) result (text_of field (node_view value.now)) }
    ensures memory { IsCaused result }
{
    match value {
        Node::Text(text) => Ok(text),
        _ => Err(TextFault::BadField(field)),
    }
}

/// A boolean.
fn bool_of(value: &Node<'_>, field: Field) -> Result<bool, TextFault>
    ensures value { Gives text_cause (λ b. b) result (bool_of field (node_view value.now)) }
    ensures memory { IsCaused result }
{
    match value {
        Node::Bool(b) => Ok(*b),
        _ => Err(TextFault::BadField(field)),
    }
}

/// An identifier: a UUID in any of its spellings (RFC 9562, section 4).
fn id_of(value: &Node<'_>, field: Field) -> Result<Id, TextFault>
    ensures value { Gives text_cause (λ id. id) result (id_of field (node_view value.now)) }
    ensures memory { IsCaused result }
{
    let text = text_of(value, field)?;
    Id::read(text).ok_or(TextFault::BadField(field))
}

/// A token: a word of the vocabulary.
fn token_of(value: &Node<'_>, field: Field) -> Result<Token, TextFault>
    ensures value { Gives text_cause (λ token. token) result (token_of field (node_view value.now)) }
    ensures memory { IsCaused result }
{
    let text = text_of(value, field)?;
    Token::read(text).ok_or(TextFault::BadField(field))
}

/// A moment (MDS 2.0, timestamps): a whole number, `OutOfRange` before 1970 or after 2099.
fn moment_of(value: &Node<'_>, field: Field) -> Result<Moment, TextFault>
    ensures value { Gives text_cause (λ moment. moment) result (moment_of field (node_view value.now)) }
    ensures memory { IsCaused result }
{
    let millis = int_of(value, field)?;
    Moment::new(millis).ok_or(TextFault::OutOfRange)
}

/// A plain whole number. Any other value is a bad field of this name.
pub fn int_of(value: &Node<'_>, field: Field) -> Result<i64, TextFault>
    ensures value { Gives text_cause (λ z. z) result (int_of field (node_view value.now)) }
    ensures memory { IsCaused result }
{
    match value {
        Node::Int(int) => Ok(*int),
        _ => Err(TextFault::BadField(field)),
    }
}

/// A rule's bound: a whole number, `OutOfRange` below 0 or above 1,000,000,000.
fn bound_of(value: &Node<'_>, field: Field) -> Result<u64, TextFault>
    ensures value { Gives text_cause (λ bound. bound) result (bound_of field (node_view value.now)) }
    ensures memory { IsCaused result }
{
    let bound = int_of(value, field)?;
    if 0 <= bound && bound <= MOST_BOUND {
        Ok(bound as u64)
    } else {
        Err(TextFault::OutOfRange)
    }
}

/// A list of identifiers, read in order up to the first fault.
fn ids_of(alloc: Global, value: &Node<'_>, field: Field) -> Result<Vec<Id>, TextFault>
    ensures value { Gives text_cause (λ v. v.items) result (list_each id_of field (node_view value.now)) }
    ensures memory { IsCausedWhere (list_of field (node_view value.now)) result }
{
    let list = entries_of(alloc, value, field)?;
    let entries = list.as_slice();
    let mut found = Vec::with_capacity(alloc, entries.len())?;
    for entry in entries {
        found.push(id_of(entry, field)?)?;
    }
    Ok(found)
}

/// A list of tokens, read in order up to the first fault.
pub fn tokens_of(alloc: Global, value: &Node<'_>, field: Field) -> Result<Vec<Token>, TextFault>
    ensures value { Gives text_cause (λ v. v.items) result (list_each token_of field (node_view value.now)) }
    ensures memory { IsCausedWhere (list_of field (node_view value.now)) result }
{
    let list = entries_of(alloc, value, field)?;
    let entries = list.as_slice();
    let mut found = Vec::with_capacity(alloc, entries.len())?;
    for entry in entries {
        found.push(token_of(entry, field)?)?;
    }
    Ok(found)
}

/// An optional string.
pub fn text_at<'a>(document: &Node<'a>, field: Field) -> Result<Option<&'a str>, TextFault>
    ensures value { Gives text_cause (option_map (λ s. s.now)) result (optional_at text_of (node_view document.now) field) }
    ensures memory { IsCaused result }
{
    match member_at(document, field)? {
        Some(value) => Ok(Some(text_of(value, field)?)),
        None => Ok(None),
    }
}

/// An optional boolean.
pub fn bool_at(document: &Node<'_>, field: Field) -> Result<Option<bool>, TextFault>
    ensures value { Gives text_cause (option_map (λ b. b)) result (optional_at bool_of (node_view document.now) field) }
    ensures memory { IsCaused result }
{
    match member_at(document, field)? {
        Some(value) => Ok(Some(bool_of(value, field)?)),
        None => Ok(None),
    }
}

/// An optional identifier.
pub fn id_at(document: &Node<'_>, field: Field) -> Result<Option<Id>, TextFault>
    ensures value { Gives text_cause (option_map (λ id. id)) result (optional_at id_of (node_view document.now) field) }
    ensures memory { IsCaused result }
{
    match member_at(document, field)? {
        Some(value) => Ok(Some(id_of(value, field)?)),
        None => Ok(None),
    }
}

/// An optional token.
pub fn token_at(document: &Node<'_>, field: Field) -> Result<Option<Token>, TextFault>
    ensures value { Gives text_cause (option_map (λ token. token)) result (optional_at token_of (node_view document.now) field) }
    ensures memory { IsCaused result }
{
    match member_at(document, field)? {
        Some(value) => Ok(Some(token_of(value, field)?)),
        None => Ok(None),
    }
}

/// An optional moment.
pub fn moment_at(document: &Node<'_>, field: Field) -> Result<Option<Moment>, TextFault>
    ensures value { Gives text_cause (option_map (λ moment. moment)) result (optional_at moment_of (node_view document.now) field) }
    ensures memory { IsCaused result }
{
    match member_at(document, field)? {
        Some(value) => Ok(Some(moment_of(value, field)?)),
        None => Ok(None),
    }
}

/// An optional bound of a rule.
pub fn bound_at(document: &Node<'_>, field: Field) -> Result<Option<u64>, TextFault>
    ensures value { Gives text_cause (option_map (λ bound. bound)) result (optional_at bound_of (node_view document.now) field) }
    ensures memory { IsCaused result }
{
    match member_at(document, field)? {
        Some(value) => Ok(Some(bound_of(value, field)?)),
        None => Ok(None),
    }
}

/// An optional list.
pub fn list_at<'t, 'a>(
    alloc: Global,
    document: &'t Node<'a>,
    field: Field,
) -> Result<Option<Entries<'t, 'a>>, TextFault>
    ensures value { Gives text_cause (option_map (λ entries. entries_view entries)) result (optional_at list_of (node_view document.now) field) }
    ensures memory { IsCausedWhere (required_at list_of (node_view document.now) field) result }
{
    match member_at(document, field)? {
        Some(value) => Ok(Some(entries_of(alloc, value, field)?)),
        None => Ok(None),
    }
}

/// An optional list of identifiers.
pub fn ids_at(
    alloc: Global,
    document: &Node<'_>,
    field: Field,
) -> Result<Option<Vec<Id>>, TextFault>
    ensures value { Gives text_cause (option_map (λ v. v.items)) result (optional_at (list_each id_of) (node_view document.now) field) }
    ensures memory { IsCausedWhere (required_at list_of (node_view document.now) field) result }
{
    match member_at(document, field)? {
        Some(value) => Ok(Some(ids_of(alloc, value, field)?)),
        None => Ok(None),
    }
}

/// An optional list of tokens.
pub fn tokens_at(
    alloc: Global,
    document: &Node<'_>,
    field: Field,
) -> Result<Option<Vec<Token>>, TextFault>
    ensures value { Gives text_cause (option_map (λ v. v.items)) result (optional_at (list_each token_of) (node_view document.now) field) }
    ensures memory { IsCausedWhere (required_at list_of (node_view document.now) field) result }
{
    match member_at(document, field)? {
        Some(value) => Ok(Some(tokens_of(alloc, value, field)?)),
        None => Ok(None),
    }
}

/// A required string.
pub fn required_text<'a>(document: &Node<'a>, field: Field) -> Result<&'a str, TextFault>
    ensures value { Gives text_cause (λ s. s.now) result (required_at text_of (node_view document.now) field) }
    ensures memory { IsCaused result }
{
    text_at(document, field)?.ok_or(TextFault::BadField(field))
}

/// A required identifier.
pub fn required_id(document: &Node<'_>, field: Field) -> Result<Id, TextFault>
    ensures value { Gives text_cause (λ id. id) result (required_at id_of (node_view document.now) field) }
    ensures memory { IsCaused result }
{
    id_at(document, field)?.ok_or(TextFault::BadField(field))
}

/// A required token.
pub fn required_token(document: &Node<'_>, field: Field) -> Result<Token, TextFault>
    ensures value { Gives text_cause (λ token. token) result (required_at token_of (node_view document.now) field) }
    ensures memory { IsCaused result }
{
    token_at(document, field)?.ok_or(TextFault::BadField(field))
}

/// A required moment.
pub fn required_moment(document: &Node<'_>, field: Field) -> Result<Moment, TextFault>
    ensures value { Gives text_cause (λ moment. moment) result (required_at moment_of (node_view document.now) field) }
    ensures memory { IsCaused result }
{
    moment_at(document, field)?.ok_or(TextFault::BadField(field))
}

/// A required list.
pub fn required_list<'t, 'a>(
    alloc: Global,
    document: &'t Node<'a>,
    field: Field,
) -> Result<Entries<'t, 'a>, TextFault>
    ensures value { Gives text_cause (λ entries. entries_view entries) result (required_at list_of (node_view document.now) field) }
    ensures memory { IsCausedWhere (required_at list_of (node_view document.now) field) result }
{
    list_at(alloc, document, field)?.ok_or(TextFault::BadField(field))
}

/// A required list of identifiers.
pub fn required_ids(alloc: Global, document: &Node<'_>, field: Field) -> Result<Vec<Id>, TextFault>
    ensures value { Gives text_cause (λ v. v.items) result (required_at (list_each id_of) (node_view document.now) field) }
    ensures memory { IsCausedWhere (required_at list_of (node_view document.now) field) result }
{
    ids_at(alloc, document, field)?.ok_or(TextFault::BadField(field))
}

/// A required member, of whatever kind; null counts as absent.
pub fn required_member<'t, 'a>(
    document: &'t Node<'a>,
    field: Field,
) -> Result<&'t Node<'a>, TextFault>
    ensures value { Gives text_cause (λ t. node_view t.now) result (required_member (node_view document.now) field) }
    ensures memory { IsCaused result }
{
    member_at(document, field)?.ok_or(TextFault::BadField(field))
}
