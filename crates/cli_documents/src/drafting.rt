//! The documents of a file, and the drafts or refusals that they become.
ghost use Rattle.std.specs.Prelude.{◌≡◌, IfOk, map, option_map, if◌then◌else◌, None, codes, string_bytes};
ghost use Rattle.std.specs.List.{filter_map};
ghost use Rattle.mds_text.specs.Tree.{items_of, members_of};
ghost use Rattle.mds_text.specs.View.{view, member_view};
ghost use Rattle.cli_documents.specs.Members.{as_id, as_list, or_none, id_named};
ghost use Rattle.cli_documents.specs.Documents.{inner, is_of_type, features, listed, documents, read_with, read_view, fraction_of, decimal_at, decimal_in, decimal_among, prepared, geography_with, policy_with, outcome, target_of, Outcome};

use crate::bounds::fraction_of;
use crate::member::{as_id, as_list, id_member, list_member, member_of, text_member};
use mds_text::{DraftKind, Id, Member, Tree, is_quoted, print_tree};
use std::alloc::{AllocError, Global};
use std::slice::from_ref;

/// Where a document comes from.
#[derive(Clone, Copy, Debug, PartialEq, Eq)]
pub struct Origin {
    /// The index of its file among the files.
    pub file: usize,
    /// Its index among the documents of its file.
    pub document: usize,
}

/// A document as a draft that can be sent.
#[derive(Drop)]
pub struct ImportDraft {
    pub origin: Origin,
    pub kind: DraftKind,
    pub id: Id,
    /// The policies that it supersedes.
    pub predecessors: Vec<Id>,
    /// The document's text.
    pub body: Vec<u8>,
}

/// Why a document isn't sent.
#[derive(Clone, Copy, Debug, PartialEq, Eq)]
pub enum RefusalReason {
    /// The member is missing, or isn't of the kind that it has to be.
    BadField,
    /// The member has a number that a policy may not have.
    Decimal,
}

/// A document that isn't sent, and why.
#[derive(Clone, Copy)]
pub struct RefusedDocument<'t> {
    /// The innermost member with the fault.
    pub member: &'t str,
    pub why: RefusalReason,
}

/// What a document becomes: a draft, or a refusal.
#[derive(Drop)]
pub enum PreparedDocument<'t> {
    Draft(ImportDraft),
    Refused(RefusedDocument<'t>),
}

/// The value of a file's member `data`, or the file itself.
fn inner(file: &Tree) -> &Tree
    ensures { view result.now ≡ inner (view file.now) }
{
    match member_of(file, "data") {
        Some(inner) => inner,
        None => file,
    }
}

/// The lists of documents in a file.
#[derive(Clone, Copy)]
pub struct DocumentLists<'t> {
    /// Features of GeoJSON. Where a file has these, the other lists are empty.
    pub features: &'t [Tree],
    /// Geographies; or the entries of a list without a name, or the one document that the file is.
    pub first: &'t [Tree],
    /// Policies.
    pub second: &'t [Tree],
}

/// The entries of a list; none where there is no list.
pub(crate) fn or_none<'t>(entries: Option<&'t [Tree]>) -> &'t [Tree]
    ensures { map view result.now ≡ or_none (option_map (λ ts. map view ts.now) entries.entry) }
{
    match entries {
        Some(entries) => entries,
        None => &[],
    }
}

/// Whether a GeoJSON object is of this type (RFC 7946, section 1.4).
fn is_of_type(value: &Tree, name: &str) -> bool
    ensures { result ≡ is_of_type name.now (view value.now) }
{
    match text_member(value, "type") {
        Some(written) => written == name,
        None => false,
    }
}

/// The features of a value: those of a FeatureCollection, or the one Feature that it is; `None` for any other value.
fn features(value: &Tree) -> Option<&[Tree]>
    ensures { option_map (λ ts. map view ts.now) result ≡ features (view value.now) }
{
    if is_of_type(value, "FeatureCollection") {
        Some(or_none(list_member(value, "features")))
    } else if is_of_type(value, "Feature") {
        Some(from_ref(value))
    } else {
        None
    }
}

/// The documents of a value that isn't GeoJSON, geographies first.
fn lists_without_features(value: &Tree) -> DocumentLists<'_>
    ensures { read_view result ≡ read_with None (listed (as_list (view value.now)) (view value.now)) }
{
    if let Some(entries) = as_list(value) {
        return DocumentLists {
            features: &[],
            first: entries,
            second: &[],
        };
    }
    let geographies = list_member(value, "geographies");
    let policies = list_member(value, "policies");
    if geographies.is_some() || policies.is_some() {
        DocumentLists {
            features: &[],
            first: or_none(geographies),
            second: or_none(policies),
        }
    } else {
        DocumentLists {
            features: &[],
            first: from_ref(value),
            second: &[],
        }
    }
}

/// What is read of a file, or of its member `data` where it has one: the features of GeoJSON; or else the documents of
/// an object's lists `geographies` and `policies`; or the entries of a list; or the one document that the value is.
pub fn documents(file: &Tree) -> DocumentLists<'_>
    ensures { read_view result ≡ documents (view file.now) }
{
    let value = inner(file);
    match features(value) {
        Some(features) => DocumentLists {
            features,
            first: &[],
            second: &[],
        },
        None => lists_without_features(value),
    }
}

/// The name of the innermost member with the first number that isn't plain, and that goes as a text; `None` where a
/// value has no such number. The value was read from a file with such numbers, so a text that reads as one is taken for
/// one.
#[cycle(decimal_at)]
pub fn decimal_at<'t>(name: &'t str, value: &'t Tree) -> Option<&'t str>
    ensures { option_map (λ n. n.now) result ≡ decimal_at name.now (view value.now) }
{
    match value {
        Tree::Text(text) if is_quoted(text.as_bytes()) => Some(name),
        Tree::List(entries) => decimal_in(name, entries),
        Tree::Object(members) => decimal_among(members),
        _ => None,
    }
}

#[cycle(decimal_at)]
fn decimal_in<'t>(name: &'t str, entries: &'t [Tree]) -> Option<&'t str>
    ensures { option_map (λ n. n.now) result ≡ decimal_in name.now (items_of (map view entries.now)) }
{
    for entry in entries {
        if let Some(found) = decimal_at(name, entry) {
            return Some(found);
        }
    }
    None
}

#[cycle(decimal_at)]
fn decimal_among<'t>(members: &'t [Member]) -> Option<&'t str>
    ensures { option_map (λ n. n.now) result ≡ decimal_among (members_of (map member_view members.now)) }
{
    for member in members {
        if let Some(found) = decimal_at(member.name.as_str(), &member.value) {
            return Some(found);
        }
    }
    None
}

/// The identifiers among the values, in their order.
fn ids_in(alloc: Global, values: &[Tree]) -> Result<Vec<Id>, AllocError>
    ensures { IfOk result (λ v. v.items ≡ filter_map as_id (map view values.now)) }
{
    let mut ids = Vec::new(alloc);
    for value in values {
        if let Some(id) = as_id(value) {
            ids.push(id)?;
        }
    }
    Ok(ids)
}

/// The draft of a geography, or the refusal of a document without an identifier.
fn geography<'t>(
    alloc: Global,
    origin: Origin,
    value: &'t Tree,
) -> Result<PreparedDocument<'t>, AllocError>
    ensures { IfOk result (λ p. outcome p ≡ geography_with origin (id_named (codes "geography_id") (view value.now)) (view value.now)) }
{
    let Some(id) = id_member(value, "geography_id") else {
        return Ok(refuse_document("geography_id", RefusalReason::BadField));
    };
    Ok(PreparedDocument::Draft(ImportDraft {
        origin,
        kind: DraftKind::Geography,
        id,
        predecessors: Vec::new(alloc),
        body: print_tree(alloc, value)?,
    }))
}

/// The refusal of a document for this member.
pub(crate) fn refuse_document(member: &str, why: RefusalReason) -> PreparedDocument<'_>
    ensures { outcome result ≡ Outcome.refused member.now why }
{
    PreparedDocument::Refused(RefusedDocument { member, why })
}

/// The draft of a policy, or its refusal. `decimals` says whether its file has numbers that aren't plain.
fn policy<'t>(
    alloc: Global,
    origin: Origin,
    decimals: bool,
    value: &'t Tree,
) -> Result<PreparedDocument<'t>, AllocError>
    ensures { IfOk result (λ p. outcome p ≡ policy_with origin (id_named (codes "policy_id") (view value.now)) (if decimals then fraction_of (view value.now) else None) (view value.now)) }
{
    let Some(id) = id_member(value, "policy_id") else {
        return Ok(refuse_document("policy_id", RefusalReason::BadField));
    };
    let fraction = if decimals { fraction_of(value) } else { None };
    if let Some(member) = fraction {
        return Ok(refuse_document(member, RefusalReason::Decimal));
    }
    let predecessors = ids_in(alloc, or_none(list_member(value, "prev_policies")))?;
    Ok(PreparedDocument::Draft(ImportDraft {
        origin,
        kind: DraftKind::Policy,
        id,
        predecessors,
        body: print_tree(alloc, value)?,
    }))
}

/// What a document becomes: a draft with the document's text, or a refusal with the member at fault. `decimals` says
/// whether its file has numbers that aren't plain (`mds_json::read_and_count` counts them). Such a number goes as the
/// text of its characters, but for a bound of an evaluated rule, for which a policy is refused.
pub fn prepare<'t>(
    alloc: Global,
    origin: Origin,
    decimals: bool,
    value: &'t Tree,
) -> Result<PreparedDocument<'t>, AllocError>
    ensures { IfOk result (λ p. outcome p ≡ prepared origin decimals (view value.now)) }
{
    if member_of(value, "geography_id").is_some() {
        geography(alloc, origin, value)
    } else {
        policy(alloc, origin, decimals, value)
    }
}

/// The target of the request that stores a draft.
pub fn target_of(alloc: Global, draft: &ImportDraft) -> Result<String, AllocError>
    ensures { IfOk result (λ target. string_bytes target ≡ target_of draft.now.kind draft.now.id) }
{
    let mut target = String::from_str(
        alloc,
        match draft.kind {
            DraftKind::Policy => "/drafts/policies/",
            DraftKind::Geography => "/drafts/geographies/",
        },
    )?;
    let id = draft.id.print(alloc)?;
    target.push_str(id.as_str())?;
    Ok(target)
}
