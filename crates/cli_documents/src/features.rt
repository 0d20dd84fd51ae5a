//! Features of GeoJSON as drafts of geographies.
ghost use Rattle.std.specs.Prelude.{◌≡◌, IfOk, Some, codes, option_map, option_and_then};
ghost use Rattle.mds_text.specs.View.{view};
ghost use Rattle.cli_documents.specs.Members.{id_named, text_named, named};
ghost use Rattle.cli_documents.specs.Documents.{namespace, id_of_name, id_or, properties_of, feature_id, geography_text, feature_with, feature_prepared, outcome};

use crate::drafting::{ImportDraft, Origin, PreparedDocument, RefusalReason, refuse_document};
use crate::member::{id_member, member_of, text_member};
use mds_text::{DraftKind, Id, Tree, print_tree, text_tree};
use std::alloc::{AllocError, Global};
use uuid::Uuid;

/// The namespace of URLs (RFC 9562, section 6.6).
fn namespace() -> Uuid
    ensures { result ≡ namespace }
{
    Uuid::from_bytes([
        107, 167, 184, 17, 157, 173, 17, 209, 128, 180, 0, 192, 79, 212, 48, 200,
    ])
}

/// The identifier derived from a name alone: a name gives the same one whenever it is imported.
pub fn id_of_name(name: &str) -> Option<Id>
    ensures { result ≡ Some (id_of_name name.now) }
{
    let id = Uuid::new_v5(&namespace(), name.as_bytes());
    let mut buffer = Uuid::encode_buffer();
    Id::read(id.hyphenated().encode_lower(&mut buffer))
}

/// The identifier among a feature's properties.
fn property_id(properties: Option<&Tree>) -> Option<Id>
    ensures { result ≡ option_and_then (id_named (codes "geography_id")) (option_map (λ t. view t.now) properties.entry) }
{
    match properties {
        Some(properties) => id_member(properties, "geography_id"),
        None => None,
    }
}

/// The name among a feature's properties.
fn property_name<'t>(properties: Option<&'t Tree>) -> Option<&'t str>
    ensures { option_map (λ name. name.now) result ≡ option_and_then (text_named (codes "name")) (option_map (λ t. view t.now) properties.entry) }
{
    match properties {
        Some(properties) => text_member(properties, "name"),
        None => None,
    }
}

/// The identifier of a feature: its own, or the one derived from this name.
fn feature_id(feature: &Tree, name: &str) -> Option<Id>
    ensures { result ≡ Some (feature_id (view feature.now) name.now) }
{
    if let Some(id) = property_id(member_of(feature, "properties")) {
        return Some(id);
    }
    if let Some(id) = id_member(feature, "id") {
        return Some(id);
    }
    id_of_name(name)
}

/// The document of a geography with this identifier, shape and name.
fn geography_text(alloc: Global, id: Id, shape: &Tree, name: &str) -> Result<Vec<u8>, AllocError>
    ensures { IfOk result (λ v. v.items ≡ geography_text id (view shape.now) name.now) }
{
    let id = id.print(alloc)?;
    let shape = print_tree(alloc, shape)?;
    let name = print_tree(alloc, &text_tree(alloc, name)?)?;
    let mut text = Vec::new(alloc);
    text.extend_from_slice(b"{\"geography_id\":\"")?;
    text.extend_from_slice(id.as_bytes())?;
    text.extend_from_slice(b"\",\"geography_json\":")?;
    text.extend_from_slice(&shape)?;
    text.extend_from_slice(b",\"name\":")?;
    text.extend_from_slice(&name)?;
    text.extend_from_slice(b"}")?;
    Ok(text)
}

/// What a feature of GeoJSON (RFC 7946, section 3.2) becomes: the draft of a geography with its property `name` and its
/// shape, or a refusal with the member at fault. Its identifier is the property `geography_id` or the feature's own
/// `id`, where one of these is a UUID, or else the one derived from its name alone (RFC 9562, section 5.5).
pub fn prepare_feature<'t>(
    alloc: Global,
    origin: Origin,
    feature: &'t Tree,
) -> Result<PreparedDocument<'t>, AllocError>
    ensures { IfOk result (λ p. outcome p ≡ feature_prepared origin (view feature.now)) }
{
    let Some(name) = property_name(member_of(feature, "properties")) else {
        return Ok(refuse_document("name", RefusalReason::BadField));
    };
    let Some(shape) = member_of(feature, "geometry") else {
        return Ok(refuse_document("geometry", RefusalReason::BadField));
    };
    let Some(id) = feature_id(feature, name) else {
        unreachable!();
    };
    Ok(PreparedDocument::Draft(ImportDraft {
        origin,
        kind: DraftKind::Geography,
        id,
        predecessors: Vec::new(alloc),
        body: geography_text(alloc, id, shape, name)?,
    }))
}
