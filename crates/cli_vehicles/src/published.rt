//! What is published, as files of MDS 2.0 and GeoJSON.
ghost use Rattle.std.specs.Prelude.{◌≡◌, ◌++◌, false, IfOk, OnOk, codes, map, option_map};
ghost use Rattle.mds_text.specs.View.{view};
ghost use Rattle.mds_text.specs.Printed.{printed};
ghost use Rattle.cli_documents.specs.Members.{list_named, or_none};
ghost use Rattle.cli_vehicles.specs.Published.{geography_text, first_of, shape_of, feature_text, joined, policies_file, geographies_file, features_file};

use crate::bare::{push_bare_member, push_member, push_tree};
use cli_documents::{list_member, member_of};
use mds_text::Tree;
use std::alloc::{AllocError, Global};

/// A geography as the server answers with it, its shape with numbers.
#[tactic(auto, unfolding(crate::specs::Published::geography_text))]
fn geography_text(alloc: Global, geography: &Tree) -> Result<Vec<u8>, AllocError>
    ensures { IfOk result (λ v. v.items ≡ geography_text (view geography.now)) }
{
    let mut text = Vec::new(alloc);
    push_member(
        &mut text,
        b"{\"description\":",
        member_of(geography, "description"),
    )?;
    push_member(
        &mut text,
        b",\"geography_id\":",
        member_of(geography, "geography_id"),
    )?;
    push_bare_member(
        &mut text,
        b",\"geography_json\":",
        member_of(geography, "geography_json"),
    )?;
    push_member(&mut text, b",\"name\":", member_of(geography, "name"))?;
    push_member(
        &mut text,
        b",\"published_date\":",
        member_of(geography, "published_date"),
    )?;
    text.extend_from_slice(b"}")?;
    Ok(text)
}

/// The first feature of a FeatureCollection.
fn first_feature(shape: &Tree) -> Option<&Tree>
    ensures { option_map (λ t. view t.now) result ≡ first_of (or_none (list_named (codes "features") (view shape.now))) }
{
    match list_member(shape, "features") {
        Some([first, ..]) => Some(first),
        _ => None,
    }
}

/// The shape of a geography's first feature.
fn shape_of(geography: &Tree) -> Option<&Tree>
    ensures { option_map (λ t. view t.now) result ≡ shape_of (view geography.now) }
{
    match member_of(geography, "geography_json") {
        Some(shape) => match first_feature(shape) {
            Some(feature) => member_of(feature, "geometry"),
            None => None,
        },
        None => None,
    }
}

/// A geography as a feature of GeoJSON.
#[tactic(auto, unfolding(crate::specs::Published::feature_text))]
fn feature_text(alloc: Global, geography: &Tree) -> Result<Vec<u8>, AllocError>
    ensures { IfOk result (λ v. v.items ≡ feature_text (view geography.now)) }
{
    let mut text = Vec::new(alloc);
    push_bare_member(&mut text, b"{\"geometry\":", shape_of(geography))?;
    push_member(&mut text, b",\"id\":", member_of(geography, "geography_id"))?;
    push_member(
        &mut text,
        b",\"properties\":{\"description\":",
        member_of(geography, "description"),
    )?;
    push_member(
        &mut text,
        b",\"geography_id\":",
        member_of(geography, "geography_id"),
    )?;
    push_member(&mut text, b",\"name\":", member_of(geography, "name"))?;
    text.extend_from_slice(b"},\"type\":\"Feature\"}")?;
    Ok(text)
}

fn push_geography(out: &mut Vec<u8>, geography: &Tree) -> Result<(), AllocError>
    ensures { OnOk result (out.new.items ≡ out.old.items ++ geography_text (view geography.now)) }
{
    let text = geography_text(*out.allocator(), geography)?;
    out.extend_from_slice(&text)
}

fn push_feature(out: &mut Vec<u8>, geography: &Tree) -> Result<(), AllocError>
    ensures { OnOk result (out.new.items ≡ out.old.items ++ feature_text (view geography.now)) }
{
    let text = feature_text(*out.allocator(), geography)?;
    out.extend_from_slice(&text)
}

/// Published policies as a file of MDS 2.0.
pub fn policies_file(alloc: Global, policies: &[Tree]) -> Result<Vec<u8>, AllocError>
    ensures { IfOk result (λ v. v.items ≡ policies_file (map view policies.now)) }
{
    let mut out = Vec::new(alloc);
    out.extend_from_slice(b"{\"version\":\"2.0.0\",\"data\":{\"policies\":[")?;
    let mut later = false;
    for policy in policies {
        if later {
            out.extend_from_slice(b",")?;
        }
        push_tree(&mut out, policy)?;
        later = true;
    }
    out.extend_from_slice(b"]}}\n")?;
    Ok(out)
}

/// Published geographies as a file of MDS 2.0.
pub fn geographies_file(alloc: Global, geographies: &[Tree]) -> Result<Vec<u8>, AllocError>
    ensures { IfOk result (λ v. v.items ≡ geographies_file (map view geographies.now)) }
{
    let mut out = Vec::new(alloc);
    out.extend_from_slice(b"{\"version\":\"2.0.0\",\"data\":{\"geographies\":[")?;
    let mut later = false;
    for geography in geographies {
        if later {
            out.extend_from_slice(b",")?;
        }
        push_geography(&mut out, geography)?;
        later = true;
    }
    out.extend_from_slice(b"]}}\n")?;
    Ok(out)
}

/// Published geographies as a FeatureCollection of GeoJSON (RFC 7946, section 3.3), each with its identifier, name and
/// description.
pub fn features_file(alloc: Global, geographies: &[Tree]) -> Result<Vec<u8>, AllocError>
    ensures { IfOk result (λ v. v.items ≡ features_file (map view geographies.now)) }
{
    let mut out = Vec::new(alloc);
    out.extend_from_slice(b"{\"type\":\"FeatureCollection\",\"features\":[")?;
    let mut later = false;
    for geography in geographies {
        if later {
            out.extend_from_slice(b",")?;
        }
        push_feature(&mut out, geography)?;
        later = true;
    }
    out.extend_from_slice(b"]}\n")?;
    Ok(out)
}
