//! The area of a geography as it is served: a FeatureCollection with one Feature of one
//! MultiPolygon (RFC 7946, sections 3.1.7, 3.2 and 3.3).
ghost use Rattle.std.specs.Prelude.{◌≡◌, IfOk};
ghost use Rattle.mds_text.specs.Tree.{degrees};
ghost use Rattle.mds_text.specs.View.{view};
ghost use Rattle.mds_geography.specs.Served.{position_json, ring_json, polygon_json, multipolygon_json, feature_json, collection_json};

use mds_geometry::{Polygon, Position, Ring};
use mds_text::{Tree, Units7, add_member, list_tree, object_tree, text_tree};
use std::alloc::{AllocError, Global};

/// The polygons as the only feature of a collection.
pub(crate) fn collection_tree(alloc: Global, polygons: &[Polygon]) -> Result<Tree, AllocError>
    ensures { IfOk result (λ t. view t ≡ collection_json polygons.now) }
{
    let features = vec![in alloc; feature_tree(alloc, polygons)?]?;
    let mut members = Vec::new(alloc);
    add_member(&mut members, "features", list_tree(features))?;
    add_member(&mut members, "type", text_tree(alloc, "FeatureCollection")?)?;
    Ok(object_tree(members))
}

fn feature_tree(alloc: Global, polygons: &[Polygon]) -> Result<Tree, AllocError>
    ensures { IfOk result (λ t. view t ≡ feature_json polygons.now) }
{
    let mut members = Vec::new(alloc);
    add_member(
        &mut members,
        "geometry",
        multipolygon_tree(alloc, polygons)?,
    )?;
    add_member(&mut members, "properties", Tree::Null)?;
    add_member(&mut members, "type", text_tree(alloc, "Feature")?)?;
    Ok(object_tree(members))
}

fn multipolygon_tree(alloc: Global, polygons: &[Polygon]) -> Result<Tree, AllocError>
    ensures { IfOk result (λ t. view t ≡ multipolygon_json polygons.now) }
{
    let mut coordinates = Vec::new(alloc);
    for polygon in polygons {
        coordinates.push(polygon_tree(alloc, polygon)?)?;
    }
    let mut members = Vec::new(alloc);
    add_member(&mut members, "coordinates", list_tree(coordinates))?;
    add_member(&mut members, "type", text_tree(alloc, "MultiPolygon")?)?;
    Ok(object_tree(members))
}

fn polygon_tree(alloc: Global, polygon: &Polygon) -> Result<Tree, AllocError>
    ensures { IfOk result (λ t. view t ≡ polygon_json polygon.now) }
{
    let mut rings = Vec::new(alloc);
    for ring in polygon.rings() {
        rings.push(ring_tree(alloc, ring)?)?;
    }
    Ok(list_tree(rings))
}

fn ring_tree(alloc: Global, ring: &Ring) -> Result<Tree, AllocError>
    ensures { IfOk result (λ t. view t ≡ ring_json ring.now) }
{
    let mut positions = Vec::new(alloc);
    for position in ring.positions() {
        positions.push(position_tree(alloc, *position)?)?;
    }
    Ok(list_tree(positions))
}

/// Longitude, then latitude (RFC 7946, section 3.1.1).
fn position_tree(alloc: Global, position: Position) -> Result<Tree, AllocError>
    ensures { IfOk result (λ t. view t ≡ position_json position) }
{
    let Position { lng, lat } = position;
    let coordinates = vec![in alloc; degrees_tree(lng), degrees_tree(lat)]?;
    Ok(list_tree(coordinates))
}

fn degrees_tree(coordinate: Units7) -> Tree
    ensures { view result ≡ degrees coordinate }
{
    Tree::Degrees(coordinate)
}
