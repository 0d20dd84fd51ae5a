//! Reads the GeoJSON of a geography, in document order. Each step gets the number of positions that
//! were read before it, and returns the number after it.
ghost use Rattle.std.specs.Prelude.{◌≡◌, ◌≤◌, ◌∷◌, [], map, IfOk, Ok, Some};
ghost use Rattle.mds_text.specs.Fault.{Gives, bad_field, text_cause};
ghost use Rattle.mds_text.specs.Fields.{list_of, required_at};
ghost use Rattle.mds_text.specs.Tree.{text};
ghost use Rattle.mds_text.specs.declared.field.Field.TheVariants.{Coordinates, Features};
ghost use Rattle.mds_json.specs.Entries.{entries_view};
ghost use Rattle.mds_json.specs.Node.{node_view, pair_view};
ghost use Rattle.mds_geography.specs.Fault.{geo_cause};
ghost use Rattle.mds_geography.specs.Reading.{position_of, position_at, positions_of, positions_in, ring_of, rings_of, polygon_of, polygons_of, multipolygon_of, geometry_of, kind_of, feature_of, feature_geometry, features_of, geojson_of, most_positions, uncounted};

use crate::fault::GeoFault;
use mds_geometry::{
    MOST_LATITUDE, MOST_LONGITUDE, Polygon, Position, Ring, coordinate_of_node, coordinate_of_text,
};
use mds_json::{Entries, Node, entries_of, member_at, required_member, required_text};
use mds_text::{Field, TextFault};
use std::alloc::Global;

/// The most positions of a geography, the closing ones counted too.
const MOST_POSITIONS: usize = 20_000;

/// The fault of a value that is not a position.
fn no_position() -> GeoFault
    ensures { geo_cause result ≡ Some (bad_field Coordinates) }
{
    GeoFault::Text(TextFault::BadField(Field::Coordinates))
}

/// Longitude, then latitude; further entries are ignored (RFC 7946, section 3.1.1).
fn position_of(entries: &[Node<'_>]) -> Result<Position, GeoFault>
    ensures { Gives geo_cause (λ p. p) result (position_of (map node_view entries.now)) }
{
    let [lng, lat, ..] = entries else {
        return Err(no_position());
    };
    let lng = coordinate_of_node(lng, Field::Coordinates, MOST_LONGITUDE)?;
    let lat = coordinate_of_node(lat, Field::Coordinates, MOST_LATITUDE)?;
    Ok(Position { lng, lat })
}

/// The position of two numbers in their text: longitude, then latitude.
#[inline(always)]
fn position_of_texts(lng: &str, lat: &str) -> Result<Position, GeoFault>
    ensures { Gives geo_cause (λ p. p) result (position_of (text lng.now ∷ text lat.now ∷ [])) }
{
    let lng = coordinate_of_text(lng, MOST_LONGITUDE)?;
    let lat = coordinate_of_text(lat, MOST_LATITUDE)?;
    Ok(Position { lng, lat })
}

/// The position of one entry of a ring.
fn position_at(entry: &Node<'_>) -> Result<Position, GeoFault>
    ensures { Gives geo_cause (λ p. p) result (position_at (node_view entry.now)) }
{
    match entry {
        Node::Pair(lng, lat) => position_of_texts(lng, lat),
        Node::List(entries) => position_of(entries),
        Node::Pairs(_) => Err(no_position()),
        _ => Err(no_position()),
    }
}

/// The positions of a ring, each counted before it is read.
fn positions_of(
    alloc: Global,
    mut read: usize,
    entries: &[Node<'_>],
) -> Result<(Vec<Position>, usize), GeoFault>
    requires { read ≤ most_positions }
    ensures value { Gives geo_cause (λ x. (x.0.items, x.1)) result (positions_of read (map node_view entries.now)) }
    ensures few { IfOk result (λ x. x.1 ≤ most_positions) }
{
    let mut positions = Vec::with_capacity(alloc, entries.len().min(MOST_POSITIONS))?;
    for entry in entries {
        if read >= MOST_POSITIONS {
            return Err(GeoFault::TooManyPoints);
        }
        read += 1;
        positions.push(position_at(entry)?)?;
    }
    Ok((positions, read))
}

/// The positions of a ring that is read as pairs, each counted before it is read.
fn positions_of_pairs(
    alloc: Global,
    mut read: usize,
    pairs: &[(&str, &str)],
) -> Result<(Vec<Position>, usize), GeoFault>
    requires { read ≤ most_positions }
    ensures value { Gives geo_cause (λ x. (x.0.items, x.1)) result (positions_of read (map pair_view pairs.now)) }
    ensures few { IfOk result (λ x. x.1 ≤ most_positions) }
{
    let mut positions = Vec::with_capacity(alloc, pairs.len().min(MOST_POSITIONS))?;
    for pair in pairs {
        if read == MOST_POSITIONS {
            return Err(GeoFault::TooManyPoints);
        }
        read += 1;
        positions.push(position_of_texts(pair.0, pair.1)?)?;
    }
    Ok((positions, read))
}

/// The positions of a ring, from its list.
fn positions_in(
    alloc: Global,
    read: usize,
    value: &Node<'_>,
) -> Result<(Vec<Position>, usize), GeoFault>
    requires { read ≤ most_positions }
    ensures value { Gives geo_cause (λ x. (x.0.items, x.1)) result (positions_in read (node_view value.now)) }
    ensures few { IfOk result (λ x. x.1 ≤ most_positions) }
{
    if let Node::Pairs(pairs) = value {
        return positions_of_pairs(alloc, read, pairs);
    }
    let entries = entries_of(alloc, value, Field::Coordinates)?;
    positions_of(alloc, read, entries.as_slice())
}

/// A ring. Too few positions are reported before ends that differ (RFC 7946, section 3.1.6).
fn ring_of(alloc: Global, read: usize, value: &Node<'_>) -> Result<(Ring, usize), GeoFault>
    requires { read ≤ most_positions }
    ensures value { Gives geo_cause (λ x. (x.0, x.1)) result (ring_of read (node_view value.now)) }
    ensures few { IfOk result (λ x. x.1 ≤ most_positions) }
{
    let (positions, read) = positions_in(alloc, read, value)?;
    let ring = Ring::new(positions)?;
    Ok((ring, read))
}

/// The rings of a polygon (RFC 7946, section 3.1.6).
fn polygon_of(
    alloc: Global,
    mut read: usize,
    value: &Node<'_>,
) -> Result<(Polygon, usize), GeoFault>
    requires { read ≤ most_positions }
    ensures value { Gives geo_cause (λ x. (x.0, x.1)) result (polygon_of read (node_view value.now)) }
    ensures few { IfOk result (λ x. x.1 ≤ most_positions) }
{
    let mut rings = Vec::new(alloc);
    let entries = entries_of(alloc, value, Field::Coordinates)?;
    for entry in entries.as_slice() {
        let (ring, now_read) = ring_of(alloc, read, entry)?;
        rings.push(ring)?;
        read = now_read;
    }
    Ok((Polygon::new(rings), read))
}

/// The polygons of a multipolygon (RFC 7946, section 3.1.7).
fn multipolygon_of(
    alloc: Global,
    mut read: usize,
    value: &Node<'_>,
) -> Result<(Vec<Polygon>, usize), GeoFault>
    requires { read ≤ most_positions }
    ensures value { Gives geo_cause (λ x. (x.0.items, x.1)) result (multipolygon_of read (node_view value.now)) }
    ensures few { IfOk result (λ x. x.1 ≤ most_positions) }
{
    let mut polygons = Vec::new(alloc);
    let entries = entries_of(alloc, value, Field::Coordinates)?;
    for entry in entries.as_slice() {
        let (polygon, now_read) = polygon_of(alloc, read, entry)?;
        polygons.push(polygon)?;
        read = now_read;
    }
    Ok((polygons, read))
}

/// The string `type` of an object (RFC 7946, section 1.4); anything else is a bad field of this
/// name.
pub(crate) fn kind_of<'a>(value: &Node<'a>, field: Field) -> Result<&'a str, TextFault>
    ensures { Gives text_cause (λ s. s.now) result (kind_of field (node_view value.now)) }
{
    match required_text(value, Field::Kind) {
        Ok(kind) => Ok(kind),
        Err(TextFault::NoMemory) => Err(TextFault::NoMemory),
        Err(_) => Err(TextFault::BadField(field)),
    }
}

/// The polygons of a geometry of this type. A type other than Polygon and MultiPolygon has none,
/// and its members aren't read (RFC 7946, section 3.1).
fn geometry_of(
    alloc: Global,
    read: usize,
    kind: &str,
    geometry: &Node<'_>,
) -> Result<(Vec<Polygon>, usize), GeoFault>
    requires { read ≤ most_positions }
    ensures value { Gives geo_cause (λ x. (x.0.items, x.1)) result (geometry_of read kind.now (node_view geometry.now)) }
    ensures few { IfOk result (λ x. x.1 ≤ most_positions) }
{
    if kind == "Polygon" {
        let coordinates = required_member(geometry, Field::Coordinates)?;
        let (polygon, read) = polygon_of(alloc, read, coordinates)?;
        Ok((vec![in alloc; polygon]?, read))
    } else if kind == "MultiPolygon" {
        let coordinates = required_member(geometry, Field::Coordinates)?;
        multipolygon_of(alloc, read, coordinates)
    } else {
        Ok((Vec::new(alloc), read))
    }
}

/// The polygons of a feature; an absent or null geometry has none (RFC 7946, section 3.2).
fn feature_of(
    alloc: Global,
    read: usize,
    feature: &Node<'_>,
) -> Result<(Vec<Polygon>, usize), GeoFault>
    requires { read ≤ most_positions }
    ensures value { Gives geo_cause (λ x. (x.0.items, x.1)) result (feature_of read (node_view feature.now)) }
    ensures few { IfOk result (λ x. x.1 ≤ most_positions) }
{
    let Some(geometry) = member_at(feature, Field::Geometry)? else {
        return Ok((Vec::new(alloc), read));
    };
    let kind = kind_of(geometry, Field::Geometry)?;
    geometry_of(alloc, read, kind, geometry)
}

/// The polygons of the features of a collection (RFC 7946, section 3.3).
fn features_of(alloc: Global, entries: &[Node<'_>]) -> Result<Vec<Polygon>, GeoFault>
    ensures { Gives geo_cause (λ v. v.items) result (uncounted (features_of 0 (map node_view entries.now))) }
{
    let mut polygons = Vec::new(alloc);
    let mut read = 0;
    for entry in entries {
        if kind_of(entry, Field::Features)? != "Feature" {
            return Err(GeoFault::Text(TextFault::BadField(Field::Features)));
        }
        let (mut more, now_read) = feature_of(alloc, read, entry)?;
        polygons.append(&mut more)?;
        read = now_read;
    }
    Ok(polygons)
}

/// The list of a collection's features, which is required (RFC 7946, section 3.3).
fn features_at<'t, 'a>(alloc: Global, value: &'t Node<'a>) -> Result<Entries<'t, 'a>, TextFault>
    ensures { Gives text_cause (λ entries. entries_view entries) result (required_at list_of (node_view value.now) Features) }
{
    let features = required_member(value, Field::Features)?;
    entries_of(alloc, features, Field::Features)
}

/// The polygons of a GeoJSON object, in document order: those of a FeatureCollection, a Feature, or
/// a geometry (RFC 7946, section 3).
pub(crate) fn geojson_of(
    alloc: Global,
    kind: &str,
    value: &Node<'_>,
) -> Result<Vec<Polygon>, GeoFault>
    ensures { Gives geo_cause (λ v. v.items) result (uncounted (geojson_of kind.now (node_view value.now))) }
{
    if kind == "FeatureCollection" {
        let entries = features_at(alloc, value)?;
        return features_of(alloc, entries.as_slice());
    }
    let (polygons, _) = if kind == "Feature" {
        feature_of(alloc, 0, value)?
    } else {
        geometry_of(alloc, 0, kind, value)?
    };
    Ok(polygons)
}
