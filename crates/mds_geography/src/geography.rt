//! A geography document, read from its text (MDS 2.0 Geography; RFC 7946).
ghost use Rattle.std.specs.Prelude.{◌≡◌, IfOk, option_map, string_bytes};
ghost use Rattle.mds_text.specs.Fault.{Gives};
ghost use Rattle.mds_geography.specs.Fault.{geo_cause};

use crate::fault::GeoFault;
use crate::served_tree::collection_tree;
use crate::walk::{geojson_of, kind_of};
use mds_geometry::{Area, Polygon, Position};
use mds_json::{
    Node, NodeBuffer, document_of, required_id, required_member, required_text, text_at,
};
use mds_text::{Field, Id, Moment, Tree, add_member, id_tree, int_tree, object_tree, text_tree};
use std::alloc::{AllocError, Global};

/// A geography: an area of polygons with an identifier and a name (MDS 2.0 Geography).
#[derive(Drop)]
pub struct Geography {
    id: Id,
    name: String,
    description: Option<String>,
    area: Area,
}

impl Geography {
    ghost use Rattle.mds_text.specs.View.{view};
    ghost use Rattle.mds_geometry.specs.Area.{area_holds};
    ghost use Rattle.mds_geography.specs.Geography.{geography_document};
    ghost use Rattle.mds_geography.specs.Reading.{read_geography};
    ghost use Rattle.mds_geography.specs.Served.{served};

    /// Reads a geography document: its members in the order of the table, then its GeoJSON in
    /// document order (MDS 2.0 Geography; RFC 7946, section 3). Other members are ignored.
    ///
    /// # Errors
    ///
    /// The first fault of the document in that order, or out of memory.
    pub fn read(alloc: Global, text: &[u8]) -> Result<Geography, GeoFault>
        ensures { Gives geo_cause geography_document result (read_geography text.now) }
    {
        let ParsedGeography {
            id,
            name,
            description,
            polygons,
        } = ParsedGeography::read(alloc, text)?;
        let area = Area::new(alloc, polygons)?;
        Ok(Geography {
            id,
            name,
            description,
            area,
        })
    }

    /// The geography's identifier.
    pub fn id(&self) -> Id
        ensures { result ≡ (geography_document self.now).id }
    {
        self.id
    }

    /// The polygons in document order.
    pub fn polygons(&self) -> &[Polygon]
        ensures { result.now ≡ (geography_document self.now).polygons }
    {
        self.area.polygons()
    }

    /// The polygons as an area, which is indexed for tests of positions.
    pub fn area(&self) -> &Area
        ensures { result.now ≡ (geography_document self.now).polygons }
    {
        &self.area
    }

    /// Whether one of the geography's polygons holds the position.
    pub fn holds(&self, position: Position) -> bool
        ensures { result ≡ area_holds (geography_document self.now).polygons position }
    {
        self.area.holds(position)
    }

    /// The geography as it is served, with `published_date` where a moment is given.
    ///
    /// # Errors
    ///
    /// Out of memory.
    pub fn served(&self, alloc: Global, moment: Option<Moment>) -> Result<Tree, AllocError>
        ensures { IfOk result (λ t. view t ≡ served (geography_document self.now) moment) }
    {
        let mut members = Vec::new(alloc);
        if let Some(description) = &self.description {
            let value = text_tree(alloc, description.as_str())?;
            add_member(&mut members, "description", value)?;
        }
        add_member(&mut members, "geography_id", id_tree(alloc, &self.id)?)?;
        let area = collection_tree(alloc, self.area.polygons())?;
        add_member(&mut members, "geography_json", area)?;
        add_member(&mut members, "name", text_tree(alloc, self.name.as_str())?)?;
        if let Some(moment) = moment {
            add_member(&mut members, "published_date", int_tree(moment.get()))?;
        }
        Ok(object_tree(members))
    }
}

/// The content of a geography document. The tree of its text is freed before the area is indexed.
#[derive(Drop)]
struct ParsedGeography {
    id: Id,
    name: String,
    description: Option<String>,
    polygons: Vec<Polygon>,
}

impl ParsedGeography {
    ghost use Rattle.mds_json.specs.Node.{node_view};
    ghost use Rattle.mds_geography.specs.Geography.{said_document};
    ghost use Rattle.mds_geography.specs.Reading.{read_geography, geography_of};

    fn read(alloc: Global, text: &[u8]) -> Result<ParsedGeography, GeoFault>
        ensures { Gives geo_cause said_document result (read_geography text.now) }
    {
        let mut source = NodeBuffer::new(alloc);
        let tree = source.read(alloc, text)?;
        ParsedGeography::from_node(alloc, &tree)
    }

    fn from_node(alloc: Global, tree: &Node<'_>) -> Result<ParsedGeography, GeoFault>
        ensures { Gives geo_cause said_document result (geography_of (node_view tree.now)) }
    {
        let document = document_of(tree)?;
        let id = required_id(document, Field::GeographyId)?;
        let name = required_text(document, Field::Name)?;
        let description = text_at(document, Field::Description)?;
        let geojson = required_member(document, Field::GeographyJson)?;
        let kind = kind_of(geojson, Field::GeographyJson)?;
        let polygons = geojson_of(alloc, kind, geojson)?;
        Ok(ParsedGeography {
            id,
            name: String::from_str(alloc, name)?,
            description: copy_text(alloc, description)?,
            polygons,
        })
    }
}

fn copy_text(alloc: Global, text: Option<&str>) -> Result<Option<String>, AllocError>
    ensures { IfOk result (λ copy. option_map (λ s. string_bytes s) copy ≡ option_map (λ s. s.now) text.entry) }
{
    match text {
        Some(text) => Ok(Some(String::from_str(alloc, text)?)),
        None => Ok(None),
    }
}
