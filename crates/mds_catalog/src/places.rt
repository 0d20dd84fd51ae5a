//! The catalogue as a source of geographies for evaluation.
use crate::catalogue::Catalogue;
use mds_geometry::{Area, Position};
use mds_match::Places;
use mds_text::Id;

/// A catalogue as a source of geographies, whatever the moment of their publication.
impl Places for Catalogue {
    ghost use Rattle.mds_catalog.specs.Publication.{published_area};
    ghost use Rattle.mds_catalog.specs.Catalogue.{publications_of};

    ghost polygons = { λ c. published_area (publications_of c) };

    fn holds(&self, geography: Id, position: Position) -> bool {
        match self.geography(geography) {
            Some(found) => found.document.holds(position),
            None => false,
        }
    }

    fn area(&self, geography: Id) -> Option<&Area> {
        match self.geography(geography) {
            Some(found) => Some(found.document.area()),
            None => None,
        }
    }
}
