//! The bounding box of an area (RFC 7946, section 5).
ghost use Rattle.std.specs.Prelude.{◌≡◌, true};
ghost use Rattle.std.specs.List.{All};
ghost use Rattle.mds_geometry.specs.Bounds.{is_within, AreWider, IsBounded, AreBounded};

use crate::band::Band;
use crate::polygon::Polygon;
use crate::position::Position;
use crate::ring::Ring;

/// A bounding box: a band of longitude and one of latitude.
#[derive(Clone, Copy)]
pub(crate) struct BoundingBox {
    /// The longitudes.
    pub(crate) lng: Band,
    /// The latitudes.
    pub(crate) lat: Band,
}

impl BoundingBox {
    /// The empty bounding box.
    fn none() -> BoundingBox {
        BoundingBox {
            lng: Band::none(),
            lat: Band::none(),
        }
    }

    /// Whether a position lies within the bounds, their borders included.
    pub(crate) fn holds(&self, at: &Position) -> bool
        ensures { result ≡ is_within self.now at.now }
    {
        self.lng.holds(at.lng) && self.lat.holds(at.lat)
    }

    /// Widens the bounds so that they hold a position.
    #[inline(always)]
    fn widen(&mut self, at: &Position)
        ensures wider { AreWider self.old self.new }
        ensures held { is_within self.new at.now ≡ true }
    {
        self.lng.widen(at.lng);
        self.lat.widen(at.lat);
    }

    /// Widens the bounds so that they hold a ring.
    fn widen_to_ring(&mut self, ring: &Ring)
        ensures wider { AreWider self.old self.new }
        ensures held { IsBounded self.new ring.now }
    {
        for position in ring.positions() {
            self.widen(position);
        }
    }

    /// Widens the bounds so that they hold a polygon.
    fn widen_to_polygon(&mut self, polygon: &Polygon)
        ensures wider { AreWider self.old self.new }
        ensures held { All (IsBounded self.new) polygon.now }
    {
        for ring in polygon.rings() {
            self.widen_to_ring(ring);
        }
    }
}

/// The narrowest bounds of all positions of the polygons.
pub(crate) fn bounds_of(polygons: &[Polygon]) -> BoundingBox
    ensures { AreBounded result polygons.now }
{
    let mut bounds = BoundingBox::none();
    for polygon in polygons {
        bounds.widen_to_polygon(polygon);
    }
    bounds
}
