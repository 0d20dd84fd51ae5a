//! Polygons with holes (RFC 7946, section 3.1.6), and which positions they hold.
ghost use Rattle.std.specs.Prelude.{◌≡◌, [], false};
ghost use Rattle.mds_geometry.specs.Inside.{holds};

use crate::position::Position;
use crate::ring::Ring;
use std::marker::Model;

/// A polygon: a list of linear rings, of which the first is the exterior and the others are holes
/// (RFC 7946, section 3.1.6). Contracts see the list of the rings' lists of positions.
#[derive(Drop)]
pub struct Polygon {
    rings: Vec<Ring>,
}

impl Model for Polygon {
    ghost use Rattle.std.specs.Prelude.{List};
    ghost use Rattle.mds_geometry.specs.declared.position.Position.{Position};

    ghost Value = { List (List Position) };

    ghost view = { λ p. p.rings.items };
}

impl Polygon {
    /// The polygon of these rings. Allocates nothing.
    pub fn new(rings: Vec<Ring>) -> Polygon
        ensures { result ≡ rings.items }
    {
        Polygon { rings }
    }

    /// The rings in their order, the exterior first.
    pub fn rings(&self) -> &[Ring]
        ensures { result.now ≡ self.now }
    {
        self.rings.as_slice()
    }

    /// Whether the polygon holds a position: one on an edge of any of its rings, ends included, or
    /// one whose ray to the east crosses an odd number of its edges. A polygon without rings holds
    /// nothing.
    #[tactic(auto, unfolding(crate::specs::Inside::holds))]
    pub fn holds(&self, at: Position) -> bool
        ensures value { result ≡ holds self.now at }
        ensures empty { self.now ≡ [] → result ≡ false }
    {
        let mut odd = false;
        for ring in &self.rings {
            let Some(crosses) = ring.ray_test(&at) else {
                return true;
            };
            odd ^= crosses;
        }
        odd
    }
}
