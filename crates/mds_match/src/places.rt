//! The polygons of geographies by their identifiers.
use mds_geometry::{Area, Position};
use mds_text::Id;

/// Geographies by their identifiers: a finite map from identifiers to lists of polygons. An unknown
/// identifier has no polygon, so it holds no position.
pub trait Places {
    ghost use Rattle.std.specs.Prelude.{◌≡◌, ℕ, List, []};
    ghost use Rattle.std.specs.Option.{option_map_or};
    ghost use Rattle.mds_geometry.specs.declared.position.Position.{Position};
    ghost use Rattle.mds_geometry.specs.Area.{area_holds};

    /// The polygons of a geography, each the list of its rings.
    ghost polygons: { Self → List ℕ → List (List (List Position)) };

    /// Whether the geography of this identifier holds the position.
    fn holds(&self, geography: Id, position: Position) -> bool
        ensures { result ≡ area_holds (polygons self.now geography) position };

    /// The area of the geography of this identifier, so that many positions can be tested after one
    /// look-up; `None` for an unknown one, which holds no position.
    fn area(&self, geography: Id) -> Option<&Area>
        ensures { option_map_or (λ area. area.now) result [] ≡ polygons self.now geography };
}
