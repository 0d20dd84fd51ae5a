//! Which positions a polygon and an area hold.
#![tactic(auto, unfolding(crate::specs::Computed::places))]

ghost use Rattle.std.specs.Prelude.{pos, [], ◌∷◌, IsTrue};
ghost use Rattle.mds_geometry.specs.Area.{area_holds};
ghost use Rattle.mds_geometry.specs.Inside.{holds};
ghost use Rattle.tests_examples_core.specs.Geographies.{east, west, square, holed, diamond, triangle};

/// A square with a hole holds what lies between its rings, and both rings.
pub fn between_the_rings()
    ensures beside_the_hole { IsTrue (holds holed (east 2 5)) }
    ensures behind_the_hole { IsTrue (holds holed (east 8 5)) }
    ensures border_of_the_hole { IsTrue (holds holed (east 5 4)) }
    ensures corner_of_the_hole { IsTrue (holds holed (east 6 6)) }
    ensures corner { IsTrue (holds holed (east 10 10)) }
    ensures in_the_hole { ¬ IsTrue (holds holed (east 5 5)) }
{}

/// No position outside the square is held, whatever the eastward ray meets: both sides, the hole's too, a side along
/// its whole length, or nothing.
pub fn outside()
    ensures west_of_it { ¬ IsTrue (holds holed (west 5 2)) }
    ensures west_of_the_hole { ¬ IsTrue (holds holed (west 5 5)) }
    ensures height_of_the_hole { ¬ IsTrue (holds holed (west 5 4)) }
    ensures height_of_the_upper_side { ¬ IsTrue (holds holed (west 5 10)) }
    ensures height_of_the_lower_side { ¬ IsTrue (holds holed (west 5 0)) }
    ensures east_of_it { ¬ IsTrue (holds holed (east 15 2)) }
    ensures north_of_it { ¬ IsTrue (holds holed (east 5 15)) }
{}

/// A vertex at the ray's height counts once where the border goes on upwards or downwards, and not at
/// all, or twice, where it turns back.
pub fn vertices()
    ensures inside { IsTrue (holds diamond (east 2 5)) }
    ensures beside { ¬ IsTrue (holds diamond (west 5 5)) }
    ensures beside_the_top { ¬ IsTrue (holds diamond (east 2 10)) }
    ensures beside_the_bottom { ¬ IsTrue (holds diamond (east 2 0)) }
{}

/// A position on the border is held, and one a unit of 10^-7 degree beyond it isn't.
pub fn border()
    ensures east_side { IsTrue (holds square (record { lng = pos 100000000; lat = pos 50000000 })) }
    ensures beyond_the_east_side { ¬ IsTrue (holds square (record { lng = pos 100000001; lat = pos 50000000 })) }
    ensures diagonal { IsTrue (holds triangle (record { lng = pos 33333333; lat = pos 66666667 })) }
    ensures beyond_the_diagonal { ¬ IsTrue (holds triangle (record { lng = pos 33333334; lat = pos 66666667 })) }
{}

/// An area holds what one of its polygons holds: a hole of one may be filled by another.
pub fn area()
    ensures second { IsTrue (area_holds (triangle ∷ square ∷ []) (east 9 9)) }
    ensures filled { IsTrue (area_holds (holed ∷ triangle ∷ []) (east 5 5)) }
    ensures none { ¬ IsTrue (area_holds [] (east 5 5)) }
{}
