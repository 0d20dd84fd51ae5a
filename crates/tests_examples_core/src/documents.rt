//! Geographies and reports: what is read of a text, which of its faults is reported, and how a geography is served.
#![tactic(auto, unfolding(crate::specs::Computed::documents))]

ghost use Rattle.std.specs.Prelude.{◌≡◌, ◌++◌, [], codes, Ok, Err};
ghost use Rattle.mds_text.specs.Fault.{bad_field, bad_number, out_of_range, ring_short, ring_open};
ghost use Rattle.mds_text.specs.declared.field.Field.TheVariants.{Coordinates, Features, Geometry, Lng};
ghost use Rattle.mds_geography.specs.Reading.{read_geography};
ghost use Rattle.mds_fleet.specs.Reading.{read_report};
ghost use Rattle.tests_examples_core.specs.Geographies.{geography_text, polygon_text, feature_text, collection_text, with_ring, square_text, square_document, served_as, served_text};
ghost use Rattle.tests_examples_core.specs.Vehicles.{first_report, report_text, in_the_square};

/// A geography is read from its text.
pub fn geography()
    ensures read { read_geography square_text ≡ Ok square_document }
{}

/// A ring has at least four positions, which is checked first, and is closed.
pub fn faults_of_rings()
    ensures open { read_geography (with_ring (codes "[[0,0],[10,0],[10,10],[0,10]]")) ≡ Err ring_open }
    ensures open_to_the_east { read_geography (with_ring (codes "[[0,0],[10,10],[0,10],[10,0]]")) ≡ Err ring_open }
    ensures short { read_geography (with_ring (codes "[[0,0],[10,0],[10,10]]")) ≡ Err ring_short }
    ensures short_and_closed { read_geography (with_ring (codes "[[0,0],[10,0],[0,0]]")) ≡ Err ring_short }
{}

/// The first fault in the document is reported: in a position its longitude's, and a position's before its ring's.
pub fn first_fault_of_a_geography()
    ensures far { read_geography (with_ring (codes "[[0,0],[180.00000005,0],[10,10]]")) ≡ Err out_of_range }
    ensures longitude_first { read_geography (with_ring (codes "[[\"ten\",91]]")) ≡ Err bad_number }
    ensures latitude { read_geography (with_ring (codes "[[0,91],[true,0]]")) ≡ Err out_of_range }
    ensures shape { read_geography (with_ring (codes "[[0,0],[true,0]]")) ≡ Err (bad_field Coordinates) }
    ensures geometry { read_geography (geography_text (codes "n") (feature_text (codes "{\"type\":1}"))) ≡ Err (bad_field Geometry) }
{}

/// The polygons of all features come in the order of the document; a geometry of another type adds none, and isn't
/// read.
pub fn features()
    ensures order { served_as (geography_text (codes "n") (collection_text (feature_text (polygon_text (codes "[[0,0],[1,0],[1,1],[0,0]]")) ++ codes "," ++ feature_text (codes "{\"type\":\"Point\",\"coordinates\":true}") ++ codes "," ++ feature_text (codes "{\"type\":\"MultiPolygon\",\"coordinates\":[[[[2,0],[3,0],[3,1],[2,0]]],[[[4,0],[5,0],[5,1],[4,0]]]]}")))) ≡ Ok (served_text (codes "n") (codes "[[[0,0],[1,0],[1,1],[0,0]]],[[[2,0],[3,0],[3,1],[2,0]]],[[[4,0],[5,0],[5,1],[4,0]]]") []) }
    ensures no_feature { read_geography (geography_text (codes "n") (collection_text (polygon_text (codes "")))) ≡ Err (bad_field Features) }
{}

/// A geography is served as a collection of one feature, without altitudes and with coordinates as they are stored;
/// the served text is read, and served as itself.
pub fn served_geography()
    ensures decimals { served_as (geography_text (codes "n") (feature_text (polygon_text (codes "[[0,0,9],[1.50,0],[\"1e0\",1],[0,0]]")))) ≡ Ok (served_text (codes "n") (codes "[[[0,0],[1.5,0],[1,1],[0,0]]]") []) }
    ensures nothing { served_as (geography_text (codes "n") (feature_text (codes "null"))) ≡ Ok (served_text (codes "n") (codes "") []) }
    ensures again { served_as (served_text (codes "n") (codes "[[[0,0],[1.5,0],[1,1],[0,0]]]") []) ≡ Ok (served_text (codes "n") (codes "[[[0,0],[1.5,0],[1,1],[0,0]]]") []) }
    ensures nothing_again { served_as (served_text (codes "n") (codes "") []) ≡ Ok (served_text (codes "n") (codes "") []) }
{}

/// A report is read from its text, its latitude before its longitude.
pub fn report()
    ensures read { read_report (in_the_square (codes "401")) ≡ Ok (first_report 2000) }
    ensures absent { read_report (report_text (codes "401") (codes "{\"lat\":5}")) ≡ Err (bad_field Lng) }
    ensures latitude_first { read_report (report_text (codes "401") (codes "{\"lat\":90.1,\"lng\":\"ten\"}")) ≡ Err out_of_range }
{}
