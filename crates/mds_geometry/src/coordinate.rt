//! Reads the coordinates of a document.
ghost use Rattle.std.specs.Prelude.{◌≡◌, ◌≤◌, ◌*ℤ◌, pos};
ghost use Rattle.mds_geometry.specs.Coordinate.{coordinate_of, most_longitude, units_of_degree, within};
ghost use Rattle.mds_text.specs.Fault.{Gives, IsCaused, text_cause};
ghost use Rattle.mds_text.specs.Tree.{text};
ghost use Rattle.mds_text.specs.View.{view};
ghost use Rattle.mds_json.specs.Node.{node_view};

use crate::decimal::units_of_text;
use mds_json::Node;
use mds_text::{Field, TextFault, Tree, Units7};

/// The greatest longitude in degrees (RFC 7946, section 4).
pub const MOST_LONGITUDE: u8 = 180;

/// The greatest latitude in degrees (RFC 7946, section 4).
pub const MOST_LATITUDE: u8 = 90;

/// Units of 10^-7 degree in a degree.
const DEGREE: i64 = 10_000_000;

/// A coordinate at most `most` degrees from zero (RFC 7946, section 3.1.1), rounded to units of
/// 10^-7 degree: from a plain whole number of degrees, or from the text of a number (RFC 8259,
/// section 6).
///
/// # Errors
///
/// `BadField` of the field for another kind of value, `BadNumber` for a text that is no number of
/// at most 64 bytes with an exponent of at most three digits, and `OutOfRange` beyond `most`
/// degrees.
pub fn coordinate_of(value: &Tree, field: Field, most: u8) -> Result<Units7, TextFault>
    requires { most ≤ most_longitude }
    ensures value { Gives text_cause (λ u. u) result (coordinate_of most field (view value.now)) }
    ensures memory { IsCaused result }
{
    match value {
        Tree::Int(degrees) => whole_degrees(*degrees, most),
        Tree::Text(text) => coordinate_of_text(text.as_str(), most),
        _ => Err(TextFault::BadField(field)),
    }
}

/// A coordinate at most `most` degrees from zero, as `coordinate_of` reads it, from a tree that
/// borrows.
///
/// # Errors
///
/// Those of `coordinate_of`.
pub fn coordinate_of_node(value: &Node<'_>, field: Field, most: u8) -> Result<Units7, TextFault>
    requires { most ≤ most_longitude }
    ensures value { Gives text_cause (λ u. u) result (coordinate_of most field (node_view value.now)) }
    ensures memory { IsCaused result }
{
    match value {
        Node::Int(degrees) => whole_degrees(*degrees, most),
        Node::Text(text) => coordinate_of_text(text, most),
        _ => Err(TextFault::BadField(field)),
    }
}

/// The coordinate that the text of a number (RFC 8259, section 6) gives in degrees, at most `most`
/// degrees from zero, rounded to units of 10^-7 degree.
///
/// # Errors
///
/// `BadNumber` for a text that is no number of at most 64 bytes with an exponent of at most three
/// digits, and `OutOfRange` beyond `most` degrees.
#[inline(always)]
pub fn coordinate_of_text(number: &str, most: u8) -> Result<Units7, TextFault>
    requires { most ≤ most_longitude }
    ensures value { Gives text_cause (λ u. u) result (coordinate_of most Field.Coordinates (text number.now)) }
    ensures memory { IsCaused result }
{
    within(units_of_text(number)?, most)
}

/// The coordinate of a whole number of degrees; `OutOfRange` beyond `most` degrees.
fn whole_degrees(degrees: i64, most: u8) -> Result<Units7, TextFault>
    requires { most ≤ most_longitude }
    ensures value { Gives text_cause (λ u. u) result (within most (degrees *ℤ pos units_of_degree)) }
    ensures memory { IsCaused result }
{
    let most = i64::from(most);
    if degrees < -most || most < degrees {
        return Err(TextFault::OutOfRange);
    }
    Units7::new(degrees * DEGREE).ok_or(TextFault::OutOfRange)
}

/// The coordinate itself; `OutOfRange` beyond `most` degrees.
#[inline(always)]
fn within(units: Units7, most: u8) -> Result<Units7, TextFault>
    ensures value { Gives text_cause (λ u. u) result (within most units) }
    ensures memory { IsCaused result }
{
    let most = i64::from(most) * DEGREE;
    if -most <= units.get() && units.get() <= most {
        Ok(units)
    } else {
        Err(TextFault::OutOfRange)
    }
}
