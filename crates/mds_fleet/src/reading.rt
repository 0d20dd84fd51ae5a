//! Reading a vehicle report, member by member in the order of the protocol.
ghost use Rattle.std.specs.Prelude.{◌≡◌, ◌≤◌};
ghost use Rattle.mds_json.specs.Node.{node_view};
ghost use Rattle.mds_text.specs.Fault.{Gives, text_cause};
ghost use Rattle.mds_fleet.specs.Books.{report_document};
ghost use Rattle.mds_fleet.specs.Reading.{report_of, location_of, position_of, coordinate_at, tokens_at};

use crate::report::Report;
use mds_geometry::{Position, coordinate_of_node};
use mds_json::{
    Node, document_of, object_of, required_id, required_member, required_moment, required_token,
    tokens_at as optional_tokens,
};
use mds_match::Words;
use mds_text::{Field, TextFault, Token, Units7};
use std::alloc::Global;

#[tactic(auto, unfolding(crate::specs::Reading::report_of))]
pub(crate) fn report_of(alloc: Global, tree: &Node<'_>) -> Result<Report, TextFault>
    ensures { Gives text_cause report_document result (report_of (node_view tree.now)) }
{
    let document = document_of(tree)?;
    let device = required_id(document, Field::DeviceId)?;
    let vehicle_type = required_token(document, Field::VehicleType)?;
    let propulsion = tokens_at(alloc, document, Field::PropulsionTypes)?;
    let state = required_token(document, Field::VehicleState)?;
    let events = tokens_at(alloc, document, Field::EventTypes)?;
    let timestamp = required_moment(document, Field::Timestamp)?;
    let location = location_of(document)?;
    let position = position_of(location)?;
    Ok(Report {
        device,
        make: Words::new_shared(alloc, vehicle_type, propulsion)?,
        condition: Words::new_shared(alloc, state, events)?,
        timestamp,
        position,
    })
}

/// A list of tokens; absent and null are the empty list.
fn tokens_at(alloc: Global, document: &Node<'_>, field: Field) -> Result<Vec<Token>, TextFault>
    ensures { Gives text_cause (λ v. v.items) result (tokens_at (node_view document.now) field) }
{
    match optional_tokens(alloc, document, field)? {
        Some(tokens) => Ok(tokens),
        None => Ok(Vec::new(alloc)),
    }
}

/// The member `location`, which must be an object.
fn location_of<'t, 'a>(document: &'t Node<'a>) -> Result<&'t Node<'a>, TextFault>
    ensures { Gives text_cause (λ t. node_view t.now) result (location_of (node_view document.now)) }
{
    object_of(required_member(document, Field::Location)?, Field::Location)
}

/// The position: its latitude is read first, then its longitude.
fn position_of(location: &Node<'_>) -> Result<Position, TextFault>
    ensures { Gives text_cause (λ p. p) result (position_of (node_view location.now)) }
{
    let lat = coordinate_at(location, Field::Lat, 90)?;
    let lng = coordinate_at(location, Field::Lng, 180)?;
    Ok(Position { lng, lat })
}

/// A coordinate of at most `most` degrees from zero.
fn coordinate_at(location: &Node<'_>, field: Field, most: u8) -> Result<Units7, TextFault>
    requires { most ≤ 180 }
    ensures { Gives text_cause (λ u. u) result (coordinate_at most (node_view location.now) field) }
{
    let value = required_member(location, field)?;
    coordinate_of_node(value, field, most)
}
