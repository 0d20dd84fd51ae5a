//! Reports as text.
ghost use Rattle.std.specs.Prelude.{◌≡◌, ◌++◌, IfOk, OnOk, option_map};
ghost use Rattle.mds_text.specs.View.{view};
ghost use Rattle.cli_vehicles.specs.Reports.{device_text, place_text, make_text, deed_text, report_text, list_text, place_with, place_at, told, meant_view, place_view, make_view, deed_view};

use crate::bare::print_bare;
use cli_documents::member_of;
use mds_text::{Id, Tree, print_tree};
use std::alloc::{AllocError, Global};

/// What a vehicle of a feed becomes: a report, a removal or a fault.
#[derive(Drop)]
pub enum VehicleOutcome {
    /// The text of a report.
    Present(Vec<u8>),
    /// A vehicle that isn't on the street, and is removed from the fleet.
    Gone(Id),
    /// The member for which nothing is sent.
    Faulty(&'static str),
}

/// A vehicle's position, in degrees as they are written.
#[derive(Drop)]
pub(crate) struct PositionMembers {
    pub lat: Vec<u8>,
    pub lng: Vec<u8>,
}

/// A vehicle's type and propulsion.
#[derive(Drop)]
pub(crate) struct TypeMembers {
    /// Its type, as the text of a JSON string.
    pub kind: Vec<u8>,
    /// The text of the list of its propulsion types.
    pub propulsion: Vec<u8>,
}

/// A vehicle's state, with the types and the moment of its events.
#[derive(Drop)]
pub(crate) struct StateMembers {
    /// Its state, as the text of a JSON string.
    pub state: Vec<u8>,
    /// The text of the list of its events' types.
    pub events: Vec<u8>,
    /// The text of their moment.
    pub moment: Vec<u8>,
}

/// The text of a list; of an empty one where there is none.
pub(crate) fn list_text(alloc: Global, value: Option<&Tree>) -> Result<Vec<u8>, AllocError>
    ensures { IfOk result (λ v. v.items ≡ list_text (option_map (λ t. view t.now) value.entry)) }
{
    match value {
        Some(value) => print_tree(alloc, value),
        None => Vec::from_slice(alloc, b"[]"),
    }
}

/// A position, where both of its numbers are there.
fn position_with(
    alloc: Global,
    lat: Option<&Tree>,
    lng: Option<&Tree>,
) -> Result<Option<PositionMembers>, AllocError>
    ensures { IfOk result (λ p. option_map place_view p ≡ place_with (option_map (λ t. view t.now) lat.entry) (option_map (λ t. view t.now) lng.entry)) }
{
    match (lat, lng) {
        (Some(lat), Some(lng)) => Ok(Some(PositionMembers {
            lat: print_bare(alloc, lat)?,
            lng: print_bare(alloc, lng)?,
        })),
        _ => Ok(None),
    }
}

/// The position that a value has, by the names of its two numbers.
pub(crate) fn position_in(
    alloc: Global,
    lat: &str,
    lng: &str,
    value: &Tree,
) -> Result<Option<PositionMembers>, AllocError>
    ensures { IfOk result (λ p. option_map place_view p ≡ place_at lat.now lng.now (view value.now)) }
{
    position_with(alloc, member_of(value, lat), member_of(value, lng))
}

/// A vehicle's events, moment and state, as members of a report.
#[tactic(auto, unfolding(crate::specs::Reports::deed_text))]
fn state_text(alloc: Global, deed: &StateMembers) -> Result<Vec<u8>, AllocError>
    ensures { IfOk result (λ v. v.items ≡ deed_text (deed_view deed.now)) }
{
    let mut text = Vec::new(alloc);
    text.extend_from_slice(b",\"event_types\":")?;
    text.extend_from_slice(&deed.events)?;
    text.extend_from_slice(b",\"timestamp\":")?;
    text.extend_from_slice(&deed.moment)?;
    text.extend_from_slice(b",\"vehicle_state\":")?;
    text.extend_from_slice(&deed.state)?;
    Ok(text)
}

/// A vehicle's position, as a member of a report.
#[tactic(auto, unfolding(crate::specs::Reports::place_text))]
fn position_text(alloc: Global, place: &PositionMembers) -> Result<Vec<u8>, AllocError>
    ensures { IfOk result (λ v. v.items ≡ place_text (place_view place.now)) }
{
    let mut text = Vec::new(alloc);
    text.extend_from_slice(b",\"location\":{\"lat\":")?;
    text.extend_from_slice(&place.lat)?;
    text.extend_from_slice(b",\"lng\":")?;
    text.extend_from_slice(&place.lng)?;
    text.extend_from_slice(b"}")?;
    Ok(text)
}

/// A vehicle's propulsion and type, as members of a report.
#[tactic(auto, unfolding(crate::specs::Reports::make_text))]
fn type_text(alloc: Global, make: &TypeMembers) -> Result<Vec<u8>, AllocError>
    ensures { IfOk result (λ v. v.items ≡ make_text (make_view make.now)) }
{
    let mut text = Vec::new(alloc);
    text.extend_from_slice(b",\"propulsion_types\":")?;
    text.extend_from_slice(&make.propulsion)?;
    text.extend_from_slice(b",\"vehicle_type\":")?;
    text.extend_from_slice(&make.kind)?;
    Ok(text)
}

/// The beginning of a report, with its device.
#[tactic(auto, unfolding(crate::specs::Reports::device_text))]
fn device_text(alloc: Global, device: Id) -> Result<Vec<u8>, AllocError>
    ensures { IfOk result (λ v. v.items ≡ device_text device) }
{
    let device = device.print(alloc)?;
    let mut text = Vec::new(alloc);
    text.extend_from_slice(b"{\"device_id\":\"")?;
    text.extend_from_slice(device.as_bytes())?;
    text.extend_from_slice(b"\"")?;
    Ok(text)
}

/// The text of a report.
fn report_text(
    alloc: Global,
    device: Id,
    place: &PositionMembers,
    make: &TypeMembers,
    deed: &StateMembers,
) -> Result<Vec<u8>, AllocError>
    ensures { IfOk result (λ v. v.items ≡ report_text device (place_view place.now) (make_view make.now) (deed_view deed.now)) }
{
    let mut text = device_text(alloc, device)?;
    text.extend_from_slice(&state_text(alloc, deed)?)?;
    text.extend_from_slice(&position_text(alloc, place)?)?;
    text.extend_from_slice(&type_text(alloc, make)?)?;
    text.extend_from_slice(b"}")?;
    Ok(text)
}

/// What a feed has of a vehicle: each part may be missing.
#[derive(Drop)]
pub(crate) struct VehicleMembers {
    pub device: Id,
    pub place: Option<PositionMembers>,
    pub make: Option<TypeMembers>,
    pub deed: Option<StateMembers>,
}

/// A report of the parts of a vehicle, or the first member that is missing.
pub(crate) fn report_or_fault(
    alloc: Global,
    where_named: &'static str,
    known: &VehicleMembers,
) -> Result<VehicleOutcome, AllocError>
    ensures { IfOk result (λ m. meant_view m ≡ told known.now.device where_named.now (option_map place_view known.now.place) (option_map make_view known.now.make) (option_map deed_view known.now.deed)) }
{
    let Some(place) = &known.place else {
        return Ok(VehicleOutcome::Faulty(where_named));
    };
    let Some(make) = &known.make else {
        return Ok(VehicleOutcome::Faulty("vehicle_type"));
    };
    let Some(deed) = &known.deed else {
        return Ok(VehicleOutcome::Faulty("timestamp"));
    };
    Ok(VehicleOutcome::Present(report_text(alloc, known.device, place, make, deed)?))
}
