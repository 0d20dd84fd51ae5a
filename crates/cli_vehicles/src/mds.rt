//! Vehicles of MDS 2.0 as reports and removals.
ghost use Rattle.std.specs.Prelude.{◌≡◌, IfOk, codes, option_map, option_and_then};
ghost use Rattle.mds_text.specs.View.{view};
ghost use Rattle.cli_documents.specs.Members.{named};
ghost use Rattle.cli_vehicles.specs.Reports.{is_away, located, mds_place, mds_make, mds_deed, mds_in_state, mds_stated, mds_with, mds_meant, place_view, make_view, deed_view, meant_view};

use crate::bare::json_string;
use crate::report::{
    PositionMembers, StateMembers, TypeMembers, VehicleMembers, VehicleOutcome, list_text,
    position_in, report_or_fault,
};
use cli_documents::{id_member, member_of, text_member};
use mds_text::{Id, Tree, print_tree};
use std::alloc::{AllocError, Global};

/// Whether a vehicle in this state isn't on the street.
fn is_away(state: &str) -> bool
    ensures { result ≡ is_away state.now }
{
    state == "removed" || state == "missing" || state == "elsewhere"
}

/// The position of an event or of telemetry.
fn location_of(alloc: Global, value: &Tree) -> Result<Option<PositionMembers>, AllocError>
    ensures { IfOk result (λ p. option_map place_view p ≡ located (view value.now)) }
{
    match member_of(value, "location") {
        Some(location) => position_in(alloc, "lat", "lng", location),
        None => Ok(None),
    }
}

/// The position of the last telemetry.
fn last_position(alloc: Global, status: &Tree) -> Result<Option<PositionMembers>, AllocError>
    ensures { IfOk result (λ p. option_map place_view p ≡ option_and_then located (named (codes "last_telemetry") (view status.now))) }
{
    match member_of(status, "last_telemetry") {
        Some(telemetry) => location_of(alloc, telemetry),
        None => Ok(None),
    }
}

/// A vehicle's position: that of its last event, or else that of its last telemetry.
fn mds_position(
    alloc: Global,
    status: &Tree,
    event: &Tree,
) -> Result<Option<PositionMembers>, AllocError>
    ensures { IfOk result (λ p. option_map place_view p ≡ mds_place (view status.now) (view event.now)) }
{
    match location_of(alloc, event)? {
        Some(place) => Ok(Some(place)),
        None => last_position(alloc, status),
    }
}

/// A vehicle's type and propulsion, by its entry among the vehicles.
fn mds_type_members(alloc: Global, vehicle: &Tree) -> Result<Option<TypeMembers>, AllocError>
    ensures { IfOk result (λ m. option_map make_view m ≡ mds_make (view vehicle.now)) }
{
    match text_member(vehicle, "vehicle_type") {
        Some(kind) => Ok(Some(TypeMembers {
            kind: json_string(alloc, kind)?,
            propulsion: list_text(alloc, member_of(vehicle, "propulsion_types"))?,
        })),
        None => Ok(None),
    }
}

/// A vehicle's state, and the types and the moment of its last event.
fn mds_state_members(
    alloc: Global,
    state: &str,
    event: &Tree,
) -> Result<Option<StateMembers>, AllocError>
    ensures { IfOk result (λ d. option_map deed_view d ≡ mds_deed state.now (view event.now)) }
{
    match member_of(event, "timestamp") {
        Some(moment) => Ok(Some(StateMembers {
            state: json_string(alloc, state)?,
            events: list_text(alloc, member_of(event, "event_types"))?,
            moment: print_tree(alloc, moment)?,
        })),
        None => Ok(None),
    }
}

/// A vehicle's status, with its last event and with the vehicle's own entry.
#[derive(Clone, Copy)]
struct StatusWithVehicle<'t> {
    status: &'t Tree,
    event: &'t Tree,
    vehicle: &'t Tree,
}

/// What a vehicle in this state becomes.
fn outcome_in_state(
    alloc: Global,
    device: Id,
    state: &str,
    seen: &StatusWithVehicle<'_>,
) -> Result<VehicleOutcome, AllocError>
    ensures { IfOk result (λ m. meant_view m ≡ mds_in_state device state.now (view seen.now.status.now) (view seen.now.event.now) (view seen.now.vehicle.now)) }
{
    if is_away(state) {
        return Ok(VehicleOutcome::Gone(device));
    }
    let known = VehicleMembers {
        device,
        place: mds_position(alloc, seen.status, seen.event)?,
        make: mds_type_members(alloc, seen.vehicle)?,
        deed: mds_state_members(alloc, state, seen.event)?,
    };
    report_or_fault(alloc, "location", &known)
}

/// What a vehicle's status (MDS 2.0, vehicle status) becomes, with the vehicle's own entry, which has its type: a
/// report by its last event, at the event's position or else that of the last telemetry; or a removal, in the states
/// `removed`, `missing` and `elsewhere`; or the member for which nothing is sent.
pub fn mds_outcome(
    alloc: Global,
    status: &Tree,
    vehicle: &Tree,
) -> Result<VehicleOutcome, AllocError>
    ensures { IfOk result (λ m. meant_view m ≡ mds_meant (view status.now) (view vehicle.now)) }
{
    let Some(device) = id_member(status, "device_id") else {
        return Ok(VehicleOutcome::Faulty("device_id"));
    };
    let Some(event) = member_of(status, "last_event") else {
        return Ok(VehicleOutcome::Faulty("last_event"));
    };
    let Some(state) = text_member(event, "vehicle_state") else {
        return Ok(VehicleOutcome::Faulty("vehicle_state"));
    };
    let seen = StatusWithVehicle {
        status,
        event,
        vehicle,
    };
    outcome_in_state(alloc, device, state, &seen)
}
