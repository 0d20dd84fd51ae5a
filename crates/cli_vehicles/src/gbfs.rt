//! Vehicles of GBFS 3 as reports.
ghost use Rattle.std.specs.Prelude.{◌≡◌, IfOk, option_map};
ghost use Rattle.mds_text.specs.View.{view};
ghost use Rattle.cli_vehicles.specs.Reports.{millis_in, millis_at, instant_of, is_true, gbfs_state, one_text, gbfs_make, gbfs_deed, gbfs_with, gbfs_meant, make_view, deed_view, meant_view};

use crate::bare::json_string;
use crate::report::{
    StateMembers, TypeMembers, VehicleMembers, VehicleOutcome, position_in, report_or_fault,
};
use cli_documents::{id_of_name, member_of, text_member};
use jiff::Timestamp;
use mds_text::{Tree, print_tree};
use std::alloc::{AllocError, Global};

/// The first number of seconds with more than ten digits.
const END_OF_SECONDS: i64 = 10_000_000_000;

/// Reads a moment of RFC 3339, in milliseconds since the Unix epoch.
fn millis_in(text: &str) -> Option<i64>
    ensures { result ≡ millis_in text.now }
{
    match text.parse::<Timestamp>() {
        Ok(moment) => Some(moment.as_millisecond()),
        Err(_) => None,
    }
}

/// A moment in seconds since the Unix epoch, in milliseconds; `None` where it isn't a count of at most ten digits.
fn millis_at(seconds: i64) -> Option<i64>
    ensures { result ≡ millis_at seconds }
{
    if 0 <= seconds && seconds < END_OF_SECONDS {
        Some(seconds * 1_000)
    } else {
        None
    }
}

/// The moment that a value of a feed is, in milliseconds since the Unix epoch: a text is one of RFC 3339, and a whole
/// number of at most ten digits one in seconds (GBFS before version 3); `None` for any other value.
pub fn instant_of(value: &Tree) -> Option<i64>
    ensures { result ≡ instant_of (view value.now) }
{
    match value {
        Tree::Text(text) => millis_in(text.as_str()),
        Tree::Int(seconds) => millis_at(*seconds),
        _ => None,
    }
}

/// Whether a member is there and true.
fn is_true(value: Option<&Tree>) -> bool
    ensures { result ≡ is_true (option_map (λ t. view t.now) value.entry) }
{
    match value {
        Some(Tree::Bool(is_so)) => *is_so,
        _ => false,
    }
}

/// A vehicle's state: out of order, reserved or available.
fn gbfs_state(vehicle: &Tree) -> &'static str
    ensures { result.now ≡ gbfs_state (view vehicle.now) }
{
    if is_true(member_of(vehicle, "is_disabled")) {
        "non_operational"
    } else if is_true(member_of(vehicle, "is_reserved")) {
        "reserved"
    } else {
        "available"
    }
}

/// The text of a list of one value, or of an empty list.
fn one_text(alloc: Global, value: Option<&Tree>) -> Result<Vec<u8>, AllocError>
    ensures { IfOk result (λ v. v.items ≡ one_text (option_map (λ t. view t.now) value.entry)) }
{
    let Some(value) = value else {
        return Vec::from_slice(alloc, b"[]");
    };
    let value = print_tree(alloc, value)?;
    let mut text = Vec::new(alloc);
    text.extend_from_slice(b"[")?;
    text.extend_from_slice(&value)?;
    text.extend_from_slice(b"]")?;
    Ok(text)
}

/// A vehicle's type and propulsion, by the entry of its type.
fn gbfs_type_members(alloc: Global, kind: Option<&Tree>) -> Result<Option<TypeMembers>, AllocError>
    ensures { IfOk result (λ m. option_map make_view m ≡ gbfs_make (option_map (λ t. view t.now) kind.entry)) }
{
    let Some(entry) = kind else {
        return Ok(None);
    };
    match text_member(entry, "form_factor") {
        Some(kind) => Ok(Some(TypeMembers {
            kind: json_string(alloc, kind)?,
            propulsion: one_text(alloc, member_of(entry, "propulsion_type"))?,
        })),
        None => Ok(None),
    }
}

/// A vehicle's state at this moment.
fn gbfs_state_members(
    alloc: Global,
    vehicle: &Tree,
    moment: Option<i64>,
) -> Result<Option<StateMembers>, AllocError>
    ensures { IfOk result (λ d. option_map deed_view d ≡ gbfs_deed (view vehicle.now) moment) }
{
    let Some(moment) = moment else {
        return Ok(None);
    };
    let digits = moment.to_string(alloc)?;
    Ok(Some(StateMembers {
        state: json_string(alloc, gbfs_state(vehicle))?,
        events: Vec::from_slice(alloc, b"[]")?,
        moment: Vec::from_slice(alloc, digits.as_bytes())?,
    }))
}

/// What a vehicle (GBFS 3, vehicle_status.json) becomes at the moment at which it was last reported, with the entry of
/// its type (vehicle_types.json): a report, or the member for which nothing is sent. Its device is the identifier
/// derived from its `vehicle_id` alone (RFC 9562, section 5.5).
pub fn gbfs_outcome(
    alloc: Global,
    vehicle: &Tree,
    kind: Option<&Tree>,
    moment: Option<i64>,
) -> Result<VehicleOutcome, AllocError>
    ensures { IfOk result (λ m. meant_view m ≡ gbfs_meant (view vehicle.now) (option_map (λ t. view t.now) kind.entry) moment) }
{
    let Some(name) = text_member(vehicle, "vehicle_id") else {
        return Ok(VehicleOutcome::Faulty("vehicle_id"));
    };
    let Some(device) = id_of_name(name) else {
        unreachable!();
    };
    let known = VehicleMembers {
        device,
        place: position_in(alloc, "lat", "lon", vehicle)?,
        make: gbfs_type_members(alloc, kind)?,
        deed: gbfs_state_members(alloc, vehicle, moment)?,
    };
    report_or_fault(alloc, "lat", &known)
}
