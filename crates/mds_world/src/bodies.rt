//! The replies of successes: bodies of JSON.
ghost use Rattle.std.specs.Prelude.{◌≡◌, ◌^◌, ◌<◌, ◌≤◌, ◌++◌, [], length, IfOk, OnOk, IsTrue, map, vec_capacity};
ghost use Rattle.std.specs.List.{join_with_byte};
ghost use Rattle.mds_text.specs.Printed.{printed};
ghost use Rattle.mds_text.specs.View.{view};
ghost use Rattle.mds_match.specs.Row.{row_of};
ghost use Rattle.mds_request.specs.Reply.{is_line, success};
ghost use Rattle.mds_machine.specs.Answer.{told};
ghost use Rattle.mds_machine.specs.Bodies.{words_json, removed_json, draft_json, published_json, compliance_json, location_json, vehicle_json, vehicles_json};

use mds_match::Vehicle;
use mds_request::Reply;
use mds_text::{
    Id, Moment, Token, Tree, add_member, id_tree, int_tree, list_tree, object_tree, print_tree,
    text_tree,
};
use std::alloc::{AllocError, Global};

/// The version of the compliance reports.
const REPORT_VERSION: i64 = 2;

/// The most bytes of a body that is written into memory allocated before.
const SHORT_BODY: usize = 24;

/// The bytes that are allocated for a vehicle in a list of vehicles, which most take less of. A longer list grows.
const VEHICLE_ROOM: usize = 320;

/// Allocates memory for a short body, so that the body can be written after a change.
pub(crate) fn body_buffer(alloc: Global) -> Result<Vec<u8>, AllocError>
    ensures empty { IfOk result (λ room. room.items ≡ []) }
    ensures roomy { IfOk result (λ room. SHORT_BODY ≤ vec_capacity room) }
{
    Vec::with_capacity(alloc, SHORT_BODY)
}

/// A success with this body, written into memory allocated before, so that it can't fail.
pub(crate) fn success_in(mut room: Vec<u8>, body: &[u8]) -> Reply
    requires empty { room.items ≡ [] }
    requires roomy { SHORT_BODY ≤ vec_capacity room }
    requires short { length body.now ≤ SHORT_BODY }
    requires line { IsTrue (is_line body.now) }
    ensures { result ≡ success body.now }
{
    fill(&mut room, body);
    Reply::ok(room)
}

fn fill(room: &mut Vec<u8>, bytes: &[u8])
    requires empty { room.old.items ≡ [] }
    requires roomy { length bytes.now ≤ vec_capacity room.old }
    ensures { room.new.items ≡ bytes.now }
{
    let _ = room.extend_from_slice(bytes);
}

/// A success with this value as its body.
#[tactic(auto, using(crate::proofs::OneLine::one_line))]
pub(crate) fn json_reply(alloc: Global, value: &Tree) -> Result<Reply, AllocError>
    ensures { IfOk result (λ r. r ≡ told (view value.now)) }
{
    let body = print_tree(alloc, value)?;
    Ok(Reply::ok(body))
}

/// The identifier of what was removed: `{"removed":id}`.
pub(crate) fn removed_reply(alloc: Global, id: Id) -> Result<Reply, AllocError>
    ensures { IfOk result (λ r. r ≡ told (removed_json id)) }
{
    let mut members = Vec::new(alloc);
    add_member(&mut members, "removed", id_tree(alloc, &id)?)?;
    json_reply(alloc, &object_tree(members))
}

/// A draft: `{"draft":served}`.
pub(crate) fn draft_reply(alloc: Global, served: Tree) -> Result<Reply, AllocError>
    ensures { IfOk result (λ r. r ≡ told (draft_json (view served))) }
{
    let mut members = Vec::new(alloc);
    add_member(&mut members, "draft", served)?;
    json_reply(alloc, &object_tree(members))
}

/// A publication: `{"published_date":moment,"revision":revision}`.
pub(crate) fn published_reply(
    alloc: Global,
    moment: Moment,
    revision: u64,
) -> Result<Reply, AllocError>
    requires { revision < 2 ^ 63 }
    ensures { IfOk result (λ r. r ≡ told (published_json moment revision)) }
{
    let mut members = Vec::new(alloc);
    add_member(&mut members, "published_date", int_tree(moment.get()))?;
    add_member(&mut members, "revision", int_tree(revision as i64))?;
    json_reply(alloc, &object_tree(members))
}

/// A result at a moment, under its name: `{"at":moment,name:value,"revision":revision,"version":2}`.
pub(crate) fn compliance_reply(
    alloc: Global,
    moment: Moment,
    name: &str,
    value: Tree,
    revision: u64,
) -> Result<Reply, AllocError>
    requires { revision < 2 ^ 63 }
    ensures { IfOk result (λ r. r ≡ told (compliance_json moment name.now (view value) revision)) }
{
    json_reply(
        alloc,
        &compliance_tree(alloc, moment, name, value, revision)?,
    )
}

fn compliance_tree(
    alloc: Global,
    moment: Moment,
    name: &str,
    value: Tree,
    revision: u64,
) -> Result<Tree, AllocError>
    requires { revision < 2 ^ 63 }
    ensures { IfOk result (λ t. view t ≡ compliance_json moment name.now (view value) revision) }
{
    let mut members = Vec::new(alloc);
    add_member(&mut members, "at", int_tree(moment.get()))?;
    add_member(&mut members, name, value)?;
    add_member(&mut members, "revision", int_tree(revision as i64))?;
    add_member(&mut members, "version", int_tree(REPORT_VERSION))?;
    Ok(object_tree(members))
}

/// Words, each as a JSON text.
fn words_tree(alloc: Global, words: &[Token]) -> Result<Tree, AllocError>
    ensures { IfOk result (λ t. view t ≡ words_json words.now) }
{
    let mut texts = Vec::with_capacity(alloc, words.len())?;
    for word in words {
        texts.push(text_tree(alloc, word.as_str())?)?;
    }
    Ok(list_tree(texts))
}

/// Where a vehicle is, in degrees.
fn location_tree(alloc: Global, vehicle: &Vehicle) -> Result<Tree, AllocError>
    ensures { IfOk result (λ t. view t ≡ location_json (row_of vehicle.now)) }
{
    let mut members = Vec::new(alloc);
    add_member(&mut members, "lat", Tree::Degrees(vehicle.position.lat))?;
    add_member(&mut members, "lng", Tree::Degrees(vehicle.position.lng))?;
    Ok(object_tree(members))
}

/// A vehicle as its operator sees it.
fn vehicle_tree(alloc: Global, vehicle: &Vehicle) -> Result<Tree, AllocError>
    ensures { IfOk result (λ t. view t ≡ vehicle_json (row_of vehicle.now)) }
{
    let mut members = Vec::new(alloc);
    add_member(&mut members, "device_id", id_tree(alloc, &vehicle.device)?)?;
    add_member(
        &mut members,
        "event_types",
        words_tree(alloc, vehicle.events())?,
    )?;
    add_member(&mut members, "location", location_tree(alloc, vehicle)?)?;
    add_member(
        &mut members,
        "propulsion_types",
        words_tree(alloc, vehicle.propulsion())?,
    )?;
    add_member(&mut members, "since", int_tree(vehicle.since.get()))?;
    add_member(&mut members, "timestamp", int_tree(vehicle.timestamp.get()))?;
    add_member(
        &mut members,
        "vehicle_state",
        text_tree(alloc, vehicle.state().as_str())?,
    )?;
    add_member(
        &mut members,
        "vehicle_type",
        text_tree(alloc, vehicle.vehicle_type().as_str())?,
    )?;
    Ok(object_tree(members))
}

/// Appends a vehicle as its operator sees it, printed.
fn push_vehicle(alloc: Global, body: &mut Vec<u8>, vehicle: &Vehicle) -> Result<(), AllocError>
    ensures { OnOk result (body.new.items ≡ body.old.items ++ printed (vehicle_json (row_of vehicle.now))) }
{
    let text = print_tree(alloc, &vehicle_tree(alloc, vehicle)?)?;
    body.extend_from_slice(&text)
}

/// Appends vehicles, each printed by itself, separated by commas.
fn push_vehicles(alloc: Global, body: &mut Vec<u8>, vehicles: &[&Vehicle]) -> Result<(), AllocError>
    ensures { OnOk result (body.new.items
        ≡ body.old.items ++ join_with_byte 44 (map (λ v. printed (vehicle_json (row_of v.now))) vehicles.now)) }
{
    let Some((first, rest)) = vehicles.split_first() else {
        return Ok(());
    };
    push_vehicle(alloc, body, first)?;
    for vehicle in rest {
        body.push(b',')?;
        push_vehicle(alloc, body, vehicle)?;
    }
    Ok(())
}

/// An operator's vehicles: `{"vehicles":[..]}`. There is a tree of one of them at a time, and none of all.
pub(crate) fn vehicles_reply(alloc: Global, vehicles: &[&Vehicle]) -> Result<Reply, AllocError>
    ensures { IfOk result (λ r. r ≡ told (vehicles_json (map (λ v. row_of v.now) vehicles.now))) }
{
    let room = vehicles
        .len()
        .saturating_mul(VEHICLE_ROOM)
        .saturating_add(SHORT_BODY);
    let mut body = Vec::with_capacity(alloc, room)?;
    body.extend_from_slice(b"{\"vehicles\":[")?;
    push_vehicles(alloc, &mut body, vehicles)?;
    body.extend_from_slice(b"]}")?;
    Ok(Reply::ok(body))
}
