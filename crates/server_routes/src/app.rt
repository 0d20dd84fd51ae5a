//! The calls outside the protocol's.
ghost use Rattle.std.specs.Prelude.{◌≡◌, ◌<◌, IfSome, length, option_map, position};
ghost use Rattle.std.specs.List.{list_any};
ghost use Rattle.mds_request.specs.Call.{is_query_mark, is_slash, is_verb, path_of};
ghost use Rattle.server_routes.specs.App.{app_at, by_verb, call_at, fleet_at, fleet_of, is_segment, fleet_call, one_fleet_at, segment_in, verb_for};

use crate::public_target::identifier;
use mds_request::{Code, Verb};
use mds_text::Id;

/// A question of people, outside the protocol.
#[derive(Clone, Copy, Debug, PartialEq, Eq)]
pub enum Question {
    /// Who the client is.
    Whoami,
    /// Which policies are withdrawn.
    Withdrawals,
    /// Which drafts are held.
    Drafts,
}

/// What an operator's desk tells of its fleet.
#[derive(Clone, Copy, Debug, PartialEq, Eq)]
pub enum FleetView {
    /// Whether the vehicles keep the rules: the reply to `GET /compliance`.
    Compliance,
    /// The vehicles: the reply to `GET /fleet/vehicles`.
    Vehicles,
}

/// A call outside the protocol's, at a path that no route has.
#[derive(Clone, Copy)]
pub enum AppCall {
    /// Many reports of an operator in one body, one a line.
    Events,
    /// A question, which changes nothing.
    Told(Question),
    /// A view of the client's own fleet or, for the author, of each operator's.
    Fleet(FleetView),
    /// A view of the fleet of the operator with this identifier.
    FleetOf(FleetView, Id),
    /// A view of one operator's fleet, at a path that ends with no identifier.
    NoOperator,
}

/// How many bytes the path of one operator's compliance has, up to its identifier.
const COMPLIANCE: usize = 16;

/// How many bytes the path of one operator's vehicles has, up to its identifier.
const FLEET: usize = 11;

/// The index of the first question mark.
pub(crate) fn query_mark(target: &[u8]) -> Option<usize>
    ensures value { result ≡ position is_query_mark target.now }
    ensures within { IfSome result (λ end. end < length target.now) }
{
    target.iter().position(|byte| *byte == b'?')
}

/// The path of a target: what stands before the first question mark (RFC 3986, section 3.4).
pub fn path_of(target: &[u8]) -> &[u8]
    ensures { result.now ≡ path_of target.now }
{
    match query_mark(target) {
        Some(end) => &target[..end],
        None => target,
    }
}

/// Whether a text has a slash.
fn has_slash(text: &[u8]) -> bool
    ensures { result ≡ list_any is_slash text.now }
{
    text.iter().any(|byte| *byte == b'/')
}

/// Whether a text is a segment of a path: it isn't empty and has no slash (RFC 3986, section 3.3).
fn is_segment(text: &[u8]) -> bool
    ensures { result ≡ is_segment text.now }
{
    match text.split_first() {
        Some(_) => !has_slash(text),
        None => false,
    }
}

/// The segment behind a folder of so many bytes, where the path has just one there.
fn segment_in<'p>(size: usize, folder: &[u8], path: &'p [u8]) -> Option<&'p [u8]>
    ensures { option_map (λ s. s.now) result ≡ segment_in size folder.now path.now }
{
    match path.split_at_checked(size) {
        Some((front, segment)) if front == folder && is_segment(segment) => Some(segment),
        _ => None,
    }
}

/// The call for a view of the fleet of the operator with this identifier, where there is one.
fn fleet_call(view: FleetView, id: Option<Id>) -> AppCall
    ensures { result ≡ fleet_call view id }
{
    match id {
        Some(id) => AppCall::FleetOf(view, id),
        None => AppCall::NoOperator,
    }
}

/// The call for a view of one operator's fleet, in a folder of so many bytes.
fn fleet_of(view: FleetView, size: usize, folder: &[u8], path: &[u8]) -> Option<AppCall>
    ensures { result ≡ fleet_of view size folder.now path.now }
{
    match segment_in(size, folder, path) {
        Some(segment) => Some(fleet_call(view, identifier(segment))),
        None => None,
    }
}

/// The call for one operator's fleet.
fn one_fleet_at(path: &[u8]) -> Option<AppCall>
    ensures { result ≡ one_fleet_at path.now }
{
    match fleet_of(FleetView::Compliance, COMPLIANCE, b"/app/compliance/", path) {
        Some(call) => Some(call),
        None => fleet_of(FleetView::Vehicles, FLEET, b"/app/fleet/", path),
    }
}

/// The call for what desks tell of fleets, at this path.
fn fleet_at(path: &[u8]) -> Option<AppCall>
    ensures { result ≡ fleet_at path.now }
{
    if path == b"/app/compliance".as_slice() {
        Some(AppCall::Fleet(FleetView::Compliance))
    } else if path == b"/app/fleet".as_slice() {
        Some(AppCall::Fleet(FleetView::Vehicles))
    } else {
        one_fleet_at(path)
    }
}

/// The call at this path. None where the path is the protocol's.
fn call_at(path: &[u8]) -> Option<AppCall>
    ensures { result ≡ call_at path.now }
{
    if path == b"/app/fleet/events".as_slice() {
        Some(AppCall::Events)
    } else if path == b"/app/whoami".as_slice() {
        Some(AppCall::Told(Question::Whoami))
    } else if path == b"/app/withdrawals".as_slice() {
        Some(AppCall::Told(Question::Withdrawals))
    } else if path == b"/app/drafts".as_slice() {
        Some(AppCall::Told(Question::Drafts))
    } else {
        fleet_at(path)
    }
}

/// Whether this is the method of a call: POST of many reports, GET of all else.
fn has_verb(call: &AppCall, verb: Verb) -> bool
    ensures { result ≡ is_verb (verb_for call.now) verb }
{
    match call {
        AppCall::Events => matches!(verb, Verb::Post),
        AppCall::Told(_) | AppCall::Fleet(_) => matches!(verb, Verb::Get),
        AppCall::FleetOf(..) | AppCall::NoOperator => matches!(verb, Verb::Get),
    }
}

/// The call, where this is its method.
///
/// # Errors
///
/// `Method`.
fn by_verb(verb: Verb, call: AppCall) -> Result<AppCall, Code>
    ensures { result ≡ by_verb verb call }
{
    if has_verb(&call, verb) {
        Ok(call)
    } else {
        Err(Code::Method)
    }
}

/// The call by this method at this path, or `Method` where the path hasn't the method. None where
/// the path is the protocol's.
pub fn app_at(verb: Verb, path: &[u8]) -> Option<Result<AppCall, Code>>
    ensures { result ≡ app_at verb path.now }
{
    match call_at(path) {
        Some(call) => Some(by_verb(verb, call)),
        None => None,
    }
}
