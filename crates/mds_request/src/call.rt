//! From a request to its call: what the client asks for.
ghost use Rattle.std.specs.Prelude.{◌≡◌, Some, None, IfOk, IfErr};
ghost use Rattle.uuid.specs.Text.{parsed};
ghost use Rattle.mds_request.specs.Call.{call_of, called_at};
ghost use Rattle.mds_request.specs.Configuration.{configuration};
ghost use Rattle.mds_request.specs.Request.{request_of};
ghost use Rattle.mds_request.specs.Route.{spelled};
ghost use Rattle.mds_request.specs.declared.config.Actor.TheVariants.{Author as the_author, Operator as the_operator};
ghost use Rattle.mds_request.specs.declared.code.Code.TheVariants.{BadId};
ghost use Rattle.mds_request.specs.declared.request.Verb.TheVariants.{Get, Put, Delete};

use crate::code::Code;
use crate::config::{Actor, Config};
use crate::request::{Request, Verb};
use crate::routes::{Route, Routes};
use mds_text::{DraftKind, Id};

/// The most bytes of a request's body.
pub const MOST_BODY: usize = 1_048_576;

/// A call of the author.
#[derive(Clone, Copy, PartialEq, Eq)]
pub enum AuthorCall {
    /// All published policies.
    Policies,
    /// A published policy.
    Policy(Id),
    /// All published geographies.
    Geographies,
    /// A published geography.
    Geography(Id),
    /// Stores the body as a draft; it replaces one with this identifier.
    PutDraft(DraftKind, Id),
    /// A draft.
    Draft(DraftKind, Id),
    /// Drops a draft.
    DropDraft(DraftKind, Id),
    /// Publishes the drafts that the body names, and withdraws the published policies that it names.
    Publish,
}

/// A call of an operator.
#[derive(Clone, Copy, PartialEq, Eq)]
pub enum OperatorCall {
    /// The published policies that are meant for the operator.
    Policies,
    /// A published policy that is meant for the operator.
    Policy(Id),
    /// All published geographies.
    Geographies,
    /// A published geography.
    Geography(Id),
    /// Takes the body as a report of a vehicle.
    Report,
    /// The operator's vehicles.
    Vehicles,
    /// Removes one of the operator's vehicles.
    RemoveVehicle(Id),
    /// The compliance of the operator's vehicles with all policies in force for it.
    Compliance,
    /// Their compliance with one of these.
    PolicyCompliance(Id),
}

/// A call, with the client that makes it.
#[derive(Clone, Copy, PartialEq, Eq)]
pub enum Call {
    /// A call of the author.
    Author(AuthorCall),
    /// A call of the operator at this index of the configuration.
    Operator(usize, OperatorCall),
}

/// The call of a request.
///
/// # Errors
///
/// The first of these refusals: the body is over its limit (`TooLarge`), the access token is unknown (`Token`), no call
/// has the path (`NoRoute`), none with the path has the method (`Method`), the call isn't for this client (`Role`), the
/// identifier in the path is no UUID (`BadId`).
pub fn read_call(routes: &Routes, config: &Config, request: &Request) -> Result<Call, Code>
    ensures { result ≡ call_of (configuration config.now) (request_of request.now) }
{
    if request.body.len() > MOST_BODY {
        return Err(Code::TooLarge);
    }
    match config.actor(request.token) {
        Actor::Author => {
            let (route, id) = routes.find(request.target)?;
            author_call(route, id, request.verb)
        }
        Actor::Operator(place) => {
            let (route, id) = routes.find(request.target)?;
            operator_call(place, route, id, request.verb)
        }
        Actor::Nobody => Err(Code::Token),
    }
}

fn author_call(route: Route, id: &str, verb: Verb) -> Result<Call, Code>
    ensures { result ≡ called_at the_author verb (spelled route id.now) }
{
    match verb {
        Verb::Get => author_get(route, id),
        Verb::Put => author_put(route, id),
        Verb::Post => match route {
            Route::Publish => Ok(Call::Author(AuthorCall::Publish)),
            Route::FleetEvents => Err(Code::Role),
            _ => Err(Code::Method),
        },
        Verb::Delete => author_delete(route, id),
        Verb::Other => Err(Code::Method),
    }
}

fn author_get(route: Route, id: &str) -> Result<Call, Code>
    ensures { result ≡ called_at the_author Get (spelled route id.now) }
{
    let call = match route {
        Route::Policies => AuthorCall::Policies,
        Route::Policy => AuthorCall::Policy(read_id(id)?),
        Route::Geographies => AuthorCall::Geographies,
        Route::Geography => AuthorCall::Geography(read_id(id)?),
        Route::PolicyDraft => AuthorCall::Draft(DraftKind::Policy, read_id(id)?),
        Route::GeographyDraft => AuthorCall::Draft(DraftKind::Geography, read_id(id)?),
        Route::FleetVehicles | Route::Compliance | Route::PolicyCompliance => {
            return Err(Code::Role);
        }
        Route::FleetEvents | Route::FleetVehicle | Route::Publish => {
            return Err(Code::Method);
        }
    };
    Ok(Call::Author(call))
}

fn author_put(route: Route, id: &str) -> Result<Call, Code>
    ensures { result ≡ called_at the_author Put (spelled route id.now) }
{
    match route {
        Route::PolicyDraft => {
            let id = read_id(id)?;
            Ok(Call::Author(AuthorCall::PutDraft(DraftKind::Policy, id)))
        }
        Route::GeographyDraft => {
            let id = read_id(id)?;
            Ok(Call::Author(AuthorCall::PutDraft(DraftKind::Geography, id)))
        }
        _ => Err(Code::Method),
    }
}

fn author_delete(route: Route, id: &str) -> Result<Call, Code>
    ensures { result ≡ called_at the_author Delete (spelled route id.now) }
{
    match route {
        Route::PolicyDraft => {
            let id = read_id(id)?;
            Ok(Call::Author(AuthorCall::DropDraft(DraftKind::Policy, id)))
        }
        Route::GeographyDraft => {
            let id = read_id(id)?;
            Ok(Call::Author(AuthorCall::DropDraft(DraftKind::Geography, id)))
        }
        Route::FleetVehicle => Err(Code::Role),
        _ => Err(Code::Method),
    }
}

fn operator_call(place: usize, route: Route, id: &str, verb: Verb) -> Result<Call, Code>
    ensures { result ≡ called_at (the_operator place) verb (spelled route id.now) }
{
    match verb {
        Verb::Get => operator_get(place, route, id),
        Verb::Put => match route {
            Route::PolicyDraft | Route::GeographyDraft => Err(Code::Role),
            _ => Err(Code::Method),
        },
        Verb::Post => match route {
            Route::FleetEvents => Ok(Call::Operator(place, OperatorCall::Report)),
            Route::Publish => Err(Code::Role),
            _ => Err(Code::Method),
        },
        Verb::Delete => operator_delete(place, route, id),
        Verb::Other => Err(Code::Method),
    }
}

fn operator_get(place: usize, route: Route, id: &str) -> Result<Call, Code>
    ensures { result ≡ called_at (the_operator place) Get (spelled route id.now) }
{
    match route {
        Route::Policies => Ok(Call::Operator(place, OperatorCall::Policies)),
        Route::Policy => Ok(Call::Operator(place, OperatorCall::Policy(read_id(id)?))),
        Route::Geographies => Ok(Call::Operator(place, OperatorCall::Geographies)),
        Route::Geography => Ok(Call::Operator(place, OperatorCall::Geography(read_id(id)?))),
        Route::FleetVehicles => Ok(Call::Operator(place, OperatorCall::Vehicles)),
        Route::Compliance => Ok(Call::Operator(place, OperatorCall::Compliance)),
        Route::PolicyCompliance => Ok(Call::Operator(
            place,
            OperatorCall::PolicyCompliance(read_id(id)?),
        )),
        Route::PolicyDraft | Route::GeographyDraft => Err(Code::Role),
        _ => Err(Code::Method),
    }
}

fn operator_delete(place: usize, route: Route, id: &str) -> Result<Call, Code>
    ensures { result ≡ called_at (the_operator place) Delete (spelled route id.now) }
{
    match route {
        Route::FleetVehicle => {
            let id = read_id(id)?;
            Ok(Call::Operator(place, OperatorCall::RemoveVehicle(id)))
        }
        Route::PolicyDraft | Route::GeographyDraft => Err(Code::Role),
        _ => Err(Code::Method),
    }
}

/// Reads the identifier in a path, a UUID (RFC 9562, section 4).
fn read_id(segment: &str) -> Result<Id, Code>
    ensures read { IfOk result (λ id. parsed segment.now ≡ Some id) }
    ensures refused { IfErr result (λ code. (code ≡ BadId) × (parsed segment.now ≡ None)) }
{
    Id::read(segment).ok_or(Code::BadId)
}
