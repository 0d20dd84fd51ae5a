//! The calls of the city's state.
ghost use Rattle.std.specs.Prelude.{◌≡◌};
ghost use Rattle.mds_request.specs.Configuration.{actor_of};
ghost use Rattle.mds_request.specs.Request.{verb_of};
ghost use Rattle.server_state.specs.HttpRequest.{target_of, token_of};
ghost use Rattle.server_routes.specs.Past.{past_in};
ghost use Rattle.server_routes.specs.State.{app_call, own_call, state_call, state_cost};
ghost use Rattle.std.specs.Prelude.{None, Ok};
ghost use Rattle.mds_request.specs.declared.config.Actor.TheVariants.{Author, Operator};

use crate::app::{AppCall, FleetView, Question};
use http::request::Parts;
use mds_request::{Actor, Call, Code};
use mds_text::Id;
use server_admission::{Cost, cost_of};
use server_state::HallName;
use std::marker::PhantomData;

/// A client's call of the city's state.
#[derive(Clone, Copy)]
pub enum StateCall {
    /// One of the protocol.
    Call(Call),
    /// Many reports of the operator at this index in one body, one a line.
    Reports(usize),
    /// A question of the author outside the protocol.
    AuthorAsks(Question),
    /// A question of the operator at this index outside the protocol.
    OperatorAsks(usize, Question),
    /// A question about fleets.
    AsksFleet(FleetQuestion),
}

/// A question about fleets, outside the protocol.
#[derive(Clone, Copy)]
pub enum FleetQuestion {
    /// A view of its own fleet, of the operator at this index.
    Own(usize, FleetView),
    /// A view of the fleet of the operator with this identifier, for the author.
    Of(FleetView, Id),
    /// Each operator's compliance, for the author.
    EachCompliance,
}

/// A head that asks for something of the city's state as it is now: its client, and its call or the
/// first refusal of the table.
#[derive(Drop)]
pub struct ResolvedState<K: HallName> {
    parts: Parts,
    actor: Actor,
    call: Result<StateCall, Code>,
    of: PhantomData<K>,
    ghost asks: { actor ≡ actor_of K.configuration (token_of parts.headers) },
    ghost calls: { call ≡ state_call actor (verb_of parts.method) (target_of parts.uri) },
    ghost present: { past_in call (target_of parts.uri) ≡ None },
}

/// A call of the author outside the protocol's. It sends no reports, and has no vehicles of its own.
///
/// # Errors
///
/// `Role`, or `BadId` where the path of an operator's fleet ends with no identifier.
fn author_call(found: &AppCall) -> Result<StateCall, Code>
    ensures { result ≡ app_call Author (Ok found.now) }
{
    match found {
        AppCall::Events | AppCall::Fleet(FleetView::Vehicles) => Err(Code::Role),
        AppCall::Told(question) => Ok(StateCall::AuthorAsks(*question)),
        AppCall::Fleet(FleetView::Compliance) => {
            Ok(StateCall::AsksFleet(FleetQuestion::EachCompliance))
        }
        AppCall::FleetOf(view, id) => Ok(StateCall::AsksFleet(FleetQuestion::Of(*view, *id))),
        AppCall::NoOperator => Err(Code::BadId),
    }
}

/// A call outside the protocol's of the operator at this index. It sees no drafts and no other
/// operator's fleet.
///
/// # Errors
///
/// `Role`.
fn operator_call(place: usize, found: AppCall) -> Result<StateCall, Code>
    ensures { result ≡ app_call (Operator place) (Ok found) }
{
    match found {
        AppCall::Events => Ok(StateCall::Reports(place)),
        AppCall::Told(Question::Drafts) | AppCall::FleetOf(..) | AppCall::NoOperator => {
            Err(Code::Role)
        }
        AppCall::Told(question) => Ok(StateCall::OperatorAsks(place, question)),
        AppCall::Fleet(view) => Ok(StateCall::AsksFleet(FleetQuestion::Own(place, view))),
    }
}

/// A call outside the protocol's, by its client.
///
/// # Errors
///
/// `Token` for an anonymous client, else the refusal that was found, else `Role` or `BadId`.
pub(crate) fn app_call(actor: Actor, found: Result<AppCall, Code>) -> Result<StateCall, Code>
    ensures { result ≡ app_call actor found }
{
    match actor {
        Actor::Nobody => Err(Code::Token),
        Actor::Author => author_call(&found?),
        Actor::Operator(place) => operator_call(place, found?),
    }
}

/// A call of the protocol, as one of the city's state.
pub(crate) fn own_call(call: &Result<Call, Code>) -> Result<StateCall, Code>
    ensures { result ≡ own_call call.now }
{
    match call {
        Ok(call) => Ok(StateCall::Call(*call)),
        Err(code) => Err(*code),
    }
}

/// What the answer takes of its client's queue, where the body has so many bytes.
fn cost(call: &Result<StateCall, Code>, length: usize) -> Cost
    ensures { result ≡ state_cost call.now length }
{
    match call {
        Err(_)
        | Ok(StateCall::AuthorAsks(Question::Whoami))
        | Ok(StateCall::OperatorAsks(_, Question::Whoami)) => Cost::Free,
        Ok(StateCall::Call(call)) => cost_of(call, length),
        Ok(StateCall::Reports(_)) => Cost::Exclusive,
        Ok(StateCall::AsksFleet(_)) => Cost::Exclusive,
        Ok(StateCall::AuthorAsks(_)) | Ok(StateCall::OperatorAsks(_, _)) => Cost::Shared,
    }
}

impl<K: HallName> ResolvedState<K> {
    /// A head with its client and its call, or its refusal. It asks for no moment of the past.
    pub(crate) fn new(parts: Parts, actor: Actor, call: Result<StateCall, Code>) -> ResolvedState<K>
        requires asks { actor ≡ actor_of K.configuration (token_of parts.headers) }
        requires calls { call ≡ state_call actor (verb_of parts.method) (target_of parts.uri) }
        requires present { past_in call (target_of parts.uri) ≡ None }
        ensures head { result.parts ≡ parts }
        ensures client { result.actor ≡ actor }
        ensures call { result.call ≡ call }
    {
        ResolvedState {
            parts,
            actor,
            call,
            of: PhantomData,
        }
    }

    /// The head.
    pub fn parts(&self) -> &Parts
        ensures { result.now ≡ self.now.parts }
    {
        &self.parts
    }

    /// The client.
    pub fn actor(&self) -> Actor
        ensures { result ≡ self.now.actor }
    {
        self.actor
    }

    /// The call.
    ///
    /// # Errors
    ///
    /// The first refusal of the table: no client has the access token (`Token`), no call has the
    /// path (`NoRoute`), none there has the method (`Method`), the call isn't this client's to make
    /// (`Role`), the identifier in the path isn't one (`BadId`).
    pub fn call(&self) -> Result<StateCall, Code>
        ensures { result ≡ self.now.call }
    {
        self.call
    }

    /// What the answer takes of its client's queue, where the body has so many bytes. A refusal of
    /// the table takes nothing.
    pub fn cost(&self, length: usize) -> Cost
        ensures { result ≡ state_cost self.now.call length }
    {
        cost(&self.call, length)
    }
}
