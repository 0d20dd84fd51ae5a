//! Heads that ask for a moment of the past.
ghost use Rattle.std.specs.Prelude.{◌≡◌, Some, option_map};
ghost use Rattle.mds_request.specs.Configuration.{actor_of};
ghost use Rattle.mds_request.specs.Request.{verb_of};
ghost use Rattle.server_state.specs.HttpRequest.{target_of, token_of};
ghost use Rattle.server_routes.specs.Past.{past_in, question_at};
ghost use Rattle.server_routes.specs.State.{state_call};

use crate::query::{asked_moment, query_of};
use crate::state::{FleetQuestion, StateCall};
use http::request::Parts;
use mds_request::{Actor, Code};
use mds_text::Moment;
use server_state::HallName;
use std::marker::PhantomData;

/// A question about fleets at a moment of the past.
#[derive(Clone, Copy)]
pub struct PastQuestion {
    /// What is asked.
    pub fleet: FleetQuestion,
    /// The moment that is asked for; none, where the query gives none that is one.
    pub at: Option<Moment>,
}

/// The question about fleets at a moment, where one is asked for.
fn question_at(fleet: FleetQuestion, asked: Option<Option<Moment>>) -> Option<PastQuestion>
    ensures { result ≡ option_map (question_at fleet) asked }
{
    match asked {
        Some(at) => Some(PastQuestion { fleet, at }),
        None => None,
    }
}

/// The question about the past of a head with this call and this target: none, where it asks none.
pub(crate) fn past_in(call: &Result<StateCall, Code>, target: &[u8]) -> Option<PastQuestion>
    ensures { result ≡ past_in call.now target.now }
{
    match call {
        Ok(StateCall::AsksFleet(fleet)) => question_at(*fleet, asked_moment(query_of(target))),
        _ => None,
    }
}

/// A head that asks for a moment of the past: its client, and its question.
#[derive(Drop)]
pub struct ResolvedPast<K: HallName> {
    parts: Parts,
    actor: Actor,
    question: PastQuestion,
    of: PhantomData<K>,
    ghost asks: { actor ≡ actor_of K.configuration (token_of parts.headers) },
    ghost past: { past_in (state_call actor (verb_of parts.method) (target_of parts.uri)) (target_of parts.uri) ≡ Some question },
}

impl<K: HallName> ResolvedPast<K> {
    /// A head with its client and its question.
    pub(crate) fn new(parts: Parts, actor: Actor, question: PastQuestion) -> ResolvedPast<K>
        requires asks { actor ≡ actor_of K.configuration (token_of parts.headers) }
        requires past { past_in (state_call actor (verb_of parts.method) (target_of parts.uri)) (target_of parts.uri) ≡ Some question }
        ensures head { result.parts ≡ parts }
        ensures client { result.actor ≡ actor }
        ensures question { result.question ≡ question }
    {
        ResolvedPast {
            parts,
            actor,
            question,
            of: PhantomData,
        }
    }

    /// The head.
    pub fn parts(&self) -> &Parts
        ensures { result.now ≡ self.now.parts }
    {
        &self.parts
    }

    /// The client.
    pub fn actor(&self) -> Actor
        ensures { result ≡ self.now.actor }
    {
        self.actor
    }

    /// The question.
    pub fn question(&self) -> PastQuestion
        ensures { result ≡ self.now.question }
    {
        self.question
    }
}
