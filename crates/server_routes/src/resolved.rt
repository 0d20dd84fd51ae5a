//! A head, and what it asks for.
ghost use Rattle.std.specs.Prelude.{◌≡◌};
ghost use Rattle.server_admission.specs.declared.cost.Cost.TheVariants.{Exclusive, Free};
ghost use Rattle.mds_request.specs.declared.config.Actor.TheVariants.{Nobody};
ghost use Rattle.mds_request.specs.Configuration.{actor_of};
ghost use Rattle.mds_request.specs.Request.{verb_of};
ghost use Rattle.server_state.specs.HttpRequest.{target_of, token_of};
ghost use Rattle.server_routes.specs.declared.public_target.PublicTarget.{PublicTarget};
ghost use Rattle.http_uri.specs.Uri.{uri_path};
ghost use Rattle.server_routes.specs.Endpoint.{public_at};
ghost use Rattle.server_routes.specs.Resolution.{of_file, of_public, of_past, of_state, resolved_by};
ghost use Rattle.server_routes.specs.State.{state_call, state_cost};
ghost use Rattle.server_routes.specs.declared.resolved.ResolvedHead.TheVariants.{Asset, Past, Public, State};

use crate::app::{app_at, path_of};
use crate::past::{ResolvedPast, past_in};
use crate::public_target::PublicTarget;
use crate::state::{ResolvedState, StateCall, app_call, own_call};
use http::request::Parts;
use mds_request::{Actor, Code, Verb};
use server_admission::Cost;
use server_page::File;
use server_state::{Hall, HallName, target};

/// A head, and what it asks for: resolved once, before its body is read.
#[derive(Drop)]
pub enum ResolvedHead<K: HallName> {
    /// A file of the page.
    Asset(Parts, File),
    /// A public document (MDS 2.0 Policy and Geography).
    Public(Parts, PublicTarget),
    /// A moment of the past of operators' fleets.
    Past(ResolvedPast<K>),
    /// Anything else, which is asked of the city's state as it is now.
    State(ResolvedState<K>),
}

/// The public document at a path, where the configuration turns these on.
fn public_at(is_public: bool, path: &[u8]) -> Option<PublicTarget>
    ensures { result ≡ public_at is_public path.now }
{
    if is_public {
        PublicTarget::by(path)
    } else {
        None
    }
}

/// The client of a head, and its call of the city's state.
fn state_of<K: HallName>(hall: &Hall<K>, parts: &Parts) -> (Actor, Result<StateCall, Code>)
    ensures asks { result.0 ≡ actor_of K.configuration (token_of parts.now.headers) }
    ensures calls { result.1 ≡ state_call result.0 (verb_of parts.now.method) (target_of parts.now.uri) }
{
    let verb = Verb::read(parts.method.as_str().as_bytes());
    match app_at(verb, path_of(target(&parts.uri))) {
        Some(found) => {
            let actor = hall.actor_at(parts);
            (actor, app_call(actor, found))
        }
        None => {
            let call = hall.call_at(parts);
            let actor = hall.caller(parts, &call);
            (actor, own_call(&call))
        }
    }
}

/// Resolves a head: the first table that has its path has the request. The client is looked up only
/// where the city's state or its past is asked: its past where the call is a question about fleets and the target's
/// query has a moment.
pub fn resolve<K: HallName>(hall: &Hall<K>, is_public: bool, parts: Parts) -> ResolvedHead<K>
    ensures { elim result [
      | Asset own file ↦ (own ≡ parts) × (resolved_by K.configuration is_public parts ≡ of_file file)
      | Public own asked ↦ (own ≡ parts) × (resolved_by K.configuration is_public parts ≡ of_public asked)
      | Past head ↦ (head.parts ≡ parts) × (resolved_by K.configuration is_public parts ≡ of_past head.actor head.question)
      | State head ↦ (head.parts ≡ parts) × (resolved_by K.configuration is_public parts ≡ of_state head.actor head.call)
    ] }
{
    let path = parts.uri.path().as_bytes();
    if let Some(file) = File::at(path) {
        return ResolvedHead::Asset(parts, file);
    }
    if let Some(asked) = public_at(is_public, path) {
        return ResolvedHead::Public(parts, asked);
    }
    let (actor, call) = state_of(hall, &parts);
    match past_in(&call, target(&parts.uri)) {
        Some(question) => ResolvedHead::Past(ResolvedPast::new(parts, actor, question)),
        None => ResolvedHead::State(ResolvedState::new(parts, actor, call)),
    }
}

impl<K: HallName> ResolvedHead<K> {
    /// The client. Files and public documents are the same for all: their access token isn't looked
    /// at.
    pub fn actor(&self) -> Actor
        ensures { elim self.now [
          | Asset parts file ↦ result ≡ Nobody
          | Public parts asked ↦ result ≡ Nobody
          | Past head ↦ result ≡ head.actor
          | State head ↦ result ≡ head.actor
        ] }
    {
        match self {
            ResolvedHead::Asset(..) | ResolvedHead::Public(..) => Actor::Nobody,
            ResolvedHead::Past(head) => head.actor(),
            ResolvedHead::State(head) => head.actor(),
        }
    }

    /// What the answer takes of its client's queue, where the body has so many bytes. A question about the past takes
    /// all of it, since it may take long.
    pub fn cost(&self, length: usize) -> Cost
        ensures { elim self.now [
          | Asset parts file ↦ result ≡ Free
          | Public parts asked ↦ result ≡ Free
          | Past head ↦ result ≡ Exclusive
          | State head ↦ result ≡ state_cost head.call length
        ] }
    {
        match self {
            ResolvedHead::Asset(..) | ResolvedHead::Public(..) => Cost::Free,
            ResolvedHead::Past(_) => Cost::Exclusive,
            ResolvedHead::State(head) => head.cost(length),
        }
    }
}
