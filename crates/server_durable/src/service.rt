//! A city that answers at the moments of a clock.
ghost use Rattle.std.specs.Prelude.{◌≡◌, Option, ℕ, IfOk, IfSome};
ghost use Rattle.server_app.specs.OperatorNames.{badges_view};
ghost use Rattle.server_routes.specs.Resolution.{of_file, of_public, of_past, of_state, resolved_by};
ghost use Rattle.server_routes.specs.declared.resolved.ResolvedHead.TheVariants.{Asset, Past, Public, State};
ghost use Rattle.server_state.specs.Openings.{openings_of};
ghost use Rattle.server_durable.specs.DurableResponse.{CityResponds};

use crate::context::{Context, TurnRuntime};
use crate::durable_hall::DurableHall;
use crate::pending_response::PendingResponse;
use crate::responding::respond;
use http::request::Parts;
use journal_commit::{LogName, Space};
use journal_file::Log;
use mds_catalog::Catalogue;
use mds_verdict::Evaluator;
use server_admission::{Arrived, Moments};
use server_http::Crowded;
use server_routes::{ResolvedHead, ResolvedState, resolve};
use server_state::HallName;
use std::alloc::Global;

/// A city, the evaluator of its vehicles, and the clock that gives each request its moment.
#[derive(Drop)]
pub struct DurableService<K: HallName, N: LogName, R, E, M, L: Log, S: Space> {
    /// The runtime that waits for locks and syncs.
    pub rt: R,
    /// The allocator of answers.
    pub alloc: Global,
    /// The state that answers.
    pub city: DurableHall<K, N, L, S>,
    /// The evaluator of vehicles.
    pub evaluator: E,
    /// The clock that gives each request its moment.
    pub moments: M,
}

impl<
    K: HallName,
    N: LogName,
    R: TurnRuntime,
    E: Evaluator<Catalogue> + Drop,
    M: Moments,
    L: Log,
    S: Space,
> DurableService<K, N, R, E, M, L, S> {
    /// Resolves a head to its client and what it asks for, as `server_routes::resolve` says.
    pub fn resolve(&self, is_public: bool, parts: Parts) -> ResolvedHead<K>
        ensures { elim result [
          | Asset own file ↦ (own ≡ parts) × (resolved_by K.configuration is_public parts ≡ of_file file)
          | Public own asked ↦ (own ≡ parts) × (resolved_by K.configuration is_public parts ≡ of_public asked)
          | Past head ↦ (head.parts ≡ parts) × (resolved_by K.configuration is_public parts ≡ of_past head.actor head.question)
          | State head ↦ (head.parts ≡ parts) × (resolved_by K.configuration is_public parts ≡ of_state head.actor head.call)
        ] }
    {
        resolve(&self.city.hall, is_public, parts)
    }

    /// Answers the request of a head and the body that arrived for it, at the clock's moment. Head and body are
    /// borrowed, so that the request may be answered again. Where no response may be sent, the pending response is an
    /// error.
    ///
    /// # Errors
    ///
    /// The client's share of the log is used up: nothing was carried out.
    pub fn answer(
        &self,
        head: &ResolvedState<K>,
        body: &Arrived,
    ) -> Result<PendingResponse<N, L, S>, Crowded>
        requires { E.may_judge }
        ensures { IfOk result (λ leaving. IfSome leaving.told (λ s. (at : Option ℕ)
            × CityResponds K.configuration (openings_of self.now.city.hall) (badges_view self.now.city.badges)
            head.now.parts body.now at s.reply s.stamp)) }
    {
        let at = self.moments.now();
        let context = Context {
            rt: &self.rt,
            alloc: self.alloc,
            evaluator: &self.evaluator,
        };
        PendingResponse::of(respond(&context, head, body, at, &self.city))
    }
}
