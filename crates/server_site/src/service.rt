//! How a site answers requests.
ghost use Rattle.std.specs.Prelude.{◌≡◌, ⊤, ℕ, None, Option, is_some, option_map, IfOk, IfSome, IsSome, MatchResult};
ghost use Rattle.futures.specs.declared.future.either.Either.TheVariants.{Left, Right};
ghost use Rattle.http_uri.specs.Uri.{uri_path};
ghost use Rattle.server_app.specs.OperatorNames.{badges_view};
ghost use Rattle.server_state.specs.Openings.{openings_of};
ghost use Rattle.server_durable.specs.DurableResponse.{CityResponds};
ghost use Rattle.server_admission.specs.declared.cost.Cost.TheVariants.{Exclusive, Free};
ghost use Rattle.server_page.specs.Response.{Responds};
ghost use Rattle.server_past.specs.Response.{PastResponds};
ghost use Rattle.server_public.specs.CachedDocuments.{IsTold};
ghost use Rattle.server_responses.specs.Methods.{text_of as methods_text};
ghost use Rattle.mds_request.specs.declared.config.Actor.TheVariants.{Nobody};
ghost use Rattle.server_routes.specs.Resolution.{of_file, of_public, of_past, of_state, resolved_by};
ghost use Rattle.server_routes.specs.State.{state_cost};
ghost use Rattle.server_routes.specs.declared.resolved.ResolvedHead.TheVariants.{Asset, Past, Public, State};
ghost use Rattle.server_site.specs.Calls.{methods_for};

use crate::calls::{hint_for, kind_of};
use crate::site::Site;
use futures::future::{Either, Ready, ready};
use http::request::Parts;
use journal_commit::{LogName, Space};
use journal_file::Log;
use mds_catalog::Catalogue;
use mds_request::Actor;
use mds_verdict::Evaluator;
use server_admission::{Arrived, Cost, Moments};
use server_control::{CallKind, MeteredReply, RequestTimer};
use server_durable::{PendingResponse, TurnRuntime};
use server_http::{Crowded, RequestService};
use server_page::File;
use server_past::PastJournals;
use server_responses::{HintedReply, HttpResult, RefusalHint};
use server_routes::{PublicTarget, ResolvedHead, ResolvedPast, ResolvedState};
use server_state::HallName;
use std::alloc::AllocError;
use std::sync::Wait;
use std::time::Clock;

/// A response that is there at once.
pub type ReadyReply = Ready<HttpResult>;

/// A pending response of the city: it waits until all that it shows is synced, gets the header
/// field of its refusal, and is counted as it leaves.
pub type CityReply<'a, N, L, S, R> = HintedReply<MeteredReply<'a, PendingResponse<N, L, S>, R>>;

/// A response of a site.
pub type SiteReply<'a, N, L, S, R> = Either<ReadyReply, CityReply<'a, N, L, S, R>>;

impl<'a, K: HallName, N: LogName, L: Log, S: Space, R: Wait, E, P> Site<'a, K, N, L, S, R, E, P> {
    /// The response to a request for a file of the page.
    fn respond_with_file(&self, parts: &Parts, file: File) -> HttpResult
        ensures { IfOk result (Responds self.now.page.settings parts.now.method parts.now.headers file) }
    {
        let method = parts.method.as_str().as_bytes();
        self.page
            .respond(self.state.alloc, file, method, &parts.headers)
    }

    /// The response to a request for a public document.
    fn respond_with_public(&self, parts: &Parts, asked: PublicTarget) -> HttpResult
        ensures { IfOk result (IsTold K.configuration asked parts.now) }
    {
        match &self.window {
            Some(window) => window.respond(&self.state.rt, self.state.alloc, self, asked, parts),
            None => Err(AllocError),
        }
    }
}

impl<'a, K, N, L, S, R, E, P> Site<'a, K, N, L, S, R, E, P>
where
    K: HallName,
    N: LogName,
    L: Log,
    S: Space,
    R: TurnRuntime + Clock,
    E: Evaluator<Catalogue> + Drop,
    P: PastJournals,
{
    /// The pending response of the city.
    ///
    /// # Errors
    ///
    /// The client's share is used up: nothing was carried out.
    fn answer_by_city(
        &self,
        head: &ResolvedState<K>,
        body: &Arrived,
    ) -> Result<CityReply<'a, N, L, S, R>, Crowded>
        requires { E.may_judge }
        ensures names { IfOk result (λ reply.
            option_map methods_text reply.guide.methods ≡ methods_for head.now.call (uri_path head.now.parts.uri)) }
        ensures responds { IfOk result (λ reply. IfSome reply.reply.reply.told (λ s. (at : Option ℕ)
            × CityResponds K.configuration (openings_of self.now.state.city.hall) (badges_view self.now.state.city.badges)
            head.now.parts body.now at s.reply s.stamp)) }
    {
        let call = head.call();
        let ticket = RequestTimer::new(self.counters, self.state.rt, kind_of(&call));
        let leaving = self.state.answer(head, body)?;
        let guide = hint_for(&call, head.parts().uri.path());
        Ok(HintedReply::new(MeteredReply::new(leaving, ticket), guide))
    }

    /// The pending response to a question about the past. It is counted as one that reads.
    ///
    /// # Errors
    ///
    /// As `PastFleets::answer`.
    fn answer_by_past(
        &self,
        head: &ResolvedPast<K>,
        body: &Arrived,
    ) -> Result<CityReply<'a, N, L, S, R>, Crowded>
        ensures names { IfOk result (λ reply. reply.guide.methods ≡ None) }
        ensures responds { IfOk result (λ reply. IfSome reply.reply.reply.told (λ s. (at : Option ℕ)
            × PastResponds K.configuration (badges_view self.now.state.city.badges) (P.tells self.now.past.journals)
            head.now.parts body.now at s.reply)) }
    {
        let ticket = RequestTimer::new(self.counters, self.state.rt, CallKind::Read);
        let at = self.state.moments.now();
        let leaving = self
            .past
            .answer(self.state.alloc, &self.state.city, at, head, body)?;
        let guide = RefusalHint::without_methods();
        Ok(HintedReply::new(MeteredReply::new(leaving, ticket), guide))
    }
}

impl<'a, K, N, L, S, R, E, P> RequestService for Site<'a, K, N, L, S, R, E, P>
where
    K: HallName,
    N: LogName,
    L: Log,
    S: Space,
    R: TurnRuntime + Clock,
    E: Evaluator<Catalogue> + Drop,
    P: PastJournals,
{
    type Head = ResolvedHead<K>;

    type Reply = SiteReply<'a, N, L, S, R>;

    ghost may_answer = { E.may_judge };

    /// Public documents have paths only where there is a `PublicCache`.
    fn resolve(&self, parts: Parts) -> ResolvedHead<K>
        ensures { elim result [
          | Asset own file ↦ (own ≡ parts) × (resolved_by K.configuration (is_some self.now.window) parts ≡ of_file file)
          | Public own asked ↦ (own ≡ parts) × (resolved_by K.configuration (is_some self.now.window) parts ≡ of_public asked)
          | Past head ↦ (head.parts ≡ parts) × (resolved_by K.configuration (is_some self.now.window) parts ≡ of_past head.actor head.question)
          | State head ↦ (head.parts ≡ parts) × (resolved_by K.configuration (is_some self.now.window) parts ≡ of_state head.actor head.call)
        ] }
    {
        self.state.resolve(self.window.is_some(), parts)
    }

    fn actor(head: &ResolvedHead<K>) -> Actor
        ensures { elim head.now [
          | Asset parts file ↦ result ≡ Nobody
          | Public parts asked ↦ result ≡ Nobody
          | Past head ↦ result ≡ head.actor
          | State head ↦ result ≡ head.actor
        ] }
    {
        head.actor()
    }

    fn cost(head: &ResolvedHead<K>, length: usize) -> Cost
        ensures { elim head.now [
          | Asset parts file ↦ result ≡ Free
          | Public parts asked ↦ result ≡ Free
          | Past head ↦ result ≡ Exclusive
          | State head ↦ result ≡ state_cost head.call length
        ] }
    {
        head.cost(length)
    }

    /// Files and public documents are answered at once.
    ///
    /// # Errors
    ///
    /// The city is asked, and the client's share is used up.
    fn answer(
        &self,
        head: &ResolvedHead<K>,
        body: &Arrived,
    ) -> Result<SiteReply<'a, N, L, S, R>, Crowded>
        requires ready { E.may_judge }
        ensures poll { IfOk result (elim [ Left told ↦ IsSome told.0 | Right reply ↦ ⊤ ]) }
        ensures tells { elim head.now [
          | Asset parts file ↦ MatchResult result (elim [
            | Left told ↦ IfSome told.0 (λ r. IfOk r (Responds self.now.page.settings parts.method parts.headers file))
            | Right reply ↦ ⊥
          ]) (λ _. ⊥)
          | Public parts asked ↦ MatchResult result (elim [
            | Left told ↦ IfSome told.0 (λ r. IfOk r (IsTold K.configuration asked parts))
            | Right reply ↦ ⊥
          ]) (λ _. ⊥)
          | Past head ↦ IfOk result (elim [
            | Left told ↦ ⊥
            | Right reply ↦ (reply.guide.methods ≡ None)
                × IfSome reply.reply.reply.told (λ s. (at : Option ℕ)
                × PastResponds K.configuration (badges_view self.now.state.city.badges) (P.tells self.now.past.journals)
                head.parts body.now at s.reply)
          ])
          | State head ↦ IfOk result (elim [
            | Left told ↦ ⊥
            | Right reply ↦ (option_map methods_text reply.guide.methods ≡ methods_for head.call (uri_path head.parts.uri))
                × IfSome reply.reply.reply.told (λ s. (at : Option ℕ)
                × CityResponds K.configuration (openings_of self.now.state.city.hall) (badges_view self.now.state.city.badges)
                head.parts body.now at s.reply s.stamp)
          ])
        ] }
    {
        match head {
            ResolvedHead::Asset(parts, file) => {
                Ok(Either::Left(ready(self.respond_with_file(parts, *file))))
            }
            ResolvedHead::Public(parts, asked) => {
                Ok(Either::Left(ready(self.respond_with_public(parts, *asked))))
            }
            ResolvedHead::Past(head) => Ok(Either::Right(self.answer_by_past(head, body)?)),
            ResolvedHead::State(head) => Ok(Either::Right(self.answer_by_city(head, body)?)),
        }
    }
}
