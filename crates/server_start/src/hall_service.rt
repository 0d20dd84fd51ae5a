//! The service of a hall, which answers at the moments of a clock.
ghost use Rattle.std.specs.Prelude.{◌≡◌, ℕ, Option, IfOk, IfSome, IsOk, IsSome};
ghost use Rattle.mds_request.specs.Configuration.{actor_of};
ghost use Rattle.server_state.specs.HttpRequest.{token_of};
ghost use Rattle.server_state.specs.Resolved.{call_in, cost_in};
ghost use Rattle.server_state.specs.Respond.{Responds};

use futures::future::{Ready, ready};
use http::request::Parts;
use mds_catalog::Catalogue;
use mds_parallel::Chunked;
use mds_request::Actor;
use mds_verdict::Evaluator;
use server_admission::{Arrived, Cost, Moments};
use server_http::{Crowded, RequestService};
use server_responses::HttpResult;
use server_state::{Hall, HallContext, HallName, ResolvedCall};
use std::alloc::{AllocGlobal, Global};
use std::sync::Wait;
use std::thread::Threads;

/// A hall, the evaluator of its vehicles, and the clock that gives each request its moment.
#[derive(Drop)]
pub struct HallService<K: HallName, R, E, M> {
    pub rt: R,
    pub alloc: Global,
    pub hall: Hall<K>,
    pub evaluator: E,
    pub moments: M,
}

impl<K: HallName, R: Threads + Sync + AllocGlobal + Copy, M> HallService<K, R, Chunked<R>, M> {
    /// The service of a hall whose vehicles are judged by as many threads as there are processors,
    /// each request at the moment of this clock. Its hall and its clock are those given.
    pub fn new(rt: R, hall: Hall<K>, moments: M) -> HallService<K, R, Chunked<R>, M>
        ensures hall { result.hall ≡ hall }
        ensures moments { result.moments ≡ moments }
    {
        HallService {
            rt,
            alloc: rt.alloc(),
            hall,
            evaluator: Chunked(rt),
            moments,
        }
    }
}

impl<K: HallName, R: Wait + Drop, E: Evaluator<Catalogue> + Drop, M: Moments> RequestService
    for HallService<K, R, E, M> {
    type Head = ResolvedCall<K>;

    type Reply = Ready<HttpResult>;

    ghost may_answer = { E.may_judge };

    fn resolve(&self, parts: Parts) -> ResolvedCall<K>
        ensures { result.parts ≡ parts }
    {
        self.hall.resolve(parts)
    }

    fn actor(head: &ResolvedCall<K>) -> Actor
        ensures { result ≡ actor_of K.configuration (token_of head.now.parts.headers) }
    {
        head.actor()
    }

    fn cost(head: &ResolvedCall<K>, length: usize) -> Cost
        ensures { result ≡ cost_in (call_in K.configuration head.now.parts) length }
    {
        head.cost(length)
    }

    /// No client has a share here that could be used up.
    fn answer(&self, head: &ResolvedCall<K>, body: &Arrived) -> Result<Ready<HttpResult>, Crowded>
        requires { E.may_judge }
        ensures answered { IsOk result }
        ensures reply { IfOk result (λ reply. IsSome reply.0) }
        ensures says { IfOk result (λ reply. IfSome reply.0 (λ given. (at : Option ℕ)
            × IfOk given (Responds K.configuration head.now.parts body.now at))) }
    {
        let at = self.moments.now();
        let context = HallContext {
            rt: &self.rt,
            alloc: self.alloc,
            hall: &self.hall,
            evaluator: &self.evaluator,
        };
        Ok(ready(head.respond(&context, body, at)))
    }
}
