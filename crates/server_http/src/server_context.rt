//! What all connections of a server share, and the service that answers them.
use crate::queues::Queues;
use crate::slots::ConnTable;
use futures::Future;
use http::request::Parts;
use mds_request::Actor;
use server_admission::{Arrived, Cost};
use server_responses::HttpResult;
use std::alloc::Global;
use std::sync::Mutex;
use tokio::time::Handle;

/// The client's share is used up: nothing was asked, and the request may be tried again.
#[derive(Clone, Copy, Debug, PartialEq, Eq)]
pub struct Crowded;

/// A service: resolves the heads of requests, and answers them once their bodies have arrived.
pub trait RequestService: Drop {
    ghost use Rattle.std.specs.Prelude.{⊤, ℕ, List, Ok, IfOk};
    ghost use Rattle.http.specs.declared.request.Parts.{Parts};
    ghost use Rattle.http.specs.declared.response.Response.{Response};
    ghost use Rattle.http_body_util.specs.declared.full.Full.{Full};
    ghost use Rattle.server_admission.specs.declared.arrival.Arrived.{Arrived};

    /// A head with what it was resolved to: which client asks, and for what.
    type Head: Drop;

    /// The condition for answering: nothing, or that the service may be shared by threads.
    ghost may_answer: { Type 0 } = { ⊤ };

    /// The heads that a head which came may be resolved to.
    ghost resolves: { Self → Parts → Self.Head → Type 0 } = { λ _ _ _. ⊤ };

    /// The responses to a head and the body that arrived for it.
    ghost answers: { Self → Self.Head → Arrived → Response (Full (List ℕ)) → Type 0 } = { λ _ _ _ _. ⊤ };

    /// Resolves a head: once, before its body is read.
    fn resolve(&self, parts: Parts) -> Self::Head
        ensures { resolves self.now parts result };

    /// The client of a request.
    fn actor(head: &Self::Head) -> Actor;

    /// What the answer takes of its client's queue, where the body has so many bytes.
    fn cost(head: &Self::Head, length: usize) -> Cost;

    /// The pending response. Where there was no memory for the response, it is an error.
    type Reply: Future<Output = HttpResult>;

    /// Answers a request. Head and body are borrowed, so that it can be tried again.
    ///
    /// # Errors
    ///
    /// The client's share is used up: nothing was asked.
    fn answer(&self, head: &Self::Head, body: &Arrived) -> Result<Self::Reply, Crowded>
        requires ready { may_answer }
        ensures poll { IfOk result Self.Reply.can_poll }
        ensures says { IfOk result (λ reply. (response : _)
            → Self.Reply.gives reply (Ok response) → answers self.now head.now body.now response) };
}

/// A service that several threads share.
pub trait SharedService: RequestService + Send + Sync {}

impl<A: RequestService + Send + Sync> SharedService for A {}

/// What all connections share.
#[derive(Drop)]
pub struct ServerContext<A, C> {
    pub alloc: Global,
    pub answers: A,
    pub queues: Queues,
    pub table: Mutex<ConnTable>,
    pub clock: C,
    pub timers: Handle,
}
