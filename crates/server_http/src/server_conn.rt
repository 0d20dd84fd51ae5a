//! A connection's handle to its server.
use crate::server_context::Crowded;
use crate::slots::Admittance;
use crate::turn::Turn;
use futures::Future;
use http::request::Parts;
use mds_request::Actor;
use server_admission::{Arrived, Cost};
use server_responses::HttpResult;
use std::alloc::{AllocError, Global};
use std::time::Instant;
use tokio::sync::OwnedNotified;
use tokio::time::Sleep;

/// A connection's handle to what all connections share, or the acceptor's. The types of a
/// connection have it as a parameter: the proof of the code that serves them covers all that stands
/// in a type, and so nothing of what is shared.
pub trait ServerConn: Drop {
    ghost use Rattle.std.specs.Prelude.{◌≡◌, ⊤, ℕ, List, None, Ok, IfOk, IfSome};
    ghost use Rattle.http.specs.declared.request.Parts.{Parts};
    ghost use Rattle.http.specs.declared.response.Response.{Response};
    ghost use Rattle.http_body_util.specs.declared.full.Full.{Full};
    ghost use Rattle.server_admission.specs.declared.arrival.Arrived.{Arrived};
    ghost use Rattle.server_admission.specs.declared.cost.Cost.TheVariants.{Free};
    ghost use Rattle.server_http.specs.Turn.{IsWaiting};

    /// A head with what it was resolved to: which client asks, and for what.
    type Head: Drop;

    /// A pending response: what it says is known, and it may still wait, with no place in a queue,
    /// until it may be sent.
    type Reply: Future<Output = HttpResult>;

    /// The condition for answering.
    ghost may_answer: { Type 0 } = { ⊤ };

    /// The heads that a head which came may be resolved to.
    ghost resolves: { Self → Parts → Self.Head → Type 0 };

    /// The responses to a head and the body that arrived for it.
    ghost answers: { Self → Self.Head → Arrived → Response (Full (List ℕ)) → Type 0 };

    /// A handle for a new connection, which is anonymous at first; none, where there is no slot for
    /// it.
    fn open_conn(&self) -> Option<Self>;

    /// One more handle of the same connection.
    ///
    /// # Errors
    ///
    /// There are too many references.
    fn clone_handle(&self) -> Result<Self, AllocError>
        ensures { IfOk result (λ handle. (head : _) (body : _) (response : _)
            → answers handle head body response → answers self.now head body response) };

    /// The allocator.
    fn alloc(&self) -> Global;

    /// A timer of so many seconds that begins now; none, where the clock can't be read or memory is
    /// refused.
    fn sleep(&self, seconds: u64) -> Option<Sleep>;

    /// A timer that ends at this time; none, where memory is refused.
    fn sleep_until(&self, deadline: Instant) -> Option<Sleep>;

    /// The timer of a request that pauses, which begins now; none, where the clock can't be read or
    /// memory is refused.
    fn pause(&self) -> Option<Sleep>;

    /// The time; none, where the clock can't be read.
    fn now(&self) -> Option<Instant>;

    /// How many seconds have gone since then; 0, where the clock can't be read.
    fn seconds_since(&self, since: Instant) -> u32;

    /// How far the connection is: even while it waits for a head, odd while a request is answered.
    fn progress(&self) -> u64;

    /// A future that ends when the connection is told to close.
    ///
    /// # Errors
    ///
    /// There are too many references.
    fn close_notice(&self) -> Result<OwnedNotified, AllocError>;

    /// A future that ends when the server shuts down.
    ///
    /// # Errors
    ///
    /// There are too many references.
    fn shutdown_notice(&self) -> Result<OwnedNotified, AllocError>;

    /// Resolves a head that has come: once, before its body is read.
    fn resolve(&self, parts: Parts) -> Self::Head
        ensures { resolves self.now parts result };

    /// The client of a request.
    fn actor(head: &Self::Head) -> Actor;

    /// What the answer takes of its client's queue, where the body has so many bytes.
    fn cost(head: &Self::Head, length: usize) -> Cost;

    /// A head of this client has come, whose body counts as so many bytes: whether the request may
    /// wait.
    fn admit(&self, actor: Actor, bytes: usize) -> Admittance;

    /// The turn of an answer that takes so much of its client's queue; none for what takes nothing
    /// of it, and where there is no queue for it.
    fn turn(&self, actor: Actor, cost: Cost) -> Option<Turn>
        ensures waits { IfSome result IsWaiting }
        ensures free { cost ≡ Free → result ≡ None };

    /// The pending response to the request with this body. Head and body are borrowed, so that it
    /// can be tried again.
    ///
    /// # Errors
    ///
    /// The client's share is used up: nothing was asked.
    fn answer(&self, head: &Self::Head, body: &Arrived) -> Result<Self::Reply, Crowded>
        requires ready { may_answer }
        ensures poll { IfOk result Self.Reply.can_poll }
        ensures says { IfOk result (λ reply. (response : _)
            → Self.Reply.gives reply (Ok response) → answers self.now head.now body.now response) };

    /// The request waits no more: its response is made, and it is taken off its client's load.
    fn finish_request(&self);

    /// The last response is written whole, and no further head has come.
    fn become_idle(&self);

    /// The connection has ended.
    fn release(&self);
}
