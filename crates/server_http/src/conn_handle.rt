//! The handles of a server's connections, and that of its acceptor.
ghost use Rattle.std.specs.Prelude.{◌≡◌, Ok, IfOk};

use crate::keepalive::ReactorNudge;
use crate::server_conn::ServerConn;
use crate::server_context::{Crowded, RequestService, ServerContext};
use crate::slots::{Admittance, ConnSlot};
use crate::turn::Turn;
use http::request::Parts;
use mds_request::Actor;
use server_admission::{Arrived, CROWDED_PAUSE_MILLIS, Cost};
use std::alloc::{AllocError, Global};
use std::sync::atomic::Ordering;
use std::sync::{Arc, Wait};
use std::time::{Clock, Duration, Instant};
use tokio::sync::OwnedNotified;
use tokio::time::Sleep;

/// A reference to what connections share, and a slot, under a key in the table of connections. The
/// acceptor has no key.
#[derive(Drop)]
pub struct ConnHandle<A, C> {
    context: Arc<ServerContext<A, C>>,
    slot: Arc<ConnSlot>,
    nudge: Arc<ReactorNudge>,
    key: Option<usize>,
}

impl<A, C> ConnHandle<A, C> {
    /// The acceptor's handle.
    pub fn acceptor(
        context: Arc<ServerContext<A, C>>,
        slot: Arc<ConnSlot>,
        nudge: Arc<ReactorNudge>,
    ) -> ConnHandle<A, C> {
        ConnHandle {
            context,
            slot,
            nudge,
            key: None,
        }
    }
}

impl<A: RequestService, C: Clock + Wait + Drop> ServerConn for ConnHandle<A, C> {
    type Head = A::Head;

    type Reply = A::Reply;

    ghost may_answer = { A.may_answer };

    ghost resolves = { λ conn. A.resolves conn.context.value.answers };

    ghost answers = { λ conn. A.answers conn.context.value.answers };

    fn open_conn(&self) -> Option<ConnHandle<A, C>> {
        let alloc = self.context.alloc;
        let slot = Arc::new(alloc, ConnSlot::new(alloc).ok()?).ok()?;
        let shared = Arc::try_clone(&slot).ok()?;
        let nudge = Arc::try_clone(&self.nudge).ok()?;
        let context = Arc::try_clone(&self.context).ok()?;
        let key = context.table.lock(&context.clock).add_conn(shared)?;
        Some(ConnHandle {
            context,
            slot,
            nudge,
            key: Some(key),
        })
    }

    fn clone_handle(&self) -> Result<ConnHandle<A, C>, AllocError>
        ensures { IfOk result (λ handle. handle.context.value ≡ self.now.context.value) }
    {
        Ok(ConnHandle {
            context: Arc::try_clone(&self.context)?,
            slot: Arc::try_clone(&self.slot)?,
            nudge: Arc::try_clone(&self.nudge)?,
            key: self.key,
        })
    }

    fn alloc(&self) -> Global {
        self.context.alloc
    }

    fn sleep(&self, seconds: u64) -> Option<Sleep> {
        self.context
            .timers
            .sleep(&self.context.clock, Duration::from_secs(seconds))
            .ok()
    }

    fn sleep_until(&self, deadline: Instant) -> Option<Sleep> {
        self.context.timers.sleep_until(deadline).ok()
    }

    fn pause(&self) -> Option<Sleep> {
        self.context
            .timers
            .sleep(
                &self.context.clock,
                Duration::from_millis(CROWDED_PAUSE_MILLIS),
            )
            .ok()
    }

    fn now(&self) -> Option<Instant> {
        Instant::now(&self.context.clock).ok()
    }

    fn seconds_since(&self, since: Instant) -> u32 {
        match since.elapsed(&self.context.clock) {
            Ok(elapsed) => u32::try_from(elapsed.as_secs()).unwrap_or(u32::MAX),
            Err(_) => 0,
        }
    }

    fn progress(&self) -> u64 {
        self.slot.progress.load(Ordering::SeqCst)
    }

    fn close_notice(&self) -> Result<OwnedNotified, AllocError> {
        self.slot.close_notice()
    }

    fn shutdown_notice(&self) -> Result<OwnedNotified, AllocError> {
        self.slot.shutdown_notice()
    }

    fn resolve(&self, parts: Parts) -> A::Head {
        self.context.answers.resolve(parts)
    }

    fn actor(head: &A::Head) -> Actor {
        A::actor(head)
    }

    fn cost(head: &A::Head, length: usize) -> Cost {
        A::cost(head, length)
    }

    fn admit(&self, actor: Actor, bytes: usize) -> Admittance {
        self.slot.progress.fetch_add(1, Ordering::SeqCst);
        match self.key {
            Some(key) => self
                .context
                .table
                .lock(&self.context.clock)
                .admit(key, actor, bytes),
            None => Admittance::Busy,
        }
    }

    fn turn(&self, actor: Actor, cost: Cost) -> Option<Turn> {
        self.context.queues.turn(actor, cost)
    }

    fn answer(&self, head: &A::Head, body: &Arrived) -> Result<A::Reply, Crowded>
        requires { A.may_answer }
        ensures poll { IfOk result A.Reply.can_poll }
        ensures says { IfOk result (λ reply. (response : _) → A.Reply.gives reply (Ok response)
            → A.answers self.now.context.value.answers head.now body.now response) }
    {
        if A::cost(head, body.bytes().len()) == Cost::Exclusive {
            self.nudge.nudge();
        }
        self.context.answers.answer(head, body)
    }

    fn finish_request(&self) {
        self.slot.progress.fetch_add(1, Ordering::SeqCst);
        if let Some(key) = self.key {
            self.context
                .table
                .lock(&self.context.clock)
                .finish_request(key);
        }
    }

    fn become_idle(&self) {
        if let Some(key) = self.key {
            self.context.table.lock(&self.context.clock).set_idle(key);
        }
    }

    fn release(&self) {
        if let Some(key) = self.key {
            self.context
                .table
                .lock(&self.context.clock)
                .remove_conn(key);
        }
    }
}
