//! Turns in the queues of clients.
ghost use Rattle.std.specs.Prelude.{IfSome};
ghost use Rattle.futures.specs.Task.{Keeps};
ghost use Rattle.server_http.specs.Turn.{IsWaiting};

use crate::runtime::TestRuntime;
use futures::Future;
use futures::executor::block_on;
use futures::task::{Context, Poll};
use mds_request::{Actor, Config};
use server_admission::Cost;
use server_http::{Permits, Queues, Turn};
use std::alloc::{AllocGlobal, Global};
use std::process::Abort;
use std::random::RandomSource;

const CONFIGURATION: &[u8] =
    br#"{"author":"city","operators":[{"id":"00000000-0000-4000-8000-0000000000a1","limit":2,"token":"alfa"}],"zone":"Z"}"#;

const ALFA: Actor = Actor::Operator(0);

/// The permits of a turn that gets them at once; `None` where it has to wait, and where it is over.
fn permits(turn: &mut Option<Turn>, cx: &mut Context<'_>) -> Option<Permits>
    requires { IfSome turn.old IsWaiting }
    ensures waits { IfSome turn.new IsWaiting }
    ensures kept { Keeps cx.old cx.new }
{
    let Some(waiting) = turn else {
        return None;
    };
    match waiting.poll(cx) {
        Poll::Pending => None,
        Poll::Ready(outcome) => {
            *turn = None;
            outcome.ok()
        }
    }
}

/// A future that tries turns in the queue of alfa, and in that of the author, where nothing else waits.
#[derive(Drop)]
struct QueueTest<'a> {
    queues: &'a Queues,
    scene: QueueCase,
}

/// The answers that wait.
#[derive(Clone, Copy)]
enum QueueCase {
    /// Two short answers.
    Short,
    /// Three long answers, and short ones.
    Long,
    /// A long answer to alfa, and one to the author.
    Apart,
}

impl QueueTest<'_> {
    /// A turn in alfa's queue.
    fn turn(&self, cost: Cost) -> Option<Turn>
        ensures { IfSome result IsWaiting }
    {
        self.queues.turn(ALFA, cost)
    }

    /// Whether two short answers run concurrently.
    fn are_concurrent(&self, cx: &mut Context<'_>) -> bool
        ensures { Keeps cx.old cx.new }
    {
        let first = permits(&mut self.turn(Cost::Shared), cx);
        let second = permits(&mut self.turn(Cost::Shared), cx);
        first.is_some() && second.is_some()
    }

    /// Whether the author's long answer has its turn while alfa's runs.
    fn are_apart(&self, cx: &mut Context<'_>) -> bool
        ensures { Keeps cx.old cx.new }
    {
        let own = permits(&mut self.turn(Cost::Exclusive), cx);
        let other = permits(&mut self.queues.turn(Actor::Author, Cost::Exclusive), cx);
        own.is_some() && other.is_some()
    }

    /// Whether a short answer is next after the long one that runs, before two long ones that waited first, and
    /// another short one after the next of these.
    fn are_in_order(&self, cx: &mut Context<'_>) -> bool
        ensures { Keeps cx.old cx.new }
    {
        let mut second = self.turn(Cost::Exclusive);
        let mut third = self.turn(Cost::Exclusive);
        let mut short = self.turn(Cost::Shared);
        let mut later = self.turn(Cost::Shared);
        let first = permits(&mut self.turn(Cost::Exclusive), cx);
        let mut is_so = first.is_some();
        is_so &= permits(&mut second, cx).is_none();
        is_so &= permits(&mut third, cx).is_none();
        is_so &= permits(&mut short, cx).is_none();
        drop(first);
        let held = permits(&mut short, cx);
        is_so &= held.is_some();
        is_so &= permits(&mut second, cx).is_none();
        is_so &= permits(&mut third, cx).is_none();
        is_so &= permits(&mut later, cx).is_none();
        drop(held);
        is_so &= permits(&mut third, cx).is_none();
        is_so &= permits(&mut later, cx).is_none();
        let held = permits(&mut second, cx);
        is_so &= held.is_some();
        drop(held);
        is_so &= permits(&mut third, cx).is_none();
        let held = permits(&mut later, cx);
        is_so &= held.is_some();
        drop(held);
        is_so & permits(&mut third, cx).is_some()
    }
}

impl Future for QueueTest<'_> {
    type Output = bool;

    fn poll(&mut self, cx: &mut Context<'_>) -> Poll<bool> {
        Poll::Ready(match self.scene {
            QueueCase::Short => self.are_concurrent(cx),
            QueueCase::Long => self.are_in_order(cx),
            QueueCase::Apart => self.are_apart(cx),
        })
    }
}

/// The queues of a city with one operator.
fn queues_of_one(rt: &impl Abort, alloc: Global) -> Queues {
    let config = Config::read(alloc, CONFIGURATION).expect(rt, "a configuration");
    Queues::new(alloc, &config).expect(rt, "memory")
}

/// Checks what is tried of the answers that wait.
fn expect_case<R: TestRuntime + RandomSource + AllocGlobal>(rt: &R, scene: QueueCase) {
    let queues = &queues_of_one(rt, rt.alloc());
    assert!(rt; block_on(rt, QueueTest { queues, scene }).expect(rt, "memory"));
}

/// Short answers to one client run concurrently.
#[test]
fn short_answers_run_concurrently(rt: HostRuntime) {
    expect_case(&rt, QueueCase::Short);
}

/// A short answer waits for one long answer at most, however many wait.
#[test]
fn a_short_answer_waits_for_one_long(rt: HostRuntime) {
    expect_case(&rt, QueueCase::Long);
}

/// A long answer to one client keeps no other client waiting.
#[test]
fn clients_have_queues_of_their_own(rt: HostRuntime) {
    expect_case(&rt, QueueCase::Apart);
}

/// An answer that takes nothing of a queue has no turn, nor has an answer to an anonymous client.
#[test]
fn what_is_free_takes_no_turn(rt: HostRuntime) {
    let queues = queues_of_one(&rt, rt.alloc());
    assert!(rt; queues.turn(ALFA, Cost::Free).is_none());
    assert!(rt; queues.turn(Actor::Author, Cost::Free).is_none());
    assert!(rt; queues.turn(Actor::Nobody, Cost::Exclusive).is_none());
    assert!(rt; queues.turn(Actor::Author, Cost::Shared).is_some());
}
