//! A request that may wait: its body is read within its limit and its deadline, then it waits for
//! its turn, and then it is answered.
ghost use Rattle.std.specs.Prelude.{◌≡◌, ◌⊎◌, ◌+◌, ◌≤◌, [], None, IfOk, IfSome, OnOk, IsSome};
ghost use Rattle.futures.specs.Task.{Covers, Keeps};
ghost use Rattle.futures.specs.Poll.{IfReady, OnPending};
ghost use Rattle.server_admission.specs.Arrival.{body_in, closes_after};
ghost use Rattle.server_http.specs.Busy.{SaysBusy};
ghost use Rattle.server_http.specs.declared.admitted_request.RequestStage.TheVariants.{Reading};
ghost use Rattle.server_http.specs.Turn.{IsWaiting};
ghost use Rattle.server_http.specs.RequestStage.{AnswersOf, CanProceed, GoesOn, IsAnswer, IsReleased, MayBeGiven};

use crate::replies::{busy, close_unless_whole};
use crate::server_conn::ServerConn;
use crate::server_context::Crowded;
use crate::timed_body::TimedBody;
use crate::turn::Turn;
use bytes::Bytes;
use futures::task::{Context, Poll};
use futures::{Future, ready};
use server_admission::{Arrived, BODY_SECONDS};
use server_responses::HttpResult;
use std::alloc::AllocError;
use std::mem;
use tokio::time::Sleep;

/// How often a request pauses at most whose client's share is used up, before it is refused as
/// busy: some five seconds in all.
const MOST_PAUSES: u32 = 500;

/// How far a request is.
#[derive(Drop)]
enum RequestStage<F, I> {
    /// Its body is read.
    Reading(TimedBody<I>),
    /// Its body has arrived, and it waits for its turn. An answer that takes nothing of the queue
    /// has its turn at once.
    Queued(Arrived, Option<Turn>),
    /// Its client's share was used up: after a pause it is queued again.
    Paused(Arrived, Sleep),
    /// Its response is pending. Of the body it is known whether it arrived whole.
    Answering(F, Arrived),
    /// Its response is made.
    Finished,
}

/// A request that may wait, from its head to its response.
#[derive(Drop)]
pub struct AdmittedRequest<P, H, F, I> {
    /// The connection; none, once the response is made.
    conn: Option<P>,
    head: H,
    /// How often the request has paused because its client's share was used up.
    pauses: u32,
    stage: RequestStage<F, I>,
}

impl<P: ServerConn, I: Drop> AdmittedRequest<P, P::Head, P::Reply, I> {
    /// A request with this head, whose body is to be read.
    pub fn new(
        conn: Option<P>,
        head: P::Head,
        body: TimedBody<I>,
    ) -> AdmittedRequest<P, P::Head, P::Reply, I>
        ensures stage { CanProceed P.Reply.can_poll result.stage }
        ensures reads { result.stage ≡ Reading body }
        ensures conn { result.conn ≡ conn }
        ensures head { result.head ≡ head }
    {
        AdmittedRequest {
            conn,
            head,
            pauses: 0,
            stage: RequestStage::Reading(body),
        }
    }

    /// Reads the body. Once it is there, the request is queued.
    ///
    /// # Errors
    ///
    /// The body is late, or the connection is gone.
    fn read(&mut self, cx: &mut Context<'_>) -> Poll<Result<(), AllocError>>
        requires stage { CanProceed P.Reply.can_poll self.old.stage }
        ensures stage { CanProceed P.Reply.can_poll self.new.stage }
        ensures goes { IfReady result (λ r. OnOk r (GoesOn P.answers P.Reply.gives self.old self.new)) }
        ensures same { OnPending result (GoesOn P.answers P.Reply.gives self.old self.new) }
        ensures registered { OnPending result (Covers cx.new (λ _. ⊥)) }
        ensures kept { Keeps cx.old cx.new }
    {
        let RequestStage::Reading(body) = &mut self.stage else {
            return Poll::Ready(Ok(()));
        };
        let Some(conn) = &self.conn else {
            return Poll::Ready(Err(AllocError));
        };
        match ready!(body.poll(conn, BODY_SECONDS, cx)) {
            Some(arrived) => {
                self.queue(arrived);
                Poll::Ready(Ok(()))
            }
            None => Poll::Ready(Err(AllocError)),
        }
    }

    /// The request waits for its turn, at the end of its client's queue. One whose answer takes
    /// nothing of the queue has its turn at once.
    fn queue(&mut self, arrived: Arrived)
        ensures stage { CanProceed P.Reply.can_poll self.new.stage }
        ensures goes { (response : _) → MayBeGiven P.answers P.Reply.gives self.new response
            → IsAnswer (AnswersOf P.answers self.old) arrived response }
    {
        let cost = P::cost(&self.head, arrived.bytes().len());
        let turn = match &self.conn {
            Some(conn) => conn.turn(P::actor(&self.head), cost),
            None => None,
        };
        self.stage = RequestStage::Queued(arrived, turn);
    }

    /// Waits until the pause of a request is over, and queues it again then.
    fn wait_pause(&mut self, cx: &mut Context<'_>) -> Poll<()>
        requires stage { CanProceed P.Reply.can_poll self.old.stage }
        ensures stage { CanProceed P.Reply.can_poll self.new.stage }
        ensures goes { GoesOn P.answers P.Reply.gives self.old self.new }
        ensures registered { OnPending result (Covers cx.new (λ _. ⊥)) }
        ensures kept { Keeps cx.old cx.new }
    {
        let RequestStage::Paused(arrived, pause) = &mut self.stage else {
            return Poll::Ready(());
        };
        if pause.poll(cx).is_pending() {
            return Poll::Pending;
        }
        let arrived = mem::replace(arrived, Arrived::NoMemory);
        self.queue(arrived);
        Poll::Ready(())
    }

    /// Waits for the turn of a request whose body has arrived, and then asks for its answer.
    fn take_turn(&mut self, cx: &mut Context<'_>) -> Poll<Result<(), Crowded>>
        requires stage { CanProceed P.Reply.can_poll self.old.stage }
        requires ready { P.may_answer }
        ensures stage { CanProceed P.Reply.can_poll self.new.stage }
        ensures goes { GoesOn P.answers P.Reply.gives self.old self.new }
        ensures registered { OnPending result (Covers cx.new (λ _. ⊥)) }
        ensures kept { Keeps cx.old cx.new }
    {
        let stage = mem::replace(&mut self.stage, RequestStage::Finished);
        match stage {
            RequestStage::Queued(arrived, turn) => self.wait_turn(arrived, turn, cx),
            other => {
                self.stage = other;
                Poll::Ready(Ok(()))
            }
        }
    }

    /// Waits for the turn of a request whose body arrived so, and then asks for its answer.
    fn wait_turn(
        &mut self,
        arrived: Arrived,
        turn: Option<Turn>,
        cx: &mut Context<'_>,
    ) -> Poll<Result<(), Crowded>>
        requires waits { IfSome turn IsWaiting }
        requires ready { P.may_answer }
        ensures stage { CanProceed P.Reply.can_poll self.new.stage }
        ensures goes { (response : _) → MayBeGiven P.answers P.Reply.gives self.new response
            → IsAnswer (AnswersOf P.answers self.old) arrived response }
        ensures registered { OnPending result (Covers cx.new (λ _. ⊥)) }
        ensures kept { Keeps cx.old cx.new }
    {
        let Some(turn) = turn else {
            self.stage = RequestStage::Queued(arrived, None);
            return Poll::Ready(self.start_answer());
        };
        let mut turn = turn;
        let given = turn.poll(cx);
        self.stage = RequestStage::Queued(arrived, Some(turn));
        match given {
            Poll::Pending => Poll::Pending,
            Poll::Ready(_permits) => Poll::Ready(self.start_answer()),
        }
    }

    /// Asks for the answer to a request whose turn has come. Once its response is pending, the
    /// bytes of the body are released.
    ///
    /// # Errors
    ///
    /// The client's share is used up: nothing was asked.
    fn start_answer(&mut self) -> Result<(), Crowded>
        requires ready { P.may_answer }
        ensures stage { CanProceed P.Reply.can_poll self.new.stage }
        ensures body { OnOk result (IsReleased self.old.stage self.new.stage) }
        ensures goes { GoesOn P.answers P.Reply.gives self.old self.new }
    {
        let stage = mem::replace(&mut self.stage, RequestStage::Finished);
        let RequestStage::Queued(arrived, _) = stage else {
            return Ok(());
        };
        let Some(conn) = &self.conn else {
            return Ok(());
        };
        match conn.answer(&self.head, &arrived) {
            Ok(reply) => {
                self.stage = RequestStage::Answering(reply, without_bytes(&arrived));
                Ok(())
            }
            Err(Crowded) => {
                self.stage = RequestStage::Queued(arrived, None);
                Err(Crowded)
            }
        }
    }

    /// Lets a request pause whose client's share is used up; the server is busy, where the request
    /// has paused as often as it may.
    fn pause(&mut self, cx: &mut Context<'_>) -> Poll<HttpResult>
        ensures says { IfReady result (λ r. IfOk r SaysBusy) }
        ensures stage { OnPending result (CanProceed P.Reply.can_poll self.new.stage) }
        ensures same { OnPending result (GoesOn P.answers P.Reply.gives self.old self.new) }
        ensures registered { OnPending result (Covers cx.new (λ _. ⊥)) }
        ensures kept { Keeps cx.old cx.new }
    {
        let Some(mut pause) = self.next_pause() else {
            return Poll::Ready(self.refuse());
        };
        let stage = mem::replace(&mut self.stage, RequestStage::Finished);
        let RequestStage::Queued(arrived, _) = stage else {
            return Poll::Ready(self.refuse());
        };
        let is_over = pause.poll(cx).is_ready();
        self.stage = RequestStage::Paused(arrived, pause);
        if is_over {
            cx.yield_now()
        } else {
            Poll::Pending
        }
    }

    /// One more pause; none, where the request has paused as often as it may, or there is no timer
    /// for it.
    fn next_pause(&mut self) -> Option<Sleep>
        ensures spent { MOST_PAUSES ≤ self.old.pauses → result ≡ None }
        ensures counted { IsSome result → self.new.pauses ≡ self.old.pauses + 1 }
        ensures conn { self.new.conn ≡ self.old.conn }
        ensures head { self.new.head ≡ self.old.head }
        ensures stage { self.new.stage ≡ self.old.stage }
    {
        if self.pauses >= MOST_PAUSES {
            return None;
        }
        self.pauses += 1;
        self.conn.as_ref()?.pause()
    }

    /// Waits for the pending response.
    fn poll_reply(&mut self, cx: &mut Context<'_>) -> Poll<HttpResult>
        requires stage { CanProceed P.Reply.can_poll self.old.stage }
        ensures stage { OnPending result (CanProceed P.Reply.can_poll self.new.stage) }
        ensures gives { IfReady result (λ r. IfOk r (MayBeGiven P.answers P.Reply.gives self.old)) }
        ensures same { OnPending result (GoesOn P.answers P.Reply.gives self.old self.new) }
        ensures registered { OnPending result (Covers cx.new (λ _. ⊥)) }
        ensures kept { Keeps cx.old cx.new }
    {
        let RequestStage::Answering(reply, arrived) = &mut self.stage else {
            return Poll::Ready(Err(AllocError));
        };
        let response = match ready!(reply.poll(cx)) {
            Ok(response) => close_unless_whole(response, arrived),
            Err(error) => Err(error),
        };
        self.finish();
        Poll::Ready(response)
    }

    /// Reads the body, waits for this client's turn, answers, and waits for the pending response. A
    /// request whose client's share is used up pauses, queues again, and is tried again.
    pub fn proceed(&mut self, cx: &mut Context<'_>) -> Poll<HttpResult>
        requires stage { CanProceed P.Reply.can_poll self.old.stage }
        requires ready { P.may_answer }
        ensures stage { OnPending result (CanProceed P.Reply.can_poll self.new.stage) }
        ensures gives { IfReady result (λ r. IfOk r
            (λ response. SaysBusy response ⊎ MayBeGiven P.answers P.Reply.gives self.old response)) }
        ensures same { OnPending result (GoesOn P.answers P.Reply.gives self.old self.new) }
        ensures registered { OnPending result (Covers cx.new (λ _. ⊥)) }
        ensures kept { Keeps cx.old cx.new }
    {
        if let Err(error) = ready!(self.read(cx)) {
            return Poll::Ready(Err(error));
        }
        ready!(self.wait_pause(cx));
        if let Err(Crowded) = ready!(self.take_turn(cx)) {
            return self.pause(cx);
        }
        self.poll_reply(cx)
    }

    /// Says that the server is busy, and ends the request.
    fn refuse(&mut self) -> HttpResult
        ensures says { IfOk result SaysBusy }
    {
        match self.finish() {
            Some(conn) => busy(conn.alloc()),
            None => Err(AllocError),
        }
    }

    /// The response is made: the request is taken off its client's load. Its connection, where that
    /// wasn't done before.
    fn finish(&mut self) -> Option<P> {
        self.stage = RequestStage::Finished;
        let conn = self.conn.take()?;
        conn.finish_request();
        Some(conn)
    }
}

/// The same body without its bytes.
fn without_bytes(arrived: &Arrived) -> Arrived
    ensures bytes { body_in result ≡ [] }
    ensures closes { closes_after result ≡ closes_after arrived.now }
{
    match arrived {
        Arrived::Whole(_) => Arrived::Whole(Bytes::new()),
        Arrived::Broken => Arrived::Broken,
        Arrived::TooLong => Arrived::TooLong,
        Arrived::NoMemory => Arrived::NoMemory,
    }
}
