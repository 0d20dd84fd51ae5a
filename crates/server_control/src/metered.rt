//! A pending response that is counted as it leaves.
ghost use Rattle.std.specs.Prelude.{◌≡◌};

use crate::counters::{CallKind, Counters, Figure};
use futures::Future;
use futures::task::{Context, Poll};
use server_responses::HttpResult;
use std::time::{Clock, Instant};

/// The status of a success.
const SUCCESS: u16 = 200;

/// How a request is counted: its kind, and since when its response has been pending. It counts as
/// pending until this is dropped: the response has left then, or was given up.
pub struct RequestTimer<'a, C> {
    counters: &'a Counters,
    clock: C,
    kind: CallKind,
    since: Option<Instant>,
}

impl<'a, C: Clock> RequestTimer<'a, C> {
    /// The ticket of a request of this kind, whose response is pending from now on.
    pub fn new(counters: &'a Counters, clock: C, kind: CallKind) -> RequestTimer<'a, C>
        ensures { result.kind ≡ kind }
    {
        counters.add(Figure::Pending, 1);
        let since = Instant::now(&clock).ok();
        RequestTimer {
            counters,
            clock,
            kind,
            since,
        }
    }

    /// For how many milliseconds the response has been pending; 0 where the clock can't be read.
    fn millis(&self) -> u64 {
        let Some(since) = self.since else {
            return 0;
        };
        match since.elapsed(&self.clock) {
            Ok(elapsed) => u64::try_from(elapsed.as_millis()).unwrap_or(u64::MAX),
            Err(_) => 0,
        }
    }

    /// Counts an answer with this status.
    fn count(&self, status: u16) {
        self.counters.count_answer(self.kind, status, self.millis());
        if self.kind == CallKind::Publish && status == SUCCESS {
            self.counters.add(Figure::Revision, 1);
        }
    }
}

impl<C: Drop> Drop for RequestTimer<'_, C> {
    fn drop(self) {
        self.counters.subtract(Figure::Pending, 1);
        let RequestTimer {
            counters: _counters,
            clock: _clock,
            kind: _kind,
            since: _since,
        } = self;
    }
}

/// A pending response that is counted as it leaves. It stays as it was made.
#[derive(Drop)]
pub struct MeteredReply<'a, F, C> {
    reply: F,
    ticket: RequestTimer<'a, C>,
}

impl<'a, F: Future, C> MeteredReply<'a, F, C> {
    /// This pending response, counted by that ticket.
    pub fn new(reply: F, ticket: RequestTimer<'a, C>) -> MeteredReply<'a, F, C>
        ensures { result.reply ≡ reply }
    {
        MeteredReply { reply, ticket }
    }
}

impl<F, C> Future for MeteredReply<'_, F, C>
where
    F: Future<Output = HttpResult>,
    C: Clock + Drop,
{
    type Output = HttpResult;

    ghost can_poll = { λ s. F.can_poll s.reply };

    ghost needs = { λ s source. F.needs s.reply source };

    // What the pending response gives.
    ghost gives = { λ s told. F.gives s.reply told };

    fn poll(&mut self, cx: &mut Context<'_>) -> Poll<HttpResult> {
        match self.reply.poll(cx) {
            Poll::Pending => Poll::Pending,
            Poll::Ready(Ok(response)) => {
                self.ticket.count(response.status().as_u16());
                Poll::Ready(Ok(response))
            }
            Poll::Ready(Err(fault)) => Poll::Ready(Err(fault)),
        }
    }
}
