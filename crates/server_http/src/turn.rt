//! The turn of an answer in its client's queue.
ghost use Rattle.std.specs.Prelude.{◌≡◌, true, false};
ghost use Rattle.server_admission.specs.declared.limits.TheConstants.{MOST_SHORT};
ghost use Rattle.server_http.specs.Turn.{IsWaiting, Holds, is_for_line, needs_of, permits_of};

use futures::task::{Context, Poll};
use futures::{Future, ready};
use server_admission::MOST_SHORT;
use std::mem;
use std::sync::Arc;
use tokio::sync::{AcquireError, AcquireOwned, OwnedSemaphorePermit, Semaphore};

/// How far an answer is with the line, which one long answer holds at a time.
#[derive(Drop)]
enum LineState {
    /// It is a short answer: it doesn't need the line.
    Open,
    /// It waits until it holds the line.
    Waiting(AcquireOwned),
    /// It holds the line.
    Held(OwnedSemaphorePermit),
}

/// The future of what an answer takes of its client's queue: the line, where it may take long, and
/// then its permits.
#[derive(Drop)]
pub struct Turn {
    line: LineState,
    permits: AcquireOwned,
}

/// What an answer holds of its client's queue while it runs: its permits, and the line, where it
/// may take long. All of it is released when this is dropped.
#[derive(Drop)]
pub struct Permits {
    permits: OwnedSemaphorePermit,
    line: LineState,
}

impl Turn {
    /// The turn of a short answer: it takes one permit.
    pub fn for_one_permit(permits: Arc<Semaphore>) -> Turn
        ensures waits { IsWaiting result }
        ensures permits { permits_of result ≡ 1 }
        ensures line { is_for_line result.line ≡ false }
    {
        Turn {
            line: LineState::Open,
            permits: Semaphore::acquire_owned(permits),
        }
    }

    /// The turn of a long answer: it takes the line, and then all permits.
    pub fn for_all_permits(line: Arc<Semaphore>, permits: Arc<Semaphore>) -> Turn
        ensures waits { IsWaiting result }
        ensures permits { permits_of result ≡ MOST_SHORT }
        ensures line { is_for_line result.line ≡ true }
    {
        Turn {
            line: LineState::Waiting(Semaphore::acquire_owned(line)),
            permits: Semaphore::acquire_many_owned(permits, MOST_SHORT),
        }
    }
}

impl Future for Turn {
    type Output = Result<Permits, AcquireError>;

    ghost can_poll = { IsWaiting };

    ghost needs = { λ turn. needs_of turn.line turn };

    ghost gives = { Holds };

    fn poll(&mut self, cx: &mut Context<'_>) -> Poll<Result<Permits, AcquireError>> {
        if let LineState::Waiting(line) = &mut self.line {
            match ready!(line.poll(cx)) {
                Ok(permit) => self.line = LineState::Held(permit),
                Err(error) => return Poll::Ready(Err(error)),
            }
        }
        match self.permits.poll(cx) {
            Poll::Pending => Poll::Pending,
            Poll::Ready(Ok(permits)) => {
                let line = mem::replace(&mut self.line, LineState::Open);
                Poll::Ready(Ok(Permits { permits, line }))
            }
            Poll::Ready(Err(error)) => Poll::Ready(Err(error)),
        }
    }
}
