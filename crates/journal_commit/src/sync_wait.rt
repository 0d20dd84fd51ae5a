//! A pending response: a task that waits until all that it shows is synced, and it is confirmed where that is needed.
ghost use Rattle.std.specs.Prelude.{◌≡◌, Some, IfOk, IfSome};
ghost use Rattle.tokio.specs.Locks.{owned_notified_source};
ghost use Rattle.journal_commit.specs.Durable.{AreDurable};

use crate::commit_log::{CommitFault, CommitLog};
use crate::decisions::ResponseTiming;
use crate::history::{LogName, LogPosition};
use crate::space::Space;
use futures::Future;
use futures::task::{Context, Poll};
use journal_file::Log;
use std::sync::Arc;
use tokio::sync::OwnedNotified;

/// A response, once all that it shows is synced and, where responses need one, a round has ended well that began after it
/// was made. It is ready at once where that is so. While it waits it holds no lock, no permit and no thread.
#[derive(Drop)]
pub struct AwaitSync<T: Drop, K: LogName, L: Log, S: Space> {
    keeper: Arc<CommitLog<K, L, S>>,
    /// The log position of what the response shows.
    stamp: LogPosition<K, L>,
    /// The round behind which another confirms it.
    after: Option<u64>,
    heard: Option<OwnedNotified>,
    reply: Option<T>,
}

impl<T: Drop, K: LogName, L: Log, S: Space> AwaitSync<T, K, L, S> {
    /// This response, which is made by now, once all that it shows is synced and it is confirmed.
    pub fn new(
        keeper: Arc<CommitLog<K, L, S>>,
        stamp: LogPosition<K, L>,
        reply: T,
    ) -> AwaitSync<T, K, L, S>
        ensures stamp { result.stamp ≡ stamp }
        ensures reply { result.reply ≡ Some reply }
    {
        let after = keeper.confirmed_after();
        AwaitSync {
            keeper,
            stamp,
            after,
            heard: None,
            reply: Some(reply),
        }
    }
}

impl<T: Drop, K: LogName, L: Log, S: Space> Future for AwaitSync<T, K, L, S> {
    type Output = Result<T, CommitFault>;

    // The response is given, and all that it shows is durable.
    ghost gives = { λ s told. IfOk told (λ reply. (s.reply ≡ Some reply) × AreDurable L.may_be L.is_synced s.stamp) };

    // While it waits, the next round wakes it.
    ghost needs = { λ s source. IfSome s.heard (λ heard. source ≡ owned_notified_source heard) };

    fn poll(&mut self, cx: &mut Context<'_>) -> Poll<Result<T, CommitFault>> {
        match self.keeper.may_respond(&self.stamp, self.after) {
            ResponseTiming::Now => {
                return Poll::Ready(self.reply.take().ok_or(CommitFault::AlreadySent));
            }
            ResponseTiming::Never(failure) => {
                return Poll::Ready(Err(CommitFault::Failed(failure)));
            }
            ResponseTiming::Later => {}
        }
        if self.heard.is_none() && !self.keeper.want_round(self.after) {
            return cx.yield_now();
        }
        match &mut self.heard {
            // It is registered for wake-ups first, and looks again then.
            None => match self.keeper.next_wakeup() {
                Ok(heard) => {
                    self.heard = Some(heard);
                    cx.yield_now()
                }
                Err(_) => Poll::Ready(Err(CommitFault::NoMemory)),
            },
            Some(heard) => match heard.poll(cx) {
                Poll::Pending => Poll::Pending,
                Poll::Ready(_) => {
                    self.heard = None;
                    cx.yield_now()
                }
            },
        }
    }
}
