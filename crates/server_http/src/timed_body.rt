//! A body that is read, with the deadline of its arrival.
ghost use Rattle.std.specs.Prelude.{◌≡◌, IfSome};
ghost use Rattle.futures.specs.Task.{Covers, Keeps};
ghost use Rattle.futures.specs.Poll.{IfReady, OnPending};
ghost use Rattle.server_http.specs.Arrives.{MayArrive};

use crate::body_reader::BodyReader;
use crate::server_conn::ServerConn;
use futures::Future;
use futures::task::{Context, Poll};
use server_admission::Arrived;
use tokio::time::Sleep;

/// A body that is read, with the deadline of its arrival.
#[derive(Drop)]
pub struct TimedBody<I> {
    body: BodyReader<I>,
    /// When it is late; it counts from when the body was first waited for.
    deadline: Option<Sleep>,
}

impl<I: Drop> TimedBody<I> {
    /// A body that hasn't been waited for.
    pub fn new(body: BodyReader<I>) -> TimedBody<I>
        ensures { result.body ≡ body }
    {
        TimedBody {
            body,
            deadline: None,
        }
    }

    /// The body as it arrived; none, where it is later than so many seconds.
    pub fn poll<P: ServerConn>(
        &mut self,
        conn: &P,
        seconds: u64,
        cx: &mut Context<'_>,
    ) -> Poll<Option<Arrived>>
        ensures arrived { IfReady result (λ o. IfSome o (MayArrive self.old.body)) }
        ensures same { OnPending result ((arrived : _) → MayArrive self.new.body arrived → MayArrive self.old.body arrived) }
        ensures registered { OnPending result (Covers cx.new (λ _. ⊥)) }
        ensures kept { Keeps cx.old cx.new }
    {
        match self.body.poll(cx) {
            Poll::Ready(arrived) => Poll::Ready(Some(arrived)),
            Poll::Pending if self.is_late(conn, seconds, cx) => Poll::Ready(None),
            Poll::Pending => Poll::Pending,
        }
    }

    /// Whether so many seconds are over since this was first asked.
    fn is_late<P: ServerConn>(&mut self, conn: &P, seconds: u64, cx: &mut Context<'_>) -> bool
        ensures same { self.new.body ≡ self.old.body }
        ensures kept { Keeps cx.old cx.new }
    {
        if self.deadline.is_none() {
            self.deadline = conn.sleep(seconds);
        }
        match &mut self.deadline {
            Some(deadline) => deadline.poll(cx).is_ready(),
            None => true,
        }
    }
}
