//! A task that keeps a thread waiting for the sockets, while another computes an answer.
use futures::Future;
use futures::task::{Context, Poll};
use std::alloc::{AllocError, Global};
use tokio::sync::mpsc::{Receiver, Sender, channel};

/// Wakes the reactor's keep-alive task. A thread that finds a request while it waits for events
/// wakes no other to wait in its place, and the answer may take long.
#[derive(Drop)]
pub struct ReactorNudge {
    calls: Sender<()>,
}

/// The reactor's keep-alive task: it does nothing when it is woken, and ends once there is no
/// `ReactorNudge`. The thread that wakes for it then waits for events.
#[derive(Drop)]
pub struct ReactorKeepalive {
    calls: Receiver<()>,
}

/// A keep-alive task for the reactor, and what wakes it.
///
/// # Errors
///
/// Out of memory.
pub fn keepalive_pair(alloc: Global) -> Result<(ReactorNudge, ReactorKeepalive), AllocError> {
    let (sender, receiver) = channel(alloc, 1)?;
    let nudge = ReactorNudge { calls: sender };
    let keepalive = ReactorKeepalive { calls: receiver };
    Ok((nudge, keepalive))
}

impl ReactorNudge {
    /// Wakes the task. Where it has been woken already and hasn't run, nothing is added.
    pub fn nudge(&self) {
        let _ = self.calls.try_send(());
    }
}

impl Future for ReactorKeepalive {
    type Output = ();

    fn poll(&mut self, cx: &mut Context<'_>) -> Poll<()> {
        match self.calls.poll_recv(cx) {
            Poll::Ready(Some(())) => cx.yield_now(),
            Poll::Ready(None) => Poll::Ready(()),
            Poll::Pending => Poll::Pending,
        }
    }
}
