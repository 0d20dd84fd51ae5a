//! Accepted connections, and the pause after an accept that failed.
use futures::Future;
use futures::task::{Context, Poll};
use server_admission::ACCEPT_PAUSE_MILLIS;
use std::io;
use std::time::{Clock, Duration};
use tokio::net::TcpStream;
use tokio::time::{Handle, Sleep};

/// A connection that was accepted, or a pause after a failed accept: where no descriptor is left,
/// the next one would fail too.
#[derive(Drop)]
pub struct AcceptOrPause {
    socket: Option<TcpStream>,
    pause: Option<Sleep>,
}

impl AcceptOrPause {
    /// The outcome of an accept. What is written to the connection is sent at once (`TCP_NODELAY`),
    /// so that no response waits until the one before it was acknowledged (RFC 9293, section
    /// 3.7.4); where the system refuses that, the connection is served all the same.
    pub fn new<C: Clock>(
        accepted: io::Result<TcpStream>,
        clock: &C,
        timers: &Handle,
    ) -> AcceptOrPause {
        match accepted {
            Ok(socket) => {
                socket.set_nodelay(true).ok();
                AcceptOrPause {
                    socket: Some(socket),
                    pause: None,
                }
            }
            Err(_) => AcceptOrPause {
                socket: None,
                pause: timers
                    .sleep(clock, Duration::from_millis(ACCEPT_PAUSE_MILLIS))
                    .ok(),
            },
        }
    }
}

impl Future for AcceptOrPause {
    type Output = Option<TcpStream>;

    fn poll(&mut self, cx: &mut Context<'_>) -> Poll<Option<TcpStream>> {
        if let Some(pause) = &mut self.pause
            && pause.poll(cx).is_pending()
        {
            return Poll::Pending;
        }
        Poll::Ready(self.socket.take())
    }
}
