//! The progress of a response that can't be written at once.
ghost use Rattle.futures.specs.Task.{Keeps};

use crate::server_conn::ServerConn;
use futures::Future;
use futures::task::Context;
use server_admission::{STALL_SECONDS, is_too_slow};
use std::time::Instant;
use tokio::time::Sleep;

/// The progress of a response that can't be written at once.
#[derive(Drop)]
pub struct WriteProgress {
    /// When it first had to wait.
    since: Instant,
    /// By when something of it has to be written, while it waits.
    stall: Option<Sleep>,
}

impl WriteProgress {
    /// A response that has to wait; none, where the clock can't be read.
    pub fn new<P: ServerConn>(conn: &P) -> Option<WriteProgress> {
        Some(WriteProgress {
            since: conn.now()?,
            stall: None,
        })
    }

    /// Something of it was written.
    pub fn note_progress(&mut self) {
        self.stall = None;
    }

    /// Whether it is written too slowly: so many bytes of it are written by now.
    pub fn is_late<P: ServerConn>(&mut self, conn: &P, taken: u64, cx: &mut Context<'_>) -> bool
        ensures { Keeps cx.old cx.new }
    {
        let seconds = conn.seconds_since(self.since);
        is_too_slow(self.is_stalled(conn, cx), seconds, taken)
    }

    /// Whether nothing was written for as long as may be.
    fn is_stalled<P: ServerConn>(&mut self, conn: &P, cx: &mut Context<'_>) -> bool
        ensures { Keeps cx.old cx.new }
    {
        if self.stall.is_none() {
            self.stall = conn.sleep(STALL_SECONDS);
        }
        match &mut self.stall {
            Some(stall) => stall.poll(cx).is_ready(),
            None => false,
        }
    }
}
