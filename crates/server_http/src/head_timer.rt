//! By when a head has to come, or the next one to begin.
ghost use Rattle.futures.specs.Task.{Keeps};

use crate::server_conn::ServerConn;
use futures::Future;
use futures::task::Context;
use server_admission::HeadPhase;
use std::time::{Duration, Instant};
use tokio::time::Sleep;

/// The deadline of a head, or of an idle connection, with its timer. Each request has a new deadline, and leaves the
/// timer as it is: one that ends early is set again then, so that most requests set none.
#[derive(Drop)]
pub struct HeadTimer {
    deadline: Option<Deadline>,
    sleep: Option<Sleep>,
}

#[derive(Clone, Copy)]
struct Deadline {
    phase: HeadPhase,
    at: Instant,
}

impl Deadline {
    /// The deadline of a phase that begins now; none, where the clock can't be read.
    fn new<P: ServerConn>(conn: &P, phase: HeadPhase) -> Option<Deadline> {
        let at = conn
            .now()?
            .checked_add(Duration::from_secs(phase.seconds()))?;
        Some(Deadline { phase, at })
    }
}

impl HeadTimer {
    /// A timer with no deadline.
    pub fn new() -> HeadTimer {
        HeadTimer {
            deadline: None,
            sleep: None,
        }
    }

    /// From now on there is no deadline.
    pub fn stop(&mut self) {
        self.deadline = None;
    }

    /// Whether the deadline still runs in this phase.
    pub fn goes_on(&self, next: HeadPhase) -> bool {
        self.deadline
            .as_ref()
            .is_some_and(|deadline| deadline.phase.goes_on(next))
    }

    /// Begins the time of a phase.
    pub fn start<P: ServerConn>(&mut self, conn: &P, phase: HeadPhase) {
        self.deadline = Deadline::new(conn, phase);
    }

    /// Whether there is a deadline.
    pub fn runs(&self) -> bool {
        self.deadline.is_some()
    }

    /// Whether the deadline is over. Where memory is refused for a timer, it isn't.
    pub fn is_over<P: ServerConn>(&mut self, conn: &P, cx: &mut Context<'_>) -> bool
        ensures { Keeps cx.old cx.new }
    {
        let Some(Deadline { at, .. }) = self.deadline else {
            return false;
        };
        if !self
            .sleep
            .as_ref()
            .is_some_and(|sleep| sleep.deadline() <= at)
        {
            self.sleep = conn.sleep_until(at);
        }
        let Some(sleep) = &mut self.sleep else {
            return false;
        };
        if sleep.poll(cx).is_pending() {
            return false;
        }
        if sleep.deadline() == at {
            return true;
        }
        sleep.reset(at);
        sleep.poll(cx).is_ready()
    }
}
