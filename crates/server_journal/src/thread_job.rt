//! Jobs that run in a thread of their own.

use std::thread::{Threads, join};

/// A job that runs in a thread of its own.
pub trait ThreadJob {
    /// The job's result.
    type Outcome;

    /// Runs the job, once.
    fn run(self) -> Self::Outcome;
}

/// Runs a job in a thread of its own and `meanwhile` in this one, and gives both results.
pub fn run_concurrently<
    R: Threads,
    E: ThreadJob<Outcome = A> + Send + Drop,
    A: Send,
    B,
    F: FnOnce() -> B,
>(rt: &R, errand: E, meanwhile: F) -> (A, B)
    requires { F.pre meanwhile }
    ensures { F.post meanwhile result.1 }
{
    join(rt, move || -> A { errand.run() }, meanwhile)
}
