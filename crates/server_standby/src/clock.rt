//! The process's own clock, in milliseconds.

use std::time::Clock;

/// How many milliseconds the monotonic clock shows; 0 where it can't be read, so that nothing that waits for it comes.
pub(crate) fn now_millis<C: Clock>(clock: &C) -> u64 {
    match clock.monotonic() {
        Ok(now) => u64::try_from(now.as_millis()).unwrap_or(0),
        Err(_) => 0,
    }
}
