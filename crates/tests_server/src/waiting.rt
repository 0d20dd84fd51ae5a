//! Waiting for another thread, within a limit.
use std::sync::atomic::{AtomicBool, Ordering};
use std::thread::yield_now;

/// The most times that a wait looks at the flag. A wait that reaches this limit fails the test.
const MOST_TURNS: u32 = 50_000_000;

/// Waits for a flag, and returns whether it was set within the limit.
pub(crate) fn is_set_in_time(flag: &AtomicBool) -> bool {
    for _ in 0..MOST_TURNS {
        if flag.load(Ordering::SeqCst) {
            return true;
        }
        yield_now();
    }
    false
}
