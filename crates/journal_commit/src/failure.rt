//! The failure of a log: nobody has one before its flag is set.
use std::sync::atomic::{AtomicBool, Ordering};

/// A log failed, or its flusher ended. Only a flag of the log makes one, and only once it is set.
#[derive(Clone, Copy, Debug, PartialEq, Eq)]
pub struct LogFailure {
    flag: (),
}

/// Whether a log failed, or its flusher ended. Once it is set it stays so.
#[derive(Drop)]
pub(crate) struct FailureFlag {
    is_set: AtomicBool,
}

impl FailureFlag {
    /// The flag isn't set.
    pub(crate) fn new() -> FailureFlag {
        FailureFlag {
            is_set: AtomicBool::new(false),
        }
    }

    /// Sets the flag: from now on each call of [`FailureFlag::failure`] tells so.
    pub(crate) fn set(&self) -> LogFailure {
        self.is_set.store(true, Ordering::SeqCst);
        LogFailure { flag: () }
    }

    /// The failure, where the flag is set.
    pub(crate) fn failure(&self) -> Option<LogFailure> {
        if self.is_set.load(Ordering::SeqCst) {
            Some(LogFailure { flag: () })
        } else {
            None
        }
    }
}
