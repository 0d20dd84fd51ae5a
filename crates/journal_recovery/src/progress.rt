//! How far a replay has come.

/// Reports the progress of a replay, for a program that shows it.
pub trait Progress {
    /// Called after each entry that was replayed, with how many were so far.
    fn on_replayed(&mut self, entries: usize);
}

/// Reports nothing.
#[derive(Clone, Copy, Debug)]
pub struct SilentProgress;

impl Progress for SilentProgress {
    fn on_replayed(&mut self, _entries: usize) {}
}
