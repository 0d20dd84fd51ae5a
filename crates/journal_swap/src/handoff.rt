//! The hand-over between a log and the thread that compacts it.

use crate::compacted_log::CompactedLog;
use crate::equivalence::Equivalence;
use crate::schedule::CompactionSchedule;
use journal_file::{HasLogEnd, LogEnd};
use std::mem;
use std::sync::{Condvar, Mutex, Wait};

/// How far a compacted log is.
#[derive(Drop)]
enum HandoffStage<L: HasLogEnd, P: Equivalence> {
    /// None is being made.
    Quiet,
    /// One is to be made, or brought up to a later log end: the log reports where it is synced next.
    Wanted,
    /// The log is synced up to this log end, and keeps copies of what is appended after it where a compacted log is
    /// being brought up.
    Sealed(LogEnd),
    /// One is being made, or tried in the log's place.
    Busy,
    /// One is ready.
    Ready(CompactedLog<L, P>),
}

/// The state that both threads share.
#[derive(Drop)]
struct HandoffState<L: HasLogEnd, P: Equivalence> {
    stage: HandoffStage<L, P>,
    pace: CompactionSchedule,
    /// Whether the last one that was offered took the log's place.
    is_exchanged: bool,
    /// Whether no further one is made.
    is_closed: bool,
}

/// The hand-over between two threads: the log's, and the one that makes compacted logs of it.
#[derive(Drop)]
pub struct Handoff<L: HasLogEnd, P: Equivalence> {
    seen: Mutex<HandoffState<L, P>>,
    changed: Condvar,
}

impl<L: HasLogEnd, P: Equivalence> Handoff<L, P> {
    /// No compacted log is being made yet.
    pub fn new(pace: CompactionSchedule) -> Handoff<L, P> {
        Handoff {
            seen: Mutex::new(HandoffState {
                stage: HandoffStage::Quiet,
                pace,
                is_exchanged: false,
                is_closed: false,
            }),
            changed: Condvar::new(),
        }
    }

    /// Waits until a compacted log is to be made, or brought up, and returns the log end up to which; none, once no
    /// further one is made.
    pub fn next<R: Wait>(&self, rt: &R) -> Option<LogEnd> {
        let mut seen = self.changed.wait_while(rt, self.seen.lock(rt), |seen| {
            !seen.is_closed && !matches!(seen.stage, HandoffStage::Sealed(_))
        });
        if seen.is_closed {
            return None;
        }
        match mem::replace(&mut seen.stage, HandoffStage::Busy) {
            HandoffStage::Sealed(seal) => Some(seal),
            _ => None,
        }
    }

    /// Asks for the next log end up to which the log is synced, which [`Handoff::next`] returns.
    pub fn request_log_end<R: Wait>(&self, rt: &R) {
        self.seen.lock(rt).stage = HandoffStage::Wanted;
    }

    /// Offers a compacted log that is ready.
    pub fn offer<R: Wait>(&self, rt: &R, shorter: CompactedLog<L, P>) {
        self.seen.lock(rt).stage = HandoffStage::Ready(shorter);
    }

    /// Takes the compacted log that is ready, if there is one.
    pub fn take<R: Wait>(&self, rt: &R) -> Option<CompactedLog<L, P>> {
        let mut seen = self.seen.lock(rt);
        if !matches!(seen.stage, HandoffStage::Ready(_)) {
            return None;
        }
        match mem::replace(&mut seen.stage, HandoffStage::Busy) {
            HandoffStage::Ready(shorter) => Some(shorter),
            _ => None,
        }
    }

    /// Waits until the compacted log that was offered has taken the log's place or failed to, and returns whether it
    /// took it. Once no further one is made, an offer that hasn't been tried is withdrawn, which returns none: it never
    /// takes the place then.
    pub fn wait_outcome<R: Wait>(&self, rt: &R) -> Option<bool> {
        let mut seen = self.changed.wait_while(rt, self.seen.lock(rt), |seen| {
            match seen.stage {
                HandoffStage::Busy => true,
                HandoffStage::Ready(_) => !seen.is_closed,
                _ => false,
            }
        });
        if matches!(seen.stage, HandoffStage::Ready(_)) {
            seen.stage = HandoffStage::Quiet;
            return None;
        }
        Some(seen.is_exchanged)
    }

    /// A compacted log took the log's place, or failed to; the log has so many bytes.
    pub fn report_outcome<R: Wait>(&self, rt: &R, is_exchanged: bool, bytes: u64) {
        let mut seen = self.seen.lock(rt);
        seen.stage = HandoffStage::Quiet;
        seen.is_exchanged = is_exchanged;
        seen.pace.record_attempt(is_exchanged, bytes);
        self.changed.notify_all();
    }

    /// The log is synced up to this log end. Returns whether copies of what is appended after it are to be kept: where
    /// a compacted log waits to be brought up to it.
    pub fn report_synced<R: Wait>(&self, rt: &R, seal: LogEnd) -> bool {
        let mut seen = self.seen.lock(rt);
        let is_brought_up = matches!(seen.stage, HandoffStage::Wanted);
        let is_due = matches!(seen.stage, HandoffStage::Quiet) && seen.pace.is_due(seal.position);
        if seen.is_closed || !(is_brought_up || is_due) {
            return false;
        }
        seen.stage = HandoffStage::Sealed(seal);
        self.changed.notify_all();
        is_brought_up
    }

    /// Makes no further compacted log.
    pub fn close<R: Wait>(&self, rt: &R) {
        self.seen.lock(rt).is_closed = true;
        self.changed.notify_all();
    }
}
