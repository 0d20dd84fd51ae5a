//! By when a head has to come.
ghost use Rattle.std.specs.Prelude.{◌≡◌, ◌==◌, ◌%◌};
ghost use Rattle.server_admission.specs.HeadPhase.{seconds_of, goes_on};

use crate::limits::{HEAD_SECONDS, IDLE_SECONDS};

/// What a connection waits for: its next head, or the rest of one.
#[derive(Clone, Copy, Debug, PartialEq, Eq)]
pub struct HeadPhase {
    /// How many requests it carried, plus how many of them were answered.
    pub pace: u64,
    /// A head has begun.
    pub is_head: bool,
}

/// Whether a request is being answered at this pace, which rises by one when a head has come, and
/// by one when its response is made.
pub fn is_answering(pace: u64) -> bool
    ensures { result ≡ (pace % 2 == 1) }
{
    pace % 2 == 1
}

impl HeadPhase {
    /// How long it may take.
    pub fn seconds(self) -> u64
        ensures { result ≡ seconds_of self }
    {
        if self.is_head {
            HEAD_SECONDS
        } else {
            IDLE_SECONDS
        }
    }

    /// Whether this stage's deadline still runs at the next one: that of a head isn't put off as
    /// more of it comes.
    pub fn goes_on(self, next: HeadPhase) -> bool
        ensures { result ≡ goes_on self next }
    {
        self.pace == next.pace && (self.is_head || !next.is_head)
    }
}
