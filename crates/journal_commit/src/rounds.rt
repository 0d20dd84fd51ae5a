//! Rounds: each is a sync of the flusher, with an append where something is to be written, and confirms the responses
//! that were made before it began. A value that only a round's beginning makes is needed for its sync, and one that only
//! that sync makes for its end: so these three come one after another.
ghost use Rattle.std.specs.Prelude.{◌≡◌, ◌+◌, ℕ, List, IfOk, IfSome, OnOk, None, true};

use crate::decisions::{Confirmation, confirmed_after, is_confirmed};
use journal_file::{Log, SyncFault};
use std::sync::atomic::{AtomicU64, Ordering};

/// How far the rounds are, as all threads see it. They have the numbers from 1 on, and the flusher alone begins and ends
/// them, one after another.
#[derive(Drop)]
pub(crate) struct Rounds {
    confirmation: Confirmation,
    /// The last that has begun; 0 before the first.
    begun: AtomicU64,
    /// The last that ended well; 0 before the first.
    ended: AtomicU64,
}

/// A round that has begun: only [`Rounds::begin`] makes one, once all threads see that it has.
#[derive(Drop)]
pub(crate) struct BegunRound {
    number: u64,
}

/// A round that ended well: only [`BegunRound::sync`] makes one. It has to be announced, and can't be dropped.
pub(crate) struct EndedRound {
    number: u64,
}

impl Rounds {
    /// No round has begun.
    pub(crate) fn new(confirmation: Confirmation) -> Rounds {
        Rounds {
            confirmation,
            begun: AtomicU64::new(0),
            ended: AtomicU64::new(0),
        }
    }

    /// Begins the round after that with this number: responses that are made from now on wait for a later one. None
    /// where there are no numbers left, which takes more than a lifetime.
    pub(crate) fn begin(&self, before: u64) -> Option<BegunRound>
        ensures { IfSome result (λ round. round.number ≡ before + 1) }
    {
        let number = before.checked_add(1)?;
        self.begun.store(number, Ordering::SeqCst);
        Some(BegunRound { number })
    }

    /// Announces the end of a round: the responses that were made before it began are confirmed.
    pub(crate) fn announce(&self, round: EndedRound) {
        let EndedRound { number } = round;
        self.ended.store(number, Ordering::SeqCst);
    }

    /// The last round that ended well.
    pub(crate) fn last_ended(&self) -> u64 {
        self.ended.load(Ordering::SeqCst)
    }

    /// The round behind which another confirms a response that is made now, where that is needed.
    pub(crate) fn confirmed_after(&self) -> Option<u64> {
        confirmed_after(self.confirmation, self.begun.load(Ordering::SeqCst))
    }

    /// Whether a response is confirmed by now, by the round behind which another confirms it.
    pub(crate) fn is_confirmed(&self, after: Option<u64>) -> bool
        ensures { after ≡ None → result ≡ true }
    {
        is_confirmed(after, self.last_ended())
    }
}

impl BegunRound {
    /// Its number.
    pub(crate) fn number(&self) -> u64
        ensures { result ≡ self.now.number }
    {
        self.number
    }

    /// Syncs the log: the round ends well where that succeeds.
    pub(crate) fn sync<L: Log>(self, log: &mut L) -> Result<EndedRound, SyncFault>
        ensures synced { OnOk result (L.is_synced log.new) }
        ensures number { IfOk result (λ ended. ended.number ≡ self.number) }
        ensures unchanged { (list : List (List ℕ)) → L.may_be log.old list → L.may_be log.new list }
    {
        let BegunRound { number } = self;
        log.sync()?;
        Ok(EndedRound { number })
    }
}
