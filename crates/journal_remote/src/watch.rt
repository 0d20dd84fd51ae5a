//! When a standby claims a register, and when its owner shows that it lives. Moments are of the process's own clock, in
//! milliseconds. Nothing rests on clocks but how often owners change.
ghost use Rattle.std.specs.Prelude.{◌≡◌, true, IfSome};
ghost use Rattle.journal_register.specs.Lawful.{IsLawful};
ghost use Rattle.journal_register.specs.Laws.{look_at};
ghost use Rattle.journal_register.specs.Register.{Register};
ghost use Rattle.journal_remote.specs.Kept.{is_current};
ghost use Rattle.journal_remote.specs.Watch.{watched, is_claimable, next_claim, held_by, tenure_of, is_beat_due};

use crate::tenure::Tenure;
use journal_register::{Extent, Look, Owner, Transaction, may_claim};

/// What a standby has seen of a register, by looks of its own.
#[derive(Clone, Copy, Debug, PartialEq, Eq)]
pub struct Watch {
    /// What the last look showed.
    pub look: Look,
    /// When a look first showed this owner and this head.
    pub since: u64,
}

impl Watch {
    /// What is known behind a further look that was answered now. `None` where the register went back: it was restored,
    /// or written by hand.
    pub fn after(self, look: Look, now: u64) -> Option<Watch>
        ensures { result ≡ watched self look now }
    {
        if !self.look.may_precede(&look) {
            return None;
        }
        let is_same = self.look.owner.is(look.owner) && self.look.head.is(look.head);
        let since = if is_same { self.since } else { now };
        Some(Watch { look, since })
    }

    /// Whether a standby that has followed the journal up to here claims the register: it has followed all that the last
    /// look showed, and is asked to claim, or the owner has handed the register over, or has shown nothing for as many
    /// milliseconds as the standby waits.
    pub fn is_claimable(self, followed: Extent, now: u64, patience: u64, is_asked: bool) -> bool
        ensures { result ≡ is_claimable self followed now patience is_asked }
    {
        let unchanged = now.saturating_sub(self.since);
        followed.is(self.look.head.extent)
            && (is_asked || may_claim(self.look.owner, unchanged, patience))
    }

    /// Claims the register from the owner that the last look showed. The nonce is drawn at random. `None` where it is 0,
    /// which hands the register over, or epochs are used up.
    pub fn claim(self, nonce: u64) -> Option<Transaction>
        ensures value { result ≡ next_claim self nonce }
        ensures lawful { IfSome result IsLawful }
    {
        if nonce == 0 {
            return None;
        }
        Transaction::claim(self.look.owner, nonce)
    }
}

/// The time of an owner that a look shows.
fn held_by(owner: Option<Owner>, seen: &Look) -> Option<Tenure>
    ensures { result ≡ held_by owner seen.now }
{
    let next = owner?;
    if !next.is(seen.owner) {
        return None;
    }
    Some(Tenure {
        owner: next,
        head: seen.head,
    })
}

impl Tenure {
    /// The time of the owner that a claim puts, where a look behind the claim shows it. Its head is the one that the
    /// register has, until this owner moves it or another comes.
    pub fn of_claim(claim: &Transaction, seen: &Look) -> Option<Tenure>
        ensures value { result ≡ tenure_of claim.now seen.now }
        ensures current { IfSome result (λ tenure. (k : Register) → seen.now ≡ look_at seen.now.cluster k → is_current tenure.owner tenure.head k ≡ true) }
    {
        held_by(claim.new_owner, seen)
    }
}

/// Whether an owner whose head moved last at this moment shows by a beat that it lives: as many milliseconds are past
/// as it stays silent at the most.
pub fn is_beat_due(moved: u64, now: u64, every: u64) -> bool
    ensures { result ≡ is_beat_due moved now every }
{
    every <= now.saturating_sub(moved)
}
