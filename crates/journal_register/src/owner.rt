//! Who owns a register.
ghost use Rattle.std.specs.Prelude.{◌≡◌, ◌==◌, ◌||◌, nat_le};
ghost use Rattle.journal_register.specs.Order.{is_owner};

/// The largest count of a register; what would pass it isn't done.
pub const MOST_COUNT: u64 = u64::MAX;

/// The owner of a register that nobody has claimed yet.
pub const NOBODY: Owner = Owner { epoch: 0, nonce: 0 };

/// An owner of a register. Its transactions are applied until another claims the register: they all compare it, and no
/// owner comes back. There is no lease: an owner may be overtaken at any moment, and no clock decides it.
#[derive(Clone, Copy, Debug, PartialEq, Eq)]
pub struct Owner {
    /// Which claim of the register this is, from 1 on; 0 where nobody has claimed it yet.
    pub epoch: u64,
    /// Random bits that tell the claims of one epoch apart; 0 where the last owner has handed the register over.
    pub nonce: u64,
}

impl Owner {
    /// Whether this is that owner.
    pub fn is(self, other: Owner) -> bool
        ensures { result ≡ is_owner self other }
    {
        self.epoch == other.epoch && self.nonce == other.nonce
    }
}

/// Whether a standby may claim a register from the owner that it saw: where that one has handed it over, or its head
/// stayed the same for as many milliseconds as a standby waits. Nothing rests on it but how often owners change.
pub fn may_claim(seen: Owner, unchanged: u64, patience: u64) -> bool
    ensures { result ≡ ((seen.nonce == 0) || nat_le patience unchanged) }
{
    seen.nonce == 0 || patience <= unchanged
}
