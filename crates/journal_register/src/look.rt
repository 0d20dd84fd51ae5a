//! Looks at a register.
ghost use Rattle.std.specs.Prelude.{◌≡◌};
ghost use Rattle.journal_register.specs.Order.{is_owner};
ghost use Rattle.journal_register.specs.Outcomes.{may_precede};

use crate::head::Head;
use crate::owner::Owner;

/// What a look at a register shows. It is one read of both keys that a majority of etcd's members answers for
/// (linearizable): so the register was as it shows at some moment between the request and its answer.
#[derive(Clone, Copy, Debug, PartialEq, Eq)]
pub struct Look {
    /// The cluster's id. One that was restored from a backup has another.
    pub cluster: u64,
    /// etcd's revision, which rises with each change of any key.
    pub revision: u64,
    /// The value of the owner's key.
    pub owner: Owner,
    /// The value of the head's key.
    pub head: Head,
}

impl Look {
    /// Whether the register had this owner. Then all that was done since the owner's claim was its own.
    pub fn confirms(&self, owner: Owner) -> bool
        ensures { result ≡ is_owner owner self.now.owner }
    {
        owner.is(self.owner)
    }

    /// Whether a later look may show that one. If not, the register was restored or written by hand.
    pub fn may_precede(&self, later: &Look) -> bool
        ensures { result ≡ may_precede self.now later.now }
    {
        let is_owner_later = self.owner.is(later.owner) || self.owner.epoch < later.owner.epoch;
        let is_head_later = self.head.is(later.head) || self.head.is_before(later.head);
        self.cluster == later.cluster
            && self.revision <= later.revision
            && is_owner_later
            && is_head_later
    }
}
