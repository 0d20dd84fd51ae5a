//! What an owner knows, and sends.
ghost use Rattle.std.specs.Prelude.{◌≡◌, ◌&&◌};
ghost use Rattle.journal_register.specs.Order.{is_owner, is_head};
ghost use Rattle.journal_register.specs.Kinds.{chunk_behind, append_of, beat_of};

use journal_file::LogEnd;
use journal_register::{Head, Look, Owner, Transaction};

/// The most bytes of a chunk: larger ones hold up what waits behind them in etcd.
pub const MOST_CHUNK: usize = 262_144;

/// The time of one owner of a register: who it is, and the head that it knows to be its register's, until another owner
/// comes.
#[derive(Clone, Copy, Debug, PartialEq, Eq)]
pub struct Tenure {
    /// The owner.
    pub owner: Owner,
    /// The head.
    pub head: Head,
}

impl Tenure {
    /// Whether the register had this owner and this head.
    pub fn is_shown(self, look: &Look) -> bool
        ensures { result ≡ (is_owner self.owner look.now.owner && is_head self.head look.now.head) }
    {
        look.confirms(self.owner) && self.head.is(look.head)
    }

    /// Puts a chunk so many places behind the head, which stays. `None` where indices are used up.
    pub fn put_behind(self, place: u64) -> Option<Transaction>
        ensures { result ≡ chunk_behind self.owner self.head place }
    {
        Transaction::put_behind(self.owner, self.head, place)
    }

    /// Puts the last chunk of a group so many places behind the head, and the head behind it, where the list then ends
    /// so. `None` where indices are used up.
    pub fn append(self, place: u64, end: LogEnd) -> Option<Transaction>
        ensures { result ≡ append_of self.owner self.head place end }
    {
        Transaction::append(self.owner, self.head, place, end)
    }

    /// Shows that the owner lives, where it has nothing to append. `None` where beats are used up.
    pub fn beat(self) -> Option<Transaction>
        ensures { result ≡ beat_of self.owner self.head }
    {
        Transaction::beat(self.owner, self.head)
    }
}
