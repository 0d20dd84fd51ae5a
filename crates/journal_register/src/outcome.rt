//! What an answer to a transaction means.
ghost use Rattle.std.specs.Prelude.{◌≡◌};
ghost use Rattle.journal_register.specs.Outcomes.{shows, outcome_of};

use crate::head::Head;
use crate::owner::Owner;
use crate::transaction::Transaction;

/// What came back to a transaction.
#[derive(Clone, Copy, Debug, PartialEq, Eq)]
pub enum Answer {
    /// All that it compares held, and it was done.
    Succeeded,
    /// Something that it compares didn't hold, and nothing was done. The register had this owner and this head.
    Failed(Owner, Head),
    /// Nothing that decides: silence, an error of whatever kind, or what can't be read.
    Missing,
}

/// What is known of a transaction by an answer.
#[derive(Clone, Copy, Debug, PartialEq, Eq)]
pub enum Outcome {
    /// It was done: when this answer was made, or when it came before.
    Applied,
    /// Another owns the register. It won't be done any more, nor anything that its owner sends; before another claimed,
    /// it may have been.
    Overtaken,
    /// The register has its owner, and a head that it neither compares nor puts: one that its owner put otherwise.
    Elsewhere,
    /// It may have been done, or be done yet. The same transaction is to be sent again.
    Unknown,
}

impl Transaction {
    /// Whether a register is as this transaction leaves it: it has the owner that it puts, or under its own owner the
    /// head that it puts.
    fn shows(&self, owner: Owner, head: Head) -> bool
        ensures { result ≡ shows self.now owner head }
    {
        match (self.new_owner, self.new_head) {
            (Some(next), _) => next.is(owner),
            (None, Some(next)) => self.owner.is(owner) && next.is(head),
            (None, None) => false,
        }
    }

    /// What is known of this transaction by an answer to it, where no other puts the owner or the head that it puts.
    pub fn outcome(&self, answer: Answer) -> Outcome
        ensures { result ≡ outcome_of self.now answer }
    {
        match answer {
            Answer::Succeeded => Outcome::Applied,
            Answer::Failed(owner, head) => {
                if self.shows(owner, head) {
                    Outcome::Applied
                } else if self.owner.is(owner) {
                    Outcome::Elsewhere
                } else {
                    Outcome::Overtaken
                }
            }
            Answer::Missing => Outcome::Unknown,
        }
    }
}
