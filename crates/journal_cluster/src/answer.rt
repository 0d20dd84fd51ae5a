//! Answers as the journal's storage takes them.
ghost use Rattle.std.specs.Prelude.{◌≡◌, Bool};
ghost use Rattle.journal_register.specs.Outcomes.{outcome_of};
ghost use Rattle.journal_register.specs.declared.transaction.Transaction.{Transaction};
ghost use Rattle.journal_etcd.specs.Reading.{answer_of};

use journal_etcd::TransactionAnswer;
use journal_register::{Answer, Outcome};

/// What an answer that was read says of its transaction, by which the same is known of it.
pub fn answer_by(read: &TransactionAnswer) -> Answer
    ensures { (t : Transaction) (succeeded : Bool) → read.now.outcome ≡ outcome_of t (answer_of succeeded read.now.look)
        → outcome_of t result ≡ read.now.outcome }
{
    match read.outcome {
        Outcome::Applied => Answer::Succeeded,
        _ => Answer::Failed(read.look.owner, read.look.head),
    }
}
