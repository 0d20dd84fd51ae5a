//! Sending until an answer decides.
ghost use Rattle.std.specs.Prelude.{◌≡◌, ◌⊎◌, true, Some, IfSome};
ghost use Rattle.journal_register.specs.declared.outcome.Answer.{Answer};
ghost use Rattle.journal_register.specs.Register.{Register, Message};
ghost use Rattle.journal_register.specs.Outcomes.{outcome_of};
ghost use Rattle.journal_register.specs.Laws.{look_at};
ghost use Rattle.journal_remote.specs.Passing.{Between, Goes, Exchanges};

use crate::engine::Engine;
use journal_register::{Answer, Look, Outcome, Transaction};

/// Sends a transaction until an answer decides, so many times at most. Silence decides nothing: what was sent may come
/// yet, and the outcome is `Unknown` then.
pub(crate) fn send<E: Engine>(
    engine: &mut E,
    transaction: &Transaction,
    bytes: &[u8],
    tries: u32,
) -> Outcome
    ensures goes { (answer : Answer) × (result ≡ outcome_of transaction.now answer)
        × Between (E.register engine.old) (E.register engine.new) (Exchanges (E.is_own engine.old) (E.sends engine.new) (record { transaction = transaction.now; bytes = bytes.now }) answer) }
    ensures sent { (m : Message) → E.sends engine.new m ≡ true → (m ≡ record { transaction = transaction.now; bytes = bytes.now }) ⊎ (E.sends engine.old m ≡ true) }
    ensures own { E.is_own engine.new ≡ E.is_own engine.old }
{
    'tries: for _ in 0..tries {
        let answer = engine.transact(transaction, bytes);
        match answer {
            Answer::Missing => {}
            _ => return transaction.outcome(answer),
        }
    }
    Outcome::Unknown
}

/// Looks until something comes back, so many times at most.
pub(crate) fn look<E: Engine>(engine: &mut E, tries: u32) -> Option<Look>
    ensures goes { Between (E.register engine.old) (E.register engine.new) (Goes (E.is_own engine.old) (E.sends engine.new)) }
    ensures shows { IfSome result (λ look. (k : Register) → E.register engine.new ≡ Some k → look ≡ look_at look.cluster k) }
    ensures sent { E.sends engine.new ≡ E.sends engine.old }
    ensures own { E.is_own engine.new ≡ E.is_own engine.old }
{
    'tries: for _ in 0..tries {
        if let Some(look) = engine.look() {
            return Some(look);
        }
    }
    None
}
