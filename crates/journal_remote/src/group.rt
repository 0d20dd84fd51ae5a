//! Groups of chunks that are appended at once.
ghost use Rattle.std.specs.Prelude.{◌≡◌, ◌⊎◌, ◌+◌, ◌++◌, ℕ, List, true, IfOk, OnOk};
ghost use Rattle.journal_register.specs.Register.{Register, Message};
ghost use Rattle.journal_remote.specs.Kept.{AreSettled, is_current};
ghost use Rattle.journal_remote.specs.Laid.{Lays, CompareNoLater, Appended, moved_head};
ghost use Rattle.journal_remote.specs.Passing.{Between};

use crate::engine::Engine;
use crate::send::send;
use crate::tenure::{MOST_CHUNK, Tenure};
use journal_file::{LogEnd, StorageFault};
use journal_register::{Head, Outcome};

/// Puts a chunk so many places behind the head. The chunks before it stand there.
///
/// # Errors
///
/// `Failed` where it isn't known to stand.
fn put_behind<E: Engine>(
    engine: &mut E,
    tenure: Tenure,
    place: u64,
    bytes: &[u8],
    tries: u32,
) -> Result<(), StorageFault>
    requires own { E.is_own engine.old tenure.owner ≡ true }
    requires no_later { CompareNoLater (E.sends engine.old) tenure.owner tenure.head }
    ensures laid { OnOk result (Between (E.register engine.old) (E.register engine.new) (λ l m. (k : Register) (done : List ℕ)
        → Lays tenure.owner tenure.head place done (E.sends engine.old) k l
        → Lays tenure.owner tenure.head (place + 1) (done ++ bytes.now) (E.sends engine.new) k m)) }
    ensures no_later { CompareNoLater (E.sends engine.new) tenure.owner tenure.head }
    ensures own { E.is_own engine.new ≡ E.is_own engine.old }
{
    let Some(transaction) = tenure.put_behind(place) else {
        return Err(StorageFault::Failed);
    };
    match send(engine, &transaction, bytes, tries) {
        Outcome::Applied => Ok(()),
        _ => Err(StorageFault::Failed),
    }
}

/// Puts the last chunk of a group, whose others stand behind the head, and moves the head behind it. Returns the head.
///
/// # Errors
///
/// `Failed` where the head isn't known to have moved.
fn put_last<E: Engine>(
    engine: &mut E,
    tenure: Tenure,
    place: u64,
    bytes: &[u8],
    end: LogEnd,
    tries: u32,
) -> Result<Head, StorageFault>
    requires own { E.is_own engine.old tenure.owner ≡ true }
    requires no_later { CompareNoLater (E.sends engine.old) tenure.owner tenure.head }
    ensures head { IfOk result (λ next. next ≡ moved_head tenure.head place end) }
    ensures appended { IfOk result (λ next. Between (E.register engine.old) (E.register engine.new) (λ l m. (k : Register) (done : List ℕ)
        → Lays tenure.owner tenure.head place done (E.sends engine.old) k l
        → Appended tenure.owner tenure.head next (done ++ bytes.now) k m)) }
    ensures settled { IfOk result (λ next. AreSettled (E.sends engine.new) tenure.owner next) }
    ensures own { E.is_own engine.new ≡ E.is_own engine.old }
{
    let Some(transaction) = tenure.append(place, end) else {
        return Err(StorageFault::Failed);
    };
    let Some(next) = transaction.new_head else {
        return Err(StorageFault::Failed);
    };
    match send(engine, &transaction, bytes, tries) {
        Outcome::Applied => Ok(next),
        _ => Err(StorageFault::Failed),
    }
}

/// Appends a group behind the head, whole or not at all, and returns the head behind it.
///
/// # Errors
///
/// `Failed` where it isn't known to be appended.
pub(crate) fn put_group<E: Engine>(
    engine: &mut E,
    tenure: Tenure,
    bytes: &[u8],
    end: LogEnd,
    tries: u32,
) -> Result<Head, StorageFault>
    requires own { E.is_own engine.old tenure.owner ≡ true }
    requires settled { AreSettled (E.sends engine.old) tenure.owner tenure.head }
    ensures end { IfOk result (λ next. next.extent.end ≡ end) }
    ensures appended { IfOk result (λ next. Between (E.register engine.old) (E.register engine.new) (λ k l.
        is_current tenure.owner tenure.head k ≡ true → Appended tenure.owner tenure.head next bytes.now k l)) }
    ensures settled { IfOk result (λ next. AreSettled (E.sends engine.new) tenure.owner next) }
    ensures own { E.is_own engine.new ≡ E.is_own engine.old }
{
    let mut rest = bytes;
    let mut place: u64 = 0;
    'chunks: while rest.len() > MOST_CHUNK {
        let (chunk, behind) = rest.split_at(MOST_CHUNK);
        put_behind(engine, tenure, place, chunk, tries)?;
        place += 1;
        rest = behind;
    }
    put_last(engine, tenure, place, rest, end, tries)
}
