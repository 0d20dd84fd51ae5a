//! Which transactions keep to the protocol.
ghost use Rattle.std.specs.Prelude.{◌≡◌};
ghost use Rattle.journal_remote.specs.Protocol.{claims_next, moves_on, names_own, puts_behind, deletes_left, is_lawful};

use journal_register::{ChunkKey, Generation, Head, MOST_COUNT, Owner, Transaction};

/// Whether the owner that is put, where one is, is of the next epoch.
fn claims_next(owner: Owner, put: Option<Owner>) -> bool
    ensures { result ≡ claims_next owner put }
{
    match put {
        None => true,
        Some(next) => owner.epoch < MOST_COUNT && next.epoch == owner.epoch + 1,
    }
}

/// Whether a head that is put comes behind one that is compared.
fn moves_on(put: Option<Head>, compared: Option<Head>) -> bool
    ensures { result ≡ moves_on put compared }
{
    match (put, compared) {
        (None, _) => true,
        (Some(_), None) => false,
        (Some(next), Some(head)) => head.is_before(next),
    }
}

/// Whether it has the same generation, or one that isn't of an owner behind this one.
fn names_own(put: Option<Head>, compared: Option<Head>, owner: Owner) -> bool
    ensures { result ≡ names_own put compared owner }
{
    match (put, compared) {
        (None, _) => true,
        (Some(next), None) => next.extent.generation.epoch <= owner.epoch,
        (Some(next), Some(head)) => next.extent.generation.is(head.extent.generation)
            || next.extent.generation.epoch <= owner.epoch,
    }
}

/// Whether a chunk is put behind the head that is compared, where one is.
fn puts_behind(put: Option<ChunkKey>, compared: Option<Head>) -> bool
    ensures { result ≡ puts_behind put compared }
{
    match (put, compared) {
        (None, _) | (Some(_), None) => true,
        (Some(key), Some(head)) => key.generation.is(head.extent.generation)
            && head.extent.chunks <= key.index,
    }
}

/// Whether another generation is deleted than that of the head that is compared.
fn deletes_left(deleted: Option<Generation>, compared: Option<Head>) -> bool
    ensures { result ≡ deletes_left deleted compared }
{
    match (deleted, compared) {
        (None, _) => true,
        (Some(_), None) => false,
        (Some(generation), Some(head)) => !generation.is(head.extent.generation),
    }
}

/// Whether a transaction keeps to the protocol.
pub(crate) fn is_lawful(transaction: &Transaction) -> bool
    ensures { result ≡ is_lawful transaction.now }
{
    let compared = transaction.head;
    claims_next(transaction.owner, transaction.new_owner)
        && moves_on(transaction.new_head, compared)
        && names_own(
            transaction.new_head,
            compared,
            transaction.new_owner.unwrap_or(transaction.owner),
        )
        && puts_behind(transaction.chunk, compared)
        && deletes_left(transaction.deleted, compared)
}
