//! The values of a register's two keys, as they are read.
ghost use Rattle.std.specs.Prelude.{◌≡◌, Ok, IfOk};
ghost use Rattle.journal_register.specs.declared.owner.Owner.{Owner as Owners};
ghost use Rattle.journal_register.specs.declared.head.Head.{Head as Heads};
ghost use Rattle.journal_etcd.specs.Values.{owner_value, head_value, FitsOwner, FitsHead};
ghost use Rattle.journal_etcd.specs.Reading.{Gives, end_at, generation_at, extent_at, switch_at, owner_at, head_at};
ghost use Rattle.journal_etcd.specs.Reading.{owner_of, head_of};

use crate::fault::{AnswerError, AnswerFault};
use crate::numbers::number_at;
use crate::values::{head_value, owner_value};
use journal_file::LogEnd;
use journal_register::{Extent, Generation, Head, Owner, Switch};
use std::alloc::Global;

#[tactic(auto, unfolding(crate::specs::Reading::end_at))]
fn end_at(text: &[u8]) -> Result<(LogEnd, &[u8]), AnswerError>
    ensures { Gives (λ r. (r.0, r.1.now)) result (end_at text.now) }
{
    let (position, rest) = number_at(text)?;
    let (sum, rest) = number_at(rest)?;
    let (count, rest) = number_at(rest)?;
    Ok((
        LogEnd {
            position,
            sum,
            count,
        },
        rest,
    ))
}

#[tactic(auto, unfolding(crate::specs::Reading::generation_at))]
fn generation_at(text: &[u8]) -> Result<(Generation, &[u8]), AnswerError>
    ensures { Gives (λ r. (r.0, r.1.now)) result (generation_at text.now) }
{
    let (epoch, rest) = number_at(text)?;
    let (attempt, rest) = number_at(rest)?;
    Ok((Generation { epoch, attempt }, rest))
}

#[tactic(auto, unfolding(crate::specs::Reading::extent_at))]
fn extent_at(text: &[u8]) -> Result<(Extent, &[u8]), AnswerError>
    ensures { Gives (λ r. (r.0, r.1.now)) result (extent_at text.now) }
{
    let (generation, rest) = generation_at(text)?;
    let (chunks, rest) = number_at(rest)?;
    let (end, rest) = end_at(rest)?;
    Ok((
        Extent {
            generation,
            chunks,
            end,
        },
        rest,
    ))
}

#[tactic(auto, unfolding(crate::specs::Reading::switch_at))]
fn switch_at(text: &[u8]) -> Result<(Switch, &[u8]), AnswerError>
    ensures { Gives (λ r. (r.0, r.1.now)) result (switch_at text.now) }
{
    let (from, rest) = extent_at(text)?;
    let (chunks, rest) = number_at(rest)?;
    let (end, rest) = end_at(rest)?;
    Ok((Switch { from, chunks, end }, rest))
}

/// The owner behind a version.
#[tactic(auto, unfolding(crate::specs::Reading::owner_at))]
fn owner_at(text: &[u8]) -> Result<Owner, AnswerError>
    ensures { Gives (λ owner. owner) result (owner_at text.now) }
{
    let (_, rest) = number_at(text)?;
    let (epoch, rest) = number_at(rest)?;
    let (nonce, _) = number_at(rest)?;
    Ok(Owner { epoch, nonce })
}

/// The head behind a version.
#[tactic(auto, unfolding(crate::specs::Reading::head_at))]
fn head_at(text: &[u8]) -> Result<Head, AnswerError>
    ensures { Gives (λ head. head) result (head_at text.now) }
{
    let (_, rest) = number_at(text)?;
    let (extent, rest) = extent_at(rest)?;
    let (beat, rest) = number_at(rest)?;
    let (switch, _) = switch_at(rest)?;
    Ok(Head {
        extent,
        beat,
        switch,
    })
}

/// The owner whose value these bytes are. What is read is written again and compared, so that a value has one form.
#[tactic(auto, unfolding(crate::specs::Reading::owner_of))]
pub(crate) fn owner_of(alloc: Global, value: &[u8]) -> Result<Owner, AnswerError>
    ensures exact { Gives (λ owner. owner) result (owner_of value.now) }
    ensures found { IfOk result (λ owner. value.now ≡ owner_value owner) }
{
    let owner = owner_at(value)?;
    let written = owner_value(alloc, owner)?;
    if written.as_slice() == value {
        Ok(owner)
    } else {
        Err(AnswerError::Fault(AnswerFault::BadShape))
    }
}

/// The head whose value these bytes are.
#[tactic(auto, unfolding(crate::specs::Reading::head_of))]
pub(crate) fn head_of(alloc: Global, value: &[u8]) -> Result<Head, AnswerError>
    ensures exact { Gives (λ head. head) result (head_of value.now) }
    ensures found { IfOk result (λ head. value.now ≡ head_value head) }
{
    let head = head_at(value)?;
    let written = head_value(alloc, head)?;
    if written.as_slice() == value {
        Ok(head)
    } else {
        Err(AnswerError::Fault(AnswerFault::BadShape))
    }
}

/// The owner that a value of the owner's key is.
///
/// # Errors
///
/// `NoMemory`; `BadShape`, `BadNumber` where the bytes are no owner's value.
pub fn read_owner(alloc: Global, value: &[u8]) -> Result<Owner, AnswerError>
    ensures found { IfOk result (λ owner. value.now ≡ owner_value owner) }
    ensures only { (owner : Owners) → FitsOwner owner → value.now ≡ owner_value owner
        → Gives (λ owner. owner) result (Ok owner) }
    ensures exact { Gives (λ owner. owner) result (owner_of value.now) }
{
    owner_of(alloc, value)
}

/// The head that a value of the head's key is.
///
/// # Errors
///
/// `NoMemory`; `BadShape`, `BadNumber` where the bytes are no head's value.
pub fn read_head(alloc: Global, value: &[u8]) -> Result<Head, AnswerError>
    ensures found { IfOk result (λ head. value.now ≡ head_value head) }
    ensures only { (head : Heads) → FitsHead head → value.now ≡ head_value head
        → Gives (λ head. head) result (Ok head) }
    ensures exact { Gives (λ head. head) result (head_of value.now) }
{
    head_of(alloc, value)
}
