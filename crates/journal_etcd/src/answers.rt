//! Answers of etcd's JSON gateway.
ghost use Rattle.std.specs.Prelude.{◌≡◌, ℕ, List, Some, Ok};
ghost use Rattle.std.specs.Str.{IsUtf8};
ghost use Rattle.json.specs.Json.{Json, document};
ghost use Rattle.json.specs.Value.{value_view};
ghost use Rattle.journal_register.specs.declared.look.Look.{Look as Looks};
ghost use Rattle.journal_etcd.specs.declared.answers.TransactionAnswer.{TransactionAnswer as TransactionAnswers};
ghost use Rattle.journal_etcd.specs.Answers.{SaysLook, SaysTransaction};
ghost use Rattle.journal_etcd.specs.Reading.{Gives, value_in, both_in, register_in, look_in, json_of, look_of};
ghost use Rattle.journal_etcd.specs.Reading.{writes_of, last_part, range_in, transaction_in, transaction_of, answer_of};

use crate::fault::{AnswerError, AnswerFault};
use crate::keys::{Keys, head_key, owner_key};
use crate::members::{bytes_in, flag_in, item_at, member, number_in};
use crate::reading::{head_of, owner_of};
use journal_register::{Answer, Head, Look, NO_HEAD, NOBODY, Outcome, Owner, Transaction};
use json::{Error, Scratch, Value};
use std::alloc::Global;

/// What an answer to a transaction says.
#[derive(Clone, Copy, Debug, PartialEq, Eq)]
pub struct TransactionAnswer {
    /// What is known of the transaction.
    pub outcome: Outcome,
    /// The register behind it.
    pub look: Look,
}

/// The answer as `Transaction::outcome` takes it.
fn answer_of(succeeded: bool, look: Look) -> Answer
    ensures { result ≡ answer_of succeeded look }
{
    if succeeded {
        Answer::Succeeded
    } else {
        Answer::Failed(look.owner, look.head)
    }
}

/// The JSON that a body is.
#[tactic(auto, unfolding(crate::specs::Reading::json_of))]
pub(crate) fn json_of<'a>(
    alloc: Global,
    body: &'a [u8],
    scratch: &'a mut Scratch<Global>,
) -> Result<Value<'a>, AnswerError>
    ensures { Gives (λ v. value_view v) result (json_of body.now) }
{
    match Value::from_slice(alloc, body, scratch) {
        Ok(value) => Ok(value),
        Err(Error::Invalid) => Err(AnswerError::Fault(AnswerFault::NotJson)),
        Err(_) => Err(AnswerError::NoMemory),
    }
}

/// The value of a pair with this key.
#[tactic(auto, unfolding(crate::specs::Reading::value_in))]
pub(crate) fn value_in(alloc: Global, pair: &Value<'_>, key: &[u8]) -> Result<Vec<u8>, AnswerError>
    ensures { Gives (λ bytes. bytes.items) result (value_in key.now (value_view pair.now)) }
{
    let found = bytes_in(alloc, pair, "key")?;
    if found.as_slice() == key {
        bytes_in(alloc, pair, "value")
    } else {
        Err(AnswerError::Fault(AnswerFault::BadShape))
    }
}

/// The register in the pairs of both of its keys.
#[tactic(auto, unfolding(crate::specs::Reading::both_in))]
fn both_in(alloc: Global, keys: &Keys<'_>, pairs: &Value<'_>) -> Result<(Owner, Head), AnswerError>
    ensures { Gives (λ r. r) result (both_in keys.now.prefix.now (value_view pairs.now)) }
{
    let first = item_at(pairs, 0)?;
    let second = item_at(pairs, 1)?;
    let head = value_in(alloc, first, &head_key(alloc, keys)?)?;
    let owner = value_in(alloc, second, &owner_key(alloc, keys)?)?;
    let register_owner = owner_of(alloc, &owner)?;
    let register_head = head_of(alloc, &head)?;
    Ok((register_owner, register_head))
}

/// The register in the answer to a range over both of its keys.
#[tactic(auto, unfolding(crate::specs::Reading::register_in))]
fn register_in(
    alloc: Global,
    keys: &Keys<'_>,
    range: &Value<'_>,
) -> Result<(Owner, Head), AnswerError>
    ensures { Gives (λ r. r) result (register_in keys.now.prefix.now (value_view range.now)) }
{
    match range.get("kvs") {
        Some(pairs) => both_in(alloc, keys, pairs),
        None => Ok((NOBODY, NO_HEAD)),
    }
}

/// What a range over both keys says, with the header of the answer that it stands in.
#[tactic(auto, unfolding(crate::specs::Reading::look_in))]
fn look_in(
    alloc: Global,
    keys: &Keys<'_>,
    answer: &Value<'_>,
    range: &Value<'_>,
) -> Result<Look, AnswerError>
    ensures { Gives (λ look. look) result
        (look_in keys.now.prefix.now (value_view answer.now) (value_view range.now)) }
{
    let header = member(answer, "header")?;
    let cluster = number_in(header, "cluster_id")?;
    let revision = number_in(header, "revision")?;
    let (owner, head) = register_in(alloc, keys, range)?;
    Ok(Look {
        cluster,
        revision,
        owner,
        head,
    })
}

#[tactic(auto, unfolding(crate::specs::Reading::look_of))]
fn look_of(alloc: Global, keys: &Keys<'_>, body: &[u8]) -> Result<Look, AnswerError>
    ensures { Gives (λ look. look) result (look_of keys.now.prefix.now body.now) }
{
    let mut scratch = Scratch::new(alloc);
    let answer = json_of(alloc, body, &mut scratch)?;
    look_in(alloc, keys, &answer, &answer)
}

/// Reads the body of the answer to a look.
///
/// # Errors
///
/// `NoMemory`, or the body's first fault.
pub fn read_look(alloc: Global, keys: &Keys<'_>, body: &[u8]) -> Result<Look, AnswerError>
    // What says a look is read.
    ensures only { (answer : Json) (look : Looks) → IsUtf8 body.now → document body.now ≡ Some answer
        → SaysLook keys.now.prefix.now answer answer look → Gives (λ l. l) result (Ok look) }
    // What else is read, and which fault it is.
    ensures exact { Gives (λ look. look) result (look_of keys.now.prefix.now body.now) }
{
    look_of(alloc, keys, body)
}

/// How many puts and removals a transaction has.
#[tactic(auto, unfolding(crate::specs::Reading::writes_of))]
fn writes_of(transaction: &Transaction) -> usize
    ensures { result ≡ writes_of transaction.now }
{
    usize::from(transaction.new_owner.is_some())
        + usize::from(transaction.new_head.is_some())
        + usize::from(transaction.chunk.is_some())
        + usize::from(transaction.deleted.is_some())
}

#[tactic(auto, unfolding(crate::specs::Reading::last_part))]
fn last_part(transaction: &Transaction, succeeded: bool) -> usize
    ensures { result ≡ last_part transaction.now succeeded }
{
    if succeeded { writes_of(transaction) } else { 0 }
}

/// The answer to the range over both keys in the answer to a transaction.
#[tactic(auto, unfolding(crate::specs::Reading::range_in))]
fn range_in<'v, 'a>(
    transaction: &Transaction,
    succeeded: bool,
    answer: &'v Value<'a>,
) -> Result<&'v Value<'a>, AnswerError>
    ensures { Gives (λ v. value_view v.now) result
        (range_in transaction.now succeeded (value_view answer.now)) }
{
    let responses = member(answer, "responses")?;
    let response = item_at(responses, last_part(transaction, succeeded))?;
    member(response, "response_range")
}

#[tactic(auto, unfolding(crate::specs::Reading::transaction_in))]
fn transaction_in(
    alloc: Global,
    keys: &Keys<'_>,
    transaction: &Transaction,
    answer: &Value<'_>,
) -> Result<TransactionAnswer, AnswerError>
    ensures { Gives (λ read. read) result
        (transaction_in keys.now.prefix.now transaction.now (value_view answer.now)) }
{
    let succeeded = flag_in(answer, "succeeded");
    let range = range_in(transaction, succeeded, answer)?;
    let look = look_in(alloc, keys, answer, range)?;
    Ok(TransactionAnswer {
        outcome: transaction.outcome(answer_of(succeeded, look)),
        look,
    })
}

#[tactic(auto, unfolding(crate::specs::Reading::transaction_of))]
fn transaction_of(
    alloc: Global,
    keys: &Keys<'_>,
    transaction: &Transaction,
    body: &[u8],
) -> Result<TransactionAnswer, AnswerError>
    ensures { Gives (λ read. read) result (transaction_of keys.now.prefix.now transaction.now body.now) }
{
    let mut scratch = Scratch::new(alloc);
    let answer = json_of(alloc, body, &mut scratch)?;
    transaction_in(alloc, keys, transaction, &answer)
}

/// Reads the body of the answer to a transaction.
///
/// # Errors
///
/// `NoMemory`, or the body's first fault: then nothing is known of the transaction (`Outcome::Unknown`).
pub fn read_transaction(
    alloc: Global,
    keys: &Keys<'_>,
    transaction: &Transaction,
    body: &[u8],
) -> Result<TransactionAnswer, AnswerError>
    // What says whether it succeeded, and the register behind it, is read, with the outcome of that.
    ensures only { (answer : Json) (read : TransactionAnswers) → IsUtf8 body.now → document body.now ≡ Some answer
        → SaysTransaction keys.now.prefix.now transaction.now answer read → Gives (λ r. r) result (Ok read) }
    // What else is read, and which fault it is.
    ensures exact { Gives (λ read. read) result (transaction_of keys.now.prefix.now transaction.now body.now) }
{
    transaction_of(alloc, keys, transaction, body)
}
