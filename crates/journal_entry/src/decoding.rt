//! The decoder of entries.
ghost use Rattle.std.specs.Prelude.{◌≡◌, ◌≢◌, ◌↔◌, ◌≤◌, ◌<◌, ◌^◌, ℕ, List, ◌∷◌, ◌++◌, length, MatchOption, IfOk, IfErr, IsErrOf};
ghost use Rattle.std.specs.Int.{w64, w32, from_be_bytes, to_be_bytes};
ghost use Rattle.mds_text.specs.Fields.{last_moment};
ghost use Rattle.journal_entry.specs.Entries.{Entry as Accepted, IsEntry, IsId, IsClient, IsShort, entry_of, entry_text, fields_text, moment_text, size_text, id_text, client_text, verb_code};
ghost use Rattle.journal_entry.specs.declared.entry.EntryClient.{EntryClient as ByWhom};
ghost use Rattle.journal_entry.specs.declared.entry.TheConstants.{ENTRY, MOST_TARGET};
ghost use Rattle.mds_request.specs.declared.request.Verb.{Verb as Method};

use crate::encoding::{BY_AUTHOR, BY_OPERATOR};
use crate::entry::{ENTRY, EntryClient, JournalEntry, MOST_TARGET, is_short};
use mds_request::Verb;
use mds_text::{Id, Moment};
use std::alloc::{AllocError, Global};

/// How many characters an identifier has.
const ID_SIZE: usize = 36;

/// Why a payload is no entry.
#[derive(Clone, Copy, Debug, PartialEq, Eq)]
pub enum EntryFault {
    /// The layout has this version, which isn't known.
    Version(u8),
    /// The payload isn't an entry.
    Malformed,
    /// Out of memory.
    NoMemory,
}

/// Why bytes can't be decoded.
#[derive(Clone, Copy, Debug, PartialEq, Eq)]
pub(crate) enum DecodeFault {
    /// They aren't an encoding of what was expected.
    Malformed,
    /// Out of memory.
    NoMemory,
}

impl From<AllocError> for DecodeFault {
    ghost use Rattle.std.specs.Prelude.{◌≡◌};
    ghost use Rattle.journal_entry.specs.declared.decoding.DecodeFault.TheVariants.{NoMemory};

    ghost from_gives = { λ _ flaw. flaw ≡ NoMemory };

    fn from(_: AllocError) -> DecodeFault {
        DecodeFault::NoMemory
    }
}

/// Decodes the number in the first eight bytes, and returns the bytes after it.
fn number_in(bytes: &[u8]) -> Option<(u64, &[u8])>
    ensures { MatchOption result (length bytes.now < 8) (λ r. (bytes.now ≡ to_be_bytes w64 r.0 ++ r.1.now) × (r.0 < 2 ^ 64)) }
{
    if bytes.len() < 8 {
        return None;
    }
    let (front, rest) = bytes.split_at(8);
    let number = u64::from_be_bytes([
        front[0], front[1], front[2], front[3], front[4], front[5], front[6], front[7],
    ]);
    Some((number, rest))
}

/// Decodes the moment at the start, and returns the bytes after it.
fn moment_in(bytes: &[u8]) -> Option<(Moment, &[u8])>
    ensures { MatchOption result ((at : ℕ) (rest : List ℕ) → at ≤ last_moment → bytes.now ≡ moment_text at ++ rest → ⊥)
        (λ r. (bytes.now ≡ moment_text r.0 ++ r.1.now) × (r.0 ≤ last_moment)) }
{
    let Some((number, rest)) = number_in(bytes) else {
        return None;
    };
    if number > i64::MAX as u64 {
        return None;
    }
    match Moment::new(number as i64) {
        Some(at) => Some((at, rest)),
        None => None,
    }
}

/// The method of a byte.
fn verb_of(code: u8) -> Option<Verb>
    ensures { MatchOption result ((verb : Method) → code ≡ verb_code verb → ⊥) (λ verb. code ≡ verb_code verb) }
{
    match code {
        1 => Some(Verb::Get),
        2 => Some(Verb::Put),
        3 => Some(Verb::Post),
        4 => Some(Verb::Delete),
        5 => Some(Verb::Other),
        _ => None,
    }
}

/// Decodes the method at the start, and returns the bytes after it.
fn verb_in(bytes: &[u8]) -> Option<(Verb, &[u8])>
    ensures { MatchOption result ((verb : Method) (rest : List ℕ) → bytes.now ≡ verb_code verb ∷ rest → ⊥)
        (λ r. bytes.now ≡ verb_code r.0 ∷ r.1.now) }
{
    let Some((code, rest)) = bytes.split_first() else {
        return None;
    };
    match verb_of(*code) {
        Some(verb) => Some((verb, rest)),
        None => None,
    }
}

/// The identifier that is spelled so, in the hyphenated form with lowercase letters.
#[tactic(auto, unfolding(crate::specs::Entries::id_text))]
fn id_of(alloc: Global, text: &[u8]) -> Result<Id, DecodeFault>
    ensures read { IfOk result (λ id. (text.now ≡ id_text id) × IsId id) }
    ensures malformed { IfErr result (λ flaw. flaw ≡ DecodeFault.Malformed → (id : List ℕ) → IsId id → text.now ≡ id_text id → ⊥) }
{
    let Ok(spelled) = str::from_utf8(text) else {
        return Err(DecodeFault::Malformed);
    };
    let Some(id) = Id::read(spelled) else {
        return Err(DecodeFault::Malformed);
    };
    let printed = id.print(alloc)?;
    if printed.as_bytes() == text {
        Ok(id)
    } else {
        Err(DecodeFault::Malformed)
    }
}

/// Decodes the identifier at the start, and returns the bytes after it.
pub(crate) fn id_in(alloc: Global, bytes: &[u8]) -> Result<(Id, &[u8]), DecodeFault>
    ensures read { IfOk result (λ r. (bytes.now ≡ id_text r.0 ++ r.1.now) × IsId r.0) }
    ensures malformed { IfErr result (λ flaw. flaw ≡ DecodeFault.Malformed
        → (id rest : List ℕ) → IsId id → bytes.now ≡ id_text id ++ rest → ⊥) }
{
    if bytes.len() < ID_SIZE {
        return Err(DecodeFault::Malformed);
    }
    let (text, rest) = bytes.split_at(ID_SIZE);
    match id_of(alloc, text) {
        Ok(id) => Ok((id, rest)),
        Err(flaw) => Err(flaw),
    }
}

/// Decodes the client at the start, and returns the bytes after it.
fn client_in(alloc: Global, bytes: &[u8]) -> Result<(EntryClient, &[u8]), DecodeFault>
    ensures read { IfOk result (λ r. (bytes.now ≡ client_text r.0 ++ r.1.now) × IsClient r.0) }
    ensures malformed { IfErr result (λ flaw. flaw ≡ DecodeFault.Malformed
        → (client : ByWhom) (rest : List ℕ) → IsClient client → bytes.now ≡ client_text client ++ rest → ⊥) }
{
    match bytes.split_first() {
        Some((&BY_AUTHOR, rest)) => Ok((EntryClient::Author, rest)),
        Some((&BY_OPERATOR, rest)) => match id_in(alloc, rest) {
            Ok((id, rest)) => Ok((EntryClient::Operator(id), rest)),
            Err(flaw) => Err(flaw),
        },
        _ => Err(DecodeFault::Malformed),
    }
}

/// Decodes the length in the first four bytes, and returns the bytes after it.
#[tactic(auto, unfolding(crate::specs::Entries::size_text))]
pub(crate) fn size_in(bytes: &[u8]) -> Option<(u32, &[u8])>
    ensures { MatchOption result (length bytes.now < 4) (λ r. (bytes.now ≡ size_text r.0 ++ r.1.now) × (r.0 < 2 ^ 32)) }
{
    if bytes.len() < 4 {
        return None;
    }
    let (front, rest) = bytes.split_at(4);
    let size = u32::from_be_bytes([front[0], front[1], front[2], front[3]]);
    Some((size, rest))
}

/// Decodes the length at the start and the target after it, and returns the bytes after both.
fn target_in(bytes: &[u8]) -> Option<(&[u8], &[u8])>
    ensures { MatchOption result
        ((target rest : List ℕ) → length target ≤ MOST_TARGET → bytes.now ≡ size_text (length target) ++ (target ++ rest) → ⊥)
        (λ r. (bytes.now ≡ size_text (length r.0.now) ++ (r.0.now ++ r.1.now)) × (length r.0.now ≤ MOST_TARGET)) }
{
    let Some((size, rest)) = size_in(bytes) else {
        return None;
    };
    let size = size as usize;
    if size > MOST_TARGET || size > rest.len() {
        return None;
    }
    Some(rest.split_at(size))
}

/// Decodes the fields after the version.
fn entry_in(alloc: Global, bytes: &[u8]) -> Result<JournalEntry<'_>, DecodeFault>
    ensures read { IfOk result (λ entry. (bytes.now ≡ fields_text (entry_of entry)) × IsEntry (entry_of entry)) }
    ensures malformed { IfErr result (λ flaw. flaw ≡ DecodeFault.Malformed
        → (entry : Accepted) → IsEntry entry → bytes.now ≡ fields_text entry → ⊥) }
{
    let (at, behind) = match moment_in(bytes) {
        Some(found) => found,
        None => return Err(DecodeFault::Malformed),
    };
    let Some((verb, fields)) = verb_in(behind) else {
        return Err(DecodeFault::Malformed);
    };
    let (client, rest) = match client_in(alloc, fields) {
        Ok(found) => found,
        Err(flaw) => return Err(flaw),
    };
    let Some((target, body)) = target_in(rest) else {
        return Err(DecodeFault::Malformed);
    };
    let entry = JournalEntry {
        client,
        at,
        verb,
        target,
        body,
    };
    if is_short(&entry) {
        Ok(entry)
    } else {
        Err(DecodeFault::Malformed)
    }
}

/// Decodes an entry's payload. The entry borrows its target and its body from the payload.
///
/// # Errors
///
/// `Version` where the payload begins with another version, `Malformed` where it isn't an entry, `NoMemory` where out
/// of memory.
pub fn read_entry(alloc: Global, text: &[u8]) -> Result<JournalEntry<'_>, EntryFault>
    ensures read { IfOk result (λ entry. (text.now ≡ entry_text (entry_of entry)) × IsEntry (entry_of entry)) }
    ensures version { (version : ℕ) → IsErrOf result (EntryFault.Version version)
        ↔ ((version ≢ ENTRY) × ((rest : List ℕ) × (text.now ≡ version ∷ rest))) }
    ensures same { IfOk result (λ found. (entry : Accepted) → IsEntry entry → text.now ≡ entry_text entry → entry_of found ≡ entry) }
    ensures malformed { IfErr result (λ fault. fault ≡ EntryFault.Malformed
        → (entry : Accepted) → IsEntry entry → text.now ≡ entry_text entry → ⊥) }
{
    match text.split_first() {
        None => Err(EntryFault::Malformed),
        Some((&ENTRY, fields)) => match entry_in(alloc, fields) {
            Ok(entry) => Ok(entry),
            Err(DecodeFault::Malformed) => Err(EntryFault::Malformed),
            Err(DecodeFault::NoMemory) => Err(EntryFault::NoMemory),
        },
        Some((version, _)) => Err(EntryFault::Version(*version)),
    }
}
