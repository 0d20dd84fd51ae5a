//! A journal's head: its first payload, which lists the operators.
ghost use Rattle.std.specs.Prelude.{◌≡◌, ◌≢◌, ◌↔◌, ◌≤◌, ◌<◌, ◌^◌, ℕ, List, ◌∷◌, ◌++◌, map, IfOk, IfErr, OnOk, IsErrOf};
ghost use Rattle.mds_request.specs.Configuration.{configuration, operator as named};
ghost use Rattle.journal_entry.specs.Entries.{id_text, size_text};
ghost use Rattle.journal_entry.specs.Heads.{Share as Part, IsShare, AreShares, share_of, limit_of, shares_of, share_text, shares_text, head_word, head_text};
ghost use Rattle.journal_entry.specs.declared.head.TheConstants.{LAYOUT};

use crate::decoding::{DecodeFault, id_in, size_in};
use crate::encoding::{push_id, push_size};
use mds_request::{Config, Operator};
use mds_text::Id;
use std::alloc::{AllocError, Global};

/// The version of the layout of heads and entries.
pub const LAYOUT: u8 = 1;

/// The magic word with which a head begins.
const WORD: [u8; 10] = *b"ruffletuff";

/// An operator's share: its identifier, with how many vehicles it may hold, or has held.
#[derive(Clone, Copy, PartialEq, Eq)]
pub struct OperatorShare {
    pub id: Id,
    pub vehicles: u32,
}

/// Why a payload is no head.
#[derive(Clone, Copy, Debug, PartialEq, Eq)]
pub enum HeadFault {
    /// The layout has this version, which isn't known.
    Version(u8),
    /// The payload isn't a head.
    Malformed,
    /// Out of memory.
    NoMemory,
}

/// The share for an operator's limit: how many vehicles it may hold.
fn limit_of(operator: &Operator) -> OperatorShare
    ensures { share_of result ≡ limit_of (named operator.now) }
{
    OperatorShare {
        id: operator.id,
        vehicles: operator.limit as u32,
    }
}

/// Appends the encoding of a share.
fn push_share(alloc: Global, text: &mut Vec<u8>, share: OperatorShare) -> Result<(), AllocError>
    ensures { OnOk result (text.new.items ≡ text.old.items ++ share_text (share_of share)) }
{
    push_id(alloc, text, share.id)?;
    push_size(text, share.vehicles)
}

/// The share of each operator in a configuration: how many vehicles it may hold.
///
/// # Errors
///
/// Out of memory.
pub fn shares(alloc: Global, config: &Config) -> Result<Vec<OperatorShare>, AllocError>
    ensures { IfOk result (λ shares. map share_of shares.items ≡ shares_of (configuration config.now)) }
{
    let operators = config.operators();
    let mut shares = Vec::with_capacity(alloc, operators.len())?;
    for operator in operators {
        shares.push(limit_of(operator))?;
    }
    Ok(shares)
}

/// The payload of a head with these shares, which `read_head` decodes to them.
///
/// # Errors
///
/// Out of memory.
pub fn head_text(alloc: Global, shares: &[OperatorShare]) -> Result<Vec<u8>, AllocError>
    ensures { IfOk result (λ text. text.items ≡ head_text (map share_of shares.now)) }
{
    let mut text = Vec::new(alloc);
    text.extend_from_slice(&WORD)?;
    text.push(LAYOUT)?;
    for share in shares {
        push_share(alloc, &mut text, *share)?;
    }
    Ok(text)
}

/// Decodes the share at the start, and returns the bytes after it.
fn share_in(alloc: Global, bytes: &[u8]) -> Result<(OperatorShare, &[u8]), DecodeFault>
    ensures read { IfOk result (λ r. (bytes.now ≡ share_text (share_of r.0) ++ r.1.now) × IsShare (share_of r.0)) }
    ensures malformed { IfErr result (λ flaw. flaw ≡ DecodeFault.Malformed
        → (share : Part) (rest : List ℕ) → IsShare share → bytes.now ≡ share_text share ++ rest → ⊥) }
{
    let (id, behind) = match id_in(alloc, bytes) {
        Ok(found) => found,
        Err(flaw) => return Err(flaw),
    };
    match size_in(behind) {
        Some((vehicles, rest)) => Ok((OperatorShare { id, vehicles }, rest)),
        None => Err(DecodeFault::Malformed),
    }
}

/// Decodes shares up to the end of the bytes.
fn shares_in(alloc: Global, bytes: &[u8]) -> Result<Vec<OperatorShare>, DecodeFault>
    ensures read { IfOk result (λ shares. (bytes.now ≡ shares_text (map share_of shares.items)) × AreShares (map share_of shares.items)) }
    ensures malformed { IfErr result (λ flaw. flaw ≡ DecodeFault.Malformed
        → (shares : List Part) → AreShares shares → bytes.now ≡ shares_text shares → ⊥) }
{
    let mut shares = Vec::new(alloc);
    let mut rest = bytes;
    while !rest.is_empty() {
        let (share, behind) = match share_in(alloc, rest) {
            Ok(found) => found,
            Err(flaw) => return Err(flaw),
        };
        let Ok(()) = shares.push(share) else {
            return Err(DecodeFault::NoMemory);
        };
        rest = behind;
    }
    Ok(shares)
}

/// Decodes a head's payload to its shares.
///
/// # Errors
///
/// `Version` where the head has another version, `Malformed` where the payload isn't a head, `NoMemory` where out of
/// memory.
pub fn read_head(alloc: Global, text: &[u8]) -> Result<Vec<OperatorShare>, HeadFault>
    ensures read { IfOk result (λ shares. (text.now ≡ head_text (map share_of shares.items)) × AreShares (map share_of shares.items)) }
    ensures version { (version : ℕ) → IsErrOf result (HeadFault.Version version)
        ↔ ((version ≢ LAYOUT) × ((rest : List ℕ) × (text.now ≡ head_word ++ (version ∷ rest)))) }
    ensures malformed { IfErr result (λ fault. fault ≡ HeadFault.Malformed
        → (shares : List Part) → AreShares shares → text.now ≡ head_text shares → ⊥) }
{
    if text.len() < WORD.len() {
        return Err(HeadFault::Malformed);
    }
    let (word, behind) = text.split_at(WORD.len());
    if word != WORD.as_slice() {
        return Err(HeadFault::Malformed);
    }
    match behind.split_first() {
        None => Err(HeadFault::Malformed),
        Some((&LAYOUT, bytes)) => match shares_in(alloc, bytes) {
            Ok(shares) => Ok(shares),
            Err(DecodeFault::Malformed) => Err(HeadFault::Malformed),
            Err(DecodeFault::NoMemory) => Err(HeadFault::NoMemory),
        },
        Some((version, _)) => Err(HeadFault::Version(*version)),
    }
}
