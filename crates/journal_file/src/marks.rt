//! Marks: payloads that say how far the file was synced.
ghost use Rattle.std.specs.Prelude.{◌≡◌, ◌+◌, ◌^◌, ◌<◌, ◌++◌, length, IfOk, OnOk, OnErr, option_map};
ghost use Rattle.journal_file.specs.Sum.{sum_over};
ghost use Rattle.journal_file.specs.Records.{record_of};
ghost use Rattle.journal_file.specs.Marks.{mark_head, mark_of, claim_by, claim_at, said_by, is_moved, further, furthest_said, first_moved};
ghost use Rattle.journal_file.specs.declared.record.TheConstants.{HEAD};

use crate::numbers::number;
use crate::record::{HEAD, push};
use crate::sum::sum_over;
use std::alloc::{AllocError, Global};

/// The size of a mark in bytes: a magic word, the position at which it stands, the position up to which the file was
/// synced, and the checksum of these, eight bytes each.
pub const MARK: usize = 32;

/// The magic word with which a mark begins. No UTF-8 text has its first byte.
const WORD: [u8; 8] = *b"\xffsynced:";

/// What a mark's checksum covers: its magic word, its position, and how far the file was synced.
#[tactic(auto, unfolding(crate::specs::Marks::mark_head))]
fn mark_head(alloc: Global, position: u64, synced: u64) -> Result<Vec<u8>, AllocError>
    ensures { IfOk result (λ v. v.items ≡ mark_head position synced) }
{
    let mut head = Vec::with_capacity(alloc, MARK)?;
    head.extend_from_slice(&WORD)?;
    head.extend_from_slice(&position.to_be_bytes())?;
    head.extend_from_slice(&synced.to_be_bytes())?;
    Ok(head)
}

/// The mark at a position of the file, which says how far the file was synced.
fn mark(alloc: Global, position: u64, synced: u64) -> Result<Vec<u8>, AllocError>
    ensures { IfOk result (λ v. v.items ≡ mark_of position synced) }
{
    let mut out = mark_head(alloc, position, synced)?;
    let sum = sum_over(0, &out);
    out.extend_from_slice(&sum.to_be_bytes())?;
    Ok(out)
}

/// Appends the record of a mark to the bytes, after data with the checksum `before`, and returns its checksum. The
/// record is to stand at `position` in the file, and says that the file was synced up to `synced`. Each group of
/// records that is written at once begins with one.
///
/// # Errors
///
/// Out of memory; the bytes are as they were.
pub fn push_mark(
    alloc: Global,
    bytes: &mut Vec<u8>,
    before: u64,
    position: u64,
    synced: u64,
) -> Result<u64, AllocError>
    requires { position + HEAD < 2 ^ 64 }
    ensures sum { IfOk result (λ sum. sum ≡ sum_over before (mark_of (position + HEAD) synced)) }
    ensures added { OnOk result (bytes.new.items ≡ bytes.old.items ++ record_of before (mark_of (position + HEAD) synced)) }
    ensures unchanged { OnErr result (bytes.new.items ≡ bytes.old.items) }
{
    let mark = mark(alloc, position + HEAD as u64, synced)?;
    push(alloc, bytes, before, &mark)
}

/// What a mark says.
#[derive(Clone, Copy)]
struct Claim {
    /// The position for which it was written.
    position: u64,
    /// How far the file was synced then.
    synced: u64,
}

/// What a mark with this head and this checksum says.
#[tactic(auto, unfolding(crate::specs::Marks::claim_by))]
fn claim_by(head: &[u8], claimed: u64) -> Option<Claim>
    requires { length head.now ≡ 24 }
    ensures { option_map (λ c. (c.position, c.synced)) result ≡ claim_by head.now claimed }
{
    let (word, places) = head.split_at(8);
    let (own, synced) = places.split_at(8);
    if word != WORD.as_slice() || claimed != sum_over(0, head) {
        return None;
    }
    Some(Claim {
        position: number(own),
        synced: number(synced),
    })
}

/// What the mark at the start of the bytes says, wherever they stand; none, where there is no mark.
#[tactic(auto, unfolding(crate::specs::Marks::claim_at))]
fn claim_at(bytes: &[u8]) -> Option<Claim>
    ensures { option_map (λ c. (c.position, c.synced)) result ≡ claim_at bytes.now }
{
    if bytes.len() < MARK {
        return None;
    }
    let (head, rest) = bytes.split_at(24);
    let (claimed, _) = rest.split_at(8);
    claim_by(head, number(claimed))
}

/// How far the mark at the start of the bytes says that the file was synced.
fn synced_end_at(bytes: &[u8]) -> Option<u64>
    ensures { result ≡ said_by (claim_at bytes.now) }
{
    match claim_at(bytes) {
        Some(claim) => Some(claim.synced),
        None => None,
    }
}

/// Whether the mark at the start of the bytes, which stand at this position, was written for another position.
fn is_moved(position: u64, bytes: &[u8]) -> bool
    ensures { result ≡ is_moved position (claim_at bytes.now) }
{
    match claim_at(bytes) {
        Some(claim) => claim.position != position,
        None => false,
    }
}

/// The further of two positions.
fn further(said: Option<u64>, other: Option<u64>) -> Option<u64>
    ensures { result ≡ further said other }
{
    match (said, other) {
        (Some(said), Some(other)) => Some(said.max(other)),
        (Some(said), None) => Some(said),
        (None, other) => other,
    }
}

/// The furthest synced position that any mark among the bytes gives, wherever it stands; none without a mark.
pub(crate) fn furthest_synced_end(bytes: &[u8]) -> Option<u64>
    ensures { result ≡ furthest_said bytes.now }
{
    let mut most = None;
    let mut rest = bytes;
    while let Some((_, behind)) = rest.split_first() {
        most = further(most, synced_end_at(rest));
        rest = behind;
    }
    most
}

/// The first position among the bytes, which stand at `position`, with a mark that was written for another.
pub(crate) fn first_moved_mark(position: u64, bytes: &[u8]) -> Option<u64>
    requires { position + length bytes.now < 2 ^ 64 }
    ensures { result ≡ first_moved position bytes.now }
{
    let mut at = position;
    let mut rest = bytes;
    while let Some((_, behind)) = rest.split_first() {
        if is_moved(at, rest) {
            return Some(at);
        }
        at += 1;
        rest = behind;
    }
    None
}
