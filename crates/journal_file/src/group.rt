//! Groups of payloads that are written at once.
ghost use Rattle.std.specs.Prelude.{◌≡◌, ◌+◌, ◌^◌, ◌<◌, map, true, IfOk};
ghost use Rattle.journal_file.specs.Sum.{sums_over};
ghost use Rattle.journal_file.specs.Records.{written};
ghost use Rattle.journal_file.specs.Groups.{is_plain, is_taken, are_taken, group_of};
ghost use Rattle.journal_file.specs.declared.record.TheConstants.{HEAD};

use crate::marks::push_mark;
use crate::record::{MOST_TEXT, push};
use std::alloc::{AllocError, Global};

/// The first byte of a mark, which no UTF-8 text begins with.
const MARKS_FIRST: u8 = 255;

/// The records of a group.
#[derive(Debug, Drop)]
pub struct Group {
    /// Their bytes, to be written at once.
    pub bytes: Vec<u8>,
    /// The checksum after them.
    pub sum: u64,
}

/// Whether a payload is no mark: it doesn't begin as one.
pub fn is_plain(text: &[u8]) -> bool
    ensures { result ≡ is_plain text.now }
{
    match text.split_first() {
        None => true,
        Some((first, _)) => *first != MARKS_FIRST,
    }
}

/// Whether a log accepts a payload: it has at least one byte and at most [`MOST_TEXT`], and is no mark.
fn is_taken(text: &[u8]) -> bool
    ensures { result ≡ is_taken text.now }
{
    !text.is_empty() && text.len() <= MOST_TEXT && is_plain(text)
}

/// Whether a log accepts each of these payloads.
pub fn are_taken(texts: &[Vec<u8>]) -> bool
    ensures { result ≡ are_taken (map (λ v. v.items) texts.now) }
{
    for text in texts {
        if !is_taken(text) {
            return false;
        }
    }
    true
}

/// The records of a group, to be written at this position of the file after data with the checksum `before`: first the
/// record of a mark that says that the file was synced up to `synced`, then the records of the payloads.
///
/// # Errors
///
/// Out of memory.
pub fn group_of(
    alloc: Global,
    before: u64,
    position: u64,
    synced: u64,
    texts: &[Vec<u8>],
) -> Result<Group, AllocError>
    requires position { position + HEAD < 2 ^ 64 }
    requires texts { are_taken (map (λ v. v.items) texts.now) ≡ true }
    ensures bytes { IfOk result (λ group.
        group.bytes.items ≡ written before (group_of position synced (map (λ v. v.items) texts.now))) }
    ensures sum { IfOk result (λ group.
        group.sum ≡ sums_over before (group_of position synced (map (λ v. v.items) texts.now))) }
{
    let mut bytes = Vec::new(alloc);
    let mut sum = push_mark(alloc, &mut bytes, before, position, synced)?;
    for text in texts {
        sum = push(alloc, &mut bytes, sum, text)?;
    }
    Ok(Group { bytes, sum })
}
