//! The record reader: reads up to the first place where no whole record stands.
ghost use Rattle.std.specs.Prelude.{◌≡◌, ◌≤◌, ℕ, List, length, map, IfOk, option_map};
ghost use Rattle.journal_file.specs.Sum.{sums_over};
ghost use Rattle.journal_file.specs.Records.{Reads, first_at, text_at, extent, offsets_from};

use crate::numbers::number;
use crate::record::{HEAD, MOST_TEXT};
use crate::sum::sum_over;
use std::alloc::{AllocError, Global};

/// A record that was read.
#[derive(Clone, Copy, Debug)]
pub struct Record<'a> {
    /// Where its payload begins in the bytes that were read.
    pub offset: usize,
    /// Its payload.
    pub text: &'a [u8],
}

/// What was read from bytes.
#[derive(Debug, Drop)]
pub struct RecordScan<'a> {
    /// The records at the start, in order.
    pub records: Vec<Record<'a>>,
    /// How many bytes these records take. No whole record stands after them.
    pub whole: usize,
    /// The checksum after these records.
    pub sum: u64,
}

/// The payload with this length and this checksum at the start, and the bytes after it.
#[tactic(auto, unfolding(crate::specs::Records::text_at))]
fn text_in(before: u64, size: usize, claimed: u64, bytes: &[u8]) -> Option<(&[u8], &[u8])>
    ensures { option_map (λ x. (x.0.now, x.1.now)) result ≡ text_at before size claimed bytes.now }
{
    if size == 0 || size > MOST_TEXT || size > bytes.len() {
        return None;
    }
    let (text, behind) = bytes.split_at(size);
    if sum_over(before, text) == claimed {
        Some((text, behind))
    } else {
        None
    }
}

/// The payload of the record at the start, and the bytes after it.
#[tactic(auto, unfolding(crate::specs::Records::first_at))]
fn first(before: u64, bytes: &[u8]) -> Option<(&[u8], &[u8])>
    ensures { option_map (λ x. (x.0.now, x.1.now)) result ≡ first_at before bytes.now }
{
    if bytes.len() < HEAD {
        return None;
    }
    let (size, bytes) = bytes.split_at(4);
    let (claimed, bytes) = bytes.split_at(8);
    let size = u32::from_be_bytes([size[0], size[1], size[2], size[3]]);
    text_in(before, size as usize, number(claimed), bytes)
}

/// Reads the records at the start of the bytes, which follow data with the checksum `before`: 0, where the bytes are a
/// whole file. To continue a read, pass the bytes from [`RecordScan::whole`] on, and [`RecordScan::sum`].
///
/// # Errors
///
/// Out of memory.
pub fn read(alloc: Global, before: u64, bytes: &[u8]) -> Result<RecordScan<'_>, AllocError>
    ensures texts { IfOk result (λ found. Reads before bytes.now (map (λ x. x.text.now) found.records.items)) }
    ensures offsets { IfOk result (λ found.
        map (λ x. x.offset) found.records.items ≡ offsets_from 0 (map (λ x. x.text.now) found.records.items)) }
    ensures whole { IfOk result (λ found. found.whole ≡ extent (map (λ x. x.text.now) found.records.items)) }
    ensures within { IfOk result (λ found. found.whole ≤ length bytes.now) }
    ensures sum { IfOk result (λ found. found.sum ≡ sums_over before (map (λ x. x.text.now) found.records.items)) }
{
    let mut records = Vec::new(alloc);
    let mut sum = before;
    let mut rest = bytes;
    while let Some((text, behind)) = first(sum, rest) {
        records.push(Record {
            offset: bytes.len() - rest.len() + HEAD,
            text,
        })?;
        sum = sum_over(sum, text);
        rest = behind;
    }
    Ok(RecordScan {
        records,
        whole: bytes.len() - rest.len(),
        sum,
    })
}
