//! The record writer.
ghost use Rattle.std.specs.Prelude.{◌≡◌, ◌++◌, ◌&&◌, ◌↔◌, IfOk, OnOk, OnErr, IsTrue};
ghost use Rattle.journal_file.specs.Sum.{sum_over};
ghost use Rattle.journal_file.specs.Records.{Fits, record_of};

use crate::sum::sum_over;
use std::alloc::{AllocError, Global};

/// The size of a record's header, in bytes: four for the payload's length and eight for its
/// checksum.
pub const HEAD: usize = 12;

/// The most bytes of a payload.
pub const MOST_TEXT: usize = 2_097_152;

/// Whether a payload can have a record: it has at least one byte, and at most [`MOST_TEXT`].
pub fn fits(text: &[u8]) -> bool
    ensures { IsTrue result ↔ Fits text.now }
{
    !text.is_empty() && text.len() <= MOST_TEXT
}

/// The record of a payload, after data with the checksum `before`.
#[tactic(auto, unfolding(crate::specs::Records::record_of))]
fn record(alloc: Global, before: u64, text: &[u8]) -> Result<Vec<u8>, AllocError>
    requires { Fits text.now }
    ensures { IfOk result (λ v. v.items ≡ record_of before text.now) }
{
    let mut out = Vec::with_capacity(alloc, HEAD)?;
    out.extend_from_slice(&(text.len() as u32).to_be_bytes())?;
    out.extend_from_slice(&sum_over(before, text).to_be_bytes())?;
    out.extend_from_slice(text)?;
    Ok(out)
}

/// Appends the record of a payload to the bytes, after data with the checksum `before`, and returns
/// its checksum.
///
/// # Errors
///
/// Out of memory; the bytes are as they were.
pub fn push(alloc: Global, bytes: &mut Vec<u8>, before: u64, text: &[u8]) -> Result<u64, AllocError>
    requires { Fits text.now }
    ensures sum { IfOk result (λ sum. sum ≡ sum_over before text.now) }
    ensures added { OnOk result (bytes.new.items ≡ bytes.old.items ++ record_of before text.now) }
    ensures unchanged { OnErr result (bytes.new.items ≡ bytes.old.items) }
{
    let record = record(alloc, before, text)?;
    bytes.extend_from_slice(&record)?;
    Ok(sum_over(before, text))
}
