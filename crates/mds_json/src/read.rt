//! Reads a JSON text into an owned tree.
ghost use Rattle.std.specs.Prelude.{◌≡◌, IfOk};
ghost use Rattle.mds_text.specs.Fault.{Gives, text_cause};
ghost use Rattle.mds_text.specs.Quoting.{quoted_count};
ghost use Rattle.mds_text.specs.Reading.{read_text};
ghost use Rattle.mds_text.specs.View.{view};

use crate::direct::read_direct;
use crate::direct_fault::DirectFault;
use crate::own::own;
use json::Scratch;
use mds_text::{TextFault, Tree};
use std::alloc::Global;

/// Reads a JSON text (RFC 8259) of at most 127 levels. Numbers that aren't plain become strings; of
/// equal names in one object the last is kept. `BadJson` where the text is not such a text, or not
/// UTF-8.
pub fn read_tree(alloc: Global, bytes: &[u8]) -> Result<Tree, TextFault>
    ensures { Gives text_cause view result (read_text bytes.now) }
{
    let (tree, _quoted) = read_and_count(alloc, bytes)?;
    Ok(tree)
}

/// Reads a text as `read_tree` does, and counts its numbers that aren't plain.
pub fn read_and_count(alloc: Global, bytes: &[u8]) -> Result<(Tree, u64), TextFault>
    ensures tree { Gives text_cause (λ r. view r.0) result (read_text bytes.now) }
    ensures quoted { IfOk result (λ r. r.1 ≡ quoted_count bytes.now) }
{
    let mut scratch = Scratch::new(alloc);
    match read_direct(alloc, &mut scratch, bytes) {
        Ok((node, quoted)) => Ok((own(alloc, &node)?, quoted)),
        Err(DirectFault::NoMemory) => Err(TextFault::NoMemory),
        Err(DirectFault::Unusual) => mds_text::read_and_count(alloc, bytes),
    }
}
