//! What the nodes of a text borrow from, and the reading of a text into nodes.
ghost use Rattle.std.specs.Prelude.{◌≡◌, IfOk};
ghost use Rattle.mds_text.specs.Fault.{Gives, text_cause};
ghost use Rattle.mds_text.specs.Quoting.{quoted_count};
ghost use Rattle.mds_text.specs.Reading.{read_text};
ghost use Rattle.mds_json.specs.Node.{node_view};

use crate::direct::read_direct;
use crate::direct_fault::DirectFault;
use crate::node::Node;
use crate::own::lend;
use json::Scratch;
use mds_text::{TextFault, Tree};
use std::alloc::{AllocError, Global};

/// What the nodes of a text borrow from besides the text itself: the buffer for strings with
/// escapes, and the owned tree of an unusual text.
#[derive(Drop)]
pub struct NodeBuffer {
    scratch: Scratch<Global>,
    tree: Tree,
}

impl NodeBuffer {
    /// A source of no text yet. Allocates nothing.
    pub fn new(alloc: Global) -> NodeBuffer {
        NodeBuffer {
            scratch: Scratch::new(alloc),
            tree: Tree::Null,
        }
    }

    /// Reads a JSON text (RFC 8259) of at most 127 levels, as `read_tree` does, into a tree that
    /// borrows.
    ///
    /// # Errors
    ///
    /// `BadJson` where the text is not such a text, or not UTF-8; or out of memory.
    pub fn read<'a>(&'a mut self, alloc: Global, bytes: &'a [u8]) -> Result<Node<'a>, TextFault>
        ensures { Gives text_cause (λ n. node_view n) result (read_text bytes.now) }
    {
        let (node, _quoted) = self.read_and_count(alloc, bytes)?;
        Ok(node)
    }

    /// Reads a text as `read` does, and counts its numbers that aren't plain.
    ///
    /// # Errors
    ///
    /// Those of `read`.
    pub fn read_and_count<'a>(
        &'a mut self,
        alloc: Global,
        bytes: &'a [u8],
    ) -> Result<(Node<'a>, u64), TextFault>
        ensures tree { Gives text_cause (λ r. node_view r.0) result (read_text bytes.now) }
        ensures quoted { IfOk result (λ r. r.1 ≡ quoted_count bytes.now) }
    {
        let NodeBuffer { scratch, tree } = self;
        read_over(alloc, scratch, tree, bytes)
    }
}

/// Reads a text into a tree that borrows from the text, the scratch and, where the text is unusual,
/// from `tree`.
fn read_over<'a>(
    alloc: Global,
    scratch: &'a mut Scratch<Global>,
    tree: &'a mut Tree,
    bytes: &'a [u8],
) -> Result<(Node<'a>, u64), TextFault>
    ensures tree { Gives text_cause (λ r. node_view r.0) result (read_text bytes.now) }
    ensures quoted { IfOk result (λ r. r.1 ≡ quoted_count bytes.now) }
{
    match read_direct(alloc, { scratch }, bytes) {
        Ok(read) => Ok(read),
        Err(DirectFault::NoMemory) => Err(TextFault::NoMemory),
        Err(DirectFault::Unusual) => {
            let (read, quoted) = mds_text::read_and_count(alloc, bytes)?;
            *tree = read;
            Ok((lend(alloc, tree)?, quoted))
        }
    }
}

/// A scratch buffer for many texts, so that a short text needs no new index of 16 KiB.
#[derive(Drop)]
pub struct ReusableScratch {
    scratch: Option<Box<Scratch<Global>>>,
}

impl ReusableScratch {
    /// The most bytes of a text for which the buffer should be reused: a longer one would leave as
    /// much allocated.
    pub const MOST_BYTES: usize = 4_096;

    /// Without a buffer yet. Allocates nothing.
    pub fn new() -> ReusableScratch {
        ReusableScratch { scratch: None }
    }

    /// The buffer, allocated by the first call.
    ///
    /// # Errors
    ///
    /// Out of memory.
    fn scratch(&mut self, alloc: Global) -> Result<&mut Scratch<Global>, AllocError> {
        if self.scratch.is_none() {
            self.scratch = Some(Box::new(alloc, Scratch::new(alloc))?);
        }
        match &mut self.scratch {
            Some(scratch) => Ok(&mut **scratch),
            None => Err(AllocError),
        }
    }

    /// Reads a text as `NodeBuffer::read_and_count` does, into a tree that borrows from the buffer and,
    /// where the text is unusual, from `tree`.
    ///
    /// # Errors
    ///
    /// Those of `NodeBuffer::read`.
    pub fn read_and_count<'a>(
        &'a mut self,
        alloc: Global,
        tree: &'a mut Tree,
        bytes: &'a [u8],
    ) -> Result<(Node<'a>, u64), TextFault>
        ensures tree { Gives text_cause (λ r. node_view r.0) result (read_text bytes.now) }
        ensures quoted { IfOk result (λ r. r.1 ≡ quoted_count bytes.now) }
    {
        let scratch = self.scratch(alloc)?;
        read_over(alloc, scratch, tree, bytes)
    }
}
