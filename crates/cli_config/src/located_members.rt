//! The members of a configuration and of its operators, and their positions.
ghost use Rattle.std.specs.Prelude.{◌≡◌, ◌+◌, ◌<◌, ◌≤◌, length, IfOk, string_bytes};
ghost use Rattle.cli_config.specs.LocatedMembers.{has_name, seen};
ghost use Rattle.cli_config.specs.Pieces.{piece, unquoted};

use crate::lexemes::LexemeKind;
use mds_text::{TextFault, Tree, read_tree};
use std::alloc::{AllocError, Global};

/// The object that a member belongs to.
#[derive(Clone, Copy, Debug, PartialEq, Eq)]
pub(crate) enum MemberOwner {
    /// The configuration itself.
    Document,
    /// The operator at this place.
    Operator(usize),
}

/// A value: the offset of its first lexeme, that of the next lexeme (or of the text's end), and the kind of its first
/// lexeme.
#[derive(Clone, Copy, Debug, PartialEq, Eq)]
pub(crate) struct Value {
    pub(crate) from: usize,
    pub(crate) to: usize,
    pub(crate) sign: LexemeKind,
}

/// A member, or an operator, which has no name.
#[derive(Drop)]
pub(crate) struct LocatedMember {
    pub(crate) owner: MemberOwner,
    pub(crate) name: Option<String>,
    /// The offset of its name, or of an operator's value.
    pub(crate) at: usize,
    pub(crate) value: Value,
}

/// Whether a member has this name.
pub(crate) fn has_name(name: &str, spot: &LocatedMember) -> bool
    ensures { result ≡ has_name name.now (seen spot.now).name }
{
    match &spot.name {
        Some(own) => name == own.as_str(),
        None => false,
    }
}

/// The bytes between two offsets; none where these aren't two offsets of the text, in order.
pub(crate) fn piece(text: &[u8], from: usize, to: usize) -> &[u8]
    ensures value { result.now ≡ piece text.now from to }
    ensures within { 0 < length result.now → from + length result.now ≤ length text.now }
{
    if from <= to && to <= text.len() {
        &text[from..to]
    } else {
        &[]
    }
}

/// The text of a string with its escapes resolved; empty for anything else.
///
/// # Errors
///
/// Out of memory.
pub(crate) fn string_text(alloc: Global, written: &[u8]) -> Result<String, AllocError>
    ensures { IfOk result (λ s. string_bytes s ≡ unquoted written.now) }
{
    match read_tree(alloc, written) {
        Ok(Tree::Text(text)) => Ok(text),
        Err(TextFault::NoMemory) => Err(AllocError),
        _ => Ok(String::new(alloc)),
    }
}
