//! Journal entries: an accepted request with its client, and its payload.
ghost use Rattle.std.specs.Prelude.{◌≡◌, ◌↔◌, ◌≤◌, length, true, IfOk, IsErrOf, IsTrue};
ghost use Rattle.journal_entry.specs.Entries.{IsShort, entry_of, entry_text};

use crate::encoding::{push_client, push_moment, push_size, verb_code};
use mds_request::{MOST_BODY, Verb};
use mds_text::{Id, Moment};
use std::alloc::{AllocError, Global};

/// The first byte of an entry's payload: the layout's version.
pub const ENTRY: u8 = 1;

/// The most bytes of an entry's target.
pub const MOST_TARGET: usize = 65_536;

/// The client. An operator is named by its identifier, so that no payload has an access token.
#[derive(Clone, Copy, PartialEq, Eq)]
pub enum EntryClient {
    /// The author of policies and geographies.
    Author,
    /// The operator of this identifier.
    Operator(Id),
}

/// An accepted request, with its client in place of the access token.
#[derive(Clone, Copy)]
pub struct JournalEntry<'a> {
    pub client: EntryClient,
    /// The moment at which it was answered.
    pub at: Moment,
    pub verb: Verb,
    /// The path, with a query after the first `?`.
    pub target: &'a [u8],
    pub body: &'a [u8],
}

/// Why no payload was written.
#[derive(Clone, Copy, Debug, PartialEq, Eq)]
pub enum WriteFault {
    /// The target or the body is over its limit.
    TooLong,
    /// Out of memory.
    NoMemory,
}

impl From<AllocError> for WriteFault {
    ghost use Rattle.std.specs.Prelude.{◌≡◌};
    ghost use Rattle.journal_entry.specs.declared.entry.WriteFault.TheVariants.{NoMemory};

    ghost from_gives = { λ _ fault. fault ≡ NoMemory };

    fn from(_: AllocError) -> WriteFault {
        WriteFault::NoMemory
    }
}

/// Whether an entry's target and body are within their limits.
pub fn is_short(entry: &JournalEntry<'_>) -> bool
    ensures { IsTrue result ↔ IsShort (entry_of entry.now) }
{
    entry.target.len() <= MOST_TARGET && entry.body.len() <= MOST_BODY
}

/// The payload of an entry whose target and body are within their limits.
fn text_of(alloc: Global, entry: &JournalEntry<'_>) -> Result<Vec<u8>, AllocError>
    requires { IsShort (entry_of entry.now) }
    ensures { IfOk result (λ text. text.items ≡ entry_text (entry_of entry.now)) }
{
    let mut text = Vec::new(alloc);
    text.push(ENTRY)?;
    push_moment(&mut text, entry.at)?;
    text.push(verb_code(entry.verb))?;
    push_client(alloc, &mut text, entry.client)?;
    push_size(&mut text, entry.target.len() as u32)?;
    text.extend_from_slice(entry.target)?;
    text.extend_from_slice(entry.body)?;
    Ok(text)
}

/// The payload of an entry, which `read_entry` decodes to this entry.
///
/// # Errors
///
/// `TooLong` where the target has more than [`MOST_TARGET`] bytes or the body more than `mds_request::MOST_BODY`;
/// `NoMemory` where out of memory.
pub fn entry_text(alloc: Global, entry: &JournalEntry<'_>) -> Result<Vec<u8>, WriteFault>
    ensures text { IfOk result (λ text. text.items ≡ entry_text (entry_of entry.now)) }
    ensures short { IfOk result (λ text. IsShort (entry_of entry.now)) }
    ensures too_long { IsErrOf result WriteFault.TooLong → IsShort (entry_of entry.now) → ⊥ }
{
    if !is_short(entry) {
        return Err(WriteFault::TooLong);
    }
    Ok(text_of(alloc, entry)?)
}
