//! Encoders of single fields, of which entries and heads are made.
ghost use Rattle.std.specs.Prelude.{◌≡◌, ◌++◌, OnOk};
ghost use Rattle.journal_entry.specs.Entries.{moment_text, size_text, id_text, client_text, verb_code};

use crate::entry::EntryClient;
use mds_request::Verb;
use mds_text::{Id, Moment};
use std::alloc::{AllocError, Global};

/// The byte that stands for the author.
pub const BY_AUTHOR: u8 = 0;
/// The byte before an operator's identifier.
pub const BY_OPERATOR: u8 = 1;

/// The byte of a method.
pub(crate) fn verb_code(verb: Verb) -> u8
    ensures { result ≡ verb_code verb }
{
    match verb {
        Verb::Get => 1,
        Verb::Put => 2,
        Verb::Post => 3,
        Verb::Delete => 4,
        Verb::Other => 5,
    }
}

/// Appends a moment's milliseconds, in eight bytes.
#[tactic(auto, unfolding(crate::specs::Entries::moment_text))]
pub(crate) fn push_moment(text: &mut Vec<u8>, at: Moment) -> Result<(), AllocError>
    ensures { OnOk result (text.new.items ≡ text.old.items ++ moment_text at) }
{
    text.extend_from_slice(&(at.get() as u64).to_be_bytes())
}

/// Appends a length, in four bytes.
#[tactic(auto, unfolding(crate::specs::Entries::size_text))]
pub(crate) fn push_size(text: &mut Vec<u8>, size: u32) -> Result<(), AllocError>
    ensures { OnOk result (text.new.items ≡ text.old.items ++ size_text size) }
{
    text.extend_from_slice(&size.to_be_bytes())
}

/// Appends an identifier's 36 characters.
#[tactic(auto, unfolding(crate::specs::Entries::id_text))]
pub(crate) fn push_id(alloc: Global, text: &mut Vec<u8>, id: Id) -> Result<(), AllocError>
    ensures { OnOk result (text.new.items ≡ text.old.items ++ id_text id) }
{
    let printed = id.print(alloc)?;
    text.extend_from_slice(printed.as_bytes())
}

/// Appends the client.
pub(crate) fn push_client(
    alloc: Global,
    text: &mut Vec<u8>,
    client: EntryClient,
) -> Result<(), AllocError>
    ensures { OnOk result (text.new.items ≡ text.old.items ++ client_text client) }
{
    match client {
        EntryClient::Author => {
            text.push(BY_AUTHOR)?;
            Ok(())
        }
        EntryClient::Operator(id) => {
            text.push(BY_OPERATOR)?;
            push_id(alloc, text, id)
        }
    }
}
