//! Which entries of a journal are replayed, and which are extracted.
ghost use Rattle.std.specs.Prelude.{◌≡◌, ◌≤◌, ◌++◌, ◌∷◌, [], length, map, take, IfOk, OnOk, bytes_eq};
ghost use Rattle.journal_entry.specs.Entries.{entry_of};
ghost use Rattle.journal_folder.specs.Choosing.{is_dropped, asks_dropped, without, concerns, is_later, in_time, told};

use journal_entry::{EntryClient, JournalEntry};
use mds_text::{Id, Moment};
use std::alloc::{AllocError, Global};

/// Which entries of a journal are extracted.
#[derive(Clone, Copy)]
pub struct Extract {
    /// Only the entries before the first that is later; none for all.
    pub until: Option<Moment>,
    /// Only the author's entries and this operator's; none for everyone's.
    pub operator: Option<Id>,
}

/// Whether two identifiers are the same.
fn is_same(id: Id, other: Id) -> bool
    ensures { result ≡ bytes_eq id other }
{
    id == other
}

/// Whether an operator is one of those that are left out.
pub(crate) fn is_dropped(dropped: &[Id], id: Id) -> bool
    ensures { result ≡ is_dropped dropped.now id }
{
    for other in dropped {
        if is_same(id, *other) {
            return true;
        }
    }
    false
}

/// Whether the client is left out.
fn is_client_dropped(dropped: &[Id], client: EntryClient) -> bool
    ensures { result ≡ asks_dropped dropped.now client }
{
    match client {
        EntryClient::Author => false,
        EntryClient::Operator(id) => is_dropped(dropped, id),
    }
}

/// A copy of an entry.
fn copy_of<'a>(entry: &JournalEntry<'a>) -> JournalEntry<'a>
    ensures { entry_of result ≡ entry_of entry.now }
{
    JournalEntry {
        client: entry.client,
        at: entry.at,
        verb: entry.verb,
        target: entry.target,
        body: entry.body,
    }
}

/// Appends a copy of an entry.
fn push_copy<'a>(
    kept: &mut Vec<JournalEntry<'a>>,
    entry: &JournalEntry<'a>,
) -> Result<(), AllocError>
    ensures { OnOk result (map entry_of kept.new.items ≡ map entry_of kept.old.items ++ entry_of entry.now ∷ []) }
{
    match kept.push(copy_of(entry)) {
        Ok(()) => Ok(()),
        Err(_) => Err(AllocError),
    }
}

/// The entries of all but these operators, in their order.
///
/// # Errors
///
/// Out of memory.
pub fn without_operators<'a>(
    alloc: Global,
    entries: &[JournalEntry<'a>],
    dropped: &[Id],
) -> Result<Vec<JournalEntry<'a>>, AllocError>
    ensures { IfOk result (λ kept. map entry_of kept.items ≡ without dropped.now (map entry_of entries.now)) }
{
    let mut kept = Vec::new(alloc);
    for entry in entries {
        if !is_client_dropped(dropped, entry.client) {
            push_copy(&mut kept, entry)?;
        }
    }
    Ok(kept)
}

/// Whether the client is the author, or the operator that is asked for, or any where none is.
fn concerns(extract: &Extract, client: EntryClient) -> bool
    ensures { result ≡ concerns extract.now.operator client }
{
    match (extract.operator, client) {
        (Some(operator), EntryClient::Operator(id)) => is_same(id, operator),
        _ => true,
    }
}

/// Whether an entry is later than the last moment that is asked for, if one is.
fn is_later(extract: &Extract, at: Moment) -> bool
    ensures { result ≡ is_later extract.now.until at }
{
    match extract.until {
        Some(last) => at > last,
        None => false,
    }
}

/// How many entries stand before the first that is later.
fn count_in_time(entries: &[JournalEntry<'_>], extract: &Extract) -> usize
    ensures within { result ≤ length entries.now }
    ensures front { map entry_of (take result entries.now) ≡ in_time extract.now.until (map entry_of entries.now) }
{
    for (count, entry) in entries.iter().enumerate() {
        if is_later(extract, entry.at) {
            return count;
        }
    }
    entries.len()
}

/// The entries that are extracted, in their order.
///
/// # Errors
///
/// Out of memory.
pub fn extract_entries<'a>(
    alloc: Global,
    entries: &[JournalEntry<'a>],
    extract: &Extract,
) -> Result<Vec<JournalEntry<'a>>, AllocError>
    ensures { IfOk result (λ kept. map entry_of kept.items ≡ told extract.now.until extract.now.operator (map entry_of entries.now)) }
{
    let early = &entries[..count_in_time(entries, extract)];
    let mut kept = Vec::new(alloc);
    for entry in early {
        if concerns(extract, entry.client) {
            push_copy(&mut kept, entry)?;
        }
    }
    Ok(kept)
}
