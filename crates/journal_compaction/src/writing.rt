//! Writes a journal's entries to a new log.
ghost use Rattle.std.specs.Prelude.{◌≡◌, ◌↔◌, [], ◌∷◌, ◌++◌, List, ℕ, map, length, true, IsTrue, IfOk, OnOk};
ghost use Rattle.journal_entry.specs.Entries.{entry_of, entry_text};

use crate::fault::CompactFault;
use journal_entry::{JournalEntry, WriteFault, entry_text};
use journal_file::Log;
use std::alloc::{AllocError, Global};

/// The most entries that are appended at once.
const GROUP: usize = 256;

/// The payloads of entries.
fn texts_of(alloc: Global, entries: &[JournalEntry<'_>]) -> Result<Vec<Vec<u8>>, CompactFault>
    ensures { IfOk result (λ texts. map (λ t. t.items) texts.items ≡ map (λ e. entry_text (entry_of e)) entries.now) }
{
    let mut texts = Vec::new(alloc);
    for entry in entries {
        texts.push(entry_text(alloc, entry)?)?;
    }
    Ok(texts)
}

/// A list of one payload.
fn single_payload(alloc: Global, text: &[u8]) -> Result<Vec<Vec<u8>>, AllocError>
    ensures { IfOk result (λ group. map (λ t. t.items) group.items ≡ text.now ∷ []) }
{
    let mut group = Vec::new(alloc);
    group.push(Vec::from_slice(alloc, text)?)?;
    Ok(group)
}

/// Appends entries after so many records, and returns how many there are then.
fn append<L: Log>(
    alloc: Global,
    log: &mut L,
    count: u64,
    entries: &[JournalEntry<'_>],
) -> Result<u64, CompactFault>
    ensures { OnOk result ((list : List (List ℕ)) → L.may_be log.old list
        → L.may_be log.new (list ++ map (λ e. entry_text (entry_of e)) entries.now)) }
{
    let texts = texts_of(alloc, entries)?;
    Ok(log.append(count, &texts)?)
}

/// Appends all entries, in groups.
fn append_all<L: Log>(
    alloc: Global,
    log: &mut L,
    count: u64,
    entries: &[JournalEntry<'_>],
) -> Result<(), CompactFault>
    ensures { OnOk result ((list : List (List ℕ)) → L.may_be log.old list
        → L.may_be log.new (list ++ map (λ e. entry_text (entry_of e)) entries.now)) }
{
    let mut count = count;
    let mut start = 0;
    while start < entries.len() {
        let end = start.saturating_add(GROUP).min(entries.len());
        count = append(alloc, log, count, &entries[start..end])?;
        start = end;
    }
    Ok(())
}

/// Writes a head and entries to an empty log.
fn write<L: Log>(
    alloc: Global,
    log: &mut L,
    head: &[u8],
    entries: &[JournalEntry<'_>],
) -> Result<(), CompactFault>
    requires { L.may_be log.old [] }
    ensures { OnOk result (L.may_be log.new (head.now ∷ map (λ e. entry_text (entry_of e)) entries.now)) }
{
    let count = log.append(0, &single_payload(alloc, head)?)?;
    append_all(alloc, log, count, entries)
}

/// Whether a payload is that of an entry.
fn is_payload_of(alloc: Global, entry: &JournalEntry<'_>, text: &[u8]) -> Result<bool, WriteFault>
    ensures { IfOk result (λ is. IsTrue is ↔ (text.now ≡ entry_text (entry_of entry.now))) }
{
    let own = entry_text(alloc, entry)?;
    Ok(text == own.as_slice())
}

/// Whether payloads are those of entries, in their order.
fn are_payloads_of(
    alloc: Global,
    entries: &[JournalEntry<'_>],
    texts: &[Vec<u8>],
) -> Result<bool, WriteFault>
    ensures { IfOk result (λ are. are ≡ true → map (λ t. t.items) texts.now ≡ map (λ e. entry_text (entry_of e)) entries.now) }
{
    if texts.len() != entries.len() {
        return Ok(false);
    }
    for place in 0..entries.len() {
        if !is_payload_of(alloc, &entries[place], texts[place].as_slice())? {
            return Ok(false);
        }
    }
    Ok(true)
}

/// Whether payloads are a head and those of entries.
fn are_head_and_entries(
    alloc: Global,
    head: &[u8],
    entries: &[JournalEntry<'_>],
    texts: &[Vec<u8>],
) -> Result<bool, WriteFault>
    ensures { IfOk result (λ are. are ≡ true → map (λ t. t.items) texts.now ≡ head.now ∷ map (λ e. entry_text (entry_of e)) entries.now) }
{
    let Some((first, rest)) = texts.split_first() else {
        return Ok(false);
    };
    if first.as_slice() != head {
        return Ok(false);
    }
    are_payloads_of(alloc, entries, rest)
}

/// Writes a head and entries to an empty log, waits until they are synced, and returns the payloads that are read back
/// from the log, which are just these.
///
/// # Errors
///
/// `NotWritten` where an entry is too long for a record, the log fails or others are read back, `NoMemory`.
pub(crate) fn write_synced<L: Log>(
    alloc: Global,
    log: &mut L,
    head: &[u8],
    entries: &[JournalEntry<'_>],
) -> Result<Vec<Vec<u8>>, CompactFault>
    requires { L.may_be log.old [] }
    ensures written { OnOk result (L.may_be log.new (head.now ∷ map (λ e. entry_text (entry_of e)) entries.now)) }
    ensures back { IfOk result (λ texts. L.may_be log.new (map (λ t. t.items) texts.items)) }
    ensures same { IfOk result (λ texts. map (λ t. t.items) texts.items ≡ head.now ∷ map (λ e. entry_text (entry_of e)) entries.now) }
    ensures synced { OnOk result (L.is_synced log.new) }
{
    write(alloc, log, head, entries)?;
    let texts = log.read_from(0)?;
    if !are_head_and_entries(alloc, head, entries, &texts)? {
        return Err(CompactFault::NotWritten);
    }
    log.sync()?;
    Ok(texts)
}
