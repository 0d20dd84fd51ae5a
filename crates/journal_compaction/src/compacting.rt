//! The entries of a compacted journal.
ghost use Rattle.std.specs.Prelude.{◌≡◌, [], ◌∷◌, ◌++◌, map, length, IfOk, OnOk, if◌then◌else◌};
ghost use Rattle.mds_request.specs.Configuration.{configuration};
ghost use Rattle.journal_entry.specs.Entries.{entry_of};
ghost use Rattle.journal_compaction.specs.Kinds.{kind_of};
ghost use Rattle.journal_compaction.specs.Staying.{staying, picked};
ghost use Rattle.journal_compaction.specs.Compacting.{thinned};

use crate::choosing::stay_marks;
use crate::kind::{EntryKind, kind_of};
use journal_entry::JournalEntry;
use mds_request::{Config, Routes};
use std::alloc::{AllocError, Global};

/// The kind of each entry.
fn kinds_of(
    alloc: Global,
    config: &Config,
    entries: &[JournalEntry<'_>],
) -> Result<Vec<EntryKind>, AllocError>
    ensures { IfOk result (λ kinds. kinds.items ≡ map (kind_of (configuration config.now)) (map entry_of entries.now)) }
{
    let routes = Routes::new(alloc)?;
    let mut kinds = Vec::new(alloc);
    for entry in entries {
        kinds.push(kind_of(alloc, &routes, config, entry)?)?;
    }
    Ok(kinds)
}

/// The same entry.
fn copy_entry<'a>(entry: &JournalEntry<'a>) -> JournalEntry<'a>
    ensures { entry_of result ≡ entry_of entry.now }
{
    JournalEntry {
        client: entry.client,
        at: entry.at,
        verb: entry.verb,
        target: entry.target,
        body: entry.body,
    }
}

/// Adds an entry where it is marked.
fn keep<'a>(
    kept: &mut Vec<JournalEntry<'a>>,
    entry: &JournalEntry<'a>,
    mark: bool,
) -> Result<(), AllocError>
    ensures { OnOk result (map entry_of kept.new.items ≡ map entry_of kept.old.items ++ (if mark then entry_of entry.now ∷ [] else [])) }
{
    if !mark {
        return Ok(());
    }
    match kept.push(copy_entry(entry)) {
        Ok(()) => Ok(()),
        Err(_) => Err(AllocError),
    }
}

/// The entries that are marked, in their order.
fn marked_entries<'a>(
    alloc: Global,
    entries: &[JournalEntry<'a>],
    marks: &[bool],
) -> Result<Vec<JournalEntry<'a>>, AllocError>
    requires { length marks.now ≡ length entries.now }
    ensures { IfOk result (λ kept. map entry_of kept.items ≡ picked marks.now (map entry_of entries.now)) }
{
    let mut kept = Vec::new(alloc);
    for place in 0..entries.len() {
        keep(&mut kept, &entries[place], marks[place])?;
    }
    Ok(kept)
}

/// The entries of a journal that compaction keeps, in their order: of each device of an operator, since it was last
/// removed, its last report and the one that began the run of that one's state; and whatever is no report and no
/// removal of a device, as all of the author's. Replayed, they lead to the same drafts, publications and rows
/// (`crate::laws::thinned_journal_leads_back`).
///
/// The time for each entry grows with the logarithm of the number of devices.
///
/// # Errors
///
/// Out of memory.
pub fn compact_entries<'a>(
    alloc: Global,
    config: &Config,
    entries: &[JournalEntry<'a>],
) -> Result<Vec<JournalEntry<'a>>, AllocError>
    ensures { IfOk result (λ kept. map entry_of kept.items ≡ thinned (configuration config.now) (map entry_of entries.now)) }
{
    let kinds = kinds_of(alloc, config, entries)?;
    let marks = stay_marks(alloc, &kinds)?;
    marked_entries(alloc, entries, &marks)
}
