//! The latest moment of a journal's entries.
ghost use Rattle.std.specs.Prelude.{◌≡◌, Some, map, IfOk};
ghost use Rattle.journal_entry.specs.Entries.{entry_of};
ghost use Rattle.journal_folder.specs.Latest.{later_of, latest, IsLatestOf, IsLatest};

use crate::archive::ArchiveFault;
use crate::fault::FolderFault;
use crate::journal::lent_entries_in;
use crate::survey::lent_survey_of;
use journal_entry::JournalEntry;
use mds_text::Moment;
use std::alloc::Global;

/// The later one of two moments, where there may be none yet.
fn later_of(last: &Option<Moment>, at: Moment) -> Moment
    ensures { Some result ≡ later_of last.now at }
{
    match last {
        Some(last) if *last > at => *last,
        _ => at,
    }
}

/// The latest moment of a journal's entries; `None` where there are none.
pub fn latest_moment(entries: &[JournalEntry<'_>]) -> Option<Moment>
    ensures { result ≡ latest (map entry_of entries.now) }
{
    let mut last = None;
    for entry in entries {
        last = Some(later_of(&last, entry.at));
    }
    last
}

/// The latest moment of the entries behind the first of a journal's payloads, its head.
///
/// # Errors
///
/// `Damaged` where one is no entry of a known version, `NoMemory`.
fn latest_in(alloc: Global, texts: &[&[u8]]) -> Result<Option<Moment>, ArchiveFault>
    ensures { IfOk result (λ at. IsLatestOf (map (λ t. t.now) texts.now) at) }
{
    let Some((_, rest)) = texts.split_first() else {
        return Ok(None);
    };
    match lent_entries_in(alloc, 1, rest) {
        Ok(entries) => Ok(latest_moment(&entries)),
        Err(FolderFault::NoMemory) => Err(ArchiveFault::NoMemory),
        Err(_) => Err(ArchiveFault::Damaged),
    }
}

/// The latest moment of the entries of the journal of these bytes; `None` where it has none.
///
/// # Errors
///
/// `Damaged` where the bytes aren't whole records to their end, or one behind the head is no entry of a known version;
/// `NoMemory`.
pub fn journal_latest(alloc: Global, bytes: &[u8]) -> Result<Option<Moment>, ArchiveFault>
    ensures { IfOk result (λ at. IsLatest bytes.now at) }
{
    let survey = lent_survey_of(alloc, bytes)?;
    if survey.whole != bytes.len() as u64 {
        return Err(ArchiveFault::Damaged);
    }
    latest_in(alloc, &survey.texts)
}
