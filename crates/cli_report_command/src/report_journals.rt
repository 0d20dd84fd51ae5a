//! The journals of a report: they are read once, and their entries lie in the bytes that were read.

use crate::report_samples::ReportJournal;
use cli_host::FileHost;
use cli_journal::ExitCause;
use journal_entry::JournalEntry;
use journal_folder::{journal_bytes, lent_entries_in, startable_texts, suits};
use mds_request::Config;
use std::alloc::{AllocError, Global};
use std::cmp::Reverse;

/// Adds something behind others.
fn add<T: Drop>(all: &mut Vec<T>, next: T) -> Result<(), AllocError> {
    all.push(next)?;
    Ok(())
}

/// The bytes of the journals of these folders.
///
/// # Errors
///
/// `ReportFolder` with the first whose journal can't be read, `NoMemory`.
pub fn read_journals<R: FileHost>(rt: &R, folders: &[String]) -> Result<Vec<Vec<u8>>, ExitCause> {
    let mut all = Vec::with_capacity(rt.alloc(), folders.len())?;
    for (number, folder) in folders.iter().enumerate() {
        match journal_bytes(rt, rt.alloc(), folder.as_str()) {
            Ok(bytes) => add(&mut all, bytes)?,
            Err(fault) => return Err(ExitCause::ReportFolder(number, fault)),
        }
    }
    Ok(all)
}

/// The entries of a journal that a configuration fits.
///
/// # Errors
///
/// `Folder` where the bytes are damaged, or no journal of this configuration; `NoMemory`.
fn entries_of<'a>(
    alloc: Global,
    config: &Config,
    bytes: &'a [u8],
) -> Result<Vec<JournalEntry<'a>>, ExitCause> {
    let texts = startable_texts(alloc, bytes)?;
    let Some((head, rest)) = texts.split_first() else {
        return Ok(Vec::new(alloc));
    };
    suits(alloc, config, head, &[])?;
    Ok(lent_entries_in(alloc, 1, rest)?)
}

/// The fault of a journal, with the number of its folder.
fn fault_at(folder: usize, ending: ExitCause) -> ExitCause {
    match ending {
        ExitCause::Folder(fault) => ExitCause::ReportFolder(folder, fault),
        other => other,
    }
}

/// The journals of a report by their bytes, in the order of their latest entries: of two with one latest moment, as of
/// a journal that was thinned and what it was before, the one with more entries comes first, since it tells of more.
///
/// # Errors
///
/// `ReportFolder` with the first that is damaged, isn't one of this configuration or has a record which is no entry;
/// `NoMemory`.
pub fn journals_in<'a>(
    alloc: Global,
    config: &Config,
    all: &'a [Vec<u8>],
) -> Result<Vec<ReportJournal<'a>>, ExitCause> {
    let mut journals = Vec::with_capacity(alloc, all.len())?;
    for (folder, bytes) in all.iter().enumerate() {
        match entries_of(alloc, config, bytes) {
            Ok(entries) => add(&mut journals, ReportJournal { folder, entries })?,
            Err(ending) => return Err(fault_at(folder, ending)),
        }
    }
    journals.sort_by_key(|journal| (journal.latest(), Reverse(journal.entries.len())))?;
    Ok(journals)
}
