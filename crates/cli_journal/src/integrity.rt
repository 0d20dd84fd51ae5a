//! Checks a folder's journal, without locking or changing it.
ghost use Rattle.std.specs.Prelude.{◌≡◌, IsTrue, false, Ok};
ghost use Rattle.journal_file.specs.Endings.{is_opened};
ghost use Rattle.journal_folder.specs.Damages.{damage_of};
ghost use Rattle.cli_journal.specs.Checks.{end_of, refused_for};

use crate::exit_cause::ExitCause;
use crate::host::ReadHost;
use crate::script::behind_head;
use journal_entry::read_head;
use journal_file::JournalEnding as Ends;
use journal_folder::{FolderFault, Survey, damage_of, entries_in, journal_bytes, survey_of};
use std::alloc::Global;
use std::mem::drop;

/// The end of a journal, in words.
fn end_of(ending: Ends) -> &'static str
    ensures { result.now ≡ end_of ending }
{
    match ending {
        Ends::Whole => "whole",
        Ends::Torn => {
            "torn: these begin a record, which a kill leaves, or a server at work; serve and thin keep them in journal.cut and cut them off"
        }
        Ends::Unexplained => {
            "unexplained: no kill leaves these, a loss of power may; serve and thin keep them in journal.cut and cut them off"
        }
        Ends::Foreign(_) => "no journal",
        Ends::Moved(_) | Ends::Damaged(_) => "damaged",
    }
}

/// Whether a journal that ends so, behind this many whole bytes, is one that was written and perhaps cut short by a
/// kill.
///
/// # Errors
///
/// `Folder` with what is wrong.
fn check_intact(whole: u64, ending: Ends) -> Result<(), ExitCause>
    ensures { result ≡ refused_for (damage_of whole ending) }
{
    match damage_of(whole, ending) {
        None => Ok(()),
        Some(damage) => Err(ExitCause::Folder(FolderFault::Damaged(damage))),
    }
}

/// Whether a server can start from a journal that ends so, behind this many whole bytes.
///
/// # Errors
///
/// `Folder` with what is wrong.
pub fn check_startable(whole: u64, ending: Ends) -> Result<(), ExitCause>
    ensures started { IsTrue (is_opened ending) → result ≡ Ok tt }
    ensures refused { is_opened ending ≡ false → result ≡ refused_for (damage_of whole ending) }
{
    if ending.is_opened() {
        return Ok(());
    }
    check_intact(whole, ending)
}

/// Whether a payload is a journal's head.
///
/// # Errors
///
/// `Folder` where it isn't one of a known version, `NoMemory`.
fn check_head(alloc: Global, text: &[u8]) -> Result<(), ExitCause> {
    match read_head(alloc, text) {
        Ok(_) => Ok(()),
        Err(fault) => Err(ExitCause::Folder(FolderFault::from(fault))),
    }
}

/// Whether payloads are a head and entries, or none at all.
///
/// # Errors
///
/// `Folder` with the first payload that isn't one of a known version, `NoMemory`.
fn check_readable(alloc: Global, texts: &[Vec<u8>]) -> Result<(), ExitCause> {
    let Some(head) = texts.first() else {
        return Ok(());
    };
    check_head(alloc, head)?;
    let entries = match entries_in(alloc, 1, behind_head(texts)) {
        Ok(entries) => entries,
        Err(fault) => return Err(ExitCause::Folder(fault)),
    };
    drop(entries);
    Ok(())
}

/// Prints how many records and bytes the journal at a path has, a folder's or a file itself, and how it ends. Nothing is
/// locked or changed.
///
/// # Errors
///
/// `Folder` where the journal can't be read, or where it is damaged, no journal, of another version, or followed by
/// bytes that nothing explains; `NoMemory`. `NotPrinted` where nothing is wrong with it.
pub fn check<R: ReadHost>(rt: &R, path: &str) -> Result<(), ExitCause> {
    let bytes = journal_bytes(rt, rt.alloc(), path)?;
    let Survey {
        texts,
        whole,
        ending,
    } = survey_of(rt.alloc(), &bytes)?;
    let records = texts.len();
    let behind = (bytes.len() as u64).saturating_sub(whole);
    let printed = println!(rt;
        "{records} records, {whole} bytes, {behind} behind them, {}",
        end_of(ending)
    );
    check_intact(whole, ending)?;
    check_readable(rt.alloc(), &texts)?;
    match printed {
        Ok(()) => Ok(()),
        Err(_) => Err(ExitCause::NotPrinted),
    }
}
