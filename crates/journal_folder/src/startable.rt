//! What a server could start from: the payloads of a journal's bytes, and the entries behind its head.
ghost use Rattle.std.specs.Prelude.{◌≡◌, IfOk, map};
ghost use Rattle.journal_entry.specs.Entries.{entry_of};
ghost use Rattle.journal_folder.specs.Startable.{ArePayloads, HasEntries};

use crate::fault::FolderFault;
use crate::journal::lent_entries_in;
use crate::survey::{LentSurvey, damage_of, lent_survey_of};
use journal_entry::{JournalEntry, read_head};
use std::alloc::Global;

/// The payloads of a journal's bytes, where a server could start from them: behind the last whole record stands at most
/// what a kill of the program leaves, or what nothing explains.
///
/// # Errors
///
/// `Damaged`, `NoMemory`.
pub fn startable_texts(alloc: Global, bytes: &[u8]) -> Result<Vec<&[u8]>, FolderFault>
    ensures { IfOk result (λ texts. ArePayloads bytes.now (map (λ t. t.now) texts.items)) }
{
    let LentSurvey {
        texts,
        whole,
        ending,
    } = lent_survey_of(alloc, bytes)?;
    match damage_of(whole, ending) {
        Some(damage) if !ending.is_opened() => Err(FolderFault::Damaged(damage)),
        _ => Ok(texts),
    }
}

/// The entries of a journal's bytes, where a server could start from them, whatever operators its head names.
///
/// # Errors
///
/// `Damaged`, also where the first payload is no head of a known version or another one is no entry of one; `NoMemory`.
pub fn startable_entries(alloc: Global, bytes: &[u8]) -> Result<Vec<JournalEntry<'_>>, FolderFault>
    ensures { IfOk result (λ entries. HasEntries bytes.now (map entry_of entries.items)) }
{
    let texts = startable_texts(alloc, bytes)?;
    let Some((head, rest)) = texts.split_first() else {
        return Ok(Vec::new(alloc));
    };
    read_head(alloc, head)?;
    lent_entries_in(alloc, 1, rest)
}
