//! Compaction of a journal to a new log, and the comparison of the servers of both.
ghost use Rattle.std.specs.Prelude.{◌≡◌, [], map, Ok, IfOk, OnOk};
ghost use Rattle.std.specs.List.{AllByRecursion};
ghost use Rattle.mds_request.specs.Configuration.{configuration, read_configuration};
ghost use Rattle.journal_entry.specs.Entries.{IsEntry, entry_of};
ghost use Rattle.mds_snapshot.specs.Opening.{book_of};
ghost use Rattle.journal_compaction.specs.Replies.{AreReplies};
ghost use Rattle.journal_compaction.specs.Compaction.{IsThinned, IsJournal, AreAlike};

use crate::compacting::compact_entries;
use crate::comparing::are_same;
use crate::fault::CompactFault;
use crate::questions::questions;
use crate::replies::{QuestionFault, ServerOpening, replies};
use crate::writing::write_synced;
use journal_entry::JournalEntry;
use journal_file::Log;
use journal_folder::{Damage, FolderFault, entries_in, suits};
use mds_desk::SharedReply;
use mds_request::Config;
use mds_snapshot::{Blank, OpeningName};
use mds_text::Moment;
use std::alloc::Global;
use std::sync::Wait;

/// A journal that is to be compacted.
#[derive(Clone, Copy)]
pub struct SourceJournal<'a> {
    /// The text of the configuration, as `mds_request::Config::read` reads it.
    pub config: &'a [u8],
    /// The payloads of the journal's records, the head first.
    pub texts: &'a [Vec<u8>],
    /// The moment at which the servers are asked.
    pub at: Moment,
}

/// How many entries a journal had, and how many the compacted one has.
#[derive(Clone, Copy, Debug, PartialEq, Eq)]
pub struct Counts {
    /// Of the journal.
    pub before: usize,
    /// Of the compacted one.
    pub after: usize,
}

/// The configuration and the questions for both servers.
#[derive(Clone, Copy)]
struct ServerQuestions<'a> {
    config: &'a Config,
    /// The text of the configuration.
    text: &'a [u8],
    questions: &'a [JournalEntry<'a>],
}

/// The configuration of a text.
fn config_of(alloc: Global, text: &[u8]) -> Result<Config, CompactFault>
    ensures { IfOk result (λ config. read_configuration text.now ≡ Ok (configuration config)) }
{
    match Config::read(alloc, text) {
        Ok(config) => Ok(config),
        Err(fault) => Err(CompactFault::from(fault)),
    }
}

/// The head and the entries of a journal's payloads.
fn parts<'a>(
    alloc: Global,
    texts: &'a [Vec<u8>],
) -> Result<(&'a [u8], Vec<JournalEntry<'a>>), CompactFault>
    ensures journal { IfOk result (λ r. IsJournal (map (λ t. t.items) texts.now) r.0.now (map entry_of r.1.items)) }
    ensures each { IfOk result (λ r. AllByRecursion IsEntry (map entry_of r.1.items)) }
{
    let Some((head, rest)) = texts.split_first() else {
        return Err(CompactFault::Folder(FolderFault::Damaged(Damage::NoHead)));
    };
    match entries_in(alloc, 1, rest) {
        Ok(entries) => Ok((head.as_slice(), entries)),
        Err(fault) => Err(CompactFault::from(fault)),
    }
}

/// The answers of a server that is started from entries.
fn replies_of<K: OpeningName, R: Wait>(
    rt: &R,
    alloc: Global,
    asking: &ServerQuestions<'_>,
    blank: Blank,
    entries: &[JournalEntry<'_>],
) -> Result<Vec<SharedReply>, QuestionFault>
    requires named { book_of blank ≡ K.book }
    requires read { read_configuration asking.now.text.now ≡ Ok (configuration asking.now.config.now) }
    ensures { IfOk result (λ replies. AreReplies (configuration asking.now.config.now) (map entry_of entries.now)
        (map entry_of asking.now.questions.now) replies.items) }
{
    let config = match config_of(alloc, asking.text) {
        Ok(config) => config,
        Err(fault) => return Err(QuestionFault::Untold(fault)),
    };
    let opening = ServerOpening { config, blank };
    replies::<K, R>(rt, alloc, asking.config, opening, entries, asking.questions)
}

/// Why the server of the old journal gave no replies.
fn old_fault(fault: QuestionFault) -> CompactFault {
    match fault {
        QuestionFault::Refused(fault) => CompactFault::OldRefused(fault),
        QuestionFault::Untold(fault) => fault,
    }
}

/// Why the server of the compacted journal gave no replies.
fn new_fault(fault: QuestionFault) -> CompactFault {
    match fault {
        QuestionFault::Refused(fault) => CompactFault::NewRefused(fault),
        QuestionFault::Untold(fault) => fault,
    }
}

/// Compares the answers of a server that is started from the entries with those of one that is started from the
/// payloads of the compacted journal.
fn are_alike<K: OpeningName, O: OpeningName, R: Wait>(
    rt: &R,
    alloc: Global,
    asking: &ServerQuestions<'_>,
    blanks: (Blank, Blank),
    entries: &[JournalEntry<'_>],
    texts: &[Vec<u8>],
) -> Result<(), CompactFault>
    requires one { book_of blanks.0 ≡ K.book }
    requires other { book_of blanks.1 ≡ O.book }
    requires read { read_configuration asking.now.text.now ≡ Ok (configuration asking.now.config.now) }
    ensures { OnOk result (AreAlike (configuration asking.now.config.now) (map entry_of entries.now) (map (λ t. t.items) texts.now)
        (map entry_of asking.now.questions.now)) }
{
    let (one, other) = blanks;
    let before = match replies_of::<K, R>(rt, alloc, asking, one, entries) {
        Ok(replies) => replies,
        Err(fault) => return Err(old_fault(fault)),
    };
    let (_, back) = match parts(alloc, texts) {
        Ok(found) => found,
        Err(fault) => return Err(fault),
    };
    let after = match replies_of::<O, R>(rt, alloc, asking, other, &back) {
        Ok(replies) => replies,
        Err(fault) => return Err(new_fault(fault)),
    };
    if are_same(&before, &after) {
        Ok(())
    } else {
        Err(CompactFault::Differs)
    }
}

/// Writes the compacted journal of an old one to a new log, which is empty, reads it back and compares it with what was
/// written, syncs it, starts a server from each of the two, and compares their answers: to the author for the policies, the geographies and each draft
/// that an entry put, and to each operator for its vehicles, byte for byte.
///
/// The blanks are of one opening each, which K and O name.
///
/// # Errors
///
/// `Configuration` where the configuration's text is none, `Folder` where the old payloads are no journal, or one that
/// the configuration doesn't fit; `OldRefused` and `NewRefused` where no server starts from a journal, `NotWritten`
/// where the new log fails, `Differs` where the two servers' answers differ, `NoMemory`. The new log is of no use then.
pub fn compact<K: OpeningName, O: OpeningName, L: Log, R: Wait>(
    rt: &R,
    alloc: Global,
    old: &SourceJournal<'_>,
    log: &mut L,
    blanks: (Blank, Blank),
) -> Result<Counts, CompactFault>
    requires empty { L.may_be log.old [] }
    requires one { book_of blanks.0 ≡ K.book }
    requires other { book_of blanks.1 ≡ O.book }
    ensures thinned { IfOk result (λ counts. IsThinned (L.may_be log.new) old.now.config.now old.now.at
        (map (λ t. t.items) old.now.texts.now) counts) }
    ensures synced { OnOk result (L.is_synced log.new) }
{
    let config = match config_of(alloc, old.config) {
        Ok(config) => config,
        Err(fault) => return Err(fault),
    };
    let (head, entries) = match parts(alloc, old.texts) {
        Ok(found) => found,
        Err(fault) => return Err(fault),
    };
    suits(alloc, &config, head, &[])?;
    let kept = compact_entries(alloc, &config, &entries)?;
    let texts = write_synced(alloc, log, head, &kept)?;
    let questions = questions(alloc, &config, &entries, old.at)?;
    let asking = ServerQuestions {
        config: &config,
        text: old.config,
        questions: &questions,
    };
    are_alike::<K, O, R>(rt, alloc, &asking, blanks, &entries, &texts)?;
    Ok(Counts {
        before: entries.len(),
        after: kept.len(),
    })
}
