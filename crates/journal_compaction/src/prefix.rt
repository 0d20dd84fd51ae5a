//! A prefix of a journal, compacted while the journal is appended to.
ghost use Rattle.std.specs.Prelude.{◌≡◌, ℕ, List, [], map, IfOk};
ghost use Rattle.journal_file.specs.LogEnds.{IsSealed};
ghost use Rattle.journal_swap.specs.Compacted.{numbers_of};
ghost use Rattle.mds_snapshot.specs.Opening.{book_of};

use crate::compaction::{SourceJournal, compact};
use crate::fault::CompactFault;
use journal_file::{HasLogEnd, Log, LogEnd, ReadFault, texts_between};
use journal_folder::FolderFault;
use journal_swap::{CompactedLog, Equivalence};
use mds_snapshot::{Blank, OpeningName, prepare};
use mds_text::Moment;
use std::alloc::Global;
use std::marker::{Brand, PhantomData};
use std::sync::Wait;

/// Names the text of a configuration in the proofs: what is compacted under one name is compacted by one configuration. A
/// program passes the text to a function that is generic over the name, and calls it with `Brand`; the proof of that call
/// picks the text.
pub trait ConfigName {
    ghost use Rattle.std.specs.Prelude.{ℕ, List};

    ghost text: { List ℕ };
}

/// The name of a configuration by which a thread compacts. `Brand` alone has it, so that the proof of a call with `Brand`
/// can pick the text.
pub trait SharedConfigName: ConfigName + Send + Sync {}

impl SharedConfigName for Brand {}

impl ConfigName for Brand {
    ghost use Rattle.std.specs.Prelude.{[]};

    ghost text = { [] };
}

/// The check that one journal is another's compacted form, by the configuration of a name, and leads to where that does:
/// a server is started from each, and their answers are equal.
pub struct AnswersAgree<C> {
    of: PhantomData<C>,
}

impl<C: ConfigName> Equivalence for AnswersAgree<C> {
    ghost use Rattle.journal_compaction.specs.Alike.{IsCompactedBy};

    ghost same = { IsCompactedBy C.text };
}

/// The prefix of a journal that is to be compacted.
#[derive(Clone, Copy)]
pub struct JournalPrefix<'a> {
    /// The text of the configuration, as `mds_request::Config::read` reads it.
    pub config: &'a [u8],
    /// The bytes of the journal's file, from its beginning up to the log end.
    pub bytes: &'a [u8],
    /// Where the prefix ends.
    pub seal: LogEnd,
    /// The moment at which the servers are asked.
    pub at: Moment,
}

/// A journal that is to be compacted, and its log end.
#[derive(Clone, Copy)]
struct SourceWithEnd<'a> {
    old: SourceJournal<'a>,
    seal: LogEnd,
}

/// The payloads of a journal's prefix.
///
/// # Errors
///
/// `Folder` where the bytes aren't those up to the log end, `NoMemory`.
fn texts_of(alloc: Global, front: &JournalPrefix<'_>) -> Result<Vec<Vec<u8>>, CompactFault>
    ensures { IfOk result (λ texts. IsSealed front.now.seal (map (λ t. t.items) texts.items)) }
{
    match texts_between(alloc, LogEnd::of_empty_log(), front.seal, front.bytes) {
        Ok(texts) => Ok(texts),
        Err(ReadFault::NoMemory) => Err(CompactFault::NoMemory),
        Err(_) => Err(CompactFault::Folder(FolderFault::Unusable)),
    }
}

/// A log that was created empty, once it is seen to be empty.
///
/// # Errors
///
/// It isn't empty, or can't be read.
pub fn check_empty<L: Log>(log: L) -> Result<L, FolderFault>
    ensures { IfOk result (λ log. L.may_be log []) }
{
    let mut log = log;
    match log.read_from(0) {
        Ok(texts) if texts.is_empty() => Ok(log),
        Ok(_) => Err(FolderFault::Unusable),
        Err(fault) => Err(FolderFault::from(fault)),
    }
}

/// Compacts a journal to a log, where both openings are named.
fn compact_to<C: ConfigName, K: OpeningName, O: OpeningName, L: HasLogEnd, R: Wait>(
    rt: &R,
    alloc: Global,
    whole: &SourceWithEnd<'_>,
    log: L,
    blanks: (Blank, Blank),
) -> Result<CompactedLog<L, AnswersAgree<C>>, CompactFault>
    requires empty { L.may_be log [] }
    requires one { book_of blanks.0 ≡ K.book }
    requires other { book_of blanks.1 ≡ O.book }
    requires sealed { IsSealed whole.now.seal (map (λ t. t.items) whole.now.old.texts.now) }
    requires named { whole.now.old.config.now ≡ C.text }
    ensures { IfOk result (λ shorter. shorter ≡ numbers_of whole.now.seal) }
{
    let mut log = log;
    compact::<K, O, L, R>(rt, alloc, &whole.old, &mut log, blanks)?;
    Ok(CompactedLog::new(log, whole.seal))
}

/// The same, where one opening is named. It names the other.
fn compact_to_named<C: ConfigName, K: OpeningName, L: HasLogEnd, R: Wait>(
    rt: &R,
    alloc: Global,
    whole: &SourceWithEnd<'_>,
    log: L,
    one: Blank,
    other: Blank,
) -> Result<CompactedLog<L, AnswersAgree<C>>, CompactFault>
    requires empty { L.may_be log [] }
    requires one { book_of one ≡ K.book }
    requires sealed { IsSealed whole.now.seal (map (λ t. t.items) whole.now.old.texts.now) }
    requires named { whole.now.old.config.now ≡ C.text }
    ensures { IfOk result (λ shorter. shorter ≡ numbers_of whole.now.seal) }
{
    compact_to::<C, K, Brand, L, R>(rt, alloc, whole, log, (one, other))
}

/// Compacts the prefix of a journal to an empty log, as `compact` does: the shorter log may take the journal's place once
/// it has what was appended since.
///
/// # Errors
///
/// Those of `compact`, and `Folder` where the bytes aren't those up to the log end.
pub fn compact_prefix<C: ConfigName, L: HasLogEnd, R: Wait>(
    rt: &R,
    alloc: Global,
    front: &JournalPrefix<'_>,
    log: L,
) -> Result<CompactedLog<L, AnswersAgree<C>>, CompactFault>
    requires empty { L.may_be log [] }
    requires named { front.now.config.now ≡ C.text }
    ensures { IfOk result (λ shorter. shorter ≡ numbers_of front.now.seal) }
{
    let texts = match texts_of(alloc, front) {
        Ok(texts) => texts,
        Err(fault) => return Err(fault),
    };
    let Ok(one) = prepare(alloc) else {
        return Err(CompactFault::NoMemory);
    };
    let Ok(other) = prepare(alloc) else {
        return Err(CompactFault::NoMemory);
    };
    let whole = SourceWithEnd {
        old: SourceJournal {
            config: front.config,
            texts: &texts,
            at: front.at,
        },
        seal: front.seal,
    };
    compact_to_named::<C, Brand, L, R>(rt, alloc, &whole, log, one, other)
}
