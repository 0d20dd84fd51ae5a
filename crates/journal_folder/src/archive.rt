//! Journals that compacted ones replace, kept in an archive under names that tell their span.
ghost use Rattle.std.specs.Prelude.{◌≡◌, ◌++◌, ℕ, List, map, string_bytes, option_map, IfOk, OnOk};
ghost use Rattle.std.specs.Fmt.{decimal};
ghost use Rattle.journal_entry.specs.Entries.{entry_of};
ghost use Rattle.journal_folder.specs.Archives.{span_of, IsSpanOf, IsSpan, span_name, archive_name, slot_of, HasName};
ghost use Rattle.journal_folder.specs.Archives.{IsArchivedAs};

use crate::fault::FolderFault;
use crate::journal::entries_in;
use crate::survey::survey_of;
use journal_entry::JournalEntry;
use mds_text::Moment;
use std::alloc::{AllocError, Global};
use std::fmt;

/// The most files of one span that an archive has.
const MOST_FILES: u32 = 10_000;

/// The moments of a journal's first and last entries.
#[derive(Clone, Copy, PartialEq, Eq)]
pub struct JournalSpan {
    /// Of the first one.
    pub first: Moment,
    /// Of the last one, in their order.
    pub last: Moment,
}

/// What stands at a name of an archive.
#[derive(Clone, Copy, Debug, PartialEq, Eq)]
pub enum ArchiveSlot {
    /// Nothing.
    Free,
    /// The bytes that are to be archived.
    Same,
    /// Something else.
    Taken,
}

/// Why a journal isn't archived.
#[derive(Clone, Copy, Debug, PartialEq, Eq)]
pub enum ArchiveFault {
    /// Out of memory.
    NoMemory,
    /// The disk has no room for it.
    NoRoom,
    /// The archive can't be read, written or synced.
    Unusable,
    /// Another program writes to the archive.
    Locked,
    /// Other files have all names that it may have.
    NoName,
    /// It isn't whole, or one of its records is no entry of a known version.
    Damaged,
}

impl From<AllocError> for ArchiveFault {
    fn from(_: AllocError) -> ArchiveFault {
        ArchiveFault::NoMemory
    }
}

impl fmt::Display for ArchiveFault {
    fn fmt<W: fmt::Write>(&self, f: &mut fmt::Formatter<W>) -> fmt::Result {
        f.write_str(match self {
            ArchiveFault::NoMemory => "memory ran out",
            ArchiveFault::NoRoom => "the archive's disk has no room for it",
            ArchiveFault::Unusable => "the archive's folder can't be written",
            ArchiveFault::Locked => "another program writes to the archive's folder",
            ArchiveFault::NoName => "other files of the archive have all its names",
            ArchiveFault::Damaged => "it isn't whole",
        })
    }
}

/// Where journals are archived: a folder of files, or memory in tests. A crash at any step leaves no file of a name, or
/// a whole one. The clauses describe an archive that keeps what it is given; nothing is known of real files.
pub trait Archive {
    ghost use Rattle.std.specs.Prelude.{◌≡◌, ℕ, List, Ok, OnOk};
    ghost use Rattle.journal_folder.specs.declared.archive.ArchiveSlot.TheVariants.{Same};

    /// Under this name stand these bytes, and both are on the disk, as far as is known.
    ghost has: { Self → List ℕ → List ℕ → Type 0 };

    /// What stands at a name, where these bytes are to be archived. If they stand there themselves, it waits until they
    /// and the name are synced.
    ///
    /// # Errors
    ///
    /// The archive can't be read or synced, or out of memory.
    fn slot_at(&mut self, name: &str, bytes: &[u8]) -> Result<ArchiveSlot, ArchiveFault>
        ensures same { result ≡ Ok Same → has self.new name.now bytes.now }
        ensures others { (other text : List ℕ) → has self.old other text → has self.new other text };

    /// Gives bytes a name that nothing has, and waits until they and the name are synced.
    ///
    /// # Errors
    ///
    /// They can't be written or synced, or out of memory. Then it is only known that no part of them has the name.
    fn keep(&mut self, name: &str, bytes: &[u8]) -> Result<(), ArchiveFault>
        ensures kept { OnOk result (has self.new name.now bytes.now) }
        ensures others { (other text : List ℕ) → has self.old other text → has self.new other text };
}

/// The span of entries; none where there are none.
fn span_of(entries: &[JournalEntry<'_>]) -> Option<JournalSpan>
    ensures { result ≡ span_of (map entry_of entries.now) }
{
    let (first, rest) = entries.split_first()?;
    let mut last = first.at;
    for entry in rest {
        last = entry.at;
    }
    Some(JournalSpan {
        first: first.at,
        last,
    })
}

/// The span of the entries behind the first of a journal's payloads, its head.
///
/// # Errors
///
/// `Damaged` where one is no entry of a known version, `NoMemory`.
fn span_in(alloc: Global, texts: &[Vec<u8>]) -> Result<Option<JournalSpan>, ArchiveFault>
    ensures { IfOk result (λ span. IsSpanOf (map (λ t. t.items) texts.now) span) }
{
    let Some((_, rest)) = texts.split_first() else {
        return Ok(None);
    };
    match entries_in(alloc, 1, rest) {
        Ok(entries) => Ok(span_of(&entries)),
        Err(FolderFault::NoMemory) => Err(ArchiveFault::NoMemory),
        Err(_) => Err(ArchiveFault::Damaged),
    }
}

/// The span of the journal of these bytes; none where it has no entries.
///
/// # Errors
///
/// `Damaged` where the bytes aren't whole records to their end, or one behind the head is no entry of a known version;
/// `NoMemory`.
pub fn journal_span(alloc: Global, bytes: &[u8]) -> Result<Option<JournalSpan>, ArchiveFault>
    ensures { IfOk result (λ span. IsSpan bytes.now span) }
{
    let survey = survey_of(alloc, bytes)?;
    if survey.whole != bytes.len() as u64 {
        return Err(ArchiveFault::Damaged);
    }
    span_in(alloc, &survey.texts)
}

/// The milliseconds since the Unix epoch of a moment.
pub(crate) fn millis_of(at: Moment) -> u64
    ensures { result ≡ at }
{
    at.get().unsigned_abs()
}

/// Appends a number's digits.
pub(crate) fn push_number(alloc: Global, name: &mut String, number: u64) -> Result<(), AllocError>
    ensures { OnOk result (string_bytes name.new ≡ string_bytes name.old ++ decimal number) }
{
    let digits = format!(in alloc; "{number}")?;
    name.push_str(digits.as_str())
}

/// The first name of a journal with this span.
fn span_name(alloc: Global, span: &JournalSpan) -> Result<String, AllocError>
    ensures { IfOk result (λ name. string_bytes name ≡ span_name span.now) }
{
    let mut name = String::from_str(alloc, "journal-")?;
    push_number(alloc, &mut name, millis_of(span.first))?;
    name.push_str("-")?;
    push_number(alloc, &mut name, millis_of(span.last))?;
    Ok(name)
}

/// The name with this number of a journal with this span.
///
/// # Errors
///
/// Out of memory.
pub fn archive_name(alloc: Global, span: &JournalSpan, number: u32) -> Result<String, AllocError>
    ensures { IfOk result (λ name. string_bytes name ≡ archive_name span.now number) }
{
    let mut name = span_name(alloc, span)?;
    if number > 0 {
        name.push_str(".")?;
        push_number(alloc, &mut name, u64::from(number))?;
    }
    Ok(name)
}

/// What stands at a name, by the bytes that were found there.
pub fn slot_of(found: Option<&[u8]>, bytes: &[u8]) -> ArchiveSlot
    ensures { result ≡ slot_of (option_map (λ found. found.now) found.entry) bytes.now }
{
    match found {
        None => ArchiveSlot::Free,
        Some(found) if found == bytes => ArchiveSlot::Same,
        Some(_) => ArchiveSlot::Taken,
    }
}

/// Archives bytes under the first name of a span that no other bytes have, and returns that name.
///
/// # Errors
///
/// `NoName` where other bytes have all names, or those of the archive.
fn archive_by_span<A: Archive>(
    alloc: Global,
    archive: &mut A,
    span: &JournalSpan,
    bytes: &[u8],
) -> Result<String, ArchiveFault>
    ensures archived { IfOk result (λ name. HasName (A.has archive.new) bytes.now span.now (string_bytes name)) }
    ensures others { (name text : List ℕ) → A.has archive.old name text → A.has archive.new name text }
{
    for number in 0..MOST_FILES {
        let name = archive_name(alloc, span, number)?;
        match archive.slot_at(name.as_str(), bytes)? {
            ArchiveSlot::Free => {
                archive.keep(name.as_str(), bytes)?;
                return Ok(name);
            }
            ArchiveSlot::Same => return Ok(name),
            ArchiveSlot::Taken => {}
        }
    }
    Err(ArchiveFault::NoName)
}

/// Archives a journal's bytes under the first name of its span that no other bytes have, and returns that name, also
/// where they stood there already. A journal without entries isn't archived: then there is no name. What the archive
/// has stays there, whatever comes.
///
/// # Errors
///
/// `Damaged` where the bytes are no whole journal, `NoName` where other bytes have all names, or those of the archive.
pub fn archive_journal<A: Archive>(
    alloc: Global,
    archive: &mut A,
    bytes: &[u8],
) -> Result<Option<String>, ArchiveFault>
    ensures archived { IfOk result (λ name. IsArchivedAs (A.has archive.new) bytes.now (option_map string_bytes name)) }
    ensures others { (name text : List ℕ) → A.has archive.old name text → A.has archive.new name text }
{
    match journal_span(alloc, bytes)? {
        Some(span) => Ok(Some(archive_by_span(alloc, archive, &span, bytes)?)),
        None => Ok(None),
    }
}
