//! What is recorded of the compactions of a city's journal, and which journal tells what stood at a moment.
ghost use Rattle.std.specs.Prelude.{◌≡◌, ◌≤◌, ℕ, ◌++◌, ◌∷◌, [], map, option_map, string_bytes, Some, IfOk, IfSome};
ghost use Rattle.std.specs.Fmt.{decimal};
ghost use Rattle.std.specs.List.{list_all};
ghost use Rattle.mds_text.specs.Fields.{last_moment};
ghost use Rattle.journal_folder.specs.Compactions.{Compaction as Recorded, compaction_of, source_of, source_under, source_view};
ghost use Rattle.journal_folder.specs.Compactions.{first_compactions, is_name, is_name_byte, line_of, text_of};
ghost use Rattle.journal_folder.specs.Compactions.{IsAdded, IsCompaction, IsLine, IsText};

use crate::archive::{millis_of, push_number};
use mds_text::Moment;
use std::alloc::{AllocError, Global};

/// A compaction of a city's journal.
#[derive(Clone, Copy)]
pub struct Compaction<'a> {
    /// The latest moment of the entries of the journal that was compacted.
    pub latest: Moment,
    /// The name under which that journal was archived; `None` where it wasn't.
    pub archived: Option<&'a str>,
}

/// An archived journal.
#[derive(Clone, Copy)]
pub struct ArchivedJournal<'a> {
    /// Its name.
    pub name: &'a str,
    /// The latest moment of its entries.
    pub latest: Moment,
}

/// Which journal tells what stood at a moment.
#[derive(Clone, Copy)]
pub enum PastSource<'a> {
    /// The one that stands in the city's folder.
    Present,
    /// This archived one.
    Archived(ArchivedJournal<'a>),
    /// None any more: what told of the moment was dropped, and not archived.
    NotKept,
}

/// The journal that was compacted.
fn source_under<'a>(compaction: &Compaction<'a>) -> PastSource<'a>
    ensures { source_view result ≡ source_under compaction.now.latest (option_map (λ name. name.now) compaction.now.archived) }
{
    match compaction.archived {
        Some(name) => PastSource::Archived(ArchivedJournal {
            name,
            latest: compaction.latest,
        }),
        None => PastSource::NotKept,
    }
}

/// Which journal tells what stood at a moment, by the compactions of the city's journal, the earliest first.
pub fn source_of<'a>(compactions: &[Compaction<'a>], at: Moment) -> PastSource<'a>
    ensures { source_view result ≡ source_of (map compaction_of compactions.now) at }
{
    for compaction in compactions {
        if at < compaction.latest {
            return source_under(compaction);
        }
    }
    PastSource::Present
}

/// Whether a byte may stand in the name of an archived journal.
fn is_name_byte(byte: u8) -> bool
    ensures { result ≡ is_name_byte byte }
{
    byte.is_ascii_graphic() && byte != b'/'
}

/// Whether each byte may stand in the name of an archived journal.
fn are_name_bytes(name: &[u8]) -> bool
    ensures { result ≡ list_all is_name_byte name.now }
{
    for byte in name {
        if !is_name_byte(*byte) {
            return false;
        }
    }
    true
}

/// Whether this is the name of an archived journal.
fn is_name(name: &[u8]) -> bool
    ensures { result ≡ is_name name.now }
{
    name.starts_with(b"journal-") && are_name_bytes(name)
}

/// The moment of these digits; `None` where they are none's. Other texts than a moment's digits may give one too.
fn moment_of(digits: &str) -> Option<Moment>
    ensures { (at : ℕ) → at ≤ last_moment → decimal at ≡ digits.now → result ≡ Some at }
{
    match digits.parse::<i64>() {
        Ok(millis) => Moment::new(millis),
        Err(_) => None,
    }
}

/// The compaction of a line, if it is one's.
fn compaction_at(line: &str) -> Option<Compaction<'_>>
    ensures named { IfSome result (λ c. IsCompaction (compaction_of c)) }
    ensures found { (c : Recorded) → IsCompaction c → line_of c ≡ line.now → option_map compaction_of result ≡ Some c }
{
    let Some((digits, word)) = line.split_once(' ') else {
        return None;
    };
    let Some(latest) = moment_of(digits) else {
        return None;
    };
    if word == "-" {
        Some(Compaction {
            latest,
            archived: None,
        })
    } else if is_name(word.as_bytes()) {
        Some(Compaction {
            latest,
            archived: Some(word),
        })
    } else {
        None
    }
}

/// The line of a compaction, without its line feed.
fn line_of(alloc: Global, compaction: &Compaction<'_>) -> Result<String, AllocError>
    ensures { IfOk result (λ line. string_bytes line ≡ line_of (compaction_of compaction.now)) }
{
    let mut line = String::new(alloc);
    push_number(alloc, &mut line, millis_of(compaction.latest))?;
    line.push_str(" ")?;
    match compaction.archived {
        Some(name) => line.push_str(name)?,
        None => line.push_str("-")?,
    }
    Ok(line)
}

/// Reads a line; `None` where it is no compaction's.
fn read_line<'a>(alloc: Global, line: &'a str) -> Result<Option<Compaction<'a>>, AllocError>
    ensures { IfOk result (λ found. IsLine line.now (option_map compaction_of found)) }
{
    let Some(compaction) = compaction_at(line) else {
        return Ok(None);
    };
    let text = line_of(alloc, &compaction)?;
    if text.as_str() == line {
        Ok(Some(compaction))
    } else {
        Ok(None)
    }
}

/// Adds the compaction of a line; returns whether it is one's.
fn push_line<'a>(
    alloc: Global,
    compactions: &mut Vec<Compaction<'a>>,
    line: &'a str,
) -> Result<bool, AllocError>
    ensures { IfOk result (λ is_one. IsAdded line.now is_one (map compaction_of compactions.old.items) (map compaction_of compactions.new.items)) }
{
    match read_line(alloc, line) {
        Ok(Some(compaction)) => match compactions.push(compaction) {
            Ok(()) => Ok(true),
            Err(_) => Err(AllocError),
        },
        Ok(None) => Ok(false),
        Err(fault) => Err(fault),
    }
}

/// Reads a text with a line for each compaction, the earliest first: the latest moment of the journal that was compacted,
/// in milliseconds since the Unix epoch, a space, and the name under which it was archived, or `-`. `None` where it is no
/// such text.
///
/// # Errors
///
/// Out of memory.
pub fn read_compactions<'a>(
    alloc: Global,
    text: &'a str,
) -> Result<Option<Vec<Compaction<'a>>>, AllocError>
    ensures { IfOk result (λ found. IsText text.now (option_map (λ compactions. map compaction_of compactions.items) found)) }
{
    let mut compactions = Vec::new(alloc);
    let mut rest = text;
    while let Some((line, behind)) = rest.split_once('\n') {
        if !push_line(alloc, &mut compactions, line)? {
            return Ok(None);
        }
        rest = behind;
    }
    if rest.is_empty() {
        Ok(Some(compactions))
    } else {
        Ok(None)
    }
}

/// The text with the line of a further compaction.
///
/// # Errors
///
/// Out of memory.
pub fn further_text(
    alloc: Global,
    text: &str,
    compaction: &Compaction<'_>,
) -> Result<String, AllocError>
    ensures { IfOk result (λ longer. string_bytes longer ≡ text.now ++ text_of (compaction_of compaction.now ∷ [])) }
{
    let line = line_of(alloc, compaction)?;
    let mut longer = String::from_str(alloc, text)?;
    longer.push_str(line.as_str())?;
    longer.push_str("\n")?;
    Ok(longer)
}

/// The first text of a folder of which it isn't known what was dropped of its journal, whose entries have this latest
/// moment, if it has any.
///
/// # Errors
///
/// Out of memory.
pub fn first_text(alloc: Global, latest: Option<Moment>) -> Result<String, AllocError>
    ensures { IfOk result (λ text. string_bytes text ≡ text_of (first_compactions latest)) }
{
    match latest {
        Some(latest) => further_text(
            alloc,
            "",
            &Compaction {
                latest,
                archived: None,
            },
        ),
        None => Ok(String::new(alloc)),
    }
}
