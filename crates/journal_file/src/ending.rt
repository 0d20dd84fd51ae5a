//! How a file ends behind its whole records: well, with a torn tail, or damaged.
ghost use Rattle.std.specs.Prelude.{◌≡◌, ◌+◌, ◌^◌, ◌<◌, ◌≤◌, length};
ghost use Rattle.journal_file.specs.Endings.{is_torn_record, is_short_of, unexplained, without_records, ending_of, is_opened};

use crate::marks::{first_moved_mark, furthest_synced_end};
use crate::record::{HEAD, MOST_TEXT};
use crate::signature::{Signature, signature_of};

/// The bytes with which every journal begins: the record of its first group's mark.
const BEGINNING: [u8; 44] = [
    0, 0, 0, 32, 130, 165, 51, 246, 22, 181, 93, 151, 255, 115, 121, 110, 99, 101, 100, 58, 0, 0,
    0, 0, 0, 0, 0, 12, 0, 0, 0, 0, 0, 0, 0, 0, 152, 3, 180, 189, 217, 174, 131, 34,
];

/// How a file ends, after its whole records.
#[derive(Clone, Copy, Debug, PartialEq, Eq)]
pub enum JournalEnding {
    /// Nothing stands after them.
    Whole,
    /// The beginning of one record whose end is missing: what a crash leaves of a group that was being written.
    Torn,
    /// Bytes that such a crash doesn't leave, with no mark among them that says that synced data is lost. A loss of
    /// power may leave them, where parts of what was being written reached the disk.
    Unexplained,
    /// The file doesn't begin as a journal does, but with this.
    Foreign(Signature),
    /// At this byte stands a mark that was written for another position: bytes were inserted or removed, or belong to
    /// another journal.
    Moved(u64),
    /// A mark after them says that the file was synced up to this position, which is beyond them: synced data is lost.
    Damaged(u64),
}

/// The bytes that were cut off a file.
#[derive(Clone, Copy, Debug, PartialEq, Eq)]
pub struct CutTail {
    /// The position of the first byte that was cut.
    pub from: u64,
    /// How many bytes were cut.
    pub count: u64,
}

impl JournalEnding {
    /// Whether a journal that ends so is opened: the file is a journal, and no synced data is known to be lost.
    pub fn is_opened(self) -> bool
        ensures { result ≡ is_opened self }
    {
        match self {
            JournalEnding::Whole | JournalEnding::Torn | JournalEnding::Unexplained => true,
            JournalEnding::Foreign(_) | JournalEnding::Moved(_) | JournalEnding::Damaged(_) =>
                false,
        }
    }
}

/// Whether a record with a payload of this size would have more bytes than these.
fn is_short_of(size: usize, bytes: &[u8]) -> bool
    requires { size < 2 ^ 32 }
    ensures { result ≡ is_short_of size bytes.now }
{
    0 < size && size <= MOST_TEXT && bytes.len() < HEAD + size
}

/// Whether the bytes are the beginning of one record whose end is missing.
#[tactic(auto, unfolding(crate::specs::Endings::is_torn_record))]
fn is_torn_record(bytes: &[u8]) -> bool
    ensures { result ≡ is_torn_record bytes.now }
{
    if bytes.len() < 4 {
        return bytes.starts_with(b"\0");
    }
    let (size, _) = bytes.split_at(4);
    let size = u32::from_be_bytes([size[0], size[1], size[2], size[3]]);
    is_short_of(size as usize, bytes)
}

/// How a file ends with bytes that nothing explains.
fn unexplained_ending(whole: u64, behind: &[u8]) -> JournalEnding
    ensures { result ≡ unexplained whole behind.now }
{
    if whole > BEGINNING.len() as u64 {
        JournalEnding::Unexplained
    } else {
        JournalEnding::Foreign(signature_of(behind))
    }
}

/// How a file of these bytes ends, which has no whole record.
fn ending_without_records(bytes: &[u8]) -> JournalEnding
    ensures { result ≡ without_records bytes.now }
{
    if BEGINNING.starts_with(bytes) {
        JournalEnding::Torn
    } else {
        JournalEnding::Foreign(signature_of(bytes))
    }
}

/// How a file ends whose whole records end at the position `whole`, with these bytes after them.
pub fn ending_of(whole: u64, behind: &[u8]) -> JournalEnding
    requires { whole + length behind.now < 2 ^ 64 }
    ensures { result ≡ ending_of whole behind.now }
{
    if behind.is_empty() {
        return JournalEnding::Whole;
    }
    if whole == 0 {
        return ending_without_records(behind);
    }
    match (furthest_synced_end(behind), first_moved_mark(whole, behind)) {
        (None, _) if is_torn_record(behind) => JournalEnding::Torn,
        (Some(said), _) if said > whole => JournalEnding::Damaged(said),
        (Some(_), Some(place)) => JournalEnding::Moved(place),
        _ => unexplained_ending(whole, behind),
    }
}
