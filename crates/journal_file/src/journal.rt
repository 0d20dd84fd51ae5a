//! A log in one file of records.
ghost use Rattle.std.specs.Prelude.{◌≡◌, ◌⊎◌, ◌≤◌, ℕ, List, length, map, take, drop, true, false, Some, None, IfOk, OnOk, IsErrOf};
ghost use Rattle.journal_file.specs.Sum.{sums_over};
ghost use Rattle.journal_file.specs.Records.{Reads, extent};
ghost use Rattle.journal_file.specs.Endings.{ending_of, is_opened, IsCut};
ghost use Rattle.journal_file.specs.Groups.{MayBeOf, listed};
ghost use Rattle.journal_file.specs.Openings.{refusal_of};
ghost use Rattle.journal_file.specs.declared.journal.TheConstants.{MOST_POSITION};

use crate::ending::{CutTail, JournalEnding, ending_of};
use crate::group::{are_taken, group_of, is_plain};
use crate::log::{AppendFault, Log, ReadFault, SyncFault};
use crate::log_end::{HasLogEnd, LogEnd};
use crate::reading::{Record, read};
use crate::signature::Signature;
use crate::storage::{Storage, StorageFault};
use crate::tail_store::TailStore;
use std::alloc::{AllocError, Global};

/// The furthest position at which a group may begin: 2^62.
const MOST_POSITION: u64 = 4_611_686_018_427_387_904;

/// Why a journal isn't opened.
#[derive(Clone, Copy, Debug, PartialEq, Eq)]
pub enum JournalOpenFault {
    /// A mark after the whole records says that the file was synced up to this position, which is beyond them: synced
    /// data is lost.
    Damaged(u64),
    /// At this byte stands a mark that was written for another position: bytes were inserted or removed, or belong to
    /// another journal.
    Moved(u64),
    /// The file doesn't begin as a journal does, but with this.
    Foreign(Signature),
    /// Bytes that form no whole record stand from this position on, and there is nowhere to save them.
    Torn(u64),
    /// The bytes to be cut couldn't be saved: nothing was cut.
    NotKept,
    /// The file is longer than a journal may be.
    TooLong,
    /// The storage failed.
    Failed,
    /// Out of memory.
    NoMemory,
}

/// A log in one storage: groups of records, each after a mark.
#[derive(Drop)]
pub struct Journal<M: Storage> {
    alloc: Global,
    medium: M,
    /// Where the records end.
    position: u64,
    /// The checksum there.
    sum: u64,
    /// Up to which position the storage was synced.
    synced: u64,
    /// How many payloads the list has.
    count: u64,
    /// Whether an append or a sync failed.
    is_broken: bool,
    /// What was cut when the journal was opened.
    cut: Option<CutTail>,
}

/// The whole records at the start of a journal's bytes.
#[derive(Drop)]
struct WholePrefix {
    /// Where the whole records end.
    whole: usize,
    /// The checksum there.
    sum: u64,
    /// How many of their payloads are no marks.
    count: u64,
}

impl From<AllocError> for JournalOpenFault {
    fn from(_: AllocError) -> JournalOpenFault {
        JournalOpenFault::NoMemory
    }
}

impl From<StorageFault> for JournalOpenFault {
    fn from(fault: StorageFault) -> JournalOpenFault {
        match fault {
            StorageFault::Failed => JournalOpenFault::Failed,
            StorageFault::NoMemory => JournalOpenFault::NoMemory,
        }
    }
}

impl From<StorageFault> for ReadFault {
    fn from(fault: StorageFault) -> ReadFault {
        match fault {
            StorageFault::Failed => ReadFault::NoAnswer,
            StorageFault::NoMemory => ReadFault::NoMemory,
        }
    }
}

/// The payloads of the records that are no marks.
pub(crate) fn plain_texts(alloc: Global, records: &[Record<'_>]) -> Result<Vec<Vec<u8>>, AllocError>
    ensures { IfOk result (λ texts. map (λ v. v.items) texts.items ≡ listed (map (λ x. x.text.now) records.now)) }
{
    let mut texts = Vec::new(alloc);
    for record in records {
        if is_plain(record.text) {
            texts.push(Vec::from_slice(alloc, record.text)?)?;
        }
    }
    Ok(texts)
}

/// How many records are no marks.
fn plain_count(records: &[Record<'_>]) -> usize
    ensures { result ≡ length (listed (map (λ x. x.text.now) records.now)) }
{
    let mut count: usize = 0;
    for record in records {
        if is_plain(record.text) {
            count += 1;
        }
    }
    count
}

/// The whole records at the start of a journal's bytes.
fn whole_prefix_of(alloc: Global, bytes: &[u8]) -> Result<WholePrefix, AllocError>
    ensures { IfOk result (λ front. (texts : List (List ℕ)) × Reads 0 bytes.now texts × (front.whole ≡ extent texts)
        × (front.sum ≡ sums_over 0 texts) × (front.count ≡ length (listed texts)) × (front.whole ≤ length bytes.now)) }
{
    let found = read(alloc, 0, bytes)?;
    Ok(WholePrefix {
        whole: found.whole,
        sum: found.sum,
        count: plain_count(&found.records) as u64,
    })
}

/// Why a journal that ends so isn't opened; none, where it is.
fn refusal_of(ending: JournalEnding) -> Option<JournalOpenFault>
    ensures { result ≡ refusal_of ending }
{
    match ending {
        JournalEnding::Whole | JournalEnding::Torn | JournalEnding::Unexplained => None,
        JournalEnding::Foreign(signature) => Some(JournalOpenFault::Foreign(signature)),
        JournalEnding::Moved(place) => Some(JournalOpenFault::Moved(place)),
        JournalEnding::Damaged(said) => Some(JournalOpenFault::Damaged(said)),
    }
}

/// Saves and then cuts the bytes after the whole records, where the file is a journal and isn't damaged. Returns what
/// was cut.
fn cut_tail<M: Storage, A: TailStore>(
    medium: &mut M,
    aside: &mut A,
    whole: usize,
    bytes: &[u8],
) -> Result<Option<CutTail>, JournalOpenFault>
    requires within { whole ≤ length bytes.now }
    requires short { length bytes.now ≤ MOST_POSITION }
    requires held { M.holds medium.old bytes.now }
    ensures cut { OnOk result (M.holds medium.new (take whole bytes.now)) }
    ensures told { IfOk result (λ cut. IsCut (A.has_kept aside.new) cut whole (drop whole bytes.now)) }
    ensures opened { OnOk result (refusal_of (ending_of whole (drop whole bytes.now)) ≡ None) }
    ensures kept_first { M.holds medium.new bytes.now ⊎ A.has_kept aside.new whole (drop whole bytes.now) }
    ensures refused { (fault : JournalOpenFault) → refusal_of (ending_of whole (drop whole bytes.now)) ≡ Some fault → IsErrOf result fault }
    ensures stays { (fault : JournalOpenFault) → refusal_of (ending_of whole (drop whole bytes.now)) ≡ Some fault → M.holds medium.new bytes.now }
{
    let behind = &bytes[whole..];
    if let Some(fault) = refusal_of(ending_of(whole as u64, behind)) {
        return Err(fault);
    }
    if behind.is_empty() {
        return Ok(None);
    }
    let Ok(()) = aside.save(whole as u64, behind) else {
        return Err(JournalOpenFault::NotKept);
    };
    let Ok(()) = medium.cut(whole as u64) else {
        return Err(JournalOpenFault::Failed);
    };
    Ok(Some(CutTail {
        from: whole as u64,
        count: behind.len() as u64,
    }))
}

/// All bytes of the storage.
fn bytes_in<M: Storage>(alloc: Global, medium: &mut M) -> Result<Vec<u8>, JournalOpenFault>
    ensures bytes { IfOk result (λ v. M.holds medium.new v.items) }
    ensures before { IfOk result (λ v. M.holds medium.old v.items) }
    ensures short { IfOk result (λ v. length v.items ≤ MOST_POSITION) }
{
    let bytes = medium.read(alloc)?;
    if bytes.len() as u64 > MOST_POSITION {
        return Err(JournalOpenFault::TooLong);
    }
    Ok(bytes)
}

impl<M: Storage> Journal<M> {
    /// Opens a journal: the bytes after its whole records are saved, and then cut. A file that is no journal, or is
    /// damaged, is refused and stays as it is.
    ///
    /// # Errors
    ///
    /// The file is no journal, damaged or too long, the bytes to be cut couldn't be saved, the storage failed, or out
    /// of memory.
    pub fn recover<A: TailStore>(
        alloc: Global,
        medium: M,
        aside: &mut A,
    ) -> Result<Journal<M>, JournalOpenFault>
        ensures list { IfOk result (λ journal. (bytes : List ℕ) × (texts : List (List ℕ)) × M.holds medium bytes × Reads 0 bytes texts
            × (is_opened (ending_of (extent texts) (drop (extent texts) bytes)) ≡ true)
            × IsCut (A.has_kept aside.new) journal.cut (extent texts) (drop (extent texts) bytes)
            × MayBeOf (M.holds journal.medium) journal.is_broken journal.position journal.sum journal.count (listed texts)) }
        ensures synced { IfOk result (λ journal. M.is_synced journal.medium) }
    {
        let mut medium = medium;
        let bytes = bytes_in(alloc, &mut medium)?;
        let front = whole_prefix_of(alloc, &bytes)?;
        let cut = cut_tail(&mut medium, aside, front.whole, &bytes)?;
        medium.sync()?;
        Ok(Journal::of(alloc, medium, &front, cut))
    }

    /// Opens a journal that has nothing after its whole records.
    ///
    /// # Errors
    ///
    /// Something stands there (`Torn`), or as [`Journal::recover`].
    pub fn open(alloc: Global, medium: M) -> Result<Journal<M>, JournalOpenFault>
        ensures list { IfOk result (λ journal. (bytes : List ℕ) × (texts : List (List ℕ)) × M.holds medium bytes × Reads 0 bytes texts
            × (length bytes ≡ extent texts)
            × MayBeOf (M.holds journal.medium) journal.is_broken journal.position journal.sum journal.count (listed texts)) }
        ensures synced { IfOk result (λ journal. M.is_synced journal.medium) }
    {
        let mut medium = medium;
        let bytes = bytes_in(alloc, &mut medium)?;
        let front = whole_prefix_of(alloc, &bytes)?;
        if let Some(fault) = refusal_of(ending_of(front.whole as u64, &bytes[front.whole..])) {
            return Err(fault);
        }
        if front.whole < bytes.len() {
            return Err(JournalOpenFault::Torn(front.whole as u64));
        }
        medium.sync()?;
        Ok(Journal::of(alloc, medium, &front, None))
    }

    /// The journal of these whole records.
    fn of(alloc: Global, medium: M, front: &WholePrefix, cut: Option<CutTail>) -> Journal<M>
        ensures medium { result.medium ≡ medium }
        ensures front { (result.position ≡ front.now.whole) × (result.sum ≡ front.now.sum) × (result.count ≡ front.now.count) }
        ensures cut { result.cut ≡ cut }
        ensures unbroken { result.is_broken ≡ false }
    {
        Journal {
            alloc,
            medium,
            position: front.whole as u64,
            sum: front.sum,
            synced: front.whole as u64,
            count: front.count,
            is_broken: false,
            cut,
        }
    }

    /// What was cut when the journal was opened; none, where nothing was.
    pub fn cut(&self) -> Option<CutTail>
        ensures { result ≡ self.now.cut }
    {
        self.cut
    }
}

impl<M: Storage> Journal<M> {
    /// Returns the storage, once the journal isn't used any more.
    pub fn into_storage(self) -> M
        ensures { result ≡ self.medium }
    {
        self.medium
    }
}

impl<M: Storage> Log for Journal<M> {
    ghost may_be = { λ journal list. MayBeOf (M.holds journal.medium) journal.is_broken journal.position journal.sum journal.count list };

    ghost is_synced = { λ journal. M.is_synced journal.medium };

    fn append(&mut self, expected: u64, texts: &[Vec<u8>]) -> Result<u64, AppendFault> {
        if self.is_broken {
            return Err(AppendFault::Unknown);
        }
        if expected != self.count {
            return Err(AppendFault::Conflict);
        }
        if !are_taken(texts) {
            return Err(AppendFault::Untaken);
        }
        if self.position > MOST_POSITION || self.count > MOST_POSITION {
            return Err(AppendFault::Full);
        }
        let group = group_of(self.alloc, self.sum, self.position, self.synced, texts)?;
        let Ok(()) = self.medium.append(&group.bytes) else {
            self.is_broken = true;
            return Err(AppendFault::Unknown);
        };
        self.position += group.bytes.len() as u64;
        self.sum = group.sum;
        self.count += texts.len() as u64;
        Ok(self.count)
    }

    fn sync(&mut self) -> Result<u64, SyncFault> {
        if self.is_broken {
            return Err(SyncFault);
        }
        let Ok(()) = self.medium.sync() else {
            self.is_broken = true;
            return Err(SyncFault);
        };
        self.synced = self.position;
        Ok(self.count)
    }

    fn read_from(&mut self, position: u64) -> Result<Vec<Vec<u8>>, ReadFault> {
        if self.is_broken {
            return Err(ReadFault::NoAnswer);
        }
        let bytes = self.medium.read(self.alloc)?;
        let found = read(self.alloc, 0, &bytes)?;
        let mut texts = plain_texts(self.alloc, &found.records)?;
        if found.whole != bytes.len() || found.whole as u64 != self.position {
            return Err(ReadFault::Damaged);
        }
        if found.sum != self.sum || texts.len() as u64 != self.count {
            return Err(ReadFault::Damaged);
        }
        if position >= texts.len() as u64 {
            return Ok(Vec::new(self.alloc));
        }
        Ok(texts.split_off(position as usize)?)
    }
}

impl<M: Storage> HasLogEnd for Journal<M> {
    fn log_end(&self) -> LogEnd {
        LogEnd {
            position: self.position,
            sum: self.sum,
            count: self.count,
        }
    }
}
