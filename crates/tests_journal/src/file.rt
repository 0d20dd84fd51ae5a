//! Tests of the records of a journal. The expected bytes come from another program's SipHash-1-3 with both keys 0.
ghost use Rattle.std.specs.Prelude.{◌+◌, ◌<◌, ◌^◌, length};

use journal_file::{
    AppendFault, CutTail, FileStorage, Journal, JournalEnding, JournalOpenFault, Log,
    MemoryStorage, MemoryTailStore, Signature, are_taken, ending_of, group_of, push, read,
};
use std::alloc::{AllocError, Global};
use std::fs::{self, File};
use std::process::Abort;
use std::test::Fail;

const FIRST: &[u8] = &[0, 0, 0, 3, 37, 19, 247, 30, 17, 226, 15, 101, 111, 110, 101];

const SECOND: &[u8] = &[
    0, 0, 0, 4, 148, 107, 124, 29, 70, 202, 85, 225, 116, 119, 111, 33,
];

/// The record of the mark at the beginning of a file.
const MARKED: &[u8] = &[
    0, 0, 0, 32, 130, 165, 51, 246, 22, 181, 93, 151, 255, 115, 121, 110, 99, 101, 100, 58, 0, 0,
    0, 0, 0, 0, 0, 12, 0, 0, 0, 0, 0, 0, 0, 0, 152, 3, 180, 189, 217, 174, 131, 34,
];

fn two_records(alloc: Global) -> Result<Vec<u8>, AllocError> {
    let mut bytes = Vec::new(alloc);
    let sum = push(alloc, &mut bytes, 0, b"one")?;
    push(alloc, &mut bytes, sum, b"two!")?;
    Ok(bytes)
}

fn texts(alloc: Global, text: &[u8]) -> Result<Vec<Vec<u8>>, AllocError> {
    let mut texts = Vec::new(alloc);
    texts.push(Vec::from_slice(alloc, text)?)?;
    Ok(texts)
}

/// Flips the lowest bit of a byte.
fn flip(bytes: &mut Vec<u8>, place: usize) {
    if let Some(byte) = bytes.get_mut(place) {
        *byte ^= 1;
    }
}

/// The same, which are there.
fn records(rt: &impl Abort, alloc: Global) -> Vec<u8> {
    two_records(alloc).expect(rt, "memory")
}

#[test]
fn records_are_written(rt: HostRuntime) {
    let bytes = records(&rt, rt.alloc());
    assert!(rt; bytes.starts_with(FIRST) && bytes.ends_with(SECOND) && bytes.len() == 31);
    let one = texts(rt.alloc(), b"one").expect(&rt, "memory");
    assert!(rt; are_taken(&one));
    let group = group_of(rt.alloc(), 0, 0, 0, &one).expect(&rt, "memory");
    assert!(rt; group.bytes.starts_with(MARKED) && group.bytes.len() == 59);
}

/// Checks how many records are read.
fn expect_count(rt: &impl Abort, alloc: Global, bytes: &[u8], wanted: usize) {
    let found = read(alloc, 0, bytes).expect(rt, "memory");
    assert!(rt; found.records.len() == wanted);
}

/// How many records are whole in so many bytes.
fn whole_in(len: usize) -> usize {
    if len < 15 {
        0
    } else if len < 31 {
        1
    } else {
        2
    }
}

/// Checks what is read of both records.
fn expect_both(rt: &impl Abort, alloc: Global, bytes: &[u8]) {
    let found = read(alloc, 0, bytes).expect(rt, "memory");
    assert!(rt; found.whole == 31 && found.sum == 10_694_778_205_304_935_905);
    let last = found.records.last().expect(rt, "a record");
    assert!(rt; last.offset == 27 && last.text == b"two!".as_slice());
}

#[test]
fn cut_files_are_read(rt: HostRuntime) {
    let bytes = records(&rt, rt.alloc());
    for len in 0..32usize {
        let front = bytes.get(..len).expect(&rt, "a front");
        expect_count(&rt, rt.alloc(), front, whole_in(len));
    }
    expect_both(&rt, rt.alloc(), &bytes);
}

/// Checks how many records are read where the lowest bit of a byte is flipped.
fn expect_changed(rt: &impl Abort, alloc: Global, place: usize) {
    let mut bytes = records(rt, alloc);
    flip(&mut bytes, place);
    expect_count(rt, alloc, &bytes, if place < 15 { 0 } else { 1 });
}

#[test]
fn changed_files_are_read(rt: HostRuntime) {
    for place in 0..31usize {
        expect_changed(&rt, rt.alloc(), place);
    }
}

/// Checks how bytes at a position end a journal.
fn expect_ending(rt: &impl Abort, position: u64, bytes: &[u8], wanted: JournalEnding)
    requires { position + length bytes.now < 2 ^ 64 }
{
    assert!(rt; ending_of(position, bytes) == wanted);
}

#[test]
fn endings_are_decided(rt: HostRuntime) {
    expect_ending(&rt, 0, &[], JournalEnding::Whole);
    expect_ending(&rt, 0, &MARKED[..43], JournalEnding::Torn);
    // The mark was written for the beginning of a file.
    expect_ending(&rt, 59, MARKED, JournalEnding::Moved(71));
    expect_ending(&rt, 59, &MARKED[..43], JournalEnding::Torn);
    expect_ending(&rt, 59, b"\0", JournalEnding::Torn);
    expect_ending(&rt, 59, b"other", JournalEnding::Unexplained);
    let text = JournalEnding::Foreign(Signature::Text);
    expect_ending(&rt, 44, b"other", text);
    // The first record is whole, and its checksum is another after other records.
    expect_ending(&rt, 59, FIRST, JournalEnding::Unexplained);
}

/// Checks as what a file that begins so is recognized.
fn expect_foreign(rt: &impl Abort, bytes: &[u8], wanted: Signature) {
    expect_ending(rt, 0, bytes, JournalEnding::Foreign(wanted));
}

#[test]
fn foreign_files_are_recognized(rt: HostRuntime) {
    expect_foreign(&rt, b"\x1f\x8b\x08", Signature::Gzip);
    expect_foreign(&rt, b"\xef\xbb\xbf{}", Signature::ByteOrderMark);
    expect_foreign(&rt, &[0; 64], Signature::Zeros);
    expect_foreign(&rt, &MARKED[1..], Signature::Records);
    expect_foreign(&rt, b"2024-01-01 started\r\n\xff", Signature::Text);
    expect_foreign(&rt, b"\x7fELF", Signature::Unknown);
    assert!(rt; ending_of(0, b"text").is_opened() == false);
}

/// Memory for what is cut.
fn aside(alloc: Global, is_answering: bool) -> MemoryTailStore {
    MemoryTailStore {
        from: 0,
        bytes: Vec::new(alloc),
        is_answering,
    }
}

/// A journal of two groups, of which the first was synced before the second was appended; so many calls succeed.
fn journal_of_two(alloc: Global, calls_left: u32) -> Option<Journal<MemoryStorage>> {
    let medium = MemoryStorage {
        bytes: Vec::new(alloc),
        calls_left,
        is_synced: true,
    };
    let mut journal = Journal::open(alloc, medium).ok()?;
    journal.append(0, &texts(alloc, b"one").ok()?).ok()?;
    journal.sync().ok()?;
    journal.append(1, &texts(alloc, b"two!").ok()?).ok()?;
    Some(journal)
}

/// The same, which is there.
fn open_journal(rt: &impl Abort, alloc: Global, calls_left: u32) -> Journal<MemoryStorage> {
    journal_of_two(alloc, calls_left).expect(rt, "a journal")
}

/// Its storage.
fn storage_of_two(rt: &impl Abort, alloc: Global) -> MemoryStorage {
    open_journal(rt, alloc, 10).into_storage()
}

/// The same without the last byte: the first group has 59 bytes, the mark of the second 44, its payload's record 16, of
/// which one byte is lost.
fn torn_storage(rt: &impl Abort, alloc: Global) -> MemoryStorage {
    let mut medium = storage_of_two(rt, alloc);
    medium.bytes.truncate(118);
    medium
}

/// Checks that a journal isn't opened, and why.
fn expect_refused(rt: &impl Abort, alloc: Global, medium: MemoryStorage, fault: JournalOpenFault) {
    assert!(rt; Journal::open(alloc, medium).err() == Some(fault));
}

/// Appends one payload behind so many, and checks the outcome.
fn expect_append(
    rt: &impl Abort,
    alloc: Global,
    journal: &mut Journal<MemoryStorage>,
    behind: u64,
    text: &[u8],
    wanted: Result<u64, AppendFault>,
) {
    let list = texts(alloc, text).expect(rt, "memory");
    assert!(rt; journal.append(behind, &list) == wanted);
}

#[test]
fn journals_count(rt: HostRuntime) {
    let alloc = rt.alloc();
    let mut journal = open_journal(&rt, alloc, 10);
    let conflict = Err(AppendFault::Conflict);
    expect_append(&rt, alloc, &mut journal, 0, b"one", conflict);
    let untaken = Err(AppendFault::Untaken);
    expect_append(&rt, alloc, &mut journal, 2, b"", untaken);
    expect_append(&rt, alloc, &mut journal, 2, b"one", Ok(3));
}

/// Checks how many payloads are read from a position on, and the first of them.
fn expect_read(
    rt: &impl Abort,
    journal: &mut Journal<MemoryStorage>,
    position: u64,
    count: usize,
    first: &[u8],
) {
    let found = journal.read_from(position).expect(rt, "texts");
    assert!(rt; found.len() == count);
    match found.first() {
        Some(text) => assert!(rt; text.as_slice() == first),
        None => assert!(rt; false),
    }
}

#[test]
fn journals_are_read(rt: HostRuntime) {
    let mut journal = open_journal(&rt, rt.alloc(), 10);
    expect_read(&rt, &mut journal, 1, 1, b"two!");
    assert!(rt; journal.sync() == Ok(2));
    let mut journal = Journal::open(rt.alloc(), journal.into_storage()).expect(&rt, "a journal");
    expect_read(&rt, &mut journal, 0, 2, b"one");
}

/// What is cut of that storage.
const CUT: CutTail = CutTail {
    from: 103,
    count: 15,
};

#[test]
fn torn_journals_are_cut(rt: HostRuntime) {
    let medium = torn_storage(&rt, rt.alloc());
    let behind = medium.bytes.get(103..).unwrap_or_default();
    let behind = Vec::from_slice(rt.alloc(), behind).expect(&rt, "memory");
    let mut aside = aside(rt.alloc(), true);
    let mut journal = Journal::recover(rt.alloc(), medium, &mut aside).expect(&rt, "a journal");
    assert!(rt; journal.cut() == Some(CUT));
    assert!(rt; aside.from == 103 && aside.bytes == behind);
    assert!(rt; journal.sync() == Ok(1));
    assert!(rt; journal.into_storage().bytes.len() == 103);
}

#[test]
fn what_is_not_kept_is_not_cut(rt: HostRuntime) {
    let medium = torn_storage(&rt, rt.alloc());
    let mut none = aside(rt.alloc(), false);
    let fault = Journal::recover(rt.alloc(), medium, &mut none).err();
    assert!(rt; fault == Some(JournalOpenFault::NotKept));
}

#[test]
fn torn_journals_are_not_opened(rt: HostRuntime) {
    let medium = torn_storage(&rt, rt.alloc());
    expect_refused(&rt, rt.alloc(), medium, JournalOpenFault::Torn(103));
}

#[test]
fn shortened_journals_are_refused(rt: HostRuntime) {
    let mut medium = storage_of_two(&rt, rt.alloc());
    assert!(rt; medium.bytes.len() > 57);
    // One byte of the first payload is removed, so that the mark of the second group stands elsewhere.
    if medium.bytes.len() > 57 {
        let _ = medium.bytes.remove(57);
    }
    expect_refused(&rt, rt.alloc(), medium, JournalOpenFault::Damaged(59));
}

#[test]
fn damaged_journals_are_refused(rt: HostRuntime) {
    let mut medium = storage_of_two(&rt, rt.alloc());
    flip(&mut medium.bytes, 50);
    expect_refused(&rt, rt.alloc(), medium, JournalOpenFault::Damaged(59));
}

#[test]
fn failing_journals_stop(rt: HostRuntime) {
    let alloc = rt.alloc();
    let mut journal = open_journal(&rt, alloc, 5);
    assert!(rt; journal.sync().is_err());
    let unknown = Err(AppendFault::Unknown);
    expect_append(&rt, alloc, &mut journal, 2, b"one", unknown);
    assert!(rt; journal.read_from(0).is_err());
}

#[test]
fn unreadable_files_are_refused(rt: HostRuntime) -> Result<(), Fail> {
    // A folder can be opened, and each read of it fails.
    let folder = FileStorage::new(File::open(&rt, ".")?);
    let mut aside = aside(rt.alloc(), true);
    let fault = Journal::recover(rt.alloc(), folder, &mut aside).err();
    assert!(rt; fault == Some(JournalOpenFault::Failed));
    Ok(())
}

#[test]
fn torn_files_that_stay_torn_are_refused(rt: HostRuntime) -> Result<(), Fail> {
    let mut medium = storage_of_two(&rt, rt.alloc());
    medium.bytes.truncate(118);
    fs::write(&rt, "torn", medium.bytes.as_slice())?;
    // A file that is open for reading alone can't be cut.
    let file = FileStorage::new(File::open(&rt, "torn")?);
    let mut aside = aside(rt.alloc(), true);
    let fault = Journal::recover(rt.alloc(), file, &mut aside).err();
    fs::remove_file(&rt, "torn")?;
    assert!(rt; fault == Some(JournalOpenFault::Failed));
    assert!(rt; aside.from == 103);
    Ok(())
}
