//! Tests of a journal's storage in a register: each fault on the way to the register and back, with lengths and counts
//! worked out by hand. A group of one payload takes 44 bytes for its mark, 12 for the payload's head, and the payload.
use journal_file::{AppendFault, Journal, JournalOpenFault, Log, LogEnd};
use journal_register::{ChunkKey, Extent, FIRST_HEAD, Head, Owner};
use journal_remote::{Delivery, MemoryEngine, RemoteStorage, Tenure, memory_storage};
use std::alloc::{AllocError, Global};
use std::process::Abort;

/// The owner of the register.
const FIRST: Owner = Owner { epoch: 1, nonce: 7 };

/// The nonce of the one who claims it from that one.
const SECOND: u64 = 9;

/// A journal over a register in memory.
type RemoteJournal = Journal<RemoteStorage<MemoryEngine>>;

/// The journal of a register without chunks, whose messages are carried so once it is open: to open it takes two looks.
/// A transaction is sent three times at the most.
fn journal_of(alloc: Global, then: &[Delivery]) -> Option<RemoteJournal> {
    let mut deliveries = Vec::from_slice(alloc, &[Delivery::Whole, Delivery::Whole]).ok()?;
    deliveries.extend_from_slice(then).ok()?;
    let tenure = Tenure {
        owner: FIRST,
        head: FIRST_HEAD,
    };
    Journal::open(alloc, memory_storage(alloc, tenure, deliveries, 3)).ok()
}

/// The same, which is there.
fn open_journal(rt: &impl Abort, alloc: Global, then: &[Delivery]) -> RemoteJournal {
    journal_of(alloc, then).expect(rt, "a journal")
}

/// A list of one payload.
fn texts(alloc: Global, text: &[u8]) -> Result<Vec<Vec<u8>>, AllocError> {
    let mut texts = Vec::new(alloc);
    texts.push(Vec::from_slice(alloc, text)?)?;
    Ok(texts)
}

/// A list of one payload of so many bytes.
fn long_text(alloc: Global, len: usize) -> Result<Vec<Vec<u8>>, AllocError> {
    let mut text = Vec::new(alloc);
    for _ in 0..len {
        text.push(b'a')?;
    }
    let mut texts = Vec::new(alloc);
    texts.push(text)?;
    Ok(texts)
}

/// Appends one payload behind so many, and checks the outcome.
fn expect_append(
    rt: &impl Abort,
    alloc: Global,
    journal: &mut RemoteJournal,
    behind: u64,
    text: &[u8],
    wanted: Result<u64, AppendFault>,
) {
    let list = texts(alloc, text).expect(rt, "memory");
    assert!(rt; journal.append(behind, &list) == wanted);
}

/// Appends a payload of 300,000 bytes, and checks the outcome.
fn expect_long_append(
    rt: &impl Abort,
    alloc: Global,
    journal: &mut RemoteJournal,
    wanted: Result<u64, AppendFault>,
) {
    let list = long_text(alloc, 300_000).expect(rt, "memory");
    assert!(rt; journal.append(0, &list) == wanted);
}

/// The engine of a journal that isn't used any more, once all that is due has come.
fn engine_of(journal: RemoteJournal) -> MemoryEngine {
    let mut engine = journal.into_storage().into_engine();
    engine.settle();
    engine
}

/// Checks that a journal has these many chunks, with the head behind them at this position, and this many payloads.
fn expect_head(rt: &impl Abort, head: Head, chunks: u64, position: u64, count: u64) {
    assert!(rt; head.extent.chunks == chunks);
    assert!(rt; head.extent.end.position == position && head.extent.end.count == count);
}

/// Checks the same of a journal that isn't used any more, and how many transactions were done. Returns how many messages
/// were sent.
fn expect_left(
    rt: &impl Abort,
    journal: RemoteJournal,
    chunks: u64,
    position: u64,
    count: u64,
    writes: usize,
) -> u64 {
    let engine = engine_of(journal);
    expect_head(rt, engine.register.head, chunks, position, count);
    assert!(rt; engine.register.writes.len() == writes);
    engine.sent
}

/// How many bytes the chunk with this index has, of the first generation; `None` where it doesn't stand.
fn chunk_len(engine: &MemoryEngine, index: u64) -> Option<usize> {
    let generation = FIRST_HEAD.extent.generation;
    let chunk = engine.register.chunk(ChunkKey { generation, index })?;
    Some(chunk.len())
}

/// Checks that these two payloads are read.
fn expect_read(rt: &impl Abort, journal: &mut RemoteJournal, first: &[u8], second: &[u8]) {
    let found = journal.read_from(0).expect(rt, "payloads");
    assert!(rt; found.len() == 2);
    assert!(rt; found[0].as_slice() == first && found[1].as_slice() == second);
}

#[test]
fn appended_payloads_are_read(rt: HostRuntime) {
    let alloc = rt.alloc();
    let mut journal = open_journal(&rt, alloc, &[]);
    expect_append(&rt, alloc, &mut journal, 0, b"one", Ok(1));
    assert!(rt; journal.sync() == Ok(1));
    expect_append(&rt, alloc, &mut journal, 1, b"two!", Ok(2));
    expect_read(&rt, &mut journal, b"one", b"two!");
    // 44 + 12 + 3, and 44 + 12 + 4 more
    expect_left(&rt, journal, 2, 119, 2, 2);
}

#[test]
fn sync_behind_an_append_sends_nothing(rt: HostRuntime) {
    let alloc = rt.alloc();
    let mut journal = open_journal(&rt, alloc, &[]);
    expect_append(&rt, alloc, &mut journal, 0, b"one", Ok(1));
    assert!(rt; journal.sync() == Ok(1));
    assert!(rt; journal.sync() == Ok(1));
    // two looks to open it, the append, and the look of the second sync
    assert!(rt; expect_left(&rt, journal, 1, 59, 1, 1) == 4);
}

/// Appends one payload, whose message is carried so, and checks that it stands once, by so many messages, of which the
/// first two are the looks that open the journal.
fn expect_appended_once(rt: &impl Abort, alloc: Global, then: &[Delivery], sent: u64) {
    let mut journal = open_journal(rt, alloc, then);
    expect_append(rt, alloc, &mut journal, 0, b"one", Ok(1));
    assert!(rt; expect_left(rt, journal, 1, 59, 1, 1) == sent);
}

/// Ways in which messages are carried, and how many are sent.
const FAULTS: &[(&[Delivery], u64)] = &[
    (&[Delivery::LostRequest], 4),
    (&[Delivery::LostAnswer], 4),
    (&[Delivery::Twice], 3),
    (&[Delivery::Held], 4),
    (&[Delivery::Held, Delivery::BehindHeld], 4),
    (&[Delivery::Held, Delivery::BeforeHeld], 4),
    (&[Delivery::LostRequest, Delivery::LostAnswer], 5),
];

#[test]
fn faults_on_the_way_are_mended(rt: HostRuntime) {
    for (then, sent) in FAULTS {
        expect_appended_once(&rt, rt.alloc(), then, *sent);
    }
}

/// The message of an append comes late.
const LATE: &[Delivery] = &[Delivery::Held, Delivery::Whole, Delivery::BehindHeld];

#[test]
fn late_message_changes_nothing(rt: HostRuntime) {
    let alloc = rt.alloc();
    let mut journal = open_journal(&rt, alloc, LATE);
    expect_append(&rt, alloc, &mut journal, 0, b"one", Ok(1));
    expect_append(&rt, alloc, &mut journal, 1, b"one", Ok(2));
    expect_left(&rt, journal, 2, 118, 2, 2);
}

/// Another one claims the register before a message comes.
const CLAIM: &[Delivery] = &[Delivery::BehindClaim(SECOND)];

#[test]
fn overtaken_owner_appends_nothing(rt: HostRuntime) {
    let alloc = rt.alloc();
    let mut journal = open_journal(&rt, alloc, CLAIM);
    let unknown = Err(AppendFault::Unknown);
    expect_append(&rt, alloc, &mut journal, 0, b"one", unknown);
    expect_append(&rt, alloc, &mut journal, 0, b"one", unknown);
    assert!(rt; journal.sync().is_err());
    // the claim alone was done
    assert!(rt; expect_left(&rt, journal, 0, 0, 0, 1) == 3);
}

#[test]
fn overtaken_owner_syncs_nothing(rt: HostRuntime) {
    let alloc = rt.alloc();
    assert!(rt; open_journal(&rt, alloc, CLAIM).sync().is_err());
    assert!(rt; open_journal(&rt, alloc, CLAIM).read_from(0).is_err());
}

/// An append comes, and nothing is heard of it.
const SILENCE: &[Delivery] = &[
    Delivery::LostAnswer,
    Delivery::LostRequest,
    Delivery::LostRequest,
];

#[test]
fn silence_is_no_answer(rt: HostRuntime) {
    let alloc = rt.alloc();
    let mut journal = open_journal(&rt, alloc, SILENCE);
    let unknown = Err(AppendFault::Unknown);
    expect_append(&rt, alloc, &mut journal, 0, b"one", unknown);
    expect_append(&rt, alloc, &mut journal, 0, b"one", unknown);
    // it came, and nothing that was sent behind it did
    assert!(rt; expect_left(&rt, journal, 1, 59, 1, 1) == 5);
}

/// Checks that one payload of 300,000 bytes is read.
fn expect_long_read(rt: &impl Abort, journal: &mut RemoteJournal) {
    let found = journal.read_from(0).expect(rt, "payloads");
    assert!(rt; found.len() == 1 && found[0].len() == 300_000);
}

// 44 + 12 + 300,000 bytes: a chunk of 262,144 and one of 37,912.
#[test]
fn long_groups_have_several_chunks(rt: HostRuntime) {
    let alloc = rt.alloc();
    let mut journal = open_journal(&rt, alloc, &[]);
    expect_long_append(&rt, alloc, &mut journal, Ok(1));
    expect_long_read(&rt, &mut journal);
    let engine = engine_of(journal);
    expect_head(&rt, engine.register.head, 2, 300_056, 1);
    assert!(rt; chunk_len(&engine, 0) == Some(262_144) && chunk_len(&engine, 1) == Some(37_912));
    assert!(rt; chunk_len(&engine, 2).is_none());
}

/// The message of a group's second chunk is lost, however often it is sent.
const NO_LAST_CHUNK: &[Delivery] = &[
    Delivery::Whole,
    Delivery::LostRequest,
    Delivery::LostRequest,
    Delivery::LostRequest,
];

#[test]
fn group_without_its_last_chunk_is_not_there(rt: HostRuntime) {
    let alloc = rt.alloc();
    let mut journal = open_journal(&rt, alloc, NO_LAST_CHUNK);
    expect_long_append(&rt, alloc, &mut journal, Err(AppendFault::Unknown));
    expect_left(&rt, journal, 0, 0, 0, 1);
}

/// Checks that no journal is opened where the head of a register without chunks says that its list ends so.
fn expect_refused(rt: &impl Abort, alloc: Global, end: LogEnd) {
    let extent = Extent {
        end,
        ..FIRST_HEAD.extent
    };
    let head = Head {
        extent,
        ..FIRST_HEAD
    };
    let tenure = Tenure { owner: FIRST, head };
    let storage = memory_storage(alloc, tenure, Vec::new(alloc), 3);
    assert!(rt; matches!(Journal::open(alloc, storage), Err(JournalOpenFault::Failed)));
}

// A list of no payloads ends at 0 with the checksum 0.
#[test]
fn head_that_is_not_of_the_bytes_is_refused(rt: HostRuntime) {
    let alloc = rt.alloc();
    let end = LogEnd::of_empty_log();
    expect_refused(&rt, alloc, LogEnd { position: 1, ..end });
    expect_refused(&rt, alloc, LogEnd { sum: 1, ..end });
    expect_refused(&rt, alloc, LogEnd { count: 1, ..end });
}
