//! Replacing a log's file by a compacted one, over journals in memory whose calls fail from the Nth on.
ghost use Rattle.std.specs.Prelude.{ℕ, List, IfSome};

use journal_file::{
    AppendFault, HasLogEnd, Journal, Log, LogEnd, MemoryStorage, ReadFault, SyncFault,
};
use journal_swap::{
    CompactedLog, CompactionSchedule, CompactionSource, Equivalence, ReplaceFault, SwapLog,
    is_small_lag,
};
use std::alloc::{AllocError, Global};
use std::cell::{Cell, RefCell};
use std::process::Abort;

/// As many calls as any test makes at the most.
const MANY: u32 = 1_000;

/// Takes any list to have the effect of any other.
struct Anything;

impl Equivalence for Anything {
    ghost use Rattle.std.specs.Prelude.{⊤};

    ghost same = { λ _ _. ⊤ };
}

/// What a test passes to the compaction side of a log, and what that side is notified of.
#[derive(Drop)]
struct ProbeState<L: HasLogEnd> {
    ready: RefCell<Option<CompactedLog<L, Anything>>>,
    /// Whether copies are kept of what is appended after the next log end.
    is_kept: Cell<bool>,
    /// Whether no compacted log can take the log's place.
    is_failing: Cell<bool>,
    /// The end of the compacted log that took the place last.
    replaced: Cell<Option<LogEnd>>,
    /// Whether the last compacted log took the place, and how many bytes the log has then.
    ended: Cell<Option<(bool, u64)>>,
    /// The log end up to which the log was synced last.
    synced: Cell<Option<LogEnd>>,
}

/// The compaction side of a log, which a test steers and observes.
#[derive(Drop)]
struct CompactionProbe<'a, L: HasLogEnd>(&'a ProbeState<L>);

type LogUnderTest<'a> = SwapLog<
    Journal<MemoryStorage>,
    Anything,
    CompactionProbe<'a, Journal<MemoryStorage>>,
>;

impl<L: HasLogEnd> CompactionSource<L, Anything> for CompactionProbe<'_, L> {
    fn take_ready(&mut self) -> Option<CompactedLog<L, Anything>> {
        match self.0.ready.try_replace(None) {
            Ok(ready) => ready,
            Err(_) => None,
        }
    }

    fn replace(&mut self, log: &L) -> Result<(), ReplaceFault> {
        if self.0.is_failing.get() {
            return Err(ReplaceFault);
        }
        self.0.replaced.set(Some(log.log_end()));
        Ok(())
    }

    fn on_swap_tried(&mut self, is_exchanged: bool, bytes: u64) {
        self.0.ended.set(Some((is_exchanged, bytes)));
    }

    fn on_synced(&mut self, seal: LogEnd) -> bool {
        self.0.synced.set(Some(seal));
        self.0.is_kept.get()
    }
}

fn new_probe_state() -> ProbeState<Journal<MemoryStorage>> {
    ProbeState {
        ready: RefCell::new(None),
        is_kept: Cell::new(true),
        is_failing: Cell::new(false),
        replaced: Cell::new(None),
        ended: Cell::new(None),
        synced: Cell::new(None),
    }
}

fn texts(alloc: Global, text: &[u8]) -> Result<Vec<Vec<u8>>, AllocError> {
    let mut texts = Vec::new(alloc);
    texts.push(Vec::from_slice(alloc, text)?)?;
    Ok(texts)
}

/// Appends a payload to a log, and syncs it.
fn append_one<L: HasLogEnd>(alloc: Global, log: L, text: &[u8]) -> Option<L>
    requires { (list : List (List ℕ)) × L.may_be log list }
    ensures { IfSome result (λ log. (list : List (List ℕ)) × L.may_be log list) }
{
    let mut log = log;
    let Ok(texts) = texts(alloc, text) else {
        return None;
    };
    let count = log.log_end().count;
    let Ok(_) = log.append(count, &texts) else {
        return None;
    };
    let Ok(_) = log.sync() else {
        return None;
    };
    Some(log)
}

/// A log as the compacted one of what another holds.
fn as_compacted<L: HasLogEnd>(log: L, other: &L) -> CompactedLog<L, Anything>
    requires one { (list : List (List ℕ)) × L.may_be log list }
    requires other { (list : List (List ℕ)) × L.may_be other.now list }
{
    CompactedLog::new(log, other.log_end())
}

fn memory(alloc: Global, calls_left: u32) -> MemoryStorage {
    MemoryStorage {
        bytes: Vec::new(alloc),
        calls_left,
        is_synced: true,
    }
}

/// A compacted log, of "both", for a log of "one" and "two". So many calls succeed on its storage after that.
fn compacted_log(
    alloc: Global,
    calls: u32,
) -> Option<CompactedLog<Journal<MemoryStorage>, Anything>> {
    let Ok(long) = Journal::open(alloc, memory(alloc, MANY)) else {
        return None;
    };
    let long = append_one(alloc, long, b"one")?;
    let long = append_one(alloc, long, b"two")?;
    // The storage is read and synced, and then appended to and synced once.
    let Ok(short) = Journal::open(alloc, memory(alloc, calls.saturating_add(4))) else {
        return None;
    };
    let short = append_one(alloc, short, b"both")?;
    Some(as_compacted(short, &long))
}

/// The log end of a log of these two payloads.
fn log_end_of(alloc: Global, first: &[u8], second: &[u8]) -> Option<LogEnd> {
    let Ok(log) = Journal::open(alloc, memory(alloc, MANY)) else {
        return None;
    };
    let log = append_one(alloc, log, first)?;
    let log = append_one(alloc, log, second)?;
    Some(log.log_end())
}

/// Appends a payload and syncs it: how many payloads the log has then.
fn append_and_sync(
    alloc: Global,
    log: &mut LogUnderTest<'_>,
    count: u64,
    text: &[u8],
) -> Result<u64, AppendFault> {
    log.append(count, &texts(alloc, text)?)?;
    match log.sync() {
        Ok(count) => Ok(count),
        Err(SyncFault) => Err(AppendFault::Unknown),
    }
}

/// A log of "one" and "two", synced. So many calls succeed on its storage after that.
fn log_of_two(
    alloc: Global,
    board: &ProbeState<Journal<MemoryStorage>>,
    calls: u32,
) -> Option<LogUnderTest<'_>> {
    let Ok(log) = Journal::open(alloc, memory(alloc, calls.saturating_add(6))) else {
        return None;
    };
    let log = append_one(alloc, log, b"one")?;
    let mut log = SwapLog::new(alloc, log, CompactionProbe(board));
    append_and_sync(alloc, &mut log, 1, b"two").ok()?;
    Some(log)
}

/// Offers a compacted log to the compaction side, and returns whether there was one.
fn offer(
    board: &ProbeState<Journal<MemoryStorage>>,
    shorter: Option<CompactedLog<Journal<MemoryStorage>, Anything>>,
) -> bool {
    shorter.is_some() && board.ready.try_replace(shorter).is_ok()
}

/// The state of a log's probe.
type Board = ProbeState<Journal<MemoryStorage>>;

/// A log of "one" and "two", which is there.
fn open_log<'b>(rt: &impl Abort, alloc: Global, board: &'b Board, calls: u32) -> LogUnderTest<'b> {
    log_of_two(alloc, board, calls).expect(rt, "a log")
}

/// Offers a compacted log, on whose storage so many calls succeed.
fn expect_offer(rt: &impl Abort, alloc: Global, board: &Board, calls: u32) {
    assert!(rt; offer(board, compacted_log(alloc, calls)));
}

/// Appends a payload and syncs it, and checks the outcome.
fn expect_append(
    rt: &impl Abort,
    alloc: Global,
    log: &mut LogUnderTest<'_>,
    count: u64,
    text: &[u8],
    wanted: Result<u64, AppendFault>,
) {
    assert!(rt; append_and_sync(alloc, log, count, text) == wanted);
}

/// Checks how many payloads are read from a log.
fn expect_count(rt: &impl Abort, log: &mut LogUnderTest<'_>, wanted: usize) {
    let found = log.read_from(0).expect(rt, "payloads");
    assert!(rt; found.len() == wanted);
}

/// Checks that a log isn't read.
fn expect_unread(rt: &impl Abort, log: &mut LogUnderTest<'_>) {
    assert!(rt; log.read_from(0).err() == Some(ReadFault::NoAnswer));
}

/// Checks that no compacted log took the place.
fn expect_none(rt: &impl Abort, board: &Board) {
    assert!(rt; board.replaced.get().is_none());
}

/// Checks that a compacted log that was offered didn't take the place.
fn expect_ended(rt: &impl Abort, board: &Board) {
    match board.ended.get() {
        Some((is_exchanged, _)) => assert!(rt; !is_exchanged),
        None => assert!(rt; false),
    }
}

/// Checks the log end behind a compacted log that took the place.
fn expect_exchanged(rt: &impl Abort, board: &Board, seal: LogEnd) {
    assert!(rt; board.replaced.get() == Some(seal));
    assert!(rt; board.ended.get() == Some((true, seal.position)));
    assert!(rt; board.synced.get() == Some(seal));
}

#[test]
fn files_are_replaced(rt: HostRuntime) {
    let alloc = rt.alloc();
    let board = new_probe_state();
    expect_count(&rt, &mut open_log(&rt, alloc, &board, MANY), 2);
    let mut log = open_log(&rt, alloc, &board, MANY);
    expect_offer(&rt, alloc, &board, MANY);
    expect_append(&rt, alloc, &mut log, 2, b"three", Ok(3));
    let seal = log_end_of(alloc, b"both", b"three").expect(&rt, "a seal");
    expect_exchanged(&rt, &board, seal);
    let conflict = Err(AppendFault::Conflict);
    expect_append(&rt, alloc, &mut log, 2, b"four", conflict);
    expect_append(&rt, alloc, &mut log, 3, b"four", Ok(4));
    // Its file doesn't hold all that was appended.
    expect_unread(&rt, &mut log);
}

#[test]
fn a_log_that_lacks_payloads_takes_no_place(rt: HostRuntime) {
    let alloc = rt.alloc();
    let board = new_probe_state();
    board.is_kept.set(false);
    let mut log = open_log(&rt, alloc, &board, MANY);
    expect_offer(&rt, alloc, &board, MANY);
    expect_append(&rt, alloc, &mut log, 2, b"three", Ok(3));
    expect_none(&rt, &board);
    expect_count(&rt, &mut log, 3);
    let bytes = board.synced.get().expect(&rt, "a seal").position;
    assert!(rt; board.ended.get() == Some((false, bytes)));
    // The copies kept from here on come after another log end.
    board.is_kept.set(true);
    expect_append(&rt, alloc, &mut log, 3, b"four", Ok(4));
    expect_offer(&rt, alloc, &board, MANY);
    expect_append(&rt, alloc, &mut log, 4, b"five", Ok(5));
    expect_none(&rt, &board);
    expect_count(&rt, &mut log, 5);
}

#[test]
fn too_much_is_not_kept(rt: HostRuntime) {
    let alloc = rt.alloc();
    let board = new_probe_state();
    let mut log = open_log(&rt, alloc, &board, MANY);
    board.is_kept.set(false);
    let large = vec![in alloc; 120u8; 1_048_576].expect(&rt, "memory");
    // They are as many bytes as copies may have at the most.
    for count in 2..10u64 {
        let behind = Ok(count.saturating_add(1));
        expect_append(&rt, alloc, &mut log, count, &large, behind);
    }
    expect_offer(&rt, alloc, &board, MANY);
    expect_append(&rt, alloc, &mut log, 10, b"last", Ok(11));
    expect_none(&rt, &board);
    expect_ended(&rt, &board);
}

/// Checks that a compacted log doesn't take the place where so many calls succeed on its storage.
fn expect_failing(rt: &impl Abort, alloc: Global, calls: u32) {
    let board = new_probe_state();
    let mut log = open_log(rt, alloc, &board, MANY);
    expect_offer(rt, alloc, &board, calls);
    expect_append(rt, alloc, &mut log, 2, b"three", Ok(3));
    expect_none(rt, &board);
    expect_count(rt, &mut log, 3);
    expect_ended(rt, &board);
}

// The compacted log's append fails, or its sync.
#[test]
fn compacted_logs_that_fail_are_not_taken(rt: HostRuntime) {
    expect_failing(&rt, rt.alloc(), 0);
    expect_failing(&rt, rt.alloc(), 1);
}

#[test]
fn replacements_that_fail_end_it(rt: HostRuntime) {
    let alloc = rt.alloc();
    let board = new_probe_state();
    let mut log = open_log(&rt, alloc, &board, MANY);
    expect_offer(&rt, alloc, &board, MANY);
    board.is_failing.set(true);
    let unknown = Err(AppendFault::Unknown);
    expect_append(&rt, alloc, &mut log, 2, b"three", unknown);
    expect_ended(&rt, &board);
    board.is_failing.set(false);
    expect_append(&rt, alloc, &mut log, 3, b"four", unknown);
    assert!(rt; log.sync().is_err());
    expect_unread(&rt, &mut log);
}

/// Checks that a log on whose storage so many calls succeed ends.
fn expect_end(rt: &impl Abort, alloc: Global, calls: u32) {
    let board = new_probe_state();
    let mut log = open_log(rt, alloc, &board, calls);
    let unknown = Err(AppendFault::Unknown);
    expect_append(rt, alloc, &mut log, 2, b"three", unknown);
    assert!(rt; board.ended.get().is_none());
    assert!(rt; log.sync().is_err());
}

// The log's append fails, or its sync.
#[test]
fn logs_that_fail_end_it(rt: HostRuntime) {
    expect_end(&rt, rt.alloc(), 0);
    expect_end(&rt, rt.alloc(), 1);
}

#[test]
fn journals_are_compacted_by_their_growth(rt: HostRuntime) {
    let mut pace = CompactionSchedule::new(100);
    assert!(rt; !pace.is_due(100) && pace.is_due(101));
    pace.record_attempt(true, 50);
    assert!(rt; !pace.is_due(250) && pace.is_due(251));
    pace.record_attempt(false, 251);
    assert!(rt; !pace.is_due(502) && pace.is_due(503));
    pace.record_attempt(true, u64::MAX);
    assert!(rt; !pace.is_due(u64::MAX));
    assert!(rt; !CompactionSchedule::new(0).is_due(u64::MAX));
    assert!(rt; is_small_lag(1_048_576) && !is_small_lag(1_048_577));
}
