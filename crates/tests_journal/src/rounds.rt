//! A response that is made while a round of the commit log is under way.
ghost use Rattle.std.specs.Prelude.{◌≡◌, [], IfOk};

use crate::commits::read;
use crate::runtime::JoinRuntime;
use futures::FutureExt;
use futures::executor::block_on;
use journal_commit::{
    CommitFault, CommitLog, Confirmation, CountedSpace, FlushFault, LogName, LogPosition,
    SharedLogName, UnnamedHistory, open,
};
use journal_file::{Journal, Log, MemoryStorage, Storage, StorageFault};
use std::alloc::{AllocGlobal, Global};
use std::marker::Brand;
use std::sync::Arc;
use std::sync::atomic::{AtomicBool, Ordering};
use std::test::Fail;
use std::thread::{join, yield_now};

/// The most times that a thread looks at a flag. One that reaches this limit fails the test.
const MOST_TURNS: u32 = 50_000_000;

/// Flags between a flusher's thread and another.
#[derive(Drop)]
struct RoundSignals {
    /// Whether a sync has begun.
    has_begun: AtomicBool,
    /// Whether syncs may end.
    may_end: AtomicBool,
}

/// Storage in memory, whose syncs end once they may.
#[derive(Drop)]
struct HeldStorage<'a> {
    memory: MemoryStorage,
    signals: &'a RoundSignals,
}

impl Storage for HeldStorage<'_> {
    ghost use Rattle.std.specs.Prelude.{◌≡◌, true};

    ghost holds = { λ s bytes. s.memory.bytes.items ≡ bytes };

    ghost is_synced = { λ s. s.memory.is_synced ≡ true };

    fn read(&mut self, alloc: Global) -> Result<Vec<u8>, StorageFault> {
        self.memory.read(alloc)
    }

    fn append(&mut self, bytes: &[u8]) -> Result<(), StorageFault> {
        self.memory.append(bytes)
    }

    fn cut(&mut self, len: u64) -> Result<(), StorageFault> {
        self.memory.cut(len)
    }

    fn sync(&mut self) -> Result<(), StorageFault> {
        self.signals.has_begun.store(true, Ordering::SeqCst);
        if !is_set_in_time(&self.signals.may_end) {
            return Err(StorageFault::Failed);
        }
        self.memory.sync()
    }
}

/// Waits for a flag, and returns whether it was set within the limit.
fn is_set_in_time(flag: &AtomicBool) -> bool {
    for _ in 0..MOST_TURNS {
        if flag.load(Ordering::SeqCst) {
            return true;
        }
        yield_now();
    }
    false
}

/// Has responses ask for a round until one has begun, and returns whether that was within the limit.
fn begin_round<K: LogName, L: Log, R: JoinRuntime>(
    rt: &R,
    keeper: &Arc<CommitLog<K, L, CountedSpace>>,
    nothing: &LogPosition<K, L>,
    signals: &RoundSignals,
) -> Result<bool, Fail> {
    for _ in 0..MOST_TURNS {
        if signals.has_begun.load(Ordering::SeqCst) {
            return Ok(true);
        }
        let _ = read(keeper, nothing)?.now_or_never(rt)?;
        yield_now();
    }
    Ok(false)
}

/// What a response is answered that is made while a round is under way, which ends behind that; `None` where no round
/// began.
fn ask_during_round<K: LogName, L: Log, R: JoinRuntime>(
    rt: &R,
    keeper: &Arc<CommitLog<K, L, CountedSpace>>,
    nothing: &LogPosition<K, L>,
    signals: &RoundSignals,
) -> Result<Option<Result<u32, CommitFault>>, Fail> {
    if !begin_round(rt, keeper, nothing, signals)? {
        return Ok(None);
    }
    let response = read(keeper, nothing)?;
    signals.may_end.store(true, Ordering::SeqCst);
    Ok(Some(block_on(rt, response)?))
}

/// Asks during the first round, and returns how the flusher ended and what was answered.
fn serve_rounds<K, L, R>(
    rt: &R,
    opened: UnnamedHistory<L>,
    log: L,
    signals: &RoundSignals,
) -> Result<(Result<L, FlushFault>, Option<Result<u32, CommitFault>>), Fail>
where
    K: SharedLogName,
    L: Log + Send + Sync,
    R: JoinRuntime,
    requires book { opened.seen.book ≡ K.book }
    requires listed { L.may_be log K.first }
{
    let space = CountedSpace { left: 0, aside: 0 };
    let (keeper, flusher, nothing) = open::<K, L, CountedSpace>(
        rt.alloc(),
        opened,
        log,
        space,
        1,
        Confirmation::EachResponse,
    )?;
    let keeper = Arc::new(rt.alloc(), keeper)?;
    signals.has_begun.store(false, Ordering::SeqCst);
    signals.may_end.store(false, Ordering::SeqCst);
    let (log, told) = join(
        rt,
        || flusher.run(rt, &keeper),
        || {
            let told = ask_during_round(rt, &keeper, &nothing, signals);
            keeper.stop(rt);
            told
        },
    );
    Ok((log.map(|ended| ended.into_log()), told?))
}

/// Empty storage of ten calls, whose syncs wait for these signals.
fn held_storage<'a>(alloc: Global, signals: &'a RoundSignals) -> HeldStorage<'a>
    ensures { result.memory.bytes.items ≡ [] }
{
    HeldStorage {
        memory: MemoryStorage {
            bytes: Vec::new(alloc),
            calls_left: 10,
            is_synced: true,
        },
        signals,
    }
}

/// A journal there that has nothing yet, and the history that continues it.
fn held_journal<'a, R: AllocGlobal>(
    rt: &R,
    signals: &'a RoundSignals,
) -> Result<
    (
        Journal<HeldStorage<'a>>,
        UnnamedHistory<Journal<HeldStorage<'a>>>,
    ),
    Fail,
>
    ensures { IfOk result (λ new. ⟦<Journal<HeldStorage<'a>> as Log>⟧.may_be new.0 []) }
{
    let Ok(mut log) = Journal::open(rt.alloc(), held_storage(rt.alloc(), signals)) else {
        return Err("a journal".into());
    };
    let Ok(opened) = UnnamedHistory::new(&mut log) else {
        return Err("a history".into());
    };
    Ok((log, opened))
}

/// What was answered during a round over a journal, and how many calls its storage has left of ten.
fn rounds_over_journal<R: JoinRuntime>(
    rt: &R,
) -> Result<(Option<u32>, Option<Result<u32, CommitFault>>), Fail> {
    let signals = RoundSignals {
        has_begun: AtomicBool::new(false),
        may_end: AtomicBool::new(true),
    };
    let (log, opened) = held_journal(rt, &signals)?;
    let (log, told) = serve_rounds::<Brand, Journal<HeldStorage<'_>>, R>(
        rt, opened, log, &signals,
    )?;
    let calls_left = log.ok().map(|log| log.into_storage().memory.calls_left);
    Ok((calls_left, told))
}

#[test]
fn a_round_under_way_confirms_no_new_response(rt: HostRuntime) -> Result<(), Fail> {
    let (calls_left, told) = rounds_over_journal(&rt)?;
    assert!(rt; told == Some(Ok(7)));
    // Three calls began to serve, one ended it, and two are rounds.
    assert!(rt; calls_left == Some(4));
    Ok(())
}
