//! Group commit over a journal in memory whose calls fail from the Nth on.
ghost use Rattle.std.specs.Prelude.{◌≡◌, ℕ, List, [], IfOk};
ghost use Rattle.tests_journal.specs.declared.commits.TheConstants.{AUTHOR};

use crate::runtime::{JoinRuntime, JournalRuntime, WaitingRuntime};
use futures::FutureExt;
use futures::executor::block_on;
use journal_commit::{
    AwaitSync, CommitFault, CommitLog, Confirmation, CountedSpace, FlushFault, LogName,
    LogPosition, MOST_TEXTS_OF_ONE, OwnRecords, ReserveFault, ResponseTiming, SharedLogName,
    UnnamedHistory, Usage, open,
};
use journal_file::{AppendFault, Journal, Log, MemoryStorage};
use std::alloc::{AllocError, AllocGlobal, Global};
use std::marker::Brand;
use std::sync::{Arc, Wait};
use std::test::Fail;
use std::thread::join;

/// How many clients there are.
const CLIENTS: usize = 6;

/// The client, where there is one alone.
const AUTHOR: usize = 1;

/// The client of a log whose payloads are all its own.
#[derive(Drop)]
struct SoleClient<K: LogName, L: Log> {
    own: OwnRecords<K, L>,
    ghost is_alone: { (text : List ℕ) → K.client_of text ≡ own.client },
}

impl<K: LogName, L: Log> SoleClient<K, L> {
    /// The author, who has appended nothing.
    fn new(nothing: &LogPosition<K, L>) -> SoleClient<K, L>
        requires clients { (text : List ℕ) → K.client_of text ≡ AUTHOR }
        requires nothing { nothing.now ≡ [] }
    {
        SoleClient {
            own: OwnRecords::new(AUTHOR, nothing),
        }
    }
}

/// Why no reservation is made for a payload of a client. One that is made is released.
fn reserve_fault<K: LogName, L: Log, R: Wait>(
    rt: &R,
    keeper: &CommitLog<K, L, CountedSpace>,
    client: usize,
    text: Vec<u8>,
) -> Option<ReserveFault> {
    match keeper.reserve(rt, client, text) {
        Ok(place) => {
            keeper.release(rt, place);
            None
        }
        Err(fault) => Some(fault),
    }
}

fn text(rt: &impl AllocGlobal, text: &[u8]) -> Result<Vec<u8>, AllocError> {
    Vec::from_slice(rt.alloc(), text)
}

/// Checks why no reservation is made for a payload of a client, or that one is made, which is released.
fn expect_fault<K: LogName, L: Log, R: JournalRuntime>(
    rt: &R,
    keeper: &CommitLog<K, L, CountedSpace>,
    client: usize,
    payload: &[u8],
    wanted: Option<ReserveFault>,
) {
    let payload = text(rt, payload).expect(rt, "memory");
    assert!(rt; reserve_fault(rt, keeper, client, payload) == wanted);
}

/// Appends a payload, and waits until it is synced for the response that shows it.
fn reply_once_synced<K: LogName, L: Log, R: JoinRuntime>(
    rt: &R,
    keeper: &Arc<CommitLog<K, L, CountedSpace>>,
    client: &mut SoleClient<K, L>,
    text: &[u8],
) -> Result<Result<u32, CommitFault>, Fail> {
    let Ok(place) = keeper.reserve(rt, AUTHOR, Vec::from_slice(rt.alloc(), text)?) else {
        return Ok(Err(CommitFault::NoMemory));
    };
    let stamp = match keeper.append(rt, &mut client.own, place) {
        Ok(stamp) => keeper.log_position(&stamp),
        Err(fault) => return Ok(Err(fault)),
    };
    let reply = AwaitSync::new(Arc::try_clone(keeper)?, stamp, 7u32);
    Ok(block_on(rt, reply)?)
}

/// Appends a payload as a publication is, and waits until it is synced: how many payloads are synced then, or `None`
/// where that failed.
fn publish<K: LogName, L: Log, R: JoinRuntime>(
    rt: &R,
    keeper: &CommitLog<K, L, CountedSpace>,
    client: &mut SoleClient<K, L>,
    text: &[u8],
) -> Result<Option<u64>, Fail> {
    match keeper.reserve(rt, AUTHOR, Vec::from_slice(rt.alloc(), text)?) {
        Ok(place) => Ok(
            keeper
                .append_synced(rt, &mut client.own, place)
                .ok()
                .map(|stamp| stamp.len()),
        ),
        Err(_) => Ok(None),
    }
}

/// A response that shows no record.
pub(crate) fn read<K: LogName, L: Log>(
    keeper: &Arc<CommitLog<K, L, CountedSpace>>,
    nothing: &LogPosition<K, L>,
) -> Result<AwaitSync<u32, K, L, CountedSpace>, AllocError> {
    Ok(AwaitSync::new(Arc::try_clone(keeper)?, nothing.again(), 7u32))
}

/// What a client was answered.
#[derive(Drop)]
struct ClientReplies {
    reply: Result<u32, CommitFault>,
    published: Option<u64>,
    /// What it was answered behind that to a request that shows no record.
    read: Result<u32, CommitFault>,
    /// Whether its whole share of the log is free then.
    is_free: bool,
}

fn client_replies<K: LogName, L: Log, R: JoinRuntime>(
    rt: &R,
    keeper: &Arc<CommitLog<K, L, CountedSpace>>,
    client: SoleClient<K, L>,
    nothing: &LogPosition<K, L>,
) -> Result<ClientReplies, Fail> {
    let mut client = client;
    Ok(ClientReplies {
        reply: reply_once_synced(rt, keeper, &mut client, b"one")?,
        published: publish(rt, keeper, &mut client, b"two")?,
        read: block_on(rt, read(keeper, nothing)?)?,
        is_free: keeper.has_share(
            rt,
            AUTHOR,
            Usage {
                texts: MOST_TEXTS_OF_ONE,
                bytes: 0,
            },
        ),
    })
}

/// Serves one client, and returns how the flusher ended and what the client was answered.
fn serve_client<K, L, R>(
    rt: &R,
    opened: UnnamedHistory<L>,
    log: L,
    confirmation: Confirmation,
) -> Result<(Result<L, FlushFault>, ClientReplies), Fail>
where
    K: SharedLogName,
    L: Log + Send + Sync,
    R: JoinRuntime,
    requires book { opened.seen.book ≡ K.book }
    requires clients { (text : List ℕ) → K.client_of text ≡ AUTHOR }
    requires listed { L.may_be log K.first }
{
    let space = CountedSpace {
        left: 100_000_000,
        aside: 0,
    };
    let (keeper, flusher, nothing) = open::<K, L, CountedSpace>(
        rt.alloc(),
        opened,
        log,
        space,
        CLIENTS,
        confirmation,
    )?;
    let keeper = Arc::new(rt.alloc(), keeper)?;
    let client = SoleClient::new(&nothing);
    let (log, told) = join(
        rt,
        || flusher.run(rt, &keeper),
        || {
            let told = client_replies(rt, &keeper, client, &nothing);
            keeper.stop(rt);
            told
        },
    );
    Ok((log.map(|ended| ended.into_log()), told?))
}

/// Empty storage, on which so many calls succeed.
fn storage(alloc: Global, calls_left: u32) -> MemoryStorage
    ensures { result.bytes.items ≡ [] }
{
    MemoryStorage {
        bytes: Vec::new(alloc),
        calls_left,
        is_synced: true,
    }
}

/// A journal that has nothing yet, on whose storage so many calls succeed, and the history that continues it. Two calls
/// are for opening the journal, and one for beginning the history.
fn new_journal<R: AllocGlobal>(
    rt: &R,
    calls_left: u32,
) -> Result<
    (
        Journal<MemoryStorage>,
        UnnamedHistory<Journal<MemoryStorage>>,
    ),
    Fail,
>
    ensures { IfOk result (λ new. ⟦<Journal<MemoryStorage> as Log>⟧.may_be new.0 []) }
{
    let Ok(mut log) = Journal::open(rt.alloc(), storage(rt.alloc(), calls_left)) else {
        return Err("a journal".into());
    };
    let Ok(opened) = UnnamedHistory::new(&mut log) else {
        return Err("a history".into());
    };
    Ok((log, opened))
}

/// Serves one client over a journal on whose storage so many calls succeed.
fn serve_over_journal<R: JoinRuntime>(
    rt: &R,
    calls_left: u32,
    confirmation: Confirmation,
) -> Result<(Result<Journal<MemoryStorage>, FlushFault>, ClientReplies), Fail> {
    let (log, opened) = new_journal(rt, calls_left)?;
    serve_client::<Brand, Journal<MemoryStorage>, R>(rt, opened, log, confirmation)
}

#[test]
fn replies_leave_once_synced(rt: HostRuntime) -> Result<(), Fail> {
    let (log, told) = serve_over_journal(&rt, 100, Confirmation::NotNeeded)?;
    assert!(rt; told.reply == Ok(7) && told.published == Some(2) && told.is_free);
    let medium = log.ok().ok_or("a log")?.into_storage();
    assert!(rt; medium.is_synced);
    // Two groups, each of a mark of 44 bytes and a record of 15.
    assert!(rt; medium.bytes.len() == 118);
    Ok(())
}

#[test]
fn replies_leave_once_confirmed(rt: HostRuntime) -> Result<(), Fail> {
    let (log, told) = serve_over_journal(&rt, 100, Confirmation::EachResponse)?;
    assert!(rt; told.reply == Ok(7) && told.published == Some(2) && told.read == Ok(7));
    // Rounds that confirm write nothing.
    let medium = log.ok().ok_or("a log")?.into_storage();
    assert!(rt; medium.is_synced && medium.bytes.len() == 118);
    Ok(())
}

#[test]
fn nothing_is_answered_after_a_failed_sync(rt: HostRuntime) -> Result<(), Fail> {
    let (log, told) = serve_over_journal(&rt, 4, Confirmation::NotNeeded)?;
    assert!(rt; matches!(told.reply, Err(CommitFault::Failed(_))) && told.published == None);
    assert!(rt; log.err() == Some(FlushFault::NotSynced));
    Ok(())
}

#[test]
fn nothing_is_answered_after_a_failed_append(rt: HostRuntime) -> Result<(), Fail> {
    let (log, told) = serve_over_journal(&rt, 3, Confirmation::NotNeeded)?;
    assert!(rt; matches!(told.reply, Err(CommitFault::Failed(_))) && told.published == None);
    assert!(rt; log.err() == Some(FlushFault::NotAppended(AppendFault::Unknown)));
    Ok(())
}

#[test]
fn reservations_are_bounded(rt: HostRuntime) -> Result<(), Fail> {
    expect_bounds_over_journal(&rt)
}

fn expect_bounds_over_journal<R: JournalRuntime>(rt: &R) -> Result<(), Fail> {
    let (log, opened) = new_journal(rt, 3)?;
    expect_bounds::<Brand, Journal<MemoryStorage>, R>(rt, opened, log)
}

/// Tries reservations where there is room for one record of three bytes, which takes 59.
fn expect_bounds<K: LogName, L: Log, R: JournalRuntime>(
    rt: &R,
    opened: UnnamedHistory<L>,
    log: L,
) -> Result<(), Fail>
    requires book { opened.seen.book ≡ K.book }
    requires clients { (text : List ℕ) → K.client_of text ≡ AUTHOR }
    requires listed { L.may_be log K.first }
{
    let space = CountedSpace { left: 59, aside: 0 };
    let (keeper, _flusher, nothing) = open::<K, L, CountedSpace>(
        rt.alloc(),
        opened,
        log,
        space,
        CLIENTS,
        Confirmation::NotNeeded,
    )?;
    assert!(rt; keeper.may_respond(&nothing, None) == ResponseTiming::Now && nothing.len() == 0);
    expect_fault(rt, &keeper, AUTHOR, b"", Some(ReserveFault::Untaken));
    let no_room = Some(ReserveFault::NoRoom);
    expect_fault(rt, &keeper, AUTHOR, b"four", no_room);
    expect_fault(rt, &keeper, AUTHOR, b"one", None);
    let Ok(place) = keeper.reserve(rt, AUTHOR, text(rt, b"one")?) else {
        return Err("a place".into());
    };
    expect_fault(rt, &keeper, AUTHOR, b"two", no_room);
    let mut client = SoleClient::new(&nothing);
    let stamp = keeper
        .append(rt, &mut client.own, place)
        .ok()
        .ok_or("a stamp")?;
    assert!(rt; keeper.may_respond(&stamp, None) == ResponseTiming::Later && stamp.len() == 1);
    // What reads shows it too, and waits for it.
    assert!(rt; keeper.log_position(&nothing).len() == 1);
    keeper.stop(rt);
    let stopping = Some(ReserveFault::Stopping);
    expect_fault(rt, &keeper, AUTHOR, b"two", stopping);
    Ok(())
}

#[test]
fn many_reservations_are_settled_together(rt: HostRuntime) -> Result<(), Fail> {
    expect_settlement_over_journal(&rt)
}

fn expect_settlement_over_journal<R: JournalRuntime>(rt: &R) -> Result<(), Fail> {
    let (log, opened) = new_journal(rt, 3)?;
    expect_settlement::<Brand, Journal<MemoryStorage>, R>(rt, opened, log)
}

/// So many payloads of three bytes.
fn texts(rt: &impl AllocGlobal, count: usize) -> Result<Vec<Vec<u8>>, AllocError> {
    let mut texts = Vec::new(rt.alloc());
    for _ in 0..count {
        texts.push(text(rt, b"one")?)?;
    }
    Ok(texts)
}

/// Tries reservations of several records where there is room for two of three bytes, which take 118.
#[tactic(auto, using(crate::proofs::Alone::all_are))]
fn expect_settlement<K: LogName, L: Log, R: JournalRuntime>(
    rt: &R,
    opened: UnnamedHistory<L>,
    log: L,
) -> Result<(), Fail>
    requires book { opened.seen.book ≡ K.book }
    requires clients { (text : List ℕ) → K.client_of text ≡ AUTHOR }
    requires listed { L.may_be log K.first }
{
    let space = CountedSpace {
        left: 118,
        aside: 0,
    };
    let (keeper, _flusher, nothing) = open::<K, L, CountedSpace>(
        rt.alloc(),
        opened,
        log,
        space,
        CLIENTS,
        Confirmation::NotNeeded,
    )?;
    assert!(rt;
        reserve_all_fault(rt, &keeper, AUTHOR, texts(rt, 3)?) == Some(ReserveFault::NoRoom)
    );
    assert!(rt; reserve_all_fault(rt, &keeper, AUTHOR, texts(rt, 2)?) == None);
    let Ok(places) = keeper.reserve_all(rt, AUTHOR, texts(rt, 2)?) else {
        return Err("places".into());
    };
    let no_room = Some(ReserveFault::NoRoom);
    expect_fault(rt, &keeper, AUTHOR, b"one", no_room);
    let mut client = SoleClient::new(&nothing);
    let stamp = keeper.append_chosen(rt, &mut client.own, &nothing, places, &[false, true]);
    assert!(rt; stamp.ok().map(|stamp| stamp.len()) == Some(1));
    expect_fault(rt, &keeper, AUTHOR, b"one", None);
    Ok(())
}

/// Why no reservations are made for payloads of a client. Those that are made are released.
fn reserve_all_fault<K: LogName, L: Log, R: Wait>(
    rt: &R,
    keeper: &CommitLog<K, L, CountedSpace>,
    client: usize,
    texts: Vec<Vec<u8>>,
) -> Option<ReserveFault> {
    match keeper.reserve_all(rt, client, texts) {
        Ok(places) => {
            keeper.release_all(rt, places);
            None
        }
        Err(fault) => Some(fault),
    }
}

#[test]
fn reservations_are_shared_out(rt: HostRuntime) -> Result<(), Fail> {
    expect_shares_over_journal(&rt)
}

fn expect_shares_over_journal<R: JournalRuntime>(rt: &R) -> Result<(), Fail> {
    let (log, opened) = new_journal(rt, 3)?;
    expect_shares::<Brand, Journal<MemoryStorage>, R>(rt, opened, log)
}

/// Appends so many payloads from the share of a client, which wait for the flusher, or returns why they aren't reserved.
#[tactic(auto, using(crate::proofs::Alone::all_are))]
fn append_waiting<K: LogName, L: Log, R: JournalRuntime>(
    rt: &R,
    keeper: &CommitLog<K, L, CountedSpace>,
    sole: &mut SoleClient<K, L>,
    share: usize,
    count: usize,
) -> Result<Option<ReserveFault>, AllocError> {
    let kept = vec![in rt.alloc(); true; count]?;
    match keeper.reserve_all(rt, share, texts(rt, count)?) {
        Ok(places) => {
            let known = sole.own.position().again();
            let _ = keeper.append_chosen(rt, &mut sole.own, &known, places, &kept);
            Ok(None)
        }
        Err(fault) => Ok(Some(fault)),
    }
}

/// Checks why so many payloads aren't reserved from the share of a client, or that they are, and wait for the flusher.
fn expect_waiting<K: LogName, L: Log, R: JournalRuntime>(
    rt: &R,
    keeper: &CommitLog<K, L, CountedSpace>,
    sole: &mut SoleClient<K, L>,
    share: usize,
    count: usize,
    wanted: Option<ReserveFault>,
) {
    let found = append_waiting(rt, keeper, sole, share, count);
    assert!(rt; found.expect(rt, "memory") == wanted);
}

/// Checks that the share of a client can be used up.
fn expect_full_share<K: LogName, L: Log, R: JournalRuntime>(
    rt: &R,
    keeper: &CommitLog<K, L, CountedSpace>,
    sole: &mut SoleClient<K, L>,
    share: usize,
) {
    expect_waiting(rt, keeper, sole, share, 4_096, None);
    expect_fault(rt, keeper, share, b"one", Some(ReserveFault::Crowded));
}

/// Three clients use up their shares, and a fourth all but a reservation for each of two others.
fn expect_shares<K: LogName, L: Log, R: JournalRuntime>(
    rt: &R,
    opened: UnnamedHistory<L>,
    log: L,
) -> Result<(), Fail>
    requires book { opened.seen.book ≡ K.book }
    requires clients { (text : List ℕ) → K.client_of text ≡ AUTHOR }
    requires listed { L.may_be log K.first }
{
    let space = CountedSpace {
        left: 100_000_000,
        aside: 0,
    };
    let (keeper, _flusher, nothing) = open::<K, L, CountedSpace>(
        rt.alloc(),
        opened,
        log,
        space,
        CLIENTS,
        Confirmation::NotNeeded,
    )?;
    let mut sole = SoleClient::new(&nothing);
    let sole = &mut sole;
    let crowded = Some(ReserveFault::Crowded);
    let untaken = Some(ReserveFault::Untaken);
    expect_waiting(rt, &keeper, sole, 1, 4_097, untaken);
    expect_waiting(rt, &keeper, sole, CLIENTS, 1, crowded);
    expect_full_share(rt, &keeper, sole, 1);
    expect_full_share(rt, &keeper, sole, 2);
    expect_full_share(rt, &keeper, sole, 3);
    expect_waiting(rt, &keeper, sole, 4, 4_095, crowded);
    expect_waiting(rt, &keeper, sole, 4, 4_094, None);
    // A reservation that was released can be made again.
    expect_fault(rt, &keeper, 5, b"one", None);
    expect_waiting(rt, &keeper, sole, 5, 1, None);
    expect_fault(rt, &keeper, 5, b"one", crowded);
    Ok(())
}

/// What became of responses that show no record.
#[derive(Drop)]
struct ReadOutcome<L: Log> {
    /// Whether each of two that were made before any round left at its first look.
    left: [bool; 2],
    /// When one that was made then may leave behind the flusher's end.
    earlier: ResponseTiming,
    /// What one is answered that is made behind the flusher's end.
    later: Result<u32, CommitFault>,
    log: Result<L, FlushFault>,
}

/// Has two responses look once, stops the log, and runs its flusher to the end, all on one thread.
fn read_twice<K: LogName, L: Log, R: WaitingRuntime>(
    rt: &R,
    opened: UnnamedHistory<L>,
    log: L,
    confirmation: Confirmation,
) -> Result<ReadOutcome<L>, Fail>
    requires book { opened.seen.book ≡ K.book }
    requires listed { L.may_be log K.first }
{
    let space = CountedSpace { left: 0, aside: 0 };
    let (keeper, flusher, nothing) = open::<K, L, CountedSpace>(
        rt.alloc(),
        opened,
        log,
        space,
        CLIENTS,
        confirmation,
    )?;
    let keeper = Arc::new(rt.alloc(), keeper)?;
    let after = keeper.confirmed_after();
    let first = read(&keeper, &nothing)?;
    let second = read(&keeper, &nothing)?;
    let left = [
        first.now_or_never(rt)? == Some(Ok(7)),
        second.now_or_never(rt)? == Some(Ok(7)),
    ];
    keeper.stop(rt);
    let log = flusher.run(rt, &keeper).map(|ended| ended.into_log());
    Ok(ReadOutcome {
        left,
        earlier: keeper.may_respond(&nothing, after),
        later: block_on(rt, read(&keeper, &nothing)?)?,
        log,
    })
}

fn read_over_journal<R: WaitingRuntime>(
    rt: &R,
    calls_left: u32,
    confirmation: Confirmation,
) -> Result<ReadOutcome<Journal<MemoryStorage>>, Fail> {
    let (log, opened) = new_journal(rt, calls_left)?;
    read_twice::<Brand, Journal<MemoryStorage>, R>(rt, opened, log, confirmation)
}

/// How many calls a log's storage has left.
fn calls_left(log: Result<Journal<MemoryStorage>, FlushFault>) -> Option<u32> {
    log.ok().map(|log| log.into_storage().calls_left)
}

#[test]
fn reads_of_a_file_need_no_sync(rt: HostRuntime) -> Result<(), Fail> {
    let told = read_over_journal(&rt, 10, Confirmation::NotNeeded)?;
    assert!(rt; told.left == [true, true]);
    assert!(rt; told.earlier == ResponseTiming::Now && told.later == Ok(7));
    // Three calls began to serve, and one ended it.
    assert!(rt; calls_left(told.log) == Some(6));
    Ok(())
}

#[test]
fn one_round_confirms_all_that_wait(rt: HostRuntime) -> Result<(), Fail> {
    let told = read_over_journal(&rt, 10, Confirmation::EachResponse)?;
    assert!(rt; told.left == [false, false] && told.earlier == ResponseTiming::Now);
    // The round was over when it was made, and none comes behind the flusher's end.
    assert!(rt; matches!(told.later, Err(CommitFault::Failed(_))));
    // One call more is the round's.
    assert!(rt; calls_left(told.log) == Some(5));
    Ok(())
}

#[test]
fn nothing_is_answered_after_a_failed_round(rt: HostRuntime) -> Result<(), Fail> {
    let told = read_over_journal(&rt, 3, Confirmation::EachResponse)?;
    assert!(rt; told.left == [false, false]);
    assert!(rt; matches!(told.earlier, ResponseTiming::Never(_)));
    assert!(rt; matches!(told.later, Err(CommitFault::Failed(_))));
    assert!(rt; told.log.err() == Some(FlushFault::NotSynced));
    Ok(())
}
