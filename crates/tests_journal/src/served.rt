//! What serves a city beside its requests: a server is resumed from the log of its journal, a full disk is reported,
//! and a job runs in a thread of its own.
ghost use Rattle.std.specs.Prelude.{◌≡◌, ℕ, List};
ghost use Rattle.mds_snapshot.specs.Opening.{book_of};

use crate::journal::{TimedExchange, configuration, texts};
use crate::restart::{JOURNAL, expect_replies};
use crate::runtime::JournalRuntime;
use journal_commit::{CountedSpace, NoRoom, Space};
use journal_file::{Journal, Log, MemoryStorage, are_taken, group_of};
use journal_folder::begin_journal;
use journal_recovery::Cause;
use mds_desk::{AuthorRoom, Desk};
use mds_request::Config;
use mds_snapshot::{Blank, OpeningName, prepare};
use mds_text::Id;
use server_control::Counters;
use server_journal::{
    JournalFault, ReportingHost, ReportingSpace, ThreadJob, dropped_ids, resume, run_concurrently,
};
use std::alloc::{AllocError, Global};
use std::marker::Brand;
use std::process::Abort;
use std::sync::Arc;
use std::sync::atomic::AtomicU64;

/// As many calls as any test makes at the most.
const MANY: u32 = 1_000;

/// The city's configuration, where alfa may have one vehicle.
const LOW: &[u8] =
    br#"{"author":"city","operators":[{"id":"00000000-0000-4000-8000-0000000000a1","limit":1,"token":"alfa"},{"id":"00000000-0000-4000-8000-0000000000b1","limit":2,"token":"bravo"}],"zone":"Z"}"#;

/// Alfa.
const ALFA: &str = "00000000-0000-4000-8000-0000000000a1";

/// The runtime of a test that replays a log.
trait ReplayRuntime: JournalRuntime + ReportingHost {}

impl<R: JournalRuntime + ReportingHost> ReplayRuntime for R {}

/// Counters of a server without connections and operators.
fn zero_counters(alloc: Global) -> Result<Counters, AllocError> {
    let connections = Arc::new(alloc, AtomicU64::new(0))?;
    Counters::new(alloc, connections, Vec::new(alloc))
}

/// The bytes of a journal of these requests.
fn storage_of(rt: &impl Abort, alloc: Global, asked: &[TimedExchange<'_>]) -> MemoryStorage {
    let texts = texts(alloc, asked).expect(rt, "texts");
    assert!(rt; are_taken(&texts));
    let group = group_of(alloc, 0, 0, 0, &texts).expect(rt, "memory");
    MemoryStorage {
        bytes: group.bytes,
        calls_left: MANY,
        is_synced: true,
    }
}

/// The room and desks that are resumed from what a log has, without the entries of these operators.
fn resume_log<K: OpeningName, L: Log, R: ReplayRuntime>(
    rt: &R,
    log: L,
    config: Config,
    blank: Blank,
    dropped: &[Id],
) -> Result<(AuthorRoom<K>, Vec<Desk<K>>), JournalFault>
    requires book { book_of blank ≡ K.book }
    requires listed { (first : List (List ℕ)) × L.may_be log first }
{
    let counters = zero_counters(rt.alloc()).expect(rt, "counters");
    let mut log = log;
    let texts = begin_journal(rt.alloc(), &mut log, &config)
        .ok()
        .expect(rt, "payloads");
    resume::<K, R>(rt, &texts, config, blank, dropped, &counters)
}

/// Checks that a room and desks which are resumed from a log reply as those that wrote it.
fn go_on<K: OpeningName, L: Log, R: ReplayRuntime>(rt: &R, log: L, config: Config, blank: Blank)
    requires book { book_of blank ≡ K.book }
    requires listed { (first : List (List ℕ)) × L.may_be log first }
{
    let Ok((room, desks)) = resume_log::<K, L, R>(rt, log, config, blank, &[]) else {
        panic!(rt; "a server");
    };
    expect_replies(rt, room, desks);
}

/// Why no server is resumed from a log, without the entries of these operators; none, where one is.
fn refusal<K: OpeningName, L: Log, R: ReplayRuntime>(
    rt: &R,
    log: L,
    config: Config,
    blank: Blank,
    dropped: &[Id],
) -> Option<JournalFault>
    requires book { book_of blank ≡ K.book }
    requires listed { (first : List (List ℕ)) × L.may_be log first }
{
    match resume_log::<K, L, R>(rt, log, config, blank, dropped) {
        Ok((room, _desks)) => {
            room.finish(rt);
            None
        }
        Err(fault) => Some(fault),
    }
}

/// Why no server is resumed where alfa may have one vehicle, perhaps without an operator's entries; none, where one is.
fn refusal_for_low<R: ReplayRuntime>(rt: &R, dropped: Option<Id>) -> Option<JournalFault> {
    let config = Config::read(rt.alloc(), LOW)
        .ok()
        .expect(rt, "a configuration");
    let dropped = dropped_ids(rt.alloc(), dropped).expect(rt, "memory");
    let blank = prepare(rt.alloc()).expect(rt, "a blank");
    let Ok(log) = Journal::open(rt.alloc(), storage_of(rt, rt.alloc(), JOURNAL)) else {
        panic!(rt; "a log");
    };
    refusal::<Brand, Journal<MemoryStorage>, R>(rt, log, config, blank, &dropped)
}

/// Whether it is why no server is resumed that alfa's fleet is full at this entry.
fn is_full_fleet(fault: &Option<JournalFault>, entry: usize) -> bool {
    match fault {
        Some(JournalFault::FullFleet(operator, fault)) => {
            Id::read(ALFA) == Some(*operator)
                && fault.entry == entry
                && fault.cause == Cause::Refused(409)
        }
        _ => false,
    }
}

/// Whether a server is resumed where alfa may have one vehicle, without the entries of an operator.
fn is_resumed_without<R: ReplayRuntime>(rt: &R, operator: &str) -> bool {
    let dropped = Id::read(operator);
    dropped.is_some() && refusal_for_low(rt, dropped).is_none()
}

/// Gives a number.
#[derive(Drop)]
struct NumberJob(u8);

impl ThreadJob for NumberJob {
    type Outcome = u8;

    fn run(self) -> u8 {
        self.0
    }
}

#[test]
fn goes_on_from_a_log(rt: HostRuntime) {
    let config = configuration(rt.alloc()).expect(&rt, "a configuration");
    let blank = prepare(rt.alloc()).expect(&rt, "a blank");
    let Ok(log) = Journal::open(rt.alloc(), storage_of(&rt, rt.alloc(), JOURNAL)) else {
        panic!(rt; "a log");
    };
    go_on::<Brand, Journal<MemoryStorage>, HostRuntime>(&rt, log, config, blank);
}

/// Alfa's second vehicle has no room: its report, the last of five entries, is answered 409. Without alfa's entries the
/// journal fits.
#[test]
fn a_limit_is_too_low(rt: HostRuntime) {
    let fault = refusal_for_low(&rt, None);
    assert!(&rt; is_full_fleet(&fault, 4));
    assert!(&rt; is_resumed_without(&rt, ALFA));
}

/// The room that is reported is that of the disk.
#[test]
fn reports_what_the_disk_refuses(rt: HostRuntime) {
    let space = CountedSpace { left: 10, aside: 0 };
    let mut room = ReportingSpace::new(rt, space);
    assert!(rt; room.set_aside(8).is_ok() && room.set_aside(3) == Err(NoRoom));
    assert!(rt; room.space.left == 2 && room.space.aside == 8);
}

#[test]
fn a_job_runs_beside(rt: HostRuntime) {
    assert!(rt; run_concurrently(&rt, NumberJob(3), || 4u8) == (3, 4));
}
