//! Desks and the room in threads that overlap: one waits for another, within a limit.
ghost use Rattle.std.specs.Prelude.{◌≡◌};
ghost use Rattle.mds_snapshot.specs.Opening.{book_of};

use super::looks::{EMPTY, POLICIES};
use super::*;
use crate::runtime::OverlapRuntime;
use crate::waiting::is_set_in_time;
use mds_desk::Gate;
use std::sync::Wait;
use std::sync::atomic::{AtomicBool, Ordering};
use std::thread::{Threads, join};

/// The name of an opening that several threads have.
trait SharedOpeningName: OpeningName + Send + Sync {}

impl SharedOpeningName for Brand {}

/// Flags between two threads.
#[derive(Drop)]
struct Signals {
    /// A desk has taken its look.
    looked: AtomicBool,
    /// Another desk has answered.
    answered: AtomicBool,
}

impl Signals {
    fn new() -> Signals {
        Signals {
            looked: AtomicBool::new(false),
            answered: AtomicBool::new(false),
        }
    }
}

/// A job for a thread of its own.
trait DeskJob {
    type Outcome;

    fn run(self) -> Self::Outcome;
}

/// Runs a job in a thread of its own, and something else concurrently.
fn run_concurrently<
    R: Threads,
    E: DeskJob<Outcome = A> + Send + Drop,
    A: Send,
    B,
    F: FnOnce() -> B,
>(rt: &R, errand: E, meanwhile: F) -> (A, B)
    requires { F.pre meanwhile }
{
    join(rt, move || -> A { errand.run() }, meanwhile)
}

/// A gate that holds a look until the other desk has answered, and notes whether that was in time.
#[derive(Drop)]
struct HeldLookGate<'a> {
    signals: &'a Signals,
    in_time: bool,
}

impl Gate for HeldLookGate<'_> {
    fn held(&mut self) {
        self.signals.looked.store(true, Ordering::SeqCst);
        self.in_time = is_set_in_time(&self.signals.answered);
    }
}

/// A desk whose look is held until another desk has answered.
#[derive(Drop)]
struct HeldDesk<'a, K: OpeningName> {
    desk: &'a mut Desk<K>,
    signals: &'a Signals,
}

impl<K: OpeningName> DeskJob for HeldDesk<'_, K> {
    type Outcome = Option<SharedReply>;

    /// The reply, where the other desk answered while this one's look was held.
    fn run(self) -> Option<SharedReply> {
        let exchange = NONE_FOR_ALFA;
        let request = request(Moment::new(exchange.at)?, exchange);
        let mut gate = HeldLookGate {
            signals: self.signals,
            in_time: false,
        };
        let reply = self.desk.answer(&request, &mut gate, &Plain);
        if gate.in_time { Some(reply) } else { None }
    }
}

/// The reply to a question that comes once the other desk's look is held; `None` where that isn't
/// in time.
fn answer_meanwhile<K: OpeningName>(desk: &mut Desk<K>, signals: &Signals) -> Option<SharedReply> {
    if !is_set_in_time(&signals.looked) {
        return None;
    }
    let exchange = NONE_FOR_BRAVO;
    let request = request(Moment::new(exchange.at)?, exchange);
    let reply = desk.answer(&request, &mut OpenGate, &Plain);
    signals.answered.store(true, Ordering::SeqCst);
    Some(reply)
}

/// Puts both documents and publishes them, and has both desks learn of it.
fn set_up_for_both<K: OpeningName, R: TestRuntime>(
    rt: &R,
    room: &mut AuthorRoom<K>,
    alfa: &mut Desk<K>,
    bravo: &mut Desk<K>,
) {
    let note = set_up(rt, room);
    alfa.learn(&note);
    bravo.learn(&note);
}

fn two_desks<K: SharedOpeningName, R: OverlapRuntime>(
    rt: &R,
    room: &mut AuthorRoom<K>,
    alfa: &mut Desk<K>,
    bravo: &mut Desk<K>,
) {
    set_up_for_both(rt, room, alfa, bravo);
    let signals = Signals::new();
    let held = HeldDesk {
        desk: alfa,
        signals: &signals,
    };
    let (first, second) = run_concurrently(rt, held, || answer_meanwhile(bravo, &signals));
    assert_success(rt, &first.expect(rt, "alfa in time"), NONE_FOR_ALFA);
    assert_success(rt, &second.expect(rt, "bravo in time"), NONE_FOR_BRAVO);
}

/// A gate that lets the author publish at its first call.
#[derive(Drop)]
struct StartingGate<'a> {
    signals: &'a Signals,
}

impl Gate for StartingGate<'_> {
    fn held(&mut self) {
        self.signals.looked.store(true, Ordering::SeqCst);
    }
}

/// A desk that answers three requests while the author publishes.
#[derive(Drop)]
struct RunningDesk<'a, K: OpeningName> {
    desk: &'a mut Desk<K>,
    signals: &'a Signals,
}

impl<K: OpeningName> DeskJob for RunningDesk<'_, K> {
    type Outcome = Option<[u64; 3]>;

    /// The revisions of the replies, each of which has to list the policies at its revision.
    fn run(self) -> Option<[u64; 3]> {
        let moment = Moment::new(POLICIES.at)?;
        let requests = [
            request(moment, POLICIES),
            request(moment, POLICIES),
            request(moment, POLICIES),
        ];
        let mut gate = StartingGate {
            signals: self.signals,
        };
        let replies = self.desk.run(&requests, &mut gate, &Plain).ok()?;
        revisions(&replies)
    }
}

/// The revisions of three replies, each of which has to list the policies at its revision.
fn revisions(replies: &[SharedReply]) -> Option<[u64; 3]> {
    match replies {
        [first, second, third] => Some([
            listed_revision(first)?,
            listed_revision(second)?,
            listed_revision(third)?,
        ]),
        _ => None,
    }
}

/// The revision of a reply that lists the policies at this revision; `None` of another reply.
fn listed_revision(reply: &SharedReply) -> Option<u64> {
    match reply.body() {
        _ if reply.status() != 200 => None,
        body if body == EMPTY.as_bytes() => Some(0),
        body if body == POLICIES.success.as_bytes() => Some(1),
        _ => None,
    }
}

/// Publishes once the desk has taken its first look.
fn publish_meanwhile<K: OpeningName, R: Wait>(
    rt: &R,
    room: &mut AuthorRoom<K>,
    signals: &Signals,
) -> Option<(SharedReply, Note<K>)> {
    if !is_set_in_time(&signals.looked) {
        return None;
    }
    let (reply, note) = room.answer(rt, &request(Moment::new(PUBLISH.at)?, PUBLISH));
    Some((reply, note?))
}

/// The revisions of a run, while the author publishes in this thread.
fn run_and_publish<K: SharedOpeningName, R: Threads + Wait>(
    rt: &R,
    room: &mut AuthorRoom<K>,
    desk: &mut Desk<K>,
) -> (Option<[u64; 3]>, Option<(SharedReply, Note<K>)>) {
    let signals = Signals::new();
    let running = RunningDesk {
        desk,
        signals: &signals,
    };
    run_concurrently(rt, running, || publish_meanwhile(rt, room, &signals))
}

/// Checks that the first reply lists nothing, and that the revisions don't go back.
fn assert_rise(rt: &impl Abort, revisions: [u64; 3]) {
    let [first, second, third] = revisions;
    assert!(rt; first == 0);
    assert!(rt; second <= third);
}

fn publication_between<K: SharedOpeningName, R: OverlapRuntime>(
    rt: &R,
    room: &mut AuthorRoom<K>,
    alfa: &mut Desk<K>,
) {
    draft(rt, room);
    let (revisions, published) = run_and_publish(rt, room, alfa);
    assert_rise(rt, revisions.expect(rt, "three replies"));
    let (reply, note) = published.expect(rt, "a publication in time");
    assert_success(rt, &reply, PUBLISH);
    alfa.learn(&note);
    assert_answers(rt, alfa, POLICIES);
}

/// What two threads do with a room and its desks.
#[derive(Clone, Copy)]
enum Overlap {
    TwoDesks,
    PublicationBetweenLooks,
}

/// Runs it on a room and desks that are furnished for the configuration.
fn run_overlap<K: SharedOpeningName, R: OverlapRuntime>(
    rt: &R,
    alloc: Global,
    config: Config,
    blank: Blank,
    overlap: Overlap,
) -> Result<(), Fail>
    requires { book_of blank ≡ K.book }
{
    let (mut room, desks) = furnish::<K, R>(rt, alloc, config, blank)?;
    let (mut alfa, mut bravo) = two(rt, desks);
    match overlap {
        Overlap::TwoDesks => two_desks(rt, &mut room, &mut alfa, &mut bravo),
        Overlap::PublicationBetweenLooks => publication_between(rt, &mut room, &mut alfa),
    }
    drop(alfa);
    drop(bravo);
    room.finish(rt);
    Ok(())
}

/// Prepares a blank, and runs it on what is furnished with that.
fn prepare_and_run<R: OverlapRuntime>(rt: &R, alloc: Global, overlap: Overlap) -> Result<(), Fail> {
    let config = Config::read(alloc, CONFIGURATION)?;
    let blank = prepare(alloc)?;
    run_overlap::<Brand, R>(rt, alloc, config, blank, overlap)
}

/// One desk answers while another's look is held.
#[test]
fn answers_during_a_held_look(rt: HostRuntime) -> Result<(), Fail> {
    prepare_and_run(&rt, rt.alloc(), Overlap::TwoDesks)
}

/// The author publishes while a desk answers a run of requests.
#[test]
fn a_publication_between_the_looks_of_a_run(rt: HostRuntime) -> Result<(), Fail> {
    prepare_and_run(&rt, rt.alloc(), Overlap::PublicationBetweenLooks)
}
