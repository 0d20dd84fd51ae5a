//! The room and desks with one allocation refused, whichever it is: then one reply is 503 `no_memory`, or one call
//! runs out of memory, and a second try is answered. Where nothing could be furnished, the test is run again.
use super::*;
use mds_catalog::Catalogue;
use mds_parallel::Chunked;
use mds_verdict::Evaluator;

/// Runs a test, a second time where the first ran out of memory.
fn furnish_and_run_at_last<S: DeskTest, R: TestRuntime>(
    rt: &R,
    alloc: Global,
    scene: &S,
) -> Result<(), Fail>
    requires { S.may_play }
{
    if !furnish_and_run(rt, alloc, scene)? {
        assert!(rt; furnish_and_run(rt, alloc, scene)?);
    }
    Ok(())
}

/// The room's reply to a request of the author, and its note; those of a second try where the first was refused out
/// of memory, which gives no note.
fn room_turn_at_last<K: OpeningName, R: TestRuntime>(
    rt: &R,
    room: &mut AuthorRoom<K>,
    exchange: &DeskExchange,
) -> (SharedReply, Option<Note<K>>) {
    let given = room_turn(rt, room, exchange);
    if given.0.status() != 503 {
        return given;
    }
    assert_unnoted(rt, &given, 503, NO_MEMORY);
    room_turn(rt, room, exchange)
}

/// Checks that the room gives the exchange's reply, at the second try at the latest, and returns its note, if any.
fn room_answers_at_last<K: OpeningName, R: TestRuntime>(
    rt: &R,
    room: &mut AuthorRoom<K>,
    exchange: &DeskExchange,
) -> Option<Note<K>> {
    let (reply, note) = room_turn_at_last(rt, room, exchange);
    assert_success(rt, &reply, exchange);
    note
}

/// Puts both documents and publishes them, each at the second try at the latest.
fn set_up_at_last<K: OpeningName, R: TestRuntime>(rt: &R, room: &mut AuthorRoom<K>) -> Note<K> {
    assert!(rt; room_answers_at_last(rt, room, PUT_SQUARE).is_none());
    assert!(rt; room_answers_at_last(rt, room, PUT_CAP).is_none());
    room_answers_at_last(rt, room, PUBLISH).expect(rt, "a note")
}

/// A desk's reply to a request; that of a second try where the first was refused out of memory.
fn answer_at_last<K: OpeningName, E: Evaluator<Catalogue>>(
    rt: &impl Abort,
    desk: &mut Desk<K>,
    request: &Request<'_>,
    evaluator: &E,
) -> SharedReply
    requires { E.may_judge }
{
    let reply = desk.answer(request, &mut OpenGate, evaluator);
    if reply.status() != 503 {
        return reply;
    }
    assert_refused(rt, &reply, 503, NO_MEMORY);
    desk.answer(request, &mut OpenGate, evaluator)
}

/// Checks that a desk gives the exchange's reply, at the second try at the latest.
fn assert_answers_at_last<K: OpeningName, E: Evaluator<Catalogue>>(
    rt: &impl Abort,
    desk: &mut Desk<K>,
    exchange: &DeskExchange,
    evaluator: &E,
)
    requires { E.may_judge }
{
    let request = request(moment(rt, exchange), exchange);
    let reply = answer_at_last(rt, desk, &request, evaluator);
    assert_success(rt, &reply, exchange);
}

#[derive(Clone, Copy)]
struct AnswerTest<'a, E> {
    evaluator: &'a E,
}

impl<E: Evaluator<Catalogue>> DeskTest for AnswerTest<'_, E> {
    ghost may_play = { E.may_judge };

    fn run_test<K: OpeningName, R: TestRuntime>(
        &self,
        rt: &R,
        _alloc: Global,
        room: &mut AuthorRoom<K>,
        alfa: &mut Desk<K>,
        bravo: &mut Desk<K>,
    ) -> Result<bool, AllocError>
        requires { E.may_judge }
    {
        let note = set_up_at_last(rt, room);
        alfa.learn(&note);
        bravo.learn(&note.again());
        for exchange in LINES {
            assert_answers_at_last(rt, alfa, exchange, self.evaluator);
        }
        assert_answers_at_last(rt, bravo, NONE_FOR_BRAVO, self.evaluator);
        Ok(true)
    }
}

/// Drafts, a publication, learning of it, reports and questions. Learning needs no memory.
#[test]
fn answers_or_runs_out_of_memory(rt: HostRuntime) -> Result<(), Fail> {
    furnish_and_run_at_last(&rt, rt.alloc(), &AnswerTest { evaluator: &Plain })
}

/// The same, with evaluation by several threads.
#[test]
fn answers_by_threads_or_runs_out_of_memory(rt: HostRuntime) -> Result<(), Fail> {
    let evaluator = &Chunked(&rt);
    furnish_and_run_at_last(&rt, rt.alloc(), &AnswerTest { evaluator })
}

/// The requests of four exchanges.
fn four_requests<'a>(rt: &impl Abort, exchanges: &'a [&'a DeskExchange; 4]) -> [Request<'a>; 4] {
    let [first, second, third, fourth] = exchanges;
    [
        request(moment(rt, first), first),
        request(moment(rt, second), second),
        request(moment(rt, third), third),
        request(moment(rt, fourth), fourth),
    ]
}

/// Whether all replies are successes; else one is 503 `no_memory`. Those before it are the exchanges' replies.
fn are_successes(rt: &impl Abort, replies: &[SharedReply], exchanges: &[&DeskExchange]) -> bool {
    assert!(rt; replies.len() == exchanges.len());
    for (reply, exchange) in replies.iter().zip(exchanges) {
        if reply.status() == 503 {
            assert_refused(rt, reply, 503, NO_MEMORY);
            return false;
        }
        assert_success(rt, reply, exchange);
    }
    true
}

/// A desk's replies to a run of requests; those of a second call where the first ran out of memory.
fn run_at_last<K: OpeningName, E: Evaluator<Catalogue>>(
    desk: &mut Desk<K>,
    requests: &[Request<'_>],
    evaluator: &E,
) -> Result<Vec<SharedReply>, AllocError>
    requires { E.may_judge }
{
    match desk.run(requests, &mut OpenGate, evaluator) {
        Ok(replies) => Ok(replies),
        Err(_) => desk.run(requests, &mut OpenGate, evaluator),
    }
}

#[derive(Clone, Copy)]
struct RunTest<'a, E> {
    evaluator: &'a E,
}

impl<E: Evaluator<Catalogue>> DeskTest for RunTest<'_, E> {
    ghost may_play = { E.may_judge };

    fn run_test<K: OpeningName, R: TestRuntime>(
        &self,
        rt: &R,
        _alloc: Global,
        room: &mut AuthorRoom<K>,
        alfa: &mut Desk<K>,
        _bravo: &mut Desk<K>,
    ) -> Result<bool, AllocError>
        requires { E.may_judge }
    {
        alfa.learn(&set_up_at_last(rt, room));
        let requests = four_requests(rt, LINES);
        let replies = run_at_last(alfa, &requests, self.evaluator)?;
        Ok(are_successes(rt, &replies, LINES))
    }
}

/// All of an operator's requests in one call. Where the call runs out of memory, a second one answers them all; where
/// one reply is 503 `no_memory`, those before it are as they should be.
#[test]
fn a_run_ends_or_runs_out_of_memory(rt: HostRuntime) -> Result<(), Fail> {
    furnish_and_run_at_last(&rt, rt.alloc(), &RunTest { evaluator: &Plain })
}

/// The same, with evaluation by several threads.
#[test]
fn a_run_by_threads_ends_or_runs_out_of_memory(rt: HostRuntime) -> Result<(), Fail> {
    let evaluator = &Chunked(&rt);
    furnish_and_run_at_last(&rt, rt.alloc(), &RunTest { evaluator })
}
