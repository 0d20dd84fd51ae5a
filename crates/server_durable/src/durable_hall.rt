//! A hall whose accepted changes are persisted.
ghost use Rattle.std.specs.Prelude.{◌≡◌, ◌++◌, ◌∷◌, [], IfErr, IfOk, IfSome, Ok, Err, map};
ghost use Rattle.std.specs.Sync.Mutex.{mutex_guard_value};
ghost use Rattle.mds_request.specs.Call.{call_of};
ghost use Rattle.mds_request.specs.Configuration.{configuration};
ghost use Rattle.mds_request.specs.Reply.{refused};
ghost use Rattle.mds_request.specs.declared.call.Call.TheVariants.{Author as ByAuthor, Operator as OperatorAt};
ghost use Rattle.mds_request.specs.declared.config.Actor.TheVariants.{Author, Operator};
ghost use Rattle.server_state.specs.WholeRequest.{request_heard};
ghost use Rattle.server_state.specs.Openings.{BeginsAt, openings_of};
ghost use Rattle.server_state.specs.Response.{Says};
ghost use Rattle.server_state.specs.TurnItem.{Answered};
ghost use Rattle.server_state.specs.TurnList.{IsToldTurn};
ghost use Rattle.server_durable.specs.DurableResponse.{IsRecordedTurn};
ghost use Rattle.server_admission.specs.Actor.{index_of};
ghost use Rattle.server_durable.specs.Journals.{EndsLogged};
ghost use Rattle.server_durable.specs.Logged.{ShowsTurns};
ghost use Rattle.server_durable.specs.Owners.{IsOwnedBy, client_in};
ghost use Rattle.server_durable.specs.Records.{IsReserved, IsTitled};
ghost use Rattle.server_durable.specs.Refusals.{SaysUnheldFor, refusal_for};
ghost use Rattle.server_durable.specs.RoomLogged.{IsLoggedRoomTurn};
ghost use Rattle.server_durable.specs.CacheControl.{Waits};

use crate::cache_control::mark_unstored;
use crate::context::{Context, TurnRuntime};
use crate::desk_records::{DeskRecords, lock_each};
use crate::ending::whole_position;
use crate::pending::{NoResponse, ResponseAfterSync};
use crate::records::{
    CallReservation, NoReservation, client_of, give_back, record_text, refusal_for, share_index,
};
use crate::room_turn::{AuthorLog, RecordCommit, RecordPayload, RoomTurn};
use bytes::Bytes;
use http::Response;
use http_body_util::Full;
use journal_commit::{AwaitSync, CommitFault, CommitLog, LogName, LogPosition, Space};
use journal_file::Log;
use journal_laws::may_change;
use mds_catalog::Catalogue;
use mds_desk::{OpenGate, SharedReply};
use mds_request::{AuthorCall, Call, Code, Config, OperatorCall};
use mds_verdict::Evaluator;
use server_app::OperatorNames;
use server_state::{DeskTurns, Hall, HallDesk, HallName, WholeRequest, response};
use std::alloc::{AllocError, Global};
use std::marker::Brand;
use std::sync::{Arc, Mutex, MutexGuard, Wait};

/// A hall whose accepted changes are persisted: each has a record in the commit log. `badges` has the names under which
/// people know its operators. What a client knows of its own records is behind a lock that is held for a turn: an
/// operator's within that of its desk, the author's around that of the room. End it by `finish`.
#[derive(Drop)]
pub struct DurableHall<K: HallName, N: LogName, L: Log, S: Space> {
    pub(crate) hall: Hall<K>,
    pub(crate) badges: OperatorNames,
    pub(crate) keeper: Arc<CommitLog<N, L, S>>,
    /// The empty log position: nothing has to be synced.
    pub(crate) nothing: LogPosition<N, L>,
    /// The author's own records, and the turns of the room whose records they are. A turn of the room takes them out and
    /// puts them back.
    author: Mutex<Option<AuthorLog<K, N, L>>>,
    /// Each operator's own records, which are those of its desk's turns, in the configuration's order.
    operators: Vec<Mutex<DeskRecords<K, N, L>>>,
    ghost empty: { nothing ≡ [] },
    /// Whose each payload is, the payload itself says.
    ghost named: { N.client_of ≡ client_in K.configuration },
}

/// An answer, and the log position of all that it shows.
#[derive(Drop)]
pub(crate) struct AnswerAtPosition<N: LogName, L: Log> {
    /// The answer. It is sent once all that it shows is synced.
    pub answer: SharedReply,
    /// The log position that has to be synced before the answer is sent.
    pub stamp: LogPosition<N, L>,
}

/// A turn of an operator's desk whose answer may be sent, and all turns of that desk up to it.
#[derive(Drop)]
pub(crate) struct RecordedTurn<K: HallName, N: LogName, L: Log> {
    /// The answer, and the log position of all that it shows.
    pub answered: AnswerAtPosition<N, L>,
    /// The desk's turns since it was put behind its lock. This one is the last.
    pub turns: DeskTurns<K>,
}

impl<K: HallName, N: LogName, L: Log, S: Space> DurableHall<K, N, L, S> {
    /// A hall with the operators' names of its configuration's text, the log that persists its changes, and the empty
    /// log position.
    ///
    /// # Errors
    ///
    /// Out of memory, or two operators of the configuration have the same identifier, which doesn't happen.
    pub fn new(
        alloc: Global,
        hall: Hall<K>,
        badges: OperatorNames,
        keeper: Arc<CommitLog<N, L, S>>,
        nothing: LogPosition<N, L>,
    ) -> Result<DurableHall<K, N, L, S>, AllocError>
        requires clients { N.client_of ≡ client_in K.configuration }
        requires nothing { nothing ≡ [] }
        ensures configured { IfOk result (λ city. configuration city.hall.config.value ≡ configuration hall.config.value) }
        ensures badged { IfOk result (λ city. city.badges ≡ badges) }
        ensures hall { IfOk result (λ city. city.hall ≡ hall) }
    {
        let config = hall.configuration()?;
        let operators = lock_each(alloc, &*config, &nothing)?;
        let author = AuthorLog::new(&nothing);
        Ok(DurableHall {
            hall,
            badges,
            keeper,
            nothing,
            author: Mutex::new(Some(author)),
            operators,
        })
    }

    /// Ends the author's room: no request can come any more. Gives the log position of all that was appended, whose
    /// payloads are, client by client, the records of all turns of the room and of the desks, in their order, and no
    /// others. Were it otherwise, none would be given; that it is given no clause says.
    pub fn finish<R: Wait>(self, rt: &R) -> Option<LogPosition<N, L>>
        ensures { IfSome result (λ all. ∥ EndsLogged K.configuration self.hall.room_opening.front.seen.log
            (map (λ desk. desk.opening.front.seen.log) self.hall.desks.items) all ∥₁) }
    {
        let Self {
            hall,
            badges: _badges,
            keeper,
            nothing,
            author,
            operators,
        } = self;
        let mut end = hall.end();
        let author = author.into_inner();
        let all = whole_position(rt, &*keeper, &mut end, author, operators, &nothing);
        end.finish(rt);
        all
    }

    /// The records of the operator at this place, once their lock is taken, within that of its desk. All that is known
    /// of what is behind the lock is that they are some operator's own, so the place is compared; it is never another.
    pub(crate) fn records_at<R: Wait>(
        &self,
        rt: &R,
        place: usize,
    ) -> Option<MutexGuard<'_, DeskRecords<K, N, L>>>
        ensures { IfSome result (λ guard. (mutex_guard_value guard).place ≡ place) }
    {
        let records = self.operators.get(place)?.lock(rt);
        if records.place == place {
            Some(records)
        } else {
            None
        }
    }

    /// The log position of all that has been appended by now.
    pub(crate) fn current_position(&self) -> LogPosition<N, L> {
        self.keeper.log_position(&self.nothing)
    }

    /// A reference to the configuration.
    ///
    /// # Errors
    ///
    /// There are too many references.
    pub fn configuration(&self) -> Result<Arc<Config>, AllocError>
        ensures { IfOk result (λ c. configuration c.value ≡ K.configuration) }
    {
        self.hall.configuration()
    }

    /// The names under which people know the operators.
    pub fn operator_names(&self) -> &OperatorNames
        ensures { result.now ≡ self.now.badges }
    {
        &self.badges
    }

    /// A response that waits until all that has been appended by now is synced, and that no cache may store.
    ///
    /// # Errors
    ///
    /// Out of memory for its header field, or too many references.
    pub fn respond_now(
        &self,
        response: Response<Full<Bytes>>,
    ) -> Result<ResponseAfterSync<N, L, S>, NoResponse>
        ensures { IfOk result (λ s. Waits (λ plain. plain ≡ response) s.reply) }
    {
        self.await_sync(self.current_position(), response)
    }

    /// A response that waits until all of a log position is synced, and that no cache may store.
    pub(crate) fn await_sync(
        &self,
        stamp: LogPosition<N, L>,
        response: Response<Full<Bytes>>,
    ) -> Result<ResponseAfterSync<N, L, S>, NoResponse>
        ensures reply { IfOk result (λ s. Waits (λ plain. plain ≡ response) s.reply) }
        ensures stamp { IfOk result (λ s. s.stamp ≡ stamp) }
    {
        let keeper = Arc::try_clone(&self.keeper)?;
        let marked = mark_unstored(response)?;
        Ok(AwaitSync::new(keeper, stamp, marked))
    }

    /// The response with an answer, once all that it shows is synced.
    ///
    /// # Errors
    ///
    /// Out of memory for the response. What was done stays.
    pub(crate) fn reply(
        &self,
        alloc: Global,
        answered: AnswerAtPosition<N, L>,
    ) -> Result<ResponseAfterSync<N, L, S>, NoResponse>
        ensures says { IfOk result (λ s. Waits (λ response. Says response answered.answer) s.reply) }
        ensures stamp { IfOk result (λ s. s.stamp ≡ answered.stamp) }
    {
        let AnswerAtPosition { answer, stamp } = answered;
        let response = response(alloc, answer)?;
        self.await_sync(stamp, response)
    }

    /// A refusal of a request that isn't carried out: it shows nothing, so it waits for no sync.
    ///
    /// # Errors
    ///
    /// Out of memory for the response.
    pub(crate) fn refuse(
        &self,
        alloc: Global,
        code: Code,
    ) -> Result<ResponseAfterSync<N, L, S>, NoResponse>
        ensures { IfOk result (λ s. Waits (λ response. Says response (refused code)) s.reply) }
    {
        let stamp = self.nothing.again();
        let answer = SharedReply::from(code);
        self.reply(alloc, AnswerAtPosition { answer, stamp })
    }

    /// The refusal of a request for which nothing is reserved in the log.
    ///
    /// # Errors
    ///
    /// It isn't refused, since it may be tried again or no response may be sent; or out of memory for the response.
    pub(crate) fn refuse_unreserved(
        &self,
        alloc: Global,
        why: NoReservation,
    ) -> Result<ResponseAfterSync<N, L, S>, NoResponse>
        ensures says { IfOk result (λ s. Waits (SaysUnheldFor why) s.reply) }
        ensures untold { IfErr (refusal_for why) (λ unanswered. result ≡ Err unanswered) }
    {
        match refusal_for(why) {
            Ok(code) => self.refuse(alloc, code),
            Err(unanswered) => Err(unanswered),
        }
    }

    /// Reserves what a call needs of the log before it is carried out.
    ///
    /// # Errors
    ///
    /// Nothing is reserved.
    pub(crate) fn reserve_for<R: Wait>(
        &self,
        rt: &R,
        alloc: Global,
        heard: &WholeRequest<'_>,
        call: &Call,
    ) -> Result<CallReservation, NoReservation>
        requires { call_of K.configuration (request_heard heard.now) ≡ Ok call.now }
        ensures { IfOk result (IsReserved K.configuration (request_heard heard.now)) }
    {
        if !may_change(&Ok(*call)) {
            return Ok(CallReservation::Reads);
        }
        let config = self.hall.configuration()?;
        let client = client_of(&*config, call);
        let request = heard.request();
        let text = record_text(alloc, client, &request)?;
        match self.keeper.reserve(rt, share_index(call), text) {
            Ok(place) => Ok(CallReservation::Holds(place)),
            Err(fault) => Err(NoReservation::from(fault)),
        }
    }

    /// One turn of an operator's desk for one of its calls, and its record, over what the desk's lock holds: so no other
    /// turn of the desk and no record of the operator stands between the two.
    ///
    /// # Errors
    ///
    /// The log failed. It also fails where the turn isn't in the desk's list, or where the operator's records aren't
    /// those of its desk's turns so far, and then there is no turn. Neither happens.
    fn record_turn<R: Wait, E: Evaluator<Catalogue>>(
        &self,
        context: &Context<'_, R, E>,
        desk: &mut HallDesk<K>,
        records: &mut DeskRecords<K, N, L>,
        call: &OperatorCall,
        heard: WholeRequest<'_>,
        reserved: CallReservation,
    ) -> Result<RecordedTurn<K, N, L>, CommitFault>
        requires judge { E.may_judge }
        requires owner { records.old.place ≡ desk.old.place }
        requires resolved { call_of K.configuration (request_heard heard) ≡ Ok (OperatorAt desk.old.place call.now) }
        requires reserved { IsReserved K.configuration (request_heard heard) reserved }
        ensures recorded { IfOk result (λ turn. IsRecordedTurn K.configuration (Operator desk.old.place)
            (request_heard heard.entry) turn.answered.answer turn.answered.stamp) }
        ensures told { IfOk result (λ turn. ∥ IsToldTurn K.configuration desk.old.place (request_heard heard.entry)
            turn.answered.answer turn.turns.front.seen.log ∥₁) }
        ensures behind { IfOk result (λ turn. turn.turns.front.seen.log
            ≡ desk.old.turns.front.seen.log ++ Answered (request_heard heard.entry) turn.answered.answer ∷ []) }
        ensures shows { IfOk result (λ turn. ∥ ShowsTurns K.configuration N.client_of
            (index_of (Operator desk.old.place)) turn.turns.front.seen.log turn.answered.stamp ∥₁) }
    {
        let rt = context.rt;
        if !records.has_all(desk) {
            give_back(rt, &*self.keeper, reserved);
            return Err(CommitFault::Failed(self.keeper.fail(rt)));
        }
        let note = self.hall.note(rt);
        let answer = desk.carry_out(heard, call, note.as_ref(), &mut OpenGate, context.evaluator);
        let status = answer.status();
        let stamp = records.settle(rt, &*self.keeper, desk, reserved, status)?;
        match desk.turns() {
            Some(turns) => Ok(RecordedTurn {
                answered: AnswerAtPosition { answer, stamp },
                turns,
            }),
            None => Err(CommitFault::Failed(self.keeper.fail(rt))),
        }
    }

    /// One turn of the desk of the operator at this place for one of its calls, and its record, all under the desk's
    /// lock. The turn stands in the desk's list behind all that were told before, the list begins as the desk was put
    /// behind its lock, and the operator's records up to the log position are those of the list's turns.
    ///
    /// # Errors
    ///
    /// The log failed.
    pub(crate) fn desk_turn<R: Wait, E: Evaluator<Catalogue>>(
        &self,
        context: &Context<'_, R, E>,
        place: usize,
        call: OperatorCall,
        heard: WholeRequest<'_>,
        reserved: CallReservation,
    ) -> Result<RecordedTurn<K, N, L>, CommitFault>
        requires judge { E.may_judge }
        requires resolved { call_of K.configuration (request_heard heard) ≡ Ok (OperatorAt place call) }
        requires reserved { IsReserved K.configuration (request_heard heard) reserved }
        ensures recorded { IfOk result (λ turn. IsRecordedTurn K.configuration (Operator place)
            (request_heard heard.entry) turn.answered.answer turn.answered.stamp) }
        ensures told { IfOk result (λ turn. ∥ IsToldTurn K.configuration place (request_heard heard.entry)
            turn.answered.answer turn.turns.front.seen.log ∥₁) }
        ensures begins { IfOk result (λ turn. BeginsAt (openings_of self.now.hall) place turn.turns.front.seen.log) }
        ensures shows { IfOk result (λ turn. ∥ ShowsTurns K.configuration N.client_of (index_of (Operator place))
            turn.turns.front.seen.log turn.answered.stamp ∥₁) }
    {
        let Some(mut desk) = self.hall.desk_at(context.rt, place) else {
            give_back(context.rt, &*self.keeper, reserved);
            return Err(CommitFault::NoMemory);
        };
        let Some(mut records) = self.records_at(context.rt, place) else {
            give_back(context.rt, &*self.keeper, reserved);
            return Err(CommitFault::NoMemory);
        };
        self.record_turn(context, &mut *desk, &mut *records, &call, heard, reserved)
    }

    /// One turn of the author's room for a call of the author, and its record, all under the room's lock. A
    /// publication's record is synced before the publication is visible. The records before it are those of all turns
    /// of the room, whose list begins as the room was put behind its lock.
    ///
    /// # Errors
    ///
    /// The log failed. It also fails where there are records of other turns, or the list begins otherwise: neither
    /// happens.
    pub(crate) fn room_turn<T: RecordPayload, R: TurnRuntime>(
        &self,
        rt: &R,
        call: AuthorCall,
        heard: WholeRequest<'_>,
        keeper: Arc<CommitLog<N, L, S>>,
        log: AuthorLog<K, N, L>,
        back: &mut Option<AuthorLog<K, N, L>>,
        reserved: CallReservation,
    ) -> Result<AnswerAtPosition<N, L>, CommitFault>
        requires owned { IsOwnedBy N.client_of log.records.own.client reserved }
        requires title { IsTitled T.text reserved }
        requires held { reserved ≡ T.reserved }
        requires known { log.records.own ≡ T.own }
        requires resolved { call_of K.configuration (request_heard heard) ≡ Ok (ByAuthor call) }
        requires reserved { IsReserved K.configuration (request_heard heard) reserved }
        ensures recorded { IfOk result (λ answered. IsRecordedTurn K.configuration Author
            (request_heard heard.entry) answered.answer answered.stamp) }
        ensures listed { IfOk result (λ answered. ∥ IsLoggedRoomTurn K.configuration N.client_of
            (openings_of self.now.hall).room (request_heard heard.entry) answered.answer answered.stamp ∥₁) }
    {
        let Some(mut guard) = self.hall.room_checked(rt) else {
            give_back(rt, &*keeper, reserved);
            return Err(CommitFault::Failed(keeper.fail(rt)));
        };
        let room = &mut *guard;
        let Some(records) = log.records_of(room) else {
            give_back(rt, &*keeper, reserved);
            return Err(CommitFault::Failed(keeper.fail(rt)));
        };
        let recording = RecordCommit::<T, K, R, N, L, S>::new(*rt, keeper, records, reserved);
        let turn = RoomTurn::take(rt, room, call, heard, recording);
        turn.complete(&self.hall, back)
    }

    /// A turn of the author's room: see `room_turn`. No other takes the author's records meanwhile.
    ///
    /// # Errors
    ///
    /// The log failed, or out of memory for a reference to the commit log: the reservation is released then.
    pub(crate) fn room_turn_of<R: TurnRuntime>(
        &self,
        rt: &R,
        call: AuthorCall,
        heard: WholeRequest<'_>,
        reserved: CallReservation,
    ) -> Result<AnswerAtPosition<N, L>, CommitFault>
        requires resolved { call_of K.configuration (request_heard heard) ≡ Ok (ByAuthor call) }
        requires reserved { IsReserved K.configuration (request_heard heard) reserved }
        ensures recorded { IfOk result (λ answered. IsRecordedTurn K.configuration Author
            (request_heard heard.entry) answered.answer answered.stamp) }
        ensures listed { IfOk result (λ answered. ∥ IsLoggedRoomTurn K.configuration N.client_of
            (openings_of self.now.hall).room (request_heard heard.entry) answered.answer answered.stamp ∥₁) }
    {
        let Ok(keeper) = Arc::try_clone(&self.keeper) else {
            give_back(rt, &*self.keeper, reserved);
            return Err(CommitFault::NoMemory);
        };
        let mut author = self.author.lock(rt);
        let Some(log) = author.take() else {
            give_back(rt, &*self.keeper, reserved);
            return Err(CommitFault::Failed(self.keeper.fail(rt)));
        };
        self.room_turn::<Brand, R>(rt, call, heard, keeper, log, &mut *author, reserved)
    }
}
