//! Many reports of an operator, answered by turns of its desk with nothing between.
ghost use Rattle.std.specs.Prelude.{◌≡◌, ◌==◌, ◌≤◌, ◌<◌, ◌++◌, IfOk, List, OnOk, length, map, not, vec_capacity};
ghost use mathlib.Core.List.{IsPrefix};
ghost use Rattle.std.specs.List.{AllByRecursion, list_all};
ghost use Rattle.mds_request.specs.Configuration.{actor_of};
ghost use Rattle.mds_request.specs.Request.{request_of};
ghost use Rattle.mds_request.specs.Reply.{Reply, refused};
ghost use Rattle.mds_desk.specs.Desk.{state_of};
ghost use Rattle.server_admission.specs.Actor.{index_of};
ghost use Rattle.server_state.specs.Openings.{BeginsAt, openings_of};
ghost use Rattle.server_state.specs.WholeRequest.{request_heard};
ghost use Rattle.mds_request.specs.declared.config.Actor.TheVariants.{Operator};
ghost use Rattle.server_durable.specs.Logged.{OwnsTurns, ShowsTurns};
ghost use Rattle.server_durable.specs.Many.{AreAskedBy, AreRecordsOf, AreRefusedBehind, Continues, IsHalted, SaysAll, refusal_behind};
ghost use Rattle.server_durable.specs.ManyAnswers.{EndsInRun, IsAnsweredInPart, ManyAreAnswered};
ghost use Rattle.server_durable.specs.Records.{IsRecordable, record_by};
ghost use Rattle.server_durable.specs.CacheControl.{Waits};

use crate::batch::{chunk_length, may_be_report, reports};
use crate::context::Context;
use crate::desk_records::DeskRecords;
use crate::durable_hall::DurableHall;
use crate::pending::{NoResponse, ResponseAfterSync};
use crate::records::{NoReservation, is_accepted, operator_client, record_text};
use crate::report_lines::response_of_all;
use journal_commit::{
    CommitFault, LogName, LogPosition, MOST_TEXTS_OF_ONE, Reservations, Space, Usage,
};
use journal_entry::EntryClient;
use journal_file::Log;
use mds_catalog::Catalogue;
use mds_desk::{OpenGate, SharedReply};
use mds_request::{Actor, Code, Request};
use mds_verdict::Evaluator;
use server_admission::index_of;
use server_state::{HallDesk, HallName, WholeRequest};
use std::alloc::{AllocError, Global};
use std::sync::Wait;

/// The answers to requests so far, in their order, and the log position of all that they show.
#[derive(Drop)]
pub(crate) struct Replies<N: LogName, L: Log> {
    answers: Vec<SharedReply>,
    stamp: LogPosition<N, L>,
}

/// Why a chunk of requests isn't answered.
#[derive(Clone, Copy, Debug, PartialEq, Eq)]
pub(crate) enum Halt {
    /// Nothing is reserved in the log for it, and none of it was carried out.
    Unheld(NoReservation),
    /// No response may be sent.
    NotTold(CommitFault),
}

impl From<NoReservation> for Halt {
    fn from(why: NoReservation) -> Halt {
        Halt::Unheld(why)
    }
}

impl From<AllocError> for Halt {
    fn from(_: AllocError) -> Halt {
        Halt::Unheld(NoReservation::NoMemory)
    }
}

impl From<CommitFault> for Halt {
    fn from(fault: CommitFault) -> Halt {
        Halt::NotTold(fault)
    }
}

/// The refusal of requests that come after others of their body, where nothing more is reserved. None where no response
/// may be sent.
fn refusal_behind(halt: Halt) -> Option<Code>
    ensures { result ≡ refusal_behind halt }
{
    match halt {
        Halt::Unheld(NoReservation::Crowded) => Some(Code::Busy),
        Halt::Unheld(NoReservation::Stopping) => Some(Code::Busy),
        Halt::Unheld(NoReservation::NoRoom) => Some(Code::NoRoom),
        Halt::Unheld(NoReservation::NoMemory) => Some(Code::NoMemory),
        Halt::Unheld(NoReservation::Failed(_)) => None,
        Halt::NotTold(_) => None,
    }
}

/// A refusal of each of these requests.
fn refusals(
    alloc: Global,
    code: Code,
    requests: &[Request<'_>],
) -> Result<Vec<SharedReply>, AllocError>
    ensures { IfOk result (λ answers. answers.items ≡ map (λ _. refused code) (map request_of requests.now)) }
{
    let mut answers = Vec::with_capacity(alloc, requests.len())?;
    for request in requests {
        let _ = request;
        answers.push_reserved(SharedReply::from(code));
    }
    Ok(answers)
}

/// The payloads of the records of this client's requests.
///
/// # Errors
///
/// `NoMemory`: a request's target is too long for a record, or out of memory.
fn record_texts(
    alloc: Global,
    client: &EntryClient,
    requests: &[Request<'_>],
) -> Result<Vec<Vec<u8>>, NoReservation>
    ensures texts { IfOk result (λ texts. map (λ text. text.items) texts.items ≡ map (record_by client.now) (map request_of requests.now)) }
    ensures within { OnOk result (AllByRecursion IsRecordable (map request_of requests.now)) }
{
    let mut texts = Vec::with_capacity(alloc, requests.len())?;
    for request in requests {
        let text = record_text(alloc, *client, request)?;
        texts.push_reserved(text);
    }
    Ok(texts)
}

/// How many of these requests may be reports.
fn reports_among(requests: &[Request<'_>]) -> usize {
    let mut count: usize = 0;
    for request in requests {
        if may_be_report(request.body) {
            count = count.saturating_add(1);
        }
    }
    count
}

/// Whether no request was accepted.
fn are_refused(answers: &[SharedReply]) -> bool
    ensures { result ≡ list_all (λ answer. not (answer.status == 200)) answers.now }
{
    answers.iter().all(|answer| !is_accepted(answer.status()))
}

/// Adds for each answer whether its request was accepted.
fn push_flags(flags: &mut Vec<bool>, answers: &[SharedReply])
    requires empty { length flags.old.items ≡ 0 }
    requires room { length answers.now ≤ vec_capacity flags.old }
    ensures { flags.new.items ≡ map (λ answer. answer.status == 200) answers.now }
{
    for answer in answers {
        flags.push_reserved(is_accepted(answer.status()));
    }
}

impl<N: LogName, L: Log> Replies<N, L> {
    /// Adds the answers to further requests.
    ///
    /// # Errors
    ///
    /// Out of memory, though they were carried out.
    fn extend(&mut self, further: Replies<N, L>) -> Result<(), CommitFault>
        ensures { OnOk result ((self.new.answers.items ≡ self.old.answers.items ++ further.answers.items) × (self.new.stamp ≡ further.stamp)) }
    {
        let Replies { mut answers, stamp } = further;
        self.answers.append(&mut answers)?;
        self.stamp = stamp;
        Ok(())
    }

    /// The same answers, and after them a refusal of each of these requests, which aren't carried out.
    ///
    /// # Errors
    ///
    /// None was answered before them, or no response may be sent.
    fn with_refusals(
        self,
        alloc: Global,
        requests: &[Request<'_>],
        halt: Halt,
    ) -> Result<Replies<N, L>, Halt>
        ensures { IfOk result (λ all. (others : List Reply) × (all.answers.items ≡ self.answers.items ++ others)
            × AreRefusedBehind (map request_of requests.now) others × (all.stamp ≡ self.stamp)) }
    {
        let Some(code) = refusal_behind(halt) else {
            return Err(halt);
        };
        if self.answers.is_empty() {
            return Err(halt);
        }
        let Ok(others) = refusals(alloc, code, requests) else {
            return Err(Halt::NotTold(CommitFault::NoMemory));
        };
        let stamp = self.stamp.again();
        let refused = Replies {
            answers: others,
            stamp,
        };
        let mut all = self;
        match all.extend(refused) {
            Ok(()) => Ok(all),
            Err(fault) => Err(Halt::NotTold(fault)),
        }
    }
}

impl<K: HallName, N: LogName, L: Log, S: Space> DurableHall<K, N, L, S> {
    /// Whether this operator's share of the log has room for so many reports of one body, or, where they are more, for
    /// as many as it may ever have.
    fn has_share<R: Wait>(&self, rt: &R, place: usize, reports: usize, bytes: usize) -> bool {
        let more = Usage {
            texts: reports.min(MOST_TEXTS_OF_ONE),
            bytes: bytes as u64,
        };
        self.keeper
            .has_share(rt, index_of(Actor::Operator(place)), more)
    }

    /// Reserves room for the record of each of these requests of the operator at this place, before the first is
    /// carried out.
    ///
    /// # Errors
    ///
    /// Nothing is reserved.
    fn reserve_for_all<R: Wait>(
        &self,
        rt: &R,
        alloc: Global,
        place: usize,
        requests: &[Request<'_>],
    ) -> Result<Reservations, NoReservation>
        requires place { place < length K.configuration.operators }
        requires asked { AreAskedBy K.configuration place (map request_of requests.now) }
        ensures { IfOk result (λ places. AreRecordsOf K.configuration (map request_of requests.now)
            (map (λ text. text.items) places.texts.items)) }
    {
        let config = self.hall.configuration()?;
        let client = operator_client(&*config, place);
        let texts = record_texts(alloc, &client, requests)?;
        let sharer = index_of(Actor::Operator(place));
        match self.keeper.reserve_all(rt, sharer, texts) {
            Ok(places) => Ok(places),
            Err(fault) => Err(NoReservation::from(fault)),
        }
    }

    /// A turn of this desk for each of these requests, whose records have reservations, and their records. The log
    /// position that is returned has all of the known one, and the run is the last item of the desk's list.
    ///
    /// # Errors
    ///
    /// Out of memory before the first turn, and none is carried out; or the log failed, as it does where the run isn't
    /// in the desk's list.
    fn carry_out_reserved<R: Wait, E: Evaluator<Catalogue>>(
        &self,
        context: &Context<'_, R, E>,
        desk: &mut HallDesk<K>,
        records: &mut DeskRecords<K, N, L>,
        requests: &[Request<'_>],
        places: Reservations,
        known: &LogPosition<N, L>,
    ) -> Result<Replies<N, L>, Halt>
        requires judge { E.may_judge }
        requires owner { records.old.place ≡ desk.old.place }
        requires logged { ∥ OwnsTurns K.configuration N.client_of records.old.own desk.old.turns.front.seen.log ∥₁ }
        requires asked { AreAskedBy K.configuration desk.old.place (map request_of requests.now) }
        requires places { AreRecordsOf K.configuration (map request_of requests.now) (map (λ text. text.items) places.texts.items) }
        ensures owner { records.new.place ≡ records.old.place }
        ensures place { desk.new.place ≡ desk.old.place }
        ensures continues { IfOk result (λ replies. Continues K.configuration (state_of desk.old.desk) known.now
            (map request_of requests.now) (state_of desk.new.desk) replies.answers.items replies.stamp) }
        ensures front { IfOk result (λ replies. IsPrefix records.new.own.texts replies.stamp) }
        ensures shows { IfOk result (λ replies. ∥ ShowsTurns K.configuration N.client_of
            (index_of (Operator desk.old.place)) desk.new.turns.front.seen.log replies.stamp ∥₁) }
        ensures listed { IfOk result (λ replies. EndsInRun desk.old.turns.front.seen.log (map request_of requests.now)
            replies.answers.items desk.new.is_lost desk.new.turns.front.seen.log) }
    {
        let Ok(mut accepted) = Vec::with_capacity(context.alloc, requests.len()) else {
            self.keeper.release_all(context.rt, places);
            return Err(Halt::Unheld(NoReservation::NoMemory));
        };
        let note = self.hall.note(context.rt);
        let run = desk.answer_all(requests, note.as_ref(), &mut OpenGate, context.evaluator);
        let Ok(answers) = run else {
            self.keeper.release_all(context.rt, places);
            return Err(Halt::Unheld(NoReservation::NoMemory));
        };
        push_flags(&mut accepted, &answers);
        let keeper = &*self.keeper;
        let stamp = records.settle_run(context.rt, keeper, desk, known, places, &accepted)?;
        if desk.turns().is_none() {
            return Err(self.halt(context.rt));
        }
        Ok(Replies { answers, stamp })
    }

    /// The log fails, and no response may be sent.
    fn halt<R: Wait>(&self, rt: &R) -> Halt {
        Halt::NotTold(CommitFault::Failed(self.keeper.fail(rt)))
    }

    /// A turn of this desk for each of these requests, none of which can be accepted: nothing is reserved for them.
    ///
    /// # Errors
    ///
    /// Out of memory before the first turn, and none is carried out; or the log failed, as it does where one of them
    /// was accepted all the same, or isn't in the desk's list.
    fn carry_out_refused<R: Wait, E: Evaluator<Catalogue>>(
        &self,
        context: &Context<'_, R, E>,
        desk: &mut HallDesk<K>,
        records: &mut DeskRecords<K, N, L>,
        requests: &[Request<'_>],
        known: &LogPosition<N, L>,
    ) -> Result<Replies<N, L>, Halt>
        requires judge { E.may_judge }
        requires owner { records.old.place ≡ desk.old.place }
        requires logged { ∥ OwnsTurns K.configuration N.client_of records.old.own desk.old.turns.front.seen.log ∥₁ }
        requires front { IsPrefix records.old.own.texts known.now }
        ensures owner { records.new.place ≡ records.old.place }
        ensures place { desk.new.place ≡ desk.old.place }
        ensures continues { IfOk result (λ replies. Continues K.configuration (state_of desk.old.desk) known.now
            (map request_of requests.now) (state_of desk.new.desk) replies.answers.items replies.stamp) }
        ensures front { IfOk result (λ replies. IsPrefix records.new.own.texts replies.stamp) }
        ensures shows { IfOk result (λ replies. ∥ ShowsTurns K.configuration N.client_of
            (index_of (Operator desk.old.place)) desk.new.turns.front.seen.log replies.stamp ∥₁) }
        ensures listed { IfOk result (λ replies. EndsInRun desk.old.turns.front.seen.log (map request_of requests.now)
            replies.answers.items desk.new.is_lost desk.new.turns.front.seen.log) }
    {
        let note = self.hall.note(context.rt);
        let answers = desk.answer_all(requests, note.as_ref(), &mut OpenGate, context.evaluator)?;
        if !are_refused(&answers) {
            return Err(self.halt(context.rt));
        }
        if !records.learn(desk) {
            return Err(self.halt(context.rt));
        }
        let stamp = known.again();
        Ok(Replies { answers, stamp })
    }

    /// A turn of this desk, which is that of the operator at this place, for each request of a chunk, and their
    /// records. The operator's records up to the log position that is returned are those of all turns of the desk, the
    /// last of which are these.
    ///
    /// # Errors
    ///
    /// None is carried out, or the log failed.
    fn carry_out_chunk<R: Wait, E: Evaluator<Catalogue>>(
        &self,
        context: &Context<'_, R, E>,
        desk: &mut HallDesk<K>,
        records: &mut DeskRecords<K, N, L>,
        place: usize,
        requests: &[Request<'_>],
        known: &LogPosition<N, L>,
    ) -> Result<Replies<N, L>, Halt>
        requires judge { E.may_judge }
        requires owner { records.old.place ≡ place }
        requires desk { desk.old.place ≡ place }
        requires place { place < length K.configuration.operators }
        requires asked { AreAskedBy K.configuration place (map request_of requests.now) }
        requires front { IsPrefix records.old.own.texts known.now }
        ensures owner { records.new.place ≡ records.old.place }
        ensures place { desk.new.place ≡ desk.old.place }
        ensures continues { IfOk result (λ replies. Continues K.configuration (state_of desk.old.desk) known.now
            (map request_of requests.now) (state_of desk.new.desk) replies.answers.items replies.stamp) }
        ensures front { IfOk result (λ replies. IsPrefix records.new.own.texts replies.stamp) }
        ensures shows { IfOk result (λ replies. ∥ ShowsTurns K.configuration N.client_of
            (index_of (Operator desk.old.place)) desk.new.turns.front.seen.log replies.stamp ∥₁) }
        ensures listed { IfOk result (λ replies. EndsInRun desk.old.turns.front.seen.log (map request_of requests.now)
            replies.answers.items desk.new.is_lost desk.new.turns.front.seen.log) }
    {
        if !records.has_all(desk) {
            return Err(self.halt(context.rt));
        }
        if !requests.iter().any(|request| may_be_report(request.body)) {
            return self.carry_out_refused(context, desk, records, requests, known);
        }
        let places = self.reserve_for_all(context.rt, context.alloc, place, requests)?;
        self.carry_out_reserved(context, desk, records, requests, places, known)
    }

    /// Answers these requests by turns of this desk, which is that of the operator at this place, chunk by chunk and
    /// with nothing between. Where nothing more can be reserved in the log, the others are refused.
    ///
    /// # Errors
    ///
    /// None is carried out, or the log failed.
    fn carry_out_all<R: Wait, E: Evaluator<Catalogue>>(
        &self,
        context: &Context<'_, R, E>,
        desk: &mut HallDesk<K>,
        records: &mut DeskRecords<K, N, L>,
        place: usize,
        requests: &[Request<'_>],
    ) -> Result<Replies<N, L>, Halt>
        requires judge { E.may_judge }
        requires owner { records.old.place ≡ place }
        requires place { desk.old.place ≡ place }
        requires within { place < length K.configuration.operators }
        requires begins { BeginsAt (openings_of self.now.hall) place desk.old.turns.front.seen.log }
        requires asked { AreAskedBy K.configuration place (map request_of requests.now) }
        ensures { IfOk result (λ replies. IsAnsweredInPart K.configuration (openings_of self.now.hall) place
            (map request_of requests.now) replies.answers.items replies.stamp) }
    {
        let mut replies = Replies {
            answers: Vec::with_capacity(context.alloc, requests.len())?,
            stamp: records.own.position().again(),
        };
        let mut done = 0;
        'chunks: while done < requests.len() {
            let rest = &requests[done..];
            let length = chunk_length(rest);
            let chunk = &rest[..length];
            match self.carry_out_chunk(context, desk, records, place, chunk, &replies.stamp) {
                Ok(further) => {
                    replies.extend(further)?;
                    done += length;
                }
                Err(halt) => return replies.with_refusals(context.alloc, rest, halt),
            }
        }
        Ok(replies)
    }

    /// Answers these requests of the operator at this place, without releasing its desk's lock between them.
    ///
    /// # Errors
    ///
    /// None is carried out, or the log failed.
    fn answer_all<R: Wait, E: Evaluator<Catalogue>>(
        &self,
        context: &Context<'_, R, E>,
        place: usize,
        requests: &[Request<'_>],
    ) -> Result<Replies<N, L>, Halt>
        requires judge { E.may_judge }
        requires place { place < length K.configuration.operators }
        requires asked { AreAskedBy K.configuration place (map request_of requests.now) }
        ensures { IfOk result (λ replies. IsAnsweredInPart K.configuration (openings_of self.now.hall) place
            (map request_of requests.now) replies.answers.items replies.stamp) }
    {
        let Some(mut desk) = self.hall.desk_at(context.rt, place) else {
            return Err(Halt::Unheld(NoReservation::NoMemory));
        };
        let Some(mut records) = self.records_at(context.rt, place) else {
            return Err(Halt::Unheld(NoReservation::NoMemory));
        };
        self.carry_out_all(context, &mut *desk, &mut *records, place, requests)
    }

    /// The response with all answers, once all that they show is synced.
    ///
    /// # Errors
    ///
    /// Out of memory for the response. What was done stays.
    fn reply_to_all(
        &self,
        alloc: Global,
        replies: Replies<N, L>,
    ) -> Result<ResponseAfterSync<N, L, S>, NoResponse>
        ensures says { IfOk result (λ s. Waits (λ response. SaysAll response replies.answers.items) s.reply) }
        ensures stamp { IfOk result (λ s. s.stamp ≡ replies.stamp) }
    {
        let Replies { answers, stamp } = replies;
        let response = response_of_all(alloc, &answers)?;
        self.await_sync(stamp, response)
    }

    /// The refusal of many reports of which none was carried out.
    ///
    /// # Errors
    ///
    /// They aren't refused, since they may be tried again or no response may be sent; or out of memory for the
    /// response.
    fn refuse_all(
        &self,
        alloc: Global,
        halt: Halt,
    ) -> Result<ResponseAfterSync<N, L, S>, NoResponse>
        ensures { IsHalted (λ s. s.reply) halt result }
    {
        match halt {
            Halt::Unheld(why) => self.refuse_unreserved(alloc, why),
            Halt::NotTold(fault) => Err(NoResponse::NotTold(fault)),
        }
    }
}

/// Answers many reports of the operator at this place: each line of the body that isn't empty is one. No other turn of
/// this operator comes between them.
///
/// # Errors
///
/// The client's share of the log is used up, and none was carried out; or no response may be sent, and reports may have
/// been accepted.
pub(crate) fn many_reports<
    K: HallName,
    N: LogName,
    R: Wait,
    E: Evaluator<Catalogue>,
    L: Log,
    S: Space,
>(
    context: &Context<'_, R, E>,
    place: usize,
    heard: &WholeRequest<'_>,
    city: &DurableHall<K, N, L, S>,
) -> Result<ResponseAfterSync<N, L, S>, NoResponse>
    requires judge { E.may_judge }
    requires client { actor_of K.configuration (request_heard heard.now).token ≡ Operator place }
    ensures { IfOk result (λ s. Waits (ManyAreAnswered K.configuration (openings_of city.now.hall) place
        (request_heard heard.now) s.stamp) s.reply) }
{
    let request = heard.request();
    let requests = match reports(context.alloc, &request) {
        Ok(requests) => requests,
        Err(code) => return city.refuse(context.alloc, code),
    };
    let lent = requests.as_slice();
    if !city.has_share(context.rt, place, reports_among(lent), request.body.len()) {
        return Err(NoResponse::Crowded);
    }
    match city.answer_all(context, place, lent) {
        Ok(replies) => city.reply_to_all(context.alloc, replies),
        Err(halt) => city.refuse_all(context.alloc, halt),
    }
}
