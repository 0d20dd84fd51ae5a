//! Views of operators' fleets: what an operator's own desk answers it, told to the operator itself, and to the author
//! as far as the configuration's oversight goes. Each desk is asked under its own lock, one after another, and nothing
//! changes.
ghost use Rattle.std.specs.Prelude.{◌≡◌, ◌++◌, ◌<◌, IfOk, IfSome, OnOk, Some, bytes_eq, false, length, map, position, slice_get};
ghost use Rattle.mds_desk.specs.Desk.{state_of};
ghost use Rattle.mds_request.specs.Configuration.{configuration, operator as operator_view};
ghost use Rattle.mds_request.specs.Request.{request_of};
ghost use Rattle.server_app.specs.ComplianceList.{compliance_list, entries_text};
ghost use Rattle.server_app.specs.OperatorNames.{badge_view, badges_view};
ghost use Rattle.server_state.specs.Turn.{SaysOne};
ghost use Rattle.server_durable.specs.CacheControl.{Waits};
ghost use Rattle.server_durable.specs.declared.fleet_views.ComplianceAnswers.TheVariants.{Refusal, Successes};
ghost use Rattle.server_durable.specs.FleetViews.{AreOwnBodies, IsAskedWithin, IsEachCompliance, IsFleetReply, IsOwnView};
ghost use Rattle.server_durable.specs.FleetViews.{IsRefusedByOne, IsViewOf, covers, own_request, place_of, target_for};

use crate::context::Context;
use crate::desk_records::DeskRecords;
use crate::durable_hall::DurableHall;
use crate::pending::{NoResponse, ResponseAfterSync};
use crate::records::is_accepted;
use bytes::Bytes;
use journal_commit::{CommitFault, LogName, Space};
use journal_file::Log;
use mds_catalog::Catalogue;
use mds_desk::{OpenGate, SharedReply};
use mds_request::{Code, Config, Operator, Request, Verb};
use mds_text::{Id, Moment};
use mds_verdict::Evaluator;
use server_app::{OperatorName, Oversight, begin_compliance_list, push_compliance};
use server_routes::{FleetQuestion, FleetView};
use server_state::{HallDesk, HallName, response};
use std::alloc::{AllocError, Global};
use std::sync::Wait;
use std::thread;

/// Whether the author has such views, as far as this goes.
pub fn covers(oversight: Oversight, view: FleetView) -> bool
    ensures { result ≡ covers oversight view }
{
    match (oversight, view) {
        (Oversight::Nothing, _) => false,
        (Oversight::Verdicts, FleetView::Compliance) => true,
        (Oversight::Verdicts, FleetView::Vehicles) => false,
        (Oversight::Vehicles, _) => true,
    }
}

/// The target of the protocol's call that has a view.
fn target_for(view: FleetView) -> &'static [u8]
    ensures { result.now ≡ target_for view }
{
    match view {
        FleetView::Compliance => b"/compliance",
        FleetView::Vehicles => b"/fleet/vehicles",
    }
}

/// An operator's own request for a view, with its access token.
pub fn own_request(operator: &Operator, view: FleetView, at: Moment) -> Request<'_>
    ensures { request_of result ≡ own_request (operator_view operator.now) view at }
{
    Request {
        at,
        token: operator.token.as_bytes(),
        verb: Verb::Get,
        target: target_for(view),
        body: &[],
    }
}

/// Whether two identifiers are the same.
fn are_same(id: Id, other: Id) -> bool
    ensures { result ≡ bytes_eq id other }
{
    id == other
}

/// The place of the operator with this identifier among these.
fn place_among(operators: &[Operator], id: Id) -> Option<usize>
    ensures place { result ≡ position (λ o. bytes_eq id (operator_view o).id) operators.now }
    ensures within { IfSome result (λ place. place < length operators.now) }
{
    operators
        .iter()
        .position(|operator| are_same(id, operator.id))
}

/// The place of the operator with this identifier in a configuration; `None` where it has none.
pub fn place_of(config: &Config, id: Id) -> Option<usize>
    ensures place { result ≡ place_of (configuration config.now) id }
    ensures within { IfSome result (λ place. place < length (configuration config.now).operators) }
{
    place_among(config.operators(), id)
}

/// The operator at this place.
fn operator_at(config: &Config, place: usize) -> &Operator
    requires { place < length (configuration config.now).operators }
    ensures { slice_get (configuration config.now).operators place ≡ Some (operator_view result.now) }
{
    &config.operators()[place]
}

/// Adds an entry for each answer and its operator, in order.
fn push_entries(
    text: &mut Vec<u8>,
    answers: &[SharedReply],
    operators: &[OperatorName],
) -> Result<(), AllocError>
    ensures { OnOk result (text.new.items
        ≡ text.old.items ++ entries_text false (map (λ answer. answer.body) answers.now) (map badge_view operators.now)) }
{
    let mut rest = answers;
    let mut names = operators;
    let mut is_later = false;
    while let Some((answer, further)) = rest.split_first() {
        let Some((operator, others)) = names.split_first() else {
            return Ok(());
        };
        push_compliance(text, is_later, answer.body(), operator)?;
        rest = further;
        names = others;
        is_later = true;
    }
    Ok(())
}

/// The answer about each operator's compliance at a moment, of the operators' own answers in their order:
/// `{"at":MOMENT,"operators":[..]}`.
///
/// # Errors
///
/// Out of memory.
pub fn combine_compliance(
    alloc: Global,
    at: Moment,
    answers: &[SharedReply],
    operators: &[OperatorName],
) -> Result<SharedReply, AllocError>
    ensures status { IfOk result (λ reply. reply.status ≡ 200) }
    ensures body { IfOk result (λ reply. reply.body ≡ compliance_list at (map (λ answer. answer.body) answers.now) (map badge_view operators.now)) }
{
    let mut text = begin_compliance_list(alloc, at)?;
    push_entries(&mut text, answers, operators)?;
    text.extend_from_slice(b"]}")?;
    Ok(SharedReply::from_cached(Bytes::from_vec(text)?))
}

/// Each operator's own answer, in the configuration's order, or the first refusal among them.
#[derive(Drop)]
enum ComplianceAnswers {
    Successes(Vec<SharedReply>),
    Refusal(SharedReply),
}

impl<K: HallName, N: LogName, L: Log, S: Space> DurableHall<K, N, L, S> {
    /// What this desk answers its operator, by one turn that has no record. The operator's vehicles stay as they were.
    ///
    /// # Errors
    ///
    /// The log fails where the operator's records aren't those of its desk's turns, which doesn't happen.
    fn answer_view<R: Wait, E: Evaluator<Catalogue>>(
        &self,
        context: &Context<'_, R, E>,
        desk: &mut HallDesk<K>,
        records: &mut DeskRecords<K, N, L>,
        operator: &Operator,
        view: FleetView,
        at: Moment,
    ) -> Result<SharedReply, CommitFault>
        requires judge { E.may_judge }
        requires owner { records.old.place ≡ desk.old.place }
        requires its { slice_get K.configuration.operators desk.old.place ≡ Some (operator_view operator.now) }
        ensures own { IfOk result (IsOwnView K.configuration desk.old.place view at) }
        ensures rows { (state_of desk.new.desk).rows ≡ (state_of desk.old.desk).rows }
    {
        if !records.has_all(desk) {
            return Err(CommitFault::Failed(self.keeper.fail(context.rt)));
        }
        let request = own_request(operator, view, at);
        let note = self.hall.note(context.rt);
        let answer = desk.answer_request(&request, note.as_ref(), &mut OpenGate, context.evaluator);
        if records.learn(desk) {
            Ok(answer)
        } else {
            Err(CommitFault::Failed(self.keeper.fail(context.rt)))
        }
    }

    /// What the desk of the operator at this place answers it, by one turn under the desk's lock. The operator's
    /// vehicles stay as they were, and the turn has no record.
    ///
    /// # Errors
    ///
    /// Out of memory. The log fails where the operator's records aren't those of its desk's turns, which doesn't
    /// happen.
    fn own_view<R: Wait, E: Evaluator<Catalogue>>(
        &self,
        context: &Context<'_, R, E>,
        place: usize,
        view: FleetView,
        at: Moment,
    ) -> Result<SharedReply, CommitFault>
        requires judge { E.may_judge }
        requires place { place < length K.configuration.operators }
        ensures { IfOk result (IsOwnView K.configuration place view at) }
    {
        let config = self.hall.configuration()?;
        let operator = operator_at(&*config, place);
        let Some(mut desk) = self.hall.desk_at(context.rt, place) else {
            return Err(CommitFault::NoMemory);
        };
        let Some(mut records) = self.records_at(context.rt, place) else {
            return Err(CommitFault::NoMemory);
        };
        self.answer_view(context, &mut *desk, &mut *records, operator, view, at)
    }

    /// What each operator's desk answers it about its compliance, one desk after another.
    ///
    /// # Errors
    ///
    /// Out of memory.
    fn own_answers<R: Wait, E: Evaluator<Catalogue>>(
        &self,
        context: &Context<'_, R, E>,
        at: Moment,
    ) -> Result<ComplianceAnswers, CommitFault>
        requires { E.may_judge }
        ensures { IfOk result (elim [
          | Successes answers ↦ AreOwnBodies K.configuration at 0 (map (λ answer. answer.body) answers.items)
              × (length answers.items ≡ length K.configuration.operators)
          | Refusal reply ↦ IsRefusedByOne K.configuration at reply
        ]) }
    {
        let config = self.hall.configuration()?;
        let operators = config.operators().len();
        let mut answers = Vec::with_capacity(context.alloc, operators)?;
        while answers.len() < operators {
            let answer = self.own_view(context, answers.len(), FleetView::Compliance, at)?;
            if !is_accepted(answer.status()) {
                return Ok(ComplianceAnswers::Refusal(answer));
            }
            answers.push_reserved(answer);
            // What waits for this processor goes first: the author can wait.
            thread::yield_now();
        }
        Ok(ComplianceAnswers::Successes(answers))
    }

    /// The author's view of the fleet of the operator with this identifier.
    ///
    /// # Errors
    ///
    /// Out of memory.
    fn view_of<R: Wait, E: Evaluator<Catalogue>>(
        &self,
        context: &Context<'_, R, E>,
        view: FleetView,
        id: Id,
        at: Moment,
    ) -> Result<SharedReply, CommitFault>
        requires { E.may_judge }
        ensures { IfOk result (IsViewOf K.configuration (badges_view self.now.badges) view id at) }
    {
        if !covers(self.badges.oversight(), view) {
            return Ok(SharedReply::from(Code::Role));
        }
        let config = self.hall.configuration()?;
        match place_of(&*config, id) {
            Some(place) => self.own_view(context, place, view, at),
            None => Ok(SharedReply::from(Code::NotFound)),
        }
    }

    /// The author's view of each operator's compliance.
    ///
    /// # Errors
    ///
    /// Out of memory.
    fn each_compliance<R: Wait, E: Evaluator<Catalogue>>(
        &self,
        context: &Context<'_, R, E>,
        at: Moment,
    ) -> Result<SharedReply, CommitFault>
        requires { E.may_judge }
        ensures { IfOk result (IsEachCompliance K.configuration (badges_view self.now.badges) at) }
    {
        if !covers(self.badges.oversight(), FleetView::Compliance) {
            return Ok(SharedReply::from(Code::Role));
        }
        match self.own_answers(context, at)? {
            ComplianceAnswers::Successes(answers) => {
                let operators = self.badges.operators();
                Ok(combine_compliance(context.alloc, at, &answers, operators)?)
            }
            ComplianceAnswers::Refusal(answer) => Ok(answer),
        }
    }

    /// The reply to a question about fleets, as they are now.
    ///
    /// # Errors
    ///
    /// Out of memory.
    fn fleet_reply<R: Wait, E: Evaluator<Catalogue>>(
        &self,
        context: &Context<'_, R, E>,
        question: FleetQuestion,
        at: Moment,
    ) -> Result<SharedReply, CommitFault>
        requires judge { E.may_judge }
        requires within { IsAskedWithin (length K.configuration.operators) question }
        ensures { IfOk result (IsFleetReply K.configuration (badges_view self.now.badges) at question) }
    {
        match question {
            FleetQuestion::Own(place, view) => self.own_view(context, place, view, at),
            FleetQuestion::Of(view, id) => self.view_of(context, view, id, at),
            FleetQuestion::EachCompliance => self.each_compliance(context, at),
        }
    }
}

/// Answers a question about fleets, as they are now.
///
/// # Errors
///
/// Out of memory.
pub(crate) fn answer_fleet<
    K: HallName,
    N: LogName,
    R: Wait,
    E: Evaluator<Catalogue>,
    L: Log,
    S: Space,
>(
    context: &Context<'_, R, E>,
    question: FleetQuestion,
    at: Moment,
    city: &DurableHall<K, N, L, S>,
) -> Result<ResponseAfterSync<N, L, S>, NoResponse>
    requires judge { E.may_judge }
    requires within { IsAskedWithin (length K.configuration.operators) question }
    ensures { IfOk result (λ s. Waits (SaysOne (IsFleetReply K.configuration (badges_view city.now.badges) at question)) s.reply) }
{
    match city.fleet_reply(context, question, at) {
        Ok(answer) => {
            let response = response(context.alloc, answer)?;
            city.respond_now(response)
        }
        Err(fault) => Err(NoResponse::NotTold(fault)),
    }
}
