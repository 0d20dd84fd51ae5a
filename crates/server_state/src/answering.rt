//! Answers an HTTP request.
ghost use Rattle.std.specs.Prelude.{◌≡◌, IfOk, IfSome, Ok};
ghost use Rattle.mds_request.specs.Call.{call_of};
ghost use Rattle.mds_request.specs.Configuration.{configuration};
ghost use Rattle.mds_request.specs.declared.call.Call.TheVariants.{Operator as OperatorAt};
ghost use Rattle.server_state.specs.WholeRequest.{request_heard};
ghost use Rattle.server_state.specs.Openings.{BeginsAt, openings_of};
ghost use Rattle.server_state.specs.Respond.{IsAnswered, Responds};
ghost use Rattle.server_state.specs.Turn.{DeskReplies};
ghost use Rattle.server_state.specs.TurnList.{IsToldTurn};

use crate::early::read_whole;
use crate::hall::Hall;
use crate::hall_name::HallName;
use crate::responding::response;
use crate::turn_list::DeskTurns;
use crate::whole_request::WholeRequest;
use http::request::Parts;
use mds_catalog::Catalogue;
use mds_desk::{Gate, OpenGate, SharedReply};
use mds_request::{Call, Code, OperatorCall};
use mds_text::Moment;
use mds_verdict::Evaluator;
use server_admission::Arrived;
use server_responses::HttpResult;
use std::alloc::{AllocError, Global};
use std::sync::Wait;

/// What requests are answered with: what waits for locks, the allocator, the hall, and the
/// evaluator of vehicles.
#[derive(Drop)]
pub struct HallContext<'a, K: HallName, R, E> {
    pub rt: &'a R,
    pub alloc: Global,
    pub hall: &'a Hall<K>,
    pub evaluator: &'a E,
}

/// Answers an HTTP request whose body has arrived, at this moment of the machine's clock. What the
/// table of calls refuses is answered without a lock. The evaluator judges vehicles.
///
/// # Errors
///
/// There was no memory for the response. The request may have been carried out.
pub fn respond<K: HallName, R: Wait, E: Evaluator<Catalogue>>(
    rt: &R,
    alloc: Global,
    parts: &Parts,
    arrived: Arrived,
    at: Option<Moment>,
    hall: &Hall<K>,
    evaluator: &E,
) -> HttpResult
    requires { E.may_judge }
    ensures { IfOk result (Responds (configuration hall.now.config.value) parts.now arrived at) }
{
    respond_with(
        rt,
        alloc,
        parts,
        arrived,
        at,
        hall,
        &mut OpenGate,
        evaluator,
    )
}

/// The same, with a gate that is called between the look of an operator's request and its answer.
///
/// # Errors
///
/// There was no memory for the response. The request may have been carried out.
pub fn respond_with<K: HallName, R: Wait, G: Gate, E: Evaluator<Catalogue>>(
    rt: &R,
    alloc: Global,
    parts: &Parts,
    arrived: Arrived,
    at: Option<Moment>,
    hall: &Hall<K>,
    gate: &mut G,
    evaluator: &E,
) -> HttpResult
    requires { E.may_judge }
    ensures { IfOk result (Responds (configuration hall.now.config.value) parts.now arrived at) }
{
    let heard = match read_whole(parts, &arrived, at) {
        Ok(heard) => heard,
        Err(code) => return response(alloc, SharedReply::from(code)),
    };
    let context = HallContext {
        rt,
        alloc,
        hall,
        evaluator,
    };
    carry_out(&context, hall.call_at(parts), heard, gate)
}

/// A reply of an operator's desk, and all turns of that desk up to the one that gave it, since it
/// was put behind its lock.
#[derive(Drop)]
pub struct ToldTurn<K: HallName> {
    pub reply: SharedReply,
    pub turns: DeskTurns<K>,
}

/// Carries out a call of the operator at this index, that of the request, by one turn of its desk.
/// The turn stands in the desk's list behind all that were told before. The gate is called between
/// the look of the request and its answer.
///
/// No turn is told where the desk's lock is that of another, or its list lacks a turn. Neither
/// happens.
pub fn take_desk_turn<K: HallName, R: Wait, G: Gate, E: Evaluator<Catalogue>>(
    context: &HallContext<'_, K, R, E>,
    place: usize,
    call: &OperatorCall,
    heard: WholeRequest<'_>,
    gate: &mut G,
) -> Option<ToldTurn<K>>
    requires judge { E.may_judge }
    requires resolved { call_of K.configuration (request_heard heard) ≡ Ok (OperatorAt place call.now) }
    ensures told { IfSome result (λ told. ∥ IsToldTurn K.configuration place (request_heard heard.entry) told.reply told.turns.front.seen.log ∥₁) }
    ensures place { IfSome result (λ told. told.turns.place ≡ place) }
    ensures begins { IfSome result (λ told. BeginsAt (openings_of context.now.hall.now) place told.turns.front.seen.log) }
    ensures replies { IfSome result (λ told. DeskReplies K.configuration place (request_heard heard.entry) told.reply) }
{
    let mut desk = context.hall.desk_at(context.rt, place)?;
    let note = context.hall.note(context.rt);
    let reply = desk.carry_out(heard, call, note.as_ref(), gate, context.evaluator);
    let turns = desk.turns()?;
    Some(ToldTurn { reply, turns })
}

/// Carries out the call of a request, by one turn of the author's room or of the operator's desk,
/// or answers its refusal, which takes no lock. The gate is called between the look of an
/// operator's request and its answer.
///
/// # Errors
///
/// There was no memory for the response. The request may have been carried out.
pub(crate) fn carry_out<K: HallName, R: Wait, G: Gate, E: Evaluator<Catalogue>>(
    context: &HallContext<'_, K, R, E>,
    call: Result<Call, Code>,
    heard: WholeRequest<'_>,
    gate: &mut G,
) -> HttpResult
    requires judge { E.may_judge }
    requires resolved { call_of K.configuration (request_heard heard) ≡ call }
    ensures { IfOk result (IsAnswered K.configuration (request_heard heard.entry)) }
{
    match call {
        Ok(Call::Author(call)) => {
            let answer = context.hall.answer_author(context.rt, heard, &call);
            response(context.alloc, answer)
        }
        Ok(Call::Operator(place, call)) => {
            let Some(told) = take_desk_turn(context, place, &call, heard, gate) else {
                return Err(AllocError);
            };
            response(context.alloc, told.reply)
        }
        Err(code) => response(context.alloc, SharedReply::from(code)),
    }
}
