//! The response to an HTTP request, and when it is sent.
ghost use Rattle.std.specs.Prelude.{◌≡◌, Ok, IfOk};
ghost use Rattle.mds_request.specs.Call.{call_of};
ghost use Rattle.mds_request.specs.Configuration.{actor_of};
ghost use Rattle.server_state.specs.Openings.{openings_of};
ghost use Rattle.server_state.specs.WholeRequest.{request_heard};
ghost use Rattle.server_app.specs.OperatorNames.{badges_view};
ghost use Rattle.server_durable.specs.DurableResponse.{IsListed, CityResponds, IsAnsweredBy, IsRecordedTurn};
ghost use Rattle.server_durable.specs.Records.{IsReserved};
ghost use Rattle.server_durable.specs.CacheControl.{Waits};

use crate::context::{Context, TurnRuntime};
use crate::durable_hall::{AnswerAtPosition, DurableHall};
use crate::fleet_views::answer_fleet;
use crate::many::many_reports;
use crate::pending::{NoResponse, ResponseAfterSync};
use crate::people::{answer_author, answer_operator};
use crate::records::CallReservation;
use journal_commit::{CommitFault, LogName, Space};
use journal_file::Log;
use mds_catalog::Catalogue;
use mds_request::Call;
use mds_text::Moment;
use mds_verdict::Evaluator;
use server_admission::Arrived;
use server_routes::{ResolvedState, StateCall};
use server_state::{HallName, WholeRequest, read_whole};

/// Answers the request of a head and the body that arrived for it, at this moment of the machine's clock. The head
/// already says which client asks, and for what. What the table of calls refuses is refused at once. Any other response
/// is sent once all that it shows is synced.
///
/// # Errors
///
/// `Crowded` where the client's share of the log is used up: nothing was carried out, and the request may be tried
/// again. Else no response may be sent: the log failed, or out of memory for the response, and the request may have
/// been carried out.
pub fn respond<K: HallName, N: LogName, R: TurnRuntime, E: Evaluator<Catalogue>, L: Log, S: Space>(
    context: &Context<'_, R, E>,
    head: &ResolvedState<K>,
    arrived: &Arrived,
    at: Option<Moment>,
    city: &DurableHall<K, N, L, S>,
) -> Result<ResponseAfterSync<N, L, S>, NoResponse>
    requires { E.may_judge }
    ensures { IfOk result (λ s. CityResponds K.configuration (openings_of city.now.hall) (badges_view city.now.badges)
        head.now.parts arrived.now at s.reply s.stamp) }
{
    let heard = match read_whole(head.parts(), arrived, at) {
        Ok(heard) => heard,
        Err(code) => return city.refuse(context.alloc, code),
    };
    match &head.call() {
        Ok(StateCall::Call(call)) => answer_call(context, *call, heard, city),
        Ok(StateCall::Reports(place)) => many_reports(context, *place, &heard, city),
        Ok(StateCall::AuthorAsks(question)) => {
            answer_author(context.rt, context.alloc, *question, city)
        }
        Ok(StateCall::OperatorAsks(place, question)) => {
            answer_operator(context.rt, context.alloc, *place, *question, city)
        }
        Ok(StateCall::AsksFleet(question)) => {
            answer_fleet(context, *question, heard.moment(), city)
        }
        Err(code) => city.refuse(context.alloc, *code),
    }
}

/// Answers a request that is this call of the protocol: reserves what the call needs of the log, and carries it out.
fn answer_call<K: HallName, N: LogName, R: TurnRuntime, E: Evaluator<Catalogue>, L: Log, S: Space>(
    context: &Context<'_, R, E>,
    call: Call,
    heard: WholeRequest<'_>,
    city: &DurableHall<K, N, L, S>,
) -> Result<ResponseAfterSync<N, L, S>, NoResponse>
    requires judge { E.may_judge }
    requires resolved { call_of K.configuration (request_heard heard) ≡ Ok call }
    ensures { IfOk result (λ s. Waits (IsAnsweredBy K.configuration (openings_of city.now.hall)
        (actor_of K.configuration (request_heard heard.entry).token) (request_heard heard.entry) s.stamp) s.reply) }
{
    let reserved = match city.reserve_for(context.rt, context.alloc, &heard, &call) {
        Ok(reserved) => reserved,
        Err(why) => return city.refuse_unreserved(context.alloc, why),
    };
    match carry_out(context, call, heard, reserved, city) {
        Ok(answered) => city.reply(context.alloc, answered),
        Err(fault) => Err(NoResponse::NotTold(fault)),
    }
}

/// Carries out the call of a request, for which what it needs of the log is reserved.
///
/// # Errors
///
/// The log failed.
fn carry_out<K: HallName, N: LogName, R: TurnRuntime, E: Evaluator<Catalogue>, L: Log, S: Space>(
    context: &Context<'_, R, E>,
    call: Call,
    heard: WholeRequest<'_>,
    reserved: CallReservation,
    city: &DurableHall<K, N, L, S>,
) -> Result<AnswerAtPosition<N, L>, CommitFault>
    requires judge { E.may_judge }
    requires resolved { call_of K.configuration (request_heard heard) ≡ Ok call }
    requires reserved { IsReserved K.configuration (request_heard heard) reserved }
    ensures turn { IfOk result (λ answered. IsRecordedTurn K.configuration (actor_of K.configuration (request_heard heard.entry).token)
        (request_heard heard.entry) answered.answer answered.stamp) }
    ensures listed { IfOk result (λ answered. IsListed K.configuration (openings_of city.now.hall)
        (actor_of K.configuration (request_heard heard.entry).token) (request_heard heard.entry) answered.answer answered.stamp) }
{
    match call {
        Call::Author(call) => city.room_turn_of(context.rt, call, heard, reserved),
        Call::Operator(place, call) => match city.desk_turn(context, place, call, heard, reserved) {
            Ok(turn) => Ok(turn.answered),
            Err(fault) => Err(fault),
        },
    }
}
