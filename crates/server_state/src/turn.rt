//! A request at an operator's desk.
ghost use Rattle.std.specs.Prelude.{◌≡◌, ◌⊎◌, IfErr, IfOk, Ok, OnErr, map, option_copied};
ghost use Rattle.mds_request.specs.Call.{call_of};
ghost use Rattle.mds_request.specs.Request.{request_of};
ghost use Rattle.mds_request.specs.declared.call.Call.TheVariants.{Operator as OperatorAt};
ghost use Rattle.mds_request.specs.declared.code.Code.TheVariants.{NoMemory, NoSnapshot};
ghost use Rattle.mds_desk.specs.Desk.{state_of, IsSameDesk};
ghost use Rattle.server_state.specs.HttpRequest.{request_in};
ghost use Rattle.server_state.specs.Query.{Looks};
ghost use Rattle.server_state.specs.Turn.{Answers, IsTold, TakesToldRun, TakesToldTurn};

use crate::http_request::request;
use crate::responding::response;
use http::request::Parts;
use mds_catalog::Catalogue;
use mds_desk::{Desk, DeskQuery, Gate, SharedReply};
use mds_request::{Code, OperatorCall, Request};
use mds_snapshot::{Note, OpeningName};
use mds_text::Moment;
use mds_verdict::Evaluator;
use server_responses::HttpResult;
use std::alloc::{AllocError, Global};

/// A desk learns a note, if there is one.
fn learn_note<K: OpeningName>(desk: &mut Desk<K>, note: Option<&Note<K>>)
    ensures { IsTold (state_of desk.old) (option_copied note.entry) (state_of desk.new) }
{
    if let Some(note) = note {
        desk.learn(note);
    }
}

/// Answers a query of what is published: the desk learns the note, where there is one, and takes a
/// look. It stays the desk of the same operator, with its vehicles.
///
/// # Errors
///
/// `NoSnapshot` where there is no snapshot, `NoMemory` where memory ran out.
pub(crate) fn query_desk<K: OpeningName, T: DeskQuery>(
    desk: &mut Desk<K>,
    note: Option<&Note<K>>,
    telling: &T,
) -> Result<T::Told, Code>
    ensures looks { Looks (state_of desk.old) (option_copied note.entry) (state_of desk.new) }
    ensures told { IfOk result (T.tells telling.now (state_of desk.new).known) }
    ensures refused { IfErr result (λ code. (code ≡ NoMemory) ⊎ (code ≡ NoSnapshot)) }
    ensures same { IsSameDesk (state_of desk.old) (state_of desk.new) }
{
    learn_note(desk, note);
    let told = desk.run_query(telling);
    told
}

/// Takes one turn of a desk, which stays the desk of the same operator: the desk learns the note,
/// where there is one, and answers the request. The evaluator judges vehicles.
pub(crate) fn take_turn<K: OpeningName, G: Gate, E: Evaluator<Catalogue>>(
    request: &Request<'_>,
    desk: &mut Desk<K>,
    note: Option<&Note<K>>,
    gate: &mut G,
    evaluator: &E,
) -> SharedReply
    requires { E.may_judge }
    ensures turn { TakesToldTurn (state_of desk.old) (option_copied note.entry) (request_of request.now) result (state_of desk.new) }
    ensures same { IsSameDesk (state_of desk.old) (state_of desk.new) }
{
    learn_note(desk, note);
    desk.answer(request, gate, evaluator)
}

/// Takes one turn of a desk for a call of its operator, that of the request: the desk learns the
/// note, where there is one, and carries the call out. It stays the desk of the same operator. The
/// evaluator judges vehicles.
pub(crate) fn take_call_turn<K: OpeningName, G: Gate, E: Evaluator<Catalogue>>(
    request: &Request<'_>,
    call: &OperatorCall,
    desk: &mut Desk<K>,
    note: Option<&Note<K>>,
    gate: &mut G,
    evaluator: &E,
) -> SharedReply
    requires judge { E.may_judge }
    requires resolved { call_of (state_of desk.old).configuration (request_of request.now) ≡ Ok (OperatorAt (state_of desk.old).place call.now) }
    ensures turn { TakesToldTurn (state_of desk.old) (option_copied note.entry) (request_of request.now) result (state_of desk.new) }
    ensures same { IsSameDesk (state_of desk.old) (state_of desk.new) }
{
    learn_note(desk, note);
    desk.carry_out(request, call, gate, evaluator)
}

/// Takes a turn of a desk for each request, in their order, after the desk has learnt the note,
/// where there is one. It stays the desk of the same operator. The evaluator judges vehicles.
///
/// # Errors
///
/// There was no memory for the list of replies: no request was answered.
pub(crate) fn take_run<K: OpeningName, G: Gate, E: Evaluator<Catalogue>>(
    requests: &[Request<'_>],
    desk: &mut Desk<K>,
    note: Option<&Note<K>>,
    gate: &mut G,
    evaluator: &E,
) -> Result<Vec<SharedReply>, AllocError>
    requires { E.may_judge }
    ensures run { IfOk result (λ replies. TakesToldRun (state_of desk.old) (option_copied note.entry) (map request_of requests.now) replies.items (state_of desk.new)) }
    ensures unasked { OnErr result (IsTold (state_of desk.old) (option_copied note.entry) (state_of desk.new)) }
    ensures same { IsSameDesk (state_of desk.old) (state_of desk.new) }
{
    learn_note(desk, note);
    desk.run(requests, gate, evaluator)
}

/// Answers the HTTP request of this head and body at a desk: the desk learns the note, where there
/// is one, answers the request, and the response is that of its reply. It waits for no lock. The
/// evaluator judges vehicles.
///
/// # Errors
///
/// There was no memory for the response. The request may have been carried out.
pub fn desk_turn<K: OpeningName, G: Gate, E: Evaluator<Catalogue>>(
    alloc: Global,
    parts: &Parts,
    body: &[u8],
    at: Moment,
    desk: &mut Desk<K>,
    note: Option<&Note<K>>,
    gate: &mut G,
    evaluator: &E,
) -> HttpResult
    requires { E.may_judge }
    ensures { Answers (state_of desk.old) (option_copied note.entry) (request_in parts.now body.now at) result (state_of desk.new) }
{
    let request = request(parts, body, at);
    let reply = take_turn(&request, desk, note, gate, evaluator);
    response(alloc, reply)
}
