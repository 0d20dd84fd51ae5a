//! The calls of an operator.
ghost use Rattle.std.specs.Prelude.{◌≡◌, ◌<◌, ◌≤◌, length, IfOk, OnErr, IfSome, Some, option_map, slice_get, IsTrue};
ghost use Rattle.std.specs.FinMap as finite;
ghost use Rattle.mds_text.specs.Printed.{printed};
ghost use Rattle.mds_fleet.specs.Fleet.{Fits};
ghost use Rattle.mds_bitmaps.specs.Index.{Published};
ghost use Rattle.mds_catalog.specs.Catalogue.{publications_of};
ghost use Rattle.mds_catalog.specs.Laws.{AreLawful};
ghost use Rattle.mds_request.specs.Configuration.{configuration, operator as operator_of, Operator as Configured};
ghost use Rattle.mds_request.specs.Request.{request_of};
ghost use Rattle.mds_request.specs.Reply.{is_line};
ghost use Rattle.mds_machine.specs.Answer.{told, Gives};
ghost use Rattle.mds_machine.specs.Bodies.{result_json, vehicles_json};
ghost use Rattle.mds_machine.specs.Operator.{taken_word, report, removal, operator_does};
ghost use Rattle.mds_world.specs.Denied.{Meets};
ghost use Rattle.mds_world.specs.Lasting.{lasting_in};
ghost use Rattle.mds_world.specs.declared.bodies.TheConstants.{SHORT_BODY};

use crate::bodies::{body_buffer, removed_reply, success_in, vehicles_reply};
use crate::call_fault::CallFault;
use crate::compliance::{OperatorRequest, compliance, policy_compliance};
use crate::published::{geographies, geography, policies, policy};
use mds_catalog::Catalogue;
use mds_catalog::laws::published_lawfully;
use mds_fleet::{Book, Taken};
use mds_request::{Code, Config, OperatorCall, Reply, Request};
use mds_text::Id;
use mds_verdict::Evaluator;
use std::alloc::{AllocError, Global};

/// The body of the reply to a report.
fn report_body(taken: Taken) -> &'static [u8]
    ensures body { result.now ≡ printed (result_json (taken_word taken)) }
    ensures short { length result.now ≤ SHORT_BODY }
    ensures line { IsTrue (is_line result.now) }
{
    match taken {
        Taken::New => b"{\"result\":\"new\"}",
        Taken::Changed => b"{\"result\":\"changed\"}",
        Taken::Same => b"{\"result\":\"same\"}",
    }
}

/// Takes a report. Memory for the reply is allocated before the change.
fn report(alloc: Global, book: &mut Book, request: &Request<'_>) -> Result<Reply, CallFault>
    ensures answer { (o : Configured) → o.limit ≡ book.old.limit
        → Meets (λ r. (r, book.new.rows)) result (report o book.old.rows (request_of request.now)) }
    ensures refused { OnErr result (book.new.rows ≡ book.old.rows) }
    ensures limit { book.new.limit ≡ book.old.limit }
    ensures fits { (published : Published) → Fits published book.old → Fits published book.new }
{
    let report = book.read_report(request.body)?;
    let body = body_buffer(alloc)?;
    let taken = book.report(report, request.at)?;
    Ok(success_in(body, report_body(taken)))
}

/// All vehicles, ascending by device id.
fn vehicles(alloc: Global, book: &Book) -> Result<Reply, AllocError>
    ensures { IfOk result (λ r. r ≡ told (vehicles_json (finite.values book.now.rows))) }
{
    vehicles_reply(alloc, &book.rows()?)
}

/// Removes a vehicle. The reply is made before the change.
fn remove(alloc: Global, book: &mut Book, device: Id) -> Result<Reply, CallFault>
    ensures answer { Meets (λ r. (r, book.new.rows)) result (removal book.old.rows device) }
    ensures refused { OnErr result (book.new.rows ≡ book.old.rows) }
    ensures limit { book.new.limit ≡ book.old.limit }
    ensures fits { (published : Published) → Fits published book.old → Fits published book.new }
{
    let reply = removed_reply(alloc, device)?;
    match book.remove(device) {
        Ok(_) => Ok(reply),
        Err(_) => Err(CallFault::Refused(Code::NotFound)),
    }
}

/// Carries out an operator's call over its book and the catalogue.
fn carry_out<E: Evaluator<Catalogue>>(
    alloc: Global,
    evaluator: &E,
    book: &mut Book,
    catalogue: &Catalogue,
    asked: &OperatorRequest<'_>,
    call: &OperatorCall,
) -> Result<Reply, CallFault>
    requires ready { E.may_judge }
    requires limit { book.old.limit ≡ (operator_of asked.now.operator.now).limit }
    requires lawful { AreLawful (publications_of catalogue.now) }
    requires fits { Fits (lasting_in (publications_of catalogue.now)) book.old }
    ensures answer { Meets (λ r. (r, book.new.rows)) result (operator_does asked.now.zone.now (operator_of asked.now.operator.now)
        (publications_of catalogue.now) book.old.rows call.now (request_of asked.now.request.now)) }
    ensures refused { OnErr result (book.new.rows ≡ book.old.rows) }
    ensures limit { book.new.limit ≡ book.old.limit }
    ensures fits { Fits (lasting_in (publications_of catalogue.now)) book.new }
{
    let operator = Some(asked.operator.id);
    match *call {
        OperatorCall::Policies => Ok(policies(alloc, catalogue, operator)?),
        OperatorCall::Policy(id) => policy(alloc, catalogue, operator, id),
        OperatorCall::Geographies => Ok(geographies(alloc, catalogue)?),
        OperatorCall::Geography(id) => geography(alloc, catalogue, id),
        OperatorCall::Report => report(alloc, book, asked.request),
        OperatorCall::Vehicles => Ok(vehicles(alloc, book)?),
        OperatorCall::RemoveVehicle(device) => remove(alloc, book, device),
        OperatorCall::Compliance => Ok(compliance(alloc, evaluator, book, catalogue, asked)?),
        OperatorCall::PolicyCompliance(id) => {
            policy_compliance(alloc, evaluator, book, catalogue, asked, id)
        }
    }
}

/// Whose call is answered, and by what: the operator at a place of a configuration, and an evaluator.
#[derive(Drop)]
pub struct OperatorContext<'a, E> {
    /// For replies.
    pub alloc: Global,
    /// The configuration.
    pub config: &'a Config,
    /// The operator's place in it.
    pub place: usize,
    /// What judges rules.
    pub evaluator: &'a E,
}

/// Answers a call of an operator over its own book, whose bitmap index is right for the catalogue, and the published
/// catalogue alone. The index spares evaluations; it is right for the catalogue afterwards too, and so for any catalogue
/// that continues this one.
///
/// The reply is a success, the first refusal that applies, or 503 `no_memory`; a call without success doesn't change
/// the book's rows.
pub fn indexed_operator_step<E: Evaluator<Catalogue>>(
    context: &OperatorContext<'_, E>,
    book: &mut Book,
    catalogue: &Catalogue,
    call: &OperatorCall,
    request: &Request<'_>,
) -> Reply
    requires ready { E.may_judge }
    requires place { context.now.place < length (configuration context.now.config.now).operators }
    requires limit { Some book.old.limit
        ≡ option_map (λ o. o.limit) (slice_get (configuration context.now.config.now).operators context.now.place) }
    requires fits { Fits (lasting_in (publications_of catalogue.now)) book.old }
    ensures answer { IfSome (slice_get (configuration context.now.config.now).operators context.now.place) (λ o.
        Gives (Unit {0}) book.old.rows (operator_does (configuration context.now.config.now).zone o (publications_of catalogue.now)
        book.old.rows call.now (request_of request.now)) result book.new.rows) }
    ensures limit { book.new.limit ≡ book.old.limit }
    ensures fits { Fits (lasting_in (publications_of catalogue.now)) book.new }
{
    published_lawfully(catalogue);
    let asked = OperatorRequest {
        zone: context.config.zone(),
        operator: &context.config.operators()[context.place],
        request,
    };
    match carry_out(
        context.alloc,
        context.evaluator,
        book,
        catalogue,
        &asked,
        call,
    ) {
        Ok(reply) => reply,
        Err(denied) => Reply::from(denied),
    }
}

/// Answers a call of the operator at this place of the configuration, over its own book and the published catalogue
/// alone: any book and any catalogue. What the book has kept between questions for other publications is dropped.
///
/// The reply is a success, the first refusal that applies, or 503 `no_memory`; a call without success doesn't change
/// the book's rows.
pub fn operator_step<E: Evaluator<Catalogue>>(
    alloc: Global,
    book: &mut Book,
    catalogue: &Catalogue,
    config: &Config,
    operator: usize,
    call: &OperatorCall,
    request: &Request<'_>,
    evaluator: &E,
) -> Reply
    requires ready { E.may_judge }
    requires place { operator < length (configuration config.now).operators }
    requires limit { Some book.old.limit ≡ option_map (λ o. o.limit) (slice_get (configuration config.now).operators operator) }
    ensures answer { IfSome (slice_get (configuration config.now).operators operator) (λ o.
        Gives (Unit {0}) book.old.rows (operator_does (configuration config.now).zone o (publications_of catalogue.now)
        book.old.rows call.now (request_of request.now)) result book.new.rows) }
    ensures limit { book.new.limit ≡ book.old.limit }
{
    let context = OperatorContext {
        alloc,
        config,
        place: operator,
        evaluator,
    };
    book.forget();
    indexed_operator_step(&context, book, catalogue, call, request)
}
