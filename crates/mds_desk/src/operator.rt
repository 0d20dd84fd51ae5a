//! Answers an operator's call over its own book and one snapshot of what is published.
ghost use Rattle.std.specs.Prelude.{◌≡◌, ◌<◌, true, IfSome, Some, option_map, slice_get};
ghost use Rattle.mds_catalog.specs.Catalogue.{publications_of};
ghost use Rattle.mds_desk.specs.Sharing.{grows_with_fleet};
ghost use Rattle.mds_fleet.specs.Fleet.{Fits};
ghost use Rattle.mds_request.specs.Configuration.{configuration};
ghost use Rattle.mds_request.specs.Request.{request_of};
ghost use Rattle.mds_machine.specs.Answer.{Gives};
ghost use Rattle.mds_machine.specs.Operator.{operator_does};
ghost use Rattle.mds_world.specs.Lasting.{lasting_in};

use crate::answer::SharedReply;
use crate::cache_key::operator_key;
use crate::context::DeskContext;
use mds_catalog::Catalogue;
use mds_fleet::Book;
use mds_request::{OperatorCall, Reply, Request};
use mds_snapshot::{Look, OpeningName, Pane};
use mds_verdict::Evaluator;
use mds_world::{OperatorContext, indexed_operator_step};
use std::alloc::Global;

/// Carries out a call of the desk's operator over a catalogue.
fn step<K: OpeningName, E: Evaluator<Catalogue>>(
    context: &DeskContext<K>,
    book: &mut Book,
    catalogue: &Catalogue,
    call: &OperatorCall,
    request: &Request<'_>,
    evaluator: &E,
) -> Reply
    requires ready { E.may_judge }
    requires limit { Some book.old.limit
        ≡ option_map (λ o. o.limit) (slice_get (configuration context.now.config.value).operators context.now.place) }
    requires fits { Fits (lasting_in (publications_of catalogue.now)) book.old }
    ensures answer { IfSome (slice_get (configuration context.now.config.value).operators context.now.place) (λ o.
        Gives (Unit {0}) book.old.rows (operator_does (configuration context.now.config.value).zone o (publications_of catalogue.now)
        book.old.rows call.now (request_of request.now)) result book.new.rows) }
    ensures limit { book.new.limit ≡ book.old.limit }
    ensures fits { Fits (lasting_in (publications_of catalogue.now)) book.new }
{
    let stepped = OperatorContext {
        alloc: context.alloc,
        config: &*context.config,
        place: context.place,
        evaluator,
    };
    indexed_operator_step(&stepped, book, catalogue, call, request)
}

/// Answers a call of the desk's operator while the snapshot is held: with the cached body, or with a reply of its own, which is cached from then
/// on where it is about what is published.
fn answer_call<K: OpeningName, E: Evaluator<Catalogue>>(
    context: &DeskContext<K>,
    book: &mut Book,
    look: &Look<K>,
    call: &OperatorCall,
    request: &Request<'_>,
    evaluator: &E,
) -> SharedReply
    requires ready { E.may_judge }
    requires limit { Some book.old.limit
        ≡ option_map (λ o. o.limit) (slice_get (configuration context.now.config.value).operators context.now.place) }
    requires fits { Fits (lasting_in look.now) book.old }
    ensures answer { IfSome (slice_get (configuration context.now.config.value).operators context.now.place) (λ o.
        Gives (Unit {0}) book.old.rows (operator_does (configuration context.now.config.value).zone o look.now book.old.rows call.now (request_of request.now))
        result book.new.rows) }
    ensures limit { book.new.limit ≡ book.old.limit }
    ensures fits { Fits (lasting_in look.now) book.new }
{
    let catalogue = look.catalogue();
    let asked = operator_key(context.alloc, catalogue, context.operator(), call);
    let note = look.note();
    if let Some(body) = context.cache.find(&asked, &note) {
        return SharedReply::from_cached(body);
    }
    let reply = step(context, book, catalogue, call, request, evaluator);
    context.cache.answer(context.alloc, asked, &note, reply)
}

/// Whether the answer to a call takes the longer the more vehicles the operator has.
fn grows_with_fleet(call: &OperatorCall) -> bool
    ensures { result ≡ grows_with_fleet call.now }
{
    match call {
        OperatorCall::Vehicles => true,
        OperatorCall::Compliance => true,
        OperatorCall::PolicyCompliance(_) => true,
        OperatorCall::Policies | OperatorCall::Policy(_) => false,
        OperatorCall::Geographies | OperatorCall::Geography(_) => false,
        OperatorCall::Report | OperatorCall::RemoveVehicle(_) => false,
    }
}

/// A share of the published documents, for a call whose answer takes the longer the more vehicles there are. `None` for
/// any other call, where there are no vehicles, and where memory runs out.
fn share_for<K: OpeningName>(
    alloc: Global,
    look: &Look<K>,
    call: &OperatorCall,
    vehicles: usize,
) -> Option<Catalogue>
    ensures shared { IfSome result (λ c. publications_of c ≡ look.now) }
    ensures long { IfSome result (λ _. (grows_with_fleet call.now ≡ true) × (0 < vehicles)) }
{
    if vehicles == 0 || !grows_with_fleet(call) {
        return None;
    }
    look.catalogue().share(alloc).ok()
}

/// Answers a call of the desk's operator at the front of a snapshot, and leaves the snapshot. Where the answer takes
/// the longer the more vehicles there are, the snapshot is left before, so that no publication waits for the answer.
pub(crate) fn answer_at<K: OpeningName, E: Evaluator<Catalogue>>(
    context: &DeskContext<K>,
    book: &mut Book,
    look: Look<K>,
    call: &OperatorCall,
    request: &Request<'_>,
    evaluator: &E,
) -> (Pane<K>, SharedReply)
    requires ready { E.may_judge }
    requires limit { Some book.old.limit
        ≡ option_map (λ o. o.limit) (slice_get (configuration context.now.config.value).operators context.now.place) }
    requires fits { Fits (lasting_in look) book.old }
    ensures left { result.0 ≡ look }
    ensures answer { IfSome (slice_get (configuration context.now.config.value).operators context.now.place) (λ o.
        Gives (Unit {0}) book.old.rows (operator_does (configuration context.now.config.value).zone o look book.old.rows call.now
        (request_of request.now)) result.1 book.new.rows) }
    ensures limit { book.new.limit ≡ book.old.limit }
    ensures fits { Fits (lasting_in look) book.new }
{
    if let Some(catalogue) = share_for(context.alloc, &look, call, book.len()) {
        let pane = look.leave();
        let reply = step(context, book, &catalogue, call, request, evaluator);
        return (pane, SharedReply::from(reply));
    }
    let answer = answer_call(context, book, &look, call, request, evaluator);
    (look.leave(), answer)
}
