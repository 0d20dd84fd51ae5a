//! Compliance reports: on the policies that are in force for an operator, over its own vehicles.
ghost use Rattle.std.specs.Prelude.{◌≡◌, ◌^◌, ◌<◌, All, IfOk, IfSome, map};
ghost use Rattle.std.specs.FinMap as finite;
ghost use Rattle.std.specs.List.{list_all};
ghost use Rattle.mds_text.specs.View.{view};
ghost use Rattle.mds_policy.specs.Policy.{policy_document, rule_document};
ghost use Rattle.mds_match.specs.Row.{row_of};
ghost use Rattle.mds_verdict.specs.Verdict.{Ascends, verdict_document, verdicts, reported};
ghost use Rattle.mds_fleet.specs.Fleet.{Fits};
ghost use Rattle.mds_catalog.specs.Publication.{is_geography_published, published_area};
ghost use Rattle.mds_catalog.specs.Catalogue.{publications_of, lent_policy};
ghost use Rattle.mds_catalog.specs.Laws.{AreLawful};
ghost use Rattle.mds_request.specs.Configuration.{operator as operator_of};
ghost use Rattle.mds_machine.specs.Bodies.{list_json};
ghost use Rattle.mds_machine.specs.Operator.{compliance_reply, policy_compliance_answer};
ghost use Rattle.mds_world.specs.Denied.{Meets};
ghost use Rattle.mds_world.specs.Lasting.{IsOfItsId, is_placed, lasting_in};

use crate::bodies::compliance_reply;
use crate::call_fault::CallFault;
use mds_catalog::{Catalogue, Published};
use mds_fleet::Book;
use mds_match::{Local, LocalMoment, Vehicle, Zone};
use mds_policy::{Policy, Rule};
use mds_request::{Code, Operator, Reply, Request};
use mds_text::{Id, Moment, Tree, list_tree};
use mds_verdict::{Evaluator, RuleVerdict, report_tree};
use std::alloc::{AllocError, Global};

/// A request of an operator, with the time zone for the local time of rules.
#[derive(Clone, Copy)]
pub(crate) struct OperatorRequest<'a> {
    pub(crate) zone: &'a Zone,
    pub(crate) operator: &'a Operator,
    pub(crate) request: &'a Request<'a>,
}

/// The vehicles of a book, ascending by device id.
#[tactic(auto, using(crate::proofs::Ascending::ascends))]
fn fleet(book: &Book) -> Result<Vec<&Vehicle>, AllocError>
    ensures whole { IfOk result (λ v. map (λ r. row_of r.now) v.items ≡ finite.values book.now.rows) }
    ensures ascends { IfOk result (λ v. Ascends (map (λ r. row_of r.now) v.items)) }
{
    book.rows()
}

/// Whether each of these geographies is published.
fn are_published(catalogue: &Catalogue, geographies: &[Id]) -> bool
    ensures { result ≡ list_all (is_geography_published (publications_of catalogue.now)) geographies.now }
{
    geographies
        .iter()
        .all(|id| catalogue.geography(*id).is_some())
}

/// Whether all geographies of these rules are published.
fn are_placed(catalogue: &Catalogue, rules: &[Rule]) -> bool
    ensures { result ≡ list_all (λ rule. list_all (is_geography_published (publications_of catalogue.now)) (rule_document rule).geographies) rules.now }
{
    rules
        .iter()
        .all(|rule| are_published(catalogue, &rule.geographies))
}

/// Whether all geographies of a policy's rules are published.
fn is_placed(catalogue: &Catalogue, policy: &Policy) -> bool
    ensures { result ≡ is_placed (publications_of catalogue.now) (policy_document policy.now) }
{
    are_placed(catalogue, policy.rules())
}

/// The verdicts on a published policy's rules by the book's bitmap index. `None` where the book has no vehicles, where
/// a geography of the policy isn't published, or where the index has no answer.
fn index_verdicts(
    book: &mut Book,
    catalogue: &Catalogue,
    policy: &Policy,
    local: Local,
    at: Moment,
) -> Option<Vec<RuleVerdict>>
    requires published { IsOfItsId (publications_of catalogue.now) (policy_document policy.now) }
    requires fits { Fits (lasting_in (publications_of catalogue.now)) book.old }
    ensures exact { IfSome result (λ found. map verdict_document found.items ≡ verdicts (policy_document policy.now)
        (published_area (publications_of catalogue.now)) (finite.values book.old.rows) local at) }
    ensures within { IfSome result (λ found. All (λ v. v.measure < 2 ^ 63) found.items) }
    ensures rows { book.new.rows ≡ book.old.rows }
    ensures limit { book.new.limit ≡ book.old.limit }
    ensures fits { Fits (lasting_in (publications_of catalogue.now)) book.new }
{
    if book.len() == 0 || !is_placed(catalogue, policy) {
        return None;
    }
    book.verdicts(policy, catalogue, local, at)
}

/// The verdicts on a published policy's rules: by the book's bitmap index, or by the evaluator where the index has no
/// answer.
fn policy_verdicts<E: Evaluator<Catalogue>>(
    alloc: Global,
    evaluator: &E,
    book: &mut Book,
    catalogue: &Catalogue,
    policy: &Policy,
    at: &LocalMoment,
) -> Result<Vec<RuleVerdict>, AllocError>
    requires ready { E.may_judge }
    requires published { IsOfItsId (publications_of catalogue.now) (policy_document policy.now) }
    requires fits { Fits (lasting_in (publications_of catalogue.now)) book.old }
    ensures exact { IfOk result (λ found. map verdict_document found.items ≡ verdicts (policy_document policy.now)
        (published_area (publications_of catalogue.now)) (finite.values book.old.rows) at.now.local at.now.moment) }
    ensures within { IfOk result (λ found. All (λ v. v.measure < 2 ^ 63) found.items) }
    ensures rows { book.new.rows ≡ book.old.rows }
    ensures limit { book.new.limit ≡ book.old.limit }
    ensures fits { Fits (lasting_in (publications_of catalogue.now)) book.new }
{
    let (moment, local) = (at.moment, at.local);
    if let Some(found) = index_verdicts(book, catalogue, policy, local, moment) {
        return Ok(found);
    }
    let vehicles = fleet(book)?;
    evaluator.verdicts(alloc, policy, catalogue, &vehicles, local, moment)
}

/// The report on a published policy.
fn policy_report<E: Evaluator<Catalogue>>(
    alloc: Global,
    evaluator: &E,
    book: &mut Book,
    catalogue: &Catalogue,
    policy: &Policy,
    at: &LocalMoment,
) -> Result<Tree, AllocError>
    requires ready { E.may_judge }
    requires published { IsOfItsId (publications_of catalogue.now) (policy_document policy.now) }
    requires fits { Fits (lasting_in (publications_of catalogue.now)) book.old }
    ensures report { IfOk result (λ t. view t ≡ reported (policy_document policy.now)
        (verdicts (policy_document policy.now) (published_area (publications_of catalogue.now)) (finite.values book.old.rows) at.now.local at.now.moment)) }
    ensures rows { book.new.rows ≡ book.old.rows }
    ensures limit { book.new.limit ≡ book.old.limit }
    ensures fits { Fits (lasting_in (publications_of catalogue.now)) book.new }
{
    let verdicts = policy_verdicts(alloc, evaluator, book, catalogue, policy, at)?;
    report_tree(alloc, policy, &verdicts)
}

/// The reports on these published policies.
fn policy_reports<E: Evaluator<Catalogue>>(
    alloc: Global,
    evaluator: &E,
    book: &mut Book,
    catalogue: &Catalogue,
    policies: &[Published<'_, Policy>],
    at: &LocalMoment,
) -> Result<Tree, AllocError>
    requires ready { E.may_judge }
    requires published { All (λ p. IsOfItsId (publications_of catalogue.now) (lent_policy p).document) policies.now }
    requires fits { Fits (lasting_in (publications_of catalogue.now)) book.old }
    ensures reports { IfOk result (λ t. view t ≡ list_json (map (λ p. reported p.document
        (verdicts p.document (published_area (publications_of catalogue.now)) (finite.values book.old.rows) at.now.local at.now.moment)) (map lent_policy policies.now))) }
    ensures rows { book.new.rows ≡ book.old.rows }
    ensures limit { book.new.limit ≡ book.old.limit }
    ensures fits { Fits (lasting_in (publications_of catalogue.now)) book.new }
{
    let mut reports = Vec::with_capacity(alloc, policies.len())?;
    for policy in policies {
        let report = policy_report(alloc, evaluator, book, catalogue, policy.document, at)?;
        reports.push(report)?;
    }
    Ok(list_tree(reports))
}

/// The reports on all policies that are in force for the operator, in order of publication.
pub(crate) fn compliance<E: Evaluator<Catalogue>>(
    alloc: Global,
    evaluator: &E,
    book: &mut Book,
    catalogue: &Catalogue,
    asked: &OperatorRequest<'_>,
) -> Result<Reply, AllocError>
    requires ready { E.may_judge }
    requires lawful { AreLawful (publications_of catalogue.now) }
    requires fits { Fits (lasting_in (publications_of catalogue.now)) book.old }
    ensures reply { IfOk result (λ r. r ≡ compliance_reply asked.now.zone.now (operator_of asked.now.operator.now) (publications_of catalogue.now) book.old.rows asked.now.request.now.at) }
    ensures rows { book.new.rows ≡ book.old.rows }
    ensures limit { book.new.limit ≡ book.old.limit }
    ensures fits { Fits (lasting_in (publications_of catalogue.now)) book.new }
{
    let moment = asked.request.at;
    let local = asked.zone.local(moment)?;
    let policies = catalogue.in_force(alloc, asked.operator.id, moment)?;
    let at = LocalMoment { moment, local };
    let reports = policy_reports(alloc, evaluator, book, catalogue, &policies, &at)?;
    let reply = compliance_reply(alloc, moment, "policies", reports, catalogue.revision())?;
    Ok(reply)
}

/// The report on one policy, if it is in force for the operator.
pub(crate) fn policy_compliance<E: Evaluator<Catalogue>>(
    alloc: Global,
    evaluator: &E,
    book: &mut Book,
    catalogue: &Catalogue,
    asked: &OperatorRequest<'_>,
    id: Id,
) -> Result<Reply, CallFault>
    requires ready { E.may_judge }
    requires fits { Fits (lasting_in (publications_of catalogue.now)) book.old }
    ensures answer { Meets (λ r. r) result
        (policy_compliance_answer asked.now.zone.now (operator_of asked.now.operator.now) (publications_of catalogue.now) book.old.rows asked.now.request.now.at id) }
    ensures rows { book.new.rows ≡ book.old.rows }
    ensures limit { book.new.limit ≡ book.old.limit }
    ensures fits { Fits (lasting_in (publications_of catalogue.now)) book.new }
{
    let Some(found) = catalogue.policy(id) else {
        return Err(CallFault::Refused(Code::NotFound));
    };
    let moment = asked.request.at;
    if !catalogue.is_in_force(asked.operator.id, moment, &found) {
        return Err(CallFault::Refused(Code::NotFound));
    }
    let local = asked.zone.local(moment)?;
    let at = LocalMoment { moment, local };
    let report = policy_report(alloc, evaluator, book, catalogue, found.document, &at)?;
    let reply = compliance_reply(alloc, moment, "policy", report, catalogue.revision())?;
    Ok(reply)
}
