//! The keys of the response cache, and which call has which key.
ghost use Rattle.std.specs.Prelude.{◌≡◌, false, IfSome};
ghost use Rattle.std.specs.List.{list_all};
ghost use Rattle.std.specs.Option.{option_map_or};
ghost use Rattle.mds_catalog.specs.Catalogue.{publications_of, lent_policy};
ghost use Rattle.mds_catalog.specs.Publication.{find_policy, is_geography_published};
ghost use Rattle.mds_machine.specs.Published.{is_shown};
ghost use Rattle.mds_request.specs.declared.call.OperatorCall.TheVariants as called;
ghost use Rattle.mds_desk.specs.CacheKey.{is_everyones, AnswersOperator, AnswersAuthor};

use mds_catalog::{Catalogue, Published, is_meant_for};
use mds_policy::Policy;
use mds_request::{AuthorCall, OperatorCall};
use mds_text::Id;
use std::alloc::Global;

/// The key of a cached body: a question about the documents that are published at one front, whose answer depends
/// neither on the client nor on the moment.
#[derive(Clone, Copy, PartialEq, Eq)]
pub enum CacheKey {
    /// All policies, as the author sees them.
    AllPolicies,
    /// The policies that are meant for everyone.
    EveryonesPolicies,
    /// The policies that are meant for this operator.
    PoliciesFor(Id),
    /// The policy with this identifier.
    Policy(Id),
    /// All geographies.
    Geographies,
    /// The geography with this identifier.
    Geography(Id),
}

/// Whether a policy is meant for everyone: it names no operator (MDS 2.0 Policy, `provider_ids`).
fn is_everyones(policy: &Published<'_, Policy>) -> bool
    ensures { result ≡ is_everyones (lent_policy policy.now) }
{
    policy.document.providers().is_empty()
}

/// Whether all of these policies are meant for everyone.
fn are_everyones(policies: &[Published<'_, Policy>]) -> bool
    ensures { result ≡ list_all (λ p. is_everyones (lent_policy p)) policies.now }
{
    policies.iter().all(|policy| is_everyones(policy))
}

/// The key for the policies that are visible to an operator: everyone's, where none is meant for it by name. `None`
/// where memory runs out.
fn policies_key(alloc: Global, catalogue: &Catalogue, operator: Id) -> Option<CacheKey>
    ensures { IfSome result (AnswersOperator (publications_of catalogue.now) operator called.Policies) }
{
    let Ok(policies) = catalogue.policies(alloc, Some(operator)) else {
        return None;
    };
    if are_everyones(&policies) {
        Some(CacheKey::EveryonesPolicies)
    } else {
        Some(CacheKey::PoliciesFor(operator))
    }
}

/// Whether the policy with this identifier is published and visible to an operator, or to the author where no operator
/// is given; the author sees any policy.
fn is_policy_visible(catalogue: &Catalogue, operator: Option<Id>, id: Id) -> bool
    ensures { result ≡ option_map_or (is_shown operator) (find_policy (publications_of catalogue.now) id) false }
{
    match (catalogue.policy(id), operator) {
        (Some(found), Some(operator)) => is_meant_for(found.document, operator),
        (Some(_), None) => true,
        (None, _) => false,
    }
}

/// Whether the geography with this identifier is published.
fn has_geography(catalogue: &Catalogue, id: Id) -> bool
    ensures { result ≡ is_geography_published (publications_of catalogue.now) id }
{
    catalogue.geography(id).is_some()
}

/// The key of the success to this call of an operator, by its identifier, over the published catalogue: of the
/// documents that are meant for it. `None` for any other call, for a document that isn't published or isn't meant for
/// the operator, and where memory runs out.
pub fn operator_key(
    alloc: Global,
    catalogue: &Catalogue,
    operator: Id,
    call: &OperatorCall,
) -> Option<CacheKey>
    ensures { IfSome result (AnswersOperator (publications_of catalogue.now) operator call.now) }
{
    match *call {
        OperatorCall::Policies => policies_key(alloc, catalogue, operator),
        OperatorCall::Policy(id) if is_policy_visible(catalogue, Some(operator), id) => {
            Some(CacheKey::Policy(id))
        }
        OperatorCall::Geographies => Some(CacheKey::Geographies),
        OperatorCall::Geography(id) if has_geography(catalogue, id) => {
            Some(CacheKey::Geography(id))
        }
        _ => None,
    }
}

/// The key of the success to this call of the author, over the published catalogue. `None` for any other call, and for
/// a document that isn't published.
pub fn author_key(catalogue: &Catalogue, call: &AuthorCall) -> Option<CacheKey>
    ensures { IfSome result (AnswersAuthor (publications_of catalogue.now) call.now) }
{
    match *call {
        AuthorCall::Policies => Some(CacheKey::AllPolicies),
        AuthorCall::Policy(id) if is_policy_visible(catalogue, None, id) => Some(CacheKey::Policy(
            id,
        )),
        AuthorCall::Geographies => Some(CacheKey::Geographies),
        AuthorCall::Geography(id) if has_geography(catalogue, id) => {
            Some(CacheKey::Geography(id))
        }
        _ => None,
    }
}
