//! Replies about published documents: the author sees all of them, an operator the policies that are meant for it.
//! Their texts were printed when they were published.
ghost use Rattle.std.specs.Prelude.{◌≡◌, IfOk};
ghost use Rattle.mds_catalog.specs.Catalogue.{publications_of, lent_policy};
ghost use Rattle.mds_machine.specs.Published.{is_shown, policies_reply, policy_answer, geographies_reply, geography_answer};
ghost use Rattle.mds_world.specs.Denied.{Meets};

use crate::call_fault::CallFault;
use crate::texts::{list_body, text_body};
use mds_catalog::{Catalogue, Published, is_meant_for};
use mds_policy::Policy;
use mds_request::{Code, Reply};
use mds_text::Id;
use std::alloc::{AllocError, Global};

/// The policies that are meant for an operator, or all, in order of publication (MDS 2.0 Policy).
pub(crate) fn policies(
    alloc: Global,
    catalogue: &Catalogue,
    operator: Option<Id>,
) -> Result<Reply, AllocError>
    ensures { IfOk result (λ r. r ≡ policies_reply (publications_of catalogue.now) operator) }
{
    let texts = catalogue.policy_texts(alloc, operator)?;
    let body = list_body(alloc, "policies", &texts, catalogue.revision())?;
    Ok(Reply::ok(body))
}

/// Whether a policy is visible to an operator; where none is given, which stands for the author, any policy is.
fn is_visible_to(operator: Option<Id>, policy: &Published<'_, Policy>) -> bool
    ensures { result ≡ is_shown operator (lent_policy policy.now) }
{
    match operator {
        Some(operator) => is_meant_for(policy.document, operator),
        None => true,
    }
}

/// One published policy, if it is visible to the operator, or to the author where none is given.
pub(crate) fn policy(
    alloc: Global,
    catalogue: &Catalogue,
    operator: Option<Id>,
    id: Id,
) -> Result<Reply, CallFault>
    ensures { Meets (λ r. r) result (policy_answer (publications_of catalogue.now) operator id) }
{
    let (Some(found), Some(text)) = (catalogue.policy(id), catalogue.policy_text(id)) else {
        return Err(CallFault::Refused(Code::NotFound));
    };
    if !is_visible_to(operator, &found) {
        return Err(CallFault::Refused(Code::NotFound));
    }
    let body = text_body(alloc, "policy", text, catalogue.revision())?;
    Ok(Reply::ok(body))
}

/// All published geographies, in order of publication (MDS 2.0 Geography).
pub(crate) fn geographies(alloc: Global, catalogue: &Catalogue) -> Result<Reply, AllocError>
    ensures { IfOk result (λ r. r ≡ geographies_reply (publications_of catalogue.now)) }
{
    let texts = catalogue.geography_texts(alloc)?;
    let body = list_body(alloc, "geographies", &texts, catalogue.revision())?;
    Ok(Reply::ok(body))
}

/// One published geography.
pub(crate) fn geography(alloc: Global, catalogue: &Catalogue, id: Id) -> Result<Reply, CallFault>
    ensures { Meets (λ r. r) result (geography_answer (publications_of catalogue.now) id) }
{
    let Some(text) = catalogue.geography_text(id) else {
        return Err(CallFault::Refused(Code::NotFound));
    };
    let body = text_body(alloc, "geography", text, catalogue.revision())?;
    Ok(Reply::ok(body))
}
