//! Which policies are in force (MDS 2.0 Policy, publication and `prev_policies`).
ghost use Rattle.std.specs.Prelude.{◌≡◌, ◌&&◌, nat_lt, true};
ghost use Rattle.std.specs.Option.{option_map_or};
ghost use Rattle.mds_policy.specs.Policy.{policy_document};
ghost use Rattle.mds_catalog.specs.Catalogue.{lent_policy};
ghost use Rattle.mds_catalog.specs.Publication.{is_meant_for, is_effective};

use crate::published::Published;
use mds_policy::Policy;
use mds_text::{Id, Moment};

/// Whether the policy is meant for the operator: it names the operator, or names none (MDS 2.0
/// Policy, `provider_ids`).
pub fn is_meant_for(policy: &Policy, operator: Id) -> bool
    ensures { result ≡ is_meant_for operator (policy_document policy.now) }
{
    policy.providers().is_empty() || policy.providers().contains(&operator)
}

/// Whether the policy is meant for an operator; true where no operator is given.
pub(crate) fn is_visible_to(policy: &Policy, operator: &Option<Id>) -> bool
    ensures { result ≡ option_map_or (λ o. is_meant_for o (policy_document policy.now)) operator.now true }
{
    match operator {
        Some(operator) => is_meant_for(policy, *operator),
        None => true,
    }
}

/// Whether a policy is published, has started and hasn't ended at a moment.
pub(crate) fn is_running(policy: &Published<'_, Policy>, at: Moment) -> bool
    ensures { result ≡ (is_effective at (lent_policy policy.now) && option_map_or (nat_lt at) (lent_policy policy.now).document.end true) }
{
    let document = policy.document;
    let ended = match document.end() {
        Some(end) => end <= at,
        None => false,
    };
    policy.moment <= at && document.start() <= at && !ended
}
