//! Whether identifiers are in a list, and whether they are distinct.
ghost use Rattle.std.specs.Prelude.{◌≡◌, map};
ghost use Rattle.mds_policy.specs.Policy.{policy_document};
ghost use Rattle.mds_geography.specs.Geography.{geography_document};
ghost use Rattle.mds_catalog.specs.Publication.{is_among, are_distinct};

use mds_geography::Geography;
use mds_policy::Policy;
use mds_text::Id;
use std::sync::Arc;

/// Whether a policy with this identifier is in the list.
pub(crate) fn contains_policy(policies: &[Arc<Policy>], id: Id) -> bool
    ensures { result
        ≡ is_among (map (λ d. d.id) (map (λ share. policy_document share.value) policies.now)) id }
{
    for policy in policies {
        if policy.id() == id {
            return true;
        }
    }
    false
}

/// Whether a geography with this identifier is in the list.
pub(crate) fn contains_geography(geographies: &[Arc<Geography>], id: Id) -> bool
    ensures { result
        ≡ is_among (map (λ d. d.id) (map (λ share. geography_document share.value) geographies.now)) id }
{
    for geography in geographies {
        if geography.id() == id {
            return true;
        }
    }
    false
}

/// Whether the identifiers are distinct.
pub fn are_distinct(ids: &[Id]) -> bool
    ensures { result ≡ are_distinct ids.now }
{
    for (i, id) in ids.iter().enumerate() {
        if ids[i + 1..].contains(id) {
            return false;
        }
    }
    true
}
