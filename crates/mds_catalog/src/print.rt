//! Prints documents as they are served once they are published.
ghost use Rattle.std.specs.Prelude.{◌≡◌, map, IfOk};
ghost use Rattle.mds_policy.specs.Policy.{policy_document};
ghost use Rattle.mds_geography.specs.Geography.{geography_document};
ghost use Rattle.mds_catalog.specs.Texts.{policy_text, geography_text};

use mds_geography::Geography;
use mds_policy::Policy;
use mds_text::{Moment, print_tree};
use std::alloc::{AllocError, Global};
use std::sync::Arc;

/// The text of each of these policies, published at this moment, without spare capacity.
#[tactic(auto, unfolding(crate::specs::Texts::policy_text))]
pub(crate) fn print_policies(
    alloc: Global,
    moment: Moment,
    policies: &[Arc<Policy>],
) -> Result<Vec<Vec<u8>>, AllocError>
    ensures { IfOk result (λ v. map (λ t. t.items) v.items
        ≡ map (policy_text moment) (map (λ share. policy_document share.value) policies.now)) }
{
    let mut texts = Vec::with_capacity(alloc, policies.len())?;
    for policy in policies {
        let served = policy.served(alloc, Some(moment))?;
        let mut text = print_tree(alloc, &served)?;
        text.shrink_to_fit();
        texts.push(text)?;
    }
    Ok(texts)
}

/// The text of each of these geographies, published at this moment, without spare capacity.
#[tactic(auto, unfolding(crate::specs::Texts::geography_text))]
pub(crate) fn print_geographies(
    alloc: Global,
    moment: Moment,
    geographies: &[Arc<Geography>],
) -> Result<Vec<Vec<u8>>, AllocError>
    ensures { IfOk result (λ v. map (λ t. t.items) v.items
        ≡ map (geography_text moment) (map (λ share. geography_document share.value) geographies.now)) }
{
    let mut texts = Vec::with_capacity(alloc, geographies.len())?;
    for geography in geographies {
        let served = geography.served(alloc, Some(moment))?;
        let mut text = print_tree(alloc, &served)?;
        text.shrink_to_fit();
        texts.push(text)?;
    }
    Ok(texts)
}
