//! Lists of the published documents and of their texts, borrowed, in the order of publication.
ghost use Rattle.std.specs.Prelude.{◌≡◌, [], ◌∷◌, ◌++◌, if◌then◌else◌, map, IfOk, OnOk};
ghost use Rattle.mds_catalog.specs.Publication.{publications_in, published_policies, published_geographies, policies_for};
ghost use Rattle.mds_catalog.specs.Catalogue.{lent_policy, lent_geography, served_policy, served_geography};

use crate::batch::Batch;
use crate::in_force::is_visible_to;
use crate::published::Published;
use mds_geography::Geography;
use mds_policy::Policy;
use mds_text::Id;
use std::alloc::{AllocError, Global};
use std::sync::Arc;

/// The policies of all batches.
pub(crate) fn policy_refs(
    alloc: Global,
    batches: &[Arc<Batch>],
) -> Result<Vec<Published<'_, Policy>>, AllocError>
    ensures { IfOk result (λ v. map lent_policy v.items ≡ published_policies (publications_in batches.now)) }
{
    let mut lent = Vec::new(alloc);
    for share in batches {
        let batch: &Batch = share;
        for policy in &batch.policies {
            let document: &Policy = policy;
            let moment = batch.moment;
            match lent.push(Published { document, moment }) {
                Ok(()) => {}
                Err(_) => return Err(AllocError),
            }
        }
    }
    Ok(lent)
}

/// The geographies of all batches.
pub(crate) fn geography_refs(
    alloc: Global,
    batches: &[Arc<Batch>],
) -> Result<Vec<Published<'_, Geography>>, AllocError>
    ensures { IfOk result (λ v. map lent_geography v.items ≡ published_geographies (publications_in batches.now)) }
{
    let mut lent = Vec::new(alloc);
    for share in batches {
        let batch: &Batch = share;
        for geography in &batch.geographies {
            let document: &Geography = geography;
            let moment = batch.moment;
            match lent.push(Published { document, moment }) {
                Ok(()) => {}
                Err(_) => return Err(AllocError),
            }
        }
    }
    Ok(lent)
}

/// Appends a text to the list, where it is visible.
fn push_visible<'a>(lent: &mut Vec<&'a [u8]>, text: &'a [u8], shown: bool) -> Result<(), AllocError>
    ensures { OnOk result (map (λ t. t.now) lent.new.items
        ≡ map (λ t. t.now) lent.old.items ++ (if shown then text.now ∷ [] else [])) }
{
    if !shown {
        return Ok(());
    }
    match lent.push(text) {
        Ok(()) => Ok(()),
        Err(_) => Err(AllocError),
    }
}

/// The texts of the policies of the batches: all, or those that are meant for an operator. There are no more than
/// `most`.
pub(crate) fn policy_text_refs<'a>(
    alloc: Global,
    most: usize,
    batches: &'a [Arc<Batch>],
    operator: &Option<Id>,
) -> Result<Vec<&'a [u8]>, AllocError>
    ensures { IfOk result (λ v. map (λ t. t.now) v.items
        ≡ map served_policy (policies_for (publications_in batches.now) operator.now)) }
{
    let mut lent = Vec::with_capacity(alloc, most)?;
    for share in batches {
        let batch: &Batch = share;
        for (place, policy) in batch.policies.iter().enumerate() {
            push_visible(
                &mut lent,
                &batch.policy_texts[place],
                is_visible_to(policy, operator),
            )?;
        }
    }
    Ok(lent)
}

/// The texts of the geographies of all batches. There are no more than `most`.
pub(crate) fn geography_text_refs(
    alloc: Global,
    most: usize,
    batches: &[Arc<Batch>],
) -> Result<Vec<&[u8]>, AllocError>
    ensures { IfOk result (λ v. map (λ t. t.now) v.items
        ≡ map served_geography (published_geographies (publications_in batches.now))) }
{
    let mut lent = Vec::with_capacity(alloc, most)?;
    for share in batches {
        let batch: &Batch = share;
        for text in &batch.geography_texts {
            let text: &[u8] = text;
            match lent.push(text) {
                Ok(()) => {}
                Err(_) => return Err(AllocError),
            }
        }
    }
    Ok(lent)
}
