//! From drafts to the batch for a publication.
ghost use Rattle.std.specs.Prelude.{◌≡◌, not, find, map, IfOk, IsTrue};
ghost use Rattle.std.specs.List.{filter_map};
ghost use Rattle.std.specs.FinMap.{get};
ghost use Rattle.mds_catalog.specs.Publication.{publication_of};
ghost use Rattle.mds_catalog.specs.Catalogue.{publications_of};
ghost use Rattle.mds_drafts.specs.Publishing.{first_refusal};

use crate::drafts::Drafts;
use crate::list::PublishList;
use mds_catalog::{Batch, Catalogue};
use mds_geography::Geography;
use mds_policy::Policy;
use mds_text::{DraftKind, Id, Moment};
use std::alloc::{AllocError, Global};
use std::sync::Arc;

/// Why drafts make no batch.
#[derive(Clone, Copy, PartialEq, Eq)]
pub enum PublishFault {
    /// The list names no identifier.
    Empty,
    /// This identifier has no draft.
    NoDraft(Id),
    /// This identifier is already published.
    Published(Id),
    /// This geography, which a rule names, is neither published nor in the batch.
    NoGeography(Id),
    /// This policy, which a policy replaces, isn't published.
    NoPredecessor(Id),
    /// This policy, which is to be withdrawn, isn't published.
    NotPublished(Id),
    /// The batch would pass a limit of the catalogue.
    CatalogFull,
    /// Out of memory.
    NoMemory,
}

impl From<AllocError> for PublishFault {
    ghost use Rattle.mds_drafts.specs.declared.publish.PublishFault.TheVariants.{NoMemory};

    ghost from_gives = { λ _ e. e ≡ NoMemory };

    fn from(_refused: AllocError) -> PublishFault {
        PublishFault::NoMemory
    }
}

impl Drafts {
    ghost use Rattle.mds_catalog.specs.Publication.{is_lawful};
    ghost use Rattle.mds_policy.specs.Policy.{policy_document};
    ghost use Rattle.mds_geography.specs.Geography.{geography_document};
    ghost use Rattle.mds_drafts.specs.Drafts.{has_draft};
    ghost use Rattle.mds_drafts.specs.Values.{drafts_of, named_of};
    ghost use Rattle.mds_drafts.specs.Publishing.{first_undrafted, batch_of, AnswersPublish};

    /// The first of these identifiers without a draft of this kind.
    fn first_without(&self, kind: DraftKind, ids: &[Id]) -> Option<Id>
        ensures { result ≡ find (λ id. not (has_draft (drafts_of self.now) kind id)) ids.now }
    {
        for id in ids {
            if self.get(kind, *id).is_none() {
                return Some(*id);
            }
        }
        None
    }

    /// The first identifier of the list without a draft, geographies before policies.
    fn first_missing_draft(&self, list: &PublishList) -> Option<Id>
        ensures { result ≡ first_undrafted (drafts_of self.now) (named_of list.now) }
    {
        match self.first_without(DraftKind::Geography, &list.geographies) {
            Some(id) => Some(id),
            None => self.first_without(DraftKind::Policy, &list.policies),
        }
    }

    /// References to the drafts of these policies.
    fn clone_policies(&self, alloc: Global, ids: &[Id]) -> Result<Vec<Arc<Policy>>, AllocError>
        ensures { IfOk result (λ v. map (λ share. policy_document share.value) v.items
            ≡ filter_map (get (drafts_of self.now).policies) ids.now) }
    {
        let mut shares = Vec::with_capacity(alloc, ids.len())?;
        for id in ids {
            if let Some(share) = self.policy(*id) {
                shares.push(Arc::try_clone(share)?)?;
            }
        }
        Ok(shares)
    }

    /// References to the drafts of these geographies.
    fn clone_geographies(
        &self,
        alloc: Global,
        ids: &[Id],
    ) -> Result<Vec<Arc<Geography>>, AllocError>
        ensures { IfOk result (λ v. map (λ share. geography_document share.value) v.items
            ≡ filter_map (get (drafts_of self.now).geographies) ids.now) }
    {
        let mut shares = Vec::with_capacity(alloc, ids.len())?;
        for id in ids {
            if let Some(share) = self.geography(*id) {
                shares.push(Arc::try_clone(share)?)?;
            }
        }
        Ok(shares)
    }

    /// The batch of the drafts that are named, published at this moment, and of the policies that are withdrawn. It
    /// shares the documents, has their texts as they will be served, and is lawful after the catalogue's publications.
    ///
    /// # Errors
    ///
    /// The first reason that applies, each tested for the whole list before the next: no identifier, one without a
    /// draft, one that is published, a geography of a rule, a predecessor or a policy to withdraw that is missing, a
    /// limit of the catalogue. `NoMemory` where memory for the lists or the texts is refused.
    pub fn batch(
        &self,
        alloc: Global,
        list: &PublishList,
        catalogue: &Catalogue,
        moment: Moment,
    ) -> Result<Batch, PublishFault>
        ensures answer { AnswersPublish result
            (batch_of (drafts_of self.now) (named_of list.now) (publications_of catalogue.now) moment) }
        ensures lawful { IfOk result
            (λ b. IsTrue (is_lawful (publications_of catalogue.now) (publication_of b))) }
    {
        if list.is_empty() {
            return Err(PublishFault::Empty);
        }
        if let Some(id) = self.first_missing_draft(list) {
            return Err(PublishFault::NoDraft(id));
        }
        let geographies = self.clone_geographies(alloc, &list.geographies)?;
        let policies = self.clone_policies(alloc, &list.policies)?;
        let withdrawn = Vec::from_slice(alloc, &list.withdraw)?;
        let batch = Batch::new(alloc, moment, geographies, policies, withdrawn)?;
        match refusal(catalogue, &batch) {
            Some(fault) => Err(fault),
            None => Ok(batch),
        }
    }
}

/// The first reason why the batch may not follow the catalogue's publications.
fn refusal(catalogue: &Catalogue, batch: &Batch) -> Option<PublishFault>
    ensures { result ≡ first_refusal (publications_of catalogue.now) (publication_of batch.now) }
{
    if let Some(id) = catalogue.first_published(batch) {
        return Some(PublishFault::Published(id));
    }
    if let Some(id) = catalogue.missing_geography(batch) {
        return Some(PublishFault::NoGeography(id));
    }
    if let Some(id) = catalogue.missing_predecessor(batch) {
        return Some(PublishFault::NoPredecessor(id));
    }
    if let Some(id) = catalogue.first_unpublished(&batch.withdrawn) {
        return Some(PublishFault::NotPublished(id));
    }
    if catalogue.fits(batch) {
        None
    } else {
        Some(PublishFault::CatalogFull)
    }
}
