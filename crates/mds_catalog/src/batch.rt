//! A batch: what one publication publishes and withdraws.
ghost use Rattle.std.specs.Prelude.{◌≡◌, find, bytes_eq, option_map, map, IfOk};
ghost use Rattle.mds_policy.specs.Policy.{policy_document};
ghost use Rattle.mds_geography.specs.Geography.{geography_document};
ghost use Rattle.mds_catalog.specs.Texts.{policy_text, geography_text};

use crate::distinct::{contains_geography, contains_policy};
use crate::print::{print_geographies, print_policies};
use mds_geography::Geography;
use mds_policy::Policy;
use mds_text::{Id, Moment};
use std::alloc::{AllocError, Global};
use std::sync::Arc;

/// Documents that are published together at one moment, and the published policies that are withdrawn from then on,
/// each list in the order of the request. The batch has the text of each document as it is served from that moment on,
/// so that it is printed once.
#[derive(Drop)]
pub struct Batch {
    /// When it is published, in milliseconds since the Unix epoch.
    pub moment: Moment,
    /// The geographies that are published.
    pub geographies: Vec<Arc<Geography>>,
    /// The policies that are published.
    pub policies: Vec<Arc<Policy>>,
    /// The identifiers of the published policies that are withdrawn.
    pub withdrawn: Vec<Id>,
    // of each geography and each policy, in the order of the lists above
    pub(crate) geography_texts: Vec<Vec<u8>>,
    pub(crate) policy_texts: Vec<Vec<u8>>,
    ghost geographies_printed: { map (λ t. t.items) geography_texts.items
        ≡ map (geography_text moment) (map (λ share. geography_document share.value) geographies.items) },
    ghost policies_printed: { map (λ t. t.items) policy_texts.items
        ≡ map (policy_text moment) (map (λ share. policy_document share.value) policies.items) },
}

impl Batch {
    ghost use Rattle.mds_catalog.specs.Publication.{publication_of, is_empty, policy_ids, geography_ids, is_among, are_distinct};

    /// The batch of these documents and withdrawals. Prints each document as it is served, with the moment as its
    /// `published_date`.
    ///
    /// # Errors
    ///
    /// Out of memory for the texts.
    pub fn new(
        alloc: Global,
        moment: Moment,
        geographies: Vec<Arc<Geography>>,
        policies: Vec<Arc<Policy>>,
        withdrawn: Vec<Id>,
    ) -> Result<Batch, AllocError>
        ensures moment { IfOk result (λ b. b.moment ≡ moment) }
        ensures geographies { IfOk result (λ b. b.geographies ≡ geographies) }
        ensures policies { IfOk result (λ b. b.policies ≡ policies) }
        ensures withdrawn { IfOk result (λ b. b.withdrawn ≡ withdrawn) }
    {
        let geography_texts = print_geographies(alloc, moment, &geographies)?;
        let policy_texts = print_policies(alloc, moment, &policies)?;
        Ok(Batch {
            moment,
            geographies,
            policies,
            withdrawn,
            geography_texts,
            policy_texts,
        })
    }

    /// Whether the batch has no document and withdraws no policy.
    pub(crate) fn is_empty(&self) -> bool
        ensures { result ≡ is_empty (publication_of self.now) }
    {
        self.geographies.is_empty() && self.policies.is_empty() && self.withdrawn.is_empty()
    }

    /// The first policy with this identifier.
    pub(crate) fn policy(&self, id: Id) -> Option<&Policy>
        ensures { option_map (λ p. policy_document p.now) result
            ≡ find (λ p. bytes_eq p.id id) (publication_of self.now).policies }
    {
        for policy in &self.policies {
            if policy.id() == id {
                return Some(policy);
            }
        }
        None
    }

    /// The first geography with this identifier.
    pub(crate) fn geography(&self, id: Id) -> Option<&Geography>
        ensures { option_map (λ g. geography_document g.now) result
            ≡ find (λ g. bytes_eq g.id id) (publication_of self.now).geographies }
    {
        for geography in &self.geographies {
            if geography.id() == id {
                return Some(geography);
            }
        }
        None
    }

    /// Whether a geography with this identifier is in the batch.
    pub(crate) fn has_geography(&self, id: Id) -> bool
        ensures { result ≡ is_among (geography_ids (publication_of self.now)) id }
    {
        contains_geography(&self.geographies, id)
    }

    /// Whether the identifiers of the policies are distinct.
    pub(crate) fn policies_differ(&self) -> bool
        ensures { result ≡ are_distinct (policy_ids (publication_of self.now)) }
    {
        for (i, policy) in self.policies.iter().enumerate() {
            if contains_policy(&self.policies[i + 1..], policy.id()) {
                return false;
            }
        }
        true
    }

    /// Whether the identifiers of the geographies are distinct.
    pub(crate) fn geographies_differ(&self) -> bool
        ensures { result ≡ are_distinct (geography_ids (publication_of self.now)) }
    {
        for (i, geography) in self.geographies.iter().enumerate() {
            if contains_geography(&self.geographies[i + 1..], geography.id()) {
                return false;
            }
        }
        true
    }
}
