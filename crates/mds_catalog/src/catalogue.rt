//! The catalogue: all published batches, with an index of their documents.
ghost use Rattle.std.specs.Prelude.{◌≤◌, vec_capacity};
ghost use Rattle.mds_catalog.specs.Publication.{publications_in};
ghost use Rattle.mds_catalog.specs.Index.{IsKept};
ghost use Rattle.mds_catalog.specs.Laws.{AreLawful};
ghost use Rattle.mds_catalog.specs.declared.catalogue.TheConstants.{MOST_GEOGRAPHIES, MOST_POLICIES, MOST_PUBLICATIONS};

use crate::batch::Batch;
use crate::distinct::are_distinct;
use crate::document_index::{DocumentSpot, list_geographies, spot_of};
use crate::in_force::{is_meant_for, is_running};
use crate::lists::{geography_refs, geography_text_refs, policy_refs, policy_text_refs};
use crate::policy_index::{PolicyEntry, entry_of, list_policies, supersede, withdraw};
use crate::published::Published;
use crate::sharing::{copy_entries, share_batches};
use mds_geography::Geography;
use mds_policy::{Policy, Rule};
use mds_text::{Id, Moment};
use std::alloc::{AllocError, Global};
use std::sync::Arc;

/// The most publications of a catalogue.
pub const MOST_PUBLICATIONS: usize = 1024;

/// The most published policies of a catalogue.
pub const MOST_POLICIES: usize = 512;

/// The most published geographies of a catalogue.
pub const MOST_GEOGRAPHIES: usize = 512;

/// All published batches in their order, and an index by identifier: where each document is, and from which moment on
/// each policy is superseded and withdrawn. Each publication is lawful after those before it. Contracts see the list of the
/// publications.
#[derive(Drop)]
pub struct Catalogue {
    // in the order of publication
    batches: Vec<Arc<Batch>>,
    // an entry for each policy, ascending by identifier
    entries: Vec<PolicyEntry>,
    // an entry for each geography, ascending by identifier
    spots: Vec<DocumentSpot>,
    policy_count: usize,
    geography_count: usize,
    ghost batch_room: { MOST_PUBLICATIONS ≤ vec_capacity batches },
    ghost entry_room: { MOST_POLICIES ≤ vec_capacity entries },
    ghost spot_room: { MOST_GEOGRAPHIES ≤ vec_capacity spots },
    ghost kept: { IsKept (publications_in batches.items) entries.items spots.items policy_count geography_count },
    ghost lawful: { AreLawful (publications_in batches.items) },
}

impl Catalogue {
    ghost use Rattle.std.specs.Prelude.{◌≡◌, ◌++◌, ◌∷◌, [], length, IfOk, OnOk, OnErr, option_map, IsTrue, find, map, not, ◌||◌};
    ghost use Rattle.std.specs.List.{flat_map};
    ghost use Rattle.mds_policy.specs.Policy.{rule_document};
    ghost use Rattle.mds_catalog.specs.Publication.{find_policy, find_geography, is_policy_published, is_geography_published, policy_ids, geography_ids, first_published, is_geography_there, missing_geography, missing_predecessor, first_unpublished, fits, is_lawful, extended, publication_of, is_in_force, is_superseded, is_withdrawn, IsWithdrawnFrom, policies_for, published_geographies, in_force};
    ghost use Rattle.mds_catalog.specs.Catalogue.{publications_of, lent_policy, lent_geography, served_policy, served_geography};

    /// An empty catalogue with memory for all publications.
    ///
    /// # Errors
    ///
    /// Out of memory.
    pub fn with_room(alloc: Global) -> Result<Catalogue, AllocError>
        ensures { IfOk result (λ c. publications_of c ≡ []) }
    {
        Ok(Catalogue {
            batches: Vec::with_capacity(alloc, MOST_PUBLICATIONS)?,
            entries: Vec::with_capacity(alloc, MOST_POLICIES)?,
            spots: Vec::with_capacity(alloc, MOST_GEOGRAPHIES)?,
            policy_count: 0,
            geography_count: 0,
        })
    }

    /// A further catalogue of the same publications: it shares the batches, and copies their index. It takes
    /// microseconds and tens of kilobytes, whatever the documents' sizes.
    ///
    /// # Errors
    ///
    /// Out of memory.
    pub fn share(&self, alloc: Global) -> Result<Catalogue, AllocError>
        ensures { IfOk result (λ c. publications_of c ≡ publications_of self.now) }
    {
        Ok(Catalogue {
            batches: share_batches(alloc, MOST_PUBLICATIONS, &self.batches)?,
            entries: copy_entries(alloc, MOST_POLICIES, &self.entries)?,
            spots: copy_entries(alloc, MOST_GEOGRAPHIES, &self.spots)?,
            policy_count: self.policy_count,
            geography_count: self.geography_count,
        })
    }

    /// The number of published batches.
    pub fn revision(&self) -> u64
        ensures count { result ≡ length (publications_of self.now) }
        ensures few { result ≤ MOST_PUBLICATIONS }
    {
        self.batches.len() as u64
    }

    /// Whether a published policy is in force for an operator at a moment: it is published and has started, hasn't
    /// ended, is meant for the operator, no published policy that is effective then replaces it (MDS 2.0 Policy,
    /// `prev_policies`), and no batch of that moment or an earlier one withdraws it.
    pub fn is_in_force(&self, operator: Id, at: Moment, policy: &Published<'_, Policy>) -> bool
        ensures { result ≡ is_in_force (publications_of self.now) operator at (lent_policy policy.now) }
    {
        let document = policy.document;
        is_running(policy, at)
            && is_meant_for(document, operator)
            && !self.is_over(at, document.id())
    }

    /// The moment from which on the policy with this identifier is withdrawn: the least moment of the publications that
    /// withdraw it, if there are any.
    pub fn withdrawal_moment(&self, id: Id) -> Option<Moment>
        ensures { IsWithdrawnFrom (publications_of self.now) id result }
    {
        match entry_of(&self.entries, id) {
            Some(entry) => entry.withdrawn,
            None => None,
        }
    }

    /// Whether the policy with this identifier is superseded or withdrawn at a moment.
    fn is_over(&self, at: Moment, id: Id) -> bool
        ensures { result ≡ (is_superseded (publications_of self.now) at id || is_withdrawn (publications_of self.now) at id) }
    {
        match entry_of(&self.entries, id) {
            Some(entry) => entry.is_over(at),
            None => false,
        }
    }

    /// The published policies in the order of publication: all, or those that are meant for an operator (MDS 2.0
    /// Policy, `provider_ids`).
    ///
    /// # Errors
    ///
    /// Out of memory.
    pub fn policies(
        &self,
        alloc: Global,
        operator: Option<Id>,
    ) -> Result<Vec<Published<'_, Policy>>, AllocError>
        ensures { IfOk result (λ v. map lent_policy v.items ≡ policies_for (publications_of self.now) operator) }
    {
        let mut policies = policy_refs(alloc, &self.batches)?;
        if let Some(operator) = operator {
            policies.retain(|policy| is_meant_for(policy.document, operator));
        }
        Ok(policies)
    }

    /// The published geographies in the order of publication.
    ///
    /// # Errors
    ///
    /// Out of memory.
    pub fn geographies(&self, alloc: Global) -> Result<Vec<Published<'_, Geography>>, AllocError>
        ensures { IfOk result (λ v. map lent_geography v.items ≡ published_geographies (publications_of self.now)) }
    {
        geography_refs(alloc, &self.batches)
    }

    /// The policies in force for an operator at a moment, in the order of publication.
    ///
    /// # Errors
    ///
    /// Out of memory.
    pub fn in_force(
        &self,
        alloc: Global,
        operator: Id,
        at: Moment,
    ) -> Result<Vec<Published<'_, Policy>>, AllocError>
        ensures { IfOk result (λ v. map lent_policy v.items ≡ in_force (publications_of self.now) operator at) }
    {
        let mut policies = policy_refs(alloc, &self.batches)?;
        policies.retain(|policy| self.is_in_force(operator, at, policy));
        Ok(policies)
    }

    /// The published policy with this identifier.
    pub fn policy(&self, id: Id) -> Option<Published<'_, Policy>>
        ensures { option_map lent_policy result ≡ find_policy (publications_of self.now) id }
    {
        let entry = entry_of(&self.entries, id)?;
        let batch: &Batch = &self.batches[entry.spot.batch];
        let document: &Policy = &batch.policies[entry.spot.place];
        Some(Published {
            document,
            moment: batch.moment,
        })
    }

    /// The published geography with this identifier.
    pub fn geography(&self, id: Id) -> Option<Published<'_, Geography>>
        ensures { option_map lent_geography result ≡ find_geography (publications_of self.now) id }
    {
        let spot = spot_of(&self.spots, id)?;
        let batch: &Batch = &self.batches[spot.batch];
        let document: &Geography = &batch.geographies[spot.place];
        Some(Published {
            document,
            moment: batch.moment,
        })
    }

    /// The texts of the published policies as they are served, with their `published_date`, in the order of
    /// publication: all, or those that are meant for an operator (MDS 2.0 Policy, `provider_ids`).
    ///
    /// # Errors
    ///
    /// Out of memory for the list; the texts are borrowed.
    pub fn policy_texts(
        &self,
        alloc: Global,
        operator: Option<Id>,
    ) -> Result<Vec<&[u8]>, AllocError>
        ensures { IfOk result (λ v. map (λ t. t.now) v.items
            ≡ map served_policy (policies_for (publications_of self.now) operator)) }
    {
        policy_text_refs(alloc, self.policy_count, &self.batches, &operator)
    }

    /// The texts of the published geographies as they are served, with their `published_date`, in the order of
    /// publication.
    ///
    /// # Errors
    ///
    /// Out of memory for the list; the texts are borrowed.
    pub fn geography_texts(&self, alloc: Global) -> Result<Vec<&[u8]>, AllocError>
        ensures { IfOk result (λ v. map (λ t. t.now) v.items
            ≡ map served_geography (published_geographies (publications_of self.now))) }
    {
        geography_text_refs(alloc, self.geography_count, &self.batches)
    }

    /// The text of the published policy with this identifier as it is served, with its `published_date`.
    pub fn policy_text(&self, id: Id) -> Option<&[u8]>
        ensures { option_map (λ t. t.now) result ≡ option_map served_policy (find_policy (publications_of self.now) id) }
    {
        let entry = entry_of(&self.entries, id)?;
        let published: &Batch = &self.batches[entry.spot.batch];
        let text: &[u8] = &published.policy_texts[entry.spot.place];
        Some(text)
    }

    /// The text of the published geography with this identifier as it is served, with its `published_date`.
    pub fn geography_text(&self, id: Id) -> Option<&[u8]>
        ensures { option_map (λ t. t.now) result
            ≡ option_map served_geography (find_geography (publications_of self.now) id) }
    {
        let spot = spot_of(&self.spots, id)?;
        let published: &Batch = &self.batches[spot.batch];
        let text: &[u8] = &published.geography_texts[spot.place];
        Some(text)
    }

    /// Whether a policy with this identifier is published.
    fn has_policy(&self, id: Id) -> bool
        ensures { result ≡ is_policy_published (publications_of self.now) id }
    {
        self.policy(id).is_some()
    }

    /// Whether a geography with this identifier is published.
    fn has_geography(&self, id: Id) -> bool
        ensures { result ≡ is_geography_published (publications_of self.now) id }
    {
        self.geography(id).is_some()
    }

    /// The first geography of the batch that is already published.
    fn published_geography(&self, batch: &Batch) -> Option<Id>
        ensures { result ≡ find (is_geography_published (publications_of self.now))
            (geography_ids (publication_of batch.now)) }
    {
        for geography in &batch.geographies {
            let id = geography.id();
            if self.has_geography(id) {
                return Some(id);
            }
        }
        None
    }

    /// The first policy of the batch that is already published.
    fn published_policy(&self, batch: &Batch) -> Option<Id>
        ensures { result ≡ find (is_policy_published (publications_of self.now))
            (policy_ids (publication_of batch.now)) }
    {
        for policy in &batch.policies {
            let id = policy.id();
            if self.has_policy(id) {
                return Some(id);
            }
        }
        None
    }

    /// The first identifier of the batch that is already published, geographies before policies. A geography may have
    /// the identifier of a policy.
    pub fn first_published(&self, batch: &Batch) -> Option<Id>
        ensures { result ≡ first_published (publications_of self.now) (publication_of batch.now) }
    {
        match self.published_geography(batch) {
            Some(id) => Some(id),
            None => self.published_policy(batch),
        }
    }

    /// The first of these geographies that is neither published nor in the batch.
    fn missing_entry(&self, batch: &Batch, entries: &[Id]) -> Option<Id>
        ensures { result ≡ find
            (λ id. not (is_geography_there (publications_of self.now) (publication_of batch.now) id))
            entries.now }
    {
        for id in entries {
            if !self.has_geography(*id) && !batch.has_geography(*id) {
                return Some(*id);
            }
        }
        None
    }

    /// The first geography that these rules name and that is neither published nor in the batch.
    fn missing_in_rules(&self, batch: &Batch, rules: &[Rule]) -> Option<Id>
        ensures { result ≡ find
            (λ id. not (is_geography_there (publications_of self.now) (publication_of batch.now) id))
            (flat_map (λ rule. rule.geographies) (map rule_document rules.now)) }
    {
        for rule in rules {
            if let Some(id) = self.missing_entry(batch, &rule.geographies) {
                return Some(id);
            }
        }
        None
    }

    /// The first geography that a rule of the batch names and that is neither published nor in the batch, in the order
    /// of policies, rules and entries.
    pub fn missing_geography(&self, batch: &Batch) -> Option<Id>
        ensures { result ≡ missing_geography (publications_of self.now) (publication_of batch.now) }
    {
        for policy in &batch.policies {
            if let Some(id) = self.missing_in_rules(batch, policy.rules()) {
                return Some(id);
            }
        }
        None
    }

    /// The first of these identifiers with no published policy.
    pub fn first_unpublished(&self, ids: &[Id]) -> Option<Id>
        ensures { result ≡ first_unpublished (publications_of self.now) ids.now }
    {
        for id in ids {
            if !self.has_policy(*id) {
                return Some(*id);
            }
        }
        None
    }

    /// The first policy that a policy of the batch replaces and that isn't already published, in the order of policies
    /// and entries.
    pub fn missing_predecessor(&self, batch: &Batch) -> Option<Id>
        ensures { result ≡ missing_predecessor (publications_of self.now) (publication_of batch.now) }
    {
        for policy in &batch.policies {
            if let Some(id) = self.first_unpublished(policy.previous()) {
                return Some(id);
            }
        }
        None
    }

    /// Whether the catalogue with the batch stays within the limits: 512 policies, 512 geographies and 1,024 batches in
    /// all.
    pub fn fits(&self, batch: &Batch) -> bool
        ensures { result ≡ fits (publications_of self.now) (publication_of batch.now) }
    {
        batch.policies.len() <= MOST_POLICIES - self.policy_count
            && batch.geographies.len() <= MOST_GEOGRAPHIES - self.geography_count
            && self.batches.len() < MOST_PUBLICATIONS
    }

    /// Whether the batch may be published: it has a document or withdraws a policy, no identifier is twice in a list,
    /// its documents are new, the geographies of its rules are published or in it, the policies that it replaces and
    /// withdraws are published, and it is within the limits.
    pub fn lawful(&self, batch: &Batch) -> bool
        ensures { result ≡ is_lawful (publications_of self.now) (publication_of batch.now) }
    {
        !batch.is_empty()
            && batch.geographies_differ()
            && batch.policies_differ()
            && are_distinct(&batch.withdrawn)
            && self.first_published(batch).is_none()
            && self.missing_geography(batch).is_none()
            && self.missing_predecessor(batch).is_none()
            && self.first_unpublished(&batch.withdrawn).is_none()
            && self.fits(batch)
    }

    /// Appends a lawful batch.
    fn append(&mut self, batch: Arc<Batch>)
        requires { IsTrue (is_lawful (publications_of self.old) (publication_of batch.value)) }
        ensures { publications_of self.new ≡ publications_of self.old ++ publication_of batch.value ∷ [] }
    {
        let policy_count = self.policy_count + batch.policies.len();
        let geography_count = self.geography_count + batch.geographies.len();
        let number = self.batches.len();
        list_geographies(&mut self.spots, number, &batch.geographies);
        list_policies(&mut self.entries, number, &batch.policies);
        supersede(&mut self.entries, batch.moment, &batch.policies);
        withdraw(&mut self.entries, batch.moment, &batch.withdrawn);
        self.batches.push_reserved(batch);
        self.policy_count = policy_count;
        self.geography_count = geography_count;
    }

    /// Appends the batch where it is lawful, and else changes nothing. It can't fail.
    pub fn adopt(&mut self, batch: Arc<Batch>)
        ensures { publications_of self.new ≡ extended (publications_of self.old) (publication_of batch.value) }
    {
        if self.lawful(&batch) {
            self.append(batch);
        }
    }

    /// Appends a further reference to the batch where it is lawful, and else changes nothing: for a catalogue that
    /// follows another's list of batches. `adopt` takes over a reference instead.
    ///
    /// # Errors
    ///
    /// No further reference to a lawful batch could be made; nothing is changed.
    pub fn absorb(&mut self, batch: &Arc<Batch>) -> Result<(), AllocError>
        ensures ok { OnOk result (publications_of self.new
            ≡ extended (publications_of self.old) (publication_of batch.now.value)) }
        ensures err { OnErr result (publications_of self.new ≡ publications_of self.old) }
        ensures refused_if_lawful { OnErr result
            (IsTrue (is_lawful (publications_of self.old) (publication_of batch.now.value))) }
    {
        if self.lawful(batch) {
            let share = Arc::try_clone(batch)?;
            self.append(share);
        }
        Ok(())
    }
}
