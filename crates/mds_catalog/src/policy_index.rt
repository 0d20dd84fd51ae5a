//! Index of the published policies by identifier, with the moments from which on they are
//! superseded and withdrawn.
ghost use Rattle.std.specs.Prelude.{◌≡◌, ◌+◌, ◌≤◌, ◌<◌, ◌∷◌, ◌||◌, [], find, map, min, max, length, vec_len, vec_capacity, IfOk, IfErr};
ghost use Rattle.std.specs.Option.{option_map_or};
ghost use Rattle.mds_policy.specs.Policy.{policy_document};
ghost use Rattle.mds_catalog.specs.Listed.{Ascends, IsAt, IsGap, Lists, has, spots_from};
ghost use Rattle.mds_catalog.specs.Index.{after_successors, after_superseding, after_withdrawal, fresh, has_come};

use crate::document_index::DocumentSpot;
use mds_policy::Policy;
use mds_text::{Id, Moment};
use std::sync::Arc;

/// The index entry of a published policy: where it is, and the least moments from which on it is
/// superseded and withdrawn, if any.
#[derive(Clone, Copy)]
pub(crate) struct PolicyEntry {
    /// Where the policy is in the batches.
    pub(crate) spot: DocumentSpot,
    superseded: Option<Moment>,
    pub(crate) withdrawn: Option<Moment>,
}

/// The least of a moment and one that may be known.
fn least(known: Option<Moment>, moment: Moment) -> Moment
    ensures { result ≡ option_map_or (min moment) known moment }
{
    match known {
        Some(known) if known <= moment => known,
        _ => moment,
    }
}

/// Whether a known moment isn't after another; false where none is known.
fn has_come(known: Option<Moment>, at: Moment) -> bool
    ensures { result ≡ has_come at known }
{
    match known {
        Some(known) => known <= at,
        None => false,
    }
}

impl PolicyEntry {
    /// The entry of a newly published policy.
    fn new(spot: DocumentSpot) -> PolicyEntry
        ensures { result ≡ fresh spot }
    {
        PolicyEntry {
            spot,
            superseded: None,
            withdrawn: None,
        }
    }

    /// The entry after a policy replaces those with these identifiers from a moment on.
    fn after_superseding(self, moment: Moment, ids: &[Id]) -> PolicyEntry
        ensures { result ≡ after_superseding moment ids.now self }
    {
        if !ids.contains(&self.spot.id) {
            return self;
        }
        PolicyEntry {
            spot: self.spot,
            superseded: Some(least(self.superseded, moment)),
            withdrawn: self.withdrawn,
        }
    }

    /// The entry after a publication at this moment withdraws the policies with these identifiers.
    fn after_withdrawal(self, moment: Moment, ids: &[Id]) -> PolicyEntry
        ensures { result ≡ after_withdrawal moment ids.now self }
    {
        if !ids.contains(&self.spot.id) {
            return self;
        }
        PolicyEntry {
            spot: self.spot,
            superseded: self.superseded,
            withdrawn: Some(least(self.withdrawn, moment)),
        }
    }

    /// Whether the policy is superseded or withdrawn at a moment.
    pub(crate) fn is_over(&self, at: Moment) -> bool
        ensures { result ≡ (has_come at self.now.superseded || has_come at self.now.withdrawn) }
    {
        has_come(self.superseded, at) || has_come(self.withdrawn, at)
    }
}

/// The index of the entry with this identifier, or the index at which it would be inserted.
fn place_of(entries: &[PolicyEntry], id: Id) -> Result<usize, usize>
    requires { Ascends (λ e. e.spot.id) entries.now }
    ensures found { IfOk result (IsAt (λ e. e.spot.id) entries.now id) }
    ensures gap { IfErr result (IsGap (λ e. e.spot.id) entries.now id) }
{
    entries.binary_search_by_key(&id, |entry| entry.spot.id)
}

/// The entry of the policy with this identifier.
pub(crate) fn entry_of(entries: &[PolicyEntry], id: Id) -> Option<PolicyEntry>
    requires { Ascends (λ e. e.spot.id) entries.now }
    ensures { result ≡ find (has (λ e. e.spot.id) id) entries.now }
{
    match place_of(entries, id) {
        Ok(at) => Some(entries[at]),
        Err(_) => None,
    }
}

/// Inserts the entry of a new policy, unless there is one with its identifier.
fn list_entry(entries: &mut Vec<PolicyEntry>, spot: DocumentSpot)
    requires ascends { Ascends (λ e. e.spot.id) entries.old.items }
    requires room { vec_len entries.old < vec_capacity entries.old }
    ensures listed { Lists (λ e. e.spot.id) entries.old.items entries.new.items (fresh spot ∷ []) }
    ensures capacity { vec_capacity entries.new ≡ vec_capacity entries.old }
{
    if let Err(at) = place_of(entries, spot.id) {
        let _ = entries.insert(at, PolicyEntry::new(spot));
    }
}

/// Inserts entries for the policies of a batch.
pub(crate) fn list_policies(entries: &mut Vec<PolicyEntry>, batch: usize, policies: &[Arc<Policy>])
    requires ascends { Ascends (λ e. e.spot.id) entries.old.items }
    requires room { vec_len entries.old + length policies.now ≤ vec_capacity entries.old }
    ensures listed { Lists (λ e. e.spot.id) entries.old.items entries.new.items
        (map fresh (spots_from batch 0 (map (λ share. (policy_document share.value).id) policies.now))) }
    ensures capacity { vec_capacity entries.new ≡ vec_capacity entries.old }
{
    for (place, policy) in policies.iter().enumerate() {
        let id = policy.id();
        list_entry(entries, DocumentSpot { id, batch, place });
    }
}

/// Marks the policies with these identifiers as superseded from a moment on.
fn supersede_each(entries: &mut [PolicyEntry], moment: Moment, ids: &[Id])
    ensures { entries.new ≡ map (after_superseding moment ids.now) entries.old }
{
    for entry in entries.iter_mut() {
        *entry = entry.after_superseding(moment, ids);
    }
}

/// Marks as superseded what policies that are published at this moment replace: each from its own
/// start on, and not before the publication (MDS 2.0 Policy, `prev_policies`).
pub(crate) fn supersede(entries: &mut [PolicyEntry], moment: Moment, policies: &[Arc<Policy>])
    ensures { entries.new
        ≡ after_successors moment (map (λ share. policy_document share.value) policies.now) entries.old }
{
    for policy in policies {
        let from = later(moment, policy.start());
        supersede_each(entries, from, policy.previous());
    }
}

/// The later of two moments.
fn later(moment: Moment, other: Moment) -> Moment
    ensures { result ≡ max moment other }
{
    if moment < other { other } else { moment }
}

/// Marks the policies with these identifiers as withdrawn from a moment on.
pub(crate) fn withdraw(entries: &mut [PolicyEntry], moment: Moment, ids: &[Id])
    ensures { entries.new ≡ map (after_withdrawal moment ids.now) entries.old }
{
    for entry in entries.iter_mut() {
        *entry = entry.after_withdrawal(moment, ids);
    }
}
