//! The author's drafts, by kind and identifier.
ghost use Rattle.std.specs.Prelude.{◌≡◌, ◌<◌, filter, not};
ghost use Rattle.mds_drafts.specs.Entries.{drafts_in, document_of};
ghost use Rattle.mds_drafts.specs.Drafts.{count_of, is_of};
ghost use Rattle.mds_text.specs.declared.draft_kind.DraftKind.TheVariants as kinds;

use crate::draft::Draft;
use mds_catalog::Batch;
use mds_geography::Geography;
use mds_json::ReusableScratch;
use mds_policy::{Policy, PolicyFault};
use mds_text::{DraftKind, Id};
use std::alloc::{AllocError, Global};
use std::sync::Arc;

/// The most drafts of a kind.
pub const MOST_DRAFTS: usize = 256;

/// What putting a draft did.
#[derive(Clone, Copy, Debug, PartialEq, Eq)]
pub enum Put {
    /// There was no draft of its kind and identifier.
    New,
    /// It replaced the draft of its kind and identifier.
    Replaced,
}

/// Why a draft can't be put.
#[derive(Clone, Copy, Debug, PartialEq, Eq)]
pub enum PutFault {
    /// It is new, and there are `MOST_DRAFTS` of its kind.
    DraftsFull,
    /// Out of memory.
    NoMemory,
}

/// There is no draft of this kind and identifier.
#[derive(Clone, Copy, Debug, PartialEq, Eq)]
pub struct NoDraft;

/// The drafts of both kinds, at most one of a kind for an identifier. Contracts see two finite maps.
#[derive(Drop)]
pub struct Drafts {
    items: Vec<Draft>,
    policy_count: usize,
    geography_count: usize,
    reading: ReusableScratch,
    ghost policies_counted: { policy_count ≡ count_of (drafts_in items.items) kinds.Policy },
    ghost geographies_counted: { geography_count ≡ count_of (drafts_in items.items) kinds.Geography },
}

impl Drafts {
    ghost use Rattle.std.specs.Prelude.{OnOk, OnErr, IsOk, IsTrue, IsSome, ◌↔◌, option_map, is_some, position, Some, None, Ok, true};
    ghost use Rattle.std.specs.FinMap.{empty, get};
    ghost use Rattle.mds_text.specs.Fault.{Gives};
    ghost use Rattle.mds_policy.specs.Fault.{policy_cause};
    ghost use Rattle.mds_policy.specs.Policy.{policy_document};
    ghost use Rattle.mds_policy.specs.Reading.{read_policy};
    ghost use Rattle.mds_geography.specs.Geography.{geography_document};
    ghost use Rattle.mds_catalog.specs.Publication.{publication_of};
    ghost use Rattle.mds_drafts.specs.Drafts.{kind_of, id_of, draft_at, with_draft, without_draft, taken_out, put_answer, AnswersPut};
    ghost use Rattle.mds_drafts.specs.Values.{drafts_of};

    /// No drafts. Allocates nothing.
    pub fn new(alloc: Global) -> Drafts
        ensures policies { (drafts_of result).policies ≡ empty }
        ensures geographies { (drafts_of result).geographies ≡ empty }
    {
        Drafts {
            items: Vec::new(alloc),
            policy_count: 0,
            geography_count: 0,
            reading: ReusableScratch::new(),
        }
    }

    /// Reads the text of a policy as `Policy::read` does; a short one with the scratch memory that is here. The drafts
    /// don't change.
    ///
    /// # Errors
    ///
    /// Those of `Policy::read`.
    pub fn read_policy(&mut self, alloc: Global, text: &[u8]) -> Result<Policy, PolicyFault>
        ensures read { Gives policy_cause policy_document result (read_policy text.now) }
        ensures drafts { drafts_of self.new ≡ drafts_of self.old }
    {
        Policy::read_with(alloc, &mut self.reading, text)
    }

    /// All drafts, in no particular order. Allocates nothing.
    pub fn all(&self) -> &[Draft]
        ensures { drafts_in result.now ≡ drafts_of self.now }
    {
        &self.items
    }

    /// The draft of this kind and identifier.
    pub fn get(&self, kind: DraftKind, id: Id) -> Option<&Draft>
        ensures { option_map (λ d. document_of d.now) result ≡ draft_at (drafts_of self.now) kind id }
    {
        for draft in &self.items {
            if draft.is_of(kind, id) {
                return Some(draft);
            }
        }
        None
    }

    /// The draft of the policy with this identifier.
    pub(crate) fn policy(&self, id: Id) -> Option<&Arc<Policy>>
        ensures { option_map (λ share. policy_document share.now.value) result ≡ get (drafts_of self.now).policies id }
    {
        match self.get(DraftKind::Policy, id) {
            Some(Draft::Policy(share)) => Some(share),
            _ => None,
        }
    }

    /// The draft of the geography with this identifier.
    pub(crate) fn geography(&self, id: Id) -> Option<&Arc<Geography>>
        ensures { option_map (λ share. geography_document share.now.value) result ≡ get (drafts_of self.now).geographies id }
    {
        match self.get(DraftKind::Geography, id) {
            Some(Draft::Geography(share)) => Some(share),
            _ => None,
        }
    }

    /// The index of the draft of this kind and identifier.
    fn place(&self, kind: DraftKind, id: Id) -> Option<usize>
        ensures { result ≡ position (λ d. is_of (document_of d) kind id) self.now.items.items }
    {
        self.items.iter().position(|draft| draft.is_of(kind, id))
    }

    /// The number of drafts of this kind.
    fn count(&self, kind: DraftKind) -> usize
        ensures { result ≡ count_of (drafts_of self.now) kind }
    {
        match kind {
            DraftKind::Policy => self.policy_count,
            DraftKind::Geography => self.geography_count,
        }
    }

    /// Replaces the draft at this index, which is the one of the new draft's kind and identifier.
    fn replace(&mut self, place: usize, draft: Draft)
        requires { position (λ d. is_of (document_of d) (kind_of (document_of draft)) (id_of (document_of draft)))
            self.old.items.items ≡ Some place }
        ensures { drafts_of self.new ≡ with_draft (drafts_of self.old) (document_of draft) }
    {
        self.items[place] = draft;
    }

    /// Appends a draft of a new kind and identifier.
    fn add(&mut self, draft: Draft) -> Result<(), AllocError>
        requires absent { position (λ d. is_of (document_of d) (kind_of (document_of draft)) (id_of (document_of draft)))
            self.old.items.items ≡ None }
        requires room { count_of (drafts_of self.old) (kind_of (document_of draft)) < MOST_DRAFTS }
        ensures ok { OnOk result (drafts_of self.new ≡ with_draft (drafts_of self.old) (document_of draft)) }
        ensures err { OnErr result (drafts_of self.new ≡ drafts_of self.old) }
    {
        let kind = draft.kind();
        self.items.push(draft)?;
        match kind {
            DraftKind::Policy => self.policy_count += 1,
            DraftKind::Geography => self.geography_count += 1,
        }
        Ok(())
    }

    /// Puts a draft: it replaces one of its kind and identifier, or is added.
    ///
    /// # Errors
    ///
    /// `DraftsFull` for a new draft where there are `MOST_DRAFTS` of its kind; `NoMemory` only for a new draft. Nothing
    /// is changed.
    pub fn put(&mut self, draft: Draft) -> Result<Put, PutFault>
        ensures answer { AnswersPut result (put_answer (drafts_of self.old) (document_of draft)) }
        ensures ok { OnOk result (drafts_of self.new ≡ with_draft (drafts_of self.old) (document_of draft)) }
        ensures err { OnErr result (drafts_of self.new ≡ drafts_of self.old) }
    {
        let kind = draft.kind();
        if let Some(place) = self.place(kind, draft.id()) {
            self.replace(place, draft);
            return Ok(Put::Replaced);
        }
        if self.count(kind) >= MOST_DRAFTS {
            return Err(PutFault::DraftsFull);
        }
        match self.add(draft) {
            Ok(()) => Ok(Put::New),
            Err(_) => Err(PutFault::NoMemory),
        }
    }

    /// Removes the draft of this kind and identifier, which is there.
    fn remove(&mut self, kind: DraftKind, id: Id)
        requires { IsTrue (is_some (draft_at (drafts_of self.old) kind id)) }
        ensures { drafts_of self.new ≡ without_draft (drafts_of self.old) kind id }
    {
        keep_others(&mut self.items, kind, id);
        match kind {
            DraftKind::Policy => self.policy_count -= 1,
            DraftKind::Geography => self.geography_count -= 1,
        }
    }

    /// Removes the draft of this kind and identifier, if there is one.
    fn discard(&mut self, kind: DraftKind, id: Id)
        ensures { drafts_of self.new ≡ without_draft (drafts_of self.old) kind id }
    {
        if self.get(kind, id).is_some() {
            self.remove(kind, id);
        }
    }

    /// Drops the draft of this kind and identifier. Allocates nothing.
    ///
    /// # Errors
    ///
    /// `NoDraft` where there is none; nothing is changed.
    pub fn drop_draft(&mut self, kind: DraftKind, id: Id) -> Result<(), NoDraft>
        ensures held { IsOk result ↔ IsTrue (is_some (draft_at (drafts_of self.old) kind id)) }
        ensures ok { OnOk result (drafts_of self.new ≡ without_draft (drafts_of self.old) kind id) }
        ensures err { OnErr result (drafts_of self.new ≡ drafts_of self.old) }
    {
        if self.get(kind, id).is_none() {
            return Err(NoDraft);
        }
        self.remove(kind, id);
        Ok(())
    }

    /// Removes the drafts of all documents of the batch, which has been published. A draft whose identifier the batch
    /// withdraws stays. Allocates nothing.
    pub fn take_out(&mut self, batch: &Batch)
        ensures { drafts_of self.new ≡ taken_out (drafts_of self.old) (publication_of batch.now) }
    {
        for policy in &batch.policies {
            self.discard(DraftKind::Policy, policy.id());
        }
        for geography in &batch.geographies {
            self.discard(DraftKind::Geography, geography.id());
        }
    }
}

/// Retains the drafts that aren't of this kind and identifier.
fn keep_others(items: &mut Vec<Draft>, kind: DraftKind, id: Id)
    ensures { items.new.items ≡ filter (λ d. not (is_of (document_of d) kind id)) items.old.items }
{
    items.retain(|draft| !draft.is_of(kind, id));
}
