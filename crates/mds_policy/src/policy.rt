//! A policy document, read from its text (MDS 2.0 Policy).
use crate::dated_tree::with_published_date;
use crate::fault::PolicyFault;
use crate::reading::policy_of;
use crate::rule::Rule;
use mds_json::{NodeBuffer, ReusableScratch, read_tree};
use mds_text::{Id, Moment, Tree};
use std::alloc::{AllocError, Global};

/// A policy (MDS 2.0 Policy, policies): the text of the author's whole document, next to what the
/// server reads of it.
#[derive(Drop)]
pub struct Policy {
    pub(crate) text: Vec<u8>,
    pub(crate) id: Id,
    pub(crate) start: Moment,
    pub(crate) end: Option<Moment>,
    pub(crate) providers: Vec<Id>,
    pub(crate) previous: Vec<Id>,
    pub(crate) rules: Vec<Rule>,
}

impl Policy {
    ghost use Rattle.std.specs.Prelude.{◌≡◌, map, IfOk};
    ghost use Rattle.mds_text.specs.View.{view};
    ghost use Rattle.mds_policy.specs.Policy.{policy_document, rule_document};
    ghost use Rattle.mds_text.specs.Fault.{Gives};
    ghost use Rattle.mds_policy.specs.Fault.{policy_cause};
    ghost use Rattle.mds_policy.specs.Reading.{read_policy};
    ghost use Rattle.mds_policy.specs.Served.{served};

    /// Reads the text of a policy (MDS 2.0 Policy, policies and rules).
    ///
    /// # Errors
    ///
    /// The first fault in this order: the text is not JSON (RFC 8259), a number in it isn't plain,
    /// then the policy's members and its rules in the order of their tables; or out of memory.
    #[tactic(auto, unfolding(crate::specs::Reading::read_policy))]
    pub fn read(alloc: Global, text: &[u8]) -> Result<Policy, PolicyFault>
        ensures { Gives policy_cause policy_document result (read_policy text.now) }
    {
        let mut source = NodeBuffer::new(alloc);
        let (tree, quoted) = source.read_and_count(alloc, text)?;
        if quoted > 0 {
            return Err(PolicyFault::Decimal);
        }
        policy_of(alloc, text, &tree)
    }

    /// Reads the text of a policy as `read` does, a short one with the scratch buffer `kept`.
    ///
    /// # Errors
    ///
    /// Those of `read`.
    #[tactic(auto, unfolding(crate::specs::Reading::read_policy))]
    pub fn read_with(
        alloc: Global,
        kept: &mut ReusableScratch,
        text: &[u8],
    ) -> Result<Policy, PolicyFault>
        ensures { Gives policy_cause policy_document result (read_policy text.now) }
    {
        if text.len() > ReusableScratch::MOST_BYTES {
            return Policy::read(alloc, text);
        }
        let mut unusual = Tree::Null;
        let (tree, quoted) = kept.read_and_count(alloc, &mut unusual, text)?;
        if quoted > 0 {
            return Err(PolicyFault::Decimal);
        }
        policy_of(alloc, text, &tree)
    }

    /// The policy's identifier.
    pub fn id(&self) -> Id
        ensures { result ≡ (policy_document self.now).id }
    {
        self.id
    }

    /// The moment from which the policy is in force.
    pub fn start(&self) -> Moment
        ensures { result ≡ (policy_document self.now).start }
    {
        self.start
    }

    /// The moment from which the policy is no longer in force. Where it isn't after the start, the
    /// policy is never in force.
    pub fn end(&self) -> Option<Moment>
        ensures { result ≡ (policy_document self.now).end }
    {
        self.end
    }

    /// The operators that the policy applies to; an empty list means all.
    pub fn providers(&self) -> &[Id]
        ensures { result.now ≡ (policy_document self.now).providers }
    {
        &self.providers
    }

    /// The policies that this one replaces.
    pub fn previous(&self) -> &[Id]
        ensures { result.now ≡ (policy_document self.now).previous }
    {
        &self.previous
    }

    /// The rules, the most specific first.
    pub fn rules(&self) -> &[Rule]
        ensures { map rule_document result.now ≡ (policy_document self.now).rules }
    {
        &self.rules
    }

    /// The author's document, with every member as it was read. It is parsed again from its text.
    ///
    /// # Errors
    ///
    /// Out of memory.
    #[tactic(auto, unfolding(crate::specs::Policy::tree_of))]
    pub fn tree(&self, alloc: Global) -> Result<Tree, AllocError>
        ensures { IfOk result (λ t. view t ≡ (policy_document self.now).tree) }
    {
        match read_tree(alloc, &self.text) {
            Ok(tree) => Ok(tree),
            Err(_) => Err(AllocError),
        }
    }

    /// The author's document, with every member as it was read, and with `published_date` set where
    /// a moment is given: in place of the author's own, or else at its place in the order of names.
    ///
    /// # Errors
    ///
    /// Out of memory.
    pub fn served(&self, alloc: Global, published: Option<Moment>) -> Result<Tree, AllocError>
        ensures { IfOk result (λ t. view t ≡ served (policy_document self.now) published) }
    {
        let tree = self.tree(alloc)?;
        match published {
            Some(moment) => with_published_date(alloc, &tree, moment),
            None => Ok(tree),
        }
    }
}
