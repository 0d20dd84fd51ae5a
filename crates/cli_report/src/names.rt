//! The names of policies and of their rules.
ghost use Rattle.std.specs.Prelude.{◌≡◌, [], IfOk, bytes_eq, find, map, option_map, slice_get};
ghost use Rattle.std.specs.Option.{option_map_or};
ghost use Rattle.mds_text.specs.View.{view};
ghost use Rattle.mds_policy.specs.Policy.{policy_document, rule_document};
ghost use Rattle.mds_catalog.specs.Catalogue.{lent_policy, publications_of};
ghost use Rattle.cli_report.specs.Names.{label_in, label_of, label_view, name_in, policies_in, rule_in, tree_policy, units_in};

use cli_documents::{list_member, text_member};
use mds_catalog::{Catalogue, Published};
use mds_policy::{Policy, Rule};
use mds_text::{Id, Tree};
use std::alloc::{AllocError, Global};

/// A policy with its document, which has the names.
#[derive(Drop)]
pub(crate) struct PolicyTree<'a> {
    policy: &'a Policy,
    tree: Tree,
}

/// The names of a policy and of a rule, its unit, and the rule. Contracts see a `Label`.
#[derive(Clone, Copy)]
pub(crate) struct RuleLabel<'a> {
    /// The policy's name; empty where it has none.
    pub(crate) policy: &'a [u8],
    /// The rule's name; empty where it has none.
    pub(crate) name: &'a [u8],
    /// The unit in the rule's document; empty where it has none.
    pub(crate) units: &'a [u8],
    /// The rule, where the policy is published.
    pub(crate) rule: Option<&'a Rule>,
}

/// The documents of published policies.
fn policy_trees<'a>(
    alloc: Global,
    policies: &[Published<'a, Policy>],
) -> Result<Vec<PolicyTree<'a>>, AllocError>
    ensures { IfOk result (λ trees. map tree_policy trees.items ≡ map (λ p. p.document) (map lent_policy policies.now)) }
{
    let mut trees = Vec::new(alloc);
    for published in policies {
        let policy = published.document;
        let tree = policy.tree(alloc)?;
        trees.push(PolicyTree { policy, tree })?;
    }
    Ok(trees)
}

/// The documents of all published policies, in the order of publication.
///
/// # Errors
///
/// Out of memory.
pub(crate) fn trees_in(
    alloc: Global,
    catalogue: &Catalogue,
) -> Result<Vec<PolicyTree<'_>>, AllocError>
    ensures { IfOk result (λ trees. map tree_policy trees.items ≡ policies_in (publications_of catalogue.now)) }
{
    let policies = catalogue.policies(alloc, None)?;
    policy_trees(alloc, &policies)
}

/// The policy with this identifier.
fn find_policy<'t, 'a>(trees: &'t [PolicyTree<'a>], id: Id) -> Option<&'t PolicyTree<'a>>
    ensures { option_map (λ t. tree_policy t.now) result ≡ find (λ p. bytes_eq p.id id) (map tree_policy trees.now) }
{
    for known in trees {
        if known.policy.id() == id {
            return Some(known);
        }
    }
    None
}

/// The name in a document; empty where it has none.
fn name_in(document: &Tree) -> &[u8]
    ensures { result.now ≡ name_in (view document.now) }
{
    match text_member(document, "name") {
        Some(name) => name.as_bytes(),
        None => b"",
    }
}

/// The document of the rule with this number, counted from 0.
fn rule_in(document: &Tree, number: usize) -> Option<&Tree>
    ensures { option_map (λ t. view t.now) result ≡ rule_in (view document.now) number }
{
    match list_member(document, "rules") {
        Some(rules) => rules.get(number),
        None => None,
    }
}

/// The name of the rule with this number; empty where it has none.
fn rule_name(document: &Tree, number: usize) -> &[u8]
    ensures { result.now ≡ option_map_or name_in (rule_in (view document.now) number) [] }
{
    match rule_in(document, number) {
        Some(rule) => name_in(rule),
        None => b"",
    }
}

/// The unit in a rule's document; empty where it has none.
fn units_in(document: &Tree) -> &[u8]
    ensures { result.now ≡ units_in (view document.now) }
{
    match text_member(document, "rule_units") {
        Some(units) => units.as_bytes(),
        None => b"",
    }
}

/// The unit of the rule with this number; empty where its document has none.
fn rule_units(document: &Tree, number: usize) -> &[u8]
    ensures { result.now ≡ option_map_or units_in (rule_in (view document.now) number) [] }
{
    match rule_in(document, number) {
        Some(rule) => units_in(rule),
        None => b"",
    }
}

/// The rule with this number.
fn rule_at(policy: &Policy, number: usize) -> Option<&Rule>
    ensures { option_map (λ r. rule_document r.now) result ≡ slice_get (policy_document policy.now).rules number }
{
    policy.rules().get(number)
}

/// The label of the rule with this number in a policy.
fn label_in<'t>(known: &'t PolicyTree<'_>, number: usize) -> RuleLabel<'t>
    ensures { label_view result ≡ label_in (tree_policy known.now) number }
{
    RuleLabel {
        policy: name_in(&known.tree),
        name: rule_name(&known.tree, number),
        units: rule_units(&known.tree, number),
        rule: rule_at(known.policy, number),
    }
}

/// The label of the rule with this number in the policy with this identifier; without names where there is none.
pub(crate) fn label_of<'t>(trees: &'t [PolicyTree<'_>], policy: Id, number: usize) -> RuleLabel<'t>
    ensures { label_view result ≡ label_of (map tree_policy trees.now) policy number }
{
    match find_policy(trees, policy) {
        Some(known) => label_in(known, number),
        None => RuleLabel {
            policy: b"",
            name: b"",
            units: b"",
            rule: None,
        },
    }
}
