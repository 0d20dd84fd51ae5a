//! The rules of an imported policy: which are evaluated, and whether their bounds are plain numbers.
ghost use Rattle.std.specs.Prelude.{◌≡◌, IfOk, map, option_map};
ghost use Rattle.std.specs.List.{filter_map};
ghost use Rattle.mds_text.specs.View.{view};
ghost use Rattle.cli_documents.specs.Documents.{is_judged, is_fractional, fraction_in, fraction_among, fraction_of, rules_of, unjudged_id, unjudged};

use crate::drafting::or_none;
use crate::member::{list_member, text_member};
use mds_text::{Tree, is_quoted};
use std::alloc::{AllocError, Global};

/// Whether a rule is of a type that is evaluated.
fn is_judged(rule: &Tree) -> bool
    ensures { result ≡ is_judged (view rule.now) }
{
    match text_member(rule, "rule_type") {
        Some(kind) => kind == "count" || kind == "time",
        None => false,
    }
}

/// Whether a bound was written as a number that isn't plain, as 7.5 or 1e3.
fn is_fractional(bound: Option<&str>) -> bool
    ensures { result ≡ is_fractional (option_map (λ written. written.now) bound.entry) }
{
    match bound {
        Some(written) => is_quoted(written.as_bytes()),
        None => false,
    }
}

/// The first bound of an evaluated rule that was written as such a number.
fn fraction_in(rule: &Tree) -> Option<&'static str>
    ensures { option_map (λ name. name.now) result ≡ fraction_in (view rule.now) }
{
    if !is_judged(rule) {
        None
    } else if is_fractional(text_member(rule, "minimum")) {
        Some("minimum")
    } else if is_fractional(text_member(rule, "maximum")) {
        Some("maximum")
    } else {
        None
    }
}

fn fraction_among(rules: &[Tree]) -> Option<&'static str>
    ensures { option_map (λ name. name.now) result ≡ fraction_among (map view rules.now) }
{
    for rule in rules {
        if let Some(name) = fraction_in(rule) {
            return Some(name);
        }
    }
    None
}

/// The rules of a policy; none where they aren't a list.
fn rules_of(policy: &Tree) -> &[Tree]
    ensures { map view result.now ≡ rules_of (view policy.now) }
{
    or_none(list_member(policy, "rules"))
}

/// The first bound, among a policy's evaluated rules, that was written as a number that isn't plain.
pub(crate) fn fraction_of(policy: &Tree) -> Option<&'static str>
    ensures { option_map (λ name. name.now) result ≡ fraction_of (view policy.now) }
{
    fraction_among(rules_of(policy))
}

/// The identifier of a rule that isn't evaluated, as it stands, or the empty text where it has none; `None` for one
/// that is.
fn unjudged_rule_id(rule: &Tree) -> Option<&str>
    ensures { option_map (λ id. id.now) result ≡ unjudged_id (view rule.now) }
{
    if is_judged(rule) {
        return None;
    }
    match text_member(rule, "rule_id") {
        Some(id) => Some(id),
        None => Some(""),
    }
}

/// The rules of a policy that the server stores and doesn't evaluate, in their order: each by its identifier as it
/// stands, or by the empty text where it has none.
pub fn unjudged_rule_ids(alloc: Global, policy: &Tree) -> Result<Vec<&str>, AllocError>
    ensures { IfOk result (λ ids. map (λ id. id.now) ids.items ≡ unjudged (view policy.now)) }
{
    let mut ids = Vec::new(alloc);
    for rule in rules_of(policy) {
        if let Some(id) = unjudged_rule_id(rule) {
            ids.push(id)?;
        }
    }
    Ok(ids)
}
