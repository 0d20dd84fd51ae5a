//! Reads a policy and its rules in the order of their tables (MDS 2.0 Policy, policies and rules).
ghost use Rattle.std.specs.Prelude.{◌≡◌, map, Ok};
ghost use Rattle.mds_text.specs.Fault.{Gives, text_cause};
ghost use Rattle.mds_text.specs.Fields.{each};
ghost use Rattle.mds_text.specs.Reading.{read_text};
ghost use Rattle.mds_json.specs.Node.{node_view};
ghost use Rattle.mds_policy.specs.Fault.{policy_cause};
ghost use Rattle.mds_policy.specs.Policy.{rule_document, policy_document};
ghost use Rattle.mds_policy.specs.Reading.{few_rules, rule_of, policy_of};

use crate::bounds::bounds_of;
use crate::fault::PolicyFault;
use crate::kind::kind_of;
use crate::lists::{optional_ids, optional_tokens};
use crate::policy::Policy;
use crate::rule::Rule;
use crate::states::states_at;
use crate::window::window_of;
use mds_json::{
    Node, document_of, moment_at, object_of, required_id, required_ids, required_list,
    required_moment, required_text, required_token, text_at, token_at,
};
use mds_text::{Field, TextFault};
use std::alloc::Global;

/// The most rules of a policy.
const MOST_RULES: usize = 64;

/// The policy of this text, of which `tree` is the document.
#[tactic(auto, unfolding(crate::specs::Reading::policy_of, crate::specs::Policy::tree_of))]
pub(crate) fn policy_of(alloc: Global, text: &[u8], tree: &Node<'_>) -> Result<Policy, PolicyFault>
    requires { read_text text.now ≡ Ok (node_view tree.now) }
    ensures { Gives policy_cause policy_document result (policy_of (node_view tree.now)) }
{
    let document = document_of(tree)?;
    let id = required_id(document, Field::PolicyId)?;
    required_text(document, Field::Name)?;
    text_at(document, Field::Description)?;
    let start = required_moment(document, Field::StartDate)?;
    let end = moment_at(document, Field::EndDate)?;
    let providers = optional_ids(alloc, document, Field::ProviderIds)?;
    let previous = optional_ids(alloc, document, Field::PrevPolicies)?;
    let list = required_list(alloc, document, Field::Rules)?;
    let entries = list.as_slice();
    if entries.len() > MOST_RULES {
        return Err(PolicyFault::TooManyRules);
    }
    let rules = rules_of(alloc, entries)?;
    Ok(Policy {
        id,
        start,
        end,
        providers,
        previous,
        rules,
        text: text.to_vec(alloc)?,
    })
}

fn rules_of(alloc: Global, entries: &[Node<'_>]) -> Result<Vec<Rule>, TextFault>
    ensures { Gives text_cause (λ v. map rule_document v.items) result (each rule_of (map node_view entries.now)) }
{
    let mut rules = Vec::with_capacity(alloc, entries.len())?;
    for entry in entries {
        rules.push(rule_of(alloc, entry)?)?;
    }
    Ok(rules)
}

#[tactic(auto, unfolding(crate::specs::Reading::rule_of))]
fn rule_of(alloc: Global, entry: &Node<'_>) -> Result<Rule, TextFault>
    ensures { Gives text_cause rule_document result (rule_of (node_view entry.now)) }
{
    let rule = object_of(entry, Field::Rules)?;
    let id = required_id(rule, Field::RuleId)?;
    required_text(rule, Field::Name)?;
    let rule_type = required_token(rule, Field::RuleType)?;
    let geographies = required_ids(alloc, rule, Field::Geographies)?;
    let states = states_at(alloc, rule)?;
    let vehicle_types = optional_tokens(alloc, rule, Field::VehicleTypes)?;
    let propulsion_types = optional_tokens(alloc, rule, Field::PropulsionTypes)?;
    let bounds = bounds_of(rule)?;
    let units = token_at(rule, Field::RuleUnits)?;
    let window = window_of(alloc, rule)?;
    Ok(Rule {
        id,
        kind: kind_of(rule_type, units),
        geographies,
        states,
        vehicle_types,
        propulsion_types,
        bounds,
        window,
    })
}
