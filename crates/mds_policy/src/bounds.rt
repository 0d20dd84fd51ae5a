//! The bounds of a rule (MDS 2.0 Policy, rules: minimum and maximum).
ghost use Rattle.std.specs.Prelude.{◌≡◌, ◌≤◌, Ok, Some, unwrap_or};
ghost use Rattle.mds_text.specs.Fault.{Gives, text_cause};
ghost use Rattle.mds_text.specs.Fields.{bound_of, most_bound, optional_at};
ghost use Rattle.mds_json.specs.Node.{node_view};
ghost use Rattle.mds_policy.specs.Reading.{bounds_of};

use crate::rule::Bounds;
use mds_json::{Node, bool_at, bound_at};
use mds_text::{Field, TextFault};

#[tactic(auto, unfolding(crate::specs::Reading::bounds_of))]
pub(crate) fn bounds_of(rule: &Node<'_>) -> Result<Bounds, TextFault>
    ensures { Gives text_cause (λ b. b) result (bounds_of (node_view rule.now)) }
{
    let minimum = small_bound_at(rule, Field::Minimum)?;
    let maximum = small_bound_at(rule, Field::Maximum)?;
    let inclusive_minimum = bool_at(rule, Field::InclusiveMinimum)?;
    let inclusive_maximum = bool_at(rule, Field::InclusiveMaximum)?;
    Ok(Bounds {
        minimum,
        maximum,
        inclusive_minimum: inclusive_minimum.unwrap_or(true),
        inclusive_maximum: inclusive_maximum.unwrap_or(true),
    })
}

fn small_bound_at(rule: &Node<'_>, field: Field) -> Result<Option<u32>, TextFault>
    ensures { Gives text_cause (λ b. b) result (optional_at bound_of (node_view rule.now) field) }
{
    match bound_at(rule, field)? {
        Some(bound) => Ok(Some(bound as u32)),
        None => Ok(None),
    }
}
