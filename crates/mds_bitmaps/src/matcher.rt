//! The bitmap of a policy's rules that a vehicle meets.
ghost use Rattle.std.specs.Prelude.{◌≡◌, ◌≤◌, IfOk, map, length};
ghost use Rattle.std.specs.List.{list_any};
ghost use Rattle.mds_geometry.specs.Area.{area_holds};
ghost use Rattle.mds_geometry.specs.declared.position.Position.{Position};
ghost use Rattle.mds_policy.specs.Policy.{rule_document};
ghost use Rattle.mds_match.specs.Matching.{in_place};
ghost use Rattle.mds_match.specs.Row.{Row, row_of};
ghost use Rattle.mds_bitmaps.specs.Masks.{matches};
ghost use Rattle.mds_bitmaps.specs.Masked.{masked_matches};

use crate::bits::with_bit;
use crate::criteria::{is_evaluated, is_meant};
use mds_geometry::Area;
use mds_match::{Places, Vehicle};
use mds_policy::{Policy, Rule};
use mds_text::Id;
use std::alloc::{AllocError, Global};

/// A rule with the areas of its geographies looked up.
#[derive(Drop)]
pub(crate) struct RuleMatcher<'a> {
    rule: &'a Rule,
    is_evaluated: bool,
    areas: Vec<&'a Area>,
}

/// Makes bitmaps of the rules that vehicles meet. It has the rules of a policy with the areas of
/// their geographies looked up: one look-up for each geography serves many vehicles. It does not
/// depend on the time.
#[derive(Drop)]
pub struct PolicyMatcher<'a> {
    rules: Vec<RuleMatcher<'a>>,
}

impl<'a> PolicyMatcher<'a> {
    ghost use Rattle.std.specs.Prelude.{◌≤◌, ℕ, List, IfOk, length};
    ghost use Rattle.mds_geometry.specs.declared.position.Position.{Position};
    ghost use Rattle.mds_policy.specs.Policy.{policy_document, Policy as Document};
    ghost use Rattle.mds_match.specs.Row.{row_of};
    ghost use Rattle.mds_bitmaps.specs.Masks.{IsMask};
    ghost use Rattle.mds_bitmaps.specs.Masked.{IsMasked};

    /// Looks up the geographies of a policy's rules, and decides which of the rules are evaluated.
    ///
    /// # Errors
    ///
    /// Out of memory.
    pub fn new<P: Places>(
        alloc: Global,
        policy: &'a Policy,
        places: &'a P,
    ) -> Result<PolicyMatcher<'a>, AllocError>
        ensures { IfOk result (λ masked. IsMasked masked (policy_document policy.now) (P.polygons places.now)) }
    {
        let rules = rule_matchers(alloc, policy.rules(), places)?;
        Ok(PolicyMatcher { rules })
    }

    /// The bitmap of the rules that a vehicle meets whenever they are open: those that are
    /// evaluated and that match its type, propulsion, state, last events and position (MDS 2.0
    /// Policy, rules). Allocates nothing.
    pub fn bitmap(&self, vehicle: &Vehicle) -> u64
        requires { length self.now.rules.items ≤ 64 }
        ensures { (policy : Document) (polygons : List ℕ → List (List (List Position))) →
            IsMasked self.now policy polygons → IsMask policy polygons (row_of vehicle.now) result }
    {
        let mut mask = 0;
        for (number, rule) in self.rules.iter().enumerate() {
            mask = with_bit(mask, number, matches(rule, vehicle));
        }
        mask
    }
}

fn rule_matchers<'a, P: Places>(
    alloc: Global,
    rules: &'a [Rule],
    places: &'a P,
) -> Result<Vec<RuleMatcher<'a>>, AllocError>
    ensures { IfOk result (λ masked. (row : Row) →
        map (masked_matches row) masked.items ≡ map (λ r. matches (P.polygons places.now) row (rule_document r)) rules.now) }
{
    let mut masked = Vec::with_capacity(alloc, rules.len())?;
    for rule in rules {
        masked.push(rule_matcher(alloc, rule, places)?)?;
    }
    Ok(masked)
}

fn rule_matcher<'a, P: Places>(
    alloc: Global,
    rule: &'a Rule,
    places: &'a P,
) -> Result<RuleMatcher<'a>, AllocError>
    ensures { IfOk result (λ masked. (row : Row) →
        masked_matches row masked ≡ matches (P.polygons places.now) row (rule_document rule.now)) }
{
    let areas = areas_of(alloc, &rule.geographies, places)?;
    let is_evaluated = is_evaluated(rule.kind);
    Ok(RuleMatcher {
        rule,
        is_evaluated,
        areas,
    })
}

/// The areas of the geographies that are known.
fn areas_of<'a, P: Places>(
    alloc: Global,
    geographies: &[Id],
    places: &'a P,
) -> Result<Vec<&'a Area>, AllocError>
    ensures { IfOk result (λ areas. (at : Position) →
        list_any (λ area. area_holds area.now at) areas.items ≡ in_place geographies.now (P.polygons places.now) at) }
{
    let mut areas = Vec::new(alloc);
    for id in geographies {
        if let Some(area) = places.area(*id) {
            areas.push(area)?;
        }
    }
    Ok(areas)
}

/// Whether a vehicle meets the rule whenever it is open. The position is tested first, since few
/// positions pass.
fn matches(rule: &RuleMatcher<'_>, vehicle: &Vehicle) -> bool
    ensures { result ≡ masked_matches (row_of vehicle.now) rule.now }
{
    rule.is_evaluated && in_areas(rule, vehicle) && is_meant(rule.rule, vehicle)
}

fn in_areas(rule: &RuleMatcher<'_>, vehicle: &Vehicle) -> bool
    ensures { result ≡ list_any (λ area. area_holds area.now vehicle.now.position) rule.now.areas.items }
{
    for area in &rule.areas {
        if area.holds(vehicle.position) {
            return true;
        }
    }
    false
}
