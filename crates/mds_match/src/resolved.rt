//! A policy's rules with their geographies looked up, at one local time.
ghost use Rattle.std.specs.Prelude.{◌≡◌, ◌&&◌, IfOk, List, map, position};
ghost use Rattle.std.specs.List.{list_any};
ghost use Rattle.mds_geometry.specs.Area.{area_holds};
ghost use Rattle.mds_policy.specs.Policy.{rule_document};
ghost use Rattle.mds_match.specs.Matching.{is_evaluated, is_open, meets, in_place};
ghost use Rattle.mds_match.specs.Resolved.{can_meet, is_meant, resolved_meets};
ghost use Rattle.mds_match.specs.Row.{Row, row_of};

use crate::local::Local;
use crate::matching::{is_evaluated, is_for, is_meant};
use crate::places::Places;
use crate::vehicle::Vehicle;
use crate::window::open_at;
use mds_geometry::{Area, Position};
use mds_policy::{Policy, Rule};
use mds_text::{Id, Token};
use std::alloc::{AllocError, Global};

/// A rule at one local time, with the areas of its geographies looked up.
#[derive(Drop)]
pub(crate) struct ResolvedRule<'a> {
    rule: &'a Rule,
    is_open: bool,
    areas: Vec<&'a Area>,
}

/// The rules of a policy at one local time, each with the areas of its geographies looked up: one
/// look-up for each geography serves many vehicles.
#[derive(Drop)]
pub struct ResolvedPolicy<'a> {
    rules: Vec<ResolvedRule<'a>>,
}

impl<'a> ResolvedPolicy<'a> {
    ghost use Rattle.std.specs.Prelude.{◌≡◌, IfOk};
    ghost use Rattle.mds_policy.specs.Policy.{policy_document};
    ghost use Rattle.mds_match.specs.Resolved.{first_among, first_of, meets_number, Finds, Suffices};
    ghost use Rattle.mds_match.specs.Row.{row_of};

    /// Looks up the geographies of a policy's rules, and decides which of the rules are evaluated
    /// and open.
    ///
    /// # Errors
    ///
    /// Out of memory.
    pub fn new<P: Places>(
        alloc: Global,
        policy: &'a Policy,
        places: &'a P,
        local: Local,
    ) -> Result<ResolvedPolicy<'a>, AllocError>
        ensures { IfOk result (λ resolved. Finds resolved (policy_document policy.now) (P.polygons places.now) local) }
    {
        let rules = resolve_all(alloc, policy.rules(), places, local)?;
        Ok(ResolvedPolicy { rules })
    }

    /// The index of the first rule that a vehicle meets, if there is one (MDS 2.0 Policy, order of
    /// operations). Allocates nothing.
    pub fn first(&self, vehicle: &Vehicle) -> Option<usize>
        ensures { result ≡ first_of self.now (row_of vehicle.now) }
    {
        for (number, rule) in self.rules.iter().enumerate() {
            if meets(rule, vehicle) {
                return Some(number);
            }
        }
        None
    }

    /// The indices, ascending, of the rules that vehicles of this type in this state can meet:
    /// those that are open and for such vehicles, wherever a vehicle is.
    ///
    /// # Errors
    ///
    /// Out of memory.
    pub fn candidates(
        &self,
        alloc: Global,
        vehicle_type: Token,
        state: Token,
    ) -> Result<Vec<usize>, AllocError>
        ensures { IfOk result (λ numbers. Suffices self.now vehicle_type state numbers.items) }
    {
        let mut numbers = Vec::new(alloc);
        for (number, rule) in self.rules.iter().enumerate() {
            if can_meet(rule, vehicle_type, state) {
                numbers.push(number)?;
            }
        }
        Ok(numbers)
    }

    /// The first of these indices whose rule a vehicle meets, if there is one. Allocates nothing.
    pub fn first_among(&self, numbers: &[usize], vehicle: &Vehicle) -> Option<usize>
        ensures { result ≡ first_among self.now numbers.now (row_of vehicle.now) }
    {
        for number in numbers {
            if self.is_met(*number, vehicle) {
                return Some(*number);
            }
        }
        None
    }

    fn is_met(&self, number: usize, vehicle: &Vehicle) -> bool
        ensures { result ≡ meets_number self.now (row_of vehicle.now) number }
    {
        match self.rules.get(number) {
            Some(rule) => meets(rule, vehicle),
            None => false,
        }
    }
}

fn resolve_all<'a, P: Places>(
    alloc: Global,
    rules: &'a [Rule],
    places: &'a P,
    local: Local,
) -> Result<Vec<ResolvedRule<'a>>, AllocError>
    ensures { IfOk result (λ resolved. (row : Row) →
        map (λ r. resolved_meets r row) resolved.items ≡ map (λ r. meets (rule_document r) (P.polygons places.now) row local) rules.now) }
{
    let mut resolved = Vec::with_capacity(alloc, rules.len())?;
    for rule in rules {
        resolved.push(resolve(alloc, rule, places, local)?)?;
    }
    Ok(resolved)
}

fn resolve<'a, P: Places>(
    alloc: Global,
    rule: &'a Rule,
    places: &'a P,
    local: Local,
) -> Result<ResolvedRule<'a>, AllocError>
    ensures { IfOk result (λ resolved. (row : Row) →
        resolved_meets resolved row ≡ meets (rule_document rule.now) (P.polygons places.now) row local) }
{
    let areas = areas_of(alloc, &rule.geographies, places)?;
    let is_open = is_evaluated(rule.kind) && open_at(rule, local);
    Ok(ResolvedRule {
        rule,
        is_open,
        areas,
    })
}

/// The areas of the geographies that are known.
fn areas_of<'a, P: Places>(
    alloc: Global,
    geographies: &[Id],
    places: &'a P,
) -> Result<Vec<&'a Area>, AllocError>
    ensures { IfOk result (λ areas. (at : Position) →
        list_any (λ area. area_holds area.now at) areas.items ≡ in_place geographies.now (P.polygons places.now) at) }
{
    let mut areas = Vec::new(alloc);
    for id in geographies {
        if let Some(area) = places.area(*id) {
            areas.push(area)?;
        }
    }
    Ok(areas)
}

/// Whether a vehicle meets the rule. The position is tested first, since few positions pass.
fn meets(rule: &ResolvedRule<'_>, vehicle: &Vehicle) -> bool
    ensures { result ≡ resolved_meets rule.now (row_of vehicle.now) }
{
    rule.is_open && in_areas(&rule.areas, &vehicle.position) && is_meant(rule.rule, vehicle)
}

/// Whether vehicles of this type in this state can meet the rule.
fn can_meet(rule: &ResolvedRule<'_>, vehicle_type: Token, state: Token) -> bool
    ensures { result ≡ can_meet rule.now vehicle_type state }
{
    rule.is_open && is_for(rule.rule, vehicle_type, state)
}

fn in_areas(areas: &[&Area], position: &Position) -> bool
    ensures { result ≡ list_any (λ area. area_holds area.now position.now) areas.now }
{
    for area in areas {
        if area.holds(*position) {
            return true;
        }
    }
    false
}
