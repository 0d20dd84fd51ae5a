//! Whether a vehicle meets a rule (MDS 2.0 Policy, rules).
ghost use Rattle.std.specs.Prelude.{◌≡◌, bytes_eq, map, position};
ghost use Rattle.std.specs.List.{list_any};
ghost use Rattle.mds_policy.specs.Policy.{rule_document, policy_document, states_document};
ghost use Rattle.mds_match.specs.Matching.{is_evaluated, contains, shares, empty_or, state_fits, in_place, meets, first};
ghost use Rattle.mds_match.specs.Resolved.{is_for, is_meant, names_state};
ghost use Rattle.mds_match.specs.Row.{row_of};

use crate::local::Local;
use crate::places::Places;
use crate::vehicle::Vehicle;
use crate::window::open_at;
use mds_geometry::Position;
use mds_policy::{Kind, Policy, Rule, StateEvents};
use mds_text::{Id, Token};

/// Whether a vehicle meets a rule at a local time (MDS 2.0 Policy, rules): the rule is evaluated
/// and open, and the vehicle's type, propulsion, state, last events and position match.
pub fn meets<P: Places>(rule: &Rule, places: &P, vehicle: &Vehicle, local: Local) -> bool
    ensures { result
        ≡ meets (rule_document rule.now) (P.polygons places.now) (row_of vehicle.now) local }
{
    is_evaluated(rule.kind)
        && open_at(rule, local)
        && is_meant(rule, vehicle)
        && in_place(&rule.geographies, places, vehicle.position)
}

/// Whether the vehicle's type, propulsion, state and last events match the rule.
pub(crate) fn is_meant(rule: &Rule, vehicle: &Vehicle) -> bool
    ensures { result ≡ is_meant (rule_document rule.now) (row_of vehicle.now) }
{
    has_or_all(&rule.vehicle_types, vehicle.vehicle_type())
        && shares_or_all(&rule.propulsion_types, vehicle.propulsion())
        && state_fits_or_all(&rule.states, vehicle)
}

/// Whether the rule is for vehicles of this type in this state, whatever event types it lists for
/// the state.
pub(crate) fn is_for(rule: &Rule, vehicle_type: Token, state: Token) -> bool
    ensures { result ≡ is_for (rule_document rule.now) vehicle_type state }
{
    has_or_all(&rule.vehicle_types, vehicle_type) && names_state_or_all(&rule.states, state)
}

/// The index of the first rule of a policy that a vehicle meets, if there is one (MDS 2.0 Policy,
/// order of operations).
pub fn first<P: Places>(
    policy: &Policy,
    places: &P,
    vehicle: &Vehicle,
    local: Local,
) -> Option<usize>
    ensures { result
        ≡ first (policy_document policy.now) (P.polygons places.now) (row_of vehicle.now) local }
{
    first_of(policy.rules(), places, vehicle, local)
}

fn first_of<P: Places>(rules: &[Rule], places: &P, vehicle: &Vehicle, local: Local) -> Option<usize>
    ensures { result
        ≡ position (λ r. meets (rule_document r) (P.polygons places.now) (row_of vehicle.now) local) rules.now }
{
    rules
        .iter()
        .position(|rule| meets(rule, places, vehicle, local))
}

pub(crate) fn is_evaluated(kind: Kind) -> bool
    ensures { result ≡ is_evaluated kind }
{
    match kind {
        Kind::Count => true,
        Kind::Time(_) => true,
        Kind::Other => false,
    }
}

fn contains(words: &[Token], word: Token) -> bool
    ensures { result ≡ contains words.now word }
{
    words.iter().any(|other| is_word(word, *other))
}

fn is_word(word: Token, other: Token) -> bool
    ensures { result ≡ bytes_eq word other }
{
    word == other
}

fn shares(words: &[Token], others: &[Token]) -> bool
    ensures { result ≡ shares words.now others.now }
{
    words.iter().any(|word| contains(others, *word))
}

fn has_or_all(words: &[Token], word: Token) -> bool
    ensures { result ≡ empty_or words.now (contains words.now word) }
{
    words.is_empty() || contains(words, word)
}

fn shares_or_all(words: &[Token], others: &[Token]) -> bool
    ensures { result ≡ empty_or words.now (shares words.now others.now) }
{
    words.is_empty() || shares(words, others)
}

fn state_fits(states: &StateEvents, vehicle: &Vehicle) -> bool
    ensures { result ≡ state_fits (row_of vehicle.now) (states_document states.now) }
{
    is_word(states.state, vehicle.state()) && shares_or_all(&states.events, vehicle.events())
}

fn state_fits_or_all(states: &[StateEvents], vehicle: &Vehicle) -> bool
    ensures { result
        ≡ empty_or (map states_document states.now) (list_any (state_fits (row_of vehicle.now)) (map states_document states.now)) }
{
    states.is_empty() || any_state_fits(states, vehicle)
}

fn any_state_fits(states: &[StateEvents], vehicle: &Vehicle) -> bool
    ensures { result
        ≡ list_any (λ s. state_fits (row_of vehicle.now) (states_document s)) states.now }
{
    states.iter().any(|states| state_fits(states, vehicle))
}

fn names_state_or_all(states: &[StateEvents], state: Token) -> bool
    ensures { result
        ≡ empty_or (map states_document states.now) (list_any (names_state state) (map states_document states.now)) }
{
    states.is_empty() || any_names_state(states, state)
}

fn any_names_state(states: &[StateEvents], state: Token) -> bool
    ensures { result
        ≡ list_any (λ s. names_state state (states_document s)) states.now }
{
    states.iter().any(|states| is_word(states.state, state))
}

fn in_place<P: Places>(geographies: &[Id], places: &P, position: Position) -> bool
    ensures { result ≡ in_place geographies.now (P.polygons places.now) position }
{
    geographies.iter().any(|id| places.holds(*id, position))
}
