//! Which vehicles a rule is for, whatever their position and the time.

ghost use Rattle.std.specs.Prelude.{◌≡◌, bytes_eq, map};
ghost use Rattle.std.specs.List.{list_any};
ghost use Rattle.mds_policy.specs.Policy.{rule_document, states_document};
ghost use Rattle.mds_match.specs.Matching.{is_evaluated, contains, shares, empty_or, state_fits};
ghost use Rattle.mds_match.specs.Resolved.{is_meant};
ghost use Rattle.mds_match.specs.Row.{row_of};

use mds_match::Vehicle;
use mds_policy::{Kind, Rule, StateEvents};
use mds_text::Token;

/// Whether rules of this kind are evaluated.
pub(crate) fn is_evaluated(kind: Kind) -> bool
    ensures { result ≡ is_evaluated kind }
{
    match kind {
        Kind::Count => true,
        Kind::Time(_) => true,
        Kind::Other => false,
    }
}

/// Whether the vehicle's type, propulsion, state and last events match the rule.
pub(crate) fn is_meant(rule: &Rule, vehicle: &Vehicle) -> bool
    ensures { result ≡ is_meant (rule_document rule.now) (row_of vehicle.now) }
{
    has_or_all(&rule.vehicle_types, vehicle.vehicle_type())
        && shares_or_all(&rule.propulsion_types, vehicle.propulsion())
        && state_fits_or_all(&rule.states, vehicle)
}

fn has_or_all(words: &[Token], word: Token) -> bool
    ensures { result ≡ empty_or words.now (contains words.now word) }
{
    words.is_empty() || contains(words, word)
}

fn shares_or_all(words: &[Token], others: &[Token]) -> bool
    ensures { result ≡ empty_or words.now (shares words.now others.now) }
{
    words.is_empty() || shares(words, others)
}

fn state_fits_or_all(states: &[StateEvents], vehicle: &Vehicle) -> bool
    ensures { result
        ≡ empty_or (map states_document states.now) (list_any (state_fits (row_of vehicle.now)) (map states_document states.now)) }
{
    states.is_empty() || any_state_fits(states, vehicle)
}

fn any_state_fits(states: &[StateEvents], vehicle: &Vehicle) -> bool
    ensures { result
        ≡ list_any (λ s. state_fits (row_of vehicle.now) (states_document s)) states.now }
{
    states.iter().any(|states| state_fits(states, vehicle))
}

fn state_fits(states: &StateEvents, vehicle: &Vehicle) -> bool
    ensures { result ≡ state_fits (row_of vehicle.now) (states_document states.now) }
{
    is_word(states.state, vehicle.state()) && shares_or_all(&states.events, vehicle.events())
}

fn contains(words: &[Token], word: Token) -> bool
    ensures { result ≡ contains words.now word }
{
    words.iter().any(|other| is_word(word, *other))
}

fn shares(words: &[Token], others: &[Token]) -> bool
    ensures { result ≡ shares words.now others.now }
{
    words.iter().any(|word| contains(others, *word))
}

fn is_word(word: Token, other: Token) -> bool
    ensures { result ≡ bytes_eq word other }
{
    word == other
}
