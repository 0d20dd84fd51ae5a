//! Fronts, and the view that they continue.
#![tactic(auto, unfolding(tests_examples_core::specs::Computed::documents))]

ghost use Rattle.std.specs.Prelude.{◌≡◌, ◌∷◌, [], true, false, codes};
ghost use Rattle.mds_machine.specs.Views.{published};
ghost use Rattle.mds_machine.specs.Fronts.{AreRising, AreAnswers, last_front, followed, continued, is_served, served_in, requests_in, replies_in};
ghost use Rattle.tests_examples_core.specs.Histories.{question, answer};
ghost use Rattle.tests_examples_core.specs.Ids.{cap_id};
ghost use Rattle.tests_examples_core.specs.Machine.{done, report};
ghost use Rattle.tests_examples_core.specs.Publications.{first_publication, withdrawal, then_withdrawn};
ghost use Rattle.tests_examples_core.specs.Requests.{alfa, configuration};
ghost use Rattle.tests_examples_server.specs.Turns.{first_front, reported, counted, nothing_in_force, three_turns, two_turns, seen_by_three, without_memory, without_snapshot, by_another, without_route};

/// Each front begins with the one before it, and may be the same. The last front is that of the last turn.
pub fn rising_fronts()
    ensures longer { AreRising [] three_turns }
    ensures same { AreRising first_front (counted ∷ counted ∷ []) }
    ensures last { last_front [] three_turns ≡ then_withdrawn }
    ensures no_turn { last_front first_front [] ≡ first_front }
{}

/// Fronts don't rise where one is shorter than the one before or than what was known, nor where one has what was
/// known, but not as its prefix.
pub fn not_rising_fronts()
    ensures shorter { ¬ (AreRising [] (nothing_in_force ∷ counted ∷ [])) }
    ensures forgotten { ¬ (AreRising first_front (reported ∷ [])) }
    ensures not_first { ¬ (AreRising (withdrawal 3000 cap_id ∷ []) (nothing_in_force ∷ [])) }
{}

/// A view is extended by what it doesn't show yet of a front.
pub fn followed_views()
    ensures both { followed [] then_withdrawn ≡ published first_publication ∷ published (withdrawal 3000 cap_id) ∷ [] }
    ensures one_more { followed (published first_publication ∷ []) then_withdrawn ≡ published first_publication ∷ published (withdrawal 3000 cap_id) ∷ [] }
    ensures shown_before { followed (published first_publication ∷ []) first_front ≡ published first_publication ∷ [] }
{}

/// A view is continued by each turn's front and then its request. A publication is in it once, before the first
/// request that is answered at it.
pub fn continued_views()
    ensures by_three { continued [] three_turns ≡ seen_by_three }
    ensures in_two_parts { continued (continued [] two_turns) (nothing_in_force ∷ []) ≡ seen_by_three }
    ensures by_none { continued seen_by_three [] ≡ seen_by_three }
    ensures requests { requests_in two_turns ≡ report 2000 (codes "401") ∷ question ∷ [] }
    ensures replies { replies_in two_turns ≡ done (codes "new") ∷ answer ∷ [] }
{}

/// A turn is served where the request is the operator's own and the reply isn't 503, also where it is another
/// refusal.
pub fn served_turns()
    ensures success { is_served configuration 0 counted ≡ true }
    ensures refusal { is_served configuration 0 without_route ≡ true }
    ensures memory { is_served configuration 0 (without_memory counted) ≡ false }
    ensures snapshot { is_served configuration 0 (without_snapshot counted) ≡ false }
    ensures of_another { is_served configuration 0 by_another ≡ false }
    ensures among { served_in configuration 0 (without_memory reported ∷ reported ∷ by_another ∷ counted ∷ []) ≡ two_turns }
{}

/// Each reply of the three turns is the answer in the empty view continued up to its request.
pub fn answers()
    ensures of_three { AreAnswers configuration alfa [] three_turns }
{}
