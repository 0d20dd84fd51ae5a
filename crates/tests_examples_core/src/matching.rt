//! Which vehicles meet a rule, and the rule of a policy by which a vehicle is caught.
#![tactic(auto, unfolding(crate::specs::Computed::places))]

ghost use Rattle.std.specs.Prelude.{◌≡◌, [], ◌∷◌, IsTrue, Some, None, codes};
ghost use Rattle.mds_match.specs.Examples.{at};
ghost use Rattle.mds_match.specs.Matching.{meets, first, caught};
ghost use Rattle.tests_examples_core.specs.Geographies.{areas};
ghost use Rattle.tests_examples_core.specs.Ids.{id, wide_id};
ghost use Rattle.tests_examples_core.specs.Policies.{downtown, citywide, two_rules, with_rules, for_states, for_types, for_propulsion, for_geographies, on_sundays, state};
ghost use Rattle.tests_examples_core.specs.Vehicles.{first_vehicle, second_vehicle, far_vehicle};

/// A vehicle that meets two rules is caught by the first alone; one that doesn't meet the first is
/// caught by the second.
pub fn first_rule_alone()
    ensures meets_second { IsTrue (meets citywide areas first_vehicle (at 4 0 0 2)) }
    ensures caught_by_first { first two_rules areas first_vehicle (at 4 0 0 2) ≡ Some 0 }
    ensures caught_by_second { first two_rules areas second_vehicle (at 4 0 0 2) ≡ Some 1 }
    ensures caught_by_none { first two_rules areas far_vehicle (at 4 0 0 2) ≡ None }
    ensures of_second { caught two_rules 1 areas (first_vehicle ∷ second_vehicle ∷ far_vehicle ∷ []) (at 4 0 0 2) ≡ second_vehicle ∷ [] }
{}

/// A rule that is closed catches no vehicle, and leaves its vehicles to the rules after it.
pub fn closed_rule()
    ensures thursday { first (with_rules (on_sundays downtown ∷ citywide ∷ [])) areas first_vehicle (at 4 0 0 2) ≡ Some 1 }
    ensures sunday { first (with_rules (on_sundays downtown ∷ citywide ∷ [])) areas first_vehicle (at 0 0 0 2) ≡ Some 0 }
{}

/// A state without event types means all events of that state; with event types one has to be shared
/// with the vehicle's last report.
pub fn states()
    ensures all_events { IsTrue (meets (for_states (state (codes "available") [] ∷ [])) areas first_vehicle (at 4 0 0 2)) }
    ensures shared_event { IsTrue (meets (for_states (state (codes "available") (codes "on_hours" ∷ codes "trip_end" ∷ []) ∷ [])) areas first_vehicle (at 4 0 0 2)) }
    ensures other_event { ¬ IsTrue (meets (for_states (state (codes "available") (codes "on_hours" ∷ []) ∷ [])) areas first_vehicle (at 4 0 0 2)) }
    ensures other_state { ¬ IsTrue (meets (for_states (state (codes "on_trip") [] ∷ [])) areas first_vehicle (at 4 0 0 2)) }
    ensures one_of_two { IsTrue (meets (for_states (state (codes "on_trip") [] ∷ state (codes "available") [] ∷ [])) areas first_vehicle (at 4 0 0 2)) }
{}

/// Where a rule lists types the vehicle's has to be among them. A rule in no geography, or in an unknown one, is met
/// by no vehicle.
pub fn types_and_geographies()
    ensures type_listed { IsTrue (meets (for_types (codes "car" ∷ codes "scooter" ∷ [])) areas first_vehicle (at 4 0 0 2)) }
    ensures other_types { ¬ IsTrue (meets (for_types (codes "car" ∷ codes "bicycle" ∷ [])) areas first_vehicle (at 4 0 0 2)) }
    ensures propulsion_shared { IsTrue (meets (for_propulsion (codes "human" ∷ codes "electric" ∷ [])) areas first_vehicle (at 4 0 0 2)) }
    ensures other_propulsion { ¬ IsTrue (meets (for_propulsion (codes "human" ∷ [])) areas first_vehicle (at 4 0 0 2)) }
    ensures nowhere { ¬ IsTrue (meets (for_geographies []) areas first_vehicle (at 4 0 0 2)) }
    ensures unknown { ¬ IsTrue (meets (for_geographies (id 1 9 ∷ [])) areas first_vehicle (at 4 0 0 2)) }
    ensures one_of_two { IsTrue (meets (for_geographies (id 1 9 ∷ wide_id ∷ [])) areas second_vehicle (at 4 0 0 2)) }
{}
