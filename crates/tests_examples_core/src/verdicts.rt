//! Verdicts on the rules of a policy.
#![tactic(auto, unfolding(crate::specs::Computed::documents, crate::specs::Computed::places))]

ghost use Rattle.std.specs.Prelude.{◌≡◌, [], ◌∷◌, ◌++◌, replicate, codes};
ghost use Rattle.mds_match.specs.Examples.{at};
ghost use Rattle.mds_policy.specs.declared.rule.Kind.TheVariants.{Count, Time, Other};
ghost use Rattle.mds_policy.specs.declared.rule.TimeUnit.TheVariants.{Hours};
ghost use Rattle.mds_text.specs.Printed.{printed};
ghost use Rattle.mds_verdict.specs.Verdict.{verdicts, reported, dwell, listed};
ghost use Rattle.mds_verdict.specs.declared.verdict.Status.TheVariants.{NotEvaluated, Inactive, Ok, Violated};
ghost use Rattle.tests_examples_core.specs.Geographies.{areas};
ghost use Rattle.tests_examples_core.specs.Ids.{square_id, first_rule_id, second_rule_id};
ghost use Rattle.tests_examples_core.specs.Policies.{cap, two_rules, with_rules, rule, at_most, at_least, below, more_than, unbounded, citywide, on_sundays};
ghost use Rattle.tests_examples_core.specs.Vehicles.{first_device, second_device, first_vehicle, second_vehicle, second_inside, late_vehicle};
ghost use Rattle.tests_examples_core.specs.Verdicts.{verdict, violated, entry_text, report_text};

/// A vehicle counts for the rule that catches it, and for no other.
pub fn counts()
    ensures both { verdicts two_rules areas (first_vehicle ∷ second_vehicle ∷ []) (at 4 0 0 2) 2000 ≡ verdict first_rule_id Ok 1 ∷ verdict second_rule_id Ok 1 ∷ [] }
{}

/// A rule is kept at its maximum, violated above it, and violated at a bound that isn't included; no vehicle is too
/// few for a minimum of one. The devices of a violated rule are those that it counts, in their order, and of more
/// than 100 the first 100.
pub fn bounds()
    ensures maximum { verdicts cap areas (first_vehicle ∷ []) (at 4 0 0 2) 2000 ≡ verdict first_rule_id Ok 1 ∷ [] }
    ensures above { verdicts cap areas (first_vehicle ∷ second_inside ∷ []) (at 4 0 0 2) 2000 ≡ violated first_rule_id 2 (first_device ∷ second_device ∷ []) ∷ [] }
    ensures excluded { verdicts (with_rules (rule first_rule_id Count square_id (below 1) ∷ [])) areas (first_vehicle ∷ []) (at 4 0 0 2) 2000 ≡ violated first_rule_id 1 (first_device ∷ []) ∷ [] }
    ensures too_few { verdicts (with_rules (rule first_rule_id Count square_id (at_least 1) ∷ [])) areas (second_vehicle ∷ []) (at 4 0 0 2) 2000 ≡ violated first_rule_id 0 [] ∷ [] }
    ensures excluded_minimum { verdicts (with_rules (rule first_rule_id Count square_id (more_than 1) ∷ [])) areas (first_vehicle ∷ []) (at 4 0 0 2) 2000 ≡ violated first_rule_id 1 (first_device ∷ []) ∷ [] }
    ensures most_devices { listed Violated (replicate 100 first_vehicle ++ second_inside ∷ []) ≡ replicate 100 first_device }
{}

/// A rule of another type isn't evaluated, open or not, and catches no vehicle, so the rule after it does.
pub fn other_type()
    ensures closed { verdicts (with_rules (on_sundays (rule second_rule_id Other square_id (at_most 15)) ∷ [])) areas (first_vehicle ∷ []) (at 4 0 0 2) 2000 ≡ verdict second_rule_id NotEvaluated 0 ∷ [] }
    ensures behind { verdicts (with_rules (rule second_rule_id Other square_id (at_most 15) ∷ rule first_rule_id Count square_id (at_most 1) ∷ [])) areas (first_vehicle ∷ []) (at 4 0 0 2) 2000 ≡ verdict second_rule_id NotEvaluated 0 ∷ verdict first_rule_id Ok 1 ∷ [] }
{}

/// A rule that is closed is inactive, whatever its minimum; the rule after it catches its vehicles.
pub fn closed_rules()
    ensures minimum { verdicts (with_rules (on_sundays (rule first_rule_id Count square_id (at_least 1)) ∷ [])) areas [] (at 4 0 0 2) 2000 ≡ verdict first_rule_id Inactive 0 ∷ [] }
    ensures behind { verdicts (with_rules (on_sundays (rule first_rule_id Count square_id (at_least 1)) ∷ citywide ∷ [])) areas (first_vehicle ∷ []) (at 4 0 0 2) 2000 ≡ verdict first_rule_id Inactive 0 ∷ verdict second_rule_id Ok 1 ∷ [] }
{}

/// Three days are within a maximum of 72 hours, and a millisecond more isn't. The measure is the number of vehicles
/// whose time is outside the bounds, and these are the devices.
pub fn hours()
    ensures three_days { verdicts (with_rules (rule first_rule_id (Time Hours) square_id (at_most 72) ∷ [])) areas (first_vehicle ∷ []) (at 0 0 0 2) 259202000 ≡ verdict first_rule_id Ok 0 ∷ [] }
    ensures longer { verdicts (with_rules (rule first_rule_id (Time Hours) square_id (at_most 72) ∷ [])) areas (first_vehicle ∷ late_vehicle ∷ []) (at 0 0 0 2) 259202001 ≡ violated first_rule_id 1 (first_device ∷ []) ∷ [] }
    ensures one_of_two { verdicts (with_rules (rule first_rule_id (Time Hours) square_id (at_least 72) ∷ citywide ∷ [])) areas (first_vehicle ∷ second_vehicle ∷ []) (at 0 0 0 2) 259201999 ≡ violated first_rule_id 1 (first_device ∷ []) ∷ verdict second_rule_id Ok 1 ∷ [] }
    ensures without_bounds { verdicts (with_rules (rule first_rule_id (Time Hours) square_id unbounded ∷ [])) areas (first_vehicle ∷ []) (at 0 0 0 2) 4102444799999 ≡ verdict first_rule_id Ok 0 ∷ [] }
    ensures before { dwell first_vehicle 1999 ≡ 0 }
{}

/// The report on a policy lists the devices of a violated rule, also where there are none.
pub fn report()
    ensures text { printed (reported cap (verdict first_rule_id NotEvaluated 0 ∷ verdict second_rule_id Inactive 0 ∷ violated first_rule_id 0 [] ∷ [])) ≡ report_text (entry_text [] (codes "0") (codes "301") (codes "not_evaluated") ++ codes "," ++ entry_text [] (codes "0") (codes "302") (codes "inactive") ++ codes "," ++ entry_text (codes "\"devices\":[],") (codes "0") (codes "301") (codes "violated")) }
{}
