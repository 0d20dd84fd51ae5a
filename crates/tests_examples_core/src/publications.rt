//! Which policies are in force, and which publications may follow.
#![tactic(auto)]

ghost use Rattle.std.specs.Prelude.{◌≡◌, [], ◌∷◌, ◌++◌, IsTrue, Some, None};
ghost use Rattle.mds_catalog.specs.Publication.{is_lawful, policies_for};
ghost use Rattle.tests_examples_core.specs.Ids.{cap_id, next_id};
ghost use Rattle.tests_examples_core.specs.Policies.{cap};
ghost use Rattle.tests_examples_core.specs.Publications.{first_operator, second_operator, next_policy, publication, first_publication, withdrawal, then_withdrawn, then_next, alone, ids_of, ids_in_force};

/// A policy is in force from its publication and its start on, whichever is later, until just before its end, for the
/// operators that it names or for all.
pub fn alone_in_force()
    ensures from_start { ids_in_force (alone cap) first_operator 1000 ≡ cap_id ∷ [] }
    ensures before { ids_in_force (alone cap) first_operator 999 ≡ [] }
    ensures not_published { ids_in_force (alone (record cap { start = 0 })) first_operator 999 ≡ [] }
    ensures not_started { ids_in_force (alone (record cap { start = 1500 })) first_operator 1499 ≡ [] }
    ensures before_end { ids_in_force (alone (record cap { end = Some 5000 })) first_operator 4999 ≡ cap_id ∷ [] }
    ensures at_end { ids_in_force (alone (record cap { end = Some 5000 })) first_operator 5000 ≡ [] }
    ensures named { ids_in_force (alone (record cap { providers = second_operator ∷ [] })) second_operator 1000 ≡ cap_id ∷ [] }
    ensures not_named { ids_in_force (alone (record cap { providers = second_operator ∷ [] })) first_operator 1000 ≡ [] }
{}

/// A policy that names operators is shown to these and to the author, and to no other operator; one that names none
/// is shown to all.
pub fn visibility()
    ensures to_another { ids_of (policies_for (alone (record cap { providers = second_operator ∷ [] })) (Some first_operator)) ≡ [] }
    ensures to_the_named { ids_of (policies_for (alone (record cap { providers = second_operator ∷ [] })) (Some second_operator)) ≡ cap_id ∷ [] }
    ensures to_the_author { ids_of (policies_for (alone (record cap { providers = second_operator ∷ [] })) None) ≡ cap_id ∷ [] }
    ensures to_all { ids_of (policies_for (alone cap) (Some first_operator)) ≡ cap_id ∷ [] }
{}

/// A successor supersedes a policy from its own publication and start on. At a moment before that the predecessor is
/// in force.
pub fn succession()
    ensures before_start { ids_in_force (then_next (next_policy 86401000 None [])) first_operator 86400999 ≡ cap_id ∷ [] }
    ensures from_start { ids_in_force (then_next (next_policy 86401000 None [])) first_operator 86401000 ≡ next_id ∷ [] }
    ensures before_publication { ids_in_force (then_next (next_policy 1500 None [])) first_operator 1999 ≡ cap_id ∷ [] }
    ensures from_publication { ids_in_force (then_next (next_policy 1500 None [])) first_operator 2000 ≡ next_id ∷ [] }
{}

/// A successor supersedes a policy also after its own end, and where it is meant for another operator.
pub fn succession_by_one_not_in_force()
    ensures ended { ids_in_force (then_next (next_policy 3000 (Some 4000) [])) first_operator 4000 ≡ [] }
    ensures for_another { ids_in_force (then_next (next_policy 3000 None (second_operator ∷ []))) first_operator 3000 ≡ [] }
    ensures for_this { ids_in_force (then_next (next_policy 3000 None (second_operator ∷ []))) second_operator 3000 ≡ next_id ∷ [] }
{}

/// A policy is out of force from the earliest moment on at which a publication withdraws it. It stays published, and
/// goes on superseding others.
pub fn withdrawals()
    ensures before { ids_in_force then_withdrawn first_operator 2999 ≡ cap_id ∷ [] }
    ensures from_then_on { ids_in_force then_withdrawn first_operator 3000 ≡ [] }
    ensures before_an_earlier { ids_in_force (then_withdrawn ++ withdrawal 2500 cap_id ∷ []) first_operator 2499 ≡ cap_id ∷ [] }
    ensures from_an_earlier { ids_in_force (then_withdrawn ++ withdrawal 2500 cap_id ∷ []) first_operator 2500 ≡ [] }
    ensures successor { ids_in_force (then_next (next_policy 2000 None []) ++ withdrawal 3000 next_id ∷ []) first_operator 3000 ≡ [] }
    ensures listed { ids_of (policies_for then_withdrawn (Some first_operator)) ≡ cap_id ∷ [] }
{}

/// A publication may follow where its documents are new, and its rules' geographies are published or
/// come with it; a predecessor and a policy that it withdraws have to be published before.
pub fn lawful()
    ensures geography_with_it { IsTrue (is_lawful [] first_publication) }
    ensures no_geography { ¬ IsTrue (is_lawful [] (publication 1000 (cap ∷ []))) }
    ensures successor { IsTrue (is_lawful (first_publication ∷ []) (publication 2000 (next_policy 3000 None [] ∷ []))) }
    ensures successor_with_it { ¬ IsTrue (is_lawful [] (record first_publication { policies = cap ∷ next_policy 3000 None [] ∷ [] })) }
    ensures again { ¬ IsTrue (is_lawful (first_publication ∷ []) (publication 2000 (cap ∷ []))) }
    ensures twice { ¬ IsTrue (is_lawful (first_publication ∷ []) (publication 2000 (next_policy 3000 None [] ∷ next_policy 4000 None [] ∷ []))) }
    ensures withdrawal { IsTrue (is_lawful (first_publication ∷ []) (withdrawal 3000 cap_id)) }
    ensures withdrawn_again { IsTrue (is_lawful then_withdrawn (withdrawal 2500 cap_id)) }
    ensures successor_of_withdrawn { IsTrue (is_lawful then_withdrawn (publication 4000 (next_policy 4000 None [] ∷ []))) }
    ensures unpublished { ¬ IsTrue (is_lawful (first_publication ∷ []) (withdrawal 3000 next_id)) }
    ensures of_its_own { ¬ IsTrue (is_lawful [] (record first_publication { withdrawn = cap_id ∷ [] })) }
    ensures empty { ¬ IsTrue (is_lawful [] (publication 1000 [])) }
{}
