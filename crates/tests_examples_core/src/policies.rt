//! Policies: what is read of a text, which of its faults is reported, and how a policy is served.
#![tactic(auto, unfolding(crate::specs::Computed::documents))]

ghost use Rattle.std.specs.Prelude.{◌≡◌, [], ◌∷◌, ◌++◌, codes, Ok, Err, Some, None};
ghost use Rattle.mds_text.specs.Fault.{bad_json, bad_field, out_of_range, decimal};
ghost use Rattle.mds_text.specs.Printed.{printed};
ghost use Rattle.mds_text.specs.declared.field.Field.TheVariants.{Document, PolicyId, Geographies, States, VehicleTypes, InclusiveMaximum, StartTime, EndTime, Days};
ghost use Rattle.mds_policy.specs.Reading.{read_policy, kind_of};
ghost use Rattle.mds_policy.specs.Served.{served};
ghost use Rattle.mds_policy.specs.declared.rule.Kind.TheVariants.{Count, Time, Other};
ghost use Rattle.mds_policy.specs.declared.rule.TimeUnit.TheVariants.{Hours};
ghost use Rattle.tests_examples_core.specs.Ids.{square_id, first_rule_id};
ghost use Rattle.tests_examples_core.specs.Policies.{cap, cap_text, full_text, full_policy, read_of, read_without_tree, cap_with, cap_served, in_the_square, with_rules, rule, below, more_than};

/// A policy is read from its text.
pub fn policy()
    ensures read { read_policy cap_text ≡ Ok cap }
{}

/// Every member is read into a field of its own; states come in the order of their names, and null means all their
/// events. An unknown member is skipped.
pub fn all_members()
    ensures read { read_without_tree full_text ≡ Ok full_policy }
{}

/// An optional member that is null is absent.
pub fn nulls()
    ensures rule { read_without_tree (cap_with (in_the_square ++ codes ",\"maximum\":1,\"minimum\":null,\"states\":null,\"vehicle_types\":null,\"inclusive_maximum\":null,\"start_time\":null,\"end_time\":null,\"days\":null")) ≡ Ok (read_of cap) }
{}

/// A bound is included unless its own flag says otherwise.
pub fn excluded_bounds()
    ensures minimum { read_without_tree (cap_with (in_the_square ++ codes ",\"minimum\":1,\"inclusive_minimum\":false")) ≡ Ok (read_of (with_rules (rule first_rule_id Count square_id (more_than 1) ∷ []))) }
    ensures maximum { read_without_tree (cap_with (in_the_square ++ codes ",\"maximum\":1,\"inclusive_maximum\":false")) ≡ Ok (read_of (with_rules (rule first_rule_id Count square_id (below 1) ∷ []))) }
{}

/// The text of a policy with one fault.
pub fn faults_of_rules()
    ensures fraction { read_policy (cap_with (in_the_square ++ codes ",\"maximum\":1.5")) ≡ Err decimal }
    ensures great_bound { read_policy (cap_with (in_the_square ++ codes ",\"maximum\":1000000001")) ≡ Err out_of_range }
    ensures unknown_day { read_policy (cap_with (in_the_square ++ codes ",\"maximum\":1,\"days\":[\"sunday\"]")) ≡ Err (bad_field Days) }
    ensures end_of_day { read_policy (cap_with (in_the_square ++ codes ",\"end_time\":\"24:00\"")) ≡ Err (bad_field EndTime) }
    ensures one_digit { read_policy (cap_with (in_the_square ++ codes ",\"start_time\":\"5:00\"")) ≡ Err (bad_field StartTime) }
    ensures upper_case { read_policy (cap_with (in_the_square ++ codes ",\"vehicle_types\":[\"Car\"]")) ≡ Err (bad_field VehicleTypes) }
    ensures empty_name { read_policy (cap_with (in_the_square ++ codes ",\"states\":{\"\":[]}")) ≡ Err (bad_field States) }
    ensures no_truth { read_policy (cap_with (in_the_square ++ codes ",\"inclusive_maximum\":1")) ≡ Err (bad_field InclusiveMaximum) }
    ensures nowhere { read_policy (cap_with (codes ",\"maximum\":1")) ≡ Err (bad_field Geographies) }
{}

/// Of several faults the first one in the order of the tables is reported, wherever they are in the text.
pub fn first_fault_of_a_policy()
    ensures bound_before_days { read_policy (cap_with (in_the_square ++ codes ",\"days\":[\"sunday\"],\"maximum\":1000000001")) ≡ Err out_of_range }
    ensures geographies_before_bound { read_policy (cap_with (codes ",\"maximum\":1000000001")) ≡ Err (bad_field Geographies) }
    ensures fraction_before_members { read_policy (cap_with (codes ",\"maximum\":1.5")) ≡ Err decimal }
    ensures id_before_name { read_policy (codes "{\"start_date\":-1,\"name\":1}") ≡ Err (bad_field PolicyId) }
    ensures no_object { read_policy (codes "[]") ≡ Err (bad_field Document) }
    ensures cut { read_policy (codes "{\"start_date\":1.5") ≡ Err bad_json }
{}

/// A policy is served as its author wrote it, with its names in byte order; once it is published,
/// with the moment of its publication.
pub fn served_policy()
    ensures draft { printed (served cap None) ≡ cap_served (codes "") }
    ensures published { printed (served cap (Some 1000)) ≡ cap_served (codes "\"published_date\":1000,") }
{}

/// Units count for rules on time alone. A rule on time without one of the four units is accepted and not evaluated.
pub fn kinds()
    ensures time { kind_of (codes "time") (Some (codes "hours")) ≡ Time Hours }
    ensures weeks { kind_of (codes "time") (Some (codes "weeks")) ≡ Other }
    ensures without_units { kind_of (codes "time") None ≡ Other }
    ensures count { kind_of (codes "count") (Some (codes "hours")) ≡ Count }
    ensures speed { kind_of (codes "speed") None ≡ Other }
{}
