//! How a configuration is read, and which call a request is.
#![tactic(auto, unfolding(crate::specs::Computed::documents, crate::specs::Computed::zones))]

ghost use Rattle.std.specs.Prelude.{◌≡◌, ◌++◌, [], ◌∷◌, replicate, codes, Ok, Err};
ghost use Rattle.mds_drafts.specs.Named.{read_publish_list};
ghost use Rattle.mds_text.specs.Fault.{bad_field, out_of_range, bad_zone, alike};
ghost use Rattle.mds_text.specs.declared.field.Field.TheVariants.{Author, Geographies, Policies, Withdraw};
ghost use Rattle.mds_request.specs.Call.{call_of};
ghost use Rattle.mds_request.specs.Configuration.{read_configuration};
ghost use Rattle.mds_request.specs.declared.code.Code.TheVariants.{TooLarge, Token, NoRoute, Method, Role, BadId};
ghost use Rattle.mds_request.specs.declared.call.AuthorCall.TheVariants as author;
ghost use Rattle.mds_request.specs.declared.call.Call.TheVariants as call;
ghost use Rattle.mds_request.specs.declared.call.OperatorCall.TheVariants.{Compliance, PolicyCompliance, RemoveVehicle};
ghost use Rattle.mds_request.specs.declared.request.Verb.TheVariants.{Get, Post, Delete};
ghost use Rattle.tests_examples_core.specs.Ids.{id, id_text, cap_id};
ghost use Rattle.tests_examples_core.specs.Requests.{configuration_text, configuration, alfa, bravo, request};

/// A configuration is read from its text. Its faults come in the order of its table, and `alike` comes last.
pub fn configurations()
    ensures read { read_configuration (configuration_text (codes "city") (codes "2") (codes "Z")) ≡ Ok configuration }
    ensures alike_tokens { read_configuration (configuration_text (codes "alfa") (codes "2") (codes "Z")) ≡ Err alike }
    ensures zone_before_alike { read_configuration (configuration_text (codes "alfa") (codes "2") (codes "+15:00")) ≡ Err bad_zone }
    ensures no_vehicle { read_configuration (configuration_text (codes "city") (codes "0") (codes "Mars")) ≡ Err out_of_range }
    ensures most_vehicles { read_configuration (configuration_text (codes "city") (codes "200000") (codes "Z")) ≡ Ok (record configuration { operators = record alfa { limit = 200000 } ∷ bravo ∷ [] }) }
    ensures too_many_vehicles { read_configuration (configuration_text (codes "city") (codes "200001") (codes "Z")) ≡ Err out_of_range }
    ensures no_token { read_configuration (configuration_text (codes "the city") (codes "0") (codes "Z")) ≡ Err (bad_field Author) }
{}

/// The refusals of a request come in this order: the size of its body, the token, the path, the method, the client's
/// role, and the identifier.
pub fn refusals()
    ensures size { call_of configuration (request 2000 (codes "nobody") Get (codes "/nowhere") (replicate 1048577 0)) ≡ Err TooLarge }
    ensures largest { call_of configuration (request 2000 (codes "nobody") Get (codes "/nowhere") (replicate 1048576 0)) ≡ Err Token }
    ensures path { call_of configuration (request 2000 (codes "alfa") Get (codes "/nowhere") []) ≡ Err NoRoute }
    ensures method_before_role { call_of configuration (request 2000 (codes "city") Post (codes "/compliance") []) ≡ Err Method }
    ensures role_of_operator { call_of configuration (request 2000 (codes "alfa") Post (codes "/publish") (codes "{")) ≡ Err Role }
    ensures role_of_author { call_of configuration (request 2000 (codes "city") Get (codes "/compliance/x") []) ≡ Err Role }
    ensures identifier { call_of configuration (request 2000 (codes "alfa") Get (codes "/compliance/x") []) ≡ Err BadId }
{}

/// A path ends at the question mark; a segment that is an identifier isn't empty, and its letter case and its hyphens
/// don't matter.
pub fn paths()
    ensures query { call_of configuration (request 2000 (codes "alfa") Get (codes "/compliance?at=5") []) ≡ Ok (call.Operator 0 Compliance) }
    ensures identifier { call_of configuration (request 2000 (codes "alfa") Get (codes "/compliance/" ++ id_text (codes "201")) []) ≡ Ok (call.Operator 0 (PolicyCompliance cap_id)) }
    ensures without_hyphens { call_of configuration (request 2000 (codes "city") Get (codes "/policies/00000000000040008000000000000201") []) ≡ Ok (call.Author (author.Policy cap_id)) }
    ensures upper_case { call_of configuration (request 2000 (codes "alfa") Delete (codes "/fleet/vehicles/" ++ id_text (codes "0A1")) []) ≡ Ok (call.Operator 0 (RemoveVehicle (id 0 161))) }
    ensures empty_segment { call_of configuration (request 2000 (codes "alfa") Get (codes "/policies/") []) ≡ Err NoRoute }
    ensures slash_behind { call_of configuration (request 2000 (codes "alfa") Get (codes "/compliance/") []) ≡ Err NoRoute }
    ensures no_slash_before { call_of configuration (request 2000 (codes "alfa") Get (codes "compliance") []) ≡ Err NoRoute }
{}

/// A publish request names an identifier once in a list; a list that is absent or null is empty. Its
/// lists are read in this order: geographies, policies, policies to withdraw.
pub fn publish_lists()
    ensures read { read_publish_list (codes "{\"policies\":null,\"withdraw\":[\"" ++ id_text (codes "201") ++ codes "\"]}") ≡ Ok (record { geographies = []; policies = []; withdraw = cap_id ∷ [] }) }
    ensures twice { read_publish_list (codes "{\"withdraw\":[\"" ++ id_text (codes "201") ++ codes "\",\"" ++ id_text (codes "201") ++ codes "\"]}") ≡ Err (bad_field Withdraw) }
    ensures geographies_first { read_publish_list (codes "{\"withdraw\":1,\"policies\":1,\"geographies\":1}") ≡ Err (bad_field Geographies) }
    ensures policies_second { read_publish_list (codes "{\"withdraw\":1,\"policies\":1}") ≡ Err (bad_field Policies) }
{}
