//! Requests that are refused before a desk or the author's room is reached, in the order of the refusals.
#![tactic(auto)]

ghost use Rattle.std.specs.Prelude.{◌≡◌, ◌∷◌, [], codes, replicate, Some, None};
ghost use Rattle.server_state.specs.Early.{early};
ghost use Rattle.server_state.specs.Client.{IsWithin};
ghost use Rattle.server_state.specs.Respond.{Responds};
ghost use Rattle.server_state.specs.Response.{Says};
ghost use Rattle.server_admission.specs.declared.arrival.Arrived.TheVariants.{Whole, Broken, TooLong, NoMemory};
ghost use Rattle.mds_request.specs.declared.code.Code.TheVariants as code;
ghost use Rattle.mds_request.specs.declared.config.Actor.TheVariants.{Author, Operator, Nobody};
ghost use Rattle.tests_examples_core.specs.Machine.{error, done};
ghost use Rattle.tests_examples_core.specs.Requests.{configuration};
ghost use Rattle.tests_examples_server.specs.Heads.{origin, with_credentials, head, by_alfa, by_nobody, json_response, plain_response};

/// A request without a moment is refused first, then one without a body within its limit, then one without a known
/// access token.
pub fn order()
    ensures clock { early configuration by_nobody TooLong None ≡ Some code.Clock }
    ensures clock_alone { early configuration (by_alfa (codes "/compliance")) (Whole []) None ≡ Some code.Clock }
    ensures broken { early configuration by_nobody Broken (Some 2000) ≡ Some code.BadBody }
    ensures too_long { early configuration by_nobody TooLong (Some 2000) ≡ Some code.TooLarge }
    ensures memory { early configuration by_nobody NoMemory (Some 2000) ≡ Some code.NoMemory }
    ensures token { early configuration by_nobody (Whole []) (Some 2000) ≡ Some code.Token }
    ensures two_fields { early configuration (head (codes "GET") (origin (codes "/compliance")) (with_credentials (codes "Bearer alfa" ∷ codes "Bearer alfa" ∷ []))) (Whole []) (Some 2000) ≡ Some code.Token }
{}

/// A body of a mebibyte is within its limit, and one of a byte more isn't.
pub fn bodies()
    ensures largest { early configuration by_nobody (Whole (replicate 1048576 0)) (Some 2000) ≡ Some code.Token }
    ensures one_more { early configuration by_nobody (Whole (replicate 1048577 0)) (Some 2000) ≡ Some code.TooLarge }
{}

/// Nothing else is refused early: an unknown path and a body that is no JSON are refused as a desk or the room does.
pub fn admitted_requests()
    ensures operator { early configuration (by_alfa (codes "/compliance")) (Whole []) (Some 2000) ≡ None }
    ensures author { early configuration (head (codes "POST") (origin (codes "/publish")) (with_credentials (codes "Bearer city" ∷ []))) (Whole (codes "{")) (Some 0) ≡ None }
    ensures no_route { early configuration (by_alfa (codes "/nowhere")) (Whole []) (Some 2000) ≡ None }
{}

/// A response carries a reply by its status, its body and its only header field, and by nothing else.
pub fn responses()
    ensures says { Says (json_response 200 (codes "{\"result\":\"new\"}")) (done (codes "new")) }
    ensures other_status { ¬ (Says (json_response 200 (codes "{\"error\":\"token\"}")) (error 401 (codes "token"))) }
    ensures other_body { ¬ (Says (json_response 401 (codes "{}")) (error 401 (codes "token"))) }
    ensures no_type { ¬ (Says (plain_response 401 (codes "{\"error\":\"token\"}")) (error 401 (codes "token"))) }
{}

/// The response is the early refusal, and no later one.
pub fn early_responses()
    ensures token { Responds configuration by_nobody (Whole []) (Some 2000) (json_response 401 (codes "{\"error\":\"token\"}")) }
    ensures clock { Responds configuration by_nobody (Whole []) None (json_response 503 (codes "{\"error\":\"clock\"}")) }
    ensures not_the_second { ¬ (Responds configuration by_nobody (Whole []) None (json_response 401 (codes "{\"error\":\"token\"}"))) }
{}

/// Of two operators the indices are 0 and 1. The author and anonymous clients are within any count.
pub fn client_indices()
    ensures second { IsWithin 2 (Operator 1) }
    ensures third { ¬ (IsWithin 2 (Operator 2)) }
    ensures author { IsWithin 2 Author }
    ensures nobody { IsWithin 0 Nobody }
{}
