//! What heads are resolved to, and what their answers take of the client's queue.
#![tactic(auto, unfolding(tests_examples_core::specs::Computed::documents))]

ghost use Rattle.std.specs.Prelude.{◌≡◌, ◌∷◌, [], codes, Ok, Err};
ghost use Rattle.server_state.specs.Resolved.{call_in, cost_in};
ghost use Rattle.server_admission.specs.declared.cost.Cost.TheVariants.{Free, Shared, Exclusive};
ghost use Rattle.mds_request.specs.declared.call.AuthorCall.TheVariants as author;
ghost use Rattle.mds_request.specs.declared.call.Call.TheVariants as call;
ghost use Rattle.mds_request.specs.declared.call.OperatorCall.TheVariants as operator;
ghost use Rattle.mds_request.specs.declared.code.Code.TheVariants.{Token, NoRoute, Method, Role, BadId};
ghost use Rattle.tests_examples_core.specs.Requests.{configuration};
ghost use Rattle.tests_examples_server.specs.Heads.{origin, with_credentials, head, by_alfa, by_nobody};

/// The call of a head is found by its access token, its method and its path. Its query doesn't count.
pub fn calls()
    ensures author { call_in configuration (head (codes "POST") (origin (codes "/publish")) (with_credentials (codes "Bearer city" ∷ []))) ≡ Ok (call.Author author.Publish) }
    ensures operator { call_in configuration (by_alfa (codes "/compliance?at=5")) ≡ Ok (call.Operator 0 operator.Compliance) }
    ensures second { call_in configuration (head (codes "GET") (origin (codes "/fleet/vehicles")) (with_credentials (codes "Bearer bravo" ∷ []))) ≡ Ok (call.Operator 1 operator.Vehicles) }
{}

/// What the table of calls refuses: an unknown access token, a path, a method, a role and an identifier.
pub fn refusals()
    ensures token { call_in configuration by_nobody ≡ Err Token }
    ensures path { call_in configuration (by_alfa (codes "/nowhere")) ≡ Err NoRoute }
    ensures method { call_in configuration (head (codes "DELETE") (origin (codes "/compliance")) (with_credentials (codes "Bearer alfa" ∷ []))) ≡ Err Method }
    ensures role { call_in configuration (by_alfa (codes "/drafts/policies/x")) ≡ Err Role }
    ensures identifier { call_in configuration (by_alfa (codes "/compliance/x")) ≡ Err BadId }
{}

/// The answer to a request for what is published runs concurrently with other short ones, and so does that to a
/// report of at most 16 KiB. A larger report and a compliance question take a turn of their own, and a refusal takes
/// none.
pub fn costs()
    ensures published { cost_in (call_in configuration (by_alfa (codes "/policies"))) 0 ≡ Shared }
    ensures small { cost_in (Ok (call.Operator 0 operator.Report)) 16384 ≡ Shared }
    ensures large { cost_in (Ok (call.Operator 0 operator.Report)) 16385 ≡ Exclusive }
    ensures judged { cost_in (call_in configuration (by_alfa (codes "/compliance"))) 0 ≡ Exclusive }
    ensures refused { cost_in (call_in configuration (by_alfa (codes "/nowhere"))) 1048576 ≡ Free }
{}
