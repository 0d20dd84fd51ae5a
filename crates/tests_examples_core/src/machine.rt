//! The machine's replies, and its state after them.
#![tactic(auto, unfolding(crate::specs::Computed::documents, crate::specs::Computed::places, crate::specs::Computed::zones))]

ghost use Rattle.std.specs.Prelude.{◌≡◌, ◌++◌, [], codes};
ghost use Rattle.mds_request.specs.Reply.{success};
ghost use Rattle.mds_request.specs.declared.request.Verb.TheVariants.{Post};
ghost use Rattle.mds_machine.specs.Step.{answered};
ghost use Rattle.tests_examples_core.specs.Machine.{done, compliance, start, ask, put_square, after_square, put_cap, after_cap, publish, after_publication, report, after_first_vehicle, after_second_vehicle, error, get, cap_path, first_vehicle_text, put_elsewhere, publish_alone, remove_first, again_drafted, withdraw_cap, after_withdrawal};
ghost use Rattle.tests_examples_core.specs.Geographies.{served_text};
ghost use Rattle.tests_examples_core.specs.Ids.{id_text};
ghost use Rattle.tests_examples_core.specs.Policies.{cap_served};
ghost use Rattle.tests_examples_core.specs.Requests.{request};
ghost use Rattle.tests_examples_core.specs.Verdicts.{kept_text, violated_text};

/// A new machine reports no policy and no publication.
pub fn nothing_published()
    ensures answered { answered start (ask 2000 (codes "alfa")) ≡ (compliance (codes "2000") (codes "") (codes "0"), start) }
{}

/// The author puts a geography and a policy, and publishes both: then they are no drafts any more.
pub fn publication()
    ensures geography { answered start put_square ≡ (done (codes "new"), after_square) }
    ensures policy { answered after_square put_cap ≡ (done (codes "new"), after_cap) }
    ensures again { (answered after_cap put_cap).0 ≡ done (codes "replaced") }
    ensures published { answered after_cap publish ≡ (success (codes "{\"published_date\":1000,\"revision\":1}"), after_publication) }
{}

/// An operator reports two vehicles, of which the policy allows one. Another operator sees none of
/// them.
pub fn compliance_of_two()
    ensures none { (answered after_publication (ask 2000 (codes "alfa"))).0 ≡ compliance (codes "2000") (kept_text (codes "0")) (codes "1") }
    ensures first { answered after_publication (report 2000 (codes "401")) ≡ (done (codes "new"), after_first_vehicle) }
    ensures kept { (answered after_first_vehicle (ask 2000 (codes "alfa"))).0 ≡ compliance (codes "2000") (kept_text (codes "1")) (codes "1") }
    ensures second { answered after_first_vehicle (report 2001 (codes "402")) ≡ (done (codes "new"), after_second_vehicle) }
    ensures violated { (answered after_second_vehicle (ask 2001 (codes "alfa"))).0 ≡ compliance (codes "2001") violated_text (codes "1") }
    ensures of_the_other { (answered after_second_vehicle (ask 2001 (codes "bravo"))).0 ≡ compliance (codes "2001") (kept_text (codes "0")) (codes "1") }
    ensures before_publication { (answered after_second_vehicle (ask 999 (codes "alfa"))).0 ≡ compliance (codes "999") (codes "") (codes "1") }
{}

/// A policy that is withdrawn isn't reported on from that moment on; a draft under its identifier
/// stays a draft.
pub fn withdrawal()
    ensures withdrawn { answered again_drafted (withdraw_cap 3000) ≡ (success (codes "{\"published_date\":3000,\"revision\":2}"), after_withdrawal) }
    ensures compliance { (answered after_withdrawal (ask 3000 (codes "alfa"))).0 ≡ compliance (codes "3000") (codes "") (codes "2") }
    ensures not_published { answered after_cap (withdraw_cap 3000) ≡ (error 409 (codes "not_published"), after_cap) }
{}

/// A published document is served to operators with the moment of its publication, a draft to the author without one,
/// and an operator's vehicles to that operator.
pub fn served_documents()
    ensures policy { (answered after_publication (get (codes "alfa") (codes "/policies/" ++ id_text (codes "201")))).0 ≡ success (codes "{\"policy\":" ++ cap_served (codes "\"published_date\":1000,") ++ codes ",\"revision\":1}") }
    ensures geographies { (answered after_publication (get (codes "alfa") (codes "/geographies"))).0 ≡ success (codes "{\"geographies\":[" ++ served_text (codes "square") (codes "[[[0,0],[10,0],[10,10],[0,10],[0,0]]]") (codes ",\"published_date\":1000") ++ codes "],\"revision\":1}") }
    ensures nothing_before { (answered after_cap (get (codes "alfa") (codes "/policies"))).0 ≡ success (codes "{\"policies\":[],\"revision\":0}") }
    ensures draft { (answered after_cap (get (codes "city") cap_path)).0 ≡ success (codes "{\"draft\":" ++ cap_served [] ++ codes "}") }
    ensures vehicles { (answered after_first_vehicle (get (codes "alfa") (codes "/fleet/vehicles"))).0 ≡ success first_vehicle_text }
    ensures removed { answered after_first_vehicle remove_first ≡ (success (codes "{\"removed\":\"" ++ id_text (codes "401") ++ codes "\"}"), after_publication) }
{}

/// A refused request changes nothing.
pub fn refusals()
    ensures token { answered start (get (codes "nobody") (codes "/nowhere")) ≡ (error 401 (codes "token"), start) }
    ensures text { answered start (request 2000 (codes "alfa") Post (codes "/fleet/events") (codes "{\"device_id\":\"0")) ≡ (error 400 (codes "bad_json"), start) }
    ensures other_path { answered start put_elsewhere ≡ (error 400 (codes "id_mismatch"), start) }
    ensures no_geography { answered after_cap publish_alone ≡ (error 409 (codes "no_geography"), after_cap) }
    ensures nothing_named { answered after_cap (request 1000 (codes "city") Post (codes "/publish") (codes "{}")) ≡ (error 400 (codes "empty"), after_cap) }
    ensures full { answered after_second_vehicle (report 2500 (codes "403")) ≡ (error 409 (codes "fleet_full"), after_second_vehicle) }
    ensures no_vehicle { answered after_publication remove_first ≡ (error 404 (codes "not_found"), after_publication) }
    ensures no_policy { answered after_cap (get (codes "alfa") (codes "/compliance/" ++ id_text (codes "201"))) ≡ (error 404 (codes "not_found"), after_cap) }
{}
