//! Turns of an operator's desk.
#![tactic(auto, unfolding(tests_examples_core::specs::Computed::documents))]

ghost use Rattle.std.specs.Prelude.{◌≡◌, [], codes, Ok, Err};
ghost use Rattle.std.specs.FinMap.{empty};
ghost use Rattle.mds_machine.specs.Meaning.{AreRows};
ghost use Rattle.mds_machine.specs.Views.{requests_of};
ghost use Rattle.mds_request.specs.declared.call.Call.TheVariants as call;
ghost use Rattle.mds_request.specs.declared.call.OperatorCall.TheVariants.{Compliance};
ghost use Rattle.mds_request.specs.declared.code.Code.TheVariants.{TooLarge, Token, NoRoute};
ghost use Rattle.mds_machine.specs.Desks.{refusal_of, desk_does, IsTurn, AreTurns, IsRun};
ghost use Rattle.tests_examples_core.specs.Machine.{ask, error};
ghost use Rattle.tests_examples_core.specs.Publications.{then_withdrawn};
ghost use Rattle.tests_examples_core.specs.Requests.{alfa, configuration};
ghost use Rattle.tests_examples_core.specs.Vehicles.{one_row};
ghost use Rattle.mds_machine.specs.Fronts.{requests_in, replies_in};
ghost use Rattle.tests_examples_server.specs.Turns.{turn, first_front, reported, counted, three_turns, seen_by_three, without_memory, without_snapshot, by_another};

/// A report is accepted at a desk that knows of no publication, and a question is answered at a front that the desk
/// didn't know before. A `no_memory` and a `no_snapshot` leave the rows unchanged, and another client's request is
/// refused.
pub fn turns()
    ensures report { IsTurn configuration 0 alfa [] empty reported one_row }
    ensures question { IsTurn configuration 0 alfa [] one_row counted one_row }
    ensures memory { IsTurn configuration 0 alfa [] empty (without_memory reported) empty }
    ensures snapshot { IsTurn configuration 0 alfa first_front one_row (without_snapshot counted) one_row }
    ensures of_another { IsTurn configuration 0 alfa [] one_row by_another one_row }
{}

/// No turn is at a front older than what the desk knew. No turn is a report that is answered 503 and accepted, nor
/// one that is answered with a success and lost, nor a 401 to the operator's own question.
pub fn no_turns()
    ensures older { ¬ (IsTurn configuration 0 alfa then_withdrawn one_row counted one_row) }
    ensures taken { ¬ (IsTurn configuration 0 alfa [] empty (without_memory reported) one_row) }
    ensures lost { ¬ (IsTurn configuration 0 alfa [] empty reported empty) }
    ensures turned_away { ¬ (IsTurn configuration 0 alfa [] one_row (turn (ask 3000 (codes "alfa")) then_withdrawn (error 401 (codes "token"))) one_row) }
{}

/// Another client's request is refused as too large where it is, and else for its access token, whatever its call.
pub fn refusals()
    ensures of_another { desk_does configuration 0 alfa first_front one_row (ask 2000 (codes "bravo")) ≡ (error 401 (codes "token"), one_row) }
    ensures of_the_author { desk_does configuration 0 alfa first_front one_row (ask 2000 (codes "city")) ≡ (error 401 (codes "token"), one_row) }
    ensures of_nobody { desk_does configuration 0 alfa first_front one_row (ask 2000 (codes "")) ≡ (error 401 (codes "token"), one_row) }
    ensures too_large { refusal_of (Err TooLarge) ≡ TooLarge }
    ensures no_route { refusal_of (Err NoRoute) ≡ Token }
    ensures calls { refusal_of (Ok (call.Operator 1 Compliance)) ≡ Token }
{}

/// Three turns one after another are a run, and the rows after it are those of the continued view.
pub fn runs()
    ensures turns { AreTurns configuration 0 alfa [] empty three_turns one_row }
    ensures run { IsRun configuration 0 alfa [] empty (requests_in three_turns) (replies_in three_turns) then_withdrawn one_row }
    ensures rows { AreRows configuration alfa (requests_of seen_by_three) one_row }
{}
