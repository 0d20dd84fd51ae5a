//! What a desk and the author's room hold, and how it changes.
#![tactic(auto, unfolding(tests_examples_core::specs::Computed::documents))]

ghost use Rattle.std.specs.Prelude.{◌≡◌, ℕ, List, ◌∷◌, [], codes, Ok, Err, Some, None};
ghost use Rattle.mds_desk.specs.Desk.{Learns, TakesTurn, new_desks};
ghost use Rattle.mds_desk.specs.Room.{IsNoted};
ghost use Rattle.server_state.specs.Turn.{IsTold, Answers};
ghost use Rattle.tests_examples_core.specs.Histories.{question, answer};
ghost use Rattle.tests_examples_core.specs.Machine.{done, report};
ghost use Rattle.tests_examples_core.specs.Publications.{then_withdrawn};
ghost use Rattle.tests_examples_core.specs.Requests.{configuration};
ghost use Rattle.tests_examples_core.specs.Vehicles.{one_row};
ghost use Rattle.std.specs.FinMap.{empty};
ghost use Rattle.tests_examples_server.specs.Heads.{json_response};
ghost use Rattle.tests_examples_server.specs.DeskStates.{desk, second_desk};
ghost use Rattle.tests_examples_server.specs.Turns.{first_front};

/// Each operator has a new desk, which knows of no publication and has no row.
pub fn new()
    ensures desks { new_desks configuration ≡ desk [] empty ∷ second_desk ∷ [] }
{}

/// A desk that learns a longer list knows it; one that learns a shorter list knows what it knew. Its rows stay.
/// Without a note nothing changes.
pub fn learning()
    ensures longer { Learns (desk first_front one_row) then_withdrawn (desk then_withdrawn one_row) }
    ensures shorter { Learns (desk then_withdrawn one_row) first_front (desk then_withdrawn one_row) }
    ensures nothing { IsTold (desk [] one_row) None (desk [] one_row) }
{}

/// No desk learns a list by forgetting what it knew, by not knowing it afterwards, or by becoming another operator's.
pub fn not_learning()
    ensures forgotten { ¬ (Learns (desk then_withdrawn one_row) first_front (desk first_front one_row)) }
    ensures left_out { ¬ (Learns (desk [] one_row) first_front (desk [] one_row)) }
    ensures of_another { ¬ (Learns (desk [] empty) [] second_desk) }
{}

/// A note is of the list with one more publication; without a note the list stays.
pub fn notes()
    ensures one_more { IsNoted first_front (Some then_withdrawn) then_withdrawn }
    ensures nothing { IsNoted first_front None first_front }
    ensures of_less { ¬ (IsNoted first_front (Some first_front) first_front) }
    ensures of_two { ¬ (IsNoted [] (Some then_withdrawn) then_withdrawn) }
    ensures untold { ¬ (IsNoted first_front None then_withdrawn) }
{}

/// A desk takes a turn at the front that it knows afterwards, and never by forgetting one.
pub fn turns()
    ensures report { TakesTurn (desk [] empty) (report 2000 (codes "401")) (done (codes "new")) (desk [] one_row) }
    ensures question { TakesTurn (desk [] one_row) question answer (desk first_front one_row) }
    ensures forgotten { ¬ (TakesTurn (desk then_withdrawn one_row) question answer (desk first_front one_row)) }
{}

/// A desk that is given the note of the first publication answers at it, and the response carries the answer; where
/// there is no memory for the response the turn was taken all the same.
pub fn answers()
    ensures told { Answers {E = List ℕ} (desk [] one_row) (Some first_front) question (Ok (json_response 200 answer.body)) (desk first_front one_row) }
    ensures no_memory { Answers {E = List ℕ} (desk [] one_row) (Some first_front) question (Err []) (desk first_front one_row) }
{}
