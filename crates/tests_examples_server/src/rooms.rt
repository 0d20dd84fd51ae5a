//! Turns of the author's room.
#![tactic(auto, unfolding(tests_examples_core::specs::Computed::documents))]

ghost use Rattle.std.specs.Prelude.{[], codes};
ghost use Rattle.mds_machine.specs.Room.{IsRoomTurn, AreRoomTurns};
ghost use Rattle.tests_examples_core.specs.Histories.{no_drafts};
ghost use Rattle.tests_examples_core.specs.Machine.{ask, done, error, put_square, square_drafted};
ghost use Rattle.tests_examples_core.specs.Requests.{configuration};
ghost use Rattle.tests_examples_server.specs.Turns.{first_front, at_the_room};

/// The author's geography is put as a draft, or memory runs out; an operator's request is refused.
pub fn turns()
    ensures put { IsRoomTurn configuration (no_drafts, []) put_square (done (codes "new")) (square_drafted, []) }
    ensures memory { IsRoomTurn configuration (no_drafts, []) put_square (error 503 (codes "no_memory")) (no_drafts, []) }
    ensures of_an_operator { IsRoomTurn configuration (square_drafted, []) (ask 2000 (codes "alfa")) (error 401 (codes "token")) (square_drafted, []) }
{}

/// No turn of the room is a `no_memory` that leaves a draft, a success that leaves none, or a `no_memory` to an
/// operator.
pub fn no_turns()
    ensures kept { ¬ (IsRoomTurn configuration (no_drafts, []) put_square (error 503 (codes "no_memory")) (square_drafted, [])) }
    ensures lost { ¬ (IsRoomTurn configuration (no_drafts, []) put_square (done (codes "new")) (no_drafts, [])) }
    ensures of_an_operator { ¬ (IsRoomTurn configuration (no_drafts, []) (ask 2000 (codes "alfa")) (error 503 (codes "no_memory")) (no_drafts, [])) }
{}

/// A geography and a policy are put, and published together: one publication, and no drafts.
pub fn publication()
    ensures turns { AreRoomTurns configuration (no_drafts, []) at_the_room (no_drafts, first_front) }
{}
