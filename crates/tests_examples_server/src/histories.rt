//! Turns of desks and of the room as parts of one history.
#![tactic(auto, unfolding(tests_examples_core::specs::Computed::documents))]

ghost use Rattle.std.specs.Prelude.{◌≡◌, ◌∷◌, [], codes};
ghost use Rattle.mds_machine.specs.OneHistory.{exchanges_in, exchanges_of, exchanges_but_of, exchanges_of_none, IsPutInto, HasPart, HasServed};
ghost use Rattle.mds_machine.specs.Room.{authors_in};
ghost use Rattle.mds_machine.specs.Step.{new_state};
ghost use Rattle.tests_examples_core.specs.Histories.{exchange};
ghost use Rattle.tests_examples_core.specs.Machine.{ask, error};
ghost use Rattle.tests_examples_core.specs.Requests.{configuration};
ghost use Rattle.tests_examples_server.specs.Turns.{first_front, two_turns, turns_of, at_the_room, own_exchanges, whole};

/// The exchanges of an operator in a history, those of others, and those of no operator, which are the author's here.
/// An anonymous client's isn't the author's.
pub fn parts()
    ensures of_turns { exchanges_in two_turns ≡ own_exchanges }
    ensures own { exchanges_of configuration 0 whole ≡ own_exchanges }
    ensures of_the_second { exchanges_of configuration 1 whole ≡ [] }
    ensures of_others { exchanges_but_of configuration 0 whole ≡ at_the_room }
    ensures of_none { exchanges_of_none configuration whole ≡ at_the_room }
    ensures of_the_author { authors_in configuration (exchange (ask 2000 (codes "nobody")) (error 401 (codes "token")) ∷ at_the_room) ≡ at_the_room }
{}

/// The first operator's exchanges are put among the author's, its report before the publication and its question
/// after it, and are its part of the history.
pub fn insertion()
    ensures whole { IsPutInto (new_state configuration) 0 own_exchanges at_the_room whole }
    ensures part { HasPart configuration 0 two_turns whole }
{}

/// A server has served the room's exchanges and the desks' turns.
pub fn served_history()
    ensures server { HasServed configuration at_the_room first_front turns_of }
{}
