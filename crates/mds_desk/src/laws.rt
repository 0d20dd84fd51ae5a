//! Laws of the room and the desks. Each function's contract is the law; the functions do nothing.
ghost use Rattle.mds_desk.specs.Laws.{DeskTakesItsTurns, RoomTakesItsTurns, IsOneHistoryOfAll};

/// Every sequence of calls on a new desk (answers, runs and what it learns) is a sequence of turns with the same
/// requests and replies, at fronts of what it knows.
pub fn desk_takes_its_turns()
    ensures { DeskTakesItsTurns }
{}

/// The exchanges at a new room are turns of the room.
pub fn room_takes_its_turns()
    ensures { RoomTakesItsTurns }
{}

/// The exchanges at a new room and the calls on the new desks form one history of the machine, where all that each desk
/// knows is published at the room (`AuthorRoom::has_published`).
pub fn is_one_history_of_all()
    ensures { IsOneHistoryOfAll }
{}
