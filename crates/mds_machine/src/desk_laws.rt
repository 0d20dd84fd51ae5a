//! Laws of running desks. Each function's contract is the law; the functions do nothing.
ghost use Rattle.mds_machine.specs.DeskLaws.{TurnsAreMeant, TurnsAreJoined, ServedAreTurns, ShowsLastFront, ViewsAreJoined, TurnsArePutIn, RoomIsHistory, IsOneHistory, DesksAreIsolated};

/// The fronts of a desk's turns rise. Where every request is the operator's and no reply is 503: for each view whose
/// publications the desk knew and whose rows it had, each reply is the answer that this view, continued up to the
/// request, defines; and the rows afterwards are those of the continued view.
pub fn turns_are_meant()
    ensures { TurnsAreMeant }
{}

/// Turns after turns are turns, whatever the desk learns in between.
pub fn turns_are_joined()
    ensures { TurnsAreJoined }
{}

/// Turns for requests of other clients, and turns answered 503, have no effect.
pub fn served_are_turns()
    ensures { ServedAreTurns }
{}

/// A continued view has the requests of its turns, each once and in order, and the publications of the last front.
pub fn shows_last_front()
    ensures { ShowsLastFront }
{}

/// A view that is continued by turns, and then by more, is continued by all of them.
pub fn views_are_joined()
    ensures { ViewsAreJoined }
{}

/// The served turns of one operator's desk can be inserted into any history of all other clients whose publications
/// have the last front as a prefix: the result is a history of the machine, with the publications and the other
/// operators' views of that history, and with the desk's rows at its end.
pub fn turns_are_put_in()
    ensures { TurnsArePutIn }
{}

/// The author's exchanges at the room are a history of the machine, with the room's publications.
pub fn room_is_history()
    ensures { RoomIsHistory }
{}

/// The author's exchanges at the room and the served turns of every operator's desk form one history of the machine, to
/// which the isolation of the machine applies: each reply to an operator is what the operator's view alone defines. The
/// state after it has the room's drafts and the desks' rows.
pub fn is_one_history()
    ensures { IsOneHistory }
{}

/// For two servers of one configuration: where the served turns of one operator's desk continue the empty view to the
/// same view, its replies are the same, byte for byte, and so are its rows, whatever the authors drafted and the other
/// operators asked.
pub fn desks_are_isolated()
    ensures { DesksAreIsolated }
{}
