//! Laws of what a journal persists, and of what is recovered from it. Each function's contract is the law; the
//! functions do nothing but call the laws that theirs follow from.
ghost use Rattle.journal_laws.specs.Persisted.{KeptLeadsThere, AnsweredAgainLeadsThere, FrontsAreFronts, IsOneHistory, RowsStandApart, ChangesStandApart, ThinnedIsTheSame};
ghost use Rattle.journal_laws.specs.Servers.{DeskIsRecovered, DeskGoesOn, RoomIsRecovered, IsOneServer};

use mds_machine::{desk_laws as fronts, laws as machine};

/// The persisted exchanges of a history are a history with the same replies, to the same state.
pub fn persisted_leads_there()
    ensures { KeptLeadsThere }
{
    machine::refusal_keeps_state();
}

/// The persisted requests, replayed with success at their own moments, have the replies that they had, and lead to the
/// same state.
pub fn replay_leads_there()
    ensures { AnsweredAgainLeadsThere }
{
    machine::refusal_keeps_state();
    machine::is_determined();
}

/// A prefix of the persisted exchanges is what is persisted of a prefix of the history: no exchange is left out, and
/// none is there in part.
pub fn prefixes_are_prefixes()
    ensures { FrontsAreFronts }
{}

/// What was answered before a restart, and what continues from the recovered state, are one history.
pub fn is_one_history()
    ensures { IsOneHistory }
{
    replay_leads_there();
}

/// What is published doesn't affect an operator's rows, so a journal needn't say at which publications a report was
/// answered.
pub fn rows_stand_apart()
    ensures { RowsStandApart }
{}

/// Nor does it affect the reply to a request that may change them.
pub fn changes_stand_apart()
    ensures { ChangesStandApart }
{}

/// A device's row follows from its last accepted report and the one that began its run, so a journal that has only
/// these two leads to the same row.
pub fn compacted_row_is_the_same()
    ensures { ThinnedIsTheSame }
{}

/// The persisted requests of a desk's turns, replayed with success, lead to the desk's rows, at whatever publications.
pub fn desk_is_recovered()
    ensures { DeskIsRecovered }
{}

/// The turns before a restart, and those of the recovered desk, are turns of one desk.
pub fn desk_goes_on()
    ensures { DeskGoesOn }
{}

/// The persisted requests of the author's exchanges, replayed with success, lead to the room's drafts and publications,
/// with their moments.
pub fn room_is_recovered()
    ensures { RoomIsRecovered }
{
    fronts::room_is_history();
    replay_leads_there();
}

/// What a server answered before a restart and what is done after it is what one server did. So the laws of isolation
/// and meaning hold for its one history as for any other (`mds_machine::desk_laws::is_one_history`,
/// `desks_are_isolated`).
pub fn is_one_server()
    ensures { IsOneServer }
{}
