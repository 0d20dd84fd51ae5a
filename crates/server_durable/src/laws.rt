//! Laws of a city's responses. The functions change nothing: their contracts are the laws.
ghost use Rattle.std.specs.Prelude.{◌≡◌, ◌⊎◌};
ghost use mathlib.Core.List.{IsPrefix};
ghost use Rattle.server_durable.specs.Journals.{EndedHallsGoOn, HallsGoOn, JournalsGoOn, LogsAreJournals, NoEntriesAreAJournal, ReadConfigurationsTellClients, StoppedServersLeaveCompactedJournals, StoppedServersLeaveJournals};
ghost use Rattle.server_durable.specs.Journals.{ToldRoomTurnsAreLeft, ToldTurnsAreLeft};
ghost use Rattle.server_durable.specs.Laws.{AppCallsAreNotKept, ManyAreKept, OperatorsAreToldTheirOwn, RecordedAreKept, RespondsAsAHall, ViewsAreAskedByTheOperator, ViewsAreByOwnRequests, ViewsAreByOwnRows, ViewsLeaveRows, WithdrawalsAreOfOwnPolicies};

use journal_compaction::laws as compaction;
use journal_file::Log;
use server_state::{DeskTurns, HallName, RoomTurns};

/// If a journal persists an exchange and its response was sent, a synced log has its record.
pub fn recorded_are_persisted<L: Log>()
    ensures { RecordedAreKept L.may_be L.is_synced }
{}

/// Of each of many reports that a journal persists, a synced log has the record once the response was sent.
pub fn many_are_persisted<L: Log>()
    ensures { ManyAreKept L.may_be L.is_synced }
{}

/// No journal persists a call outside the protocol.
pub fn app_calls_are_not_persisted()
    ensures { AppCallsAreNotKept }
{}

/// An operator's responses outside the protocol depend on the publications and its own place alone.
pub fn operators_see_their_own()
    ensures { OperatorsAreToldTheirOwn }
{}

/// An operator's withdrawals are of the policies that are meant for it.
pub fn withdrawals_are_of_own_policies()
    ensures { WithdrawalsAreOfOwnPolicies }
{}

/// Where the log has room, a city responds to a call of the protocol as a hall does.
pub fn responds_as_a_hall()
    ensures { RespondsAsAHall }
{}

/// A view of an operator's fleet is asked for by a request with that operator's access token.
pub fn views_are_asked_by_the_operator()
    ensures { ViewsAreAskedByTheOperator }
{}

/// A view of an operator's fleet leaves its vehicles as they were.
pub fn views_leave_vehicles()
    ensures { ViewsLeaveRows }
{}

/// What is told of an operator's fleet depends on the publications and on that operator's own rows alone, and so on the
/// publications and its own requests alone.
pub fn views_are_of_their_operator()
    ensures rows { ViewsAreByOwnRows }
    ensures requests { ViewsAreByOwnRequests }
{}

/// In a configuration that was read from a text each client can be told by its records: the premise of the laws of logs.
/// No two of its identifiers or of its access tokens are equal, as compaction wants.
pub fn read_configurations_tell_clients()
    ensures { ReadConfigurationsTellClients }
{}

/// A log whose payloads are, client by client, the records of what was told to be accepted is the journal of what was
/// done: the premise of the law of restarts.
pub fn logs_are_journals()
    ensures { LogsAreJournals }
{}

/// The journal of what was done before a restart and that of what was done behind it are one journal.
pub fn journals_go_on()
    ensures { JournalsGoOn }
{}

/// What a hall did since it was opened over a room and desks goes on from these; and its log reads as entries, which are
/// the journal of what it did.
pub fn halls_go_on()
    ensures { HallsGoOn }
{}

/// What a hall did until it ended goes on from the room and desks over which it was opened; and its log reads as entries,
/// which are the journal of what it did.
pub fn ended_halls_go_on()
    ensures { EndedHallsGoOn }
{}

/// A server that was started again from the journal of what one server did, and whose hall ended, leaves the journal of
/// what one server did, before and since. A server that did nothing yet has the empty journal; so, by one start after
/// another, what was done over any number of them is what one server did.
pub fn stopped_servers_leave_journals()
    ensures first { NoEntriesAreAJournal }
    ensures next { StoppedServersLeaveJournals }
{}

/// The same of a server whose journal was compacted any number of times, before it was started and while it was served:
/// what the file has leads to all that was appended, by compactions (`journal_compaction::AnswersAgree`), and is what
/// changes of the journal of one server have left.
pub fn stopped_servers_leave_compacted_journals()
    ensures { StoppedServersLeaveCompactedJournals }
{
    compaction::exchanged_are_compacted();
    compaction::goes_on_from_thinned();
    read_configurations_tell_clients();
    ended_halls_go_on();
    journals_go_on();
}

/// Any two lists of turns of one desk, whenever they were given, are one list: one begins the other. So where the list at
/// the end isn't shorter than that behind a turn which was told, it begins with that.
pub fn desk_turns_are_one_list<K: HallName>(one: &DeskTurns<K>, other: &DeskTurns<K>)
    requires { one.now.place ≡ other.now.place }
    ensures { IsPrefix one.now.front.seen.log other.now.front.seen.log ⊎ IsPrefix other.now.front.seen.log one.now.front.seen.log }
{
    let _is_first = one.begins(other);
    let _is_second = other.begins(one);
}

/// The same of the author's room.
pub fn room_turns_are_one_list<K: HallName>(one: &RoomTurns<K>, other: &RoomTurns<K>)
    ensures { IsPrefix one.now.front.seen.log other.now.front.seen.log ⊎ IsPrefix other.now.front.seen.log one.now.front.seen.log }
{
    let _comes_first = one.begins(other);
    let _comes_second = other.begins(one);
}

/// A turn that was told, behind a list with which the list at the end begins, is one of those whose records are the
/// journal that a stopped server leaves.
pub fn told_turns_are_left()
    ensures desk { ToldTurnsAreLeft }
    ensures room { ToldRoomTurnsAreLeft }
{}
