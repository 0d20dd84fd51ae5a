//! Laws of replay. Each function's contract is the law; the functions do nothing but call the laws that theirs follow
//! from.
ghost use Rattle.journal_recovery.specs.Laws.{AnsweredAreTurns, AnsweredByParts, FrontsAreJournals, JournalLeadsBack, GoesOnAsOneServer};
ghost use Rattle.journal_recovery.specs.Laws.{JournalGrowsByExchange, JournalGrowsByTurn};
ghost use Rattle.journal_recovery.specs.Owners.{FirstStepsAreABeginning, NothingIsOneServersWork, OwnersAreOneServer};
ghost use Rattle.journal_recovery.specs.Owners.{PrefixesAreOfOneServer, PrefixesGoOn, PrefixesHavePublished};
ghost use Rattle.journal_recovery.specs.Owners.{PrefixesIncludeReplies};

use journal_entry::reads_the_request;
use journal_laws::laws as restarts;

/// Replaying entries in parts is replaying them, so that a long journal needn't be in memory as a whole.
pub fn replay_by_parts()
    ensures { AnsweredByParts }
{}

/// Entries that were replayed are turns of the room and of each desk, all successes, on their requests.
pub fn replayed_are_turns()
    ensures { AnsweredAreTurns }
{}

/// A new room and new desks that replayed the journal of what a server did have the drafts, publications and rows that
/// this had left, and know all that was published.
pub fn journal_leads_back()
    ensures { JournalLeadsBack }
{
    replayed_are_turns();
    restarts::room_is_recovered();
    restarts::desk_is_recovered();
}

/// What was answered before a restart, and what is done after the replay of its journal, are what one server did.
pub fn goes_on_as_one_server()
    ensures { GoesOnAsOneServer }
{
    journal_leads_back();
    restarts::is_one_server();
}

/// At an exchange of the author's room, what a server appends keeps its journal that of what it did: the exchange's
/// entry where it is persisted, nothing where it isn't.
pub fn journal_grows_by_exchange()
    ensures { JournalGrowsByExchange }
{
    reads_the_request();
}

/// The same at a turn of an operator's desk.
pub fn journal_grows_by_turn()
    ensures { JournalGrowsByTurn }
{
    reads_the_request();
}

/// Each prefix of a journal is the journal of a prefix of what was done, so that what was synced before a crash leaves
/// nothing out in between, and has nothing in part.
pub fn prefixes_are_journals()
    ensures { FrontsAreJournals }
{}

/// The beginning of what a server did from a room and desks on is what a server did: of one that was killed, or that
/// was overtaken by another owner of its journal. Where its desks answer only at what was published before, the first
/// of its steps are one.
pub fn prefixes_go_on()
    ensures published { PrefixesHavePublished }
    ensures beginnings { PrefixesGoOn }
    ensures steps { FirstStepsAreABeginning }
{}

/// Where a prefix of a server's entries has the records of all that it told, it is the journal of the first of what it
/// did, with all that it told.
pub fn prefixes_include_replies()
    ensures { PrefixesIncludeReplies }
{}

/// Each prefix of the entries of a journal of what one server did is the journal of what one server did. The turns that
/// are persisted are so at any publications.
pub fn prefixes_are_of_one_server()
    ensures { PrefixesAreOfOneServer }
{
    restarts::changes_stand_apart();
    restarts::desk_is_recovered();
}

/// What stands of servers that wrote a journal one after another, each started again from what stood of those before,
/// is what one server did, and their entries are its journal.
pub fn owners_are_one_server()
    ensures none { NothingIsOneServersWork }
    ensures owners { OwnersAreOneServer }
{}
