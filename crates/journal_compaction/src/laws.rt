//! Laws of compaction, and of restarts from compacted journals. Each function's contract is the law; the functions do
//! nothing but call the laws that theirs follow from.
ghost use Rattle.journal_compaction.specs.Exchanged.{ExchangedAreCompacted, GoesOnFromExchanged};
ghost use Rattle.journal_compaction.specs.Laws.{RowsStay};
ghost use Rattle.journal_compaction.specs.Restarts.{ThinnedDeskIsRecovered, DeskIsRecoveredFromJournal, RowsStayThroughout};
ghost use Rattle.journal_compaction.specs.Restarts.{AuthorsEntriesStay, ThinnedLeadsBack, GoesOnFromThinned};

use journal_laws::laws as restarts;
use journal_recovery::laws as replays;

/// The reports of a device that stay lead to the same row as all its reports since it was last removed.
pub fn rows_stay()
    ensures { RowsStay }
{
    restarts::compacted_row_is_the_same();
}

/// However often a journal is appended to and compacted, each device's reports in it lead to the same row as all that
/// were ever appended.
pub fn rows_stay_throughout()
    ensures { RowsStayThroughout }
{
    rows_stay();
}

/// However often a journal is appended to and compacted, it has all entries of the author that were ever appended, in
/// their order.
pub fn authors_entries_stay()
    ensures { AuthorsEntriesStay }
{}

/// The compacted entries, replayed with success, lead to the rows of the desk whose persisted requests all the entries
/// tell, at whatever publications.
pub fn thinned_desk_is_recovered()
    ensures { ThinnedDeskIsRecovered }
{
    rows_stay();
}

/// The same of a journal that was appended to and compacted any number of times: it leads to the rows of the desk whose
/// persisted requests are all that were ever appended.
pub fn desk_is_recovered_from_journal()
    ensures { DeskIsRecoveredFromJournal }
{
    rows_stay();
}

/// A new room and new desks that replayed such a journal have the drafts, publications and rows that the server had
/// left whose journal are all the entries that were ever appended, and know all that was published.
pub fn thinned_journal_leads_back()
    ensures { ThinnedLeadsBack }
{
    replays::replayed_are_turns();
    restarts::room_is_recovered();
    authors_entries_stay();
    desk_is_recovered_from_journal();
}

/// What was answered before a restart from such a journal, and what is done after it, are what one server did.
pub fn goes_on_from_thinned()
    ensures { GoesOnFromThinned }
{
    thinned_journal_leads_back();
    restarts::is_one_server();
}

/// What the file of a journal has that was exchanged while it was appended to is the journal after compactions, assuming
/// no checksum collision: this follows from what a `journal_swap::SwapLog` over `AnswersAgree` may be of.
pub fn exchanged_are_compacted()
    ensures { ExchangedAreCompacted }
{}

/// What was answered before a restart from such a file, and what is done after it, are what one server did.
pub fn goes_on_from_exchanged()
    ensures { GoesOnFromExchanged }
{
    exchanged_are_compacted();
    goes_on_from_thinned();
}
