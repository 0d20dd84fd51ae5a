//! The questions by which compaction compares two servers.
ghost use Rattle.std.specs.Prelude.{◌≡◌, [], ◌∷◌, ◌++◌, map, IfOk, OnOk, if◌then◌else◌};
ghost use Rattle.mds_request.specs.Configuration.{configuration, operator};
ghost use Rattle.journal_entry.specs.Entries.{entry_of};
ghost use Rattle.journal_compaction.specs.Questions.{asks, is_draft, fleets, drafts, questions};

use journal_entry::{EntryClient, JournalEntry};
use mds_request::{Config, Operator, Verb};
use mds_text::Moment;
use std::alloc::{AllocError, Global};

/// A request of this client, for this target.
fn question_for<'a>(at: Moment, client: EntryClient, target: &'a [u8]) -> JournalEntry<'a>
    ensures { entry_of result ≡ asks at client target.now }
{
    JournalEntry {
        client,
        at,
        verb: Verb::Get,
        target,
        body: b"",
    }
}

/// Whether the author put a draft by this entry.
fn is_draft(entry: &JournalEntry<'_>) -> bool
    ensures { result ≡ is_draft (entry_of entry.now) }
{
    match (entry.client, entry.verb) {
        (EntryClient::Author, Verb::Put) => true,
        _ => false,
    }
}

/// Adds a question.
fn add<'a>(
    list: &mut Vec<JournalEntry<'a>>,
    at: Moment,
    client: EntryClient,
    target: &'a [u8],
) -> Result<(), AllocError>
    ensures { OnOk result (map entry_of list.new.items ≡ map entry_of list.old.items ++ asks at client target.now ∷ []) }
{
    match list.push(question_for(at, client, target)) {
        Ok(()) => Ok(()),
        Err(_) => Err(AllocError),
    }
}

/// Adds the question for each operator's vehicles.
fn add_fleets<'a>(
    list: &mut Vec<JournalEntry<'a>>,
    operators: &[Operator],
    at: Moment,
) -> Result<(), AllocError>
    ensures { OnOk result (map entry_of list.new.items ≡ map entry_of list.old.items ++ fleets at (map operator operators.now)) }
{
    for operator in operators {
        add(
            list,
            at,
            EntryClient::Operator(operator.id),
            b"/fleet/vehicles",
        )?;
    }
    Ok(())
}

/// Adds the question for an entry's draft, where the author put one by it.
fn add_draft<'a>(
    list: &mut Vec<JournalEntry<'a>>,
    entry: &JournalEntry<'a>,
    at: Moment,
) -> Result<(), AllocError>
    ensures { OnOk result (map entry_of list.new.items ≡ map entry_of list.old.items ++ drafts at (entry_of entry.now ∷ [])) }
{
    if is_draft(entry) {
        add(list, at, EntryClient::Author, entry.target)
    } else {
        Ok(())
    }
}

/// Adds the questions for the drafts that the author put by these entries.
fn add_drafts<'a>(
    list: &mut Vec<JournalEntry<'a>>,
    entries: &[JournalEntry<'a>],
    at: Moment,
) -> Result<(), AllocError>
    ensures { OnOk result (map entry_of list.new.items ≡ map entry_of list.old.items ++ drafts at (map entry_of entries.now)) }
{
    for entry in entries {
        add_draft(list, entry, at)?;
    }
    Ok(())
}

/// The questions to a server of a journal with these entries, at this moment: the author asks for the policies, the
/// geographies and each draft that an entry put, and each operator for its vehicles.
///
/// # Errors
///
/// Out of memory.
pub(crate) fn questions<'a>(
    alloc: Global,
    config: &Config,
    entries: &[JournalEntry<'a>],
    at: Moment,
) -> Result<Vec<JournalEntry<'a>>, AllocError>
    ensures { IfOk result (λ list. map entry_of list.items ≡ questions (configuration config.now) at (map entry_of entries.now)) }
{
    let mut list = Vec::new(alloc);
    add(&mut list, at, EntryClient::Author, b"/policies")?;
    add(&mut list, at, EntryClient::Author, b"/geographies")?;
    add_fleets(&mut list, config.operators(), at)?;
    add_drafts(&mut list, entries, at)?;
    Ok(list)
}
