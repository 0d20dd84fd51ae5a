//! Starts a server's room and desks from the payloads of its log.
ghost use Rattle.std.specs.Prelude.{◌≡◌, map, count_by, IfOk, option_to_list};
ghost use Rattle.mds_request.specs.Configuration.{configuration};
ghost use Rattle.mds_snapshot.specs.Opening.{book_of};
ghost use Rattle.journal_entry.specs.Entries.{entry_of};
ghost use Rattle.journal_recovery.specs.Laws.{IsStartedAgain};
ghost use Rattle.journal_recovery.specs.Recovery.{server_of};
ghost use Rattle.server_journal.specs.Faults.{fault_of, full_fleet, is_conflict};
ghost use Rattle.server_journal.specs.Starting.{HasHead, IsStartedFrom, is_publication};

use crate::fault::JournalFault;
use crate::host::ReplayHost;
use crate::progress::ReplayProgress;
use journal_entry::{EntryClient, JournalEntry};
use journal_folder::{Damage, FolderFault, entries_in, suits, without_operators};
use journal_recovery::{Cause, Fault, StartFault, start_again};
use mds_desk::{AuthorRoom, Desk};
use mds_request::{Config, Verb};
use mds_snapshot::{Blank, OpeningName};
use mds_text::Id;
use server_control::{Counters, Figure};
use std::alloc::{AllocError, Global};

/// The status of a report that a full fleet refuses: 409.
const CONFLICT: u16 = 409;

/// The operators that are left out: the one that is given, or none.
pub fn dropped_ids(alloc: Global, dropped: Option<Id>) -> Result<Vec<Id>, AllocError>
    ensures { IfOk result (λ ids. ids.items ≡ option_to_list dropped) }
{
    let mut ids = Vec::new(alloc);
    if let Some(id) = dropped {
        ids.push(id)?;
    }
    Ok(ids)
}

/// The payloads of a journal's entries, behind its head, where a server with this configuration may continue the
/// journal.
///
/// # Errors
///
/// `Folder` where the first payload is no head of a known version or the configuration doesn't fit it; `NoMemory`.
fn fitting_texts<'a>(
    alloc: Global,
    config: &Config,
    texts: &'a [Vec<u8>],
    dropped: &[Id],
) -> Result<&'a [Vec<u8>], JournalFault>
    ensures { IfOk result (λ rest. HasHead (configuration config.now) dropped.now (map (λ t. t.items) texts.now)
        (map (λ t. t.items) rest.now)) }
{
    let Some((head, rest)) = texts.split_first() else {
        return Err(JournalFault::Folder(FolderFault::Damaged(Damage::NoHead)));
    };
    match suits(alloc, config, head, dropped) {
        Ok(()) => Ok(rest),
        Err(fault) => Err(JournalFault::Folder(fault)),
    }
}

/// Whether an entry is a publication: to publish is the author's only request with this verb.
fn is_publication(entry: &JournalEntry<'_>) -> bool
    ensures { result ≡ is_publication (entry_of entry.now) }
{
    matches!(
        (entry.client, entry.verb),
        (EntryClient::Author, Verb::Post)
    )
}

/// How many of these entries are publications.
fn publications(entries: &[JournalEntry<'_>]) -> usize
    ensures { result ≡ count_by (λ entry. is_publication (entry_of entry)) entries.now }
{
    entries
        .iter()
        .filter(|entry| is_publication(*entry))
        .count()
}

/// The author's room and the desks, in the configuration's order, as the server that wrote a journal of these payloads
/// left them: each of its entries is replayed, but for those of the operators that are left out. K names the opening.
/// `journal_folder::begin_journal` gives the payloads of a log.
///
/// What was answered before and what is done from here on are what one server did. The publications among the entries
/// are counted, and the progress is reported on standard error.
///
/// # Errors
///
/// `Folder` where the payloads aren't those of a journal of this configuration; `Refused` at the first entry that isn't
/// answered with success, or `FullFleet` where that is for its operator's limit; `NoMemory`.
pub fn resume<K: OpeningName, R: ReplayHost>(
    rt: &R,
    texts: &[Vec<u8>],
    config: Config,
    blank: Blank,
    dropped: &[Id],
    counters: &Counters,
) -> Result<(AuthorRoom<K>, Vec<Desk<K>>), JournalFault>
    requires book { book_of blank ≡ K.book }
    ensures { IfOk result (λ r. IsStartedFrom (configuration config) dropped.now (map (λ t. t.items) texts.now)
        (server_of r.0 r.1.items)) }
{
    let rest = match fitting_texts(rt.alloc(), &config, texts, dropped) {
        Ok(rest) => rest,
        Err(fault) => return Err(fault),
    };
    let all = match entries_in(rt.alloc(), 1, rest) {
        Ok(all) => all,
        Err(fault) => return Err(JournalFault::Folder(fault)),
    };
    let entries = match without_operators(rt.alloc(), &all, dropped) {
        Ok(entries) => entries,
        Err(_) => return Err(JournalFault::NoMemory),
    };
    replay_entries(rt, config, blank, &entries, counters)
}

/// Whether a cause is the status by which a full fleet refuses a report.
fn is_conflict(cause: Cause) -> bool
    ensures { result ≡ is_conflict cause }
{
    matches!(cause, Cause::Refused(CONFLICT))
}

/// The operator whose report can't be replayed because its fleet is full, where that is the fault.
fn full_fleet(entries: &[JournalEntry<'_>], fault: &Fault) -> Option<Id>
    ensures { result ≡ full_fleet entries.now fault.now }
{
    if !is_conflict(fault.cause) {
        return None;
    }
    match entries.get(fault.entry)?.client {
        EntryClient::Operator(id) => Some(id),
        EntryClient::Author => None,
    }
}

/// Why no server is started from a journal with these entries, whose replay ended so.
fn fault_of(entries: &[JournalEntry<'_>], fault: StartFault) -> JournalFault
    ensures { result ≡ fault_of entries.now fault }
{
    let StartFault::Stopped(stopped) = fault else {
        return JournalFault::NoMemory;
    };
    match full_fleet(entries, &stopped) {
        Some(operator) => JournalFault::FullFleet(operator, stopped),
        None => JournalFault::Refused(stopped),
    }
}

/// The author's room and the desks after these entries are replayed.
///
/// # Errors
///
/// As `fault_of` says.
fn replay_entries<K: OpeningName, R: ReplayHost>(
    rt: &R,
    config: Config,
    blank: Blank,
    entries: &[JournalEntry<'_>],
    counters: &Counters,
) -> Result<(AuthorRoom<K>, Vec<Desk<K>>), JournalFault>
    requires book { book_of blank ≡ K.book }
    ensures { IfOk result (λ r. IsStartedAgain (configuration config) (map entry_of entries.now)
        (server_of r.0 r.1.items)) }
{
    counters.set(Figure::Revision, publications(entries) as u64);
    let mut progress = ReplayProgress(*rt);
    match start_again::<K, R, ReplayProgress<R>>(
        rt,
        rt.alloc(),
        config,
        blank,
        entries,
        &mut progress,
    ) {
        Ok(started) => Ok(started),
        Err(fault) => Err(fault_of(entries, fault)),
    }
}
