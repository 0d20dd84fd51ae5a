//! A journal's payloads: the head, and the entries after it.
ghost use Rattle.std.specs.List.{AllByRecursion};
ghost use Rattle.std.specs.Prelude.{◌≡◌, ◌⊎◌, ℕ, List, [], ◌∷◌, ◌++◌, map, drop, take, Some, None, IfOk, IfErr, OnOk, IsErrOf};
ghost use Rattle.mds_request.specs.Configuration.{configuration};
ghost use Rattle.journal_entry.specs.Entries.{IsEntry, entry_of, entry_text};
ghost use Rattle.journal_entry.specs.Heads.{Share as Part, AreShares, share_of, shares_of, head_text, unfit};
ghost use Rattle.journal_entry.specs.declared.fitting.Unfit.{Unfit as Against};
ghost use Rattle.journal_folder.specs.Choosing.{needed};

use crate::extraction::is_dropped;
use crate::fault::{FolderFault, entry_fault};
use journal_entry::{JournalEntry, OperatorShare, fits, head_text, read_entry, read_head, shares};
use journal_file::Log;
use mds_request::Config;
use mds_text::Id;
use std::alloc::{AllocError, Global};

/// The payloads of a log. Where it has none, the configuration's head becomes the first: it is appended and synced.
///
/// # Errors
///
/// The log couldn't be read, appended to or synced, or out of memory.
pub fn begin_journal<L: Log>(
    alloc: Global,
    log: &mut L,
    config: &Config,
) -> Result<Vec<Vec<u8>>, FolderFault>
    requires listed { (first : List (List ℕ)) × L.may_be log.old first }
    ensures listed { IfOk result (λ texts. L.may_be log.new (map (λ t. t.items) texts.items)) }
{
    let texts = log.read_from(0)?;
    if !texts.is_empty() {
        return Ok(texts);
    }
    let group = head_group(alloc, config)?;
    log.append(0, &group)?;
    log.sync()?;
    Ok(group)
}

/// A group of only the configuration's head.
fn head_group(alloc: Global, config: &Config) -> Result<Vec<Vec<u8>>, AllocError>
    ensures { IfOk result (λ group. map (λ t. t.items) group.items ≡ head_text (shares_of (configuration config.now)) ∷ []) }
{
    let operators = shares(alloc, config)?;
    let head = head_text(alloc, &operators)?;
    let mut group = Vec::new(alloc);
    group.push(head)?;
    Ok(group)
}

/// What a head requires of a configuration: each operator that isn't left out.
fn needed_shares(
    alloc: Global,
    shares: &[OperatorShare],
    dropped: &[Id],
) -> Result<Vec<OperatorShare>, AllocError>
    ensures { IfOk result (λ kept. map share_of kept.items ≡ needed dropped.now (map share_of shares.now)) }
{
    let mut kept = Vec::new(alloc);
    for share in shares {
        if !is_dropped(dropped, share.id) {
            kept.push(OperatorShare {
                id: share.id,
                vehicles: 0,
            })?;
        }
    }
    Ok(kept)
}

/// Whether a server may continue, with a configuration, from a journal with this head: each operator of the head is
/// there, except for those that are left out.
///
/// # Errors
///
/// The payload is no head of a known version, an operator is missing, or out of memory.
pub fn suits(alloc: Global, config: &Config, head: &[u8], dropped: &[Id]) -> Result<(), FolderFault>
    ensures suits { OnOk result ((shares : List Part) × AreShares shares × (head.now ≡ head_text shares)
        × (unfit (configuration config.now) (needed dropped.now shares) ≡ None)) }
    ensures unfit { (against : Against) → IsErrOf result (FolderFault.Unfitting against) → (shares : List Part) × AreShares shares
        × (head.now ≡ head_text shares) × (unfit (configuration config.now) (needed dropped.now shares) ≡ Some against) }
{
    let shares = read_head(alloc, head)?;
    let needed = needed_shares(alloc, &shares, dropped)?;
    match fits(config, &needed) {
        Ok(()) => Ok(()),
        Err(against) => Err(FolderFault::Unfitting(against)),
    }
}

/// Adds the entry of a payload, that of the record with this number.
///
/// # Errors
///
/// The payload is no entry of a known version, or out of memory.
fn push_entry<'a>(
    alloc: Global,
    entries: &mut Vec<JournalEntry<'a>>,
    number: usize,
    text: &'a [u8],
) -> Result<(), FolderFault>
    ensures texts { OnOk result (map (λ e. entry_text (entry_of e)) entries.new.items
        ≡ map (λ e. entry_text (entry_of e)) entries.old.items ++ text.now ∷ []) }
    ensures each { OnOk result (AllByRecursion IsEntry (map entry_of entries.old.items)
        → AllByRecursion IsEntry (map entry_of entries.new.items)) }
{
    match read_entry(alloc, text) {
        Ok(entry) => match entries.push(entry) {
            Ok(()) => Ok(()),
            Err(_) => Err(FolderFault::NoMemory),
        },
        Err(fault) => Err(entry_fault(number, fault)),
    }
}

/// Decodes payloads to entries, in their order. They borrow from the payloads, of which the first is the record with
/// the number `first`, counted from 0.
///
/// # Errors
///
/// The first payload that is no entry of a known version, by the number of its record, or out of memory.
pub fn entries_in(
    alloc: Global,
    first: usize,
    texts: &[Vec<u8>],
) -> Result<Vec<JournalEntry<'_>>, FolderFault>
    ensures texts { IfOk result (λ entries. map (λ e. entry_text (entry_of e)) entries.items ≡ map (λ t. t.items) texts.now) }
    ensures each { IfOk result (λ entries. AllByRecursion IsEntry (map entry_of entries.items)) }
{
    let mut entries = Vec::new(alloc);
    for (number, text) in texts.iter().enumerate() {
        push_entry(alloc, &mut entries, first.saturating_add(number), text)?;
    }
    Ok(entries)
}

/// The same for payloads that lie among a journal's bytes.
///
/// # Errors
///
/// As `entries_in`.
pub fn lent_entries_in<'a>(
    alloc: Global,
    first: usize,
    texts: &[&'a [u8]],
) -> Result<Vec<JournalEntry<'a>>, FolderFault>
    ensures { IfOk result (λ entries. map (λ e. entry_text (entry_of e)) entries.items ≡ map (λ t. t.now) texts.now) }
{
    let mut entries = Vec::with_capacity(alloc, texts.len())?;
    for (number, text) in texts.iter().enumerate() {
        push_entry(alloc, &mut entries, first.saturating_add(number), text)?;
    }
    Ok(entries)
}
