//! Which of a journal's entries stay, by their kinds: two passes, one forwards and one backwards, each with a map of
//! what is known of each device.
ghost use Rattle.std.specs.Prelude.{◌≡◌, [], ◌∷◌, List, IfOk, OnOk, bytes_eq};
ghost use Rattle.std.specs.BTreeMap.{get};
ghost use Rattle.std.specs.Option.{option_copied};
ghost use Rattle.journal_compaction.specs.Staying.{begins, state_before, staying};
ghost use Rattle.journal_compaction.specs.Passes.{device_cmp, begins_at, beginnings, joined, ahead_of, stays_by, stays_at};
ghost use Rattle.journal_compaction.specs.declared.kind.EntryKind.{EntryKind as Known};
ghost use Rattle.journal_compaction.specs.declared.kind.Device.{Device as Owned};

use crate::kind::{Device, EntryKind, LaterEntries};
use mds_text::Token;
use std::alloc::{AllocError, Global};
use std::collections::BTreeMap;

/// Whether two states are the same.
fn is_same_state(state: Token, other: Token) -> bool
    ensures { result ≡ bytes_eq state other }
{
    state == other
}

/// Whether a report of this state begins a run after the state before.
fn is_beginning(state: Token, before: Option<Token>) -> bool
    ensures { result ≡ begins state before }
{
    match before {
        Some(other) => !is_same_state(other, state),
        None => true,
    }
}

/// Whether an entry begins a run of its device. The map has the device's state from then on.
fn begins_run(states: &mut BTreeMap<Device, Token>, kind: EntryKind) -> Result<bool, AllocError>
    ensures begins { (before : List Known) → IfOk result (λ is. ((q : Owned) → get device_cmp states.old q ≡ state_before q before)
        → is ≡ begins_at before kind) }
    ensures known { (before : List Known) → OnOk result (((q : Owned) → get device_cmp states.old q ≡ state_before q before)
        → (q : Owned) → get device_cmp states.new q ≡ state_before q (kind ∷ before)) }
{
    match kind {
        EntryKind::Report(device, state) => {
            let begins = is_beginning(state, states.get(&device).copied());
            states.insert(device, state)?;
            Ok(begins)
        }
        EntryKind::Removal(device) => {
            states.remove(&device);
            Ok(false)
        }
        EntryKind::Other => Ok(false),
    }
}

/// Which of the entries begin a run of their device's state.
fn beginnings(alloc: Global, kinds: &[EntryKind]) -> Result<Vec<bool>, AllocError>
    ensures { IfOk result (λ found. found.items ≡ beginnings [] kinds.now) }
{
    let mut states = BTreeMap::new(alloc);
    let mut found = Vec::new(alloc);
    for kind in kinds {
        found.push(begins_run(&mut states, *kind)?)?;
    }
    Ok(found)
}

/// Whether a report stays, by what comes after it.
fn stays_by(state: Token, begins: bool, ahead: Option<&LaterEntries>) -> bool
    ensures { result ≡ stays_by state begins (option_copied ahead.entry) }
{
    match ahead {
        None => true,
        Some(LaterEntries::Run(other)) => is_same_state(*other, state) && begins,
        Some(LaterEntries::Settled) => false,
    }
}

/// What comes at and after a report.
fn with_report(state: Token, ahead: Option<&LaterEntries>) -> LaterEntries
    ensures { result ≡ joined state (option_copied ahead.entry) }
{
    match ahead {
        None => LaterEntries::Run(state),
        Some(LaterEntries::Run(other)) => {
            if is_same_state(*other, state) {
                LaterEntries::Run(state)
            } else {
                LaterEntries::Settled
            }
        }
        Some(LaterEntries::Settled) => LaterEntries::Settled,
    }
}

/// Whether an entry stays, by what is known to come after it, to which it is then added.
fn stays(
    behind: &mut BTreeMap<Device, LaterEntries>,
    kind: EntryKind,
    begins: bool,
) -> Result<bool, AllocError>
    ensures stays { (kinds : List Known) → IfOk result (λ is. ((q : Owned) → get device_cmp behind.old q ≡ ahead_of q kinds)
        → is ≡ stays_at kind begins kinds) }
    ensures known { (kinds : List Known) → OnOk result (((q : Owned) → get device_cmp behind.old q ≡ ahead_of q kinds)
        → (q : Owned) → get device_cmp behind.new q ≡ ahead_of q (kind ∷ kinds)) }
{
    match kind {
        EntryKind::Report(device, state) => {
            let ahead = behind.get(&device);
            let stays = stays_by(state, begins, ahead);
            let next = with_report(state, ahead);
            behind.insert(device, next)?;
            Ok(stays)
        }
        EntryKind::Removal(device) => {
            behind.insert(device, LaterEntries::Settled)?;
            Ok(false)
        }
        EntryKind::Other => Ok(true),
    }
}

/// Which of the entries stay, by their kinds.
///
/// # Errors
///
/// Out of memory.
pub(crate) fn stay_marks(alloc: Global, kinds: &[EntryKind]) -> Result<Vec<bool>, AllocError>
    ensures { IfOk result (λ marks. marks.items ≡ staying [] kinds.now) }
{
    let begun = beginnings(alloc, kinds)?;
    let mut behind = BTreeMap::new(alloc);
    let mut marks = Vec::new(alloc);
    for place in (0..kinds.len()).rev() {
        marks.push(stays(&mut behind, kinds[place], begun[place])?)?;
    }
    marks.reverse();
    Ok(marks)
}
