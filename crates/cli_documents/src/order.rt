//! The order in which drafts are sent.
ghost use Rattle.std.specs.Prelude.{◌≡◌, ◌<◌, not, length, IfOk, IfSome, bytes_eq, position, slice_get, Some};
ghost use Rattle.std.specs.List.{list_any, remove};
ghost use Rattle.cli_documents.specs.Order.{waits_by, waits_for, waits, next_place, IsInTurn};

use crate::drafting::ImportDraft;
use mds_text::{DraftKind, Id};
use std::alloc::{AllocError, Global};

/// Whether this identifier is among these.
fn is_among(id: Id, ids: &[Id]) -> bool
    ensures { result ≡ list_any (bytes_eq id) ids.now }
{
    ids.iter().any(|other| id == *other)
}

/// Whether a draft waits for another: a policy waits for each geography, and for the policies that it supersedes.
fn waits_for(draft: &ImportDraft, other: &ImportDraft) -> bool
    ensures { result ≡ waits_for draft.now other.now }
{
    match (draft.kind, other.kind) {
        (DraftKind::Geography, _) => false,
        (DraftKind::Policy, DraftKind::Geography) => true,
        (DraftKind::Policy, DraftKind::Policy) => is_among(other.id, &draft.predecessors),
    }
}

/// Whether a draft waits for one of these.
fn waits(left: &[ImportDraft], draft: &ImportDraft) -> bool
    ensures { result ≡ waits left.now draft.now }
{
    left.iter().any(|other| waits_for(draft, other))
}

/// The index of the first draft that waits for none of these.
fn first_ready(left: &[ImportDraft]) -> Option<usize>
    ensures value { result ≡ position (λ draft. not (waits left.now draft)) left.now }
    ensures within { IfSome result (λ place. place < length left.now) }
{
    left.iter().position(|draft| !waits(left, draft))
}

/// The index of the first draft that waits for none of these, or 0 where each waits.
fn next_place(left: &[ImportDraft]) -> usize
    requires { 0 < length left.now }
    ensures value { result ≡ next_place left.now }
    ensures within { result < length left.now }
{
    match first_ready(left) {
        Some(place) => place,
        None => 0,
    }
}

/// Removes the next draft to be sent.
fn take_next(left: &mut Vec<ImportDraft>) -> ImportDraft
    requires { 0 < length left.old.items }
    ensures taken { slice_get left.old.items (next_place left.old.items) ≡ Some result }
    ensures rest { left.new.items ≡ remove left.old.items (next_place left.old.items) }
{
    let place = next_place(left);
    left.remove(place)
}

/// The drafts in the order in which they are sent: geographies first, and each policy behind those that it supersedes,
/// unless they supersede one another.
pub fn order_drafts(alloc: Global, drafts: Vec<ImportDraft>) -> Result<Vec<ImportDraft>, AllocError>
    ensures { IfOk result (λ v. IsInTurn drafts.items v.items) }
{
    let mut left = drafts;
    let mut ordered = Vec::new(alloc);
    'turns: while !left.is_empty() {
        let draft = take_next(&mut left);
        ordered.push(draft)?;
    }
    Ok(ordered)
}
