//! The known name that an unknown one may have meant.
ghost use Rattle.std.specs.Prelude.{◌≡◌, IfOk};
ghost use Rattle.std.specs.Str.{chars};
ghost use Rattle.cli_config.specs.Nearest.{edits_to, hint, is_nearer, most_edits, nearer, nearest, nearest_from};

use crate::located_members::MemberOwner;
use crate::members::{KnownMember, known_of, others_of};
use std::alloc::{AllocError, Global};
use strsim::osa_distance;

/// The most bytes of a name that is compared with the known ones.
const MOST_COMPARED: usize = 64;

/// The member that may have been meant.
#[derive(Clone, Copy, Debug, PartialEq, Eq)]
pub enum Hint {
    /// No known name is close enough.
    Nothing,
    /// This one, which belongs to the same object.
    Here(KnownMember),
    /// This one, which belongs to the other object.
    Elsewhere(KnownMember),
}

/// A known name, and its edit distance.
#[derive(Clone, Copy, Debug, PartialEq, Eq)]
struct Near {
    known: KnownMember,
    edits: usize,
}

/// The greatest edit distance of a hint: a third of the name's bytes, and one at least.
fn most_edits(name: &str) -> usize
    ensures { result ≡ most_edits name.now }
{
    name.len().max(3) / 3
}

fn is_nearer(edits: usize, best: Option<Near>) -> bool
    ensures { result ≡ is_nearer edits best }
{
    match best {
        None => true,
        Some(near) => edits < near.edits,
    }
}

/// The nearer one of the nearest so far and a known one.
fn nearer(
    alloc: Global,
    name: &str,
    best: Option<Near>,
    known: KnownMember,
) -> Result<Option<Near>, AllocError>
    ensures { IfOk result (λ near. near ≡ nearer name.now best known) }
{
    let edits = osa_distance(alloc, name, known.name())?;
    if edits <= most_edits(name) && is_nearer(edits, best) {
        Ok(Some(Near { known, edits }))
    } else {
        Ok(best)
    }
}

/// The nearest of these to a name; none for a name of more than 64 bytes.
fn nearest(
    alloc: Global,
    name: &str,
    members: &[KnownMember],
) -> Result<Option<KnownMember>, AllocError>
    ensures { IfOk result (λ known. known ≡ nearest name.now members.now) }
{
    if name.len() > MOST_COMPARED {
        return Ok(None);
    }
    let mut best = None;
    for known in members {
        best = nearer(alloc, name, best, *known)?;
    }
    match best {
        Some(near) => Ok(Some(near.known)),
        None => Ok(None),
    }
}

/// The member that may have been meant by an unknown name in an object.
///
/// # Errors
///
/// Out of memory.
pub(crate) fn hint_for(alloc: Global, owner: MemberOwner, name: &str) -> Result<Hint, AllocError>
    ensures { IfOk result (λ found. found ≡ hint owner name.now) }
{
    if let Some(known) = nearest(alloc, name, known_of(owner))? {
        return Ok(Hint::Here(known));
    }
    match nearest(alloc, name, others_of(owner))? {
        Some(known) => Ok(Hint::Elsewhere(known)),
        None => Ok(Hint::Nothing),
    }
}
