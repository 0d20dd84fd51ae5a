//! What is found in a member that nobody reads, of which a later one is read, or whose value is none of its values.
ghost use Rattle.std.specs.Prelude.{◌≡◌, IfOk, length, map, option_map, string_bytes};
ghost use Rattle.cli_config.specs.FindKnown.{find_known};
ghost use Rattle.cli_config.specs.Names.{known_of};
ghost use Rattle.cli_config.specs.Members.{finding_named, finding_of, is_in_operator, is_name, is_named_again, is_overridden, is_oversight, is_oversight_word, is_truth, member_finding, stands_again, stands_in_document, stands_in_operator};
ghost use Rattle.cli_config.specs.LocatedMembers.{seen};

use crate::finding::FindingKind;
use crate::lexemes::LexemeKind;
use crate::located_members::{LocatedMember, MemberOwner, Value, has_name, piece, string_text};
use crate::members::{KnownMember, MOST_NAME, find_known, known_of};
use crate::nearest::hint_for;
use std::alloc::{AllocError, Global};

/// Whether a value is `true`, `false`, or null, which counts as absent.
fn is_truth(sign: LexemeKind) -> bool
    ensures { result ≡ is_truth sign }
{
    sign == LexemeKind::Truth || sign == LexemeKind::Null
}

/// Whether a value is a text of at most `MOST_NAME` bytes, or null, which counts as absent.
fn is_name(alloc: Global, text: &[u8], value: Value) -> Result<bool, AllocError>
    ensures { IfOk result (λ is. is ≡ is_name text.now value value.sign) }
{
    match value.sign {
        LexemeKind::Text => {
            let name = string_text(alloc, piece(text, value.from, value.to))?;
            Ok(name.len() <= MOST_NAME)
        }
        LexemeKind::Null => Ok(true),
        _ => Ok(false),
    }
}

/// Whether a text is one of those of the member `oversight`.
fn is_oversight_word(word: &str) -> bool
    ensures { result ≡ is_oversight_word word.now }
{
    word == "none" || word == "verdicts" || word == "vehicles"
}

/// Whether a value is a text of the member `oversight`, or null, which counts as absent.
fn is_oversight(alloc: Global, text: &[u8], value: Value) -> Result<bool, AllocError>
    ensures { IfOk result (λ is. is ≡ is_oversight text.now value value.sign) }
{
    match value.sign {
        LexemeKind::Text => {
            let word = string_text(alloc, piece(text, value.from, value.to))?;
            Ok(is_oversight_word(word.as_str()))
        }
        LexemeKind::Null => Ok(true),
        _ => Ok(false),
    }
}

/// Whether one of these is a member of the configuration with this name.
fn stands_in_document(name: &str, spots: &[LocatedMember]) -> bool
    ensures { result ≡ stands_in_document name.now (map seen spots.now) }
{
    for spot in spots {
        if spot.owner == MemberOwner::Document && has_name(name, spot) {
            return true;
        }
    }
    false
}

/// Whether this is a member of an operator.
fn is_in_operator(spot: &LocatedMember) -> bool
    ensures { result ≡ is_in_operator (seen spot.now) }
{
    spot.owner != MemberOwner::Document && spot.name.is_some()
}

/// Whether an operator's member has this name, among those of these that stand before the next operator or member of the
/// configuration.
fn stands_in_operator(name: &str, spots: &[LocatedMember]) -> bool
    ensures { result ≡ stands_in_operator name.now (map seen spots.now) }
{
    for spot in spots {
        if !is_in_operator(spot) {
            return false;
        }
        if has_name(name, spot) {
            return true;
        }
    }
    false
}

/// Whether a name stands again in the same object, among what comes after it.
fn stands_again(owner: MemberOwner, name: &str, later: &[LocatedMember]) -> bool
    ensures { result ≡ stands_again owner name.now (map seen later.now) }
{
    match owner {
        MemberOwner::Document => stands_in_document(name, later),
        MemberOwner::Operator(_) => stands_in_operator(name, later),
    }
}

/// Whether a member is known, and one of these, which come after it, is read in its place.
pub(crate) fn is_overridden(spot: &LocatedMember, later: &[LocatedMember]) -> bool
    ensures { result ≡ is_overridden (seen spot.now) (map seen later.now) }
{
    match &spot.name {
        Some(name) => {
            find_known(known_of(spot.owner), name.as_str()).is_some()
                && stands_again(spot.owner, name.as_str(), later)
        }
        None => false,
    }
}

/// What is found in a member with this name and value, by whether it is overridden, if there is something.
fn finding_of(
    alloc: Global,
    text: &[u8],
    owner: MemberOwner,
    name: &str,
    value: Value,
    overridden: bool,
) -> Result<Option<FindingKind>, AllocError>
    ensures { IfOk result (λ told. told ≡ finding_of text.now owner name.now value overridden (find_known name.now (known_of owner))) }
{
    match find_known(known_of(owner), name) {
        None => Ok(Some(FindingKind::Unread(hint_for(alloc, owner, name)?))),
        Some(KnownMember::Oversight) => {
            if is_oversight(alloc, text, value)? {
                Ok(None)
            } else {
                Ok(Some(FindingKind::NoOversight))
            }
        }
        Some(KnownMember::Public) => {
            if overridden || is_truth(value.sign) {
                Ok(None)
            } else {
                Ok(Some(FindingKind::NoTruth))
            }
        }
        Some(KnownMember::Name) => {
            if overridden || is_name(alloc, text, value)? {
                Ok(None)
            } else {
                Ok(Some(FindingKind::NoName))
            }
        }
        Some(_) => Ok(None),
    }
}

/// What is found in a member, by whether it is overridden, if there is something.
///
/// # Errors
///
/// Out of memory.
pub(crate) fn member_finding(
    alloc: Global,
    text: &[u8],
    spot: &LocatedMember,
    overridden: bool,
) -> Result<Option<FindingKind>, AllocError>
    ensures { IfOk result (λ told. told ≡ member_finding text.now overridden (seen spot.now)) }
{
    match &spot.name {
        Some(name) => finding_of(
            alloc,
            text,
            spot.owner,
            name.as_str(),
            spot.value,
            overridden,
        ),
        None => Ok(None),
    }
}
