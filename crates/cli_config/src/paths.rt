//! The path of the member that an error is in, and its value in the text.
ghost use Rattle.std.specs.Prelude.{◌≡◌, ◌++◌, None, IfOk, OnOk, ◌<◌, map, string_bytes};
ghost use Rattle.cli_config.specs.Names.{name_of};
ghost use Rattle.cli_config.specs.Paths.{flaw_path, is_document, is_meant, is_nameless, is_operator, key_member, last_meant, names_or_is, operator_text, path_text, shown, shown_byte, spot_text, wrong_path};
ghost use Rattle.cli_config.specs.LocatedMembers.{seen};

use crate::located_members::{LocatedMember, MemberOwner, Value, has_name};
use crate::members::KnownMember;
use mds_config_error::{Key, OperatorFlaw, Wrong};
use std::alloc::{AllocError, Global};

/// The path of an error.
#[derive(Clone, Copy, Debug, PartialEq, Eq)]
pub(crate) enum Path {
    /// The whole text.
    Document,
    /// A member of the configuration.
    Member(KnownMember),
    /// The operator at this place.
    Operator(usize),
    /// A member of the operator at this place.
    OfOperator(usize, KnownMember),
}

fn flaw_path(place: usize, flaw: OperatorFlaw) -> Path
    ensures { result ≡ flaw_path place flaw }
{
    match flaw {
        OperatorFlaw::Entry => Path::Operator(place),
        OperatorFlaw::Id => Path::OfOperator(place, KnownMember::Id),
        OperatorFlaw::Limit | OperatorFlaw::LimitRange => Path::OfOperator(
            place,
            KnownMember::Limit,
        ),
        OperatorFlaw::Token => Path::OfOperator(place, KnownMember::Token),
    }
}

fn key_member(key: Key) -> KnownMember
    ensures { result ≡ key_member key }
{
    match key {
        Key::Id => KnownMember::Id,
        Key::Token => KnownMember::Token,
    }
}

/// The path of an error; of two operators with the same value, that of the second.
pub(crate) fn wrong_path(wrong: Wrong) -> Path
    ensures { result ≡ wrong_path wrong }
{
    match wrong {
        Wrong::Json | Wrong::Document => Path::Document,
        Wrong::Author => Path::Member(KnownMember::Author),
        Wrong::Operators | Wrong::TooManyOperators => Path::Member(KnownMember::Operators),
        Wrong::Operator(place, flaw) => flaw_path(place, flaw),
        Wrong::Zone => Path::Member(KnownMember::Zone),
        Wrong::Alike(key, _, second) => Path::OfOperator(second, key_member(key)),
        Wrong::AuthorsToken(place) => Path::OfOperator(place, KnownMember::Token),
    }
}

fn is_operator(place: usize, owner: MemberOwner) -> bool
    ensures { result ≡ is_operator place owner }
{
    match owner {
        MemberOwner::Document => false,
        MemberOwner::Operator(own) => place == own,
    }
}

/// Whether this is an operator itself, or its member with this name.
fn names_or_is(known: KnownMember, spot: &LocatedMember) -> bool
    ensures { result ≡ names_or_is (name_of known) (seen spot.now).name }
{
    match &spot.name {
        Some(own) => known.name() == own.as_str(),
        None => true,
    }
}

/// Whether a path means this member, or this operator, which may lack it.
fn is_meant(path: Path, spot: &LocatedMember) -> bool
    ensures { result ≡ is_meant path (seen spot.now) }
{
    match path {
        Path::Document => false,
        Path::Member(known) => spot.owner == MemberOwner::Document && has_name(known.name(), spot),
        Path::Operator(place) => is_operator(place, spot.owner) && spot.name.is_none(),
        Path::OfOperator(place, known) => {
            is_operator(place, spot.owner) && names_or_is(known, spot)
        }
    }
}

/// The last value that a path means.
pub(crate) fn last_value(path: Path, spots: &[LocatedMember]) -> Option<Value>
    ensures { result ≡ last_meant path None (map seen spots.now) }
{
    let mut found = None;
    for spot in spots {
        if is_meant(path, spot) {
            found = Some(spot.value);
        }
    }
    found
}

/// A byte of printable ASCII, or a question mark in place of any other.
fn printable_byte(byte: u8) -> u8
    ensures value { result ≡ shown_byte byte }
    ensures ascii { result < 128 }
{
    if 32 <= byte && byte <= 126 {
        byte
    } else {
        b'?'
    }
}

/// Adds a name as messages show it.
fn add_printable(text: &mut String, name: &str) -> Result<(), AllocError>
    ensures { OnOk result (string_bytes text.new ≡ string_bytes text.old ++ shown name.now) }
{
    for byte in name.as_bytes() {
        text.push(char::from(printable_byte(*byte)))?;
    }
    Ok(())
}

/// The path of an operator.
pub(crate) fn operator_text(alloc: Global, place: usize) -> Result<String, AllocError>
    ensures { IfOk result (λ text. string_bytes text ≡ operator_text place) }
{
    format!(in alloc; "operators[{place}]")
}

/// A path as messages show it.
///
/// # Errors
///
/// Out of memory.
pub(crate) fn path_text(alloc: Global, path: Path) -> Result<String, AllocError>
    ensures { IfOk result (λ text. string_bytes text ≡ path_text path) }
{
    match path {
        Path::Document => Ok(String::new(alloc)),
        Path::Member(known) => String::from_str(alloc, known.name()),
        Path::Operator(place) => operator_text(alloc, place),
        Path::OfOperator(place, known) => {
            let mut text = operator_text(alloc, place)?;
            text.push_str(".")?;
            text.push_str(known.name())?;
            Ok(text)
        }
    }
}

/// The path of a member, or of an operator.
///
/// # Errors
///
/// Out of memory.
pub(crate) fn member_text(alloc: Global, spot: &LocatedMember) -> Result<String, AllocError>
    ensures { IfOk result (λ text. string_bytes text ≡ spot_text (seen spot.now)) }
{
    let mut text = match spot.owner {
        MemberOwner::Document => String::new(alloc),
        MemberOwner::Operator(place) => operator_text(alloc, place)?,
    };
    if let Some(name) = &spot.name {
        if spot.owner != MemberOwner::Document {
            text.push_str(".")?;
        }
        add_printable(&mut text, name.as_str())?;
    }
    Ok(text)
}
