//! Finds the members among the lexemes of a text.
ghost use Rattle.std.specs.Prelude.{◌≡◌, ◌+◌, ◌++◌, ◌<◌, ◌≤◌, ◌^◌, map, length, option_map, option_to_list, IfOk, OnOk};
ghost use Rattle.cli_config.specs.LocatedMembers.{begins_value, entry_from, is_colon, is_in_list, is_list, is_text, lists_operators, member_from, next_at, seen, spot_in, spots_from, start, value_at, walk_after};

use crate::lexemes::{LexemeAt, LexemeKind};
use crate::located_members::{LocatedMember, MemberOwner, Value, piece, string_text};
use std::alloc::{AllocError, Global};

/// The state of a walk over lexemes.
#[derive(Clone, Copy, Debug, PartialEq, Eq)]
pub(crate) struct Walk {
    /// How many brackets are open.
    pub(crate) depth: usize,
    /// Whether the second of them is that of the operators' list.
    pub(crate) listed: bool,
    /// The operator's place in the list.
    pub(crate) place: usize,
}

fn begins_value(sign: LexemeKind) -> bool
    ensures { result ≡ begins_value sign }
{
    match sign {
        LexemeKind::OpenObject | LexemeKind::OpenList | LexemeKind::Text => true,
        LexemeKind::Truth | LexemeKind::Null | LexemeKind::Number => true,
        LexemeKind::CloseObject | LexemeKind::CloseList | LexemeKind::Colon | LexemeKind::Comma =>
            false,
    }
}

/// The value that begins with this lexeme, by the lexemes after it and the text's end.
fn value_at(end: usize, first: LexemeAt, behind: &[LexemeAt]) -> Value
    ensures { result ≡ value_at end first behind.now }
{
    let to = match behind {
        [next, ..] => next.at,
        [] => end,
    };
    Value {
        from: first.at,
        to,
        sign: first.sign,
    }
}

/// The member at the beginning of these lexemes: a string, a colon and a value.
fn member_from(
    alloc: Global,
    text: &[u8],
    owner: MemberOwner,
    marks: &[LexemeAt],
) -> Result<Option<LocatedMember>, AllocError>
    ensures { IfOk result (λ spot. option_map seen spot ≡ member_from text.now owner marks.now) }
{
    let [name, colon, first, behind @ ..] = marks else {
        return Ok(None);
    };
    if name.sign != LexemeKind::Text || colon.sign != LexemeKind::Colon {
        return Ok(None);
    }
    let written = piece(text, name.at, colon.at);
    Ok(Some(LocatedMember {
        owner,
        name: Some(string_text(alloc, written)?),
        at: name.at,
        value: value_at(text.len(), *first, behind),
    }))
}

/// The entry of the operators' list at the beginning of these lexemes.
fn entry_from(text: &[u8], place: usize, marks: &[LexemeAt]) -> Option<LocatedMember>
    ensures { option_map seen result ≡ entry_from text.now place marks.now }
{
    match marks {
        [first, behind @ ..] if begins_value(first.sign) => Some(LocatedMember {
            owner: MemberOwner::Operator(place),
            name: None,
            at: first.at,
            value: value_at(text.len(), *first, behind),
        }),
        _ => None,
    }
}

impl Walk {
    /// Whether it is within the operators' list, and in none of its entries.
    fn is_in_list(self) -> bool
        ensures { result ≡ is_in_list self }
    {
        self.listed && self.depth == 2
    }

    /// The member or operator at the beginning of these lexemes.
    fn member_in(
        self,
        alloc: Global,
        text: &[u8],
        marks: &[LexemeAt],
    ) -> Result<Option<LocatedMember>, AllocError>
        ensures { IfOk result (λ spot. option_map seen spot ≡ spot_in text.now self marks.now) }
    {
        if self.depth == 1 {
            member_from(alloc, text, MemberOwner::Document, marks)
        } else if self.is_in_list() {
            Ok(entry_from(text, self.place, marks))
        } else if self.listed && self.depth == 3 {
            member_from(alloc, text, MemberOwner::Operator(self.place), marks)
        } else {
            Ok(None)
        }
    }

    /// The state after a lexeme.
    fn after(self, sign: LexemeKind, spot: &Option<LocatedMember>) -> Walk
        requires depth { self.depth + 1 < 2 ^ 64 }
        requires place { self.place + 1 < 2 ^ 64 }
        ensures value { result ≡ walk_after self sign (option_map seen spot.now) }
        ensures depth { result.depth ≤ self.depth + 1 }
        ensures place { result.place ≤ self.place + 1 }
    {
        let Walk {
            depth,
            listed,
            place,
        } = self;
        match sign {
            LexemeKind::OpenObject | LexemeKind::OpenList => Walk {
                depth: depth + 1,
                listed,
                place,
            },
            LexemeKind::CloseObject | LexemeKind::CloseList => Walk {
                depth: depth.saturating_sub(1),
                listed: listed && 2 < depth,
                place,
            },
            LexemeKind::Comma if self.is_in_list() => Walk {
                depth,
                listed,
                place: place + 1,
            },
            LexemeKind::Text if depth == 1 => Walk {
                depth,
                listed: lists_operators(spot),
                place: 0,
            },
            _ => self,
        }
    }
}

/// Whether the operators' list begins after this member's name.
fn lists_operators(spot: &Option<LocatedMember>) -> bool
    ensures { result ≡ lists_operators (option_map seen spot.now) }
{
    match spot {
        Some(spot) => match &spot.name {
            Some(name) => name.as_str() == "operators" && spot.value.sign == LexemeKind::OpenList,
            None => false,
        },
        None => false,
    }
}

/// Adds the member or operator that was found, if one was.
fn add_member(spots: &mut Vec<LocatedMember>, spot: Option<LocatedMember>) -> Result<(), AllocError>
    ensures { OnOk result (map seen spots.new.items ≡ map seen spots.old.items ++ option_to_list (option_map seen spot)) }
{
    if let Some(spot) = spot {
        spots.push(spot)?;
    }
    Ok(())
}

/// The members of a text with these lexemes, and its operators.
///
/// # Errors
///
/// Out of memory.
pub(crate) fn members_of_text(
    alloc: Global,
    text: &[u8],
    marks: &[LexemeAt],
) -> Result<Vec<LocatedMember>, AllocError>
    ensures { IfOk result (λ spots. map seen spots.items ≡ spots_from text.now start marks.now) }
{
    let mut spots = Vec::new(alloc);
    let mut walk = Walk {
        depth: 0,
        listed: false,
        place: 0,
    };
    for (place, mark) in marks.iter().enumerate() {
        let spot = walk.member_in(alloc, text, &marks[place..])?;
        walk = walk.after(mark.sign, &spot);
        add_member(&mut spots, spot)?;
    }
    Ok(spots)
}
