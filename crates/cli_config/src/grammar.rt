//! Where a text stops being JSON.
ghost use Rattle.std.specs.Prelude.{◌≡◌, ◌∷◌, ◌<◌, ◌≤◌, length, drop, Some, None, IfOk, MatchBool, vec_len};
ghost use Rattle.cli_config.specs.Grammar.{acted, acted_by, action, colon_action, fault_from, first_within, fresh, is_sound, list_action, list_more, more_action, name_action, object_action, object_more, standing, step, value_action};

use crate::lexemes::{LexemeAt, LexemeKind};
use crate::located_members::piece;
use mds_text::{TextFault, read_tree};
use std::alloc::{AllocError, Global};

/// The most open brackets (`mds_text::read_tree`).
const MOST_LEVELS: usize = 127;

/// An open bracket.
#[derive(Clone, Copy, Debug, PartialEq, Eq)]
pub(crate) enum Bracket {
    Object,
    List,
}

/// What is expected next.
#[derive(Clone, Copy, Debug, PartialEq, Eq)]
pub(crate) enum Next {
    Value,
    /// A list's first entry, or its end.
    ValueOrEnd,
    Name,
    /// An object's first name, or its end.
    NameOrEnd,
    Colon,
    /// A comma, or the end of the innermost open bracket; nothing where none is open.
    More,
}

/// The effect of a lexeme.
#[derive(Clone, Copy, Debug, PartialEq, Eq)]
pub(crate) enum Action {
    Open(Bracket),
    Close,
    /// It is a whole value.
    Whole,
    /// This is expected after it.
    Then(Next),
}

/// What is expected, and the open brackets, the innermost first.
#[derive(Drop)]
pub(crate) struct GrammarState {
    pub(crate) next: Next,
    pub(crate) brackets: Vec<Bracket>,
}

fn value_action(sign: LexemeKind) -> Option<Action>
    ensures { result ≡ value_action sign }
{
    match sign {
        LexemeKind::OpenObject => Some(Action::Open(Bracket::Object)),
        LexemeKind::OpenList => Some(Action::Open(Bracket::List)),
        LexemeKind::Text | LexemeKind::Truth | LexemeKind::Null | LexemeKind::Number => Some(
            Action::Whole,
        ),
        LexemeKind::CloseObject | LexemeKind::CloseList | LexemeKind::Colon | LexemeKind::Comma =>
            None,
    }
}

fn name_action(sign: LexemeKind) -> Option<Action>
    ensures { result ≡ name_action sign }
{
    match sign {
        LexemeKind::Text => Some(Action::Then(Next::Colon)),
        _ => None,
    }
}

/// The effect of a lexeme after a value within a bracket.
fn more_action(brackets: &[Bracket], sign: LexemeKind) -> Option<Action>
    ensures { result ≡ more_action brackets.now sign }
{
    match (brackets, sign) {
        ([Bracket::Object, ..], LexemeKind::Comma) => Some(Action::Then(Next::Name)),
        ([Bracket::Object, ..], LexemeKind::CloseObject) => Some(Action::Close),
        ([Bracket::List, ..], LexemeKind::Comma) => Some(Action::Then(Next::Value)),
        ([Bracket::List, ..], LexemeKind::CloseList) => Some(Action::Close),
        _ => None,
    }
}

/// The effect of a lexeme; none where it isn't allowed.
fn action_of(next: Next, brackets: &[Bracket], sign: LexemeKind) -> Option<Action>
    ensures { result ≡ action next brackets.now sign }
{
    match next {
        Next::Value => value_action(sign),
        Next::ValueOrEnd => match sign {
            LexemeKind::CloseList => Some(Action::Close),
            other => value_action(other),
        },
        Next::Name => name_action(sign),
        Next::NameOrEnd => match sign {
            LexemeKind::CloseObject => Some(Action::Close),
            other => name_action(other),
        },
        Next::Colon => match sign {
            LexemeKind::Colon => Some(Action::Then(Next::Value)),
            _ => None,
        },
        Next::More => more_action(brackets, sign),
    }
}

/// What is allowed first after an open bracket.
fn first_within(bracket: Bracket) -> Next
    ensures { result ≡ first_within bracket }
{
    match bracket {
        Bracket::Object => Next::NameOrEnd,
        Bracket::List => Next::ValueOrEnd,
    }
}

/// Whether a lexeme that is a string, a literal name or a number is JSON by itself.
fn is_sound(alloc: Global, written: &[u8], sign: LexemeKind) -> Result<bool, AllocError>
    ensures { IfOk result (λ is. is ≡ is_sound written.now sign) }
{
    match sign {
        LexemeKind::Text | LexemeKind::Truth | LexemeKind::Null | LexemeKind::Number =>
            match read_tree(alloc, written) {
                Ok(_) => Ok(true),
                Err(TextFault::NoMemory) => Err(AllocError),
                Err(_) => Ok(false),
            },
        _ => Ok(true),
    }
}

impl GrammarState {
    /// The state before the first lexeme.
    fn new(alloc: Global) -> GrammarState
        ensures { standing result ≡ fresh }
    {
        GrammarState {
            next: Next::Value,
            brackets: Vec::new(alloc),
        }
    }

    /// Applies a lexeme's effect; false where too many brackets would be open.
    fn act(&mut self, action: Action) -> Result<bool, AllocError>
        ensures { IfOk result (λ goes. MatchBool goes (acted (standing self.old) action ≡ Some (standing self.new)) (acted (standing self.old) action ≡ None)) }
    {
        match action {
            Action::Open(bracket) => {
                if self.brackets.len() >= MOST_LEVELS {
                    return Ok(false);
                }
                self.brackets.insert(0, bracket)?;
                self.next = first_within(bracket);
            }
            Action::Close => {
                if !self.brackets.is_empty() {
                    self.brackets.remove(0);
                }
                self.next = Next::More;
            }
            Action::Whole => self.next = Next::More,
            Action::Then(next) => self.next = next,
        }
        Ok(true)
    }

    /// Steps over the first lexeme; false where it isn't allowed.
    fn step(&mut self, alloc: Global, text: &[u8], marks: &[LexemeAt]) -> Result<bool, AllocError>
        ensures { IfOk result (λ goes. MatchBool goes (step text.now (standing self.old) marks.now ≡ Some (standing self.new)) (step text.now (standing self.old) marks.now ≡ None)) }
    {
        let [first, behind @ ..] = marks else {
            return Ok(false);
        };
        let to = match behind {
            [next, ..] => next.at,
            [] => text.len(),
        };
        if !is_sound(alloc, piece(text, first.at, to), first.sign)? {
            return Ok(false);
        }
        match action_of(self.next, self.brackets.as_slice(), first.sign) {
            Some(action) => self.act(action),
            None => Ok(false),
        }
    }
}

/// The offset of the first lexeme that isn't allowed where it is, in bytes; the text's length where each is allowed.
///
/// # Errors
///
/// Out of memory.
pub(crate) fn fault_at(alloc: Global, text: &[u8], marks: &[LexemeAt]) -> Result<usize, AllocError>
    ensures { IfOk result (λ at. at ≡ fault_from text.now fresh marks.now) }
{
    let mut stand = GrammarState::new(alloc);
    for (place, mark) in marks.iter().enumerate() {
        if !stand.step(alloc, text, &marks[place..])? {
            return Ok(mark.at);
        }
    }
    Ok(text.len())
}
