//! Duplicates: two operators that are alike, and one with the author's access token.
ghost use Rattle.std.specs.Prelude.{◌≡◌, ◌+◌, ◌≤◌, ℕ, map, length, bytes_eq};
ghost use Rattle.std.specs.List.{position_from};
ghost use Rattle.mds_request.specs.Configuration.{tokens};
ghost use Rattle.mds_request.specs.declared.config.TheConstants.{MOST_OPERATORS};
ghost use Rattle.mds_config_error.specs.Diagnosis.{key_of, pair_of, unlike};
ghost use Rattle.mds_config_error.specs.Relations.{operator};

use crate::operators::ReadOperator;
use crate::wrong::{Key, Wrong};

/// Whether all identifiers and all access tokens differ; else the first two that don't.
pub(crate) fn check_distinct(author: &str, operators: &[ReadOperator]) -> Result<(), Wrong>
    requires { length operators.now ≤ MOST_OPERATORS }
    ensures { result ≡ unlike author.now (map operator operators.now) }
{
    if let Some((first, second)) = pair_of(operators, Key::Id) {
        return Err(Wrong::Alike(Key::Id, first, second));
    }
    if let Some(place) = place_of_token(operators, author) {
        return Err(Wrong::AuthorsToken(place));
    }
    if let Some((first, second)) = pair_of(operators, Key::Token) {
        return Err(Wrong::Alike(Key::Token, first, second));
    }
    Ok(())
}

/// The index of the first operator with this access token.
fn place_of_token(operators: &[ReadOperator], token: &str) -> Option<usize>
    ensures { result ≡ position_from (bytes_eq token.now) 0 (tokens (map operator operators.now)) }
{
    for (place, operator) in operators.iter().enumerate() {
        if token == operator.token.as_str() {
            return Some(place);
        }
    }
    None
}

/// The first operator whose identifier or access token a later one has too, with the first such
/// one.
fn pair_of(operators: &[ReadOperator], key: Key) -> Option<(usize, usize)>
    requires { length operators.now ≤ MOST_OPERATORS }
    ensures { result ≡ pair_of key (map operator operators.now) }
{
    for place in 0..operators.len() {
        let others = &operators[place + 1..];
        if let Some(other) = place_behind(&operators[place], place + 1, others, key) {
            return Some((place, other));
        }
    }
    None
}

/// The index of the first of these others, which begin at `from`, that is like an operator.
fn place_behind(
    first: &ReadOperator,
    from: usize,
    others: &[ReadOperator],
    key: Key,
) -> Option<usize>
    requires { from + length others.now ≤ MOST_OPERATORS }
    ensures { result ≡ position_from (bytes_eq (key_of key (operator first.now))) from (map (key_of key) (map operator others.now)) }
{
    for (behind, other) in others.iter().enumerate() {
        if are_alike(first, other, key) {
            return Some(from + behind);
        }
    }
    None
}

fn are_alike(first: &ReadOperator, second: &ReadOperator, key: Key) -> bool
    ensures { result ≡ bytes_eq (key_of key (operator first.now)) (key_of key (operator second.now)) }
{
    match key {
        Key::Id => first.id == second.id,
        Key::Token => first.token.as_str() == second.token.as_str(),
    }
}
