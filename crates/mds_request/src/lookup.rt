//! Looks operators up by access token, and finds duplicates in a configuration.
ghost use Rattle.std.specs.Prelude.{◌≡◌, ◌∷◌, ◌||◌, map, position, bytes_eq};
ghost use Rattle.std.specs.List.{list_any};
ghost use Rattle.mds_request.specs.Configuration.{operator, has_token, ids, tokens, repeats};

use crate::config::Operator;
use mds_text::Id;

/// The index of the first operator with this access token.
pub(crate) fn place_of(operators: &[Operator], token: &[u8]) -> Option<usize>
    ensures { result ≡ position (λ o. has_token token.now (operator o)) operators.now }
{
    operators
        .iter()
        .position(|operator| operator.token.as_bytes() == token)
}

/// Whether two operators have the same identifier, or two of all access tokens are equal.
pub(crate) fn are_alike(author: &str, operators: &[Operator]) -> bool
    ensures { result ≡ repeats (ids (map operator operators.now)) || repeats (author.now ∷ tokens (map operator operators.now)) }
{
    ids_repeat(operators) || tokens_are_alike(author, operators)
}

fn tokens_are_alike(author: &str, operators: &[Operator]) -> bool
    ensures { result ≡ repeats (author.now ∷ tokens (map operator operators.now)) }
{
    if has_token(operators, author) {
        return true;
    }
    tokens_repeat(operators)
}

fn has_id(operators: &[Operator], id: Id) -> bool
    ensures { result ≡ list_any (λ o. bytes_eq id (operator o).id) operators.now }
{
    operators.iter().any(|operator| are_same(id, operator.id))
}

fn are_same(id: Id, other: Id) -> bool
    ensures { result ≡ bytes_eq id other }
{
    id == other
}

fn has_token(operators: &[Operator], token: &str) -> bool
    ensures { result ≡ list_any (λ o. bytes_eq token.now (operator o).token) operators.now }
{
    operators
        .iter()
        .any(|operator| token == operator.token.as_str())
}

fn ids_repeat(operators: &[Operator]) -> bool
    ensures { result ≡ repeats (ids (map operator operators.now)) }
{
    let mut rest = operators;
    while let Some((first, others)) = rest.split_first() {
        if has_id(others, first.id) {
            return true;
        }
        rest = others;
    }
    false
}

fn tokens_repeat(operators: &[Operator]) -> bool
    ensures { result ≡ repeats (tokens (map operator operators.now)) }
{
    let mut rest = operators;
    while let Some((first, others)) = rest.split_first() {
        if has_token(others, first.token.as_str()) {
            return true;
        }
        rest = others;
    }
    false
}
