//! Optional lists, where an absent one is read as the empty one.
ghost use Rattle.std.specs.Prelude.{◌≡◌, option_map};
ghost use Rattle.mds_text.specs.Fault.{Gives, text_cause};
ghost use Rattle.mds_text.specs.Fields.{id_of, token_of, list_each, or_empty};
ghost use Rattle.mds_json.specs.Node.{node_view};
ghost use Rattle.mds_policy.specs.Reading.{optional_list};

use mds_json::{Node, ids_at, tokens_at};
use mds_text::{Field, Id, TextFault, Token};
use std::alloc::Global;

pub(crate) fn optional_ids(
    alloc: Global,
    document: &Node<'_>,
    field: Field,
) -> Result<Vec<Id>, TextFault>
    ensures { Gives text_cause (λ v. v.items) result (optional_list (list_each id_of) (node_view document.now) field) }
{
    Ok(or_empty(alloc, ids_at(alloc, document, field)?))
}

pub(crate) fn optional_tokens(
    alloc: Global,
    document: &Node<'_>,
    field: Field,
) -> Result<Vec<Token>, TextFault>
    ensures { Gives text_cause (λ v. v.items) result (optional_list (list_each token_of) (node_view document.now) field) }
{
    Ok(or_empty(alloc, tokens_at(alloc, document, field)?))
}

/// The list, or the empty one where there is none.
fn or_empty<T: Drop>(alloc: Global, found: Option<Vec<T>>) -> Vec<T>
    ensures { result.items ≡ or_empty (option_map (λ v. v.items) found) }
{
    match found {
        Some(list) => list,
        None => Vec::new(alloc),
    }
}
