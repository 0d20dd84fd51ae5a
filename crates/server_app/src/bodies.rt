//! The bodies of replies.
ghost use Rattle.std.specs.Prelude.{◌≡◌, ◌∷◌, [], IfOk};
ghost use Rattle.mds_text.specs.Tree.{object, list, members_of, items_of};
ghost use Rattle.mds_text.specs.View.{view};
ghost use Rattle.mds_machine.specs.Answer.{told};
ghost use Rattle.mds_machine.specs.Bodies.{list_json};
ghost use Rattle.std.specs.Prelude.{map};

use mds_request::Reply;
use mds_text::{Tree, add_member, list_tree, object_tree, print_tree};
use std::alloc::{AllocError, Global};

/// A success with this value as its body.
#[tactic(auto, using(crate::proofs::OneLine::one_line))]
pub(crate) fn json_reply(alloc: Global, value: &Tree) -> Result<Reply, AllocError>
    ensures { IfOk result (λ r. r ≡ told (view value.now)) }
{
    let body = print_tree(alloc, value)?;
    Ok(Reply::ok(body))
}

/// A success with a list under this name: `{"name":[..]}`.
pub(crate) fn list_reply(alloc: Global, name: &str, trees: Vec<Tree>) -> Result<Reply, AllocError>
    ensures { IfOk result (λ r. r ≡ told (object (members_of ((name.now, list_json (map view trees.items)) ∷ [])))) }
{
    let mut members = Vec::new(alloc);
    add_member(&mut members, name, list_tree(trees))?;
    json_reply(alloc, &object_tree(members))
}
