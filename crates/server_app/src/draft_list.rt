//! Which drafts are held.
ghost use Rattle.std.specs.Prelude.{◌≡◌, ◌++◌, IfOk, OnOk, map};
ghost use Rattle.std.specs.BTreeMap.{insert_entry, keys};
ghost use Rattle.mds_text.specs.View.{view};
ghost use Rattle.mds_drafts.specs.Drafts.{id_cmp};
ghost use Rattle.mds_drafts.specs.Entries.{document_of, drafts_in};
ghost use Rattle.mds_drafts.specs.Values.{drafts_of};
ghost use Rattle.server_app.specs.DraftList.{drafts_reply, ids_of, kind_word, listed_json, own_id};

use crate::bodies::list_reply;
use mds_drafts::{Draft, Drafts};
use mds_request::Reply;
use mds_text::{DraftKind, Id, Tree, add_member, id_tree, object_tree, text_tree};
use std::alloc::{AllocError, Global};
use std::collections::BTreeMap;

/// Identifiers in the order of their bytes, each once.
type Ids = BTreeMap<Id, ()>;

/// Inserts an identifier in its order.
fn insert_id(ids: &mut Ids, id: Id) -> Result<(), AllocError>
    ensures { OnOk result (ids.new.entries ≡ insert_entry id_cmp ids.old.entries id tt) }
{
    match ids.insert(id, ()) {
        Ok(_) => Ok(()),
        Err(_) => Err(AllocError),
    }
}

/// The identifiers, in their order.
fn ids_in_order(alloc: Global, ids: &Ids) -> Result<Vec<Id>, AllocError>
    ensures { IfOk result (λ v. v.items ≡ keys ids.now) }
{
    ids.keys().copied().collect(alloc)
}

/// The identifier of a draft that is of this kind.
fn own_id(draft: &Draft, kind: DraftKind) -> Option<Id>
    ensures { result ≡ own_id kind (document_of draft.now) }
{
    match (draft, kind) {
        (Draft::Policy(policy), DraftKind::Policy) => Some(policy.id()),
        (Draft::Geography(geography), DraftKind::Geography) => Some(geography.id()),
        _ => None,
    }
}

/// The identifiers of the drafts of a kind, in the order of their bytes.
fn ids_of(alloc: Global, drafts: &[Draft], kind: DraftKind) -> Result<Vec<Id>, AllocError>
    ensures { IfOk result (λ v. v.items ≡ ids_of (drafts_in drafts.now) kind) }
{
    let mut ids = BTreeMap::new(alloc);
    let mut left = drafts.len();
    while left > 0 {
        left -= 1;
        if let Some(id) = own_id(&drafts[left], kind) {
            insert_id(&mut ids, id)?;
        }
    }
    ids_in_order(alloc, &ids)
}

/// The name of a kind.
fn kind_word(kind: DraftKind) -> &'static str
    ensures { result.now ≡ kind_word kind }
{
    match kind {
        DraftKind::Policy => "policy",
        DraftKind::Geography => "geography",
    }
}

/// A draft, by its kind and identifier.
fn draft_tree(alloc: Global, kind: DraftKind, id: Id) -> Result<Tree, AllocError>
    ensures { IfOk result (λ t. view t ≡ listed_json kind id) }
{
    let mut members = Vec::new(alloc);
    add_member(&mut members, "id", id_tree(alloc, &id)?)?;
    add_member(&mut members, "kind", text_tree(alloc, kind_word(kind))?)?;
    Ok(object_tree(members))
}

/// Adds the drafts of a kind with these identifiers.
fn push_drafts(
    alloc: Global,
    trees: &mut Vec<Tree>,
    kind: DraftKind,
    ids: &[Id],
) -> Result<(), AllocError>
    ensures { OnOk result (map view trees.new.items ≡ map view trees.old.items ++ map (listed_json kind) ids.now) }
{
    for id in ids {
        let tree = draft_tree(alloc, kind, *id)?;
        trees.push(tree)?;
    }
    Ok(())
}

/// The drafts that are held: those of policies and then those of geographies, each kind in the order of the identifiers.
///
/// # Errors
///
/// Out of memory.
pub fn list_drafts(alloc: Global, drafts: &Drafts) -> Result<Reply, AllocError>
    ensures { IfOk result (λ r. r ≡ drafts_reply (drafts_of drafts.now)) }
{
    let policies = ids_of(alloc, drafts.all(), DraftKind::Policy)?;
    let geographies = ids_of(alloc, drafts.all(), DraftKind::Geography)?;
    let mut trees = Vec::new(alloc);
    push_drafts(alloc, &mut trees, DraftKind::Policy, &policies)?;
    push_drafts(alloc, &mut trees, DraftKind::Geography, &geographies)?;
    list_reply(alloc, "drafts", trees)
}
