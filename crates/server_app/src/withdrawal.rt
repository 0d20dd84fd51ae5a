//! Which policies are withdrawn.
ghost use Rattle.std.specs.Prelude.{◌≡◌, ◌++◌, IfOk, OnOk, map, option_map, option_to_list};
ghost use Rattle.mds_text.specs.View.{view};
ghost use Rattle.std.specs.List.{filter_map};
ghost use Rattle.mds_catalog.specs.Catalogue.{lent_policy, publications_of};
ghost use Rattle.server_app.specs.Withdrawals.{withdrawal_json, withdrawal_of, withdrawals_reply, withdrawn_from};

use crate::bodies::list_reply;
use mds_catalog::{Catalogue, Published};
use mds_policy::Policy;
use mds_request::Reply;
use mds_text::{Id, Moment, Tree, add_member, id_tree, int_tree, object_tree};
use std::alloc::{AllocError, Global};

/// From when on a policy of this identifier is withdrawn.
fn withdrawal_moment(catalogue: &Catalogue, id: Id) -> Option<Moment>
    ensures { result ≡ withdrawn_from (publications_of catalogue.now) id }
{
    catalogue.withdrawal_moment(id)
}

/// A policy that is withdrawn from this moment on.
fn withdrawal_tree(alloc: Global, id: Id, moment: Moment) -> Result<Tree, AllocError>
    ensures { IfOk result (λ t. view t ≡ withdrawal_json id moment) }
{
    let mut members = Vec::new(alloc);
    add_member(&mut members, "policy_id", id_tree(alloc, &id)?)?;
    add_member(&mut members, "withdrawn", int_tree(moment.get()))?;
    Ok(object_tree(members))
}

/// Adds the withdrawal of a policy, where it is withdrawn from a moment on.
fn push_withdrawal(
    alloc: Global,
    trees: &mut Vec<Tree>,
    id: Id,
    from: Option<Moment>,
) -> Result<(), AllocError>
    ensures { OnOk result (map view trees.new.items ≡ map view trees.old.items ++ option_to_list (option_map (withdrawal_json id) from)) }
{
    let Some(moment) = from else {
        return Ok(());
    };
    let tree = withdrawal_tree(alloc, id, moment)?;
    trees.push(tree)?;
    Ok(())
}

/// The withdrawal of each of these policies that is withdrawn.
fn withdrawal_trees(
    alloc: Global,
    catalogue: &Catalogue,
    policies: &[Published<'_, Policy>],
) -> Result<Vec<Tree>, AllocError>
    ensures { IfOk result (λ v. map view v.items ≡ filter_map (withdrawal_of (publications_of catalogue.now)) (map lent_policy policies.now)) }
{
    let mut trees = Vec::new(alloc);
    for policy in policies {
        let id = policy.document.id();
        push_withdrawal(alloc, &mut trees, id, withdrawal_moment(catalogue, id))?;
    }
    Ok(trees)
}

/// The withdrawn policies, each with the moment from which on it is withdrawn, in order of publication: of all, or of
/// those that are meant for an operator (MDS 2.0 Policy, `provider_ids`).
///
/// # Errors
///
/// Out of memory.
pub fn withdrawals(
    alloc: Global,
    catalogue: &Catalogue,
    operator: Option<Id>,
) -> Result<Reply, AllocError>
    ensures { IfOk result (λ r. r ≡ withdrawals_reply (publications_of catalogue.now) operator) }
{
    let policies = catalogue.policies(alloc, operator)?;
    let trees = withdrawal_trees(alloc, catalogue, &policies)?;
    list_reply(alloc, "withdrawals", trees)
}
