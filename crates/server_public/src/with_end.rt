//! The document of a policy that is withdrawn.
ghost use Rattle.std.specs.Prelude.{◌≡◌, ◌∷◌, ◌++◌, [], codes, filter, map, pos, IfOk, OnOk, Some};
ghost use Rattle.mds_text.specs.Tree.{int};
ghost use Rattle.mds_text.specs.View.{view, member_view};
ghost use Rattle.mds_policy.specs.Served.{served};
ghost use Rattle.mds_catalog.specs.Catalogue.{lent_policy};
ghost use Rattle.server_public.specs.Withdrawal.{ended, ended_at, is_not_end};

use crate::public_document::earlier;
use mds_catalog::Published;
use mds_policy::Policy;
use mds_text::{Member, Moment, Tree, add_member, copy_tree, int_tree};
use std::alloc::{AllocError, Global};

/// The member with the end (MDS 2.0 Policy).
const END_DATE: &str = "end_date";

/// Adds a copy of a member, unless it is the end.
fn keep(alloc: Global, told: &mut Vec<Member>, member: &Member) -> Result<(), AllocError>
    ensures { OnOk result (map member_view told.new.items
        ≡ map member_view told.old.items ++ filter is_not_end (member_view member.now ∷ [])) }
{
    if member.name.as_str() == END_DATE {
        return Ok(());
    }
    let value = copy_tree(alloc, &member.value)?;
    add_member(told, member.name.as_str(), value)
}

/// The members, with this end.
fn members_with_end(
    alloc: Global,
    members: &[Member],
    end: Moment,
) -> Result<Vec<Member>, AllocError>
    ensures { IfOk result (λ v. map member_view v.items
        ≡ filter is_not_end (map member_view members.now) ++ (codes "end_date", int (pos end)) ∷ []) }
{
    let mut told = Vec::with_capacity(alloc, members.len())?;
    for member in members {
        keep(alloc, &mut told, member)?;
    }
    add_member(&mut told, END_DATE, int_tree(end.get()))?;
    Ok(told)
}

/// A copy of a document, with this end.
fn with_end(alloc: Global, document: &Tree, end: Moment) -> Result<Tree, AllocError>
    ensures { IfOk result (λ t. view t ≡ ended end (view document.now)) }
{
    match document {
        Tree::Object(members) => Ok(Tree::Object(members_with_end(alloc, members, end)?)),
        _ => copy_tree(alloc, document),
    }
}

/// The document of a published policy, which may be withdrawn from a moment on.
pub(crate) fn public_policy(
    alloc: Global,
    policy: &Published<'_, Policy>,
    withdrawn: Option<Moment>,
) -> Result<Tree, AllocError>
    ensures { IfOk result (λ t. view t
        ≡ ended_at withdrawn (lent_policy policy.now).document.end (served (lent_policy policy.now).document (Some (lent_policy policy.now).moment))) }
{
    let document = policy.document.served(alloc, Some(policy.moment))?;
    match withdrawn {
        Some(moment) => with_end(alloc, &document, earlier(moment, policy.document.end())),
        None => Ok(document),
    }
}
