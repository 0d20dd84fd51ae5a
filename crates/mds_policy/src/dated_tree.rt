//! A policy as it is served (MDS 2.0 Policy, policies: published_date).
ghost use Rattle.std.specs.Prelude.{◌≡◌, ◌++◌, ◌∷◌, codes, pos, IfOk, map};
ghost use Rattle.mds_text.specs.Tree.{Json, int, members_of};
ghost use Rattle.mds_text.specs.View.{view, member_view};
ghost use Rattle.mds_policy.specs.Served.{dated, with_member};

use mds_text::{Member, Moment, Tree, add_member, copy_members, copy_tree, int_tree};
use std::alloc::{AllocError, Global};
use std::cmp::Ordering;

/// The name of the member for the moment of publication.
const PUBLISHED_DATE: &str = "published_date";

/// A copy of the document with the moment of its publication.
pub(crate) fn with_published_date(
    alloc: Global,
    document: &Tree,
    moment: Moment,
) -> Result<Tree, AllocError>
    ensures { IfOk result (λ t. view t ≡ dated moment (view document.now)) }
{
    match document {
        Tree::Object(members) => Ok(Tree::Object(members_with_date(alloc, members, moment)?)),
        _ => copy_tree(alloc, document),
    }
}

fn members_with_date(
    alloc: Global,
    members: &[Member],
    moment: Moment,
) -> Result<Vec<Member>, AllocError>
    ensures { IfOk result (λ v. members_of (map member_view v.items) ≡ with_member (codes "published_date") (int (pos moment)) (members_of (map member_view members.now))) }
{
    let (before, after) = split_around(members, PUBLISHED_DATE);
    let mut dated = copy_members(alloc, before)?;
    add_member(&mut dated, PUBLISHED_DATE, int_tree(moment.get()))?;
    let mut rest = copy_members(alloc, after)?;
    dated.append(&mut rest)?;
    Ok(dated)
}

/// The members before this name and those after it; one of this name is in neither.
fn split_around<'a>(members: &'a [Member], name: &str) -> (&'a [Member], &'a [Member])
    ensures { (value : Json) → with_member name.now value (members_of (map member_view members.now)) ≡ members_of (map member_view result.0.now ++ (name.now, value) ∷ map member_view result.1.now) }
{
    for (place, member) in members.iter().enumerate() {
        match name.cmp(member.name.as_str()) {
            Ordering::Less => return members.split_at(place),
            Ordering::Equal => return (&members[..place], &members[place + 1..]),
            Ordering::Greater => {}
        }
    }
    (members, &[])
}
