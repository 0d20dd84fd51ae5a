//! Who the client is.
ghost use Rattle.std.specs.Prelude.{◌≡◌, ◌++◌, ◌∷◌, [], codes, IfOk, OnOk, map, option_map, string_bytes};
ghost use Rattle.mds_text.specs.Tree.{text};
ghost use Rattle.mds_text.specs.View.{view, member_view};
ghost use Rattle.server_app.specs.OperatorNames.{badge_view, badges_view};
ghost use Rattle.server_app.specs.Whoami.{author_json, badge_json, badge_members, name_members, operator_json, role_members, told_operator, who_reply};

use crate::bodies::json_reply;
use crate::operator_names::{OperatorName, OperatorNames};
use crate::oversight::Oversight;
use mds_request::{Actor, Code, Reply};
use mds_text::{Member, Tree, add_member, id_tree, list_tree, object_tree, text_tree};
use std::alloc::{AllocError, Global};

/// Adds a name, where there is one.
fn add_name(
    alloc: Global,
    members: &mut Vec<Member>,
    name: &Option<String>,
) -> Result<(), AllocError>
    ensures { OnOk result (map member_view members.new.items ≡ map member_view members.old.items
        ++ name_members (option_map string_bytes name.now)) }
{
    match name {
        Some(name) => add_member(members, "name", text_tree(alloc, name.as_str())?),
        None => Ok(()),
    }
}

/// An operator's identifier, and its name where it has one.
pub(crate) fn operator_name_members(
    alloc: Global,
    badge: &OperatorName,
) -> Result<Vec<Member>, AllocError>
    ensures { IfOk result (λ v. map member_view v.items ≡ badge_members (badge_view badge.now)) }
{
    let mut members = Vec::new(alloc);
    add_member(&mut members, "id", id_tree(alloc, &badge.id)?)?;
    add_name(alloc, &mut members, &badge.name)?;
    Ok(members)
}

/// Adds the client's role, and the zone.
fn add_role_and_zone(
    alloc: Global,
    members: &mut Vec<Member>,
    role: &str,
    zone: &str,
) -> Result<(), AllocError>
    ensures { OnOk result (map member_view members.new.items ≡ map member_view members.old.items
        ++ (codes "role", text role.now) ∷ (codes "zone", text zone.now) ∷ []) }
{
    add_member(members, "role", text_tree(alloc, role)?)?;
    add_member(members, "zone", text_tree(alloc, zone)?)
}

/// Adds how far the author sees how each operator stands, the client's role, and the zone.
fn add_role(
    alloc: Global,
    members: &mut Vec<Member>,
    oversight: Oversight,
    role: &str,
    zone: &str,
) -> Result<(), AllocError>
    ensures { OnOk result (map member_view members.new.items ≡ map member_view members.old.items ++ role_members oversight role.now zone.now) }
{
    add_member(members, "oversight", text_tree(alloc, oversight.word())?)?;
    add_role_and_zone(alloc, members, role, zone)
}

/// Each operator's identifier and name.
fn operator_name_trees(alloc: Global, badges: &[OperatorName]) -> Result<Vec<Tree>, AllocError>
    ensures { IfOk result (λ v. map view v.items ≡ map badge_json (map badge_view badges.now)) }
{
    let mut trees = Vec::with_capacity(alloc, badges.len())?;
    for badge in badges {
        trees.push(object_tree(operator_name_members(alloc, badge)?))?;
    }
    Ok(trees)
}

/// The author, with all operators.
fn author_tree(alloc: Global, badges: &OperatorNames) -> Result<Tree, AllocError>
    ensures { IfOk result (λ t. view t ≡ author_json (badges_view badges.now)) }
{
    let trees = operator_name_trees(alloc, &badges.operators)?;
    let mut members = Vec::new(alloc);
    add_member(&mut members, "operators", list_tree(trees))?;
    add_role(
        alloc,
        &mut members,
        badges.oversight,
        "author",
        badges.zone.as_str(),
    )?;
    Ok(object_tree(members))
}

/// An operator, for itself.
fn operator_tree(
    alloc: Global,
    oversight: Oversight,
    zone: &str,
    badge: &OperatorName,
) -> Result<Tree, AllocError>
    ensures { IfOk result (λ t. view t ≡ operator_json oversight zone.now (badge_view badge.now)) }
{
    let mut members = operator_name_members(alloc, badge)?;
    add_role(alloc, &mut members, oversight, "operator", zone)?;
    Ok(object_tree(members))
}

/// The reply to the operator with this identifier and name; a refusal where there is none.
fn operator_reply(
    alloc: Global,
    oversight: Oversight,
    zone: &str,
    badge: Option<&OperatorName>,
) -> Result<Reply, AllocError>
    ensures { IfOk result (λ r. r ≡ told_operator oversight zone.now (option_map (λ b. badge_view b.now) badge.entry)) }
{
    match badge {
        Some(badge) => json_reply(alloc, &operator_tree(alloc, oversight, zone, badge)?),
        None => Ok(Reply::from(Code::Token)),
    }
}

/// Who the client is: the author, with the operators' identifiers and names, or an operator, with its own; both with
/// how far the author sees how each operator stands, and the zone. An operator that isn't among them, and an anonymous
/// client, are refused with `token`.
///
/// # Errors
///
/// Out of memory.
pub fn whoami(alloc: Global, badges: &OperatorNames, client: Actor) -> Result<Reply, AllocError>
    ensures { IfOk result (λ r. r ≡ who_reply (badges_view badges.now) client) }
{
    match client {
        Actor::Author => json_reply(alloc, &author_tree(alloc, badges)?),
        Actor::Operator(place) => {
            let badge = badges.operators.get(place);
            operator_reply(alloc, badges.oversight, badges.zone.as_str(), badge)
        }
        Actor::Nobody => Ok(Reply::from(Code::Token)),
    }
}
