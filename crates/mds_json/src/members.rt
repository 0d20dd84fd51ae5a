//! Members of an object, in the byte order of their names.
ghost use Rattle.std.specs.Prelude.{◌≡◌, ◌≤◌, IfSome, OnOk, insert, length, map};
ghost use Rattle.mds_text.specs.Tree.{Json, members_of};
ghost use Rattle.mds_json.specs.Direct.{put};
ghost use Rattle.mds_json.specs.Node.{node_view, node_member_view};

use crate::direct_fault::DirectFault;
use crate::node::{Node, NodeMember};
use std::cmp::Ordering;

/// The most members among which the place of the next one is searched for linearly.
const MOST_MEMBERS: usize = 64;

/// Inserts a member. A name that is there already, and more than `MOST_MEMBERS` members, make the
/// object unusual.
pub(crate) fn put_member<'a>(
    members: &mut Vec<NodeMember<'a>>,
    name: &'a str,
    value: Node<'a>,
) -> Result<(), DirectFault>
    ensures { OnOk result (members_of (map node_member_view members.new.items)
        ≡ put name.now (node_view value.entry) (members_of (map node_member_view members.old.items))) }
{
    if members.len() >= MOST_MEMBERS {
        return Err(DirectFault::Unusual);
    }
    match place_of(members, name) {
        Some(place) => {
            members.insert(place, NodeMember { name, value })?;
            Ok(())
        }
        None => Err(DirectFault::Unusual),
    }
}

/// The index at which a member of this name belongs; `None` where the name is taken.
fn place_of(members: &[NodeMember<'_>], name: &str) -> Option<usize>
    ensures within { IfSome result (λ place. place ≤ length members.now) }
    ensures value { IfSome result (λ place. (value : Json) → put name.now value (members_of (map node_member_view members.now))
        ≡ members_of (insert (map node_member_view members.now) place (name.now, value))) }
{
    for (place, member) in members.iter().enumerate() {
        match name.cmp(member.name) {
            Ordering::Less => return Some(place),
            Ordering::Equal => return None,
            Ordering::Greater => {}
        }
    }
    Some(members.len())
}
