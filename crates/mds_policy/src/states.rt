//! The states of a rule, each with its event types (MDS 2.0 Policy, rules: states).
ghost use Rattle.std.specs.Prelude.{◌≡◌, map, Ok, option_map};
ghost use Rattle.mds_text.specs.Fault.{Gives, text_cause};
ghost use Rattle.mds_text.specs.Fields.{optional_at, object_of};
ghost use Rattle.mds_text.specs.Tree.{members_of};
ghost use Rattle.mds_json.specs.Entries.{IsCausedWhere};
ghost use Rattle.mds_json.specs.Node.{node_view, node_member_view};
ghost use Rattle.mds_policy.specs.Policy.{states_document};
ghost use Rattle.mds_policy.specs.Reading.{event_entries, events_of, state_of, states_of, states_member, optional_list};

use crate::rule::StateEvents;
use mds_json::{Node, NodeMember, member_at, tokens_of};
use mds_text::{Field, TextFault, Token};
use std::alloc::Global;

/// The states of a rule, in the order of their names; none where the member is absent or null.
pub(crate) fn states_at(alloc: Global, rule: &Node<'_>) -> Result<Vec<StateEvents>, TextFault>
    ensures value { Gives text_cause (λ v. map states_document v.items) result (optional_list states_member (node_view rule.now) Field.States) }
    ensures memory { IsCausedWhere (optional_at object_of (node_view rule.now) Field.States) result }
{
    match member_at(rule, Field::States)? {
        Some(value) => states_member(alloc, value),
        None => Ok(Vec::new(alloc)),
    }
}

fn states_member(alloc: Global, value: &Node<'_>) -> Result<Vec<StateEvents>, TextFault>
    ensures value { Gives text_cause (λ v. map states_document v.items) result (states_member Field.States (node_view value.now)) }
    ensures memory { IsCausedWhere (object_of Field.States (node_view value.now)) result }
{
    match value {
        Node::Object(members) => states_of(alloc, members),
        _ => Err(TextFault::BadField(Field::States)),
    }
}

fn states_of(alloc: Global, members: &[NodeMember<'_>]) -> Result<Vec<StateEvents>, TextFault>
    ensures { Gives text_cause (λ v. map states_document v.items) result (states_of (members_of (map node_member_view members.now))) }
{
    let mut states = Vec::with_capacity(alloc, members.len())?;
    for member in members {
        states.push(state_of(alloc, member)?)?;
    }
    Ok(states)
}

fn state_of(alloc: Global, member: &NodeMember<'_>) -> Result<StateEvents, TextFault>
    ensures { Gives text_cause states_document result (state_of (node_member_view member.now).0 (node_member_view member.now).1) }
{
    let state = Token::read(member.name).ok_or(TextFault::BadField(Field::States))?;
    let events = events_of(alloc, &member.value)?;
    Ok(StateEvents { state, events })
}

/// The event types of a state: null is read as the empty list, which means all.
fn events_of(alloc: Global, value: &Node<'_>) -> Result<Vec<Token>, TextFault>
    ensures value { Gives text_cause (λ v. v.items) result (events_of (node_view value.now)) }
    ensures memory { IsCausedWhere (event_entries (node_view value.now)) result }
{
    match value {
        Node::Null => Ok(Vec::new(alloc)),
        Node::List(_) | Node::Pair(_, _) | Node::Pairs(_) => {
            tokens_of(alloc, value, Field::States)
        }
        _ => Err(TextFault::BadField(Field::States)),
    }
}
