//! The compliance report on a policy, as JSON.
ghost use Rattle.std.specs.Prelude.{◌≡◌, ◌^◌, ◌<◌, All, IfOk, map};
ghost use Rattle.mds_text.specs.Tree.{list, items_of};
ghost use Rattle.mds_text.specs.View.{view, member_view};
ghost use Rattle.mds_policy.specs.Policy.{policy_document};
ghost use Rattle.mds_verdict.specs.Verdict.{printed_id, reported, reported_devices, reported_rule, status_name, verdict_document};

use crate::verdict::{RuleVerdict, Status};
use mds_policy::Policy;
use mds_text::{
    Id, Member, Tree, add_member, id_tree, int_tree, list_tree, object_tree, text_tree,
};
use std::alloc::{AllocError, Global};

/// The compliance report on a policy, as the server prints it: an object with the policy's
/// identifier and, for each verdict in order, the measure, the rule's identifier and the status,
/// preceded by the devices where the rule is violated.
///
/// # Errors
///
/// Out of memory.
pub fn report_tree(
    alloc: Global,
    policy: &Policy,
    verdicts: &[RuleVerdict],
) -> Result<Tree, AllocError>
    requires { All (λ v. v.measure < 2 ^ 63) verdicts.now }
    ensures { IfOk result (λ t. view t ≡ reported (policy_document policy.now) (map verdict_document verdicts.now)) }
{
    let mut rules = Vec::new(alloc);
    for verdict in verdicts {
        rules.push(rule_tree(alloc, verdict)?)?;
    }
    let mut members = Vec::new(alloc);
    add_member(&mut members, "policy_id", id_tree(alloc, &policy.id())?)?;
    add_member(&mut members, "rules", list_tree(rules))?;
    Ok(object_tree(members))
}

fn rule_tree(alloc: Global, verdict: &RuleVerdict) -> Result<Tree, AllocError>
    requires { verdict.now.measure < 2 ^ 63 }
    ensures { IfOk result (λ t. view t ≡ reported_rule (verdict_document verdict.now)) }
{
    let mut members = devices_member(alloc, verdict)?;
    add_member(&mut members, "measure", int_tree(verdict.measure as i64))?;
    add_member(&mut members, "rule_id", id_tree(alloc, &verdict.rule)?)?;
    add_member(
        &mut members,
        "status",
        text_tree(alloc, name_of(verdict.status))?,
    )?;
    Ok(object_tree(members))
}

// The first member of a violated rule's entry, and none for any other.
fn devices_member(alloc: Global, verdict: &RuleVerdict) -> Result<Vec<Member>, AllocError>
    ensures { IfOk result (λ v. map member_view v.items ≡ reported_devices verdict.now.status verdict.now.devices.items) }
{
    let mut members = Vec::new(alloc);
    if verdict.status == Status::Violated {
        add_member(
            &mut members,
            "devices",
            devices_tree(alloc, &verdict.devices)?,
        )?;
    }
    Ok(members)
}

fn devices_tree(alloc: Global, devices: &[Id]) -> Result<Tree, AllocError>
    ensures { IfOk result (λ t. view t ≡ list (items_of (map printed_id devices.now))) }
{
    let mut entries = Vec::with_capacity(alloc, devices.len())?;
    for device in devices {
        entries.push(id_tree(alloc, device)?)?;
    }
    Ok(list_tree(entries))
}

fn name_of(status: Status) -> &'static str
    ensures { result.now ≡ status_name status }
{
    match status {
        Status::NotEvaluated => "not_evaluated",
        Status::Inactive => "inactive",
        Status::Ok => "ok",
        Status::Violated => "violated",
    }
}
