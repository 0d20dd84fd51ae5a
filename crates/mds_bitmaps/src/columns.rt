//! The verdicts on a policy's rules from columns of devices, beginnings and bitmaps.
ghost use Rattle.std.specs.Prelude.{◌≡◌, ◌^◌, ◌<◌, ◌≤◌, List, ℕ, Some, [], ◌∷◌, ◌++◌, All, IfOk, OnOk, length, map};
ghost use Rattle.mds_geometry.specs.declared.position.Position.{Position};
ghost use Rattle.mds_policy.specs.Policy.{policy_document};
ghost use Rattle.mds_match.specs.declared.local.Local.{Local as Time};
ghost use Rattle.mds_match.specs.Matching.{first};
ghost use Rattle.mds_match.specs.Row.{Row};
ghost use Rattle.mds_verdict.specs.Verdict.{verdict_document, verdicts};
ghost use Rattle.mds_verdict.specs.Gathered.{gathered};
ghost use Rattle.mds_bitmaps.specs.Columns.{AreOf, AreOfSome};

use crate::bits::first_of;
use crate::bounds::adds_since;
use crate::open_rules::open_bitmap;
use mds_match::Local;
use mds_policy::Policy;
use mds_text::{Id, Moment};
use mds_verdict::{RuleVerdict, count_device, initial_verdicts, trim_verdicts};
use std::alloc::{AllocError, Global};

/// What a policy is evaluated by, for each vehicle of an operator, in the order of the device ids.
#[derive(Clone, Copy)]
pub struct Columns<'a> {
    /// The device ids.
    pub devices: &'a [Id],
    /// When the run of each vehicle's state began, in milliseconds since the Unix epoch.
    pub sinces: &'a [u64],
    /// For each vehicle, the bitmap of the policy's rules that it meets whenever they are open.
    pub masks: &'a [u64],
}

/// One verdict for each rule of a policy, in the rules' order, from columns, at a local time and at
/// the moment up to which a vehicle's time in its state is measured: the same as from the vehicles
/// themselves.
///
/// # Errors
///
/// Out of memory.
pub fn verdicts_by(
    alloc: Global,
    policy: &Policy,
    columns: &Columns<'_>,
    local: Local,
    moment: Moment,
) -> Result<Vec<RuleVerdict>, AllocError>
    requires few { length (policy_document policy.now).rules ≤ 64 }
    requires columns { AreOfSome (policy_document policy.now) columns.now.devices.now columns.now.sinces.now columns.now.masks.now }
    ensures exact { IfOk result (λ found. (polygons : List ℕ → List (List (List Position))) (rows : List Row) →
        AreOf (policy_document policy.now) polygons rows columns.now.devices.now columns.now.sinces.now columns.now.masks.now →
        map verdict_document found.items ≡ verdicts (policy_document policy.now) polygons rows local moment) }
    ensures fits { IfOk result (λ found. All (λ v. v.measure < 2 ^ 63) found.items) }
{
    let mut held = count_all(alloc, policy, columns, local, moment)?;
    trim_verdicts(&mut held);
    Ok(held)
}

/// Counts the vehicles for each rule, and lists the first `MOST_DEVICES` of them, whether the rule
/// is violated or not.
fn count_all(
    alloc: Global,
    policy: &Policy,
    columns: &Columns<'_>,
    local: Local,
    moment: Moment,
) -> Result<Vec<RuleVerdict>, AllocError>
    requires few { length (policy_document policy.now).rules ≤ 64 }
    requires columns { AreOfSome (policy_document policy.now) columns.now.devices.now columns.now.sinces.now columns.now.masks.now }
    ensures { IfOk result (λ held. (polygons : List ℕ → List (List (List Position))) (rows : List Row) →
        AreOf (policy_document policy.now) polygons rows columns.now.devices.now columns.now.sinces.now columns.now.masks.now →
        map verdict_document held.items ≡ gathered (policy_document policy.now) polygons rows local moment) }
{
    let active = open_bitmap(policy, local);
    let mut held = initial_verdicts(alloc, policy.rules(), local)?;
    for place in 0..columns.masks.len() {
        if let Some(number) = first_of(active, columns.masks[place]) {
            let device = columns.devices[place];
            count(
                &mut held,
                policy,
                number,
                device,
                columns.sinces[place],
                moment,
            )?;
        }
    }
    Ok(held)
}

/// Counts a vehicle for the rule at this index, the first that the vehicle meets, and lists it,
/// whether the rule is violated or not.
fn count(
    held: &mut [RuleVerdict],
    policy: &Policy,
    number: usize,
    device: Id,
    since: u64,
    moment: Moment,
) -> Result<(), AllocError>
    requires whole { length held.old ≡ length (policy_document policy.now).rules }
    requires few { All (λ v. v.measure < 2 ^ 63) held.old }
    requires within { number < length (policy_document policy.now).rules }
    ensures { OnOk result ((polygons : List ℕ → List (List (List Position))) (rows : List Row) (row : Row) (local : Time) →
        row.device ≡ device → row.since ≡ since →
        Some number ≡ first (policy_document policy.now) polygons row local →
        map verdict_document held.old ≡ gathered (policy_document policy.now) polygons rows local moment →
        map verdict_document held.new ≡ gathered (policy_document policy.now) polygons (rows ++ row ∷ []) local moment) }
{
    let rule = &policy.rules()[number];
    if adds_since(rule.kind, rule.bounds, moment, since) {
        count_device(&mut held[number], rule, device)?;
    }
    Ok(())
}
