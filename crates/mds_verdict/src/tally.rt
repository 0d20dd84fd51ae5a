//! How many vehicles each rule of a policy counts, and the first of them.
ghost use Rattle.std.specs.Prelude.{◌≡◌, ◌+◌, ◌^◌, ◌<◌, List, ℕ, [], ◌∷◌, ◌++◌, All, IfOk, IfSome, OnOk, if◌then◌else◌, length, map, nat_lt};
ghost use Rattle.mds_geometry.specs.declared.position.Position.{Position};
ghost use Rattle.mds_policy.specs.Policy.{policy_document, rule_document};
ghost use Rattle.mds_match.specs.declared.local.Local.{Local as Time};
ghost use Rattle.mds_match.specs.Matching.{first};
ghost use Rattle.mds_match.specs.Row.{Row, row_of};
ghost use Rattle.mds_verdict.specs.Verdict.{status_of, verdict_document};
ghost use Rattle.mds_verdict.specs.Gathered.{gathered_rule, gathered, joined_rule, IsJoined, shown};

use crate::bounds::{adds, within};
use crate::verdict::{MOST_DEVICES, RuleVerdict, Status};
use mds_match::{Local, Vehicle, open_at};
use mds_policy::{Bounds, Kind, Policy, Rule};
use mds_text::{Id, Moment};
use std::alloc::{AllocError, Global};

/// The result of counting vehicles for each rule of a policy: how many it counts, and the first
/// `MOST_DEVICES` of them in the order in which they came, whether the rule is violated or not.
#[derive(Drop)]
pub struct VerdictTally {
    rules: Vec<RuleVerdict>,
}

impl VerdictTally {
    ghost use Rattle.std.specs.Prelude.{◌≡◌, List, ℕ, [], ◌∷◌, ◌++◌, IfOk, OnOk, map};
    ghost use Rattle.mds_geometry.specs.declared.position.Position.{Position};
    ghost use Rattle.mds_policy.specs.Policy.{policy_document, Policy as Document};
    ghost use Rattle.mds_match.specs.declared.local.Local.{Local as Time};
    ghost use Rattle.mds_match.specs.Matching.{first};
    ghost use Rattle.mds_match.specs.Row.{Row, row_of};
    ghost use Rattle.mds_verdict.specs.Verdict.{verdict_document, verdicts};
    ghost use Rattle.mds_verdict.specs.Gathered.{IsTally, MayCount, MayJoin};

    /// The tally of no vehicle.
    ///
    /// # Errors
    ///
    /// Out of memory.
    pub fn new(alloc: Global, policy: &Policy, local: Local) -> Result<VerdictTally, AllocError>
        ensures { IfOk result (λ tally. (polygons : List ℕ → List (List (List Position))) (moment : ℕ) →
            IsTally tally (policy_document policy.now) polygons [] local moment) }
    {
        let rules = initial_verdicts(alloc, policy.rules(), local)?;
        Ok(VerdictTally { rules })
    }

    /// Counts one more vehicle for the rule at this index, the first that the vehicle meets, and
    /// lists it last where fewer than `MOST_DEVICES` are listed. The policy is the same for all
    /// vehicles of a tally.
    ///
    /// # Errors
    ///
    /// Out of memory.
    pub fn count(
        &mut self,
        policy: &Policy,
        number: Option<usize>,
        vehicle: &Vehicle,
        moment: Moment,
    ) -> Result<(), AllocError>
        requires { MayCount self.old (policy_document policy.now) number (row_of vehicle.now) moment }
        ensures { OnOk result ((polygons : List ℕ → List (List (List Position))) (rows : List Row) (local : Time) →
            number ≡ first (policy_document policy.now) polygons (row_of vehicle.now) local →
            IsTally self.old (policy_document policy.now) polygons rows local moment →
            IsTally self.new (policy_document policy.now) polygons (rows ++ row_of vehicle.now ∷ []) local moment) }
    {
        count(&mut self.rules, policy, number, vehicle, moment)?;
        Ok(())
    }

    /// Adds the tally of later vehicles: measures are added, and devices are listed after those
    /// that are there, up to `MOST_DEVICES`. The policy is that of both.
    ///
    /// # Errors
    ///
    /// Out of memory.
    pub fn join(&mut self, policy: &Policy, later: &VerdictTally) -> Result<(), AllocError>
        requires { MayJoin self.old later.now (policy_document policy.now) }
        ensures { OnOk result ((polygons : List ℕ → List (List (List Position))) (rows more : List Row) (local : Time) (moment : ℕ) →
            IsTally self.old (policy_document policy.now) polygons rows local moment →
            IsTally later.now (policy_document policy.now) polygons more local moment →
            IsTally self.new (policy_document policy.now) polygons (rows ++ more) local moment) }
    {
        join(&mut self.rules, policy.rules(), &later.rules)?;
        Ok(())
    }

    /// The verdicts on the vehicles that were counted, without the devices of rules that aren't
    /// violated.
    pub fn verdicts(self) -> Vec<RuleVerdict>
        ensures { (policy : Document) (polygons : List ℕ → List (List (List Position))) (rows : List Row) (local : Time) (moment : ℕ) →
            IsTally self policy polygons rows local moment →
            map verdict_document result.items ≡ verdicts policy polygons rows local moment }
    {
        let mut held = self.rules;
        trim_verdicts(&mut held);
        held
    }
}

/// The verdicts on a policy's rules where there is no vehicle, in the rules' order, at a local time.
///
/// # Errors
///
/// Out of memory.
pub fn initial_verdicts(
    alloc: Global,
    rules: &[Rule],
    local: Local,
) -> Result<Vec<RuleVerdict>, AllocError>
    ensures { IfOk result (λ v. map verdict_document v.items ≡ map (λ r. gathered_rule (rule_document r) local []) rules.now) }
{
    let mut held = Vec::with_capacity(alloc, rules.len())?;
    for rule in rules {
        held.push(initial_verdict(alloc, rule, local))?;
    }
    Ok(held)
}

/// Counts a vehicle for the rule at this index, the first that the vehicle meets, as the last of
/// those that were counted, and lists it, whether the rule is violated or not.
///
/// # Errors
///
/// Out of memory.
fn count(
    held: &mut [RuleVerdict],
    policy: &Policy,
    number: Option<usize>,
    vehicle: &Vehicle,
    moment: Moment,
) -> Result<(), AllocError>
    requires whole { length held.old ≡ length (policy_document policy.now).rules }
    requires few { All (λ v. v.measure < 2 ^ 63) held.old }
    requires within { IfSome number (λ n. n < length (policy_document policy.now).rules) }
    ensures { OnOk result ((polygons : List ℕ → List (List (List Position))) (rows : List Row) (local : Time) →
        number ≡ first (policy_document policy.now) polygons (row_of vehicle.now) local →
        map verdict_document held.old ≡ gathered (policy_document policy.now) polygons rows local moment →
        map verdict_document held.new ≡ gathered (policy_document policy.now) polygons (rows ++ row_of vehicle.now ∷ []) local moment) }
{
    if let Some(number) = number {
        let rule = &policy.rules()[number];
        if adds(rule.kind, rule.bounds, moment, vehicle) {
            count_device(&mut held[number], rule, vehicle.device)?;
        }
    }
    Ok(())
}

/// Counts one more vehicle, and lists its device where fewer than `MOST_DEVICES` are listed, whether
/// the rule is violated or not.
///
/// # Errors
///
/// Out of memory.
pub fn count_device(verdict: &mut RuleVerdict, rule: &Rule, device: Id) -> Result<(), AllocError>
    requires { verdict.old.measure < 2 ^ 63 }
    ensures { OnOk result (verdict_document verdict.new ≡ record (verdict_document verdict.old) {
      status = status_of (rule_document rule.now).kind (rule_document rule.now).bounds (verdict.old.measure + 1);
      measure = verdict.old.measure + 1;
      devices = (if nat_lt (length verdict.old.devices.items) MOST_DEVICES then verdict.old.devices.items ++ device ∷ [] else verdict.old.devices.items);
    }) }
{
    if verdict.devices.len() < MOST_DEVICES {
        verdict.devices.push(device)?;
    }
    verdict.measure += 1;
    verdict.status = status_of(rule.kind, rule.bounds, verdict.measure);
    Ok(())
}

/// Adds the tally of later vehicles, rule by rule.
///
/// # Errors
///
/// Out of memory.
fn join(held: &mut [RuleVerdict], rules: &[Rule], later: &[RuleVerdict]) -> Result<(), AllocError>
    requires rules { length rules.now ≡ length held.old }
    requires later { length later.now ≡ length held.old }
    requires few { All (λ v. v.measure < 2 ^ 63) held.old }
    requires few_later { All (λ v. v.measure < 2 ^ 63) later.now }
    ensures { OnOk result (IsJoined rules.now held.old later.now held.new) }
{
    for place in 0..held.len() {
        join_in(&mut held[place], &rules[place], &later[place])?;
    }
    Ok(())
}

/// Adds the tally of later vehicles for one rule.
fn join_in(verdict: &mut RuleVerdict, rule: &Rule, later: &RuleVerdict) -> Result<(), AllocError>
    requires { verdict.old.measure + later.now.measure < 2 ^ 64 }
    ensures { OnOk result (verdict_document verdict.new
        ≡ joined_rule (rule_document rule.now) (verdict_document verdict.old) (verdict_document later.now)) }
{
    if later.measure > 0 {
        let room = MOST_DEVICES.saturating_sub(verdict.devices.len());
        let listed = room.min(later.devices.len());
        verdict.devices.extend_from_slice(&later.devices[..listed])?;
        verdict.measure += later.measure;
        verdict.status = status_of(rule.kind, rule.bounds, verdict.measure);
    }
    Ok(())
}

/// Drops the devices of the rules that aren't violated, once all vehicles are counted.
pub fn trim_verdicts(held: &mut [RuleVerdict])
    ensures { map verdict_document held.new ≡ map shown (map verdict_document held.old) }
{
    for verdict in held.iter_mut() {
        trim_verdict(verdict);
    }
}

/// Drops the devices of a rule that isn't violated, and the spare capacity of the list.
fn trim_verdict(verdict: &mut RuleVerdict)
    ensures { verdict_document verdict.new ≡ shown (verdict_document verdict.old) }
{
    if verdict.status != Status::Violated {
        verdict.devices.clear();
    }
    verdict.devices.shrink_to_fit();
}

/// The verdict on a rule that counts no vehicle.
fn initial_verdict(alloc: Global, rule: &Rule, local: Local) -> RuleVerdict
    ensures { verdict_document result ≡ gathered_rule (rule_document rule.now) local [] }
{
    let status = if rule.kind == Kind::Other {
        Status::NotEvaluated
    } else if open_at(rule, local) {
        status_of(rule.kind, rule.bounds, 0)
    } else {
        Status::Inactive
    };
    RuleVerdict {
        rule: rule.id,
        status,
        measure: 0,
        devices: Vec::new(alloc),
    }
}

fn status_of(kind: Kind, bounds: Bounds, measure: u64) -> Status
    ensures { result ≡ status_of kind bounds measure }
{
    let kept = match kind {
        Kind::Count => within(bounds, 1, measure),
        Kind::Time(_) => measure == 0,
        Kind::Other => return Status::NotEvaluated,
    };
    if kept { Status::Ok } else { Status::Violated }
}
