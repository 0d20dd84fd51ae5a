//! What evaluates a policy against an operator's vehicles.
use crate::judge::evaluate_all;
use crate::verdict::RuleVerdict;
use mds_match::{Local, Places, Vehicle};
use mds_policy::Policy;
use mds_text::Moment;
use std::alloc::{AllocError, Global};

/// Evaluates the rules of a policy against an operator's vehicles (MDS 2.0 Policy, rules and order
/// of operations).
pub trait Evaluator<P: Places> {
    ghost use Rattle.std.specs.Prelude.{◌≡◌, ◌^◌, ◌<◌, All, IfOk, map, ⊤};
    ghost use Rattle.mds_policy.specs.Policy.{policy_document};
    ghost use Rattle.mds_match.specs.Row.{row_of};
    ghost use Rattle.mds_verdict.specs.Verdict.{Ascends, verdict_document, verdicts};

    /// What an evaluation requires of the evaluator: nothing, or threads that may share its
    /// arguments.
    ghost may_judge: { Type 0 } = { ⊤ };

    /// One verdict for each rule of the policy, in their order, at a local time and at the moment
    /// up to which a vehicle's time in its state is measured. The vehicles ascend by device id,
    /// each once.
    ///
    /// # Errors
    ///
    /// Out of memory.
    fn verdicts(
        &self,
        alloc: Global,
        policy: &Policy,
        places: &P,
        vehicles: &[&Vehicle],
        local: Local,
        moment: Moment,
    ) -> Result<Vec<RuleVerdict>, AllocError>
        requires ready { may_judge }
        requires ascends { Ascends (map (λ v. row_of v.now) vehicles.now) }
        ensures exact { IfOk result (λ found. map verdict_document found.items
            ≡ verdicts (policy_document policy.now) (P.polygons places.now) (map (λ v. row_of v.now) vehicles.now) local moment) }
        ensures fits { IfOk result (λ found. All (λ v. v.measure < 2 ^ 63) found.items) };
}

/// Evaluates vehicle after vehicle. Besides its result it allocates the areas of each rule's
/// geographies. While it counts, it lists the first `MOST_DEVICES` devices of each rule; the lists
/// of rules that aren't violated are dropped at the end.
#[derive(Clone, Copy, Debug)]
pub struct Plain;

impl<P: Places> Evaluator<P> for Plain {
    ghost use Rattle.std.specs.Prelude.{◌≡◌, ◌^◌, ◌<◌, All, IfOk, map};
    ghost use Rattle.mds_policy.specs.Policy.{policy_document};
    ghost use Rattle.mds_match.specs.Row.{row_of};
    ghost use Rattle.mds_verdict.specs.Verdict.{verdict_document, verdicts};

    fn verdicts(
        &self,
        alloc: Global,
        policy: &Policy,
        places: &P,
        vehicles: &[&Vehicle],
        local: Local,
        moment: Moment,
    ) -> Result<Vec<RuleVerdict>, AllocError>
        ensures exact { IfOk result (λ found. map verdict_document found.items
            ≡ verdicts (policy_document policy.now) (P.polygons places.now) (map (λ v. row_of v.now) vehicles.now) local moment) }
        ensures fits { IfOk result (λ found. All (λ v. v.measure < 2 ^ 63) found.items) }
    {
        evaluate_all(alloc, policy, places, vehicles, local, moment)
    }
}
