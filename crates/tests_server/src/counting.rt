//! An evaluator that counts its calls.
use mds_match::{Local, Places, Vehicle};
use mds_policy::Policy;
use mds_text::Moment;
use mds_verdict::{Evaluator, Plain, RuleVerdict};
use std::alloc::{AllocError, Global};
use std::sync::atomic::{AtomicU64, Ordering};

/// Evaluates as `Plain` does, and counts the policies that it is given.
#[derive(Drop)]
pub(crate) struct CountingEvaluator {
    policies: AtomicU64,
}

impl CountingEvaluator {
    /// An evaluator that wasn't called yet.
    pub(crate) fn new() -> CountingEvaluator {
        CountingEvaluator {
            policies: AtomicU64::new(0),
        }
    }

    /// How many policies it was given.
    pub(crate) fn policies(&self) -> u64 {
        self.policies.load(Ordering::SeqCst)
    }
}

impl<P: Places> Evaluator<P> for CountingEvaluator {
    ghost use Rattle.std.specs.Prelude.{◌≡◌, ◌^◌, ◌<◌, All, IfOk, map};
    ghost use Rattle.mds_policy.specs.Policy.{policy_document};
    ghost use Rattle.mds_match.specs.Row.{row_of};
    ghost use Rattle.mds_verdict.specs.Verdict.{verdict_document, verdicts};

    fn verdicts(
        &self,
        alloc: Global,
        policy: &Policy,
        places: &P,
        vehicles: &[&Vehicle],
        local: Local,
        moment: Moment,
    ) -> Result<Vec<RuleVerdict>, AllocError>
        ensures exact { IfOk result (λ found. map verdict_document found.items
            ≡ verdicts (policy_document policy.now) (P.polygons places.now) (map (λ v. row_of v.now) vehicles.now) local moment) }
        ensures fits { IfOk result (λ found. All (λ v. v.measure < 2 ^ 63) found.items) }
    {
        self.policies.fetch_add(1, Ordering::SeqCst);
        Plain.verdicts(alloc, policy, places, vehicles, local, moment)
    }
}
