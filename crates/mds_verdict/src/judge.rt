//! The verdicts on a policy's rules, one vehicle after another.
ghost use Rattle.std.specs.Prelude.{◌≡◌, ◌^◌, ◌<◌, All, IfOk, map};
ghost use Rattle.mds_policy.specs.Policy.{policy_document};
ghost use Rattle.mds_match.specs.Row.{row_of};
ghost use Rattle.mds_verdict.specs.Verdict.{verdict_document, verdicts};
ghost use Rattle.mds_verdict.specs.Gathered.{IsTally};

use crate::tally::VerdictTally;
use crate::verdict::RuleVerdict;
use mds_match::{Local, Places, ResolvedPolicy, Vehicle};
use mds_policy::Policy;
use mds_text::Moment;
use std::alloc::{AllocError, Global};

/// The verdicts on a policy's rules: the tally of all vehicles, without the devices of rules that
/// aren't violated.
pub(crate) fn evaluate_all<P: Places>(
    alloc: Global,
    policy: &Policy,
    places: &P,
    vehicles: &[&Vehicle],
    local: Local,
    moment: Moment,
) -> Result<Vec<RuleVerdict>, AllocError>
    ensures exact { IfOk result (λ v. map verdict_document v.items
        ≡ verdicts (policy_document policy.now) (P.polygons places.now) (map (λ r. row_of r.now) vehicles.now) local moment) }
    ensures fits { IfOk result (λ v. All (λ x. x.measure < 2 ^ 63) v.items) }
{
    let tally = gather(alloc, policy, places, vehicles, local, moment)?;
    Ok(tally.verdicts())
}

/// The tally of all vehicles, one after another. The geographies are looked up once, before the
/// first vehicle.
fn gather<P: Places>(
    alloc: Global,
    policy: &Policy,
    places: &P,
    vehicles: &[&Vehicle],
    local: Local,
    moment: Moment,
) -> Result<VerdictTally, AllocError>
    ensures { IfOk result (λ tally. IsTally tally
        (policy_document policy.now) (P.polygons places.now) (map (λ r. row_of r.now) vehicles.now) local moment) }
{
    let resolved = ResolvedPolicy::new(alloc, policy, places, local)?;
    let mut tally = VerdictTally::new(alloc, policy, local)?;
    for vehicle in vehicles {
        tally.count(policy, resolved.first(vehicle), vehicle, moment)?;
    }
    Ok(tally)
}
