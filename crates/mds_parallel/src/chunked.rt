//! The evaluator that counts chunks of vehicles by several threads, and adds the counts.
ghost use Rattle.std.specs.Prelude.{◌≡◌, ◌^◌, ◌<◌, All, IfOk, List, ℕ, flat_map, map};
ghost use Rattle.mds_geometry.specs.declared.position.Position.{Position};
ghost use Rattle.mds_policy.specs.Policy.{policy_document};
ghost use Rattle.mds_match.specs.Resolved.{Finds};
ghost use Rattle.mds_match.specs.Row.{Row, row_of};
ghost use Rattle.mds_verdict.specs.Gathered.{IsTally};
ghost use Rattle.mds_verdict.specs.Verdict.{verdict_document, verdicts};
ghost use Rattle.mds_parallel.specs.Chunks.{AreOfPieces, AreTallies, IsResolved, IsTallyBy};

use crate::table::CandidateTable;
use mds_match::{Local, LocalMoment, Places, ResolvedPolicy, Vehicle};
use mds_policy::Policy;
use mds_text::Moment;
use mds_verdict::{Evaluator, Plain, RuleVerdict, VerdictTally};
use rayon::prelude::*;
use std::alloc::{AllocError, Global};
use std::thread::Threads;

/// The least work for which starting threads pays, in vehicles times rules: a few milliseconds.
const LEAST_WORK: usize = 300_000;

/// About how many chunks there are, where each has at least `LEAST_CHUNK` vehicles: a multiple of the pieces that
/// `rayon` makes on up to 16 processors.
const CHUNKS: usize = 32;

/// The fewest vehicles of a chunk, except the last one.
const LEAST_CHUNK: usize = 1024;

/// The runtime of work that several threads share: it starts them, and each of them may use it.
pub trait ParallelRuntime: Threads + Sync {}

impl<R: Threads + Sync> ParallelRuntime for R {}

/// Evaluates the vehicles in chunks, by as many threads as there are processors. Each chunk finds, for each pair of
/// vehicle type and state among its vehicles, the rules that such vehicles can meet, and counts and lists its vehicles;
/// then the counts are added and the lists joined in the order of the chunks. Little work goes to `Plain`, and so does
/// all work where memory for tables and counts is refused.
#[derive(Clone, Copy)]
pub struct Chunked<R>(pub R);

impl<R: Threads + Sync, P: Places> Evaluator<P> for Chunked<R> {
    ghost use Rattle.std.specs.Prelude.{◌≡◌, ◌^◌, ◌<◌, All, IfOk, map};
    ghost use Rattle.std.specs.Thread.{IsSync};
    ghost use Rattle.mds_policy.specs.Policy.{policy_document};
    ghost use Rattle.mds_match.specs.Row.{row_of};
    ghost use Rattle.mds_verdict.specs.Verdict.{verdict_document, verdicts};

    ghost may_judge = { IsSync R.row };

    fn verdicts(
        &self,
        alloc: Global,
        policy: &Policy,
        places: &P,
        vehicles: &[&Vehicle],
        local: Local,
        moment: Moment,
    ) -> Result<Vec<RuleVerdict>, AllocError>
        requires { IsSync R.row }
        ensures exact { IfOk result (λ found. map verdict_document found.items
            ≡ verdicts (policy_document policy.now) (P.polygons places.now) (map (λ v. row_of v.now) vehicles.now) local moment) }
        ensures fits { IfOk result (λ found. All (λ v. v.measure < 2 ^ 63) found.items) }
    {
        if vehicles.len().saturating_mul(policy.rules().len()) < LEAST_WORK {
            return Plain.verdicts(alloc, policy, places, vehicles, local, moment);
        }
        let at = LocalMoment { moment, local };
        match by_threads(&self.0, alloc, policy, places, vehicles, &at) {
            Ok(found) => Ok(found),
            Err(_) => Plain.verdicts(alloc, policy, places, vehicles, local, moment),
        }
    }
}

/// The verdicts on a policy's rules by several threads, however little the work; equal to those of one thread.
///
/// # Errors
///
/// Out of memory.
pub fn by_threads<R: ParallelRuntime, P: Places>(
    rt: &R,
    alloc: Global,
    policy: &Policy,
    places: &P,
    vehicles: &[&Vehicle],
    at: &LocalMoment,
) -> Result<Vec<RuleVerdict>, AllocError>
    ensures exact { IfOk result (λ found. map verdict_document found.items
        ≡ verdicts (policy_document policy.now) (P.polygons places.now) (map (λ v. row_of v.now) vehicles.now) at.now.local at.now.moment) }
    ensures fits { IfOk result (λ found. All (λ v. v.measure < 2 ^ 63) found.items) }
{
    let resolved = ResolvedPolicy::new(alloc, policy, places, at.local)?;
    let parts = tallies(rt, alloc, &resolved, policy, vehicles, at)?;
    let tally = join_tallies(alloc, policy, &parts, at.local)?;
    Ok(tally.verdicts())
}

/// The tallies of the chunks, in the order of the chunks.
///
/// # Errors
///
/// Out of memory.
fn tallies<R: ParallelRuntime>(
    rt: &R,
    alloc: Global,
    resolved: &ResolvedPolicy<'_>,
    policy: &Policy,
    vehicles: &[&Vehicle],
    at: &LocalMoment,
) -> Result<Vec<Result<VerdictTally, AllocError>>, AllocError>
    requires resolved { IsResolved resolved.now (policy_document policy.now) at.now.local }
    ensures { IfOk result (λ parts. (pieces : List (List Row)) × (flat_map (λ piece. piece) pieces ≡ map (λ v. row_of v.now) vehicles.now)
        × ((polygons : List ℕ → List (List (List Position))) → Finds resolved.now (policy_document policy.now) polygons at.now.local →
        AreTallies (policy_document policy.now) polygons pieces at.now.local at.now.moment parts.items)) }
{
    let (moment, local) = (at.moment, at.local);
    let size = (vehicles.len() / CHUNKS).max(LEAST_CHUNK);
    vehicles
        .par_chunks(size)
        .with_min_len(1)
        .map(
            |chunk: &[&Vehicle]| -> Result<VerdictTally, AllocError>
                requires { IsResolved resolved.now (policy_document policy.now) local }
                ensures { IfOk result (IsTallyBy resolved.entry.now (policy_document policy.entry.now) (map (λ v. row_of v.now) chunk.now) local moment) }
            { tally_of(alloc, resolved, policy, chunk, local, moment) },
        )
        .collect(rt, alloc)
}

/// The tally of one chunk.
///
/// # Errors
///
/// Out of memory.
fn tally_of(
    alloc: Global,
    resolved: &ResolvedPolicy<'_>,
    policy: &Policy,
    chunk: &[&Vehicle],
    local: Local,
    moment: Moment,
) -> Result<VerdictTally, AllocError>
    requires { IsResolved resolved.now (policy_document policy.now) local }
    ensures { IfOk result (IsTallyBy resolved.now (policy_document policy.now) (map (λ v. row_of v.now) chunk.now) local moment) }
{
    let mut table = CandidateTable::new(alloc);
    let mut tally = VerdictTally::new(alloc, policy, local)?;
    for vehicle in chunk {
        let number = table.first(resolved, vehicle)?;
        tally.count(policy, number, vehicle, moment)?;
    }
    Ok(tally)
}

/// The tally of all chunks.
///
/// # Errors
///
/// Out of memory, now or at one of the chunks.
fn join_tallies(
    alloc: Global,
    policy: &Policy,
    parts: &[Result<VerdictTally, AllocError>],
    local: Local,
) -> Result<VerdictTally, AllocError>
    requires { AreOfPieces (policy_document policy.now) local parts.now }
    ensures { IfOk result (λ tally. (polygons : List ℕ → List (List (List Position))) (pieces : List (List Row)) (moment : ℕ) →
        AreTallies (policy_document policy.now) polygons pieces local moment parts.now →
        IsTally tally (policy_document policy.now) polygons (flat_map (λ piece. piece) pieces) local moment) }
{
    let mut whole = VerdictTally::new(alloc, policy, local)?;
    for part in parts {
        match part {
            Ok(tally) => whole.join(policy, tally)?,
            Err(_) => return Err(AllocError),
        }
    }
    Ok(whole)
}
