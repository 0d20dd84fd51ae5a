//! A table of the rules that vehicles of a type and a state can meet.
ghost use Rattle.std.specs.Prelude.{◌≡◌, ◌&&◌, [], All, Contains, IfOk, IfSome, OnOk, bytes_eq};
ghost use Rattle.mds_match.specs.Resolved.{first_of};
ghost use Rattle.mds_match.specs.Row.{row_of};
ghost use Rattle.mds_parallel.specs.Served.{IsServed};

use mds_match::{ResolvedPolicy, Vehicle};
use mds_text::Token;
use std::alloc::{AllocError, Global};

/// The most pairs of a table. Vehicles of further pairs are tried against all rules.
const MOST_PAIRS: usize = 64;

/// A vehicle type and a state, with the numbers of the rules that such vehicles can meet.
#[derive(Drop)]
pub(crate) struct CandidateRules {
    vehicle_type: Token,
    state: Token,
    numbers: Vec<usize>,
}

/// For each pair of vehicle type and state that was met so far, the rules that such vehicles can meet, so that a
/// vehicle is tried against these alone.
#[derive(Drop)]
pub(crate) struct CandidateTable {
    alloc: Global,
    pairs: Vec<CandidateRules>,
}

impl CandidateTable {
    ghost use Rattle.std.specs.Prelude.{◌≡◌, [], IfOk, OnOk};
    ghost use Rattle.mds_match.specs.Resolved.{first_of};
    ghost use Rattle.mds_match.specs.Row.{row_of};
    ghost use Rattle.mds_parallel.specs.Served.{IsTableOf};

    /// A table without pairs.
    pub(crate) fn new(alloc: Global) -> CandidateTable
        ensures { result.pairs.items ≡ [] }
    {
        CandidateTable {
            alloc,
            pairs: Vec::new(alloc),
        }
    }

    /// The number of the first rule that a vehicle meets. A new pair is added to the table, where there is room.
    ///
    /// # Errors
    ///
    /// Out of memory.
    pub(crate) fn first(
        &mut self,
        resolved: &ResolvedPolicy<'_>,
        vehicle: &Vehicle,
    ) -> Result<Option<usize>, AllocError>
        requires { IsTableOf resolved.now self.old }
        ensures exact { IfOk result (λ number. number ≡ first_of resolved.now (row_of vehicle.now)) }
        ensures kept { OnOk result (IsTableOf resolved.now self.new) }
    {
        if let Some(pair) = pair_of(&self.pairs, vehicle) {
            return Ok(resolved.first_among(&pair.numbers, vehicle));
        }
        if self.pairs.len() < MOST_PAIRS {
            self.pairs.push(new_pair(self.alloc, resolved, vehicle)?)?;
        }
        Ok(resolved.first(vehicle))
    }
}

/// The pair of a vehicle, with the rules that such vehicles can meet.
fn new_pair(
    alloc: Global,
    resolved: &ResolvedPolicy<'_>,
    vehicle: &Vehicle,
) -> Result<CandidateRules, AllocError>
    ensures { IfOk result (IsServed resolved.now) }
{
    let numbers = resolved.candidates(alloc, vehicle.vehicle_type(), vehicle.state())?;
    Ok(CandidateRules {
        vehicle_type: vehicle.vehicle_type(),
        state: vehicle.state(),
        numbers,
    })
}

/// The table's entry for the type and the state of a vehicle, if there is one.
fn pair_of<'a>(pairs: &'a [CandidateRules], vehicle: &Vehicle) -> Option<&'a CandidateRules>
    ensures { IfSome result (λ pair. Contains pairs.now pair.now × ((row_of vehicle.now).vehicle_type ≡ pair.now.vehicle_type) × ((row_of vehicle.now).state ≡ pair.now.state)) }
{
    for pair in pairs {
        if is_of(pair, vehicle) {
            return Some(pair);
        }
    }
    None
}

/// Whether a vehicle has this type and this state.
fn is_of(pair: &CandidateRules, vehicle: &Vehicle) -> bool
    ensures { result ≡ (bytes_eq pair.now.vehicle_type (row_of vehicle.now).vehicle_type && bytes_eq pair.now.state (row_of vehicle.now).state) }
{
    pair.vehicle_type == vehicle.vehicle_type() && pair.state == vehicle.state()
}
