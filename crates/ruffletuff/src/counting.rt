//! Counters of a city's connections, and of its operators' vehicles.

use mds_request::Config;
use server_control::{Counters, Fleet};
use server_http::ShutdownHandle;
use server_state::{Hall, HallName};
use std::alloc::{AllocError, Global};
use std::sync::Wait;

/// New counters of a server: for the connections that this shutdown handle ends, and for the vehicles of each operator
/// of a configuration.
///
/// # Errors
///
/// Memory ran out.
pub fn counters_of(
    alloc: Global,
    closing: &ShutdownHandle,
    config: &Config,
) -> Result<Counters, AllocError> {
    let mut fleets = Vec::new(alloc);
    for operator in config.operators() {
        let id = operator.id.print(alloc)?;
        fleets.push(Fleet::new(alloc, id.as_str())?)?;
    }
    Counters::new(alloc, closing.connections()?, fleets)
}

/// Has these counters, which are of the hall's configuration, show from now on how many vehicles each operator has.
///
/// # Errors
///
/// A number has too many references.
pub fn count_vehicles<K: HallName, R: Wait>(
    rt: &R,
    hall: &Hall<K>,
    counters: &Counters,
) -> Result<(), AllocError> {
    for (place, fleet) in counters.fleets().iter().enumerate() {
        hall.count_at(rt, place, fleet.vehicles()?);
    }
    Ok(())
}
