//! Vehicles of MDS or GBFS as reports, removals or faults, and what is published as files of MDS
//! and GeoJSON.
#![tactic(auto)]

mod bare;
mod gbfs;
mod mds;
mod published;
mod report;

pub use gbfs::{gbfs_outcome, instant_of};
pub use mds::mds_outcome;
pub use published::{features_file, geographies_file, policies_file};
pub use report::VehicleOutcome;
