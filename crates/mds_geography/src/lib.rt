//! Geographies, as MDS 2.0 Geography and GeoJSON (RFC 7946) describe them.
#![tactic(auto)]

mod fault;
mod geography;
mod served_tree;
mod walk;

pub use fault::GeoFault;
pub use geography::Geography;
