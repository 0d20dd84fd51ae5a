//! The command `report`: reads a city's journals, works out its operators side by side, and writes the report's files.
#![tactic(auto)]

mod report_city;
mod report_files;
mod report_journals;
mod report_operators;
mod report_rows;
mod report_samples;
mod report_zone;
mod reporting;

pub use reporting::report;
