//! Tests of what the command line reads and writes: arguments, configurations, zones, moments, requests, documents,
//! vehicles and reports; and of what a configuration says of the page. They use public items alone, and are a crate of
//! their own, so that proving them doesn't prove the tested crates again.
#![tactic(auto)]

#[cfg(test)]
mod args;
#[cfg(test)]
mod calendar;
#[cfg(test)]
mod client;
#[cfg(test)]
mod config;
#[cfg(test)]
mod documents;
#[cfg(test)]
mod logs;
#[cfg(test)]
mod report;
#[cfg(test)]
mod report_rules;
#[cfg(test)]
mod settings;
#[cfg(test)]
mod timezone;
#[cfg(test)]
mod vehicles;
