//! Tests of snapshots, desks and halls, of responses, public documents and the control port, and of connections over
//! loopback. They use public items alone, and are a crate of their own, so that proving them doesn't prove the tested
//! crates again.
#![tactic(auto)]

#[cfg(test)]
mod city;
#[cfg(test)]
mod closing;
#[cfg(test)]
mod connections;
#[cfg(test)]
mod control;
#[cfg(test)]
mod counting;
#[cfg(test)]
mod crowded;
#[cfg(test)]
mod desk;
#[cfg(test)]
mod hall;
#[cfg(test)]
mod loopback;
#[cfg(test)]
mod page;
#[cfg(test)]
mod public;
#[cfg(test)]
mod queues;
#[cfg(test)]
mod responses;
#[cfg(test)]
mod runtime;
#[cfg(test)]
mod snapshot;
#[cfg(test)]
mod waiting;
