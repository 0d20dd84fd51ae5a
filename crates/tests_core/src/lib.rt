//! Tests of the core that scripts can't make: other calls, refused allocations, threads, and readers and writers that
//! fail. They use public items alone, and are a crate of their own, so that proving them doesn't prove the tested
//! crates again. What requests and their replies show is tested in `tests/replays`.
#![tactic(auto)]

#[cfg(test)]
mod area;
#[cfg(test)]
mod drafts;
#[cfg(test)]
mod fleet;
#[cfg(test)]
mod geography;
#[cfg(test)]
mod matching;
#[cfg(test)]
mod parallel;
#[cfg(test)]
mod reading;
#[cfg(test)]
mod replay;
#[cfg(test)]
mod request;
#[cfg(test)]
mod square;
#[cfg(test)]
mod text;
#[cfg(test)]
mod world;
