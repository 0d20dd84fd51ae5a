//! Tests of records and entries, of group commit over a log whose calls fail, of a log whose file is replaced, of
//! restarts, of servers that resume from a log, of compaction, of archived journals and of replies of the past: journals
//! whose outcome is worked out by hand, and a disk that fails at each of its calls. They use public items alone, and are
//! a crate of their own, so that proving them doesn't prove the tested crates again.
#![tactic(auto)]

#[cfg(test)]
mod archive;
#[cfg(test)]
mod commits;
#[cfg(test)]
mod compactions;
#[cfg(test)]
mod disk;
#[cfg(test)]
mod entry;
#[cfg(test)]
mod failing;
#[cfg(test)]
mod file;
#[cfg(test)]
mod folder;
#[cfg(test)]
mod journal;
#[cfg(test)]
mod kept_entries;
#[cfg(test)]
mod past;
#[cfg(test)]
mod restart;
#[cfg(test)]
mod rounds;
#[cfg(test)]
mod runtime;
#[cfg(test)]
mod served;
#[cfg(test)]
mod swap;
