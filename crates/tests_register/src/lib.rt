//! Tests of a register's transactions, of what an answer to one means, of looks, of what is said to etcd and what it
//! answers; and of a journal's storage in a register, its room and its standbys. They use public items alone, and are a
//! crate of their own, so that proving them doesn't prove the tested crates again.
#![tactic(auto)]

#[cfg(test)]
mod budget;
#[cfg(test)]
mod etcd;
#[cfg(test)]
mod gateway;
#[cfg(test)]
mod register;
#[cfg(test)]
mod storage;
#[cfg(test)]
mod watch;
