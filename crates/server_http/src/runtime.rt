//! The runtime that serves connections, as one bound.

use std::alloc::AllocGlobal;
use std::random::RandomSource;
use std::sync::Wait;
use std::thread::Threads;
use std::time::Clock;

/// What each thread of a server has of the machine: the clock, random bytes and memory, by a handle that threads share
/// and that can be copied.
pub trait ConnectionHost: Clock + RandomSource + AllocGlobal + Sync + Send + Copy + Drop {}

impl ConnectionHost for HostRuntime {}

/// The runtime that serves connections: that of each thread, with blocking waits and the starting of threads.
pub trait ConnectionRuntime: ConnectionHost + Wait + Threads {}

impl<R: ConnectionHost + Wait + Threads> ConnectionRuntime for R {}
