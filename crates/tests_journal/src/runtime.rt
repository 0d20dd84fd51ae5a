//! What tests need of the runtime.

use std::alloc::AllocGlobal;
use std::process::Abort;
use std::random::RandomSource;
use std::sync::Wait;
use std::thread::Threads;

/// What a test has of the machine: random bytes and memory, by a handle that threads share.
pub trait TestHost: RandomSource + AllocGlobal + Sync {}

impl TestHost for HostRuntime {}

/// The runtime of a test, where nothing ends the process: that of the machine, with blocking waits.
pub trait WaitingRuntime: TestHost + Wait {}

impl<R: TestHost + Wait> WaitingRuntime for R {}

/// The runtime of a test on one thread.
pub trait JournalRuntime: WaitingRuntime + Abort {}

impl<R: WaitingRuntime + Abort> JournalRuntime for R {}

/// The runtime of a test whose threads work side by side.
pub trait JoinRuntime: WaitingRuntime + Threads {}

impl<R: WaitingRuntime + Threads> JoinRuntime for R {}
