//! What tests need of the runtime.

use std::process::Abort;
use std::sync::Wait;
use std::thread::Threads;

/// The runtime of a test on one thread.
pub trait TestRuntime: Wait + Abort {}

impl<R: Wait + Abort> TestRuntime for R {}

/// The runtime of a test whose threads overlap.
pub trait OverlapRuntime: TestRuntime + Threads {}

impl<R: TestRuntime + Threads> OverlapRuntime for R {}
