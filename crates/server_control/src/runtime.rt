//! What the control port and its client need of the runtime.

use std::alloc::AllocGlobal;
use std::fs::Files;
use std::net::Net;
use std::time::Clock;

/// What a Unix socket needs: sockets, and the files that they are.
pub(crate) trait SocketRuntime: Net + Files {}

impl<R: Net + Files> SocketRuntime for R {}

/// What answering needs: the clock and memory.
pub trait ControlRuntime: Clock + AllocGlobal {}

impl<R: Clock + AllocGlobal> ControlRuntime for R {}

/// What a client of a control port needs: sockets and memory.
pub trait ControlClientRuntime: Net + AllocGlobal {}

impl<R: Net + AllocGlobal> ControlClientRuntime for R {}
