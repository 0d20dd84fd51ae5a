//! The bounds of the program's runtime, as two traits.

use server_http::{ConnectionHost, ConnectionRuntime};
use std::io::Print;
use std::net::Net;

/// What each thread of the program has of the machine: what those of a server have, standard output, and sockets.
pub trait ServeHost: ConnectionHost + Print + Net {}

impl ServeHost for HostRuntime {}

/// The runtime of the program: that of each thread, with blocking waits and the starting of threads.
pub trait ServerRuntime: ServeHost + ConnectionRuntime {}

impl<R: ServeHost + ConnectionRuntime> ServerRuntime for R {}
