//! What the commands on a journal in etcd need of the machine.

use cli_host::{FileHost, MessageHost};
use journal_gateway::DialHost;
use std::io::Print;
use std::random::RandomSource;

/// Sockets, the clock, files, memory, random numbers, standard output and standard error.
pub trait LogHost: DialHost + FileHost + MessageHost + Print + RandomSource {}

impl<R: DialHost + FileHost + MessageHost + Print + RandomSource> LogHost for R {}
