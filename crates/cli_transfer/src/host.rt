//! What imports and exports need of the machine.

use cli_host::{FileHost, MessageHost};
use std::io::Print;
use std::net::Net;
use std::time::Clock;

/// What a connection with a deadline needs: sockets and the clock.
pub trait DialHost: Net + Clock {}

impl<R: Net + Clock> DialHost for R {}

/// The runtime of an import or an export: sockets, the clock, files, memory, standard output and standard error.
pub trait TransferHost: DialHost + FileHost + MessageHost + Print {}

impl<R: DialHost + FileHost + MessageHost + Print> TransferHost for R {}
