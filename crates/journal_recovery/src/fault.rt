//! Why a replay failed.
use mds_snapshot::OpenFault;

/// Why an entry wasn't answered with success.
#[derive(Clone, Copy, Debug, PartialEq, Eq)]
pub enum Cause {
    /// Its operator isn't in the configuration.
    NoDesk,
    /// It was answered with this status: 503 where out of memory, another where the entry isn't one of this server.
    Refused(u16),
}

/// The first entry that wasn't answered with success.
#[derive(Clone, Copy, Debug, PartialEq, Eq)]
pub struct Fault {
    /// The entry's index among those that were to be replayed, counted from 0.
    pub entry: usize,
    pub cause: Cause,
}

/// Why a server isn't restarted.
#[derive(Clone, Copy, Debug, PartialEq, Eq)]
pub enum StartFault {
    /// Out of memory or of reader slots as the room and the desks were made.
    Opening(OpenFault),
    /// An entry wasn't answered with success.
    Stopped(Fault),
}
