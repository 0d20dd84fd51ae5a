//! Why there are no samples.
use std::alloc::{AllocError, AllocFailed};

/// Why there are no samples.
#[derive(Clone, Copy, Debug, PartialEq, Eq)]
pub enum SampleFault {
    /// The entry with this index, counted from 0, wasn't answered with success, but with this status. It isn't one of
    /// this configuration, or of this server.
    Refused(usize, u16),
    /// The moments don't ascend.
    Unordered,
    /// Out of memory.
    NoMemory,
}

impl From<AllocError> for SampleFault {
    fn from(_: AllocError) -> SampleFault {
        SampleFault::NoMemory
    }
}

impl<T: Drop> From<AllocFailed<T>> for SampleFault {
    fn from(_: AllocFailed<T>) -> SampleFault {
        SampleFault::NoMemory
    }
}
