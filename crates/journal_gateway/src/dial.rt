//! Connections to members, as they are opened and timed.

use std::io::{self, Read, Write};

/// A connection to a member.
pub trait MemberStream: Read + Write + Drop {
    /// Begins an exchange: from now on the member has the time for one.
    fn begin(&mut self) -> io::Result<()>;
}

/// Opens connections to members, and waits before a member is asked again.
pub trait Dial: Drop {
    type Stream: MemberStream;

    /// Opens a connection to the member at an address.
    fn dial(&mut self, address: &str) -> io::Result<Self::Stream>;

    /// Waits before a request is sent again.
    fn pause(&mut self);
}
