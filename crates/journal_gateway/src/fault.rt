//! Why there is no answer.
ghost use Rattle.std.specs.Prelude.{◌≡◌};
ghost use Rattle.journal_gateway.specs.Faults.{fault_of_kind};

use http1::{ReadError, WriteError};
use std::alloc::AllocError;
use std::io::{self, ErrorKind};

/// Why a member gave no answer. What was asked may have been done all the same.
#[derive(Clone, Copy, Debug, Drop, PartialEq, Eq)]
pub enum GatewayFault {
    /// Memory ran out.
    NoMemory,
    /// No connection can be opened, or it broke, or the time for an answer is over.
    NoConnection,
    /// The connection ended before the response did.
    Incomplete,
    /// What came is no HTTP/1.1.
    NotHttp,
    /// The response is longer than one that is read.
    TooLong,
    /// The request can't be written as HTTP/1.1.
    NotSent,
    /// The response has this status, and not 200.
    Refused(u16),
    /// The response to a request for a token has none that can be used.
    NoToken,
}

impl From<AllocError> for GatewayFault {
    ghost use Rattle.std.specs.Prelude.{◌≡◌};
    ghost use Rattle.journal_gateway.specs.declared.fault.GatewayFault.TheVariants.{NoMemory};

    ghost from_gives = { λ _ fault. fault ≡ NoMemory };

    fn from(_: AllocError) -> GatewayFault {
        GatewayFault::NoMemory
    }
}

impl From<io::Error> for GatewayFault {
    ghost use Rattle.std.specs.Prelude.{◌≡◌};
    ghost use Rattle.std_io.specs.IoError.{error_kind};
    ghost use Rattle.journal_gateway.specs.Faults.{fault_of_kind};

    ghost from_gives = { λ error fault. fault ≡ fault_of_kind (error_kind error) };

    fn from(error: io::Error) -> GatewayFault {
        match error.kind() {
            ErrorKind::OutOfMemory => GatewayFault::NoMemory,
            ErrorKind::UnexpectedEof => GatewayFault::Incomplete,
            _ => GatewayFault::NoConnection,
        }
    }
}

impl From<ReadError> for GatewayFault {
    ghost use Rattle.std.specs.Prelude.{◌≡◌};
    ghost use Rattle.journal_gateway.specs.declared.fault.GatewayFault.TheVariants.{NotHttp};

    ghost from_gives = { λ _ fault. fault ≡ NotHttp };

    fn from(_: ReadError) -> GatewayFault {
        GatewayFault::NotHttp
    }
}

/// Why a request isn't written: without memory, or since its parts may not stand in one.
impl From<WriteError> for GatewayFault {
    ghost use Rattle.std.specs.Prelude.{◌≡◌};
    ghost use Rattle.journal_gateway.specs.Faults.{fault_of_write};

    ghost from_gives = { λ error fault. fault ≡ fault_of_write error };

    fn from(error: WriteError) -> GatewayFault {
        match error {
            WriteError::OutOfMemory => GatewayFault::NoMemory,
            _ => GatewayFault::NotSent,
        }
    }
}

impl GatewayFault {
    /// The fault in words.
    pub fn words(self) -> &'static str {
        match self {
            GatewayFault::NoMemory => "memory ran out",
            GatewayFault::NoConnection => "no member of the cluster answers",
            GatewayFault::Incomplete => "a member of the cluster broke off",
            GatewayFault::NotHttp => "a member of the cluster answers what isn't HTTP",
            GatewayFault::TooLong => "a member of the cluster answers with more than is read",
            GatewayFault::NotSent => "the request may not stand in HTTP",
            GatewayFault::Refused(_) => "the cluster refuses what is asked",
            GatewayFault::NoToken => "the cluster gives no token",
        }
    }
}
