//! Why there is no response.
ghost use Rattle.std.specs.Prelude.{◌≡◌};
ghost use Rattle.cli_client.specs.Faults.{is_passing};

use http1::ReadError;
use http1::framing::FramingError;
use std::alloc::AllocError;
use std::io::{self, ErrorKind};

/// Why there is no response.
#[derive(Clone, Copy, Debug, PartialEq, Eq)]
pub enum ResponseFault {
    /// Memory ran out.
    NoMemory,
    /// No connection can be opened, or it breaks.
    NoConnection,
    /// The connection ends before the response does.
    Incomplete,
    /// What comes doesn't begin with a head of HTTP/1.1 (RFC 9112, sections 4 and 5).
    InvalidHead,
    /// A `content-length` isn't a number of decimal digits below 2^64, or two of them differ (RFC 9112, section 6.3).
    InvalidLength,
    /// There are both a `content-length` and a `transfer-encoding` (RFC 9112, section 6.3).
    LengthAndCoding,
    /// A `transfer-encoding` that isn't decoded here (RFC 9112, section 6.1).
    UnknownCoding,
    /// A chunk, or what follows the last one, is malformed (RFC 9112, section 7.1).
    InvalidChunk,
    /// The head doesn't say where the body ends, so whether it is complete can't be seen (RFC 9112, section 6.3).
    NoLength,
    /// The body is longer than the client reads.
    TooLong,
}

impl ResponseFault {
    /// Whether the same request may get a response when it is sent again. Whatever the head of a response says is
    /// final.
    pub fn is_passing(self) -> bool
        ensures { result ≡ is_passing self }
    {
        match self {
            ResponseFault::NoConnection | ResponseFault::Incomplete | ResponseFault::InvalidHead =>
                true,
            ResponseFault::NoMemory
            | ResponseFault::InvalidLength
            | ResponseFault::LengthAndCoding
            | ResponseFault::UnknownCoding
            | ResponseFault::InvalidChunk
            | ResponseFault::NoLength
            | ResponseFault::TooLong => false,
        }
    }

    /// The fault in words.
    pub fn words(self) -> &'static str {
        match self {
            ResponseFault::NoMemory => "memory ran out",
            ResponseFault::NoConnection => "the server can't be reached",
            ResponseFault::Incomplete => "the server broke off",
            ResponseFault::InvalidHead => "the server answers what isn't HTTP",
            ResponseFault::InvalidLength => "the server answers with a content-length that is none",
            ResponseFault::LengthAndCoding => {
                "the server answers with both a content-length and a transfer-encoding"
            }
            ResponseFault::UnknownCoding => {
                "the server answers in a transfer-encoding that isn't read"
            }
            ResponseFault::InvalidChunk => "the server answers with a chunk that is none",
            ResponseFault::NoLength => "the server answers without a content-length",
            ResponseFault::TooLong => "the server answers with more than is read",
        }
    }
}

impl From<AllocError> for ResponseFault {
    ghost use Rattle.std.specs.Prelude.{◌≡◌};
    ghost use Rattle.cli_client.specs.declared.fault.ResponseFault.TheVariants.{NoMemory};

    ghost from_gives = { λ _ fault. fault ≡ NoMemory };

    fn from(_: AllocError) -> ResponseFault {
        ResponseFault::NoMemory
    }
}

impl From<io::Error> for ResponseFault {
    ghost use Rattle.std.specs.Prelude.{◌≡◌};
    ghost use Rattle.std_io.specs.IoError.{error_kind};
    ghost use Rattle.cli_client.specs.Faults.{fault_of_kind};

    ghost from_gives = { λ error fault. fault ≡ fault_of_kind (error_kind error) };

    fn from(error: io::Error) -> ResponseFault {
        match error.kind() {
            ErrorKind::OutOfMemory => ResponseFault::NoMemory,
            ErrorKind::UnexpectedEof => ResponseFault::Incomplete,
            _ => ResponseFault::NoConnection,
        }
    }
}

impl From<FramingError> for ResponseFault {
    ghost use Rattle.std.specs.Prelude.{◌≡◌};
    ghost use Rattle.cli_client.specs.Faults.{fault_of_framing};

    ghost from_gives = { λ error fault. fault ≡ fault_of_framing error };

    fn from(error: FramingError) -> ResponseFault {
        match error {
            FramingError::InvalidContentLength => ResponseFault::InvalidLength,
            FramingError::LengthAndEncoding => ResponseFault::LengthAndCoding,
            FramingError::InvalidTransferEncoding
            | FramingError::UnexpectedTransferEncoding
            | FramingError::ConnectWithContent => ResponseFault::UnknownCoding,
        }
    }
}

impl From<ReadError> for ResponseFault {
    ghost use Rattle.std.specs.Prelude.{◌≡◌};
    ghost use Rattle.cli_client.specs.declared.fault.ResponseFault.TheVariants.{InvalidChunk};

    ghost from_gives = { λ _ fault. fault ≡ InvalidChunk };

    fn from(_: ReadError) -> ResponseFault {
        ResponseFault::InvalidChunk
    }
}
