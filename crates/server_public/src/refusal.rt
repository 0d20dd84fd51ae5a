//! Why a request for the public documents is refused.
ghost use Rattle.std.specs.Prelude.{◌≡◌};
ghost use Rattle.std.specs.declared.alloc.AllocError.{AllocError};

use std::alloc::AllocError;

/// Why a request is refused (MDS 2.0, general information: error messages).
#[derive(Clone, Copy, Debug, PartialEq, Eq)]
pub enum Refusal {
    /// A moment of the query is none.
    BadParameter,
    /// Nothing of this identifier is public.
    NotFound,
    /// The public documents can only be read.
    Method,
    /// The client accepts only another version, or another type.
    NotAcceptable,
}

/// Why there is no body.
#[derive(Clone, Copy, Debug, PartialEq, Eq)]
pub enum PublicFault {
    /// Out of memory.
    NoMemory,
    /// The request is refused.
    Refused(Refusal),
}

impl From<AllocError> for PublicFault {
    ghost use Rattle.server_public.specs.declared.refusal.PublicFault.TheVariants.{NoMemory};

    ghost from_gives = { λ fault denied. denied ≡ NoMemory };

    fn from(_fault: AllocError) -> PublicFault {
        PublicFault::NoMemory
    }
}
