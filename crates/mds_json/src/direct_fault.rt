//! Why a text isn't read straight from its tokens.
use json::Invalid;
use std::alloc::{AllocError, AllocFailed};

/// Why a text isn't read straight from its tokens.
#[derive(Clone, Copy, Drop)]
pub(crate) enum DirectFault {
    /// The text is unusual, or not JSON.
    Unusual,
    /// Out of memory.
    NoMemory,
}

impl From<AllocError> for DirectFault {
    fn from(_refused: AllocError) -> DirectFault {
        DirectFault::NoMemory
    }
}

impl<T: Drop> From<AllocFailed<T>> for DirectFault {
    fn from(_refused: AllocFailed<T>) -> DirectFault {
        DirectFault::NoMemory
    }
}

impl From<Invalid> for DirectFault {
    ghost use Rattle.std.specs.Prelude.{◌≡◌};
    ghost use Rattle.mds_json.specs.declared.direct_fault.DirectFault.TheVariants.{Unusual};

    ghost from_gives = { λ _ e. e ≡ Unusual };

    fn from(_refused: Invalid) -> DirectFault {
        DirectFault::Unusual
    }
}
