//! Why reading stops.
use crate::wrong::{OperatorFlaw, Wrong};
use mds_text::TextFault;
use std::alloc::{AllocError, AllocFailed};

/// Why the reading of a configuration stops.
#[derive(Clone, Copy, Debug, PartialEq, Eq)]
pub(crate) enum DiagnosisStop {
    /// This is wrong with the text.
    Wrong(Wrong),
    /// Out of memory.
    NoMemory,
}

impl From<Wrong> for DiagnosisStop {
    ghost use Rattle.std.specs.Prelude.{◌≡◌};
    ghost use Rattle.mds_config_error.specs.declared.stop.DiagnosisStop.TheVariants.{Wrong as Stopped};

    ghost from_gives = { λ wrong e. e ≡ Stopped wrong };

    fn from(wrong: Wrong) -> DiagnosisStop {
        DiagnosisStop::Wrong(wrong)
    }
}

impl From<AllocError> for DiagnosisStop {
    ghost use Rattle.std.specs.Prelude.{◌≡◌};
    ghost use Rattle.mds_config_error.specs.declared.stop.DiagnosisStop.TheVariants.{NoMemory};

    ghost from_gives = { λ _ e. e ≡ NoMemory };

    fn from(_refused: AllocError) -> DiagnosisStop {
        DiagnosisStop::NoMemory
    }
}

impl<T: Drop> From<AllocFailed<T>> for DiagnosisStop {
    ghost use Rattle.std.specs.Prelude.{◌≡◌};
    ghost use Rattle.mds_config_error.specs.declared.stop.DiagnosisStop.TheVariants.{NoMemory};

    ghost from_gives = { λ _ e. e ≡ NoMemory };

    fn from(_refused: AllocFailed<T>) -> DiagnosisStop {
        DiagnosisStop::NoMemory
    }
}
