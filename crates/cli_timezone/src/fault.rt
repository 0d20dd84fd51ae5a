//! Why a zone's file gives no rule.
use std::alloc::AllocError;
use std::fmt;

/// Why the file of a zone gives no rule.
#[derive(Clone, Copy, Debug, PartialEq, Eq)]
pub enum ZoneFileFault {
    /// It isn't there, or can't be read: only the caller that reads the file reports this.
    Unreadable,
    /// It doesn't begin as a TZif file does (RFC 9636, section 3.1).
    NoTzif,
    /// It is of version 1, which has no footer.
    FirstVersion,
    /// It doesn't end with a line (RFC 9636, section 3.3).
    NoFooter,
    /// Its footer is empty: no rule is in force after its last transition.
    NoRule,
    /// Its footer has bytes other than printable ASCII, or a quote or a backslash.
    NoText,
    /// Out of memory.
    NoMemory,
}

impl From<AllocError> for ZoneFileFault {
    ghost use Rattle.std.specs.Prelude.{◌≡◌};
    ghost use Rattle.cli_timezone.specs.declared.fault.ZoneFileFault.TheVariants.{NoMemory};

    ghost from_gives = { λ _ e. e ≡ NoMemory };

    fn from(_refused: AllocError) -> ZoneFileFault {
        ZoneFileFault::NoMemory
    }
}

impl fmt::Display for ZoneFileFault {
    ghost use Rattle.std.specs.Prelude.{Some};
    ghost use Rattle.cli_timezone.specs.Wording.{fault_wording};

    ghost output = { λ fault. Some (fault_wording fault) };

    fn fmt<W: fmt::Write>(&self, f: &mut fmt::Formatter<W>) -> fmt::Result {
        f.write_str(match self {
            ZoneFileFault::Unreadable => "can't be read",
            ZoneFileFault::NoTzif => "is no TZif file (RFC 9636)",
            ZoneFileFault::FirstVersion => "is a TZif file of version 1, which has no footer",
            ZoneFileFault::NoFooter => "is a TZif file without a footer",
            ZoneFileFault::NoRule => "has an empty footer, so no rule is in force",
            ZoneFileFault::NoText => "has a footer that is no rule",
            ZoneFileFault::NoMemory => "needs more memory than there is",
        })
    }
}
