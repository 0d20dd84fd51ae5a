//! Why a text is refused as a geography.
use mds_geometry::RingFault;
use mds_text::TextFault;
use std::alloc::{AllocError, AllocFailed};
use std::error::Error;
use std::fmt;

/// Why a text is refused as a geography.
#[derive(Clone, Copy, Debug)]
pub enum GeoFault {
    /// The text is not JSON, a member is not as it must be, or out of memory.
    Text(TextFault),
    /// A ring has fewer than four positions, or its first and last differ (RFC 7946, section
    /// 3.1.6).
    Ring(RingFault),
    /// There are more than 20,000 positions.
    TooManyPoints,
}

impl fmt::Display for GeoFault {
    ghost use Rattle.std.specs.Prelude.{Some};
    ghost use Rattle.mds_geography.specs.Fault.{geo_wording};

    ghost output = { λ fault. Some (geo_wording fault) };

    fn fmt<W: fmt::Write>(&self, f: &mut fmt::Formatter<W>) -> fmt::Result {
        match self {
            GeoFault::Text(fault) => write!(f, "{fault}"),
            GeoFault::Ring(RingFault::Short) => f.write_str("a ring is short"),
            GeoFault::Ring(RingFault::Open) => f.write_str("a ring is open"),
            GeoFault::TooManyPoints => f.write_str("too many positions"),
        }
    }
}

impl Error for GeoFault {}

impl From<TextFault> for GeoFault {
    ghost use Rattle.std.specs.Prelude.{◌≡◌};
    ghost use Rattle.mds_geography.specs.declared.fault.GeoFault.TheVariants.{Text};

    ghost from_gives = { λ fault e. e ≡ Text fault };

    fn from(fault: TextFault) -> GeoFault {
        GeoFault::Text(fault)
    }
}

impl From<RingFault> for GeoFault {
    ghost use Rattle.std.specs.Prelude.{◌≡◌};
    ghost use Rattle.mds_geography.specs.declared.fault.GeoFault.TheVariants.{Ring};

    ghost from_gives = { λ fault e. e ≡ Ring fault };

    fn from(fault: RingFault) -> GeoFault {
        GeoFault::Ring(fault)
    }
}

impl From<AllocError> for GeoFault {
    ghost use Rattle.std.specs.Prelude.{◌≡◌};
    ghost use Rattle.mds_geography.specs.declared.fault.GeoFault.TheVariants.{Text};
    ghost use Rattle.mds_text.specs.declared.fault.TextFault.TheVariants.{NoMemory};

    ghost from_gives = { λ _ e. e ≡ Text NoMemory };

    fn from(_refused: AllocError) -> GeoFault {
        GeoFault::Text(TextFault::NoMemory)
    }
}

impl<T: Drop> From<AllocFailed<T>> for GeoFault {
    ghost use Rattle.std.specs.Prelude.{◌≡◌};
    ghost use Rattle.mds_geography.specs.declared.fault.GeoFault.TheVariants.{Text};
    ghost use Rattle.mds_text.specs.declared.fault.TextFault.TheVariants.{NoMemory};

    ghost from_gives = { λ _ e. e ≡ Text NoMemory };

    fn from(_refused: AllocFailed<T>) -> GeoFault {
        GeoFault::Text(TextFault::NoMemory)
    }
}
