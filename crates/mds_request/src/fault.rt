//! Why a text is no configuration.
use mds_match::ZoneFault;
use mds_text::TextFault;
use std::alloc::{AllocError, AllocFailed};
use std::error::Error;
use std::fmt;

/// Why a text is no configuration.
#[derive(Clone, Copy, Debug)]
pub enum ConfigFault {
    /// The text is no JSON, or a member isn't what it has to be. Never `NoMemory` where
    /// `Config::read` returned it.
    Text(TextFault),
    /// There are more than 64 operators.
    TooManyOperators,
    /// The text of `zone` is no time zone.
    BadZone,
    /// Two operators have the same identifier, or two access tokens are equal.
    Alike,
    /// Out of memory.
    NoMemory,
}

impl fmt::Display for ConfigFault {
    ghost use Rattle.std.specs.Prelude.{Some};
    ghost use Rattle.mds_request.specs.Fault.{config_wording};

    ghost output = { λ fault. Some (config_wording fault) };

    fn fmt<W: fmt::Write>(&self, f: &mut fmt::Formatter<W>) -> fmt::Result {
        match self {
            ConfigFault::Text(fault) => write!(f, "{fault}"),
            ConfigFault::TooManyOperators => f.write_str("too many operators"),
            ConfigFault::BadZone => f.write_str("bad zone"),
            ConfigFault::Alike => f.write_str("alike"),
            ConfigFault::NoMemory => f.write_str("no memory"),
        }
    }
}

impl Error for ConfigFault {}

impl From<TextFault> for ConfigFault {
    ghost use Rattle.std.specs.Prelude.{◌≡◌};
    ghost use Rattle.mds_request.specs.declared.fault.ConfigFault.TheVariants.{Text};

    ghost from_gives = { λ fault e. e ≡ Text fault };

    fn from(fault: TextFault) -> ConfigFault {
        ConfigFault::Text(fault)
    }
}

impl From<AllocError> for ConfigFault {
    ghost use Rattle.std.specs.Prelude.{◌≡◌};
    ghost use Rattle.mds_request.specs.declared.fault.ConfigFault.TheVariants.{NoMemory};

    ghost from_gives = { λ _ e. e ≡ NoMemory };

    fn from(_refused: AllocError) -> ConfigFault {
        ConfigFault::NoMemory
    }
}

impl From<ZoneFault> for ConfigFault {
    ghost use Rattle.std.specs.Prelude.{◌≡◌};
    ghost use Rattle.mds_match.specs.ZoneFault.{zone_cause};
    ghost use Rattle.mds_request.specs.Fault.{config_cause};

    ghost from_gives = { λ fault e. config_cause e ≡ zone_cause fault };

    fn from(fault: ZoneFault) -> ConfigFault {
        match fault {
            ZoneFault::BadZone => ConfigFault::BadZone,
            ZoneFault::NoMemory => ConfigFault::NoMemory,
        }
    }
}

impl ConfigFault {
    ghost use Rattle.std.specs.Prelude.{◌≡◌};
    ghost use Rattle.mds_request.specs.Fault.{config_cause, IsApart};

    /// The same fault, with out of memory as `ConfigFault::NoMemory` instead of a fault of the
    /// text.
    pub(crate) fn normalize(self) -> ConfigFault
        ensures cause { config_cause result ≡ config_cause self }
        ensures apart { IsApart result }
    {
        match self {
            ConfigFault::Text(TextFault::NoMemory) | ConfigFault::NoMemory => ConfigFault::NoMemory,
            ConfigFault::Text(TextFault::BadJson) => ConfigFault::Text(TextFault::BadJson),
            ConfigFault::Text(TextFault::BadField(field)) => {
                ConfigFault::Text(TextFault::BadField(field))
            }
            ConfigFault::Text(TextFault::BadNumber) => ConfigFault::Text(TextFault::BadNumber),
            ConfigFault::Text(TextFault::OutOfRange) => ConfigFault::Text(TextFault::OutOfRange),
            ConfigFault::TooManyOperators => ConfigFault::TooManyOperators,
            ConfigFault::BadZone => ConfigFault::BadZone,
            ConfigFault::Alike => ConfigFault::Alike,
        }
    }
}
