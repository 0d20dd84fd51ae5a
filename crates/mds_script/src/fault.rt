//! Why a replay ends before its input does.
ghost use Rattle.std.specs.Prelude.{◌≡◌};
ghost use Rattle.mds_script.specs.Exit.{message_of, exit_status};

use mds_request::ConfigFault;
use mds_text::TextFault;
use std::alloc::AllocError;

/// Why a replay ends before its input does.
#[derive(Clone, Copy, Debug, PartialEq, Eq)]
pub enum ReplayFault {
    /// A read failed, or the input is over its limit.
    Read,
    /// A write failed.
    Write,
    /// The first line is no configuration, or is over the limit of a line. Nothing was written.
    BadConfig,
    /// Out of memory for what is allocated first: the buffers, the configuration and the machine.
    /// Nothing was written.
    NoMemory,
}

impl ReplayFault {
    /// The program's message on standard error.
    pub fn message(self) -> &'static str
        ensures { result.now ≡ message_of self }
    {
        match self {
            ReplayFault::Read => "replay: read fault",
            ReplayFault::Write => "replay: write fault",
            ReplayFault::BadConfig => "replay: bad configuration",
            ReplayFault::NoMemory => "replay: no memory",
        }
    }

    /// The program's exit status.
    pub fn status(self) -> u8
        ensures { result ≡ exit_status self }
    {
        match self {
            ReplayFault::Read | ReplayFault::Write => 1,
            ReplayFault::BadConfig => 2,
            ReplayFault::NoMemory => 3,
        }
    }
}

impl From<ConfigFault> for ReplayFault {
    ghost use Rattle.std.specs.Prelude.{◌≡◌};
    ghost use Rattle.mds_script.specs.Exit.{fault_of};

    ghost from_gives = { λ fault e. e ≡ fault_of fault };

    fn from(fault: ConfigFault) -> ReplayFault {
        match fault {
            ConfigFault::NoMemory | ConfigFault::Text(TextFault::NoMemory) => ReplayFault::NoMemory,
            _ => ReplayFault::BadConfig,
        }
    }
}

impl From<AllocError> for ReplayFault {
    ghost use Rattle.std.specs.Prelude.{◌≡◌};
    ghost use Rattle.mds_script.specs.declared.fault.ReplayFault.TheVariants.{NoMemory};

    ghost from_gives = { λ _ e. e ≡ NoMemory };

    fn from(_refused: AllocError) -> ReplayFault {
        ReplayFault::NoMemory
    }
}
