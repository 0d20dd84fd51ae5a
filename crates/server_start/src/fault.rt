//! Why the server ends without serving.
ghost use Rattle.std.specs.Prelude.{◌≡◌};
ghost use Rattle.server_start.specs.Exit.{message_of, exit_status};

use mds_request::ConfigFault;
use mds_snapshot::OpenFault;
use mds_text::TextFault;
use std::alloc::AllocError;

/// Why the server ends without serving.
#[derive(Clone, Copy, Debug, PartialEq, Eq)]
pub enum ServeFault {
    /// The arguments aren't an address and at most a number of connections.
    Usage,
    /// The line on standard input is no configuration.
    BadConfig,
    /// There was no memory to open the server, or it couldn't be opened.
    NotOpened,
    /// Nothing can be listened to at the address, or threads or the waiting for events couldn't be
    /// had.
    NoListener,
}

impl ServeFault {
    /// The line on standard error.
    pub fn message(self) -> &'static str
        ensures { result.now ≡ message_of self }
    {
        match self {
            ServeFault::Usage => "serve: usage",
            ServeFault::BadConfig => "serve: bad configuration",
            ServeFault::NotOpened => "serve: not opened",
            ServeFault::NoListener => "serve: no listener",
        }
    }

    /// The program's exit status.
    pub fn status(self) -> u8
        ensures { result ≡ exit_status self }
    {
        match self {
            ServeFault::NoListener => 1,
            ServeFault::Usage | ServeFault::BadConfig => 2,
            ServeFault::NotOpened => 3,
        }
    }
}

impl From<ConfigFault> for ServeFault {
    ghost use Rattle.std.specs.Prelude.{◌≡◌};
    ghost use Rattle.server_start.specs.Exit.{fault_of};

    ghost from_gives = { λ fault e. e ≡ fault_of fault };

    fn from(fault: ConfigFault) -> ServeFault {
        match fault {
            ConfigFault::NoMemory | ConfigFault::Text(TextFault::NoMemory) => ServeFault::NotOpened,
            _ => ServeFault::BadConfig,
        }
    }
}

impl From<OpenFault> for ServeFault {
    ghost use Rattle.std.specs.Prelude.{◌≡◌};
    ghost use Rattle.server_start.specs.declared.fault.ServeFault.TheVariants.{NotOpened};

    ghost from_gives = { λ _ e. e ≡ NotOpened };

    fn from(_fault: OpenFault) -> ServeFault {
        ServeFault::NotOpened
    }
}

impl From<AllocError> for ServeFault {
    ghost use Rattle.std.specs.Prelude.{◌≡◌};
    ghost use Rattle.server_start.specs.declared.fault.ServeFault.TheVariants.{NotOpened};

    ghost from_gives = { λ _ e. e ≡ NotOpened };

    fn from(_refused: AllocError) -> ServeFault {
        ServeFault::NotOpened
    }
}
