//! Why the program ends without serving, with what is wrong.
ghost use Rattle.std.specs.Prelude.{◌≡◌, Some};
ghost use Rattle.server_start.specs.declared.fault.ServeFault.TheVariants.{BadConfig};

use mds_config_error::Detail;
use server_start::ServeFault;

/// Why the program ends without serving.
#[derive(Clone, Copy)]
pub struct StartFailure {
    pub fault: ServeFault,
    /// What is wrong with a bad configuration.
    pub detail: Option<Detail>,
}

impl StartFailure {
    /// The end after a bad configuration.
    pub fn bad_config(detail: Detail) -> StartFailure
        ensures { result ≡ record { fault = BadConfig; detail = Some detail } }
    {
        StartFailure {
            fault: ServeFault::BadConfig,
            detail: Some(detail),
        }
    }
}

impl From<ServeFault> for StartFailure {
    ghost use Rattle.std.specs.Prelude.{◌≡◌, None};

    ghost from_gives = { λ fault e. e ≡ record { fault = fault; detail = None } };

    fn from(fault: ServeFault) -> StartFailure {
        StartFailure {
            fault,
            detail: None,
        }
    }
}
