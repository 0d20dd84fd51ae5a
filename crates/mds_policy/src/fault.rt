//! Why a text is refused as a policy.
use mds_text::TextFault;
use std::alloc::{AllocError, AllocFailed};
use std::error::Error;
use std::fmt;

/// Why a text is refused as a policy.
#[derive(Clone, Copy, Debug)]
pub enum PolicyFault {
    /// The text is not JSON, a member is not as it must be, or out of memory.
    Text(TextFault),
    /// A number somewhere in the text isn't plain: it has a fraction or an exponent, is `-0`, or has
    /// more than eighteen digits.
    Decimal,
    /// The policy has more than 64 rules.
    TooManyRules,
}

impl fmt::Display for PolicyFault {
    ghost use Rattle.std.specs.Prelude.{Some};
    ghost use Rattle.mds_policy.specs.Fault.{policy_wording};

    ghost output = { λ fault. Some (policy_wording fault) };

    fn fmt<W: fmt::Write>(&self, f: &mut fmt::Formatter<W>) -> fmt::Result {
        match self {
            PolicyFault::Text(fault) => write!(f, "{fault}"),
            PolicyFault::Decimal => f.write_str("decimal"),
            PolicyFault::TooManyRules => f.write_str("too many rules"),
        }
    }
}

impl Error for PolicyFault {}

impl From<TextFault> for PolicyFault {
    ghost use Rattle.std.specs.Prelude.{◌≡◌};
    ghost use Rattle.mds_policy.specs.declared.fault.PolicyFault.TheVariants.{Text};

    ghost from_gives = { λ fault e. e ≡ Text fault };

    fn from(fault: TextFault) -> PolicyFault {
        PolicyFault::Text(fault)
    }
}

impl From<AllocError> for PolicyFault {
    ghost use Rattle.std.specs.Prelude.{◌≡◌};
    ghost use Rattle.mds_text.specs.declared.fault.TextFault.TheVariants.{NoMemory};
    ghost use Rattle.mds_policy.specs.declared.fault.PolicyFault.TheVariants.{Text};

    ghost from_gives = { λ _ e. e ≡ Text NoMemory };

    fn from(_refused: AllocError) -> PolicyFault {
        PolicyFault::Text(TextFault::NoMemory)
    }
}

impl<T: Drop> From<AllocFailed<T>> for PolicyFault {
    ghost use Rattle.std.specs.Prelude.{◌≡◌};
    ghost use Rattle.mds_text.specs.declared.fault.TextFault.TheVariants.{NoMemory};
    ghost use Rattle.mds_policy.specs.declared.fault.PolicyFault.TheVariants.{Text};

    ghost from_gives = { λ _ e. e ≡ Text NoMemory };

    fn from(_refused: AllocFailed<T>) -> PolicyFault {
        PolicyFault::Text(TextFault::NoMemory)
    }
}
