//! Why a text is refused as a document.
use crate::field::Field;
use std::alloc::{AllocError, AllocFailed};
use std::error::Error;
use std::fmt;

/// Why a text is refused as a document.
#[derive(Clone, Copy, Debug)]
pub enum TextFault {
    /// The text is not JSON (RFC 8259), or not UTF-8.
    BadJson,
    /// A member is missing, or of another kind than it must be.
    BadField(Field),
    /// A string that must hold a number holds none.
    BadNumber,
    /// A number is too small or too large.
    OutOfRange,
    /// Out of memory.
    NoMemory,
}

impl fmt::Display for TextFault {
    ghost use Rattle.std.specs.Prelude.{Some};
    ghost use Rattle.mds_text.specs.Fault.{text_wording};

    ghost output = { λ fault. Some (text_wording fault) };

    fn fmt<W: fmt::Write>(&self, f: &mut fmt::Formatter<W>) -> fmt::Result {
        match self {
            TextFault::BadJson => f.write_str("bad JSON"),
            TextFault::BadField(field) => write!(f, "bad field {}", field.name()),
            TextFault::BadNumber => f.write_str("bad number"),
            TextFault::OutOfRange => f.write_str("out of range"),
            TextFault::NoMemory => f.write_str("no memory"),
        }
    }
}

impl Error for TextFault {}

impl From<AllocError> for TextFault {
    ghost use Rattle.std.specs.Prelude.{◌≡◌};
    ghost use Rattle.mds_text.specs.declared.fault.TextFault.TheVariants.{NoMemory};

    ghost from_gives = { λ _ e. e ≡ NoMemory };

    fn from(_refused: AllocError) -> TextFault {
        TextFault::NoMemory
    }
}

impl<T: Drop> From<AllocFailed<T>> for TextFault {
    ghost use Rattle.std.specs.Prelude.{◌≡◌};
    ghost use Rattle.mds_text.specs.declared.fault.TextFault.TheVariants.{NoMemory};

    ghost from_gives = { λ _ e. e ≡ NoMemory };

    fn from(_refused: AllocFailed<T>) -> TextFault {
        TextFault::NoMemory
    }
}

/// Why a text is not a coordinate.
#[derive(Clone, Copy, PartialEq, Eq, Debug)]
pub enum NumberFault {
    /// It is not a number (RFC 8259, section 6), has more than 64 bytes or an exponent of more than
    /// three digits.
    BadNumber,
    /// It is beyond 180 degrees.
    OutOfRange,
}

impl fmt::Display for NumberFault {
    ghost use Rattle.std.specs.Prelude.{Some};
    ghost use Rattle.mds_text.specs.Fault.{number_wording};

    ghost output = { λ fault. Some (number_wording fault) };

    fn fmt<W: fmt::Write>(&self, f: &mut fmt::Formatter<W>) -> fmt::Result {
        match self {
            NumberFault::BadNumber => f.write_str("bad number"),
            NumberFault::OutOfRange => f.write_str("out of range"),
        }
    }
}

impl Error for NumberFault {}

impl From<NumberFault> for TextFault {
    ghost use Rattle.mds_text.specs.Fault.{number_cause, text_cause};
    ghost use Rattle.std.specs.Prelude.{◌≡◌};

    ghost from_gives = { λ fault e. text_cause e ≡ number_cause fault };

    fn from(fault: NumberFault) -> TextFault {
        match fault {
            NumberFault::BadNumber => TextFault::BadNumber,
            NumberFault::OutOfRange => TextFault::OutOfRange,
        }
    }
}
