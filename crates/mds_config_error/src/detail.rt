//! What is reported of a configuration line that can't be used.
use crate::judge::diagnose;
use crate::wrong::Wrong;
use std::alloc::Global;
use std::fmt;

/// What is reported of a configuration line that can't be used.
#[derive(Clone, Copy, Debug, PartialEq, Eq)]
pub enum Detail {
    /// It couldn't be read.
    Unreadable,
    /// It has more than 2,097,152 bytes.
    TooLong,
    /// This is wrong with its text.
    Found(Wrong),
    /// Out of memory while looking for what is wrong.
    Untold,
}

impl Detail {
    ghost use Rattle.mds_config_error.specs.Wording.{IsFound};

    /// What is wrong with a text that is no configuration; `Untold` where memory runs out.
    pub fn of(alloc: Global, text: &[u8]) -> Detail
        ensures { IsFound result text.now }
    {
        match diagnose(alloc, text) {
            Ok(Some(wrong)) => Detail::Found(wrong),
            Ok(None) | Err(_) => Detail::Untold,
        }
    }
}

impl fmt::Display for Detail {
    ghost use Rattle.std.specs.Prelude.{Some};
    ghost use Rattle.mds_config_error.specs.Wording.{detail_wording};

    ghost output = { λ detail. Some (detail_wording detail) };

    fn fmt<W: fmt::Write>(&self, f: &mut fmt::Formatter<W>) -> fmt::Result {
        match self {
            Detail::Unreadable => f.write_str("not readable"),
            Detail::TooLong => f.write_str("longer than 2097152 bytes"),
            Detail::Found(wrong) => write!(f, "{wrong}"),
            Detail::Untold => f.write_str("no memory to say what is wrong"),
        }
    }
}
