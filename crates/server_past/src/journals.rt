//! Where the journals of a city's past come from, and why one tells nothing.
use journal_folder::FolderFault;
use journal_samples::SampleFault;
use mds_text::Moment;
use std::alloc::{AllocError, Global};
use std::fmt;

/// The status of an answer for which memory ran out.
const NO_MEMORY: u16 = 503;

/// Why nothing is told by a journal that was found.
#[derive(Clone, Copy)]
pub enum PastFault {
    /// It can't be read, or isn't whole.
    Folder(FolderFault),
    /// The entry with this number, counted from 0, wasn't answered with success, but with this status: it isn't one of
    /// this configuration.
    Refused(usize, u16),
}

impl fmt::Display for PastFault {
    fn fmt<W: fmt::Write>(&self, f: &mut fmt::Formatter<W>) -> fmt::Result {
        match self {
            PastFault::Folder(FolderFault::Damaged(damage)) => write!(f, "{damage}"),
            PastFault::Folder(_) => f.write_str("it can't be read"),
            PastFault::Refused(entry, status) => {
                write!(
                    f,
                    "its entry {entry}, counted from 0, is answered with status {status}"
                )
            }
        }
    }
}

/// Where the journals of a city's past come from.
pub trait PastJournals: Drop {
    ghost use Rattle.std.specs.Prelude.{ℕ, List, IfOk, IfSome};

    /// These are the bytes of a journal that tells of what stood at this moment.
    ghost tells: { Self → ℕ → List ℕ → Type 0 };

    /// The bytes of the journal that tells of what stood at a moment, in milliseconds since the Unix epoch; `None`
    /// where none that does is kept.
    ///
    /// # Errors
    ///
    /// The folder's or the archive's, or out of memory.
    fn journal_at(&self, alloc: Global, at: Moment) -> Result<Option<Vec<u8>>, FolderFault>
        ensures { IfOk result (λ found. IfSome found (λ bytes. tells self.now at bytes.items)) };

    /// Reports that nothing is told of a moment, though a journal was found or should have been.
    fn report_fault(&self, at: Moment, fault: PastFault);
}

/// Why nothing is told of a moment.
#[derive(Clone, Copy)]
pub(crate) enum Untold {
    /// Out of memory.
    NoMemory,
    /// The journal's fault.
    Fault(PastFault),
}

impl From<AllocError> for Untold {
    fn from(_: AllocError) -> Untold {
        Untold::NoMemory
    }
}

impl From<FolderFault> for Untold {
    fn from(fault: FolderFault) -> Untold {
        match fault {
            FolderFault::NoMemory => Untold::NoMemory,
            _ => Untold::Fault(PastFault::Folder(fault)),
        }
    }
}

impl From<SampleFault> for Untold {
    fn from(fault: SampleFault) -> Untold {
        match fault {
            SampleFault::Refused(_, NO_MEMORY) => Untold::NoMemory,
            SampleFault::Refused(entry, status) => Untold::Fault(PastFault::Refused(entry, status)),
            SampleFault::Unordered | SampleFault::NoMemory => Untold::NoMemory,
        }
    }
}
