//! Why no server is started from a city's journal.

use journal_folder::FolderFault;
use journal_recovery::Fault;
use mds_text::Id;
use std::alloc::AllocError;

/// Why no server is started from a city's journal.
#[derive(Clone, Copy)]
pub enum JournalFault {
    /// Memory ran out.
    NoMemory,
    /// The journal is damaged, or doesn't fit the configuration.
    Folder(FolderFault),
    /// An entry can't be replayed.
    Refused(Fault),
    /// An entry can't be replayed: it is a report of this operator, and is answered as where the limit in the
    /// configuration is lower than what its fleet has.
    FullFleet(Id, Fault),
}

impl From<AllocError> for JournalFault {
    ghost use Rattle.std.specs.Prelude.{◌≡◌};
    ghost use Rattle.server_journal.specs.declared.fault.JournalFault.TheVariants.{NoMemory};

    ghost from_gives = { λ _ fault. fault ≡ NoMemory };

    fn from(_: AllocError) -> JournalFault {
        JournalFault::NoMemory
    }
}
