//! Why a journal isn't compacted.
use journal_entry::WriteFault;
use journal_file::{AppendFault, ReadFault, SyncFault};
use journal_folder::{ArchiveFault, FolderFault};
use journal_recovery::StartFault;
use mds_request::ConfigFault;
use std::alloc::{AllocError, AllocFailed};
use std::fmt;

/// Why a journal isn't compacted. The journal stays as it was.
#[derive(Clone, Copy)]
pub enum CompactFault {
    /// Out of memory, in this program or in a server that it starts or asks. No other fault means that.
    NoMemory,
    /// The configuration's text is none.
    Configuration(ConfigFault),
    /// The folder or the journal in it can't be used.
    Folder(FolderFault),
    /// No server starts from the journal.
    OldRefused(StartFault),
    /// The compacted journal can't be written, synced or read back, or the compaction can't be recorded.
    NotWritten,
    /// No server starts from the compacted journal.
    NewRefused(StartFault),
    /// The servers' answers to one of the questions differ.
    Differs,
    /// The journal can't be archived.
    NotArchived(ArchiveFault),
}

impl From<AllocError> for CompactFault {
    fn from(_: AllocError) -> CompactFault {
        CompactFault::NoMemory
    }
}

impl<T: Drop> From<AllocFailed<T>> for CompactFault {
    fn from(_: AllocFailed<T>) -> CompactFault {
        CompactFault::NoMemory
    }
}

impl From<ConfigFault> for CompactFault {
    fn from(fault: ConfigFault) -> CompactFault {
        match fault {
            ConfigFault::NoMemory => CompactFault::NoMemory,
            _ => CompactFault::Configuration(fault),
        }
    }
}

impl From<FolderFault> for CompactFault {
    fn from(fault: FolderFault) -> CompactFault {
        match fault {
            FolderFault::NoMemory => CompactFault::NoMemory,
            _ => CompactFault::Folder(fault),
        }
    }
}

impl From<ArchiveFault> for CompactFault {
    fn from(fault: ArchiveFault) -> CompactFault {
        match fault {
            ArchiveFault::NoMemory => CompactFault::NoMemory,
            _ => CompactFault::NotArchived(fault),
        }
    }
}

impl From<WriteFault> for CompactFault {
    fn from(fault: WriteFault) -> CompactFault {
        match fault {
            WriteFault::NoMemory => CompactFault::NoMemory,
            WriteFault::TooLong => CompactFault::NotWritten,
        }
    }
}

impl From<AppendFault> for CompactFault {
    fn from(fault: AppendFault) -> CompactFault {
        match fault {
            AppendFault::NoMemory => CompactFault::NoMemory,
            _ => CompactFault::NotWritten,
        }
    }
}

impl From<SyncFault> for CompactFault {
    fn from(_: SyncFault) -> CompactFault {
        CompactFault::NotWritten
    }
}

impl From<ReadFault> for CompactFault {
    fn from(fault: ReadFault) -> CompactFault {
        match fault {
            ReadFault::NoMemory => CompactFault::NoMemory,
            _ => CompactFault::NotWritten,
        }
    }
}

impl fmt::Display for CompactFault {
    fn fmt<W: fmt::Write>(&self, f: &mut fmt::Formatter<W>) -> fmt::Result {
        let words = match self {
            CompactFault::NotArchived(fault) => {
                return write!(f, "it can't be archived: {fault}");
            }
            CompactFault::NoMemory => "no memory",
            CompactFault::Configuration(_) => "the configuration is none",
            CompactFault::Folder(_) => "the folder can't be used",
            CompactFault::OldRefused(_) => "no server starts from the journal",
            CompactFault::NotWritten => "the thinned journal can't be written",
            CompactFault::NewRefused(_) => "no server starts from the thinned journal",
            CompactFault::Differs => "the thinned journal leads to another server",
        };
        f.write_str(words)
    }
}
