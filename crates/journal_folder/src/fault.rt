//! Why a city's folder isn't opened.
ghost use Rattle.std.specs.Prelude.{◌≡◌};
ghost use Rattle.journal_folder.specs.Exit.{exit_status};

use journal_entry::{EntryFault, HeadFault, Unfit};
use journal_file::{AppendFault, JournalOpenFault, ReadFault, Signature, SyncFault};
use std::alloc::{AllocError, AllocFailed};
use std::fmt;

/// What is wrong with a journal.
#[derive(Clone, Copy, Debug, PartialEq, Eq)]
pub enum Damage {
    /// It was synced up to this byte, and isn't whole up to there.
    Lost(u64),
    /// At this byte stands a mark that was written for another position.
    Moved(u64),
    /// It doesn't begin as a journal does, but with this.
    Foreign(Signature),
    /// From this byte on stands something that no kill of the program leaves.
    Unexplained(u64),
    /// It is longer than a journal may be.
    TooLong,
    /// Its first record has this version, which isn't known.
    Version(u8),
    /// Its first record is no head.
    NoHead,
    /// The record with this number, counted from 0, is no entry, or one of a version that isn't known.
    NoEntry(usize),
}

/// Why a city's folder isn't opened.
#[derive(Clone, Copy)]
pub enum FolderFault {
    /// It can't be made, read or written.
    Unusable,
    /// In the place of one of its files stands a link, or something else that is no file.
    Linked,
    /// Another program has it.
    Locked,
    /// Out of memory.
    NoMemory,
    /// The journal isn't what was written.
    Damaged(Damage),
    /// The server can't continue from the journal with this configuration.
    Unfitting(Unfit),
}

impl FolderFault {
    /// The program's exit status: 3 where out of memory, 4 for a folder that can't be used, 5 for a damaged journal, 6
    /// for a configuration that doesn't fit it.
    pub fn status(self) -> u8
        ensures { result ≡ exit_status self }
    {
        match self {
            FolderFault::NoMemory => 3,
            FolderFault::Unusable | FolderFault::Linked | FolderFault::Locked => 4,
            FolderFault::Damaged(_) => 5,
            FolderFault::Unfitting(_) => 6,
        }
    }
}

impl From<AllocError> for FolderFault {
    ghost use Rattle.std.specs.Prelude.{◌≡◌};
    ghost use Rattle.journal_folder.specs.declared.fault.FolderFault.TheVariants.{NoMemory};

    ghost from_gives = { λ _ e. e ≡ NoMemory };

    fn from(_: AllocError) -> FolderFault {
        FolderFault::NoMemory
    }
}

impl<T: Drop> From<AllocFailed<T>> for FolderFault {
    fn from(_: AllocFailed<T>) -> FolderFault {
        FolderFault::NoMemory
    }
}

impl From<JournalOpenFault> for FolderFault {
    ghost use Rattle.std.specs.Prelude.{◌≡◌};
    ghost use Rattle.journal_folder.specs.Exit.{fault_of_opening};

    ghost from_gives = { λ fault e. e ≡ fault_of_opening fault };

    fn from(fault: JournalOpenFault) -> FolderFault {
        match fault {
            JournalOpenFault::Damaged(synced) => FolderFault::Damaged(Damage::Lost(synced)),
            JournalOpenFault::Moved(place) => FolderFault::Damaged(Damage::Moved(place)),
            JournalOpenFault::Foreign(signature) => FolderFault::Damaged(Damage::Foreign(
                signature,
            )),
            JournalOpenFault::Torn(whole) => FolderFault::Damaged(Damage::Unexplained(whole)),
            JournalOpenFault::TooLong => FolderFault::Damaged(Damage::TooLong),
            JournalOpenFault::NotKept | JournalOpenFault::Failed => FolderFault::Unusable,
            JournalOpenFault::NoMemory => FolderFault::NoMemory,
        }
    }
}

impl From<ReadFault> for FolderFault {
    fn from(fault: ReadFault) -> FolderFault {
        match fault {
            ReadFault::NoMemory => FolderFault::NoMemory,
            ReadFault::NoAnswer | ReadFault::Damaged => FolderFault::Unusable,
        }
    }
}

impl From<AppendFault> for FolderFault {
    fn from(fault: AppendFault) -> FolderFault {
        match fault {
            AppendFault::NoMemory => FolderFault::NoMemory,
            _ => FolderFault::Unusable,
        }
    }
}

impl From<SyncFault> for FolderFault {
    fn from(_: SyncFault) -> FolderFault {
        FolderFault::Unusable
    }
}

impl From<HeadFault> for FolderFault {
    ghost use Rattle.std.specs.Prelude.{◌≡◌, ◌≢◌};
    ghost use Rattle.journal_entry.specs.declared.fitting.Unfit.{Unfit};
    ghost use Rattle.journal_folder.specs.Exit.{fault_of_head};
    ghost use Rattle.journal_folder.specs.declared.fault.FolderFault.TheVariants.{Unfitting};

    ghost from_gives = { λ fault e. (e ≡ fault_of_head fault) × ((against : Unfit) → e ≢ Unfitting against) };

    fn from(fault: HeadFault) -> FolderFault {
        match fault {
            HeadFault::Version(version) => FolderFault::Damaged(Damage::Version(version)),
            HeadFault::Malformed => FolderFault::Damaged(Damage::NoHead),
            HeadFault::NoMemory => FolderFault::NoMemory,
        }
    }
}

impl From<Unfit> for FolderFault {
    fn from(unfit: Unfit) -> FolderFault {
        FolderFault::Unfitting(unfit)
    }
}

/// The fault where the record with this number can't be read as an entry.
pub(crate) fn entry_fault(number: usize, fault: EntryFault) -> FolderFault {
    match fault {
        EntryFault::NoMemory => FolderFault::NoMemory,
        EntryFault::Version(_) | EntryFault::Malformed => {
            FolderFault::Damaged(Damage::NoEntry(number))
        }
    }
}

/// The words for what stands at the beginning of a file.
fn signature_words(signature: Signature) -> &'static str {
    match signature {
        Signature::Gzip => "data that was compressed with gzip",
        Signature::ByteOrderMark => "a byte order mark",
        Signature::Zeros => "zeros",
        Signature::Records => "bytes behind which records of a journal stand",
        Signature::Text => "a text",
        Signature::Unknown => "other bytes",
    }
}

impl fmt::Display for Damage {
    fn fmt<W: fmt::Write>(&self, f: &mut fmt::Formatter<W>) -> fmt::Result {
        match self {
            Damage::Lost(synced) => {
                write!(
                    f,
                    "it was synced up to byte {synced}, and isn't whole up to there"
                )
            }
            Damage::Moved(place) => {
                write!(
                    f,
                    "at byte {place} stands what was written for another place: bytes were put in or taken out"
                )
            }
            Damage::Foreign(signature) => {
                let found = signature_words(*signature);
                write!(f, "it doesn't begin as a journal does, but with {found}")
            }
            Damage::Unexplained(whole) => {
                write!(
                    f,
                    "what stands from byte {whole} on is no record, and isn't what a kill of the program leaves"
                )
            }
            Damage::TooLong => f.write_str("it is longer than a journal may be"),
            Damage::Version(version) => {
                write!(
                    f,
                    "it has version {version}, which this program doesn't know"
                )
            }
            Damage::NoHead => f.write_str("its first record is no journal's head"),
            Damage::NoEntry(number) => {
                write!(f, "its record {number} is none that this program knows")
            }
        }
    }
}
