//! Why the program ends other than as it was asked to, with the exit status and the message of each.
ghost use Rattle.std.specs.Prelude.{◌≡◌};
ghost use Rattle.cli_journal.specs.Exit.{cause_status, exit_status, cause_message, folder_message, message_of, cause_of_thinned, ending_of_thinned};

use crate::report_fault::ReportFault;
use journal_compaction::CompactFault;
use journal_folder::{ArchiveFault, FolderFault};
use journal_recovery::{Cause, Fault, StartFault};
use mds_config_error::Detail;
use mds_snapshot::OpenFault;
use std::alloc::AllocError;

/// Why the program ends.
#[derive(Clone, Copy)]
pub enum ExitCause {
    /// The arguments are none that the program knows.
    Usage,
    /// The configuration's file isn't a configuration.
    Misconfigured(Detail),
    /// The member `oversight` of the configuration's file is none of its texts.
    NoOversight,
    /// A part of the member `page` of the configuration's file is wrong.
    NoPage,
    /// Memory ran out.
    NoMemory,
    /// The server's address can't be listened to, or threads or the polling of events couldn't be had.
    NoListener,
    /// The control port's address can't be listened to.
    NoControl,
    /// No server with a control port at this address says that it stops.
    NotStopped,
    /// Standard output couldn't be written.
    NotPrinted,
    /// The city's folder can't be opened, or its journal can't be used.
    Folder(FolderFault),
    /// An entry of the journal can't be replayed.
    Refused(Fault),
    /// The journal couldn't be written any more.
    NotKept,
    /// The server was stopped, and its journal isn't known to have the records of just what was carried out.
    NotWhole,
    /// The compacted journal couldn't be written next to the journal, which stays.
    NotThinned,
    /// The compacted journal leads to another state than the journal, which stays.
    Differs,
    /// The folder for archived journals can't be used.
    NoArchive,
    /// The journal can't be archived, and stays.
    NotArchived(ArchiveFault),
    /// The journal of a report's folder with this number, counted from 0, can't be used.
    ReportFolder(usize, FolderFault),
    /// An entry of that journal can't be replayed.
    ReportEntry(usize, Fault),
    /// No report is made, and no journal is why.
    Report(ReportFault),
}

/// The exit status where an entry can't be replayed.
fn cause_status(cause: Cause) -> u8
    ensures { result ≡ cause_status cause }
{
    match cause {
        Cause::Refused(503) => 3,
        Cause::Refused(_) | Cause::NoDesk => 6,
    }
}

/// The message where an entry can't be replayed.
fn cause_message(cause: Cause) -> &'static str
    ensures { result.now ≡ cause_message cause }
{
    match cause {
        Cause::Refused(503) => "ruffletuff: memory ran out",
        Cause::Refused(_) | Cause::NoDesk => {
            "ruffletuff: the configuration doesn't fit the journal"
        }
    }
}

/// The message where a folder can't be opened.
fn folder_message(fault: &FolderFault) -> &'static str
    ensures { result.now ≡ folder_message fault.now }
{
    match fault {
        FolderFault::NoMemory => "ruffletuff: memory ran out",
        FolderFault::Unusable => "ruffletuff: the folder can't be used",
        FolderFault::Linked => "ruffletuff: a file of the folder is a link, or none",
        FolderFault::Locked => "ruffletuff: another program has the folder",
        FolderFault::Damaged(_) => "ruffletuff: the journal is damaged, or of another version",
        FolderFault::Unfitting(_) => "ruffletuff: the configuration doesn't fit the journal",
    }
}

impl ExitCause {
    /// The program's exit status.
    pub fn status(self) -> u8
        ensures { result ≡ exit_status self }
    {
        match self {
            ExitCause::NoListener
            | ExitCause::NoControl
            | ExitCause::NotStopped
            | ExitCause::NotPrinted => 1,
            ExitCause::Usage | ExitCause::Misconfigured(_) => 2,
            ExitCause::NoOversight | ExitCause::NoPage => 2,
            ExitCause::NoMemory => 3,
            ExitCause::NoArchive => 4,
            ExitCause::Folder(fault) | ExitCause::ReportFolder(_, fault) => fault.status(),
            ExitCause::Refused(fault) | ExitCause::ReportEntry(_, fault) => {
                cause_status(fault.cause)
            }
            ExitCause::Report(fault) => fault.status(),
            ExitCause::NotKept | ExitCause::NotThinned | ExitCause::NotArchived(_) => 7,
            ExitCause::NotWhole => 7,
            ExitCause::Differs => 8,
        }
    }

    /// The first line on standard error.
    pub fn message(&self) -> &'static str
        ensures { result.now ≡ message_of self.now }
    {
        match self {
            ExitCause::Usage => "ruffletuff: the arguments are wrong",
            ExitCause::Misconfigured(_) | ExitCause::NoOversight | ExitCause::NoPage => {
                "ruffletuff: the configuration is wrong"
            }
            ExitCause::NoMemory => "ruffletuff: memory ran out",
            ExitCause::NoListener => "ruffletuff: nothing can be listened to",
            ExitCause::NoControl => "ruffletuff: nothing can be listened to for control",
            ExitCause::NotStopped => "ruffletuff: no server says that it stops",
            ExitCause::NotPrinted => "ruffletuff: standard output can't be written",
            ExitCause::Folder(fault) | ExitCause::ReportFolder(_, fault) => folder_message(fault),
            ExitCause::Refused(fault) | ExitCause::ReportEntry(_, fault) => {
                cause_message(fault.cause)
            }
            ExitCause::Report(fault) => fault.message(),
            ExitCause::NotKept => "ruffletuff: the journal couldn't be written any more",
            ExitCause::NotWhole =>
                "ruffletuff: the journal isn't known to have all that was answered",
            ExitCause::NotThinned => "ruffletuff: the thinned journal couldn't be written",
            ExitCause::Differs => "ruffletuff: the thinned journal leads to another city",
            ExitCause::NoArchive => "ruffletuff: the archive can't be used",
            ExitCause::NotArchived(_) =>
                "ruffletuff: the journal can't be archived, and isn't thinned",
        }
    }
}

impl From<AllocError> for ExitCause {
    ghost use Rattle.std.specs.Prelude.{◌≡◌};
    ghost use Rattle.cli_journal.specs.declared.exit_cause.ExitCause.TheVariants.{NoMemory};

    ghost from_gives = { λ _ e. e ≡ NoMemory };

    fn from(_: AllocError) -> ExitCause {
        ExitCause::NoMemory
    }
}

impl From<OpenFault> for ExitCause {
    ghost use Rattle.std.specs.Prelude.{◌≡◌};
    ghost use Rattle.cli_journal.specs.declared.exit_cause.ExitCause.TheVariants.{NoMemory};

    ghost from_gives = { λ _ e. e ≡ NoMemory };

    fn from(_: OpenFault) -> ExitCause {
        ExitCause::NoMemory
    }
}

impl From<FolderFault> for ExitCause {
    ghost use Rattle.std.specs.Prelude.{◌≡◌};
    ghost use Rattle.cli_journal.specs.declared.exit_cause.ExitCause.TheVariants.{Folder};

    ghost from_gives = { λ fault e. e ≡ Folder fault };

    fn from(fault: FolderFault) -> ExitCause {
        ExitCause::Folder(fault)
    }
}

impl From<ReportFault> for ExitCause {
    ghost use Rattle.std.specs.Prelude.{◌≡◌};
    ghost use Rattle.cli_journal.specs.declared.exit_cause.ExitCause.TheVariants.{Report};

    ghost from_gives = { λ fault e. e ≡ Report fault };

    fn from(fault: ReportFault) -> ExitCause {
        ExitCause::Report(fault)
    }
}

impl From<StartFault> for ExitCause {
    ghost use Rattle.std.specs.Prelude.{◌≡◌};
    ghost use Rattle.cli_journal.specs.Exit.{ending_of};

    ghost from_gives = { λ fault e. e ≡ ending_of fault };

    fn from(fault: StartFault) -> ExitCause {
        match fault {
            StartFault::Opening(_) => ExitCause::NoMemory,
            StartFault::Stopped(fault) => ExitCause::Refused(fault),
        }
    }
}

/// Why the program ends where an entry of the compacted journal can't be replayed.
fn exit_of_compacted_entry(cause: Cause) -> ExitCause
    ensures { result ≡ cause_of_thinned cause }
{
    match cause {
        Cause::Refused(503) => ExitCause::NoMemory,
        Cause::Refused(_) | Cause::NoDesk => ExitCause::Differs,
    }
}

/// Why the program ends where no server starts from the compacted journal.
fn exit_of_compacted(fault: StartFault) -> ExitCause
    ensures { result ≡ ending_of_thinned fault }
{
    match fault {
        StartFault::Opening(_) => ExitCause::NoMemory,
        StartFault::Stopped(fault) => exit_of_compacted_entry(fault.cause),
    }
}

impl From<CompactFault> for ExitCause {
    ghost use Rattle.std.specs.Prelude.{◌≡◌};
    ghost use Rattle.cli_journal.specs.Exit.{ending_of_thinning};

    ghost from_gives = { λ fault e. e ≡ ending_of_thinning fault };

    // The configuration was read before the compaction began: reading it again can only fail for memory.
    fn from(fault: CompactFault) -> ExitCause {
        match fault {
            CompactFault::NoMemory | CompactFault::Configuration(_) => ExitCause::NoMemory,
            CompactFault::Folder(fault) => ExitCause::Folder(fault),
            CompactFault::OldRefused(fault) => ExitCause::from(fault),
            CompactFault::NotWritten => ExitCause::NotThinned,
            CompactFault::NewRefused(fault) => exit_of_compacted(fault),
            CompactFault::Differs => ExitCause::Differs,
            CompactFault::NotArchived(fault) => ExitCause::NotArchived(fault),
        }
    }
}
