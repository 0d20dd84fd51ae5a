//! Why the program ends where no server is started from its city's journal.
ghost use Rattle.std.specs.Prelude.{◌≡◌};
ghost use Rattle.ruffletuff.specs.Ends.{ending_of_journal};

use cli_config::Limits;
use cli_host::MessageHost;
use cli_journal::ExitCause;
use mds_text::Id;
use server_journal::JournalFault;

/// Why the program ends where no server is started from the journal.
fn exit_of(fault: &JournalFault) -> ExitCause
    ensures { result ≡ ending_of_journal fault.now }
{
    match fault {
        JournalFault::NoMemory => ExitCause::NoMemory,
        JournalFault::Folder(fault) => ExitCause::Folder(*fault),
        JournalFault::Refused(fault) | JournalFault::FullFleet(_, fault) => {
            ExitCause::Refused(*fault)
        }
    }
}

/// Reports that the limit of an operator is too low.
fn report_limit<R: MessageHost>(rt: &R, limits: &Limits, operator: Id) {
    if let Ok(Some(told)) = limits.too_low(rt.alloc(), operator) {
        let _ = eprintln!(rt; "{told}");
    }
}

/// Reports the limit that is too low for the journal, where that is why no server is started from it, and gives why the
/// program ends. The limits are those of the configuration.
pub fn report_fault<R: MessageHost>(rt: &R, limits: &Limits, fault: &JournalFault) -> ExitCause
    ensures { result ≡ ending_of_journal fault.now }
{
    if let JournalFault::FullFleet(operator, _) = fault {
        report_limit(rt, limits, *operator);
    }
    exit_of(fault)
}
