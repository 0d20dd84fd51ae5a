//! Writes a city's journal in etcd into a folder.
ghost use Rattle.std.specs.Prelude.{IfOk};
ghost use Rattle.journal_file.specs.declared.log_end.LogEnd.{LogEnd};
ghost use Rattle.journal_remote.specs.Ends.{EndsBehind, no_end};

use crate::end::LogCommandEnd;
use crate::folder::{ensure_no_journal, write_journal};
use crate::host::LogHost;
use crate::status::{end_of_silence, look_at};
use journal_cluster::{ClusterEngine, ClusterFault};
use journal_file::StorageFault;
use journal_gateway::Dial;
use journal_register::NOBODY;
use journal_remote::read_below;
use std::alloc::Global;

/// How many times the journal is read, where its generation was left meanwhile.
const TRIES: u32 = 3;

/// The journal's bytes below a head that a look shows.
///
/// # Errors
///
/// `Unclaimed`; `Damaged` where a chunk is missing, or they don't end where the head says, at each look; why no member
/// answers; `NoMemory`.
fn journal_in<D: Dial>(
    alloc: Global,
    engine: &mut ClusterEngine<'_, D>,
) -> Result<Vec<u8>, LogCommandEnd>
    ensures { IfOk result (λ bytes. (at : LogEnd) × EndsBehind no_end bytes.items at) }
{
    for _ in 0..TRIES {
        let seen = look_at(engine)?;
        if seen.owner.is(NOBODY) {
            return Err(LogCommandEnd::Unclaimed);
        }
        match read_below(alloc, engine, seen.head) {
            Ok(bytes) => return Ok(bytes),
            Err(StorageFault::NoMemory) => return Err(LogCommandEnd::NoMemory),
            Err(StorageFault::Failed) if is_silent(engine) => return Err(end_of_silence(engine)),
            Err(StorageFault::Failed) => {}
        }
    }
    Err(LogCommandEnd::Damaged)
}

/// Whether no member answered what was sent last.
fn is_silent<D: Dial>(engine: &ClusterEngine<'_, D>) -> bool {
    matches!(engine.last_fault(), Some(ClusterFault::Unanswered(_)))
}

/// Writes the journal below the head that a look shows into a folder that has none, and prints how many bytes it has.
///
/// # Errors
///
/// As `LogCommandEnd` says.
pub(crate) fn fetch_journal<R: LogHost, D: Dial>(
    rt: &R,
    folder: &str,
    engine: &mut ClusterEngine<'_, D>,
) -> Result<(), LogCommandEnd> {
    ensure_no_journal(rt, folder)?;
    let bytes = journal_in(rt.alloc(), engine)?;
    write_journal(rt, folder, &bytes)?;
    let length = bytes.len();
    match println!(rt; "{length} bytes") {
        Ok(()) => Ok(()),
        Err(_) => Err(LogCommandEnd::NotPrinted),
    }
}
