//! The kinds of entries that compaction tells apart.
ghost use Rattle.std.specs.Prelude.{◌≡◌, IfOk};
ghost use Rattle.mds_request.specs.Configuration.{configuration};
ghost use Rattle.journal_entry.specs.Entries.{entry_of};
ghost use Rattle.journal_compaction.specs.Kinds.{kind_of, kind_by, reported};

use journal_entry::{JournalEntry, request_by};
use mds_fleet::Report;
use mds_request::{Call, Code, Config, OperatorCall, Routes, read_call};
use mds_text::{Id, TextFault, Token};
use std::alloc::{AllocError, Global};

/// A device of an operator.
#[derive(Clone, Copy, PartialEq, Eq, PartialOrd, Ord)]
pub(crate) struct Device {
    /// The operator's place in the configuration.
    pub operator: usize,
    pub id: Id,
}

/// The kind of an entry, for compaction.
#[derive(Clone, Copy)]
pub(crate) enum EntryKind {
    /// A report of a device, with the state in it.
    Report(Device, Token),
    /// The removal of a device.
    Removal(Device),
    /// Anything else.
    Other,
}

/// What comes of a device after an entry, where something does.
#[derive(Clone, Copy)]
pub(crate) enum LaterEntries {
    /// Reports of this state alone.
    Run(Token),
    /// A removal, or reports of several states.
    Settled,
}

/// The kind of an entry with this body, reported by the operator at a place.
fn report_kind(alloc: Global, operator: usize, body: &[u8]) -> Result<EntryKind, AllocError>
    ensures { IfOk result (λ kind. kind ≡ reported operator body.now) }
{
    match Report::read(alloc, body) {
        Ok(report) => {
            let id = report.device;
            Ok(EntryKind::Report(Device { operator, id }, report.state()))
        }
        Err(TextFault::NoMemory) => Err(AllocError),
        Err(_) => Ok(EntryKind::Other),
    }
}

/// The kind of a call with this body.
fn kind_by(alloc: Global, call: &Result<Call, Code>, body: &[u8]) -> Result<EntryKind, AllocError>
    ensures { IfOk result (λ kind. kind ≡ kind_by call.now body.now) }
{
    match call {
        Ok(Call::Operator(operator, OperatorCall::Report)) => report_kind(alloc, *operator, body),
        Ok(Call::Operator(operator, OperatorCall::RemoveVehicle(id))) => {
            Ok(EntryKind::Removal(Device {
                operator: *operator,
                id: *id,
            }))
        }
        _ => Ok(EntryKind::Other),
    }
}

/// The kind of an entry, by the operators of a configuration: a report or a removal of a device, or something else: an
/// entry of the author, of an operator that isn't there, or with a body that is no report.
///
/// # Errors
///
/// Out of memory.
pub(crate) fn kind_of(
    alloc: Global,
    routes: &Routes,
    config: &Config,
    entry: &JournalEntry<'_>,
) -> Result<EntryKind, AllocError>
    ensures { IfOk result (λ kind. kind ≡ kind_of (configuration config.now) (entry_of entry.now)) }
{
    match request_by(config, entry) {
        Some(request) => kind_by(alloc, &read_call(routes, config, &request), request.body),
        None => Ok(EntryKind::Other),
    }
}
