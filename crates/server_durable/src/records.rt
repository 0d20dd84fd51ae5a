//! The record of a request, and its reservation in the log.
ghost use Rattle.std.specs.Prelude.{◌≡◌, ◌≤◌, ◌<◌, ◌==◌, ◌++◌, IfOk, OnOk, Some, length, option_map, slice_get};
ghost use mathlib.Core.List.{IsPrefix};
ghost use Rattle.journal_commit.specs.Clients.{of_client};
ghost use Rattle.journal_entry.specs.Requests.{client_at};
ghost use Rattle.server_state.specs.Client.{IsWithin};
ghost use Rattle.mds_request.specs.Configuration.{configuration};
ghost use Rattle.mds_text.specs.Fields.{last_moment};
ghost use Rattle.mds_request.specs.Request.{request_of};
ghost use Rattle.mds_request.specs.declared.config.Actor.TheVariants.{Operator};
ghost use Rattle.server_durable.specs.Owners.{IsOwnedBy, appended_by};
ghost use Rattle.server_durable.specs.Records.{IsRecordable, IsSettled, caller_of, record_by, sharer_of};
ghost use Rattle.server_durable.specs.Refusals.{refusal_for};

use crate::pending::NoResponse;
use journal_commit::{
    CommitFault, CommitLog, LogFailure, LogName, LogPosition, OwnRecords, Reservation,
    ReserveFault, Space,
};
use journal_entry::{EntryClient, JournalEntry, entry_text};
use journal_file::Log;
use mds_request::{Actor, Call, Code, Config, Request};
use mds_text::{Id, Moment};
use server_admission::index_of;
use std::alloc::{AllocError, Global};
use std::sync::Wait;

/// The status of a success.
const SUCCESS: u16 = 200;

/// What is reserved in the log for a request before it is carried out.
pub(crate) enum CallReservation {
    /// Nothing: it changes nothing, and has no record.
    Reads,
    /// The reservation for its record.
    Holds(Reservation),
}

/// Why nothing is reserved in the log for a request that may change something. It isn't carried out, and nothing has
/// changed.
#[derive(Clone, Copy, Debug, PartialEq, Eq)]
pub(crate) enum NoReservation {
    /// The client's share of the log is used up: the request may be tried again.
    Crowded,
    /// The disk has no room for its record.
    NoRoom,
    /// The log takes no more records, since the program ends.
    Stopping,
    /// An append or a sync failed: no more responses are sent.
    Failed(LogFailure),
    /// Out of memory, or no log takes the record.
    NoMemory,
}

impl From<ReserveFault> for NoReservation {
    ghost use Rattle.std.specs.Prelude.{◌≡◌};
    ghost use Rattle.server_durable.specs.Refusals.{unreserved_by};

    ghost from_gives = { λ fault why. why ≡ unreserved_by fault };

    fn from(fault: ReserveFault) -> NoReservation {
        match fault {
            ReserveFault::Crowded => NoReservation::Crowded,
            ReserveFault::NoRoom => NoReservation::NoRoom,
            ReserveFault::Stopping => NoReservation::Stopping,
            ReserveFault::Failed(failure) => NoReservation::Failed(failure),
            ReserveFault::Untaken => NoReservation::NoMemory,
        }
    }
}

impl From<AllocError> for NoReservation {
    fn from(_: AllocError) -> NoReservation {
        NoReservation::NoMemory
    }
}

/// The refusal of a request for which nothing is reserved in the log.
///
/// # Errors
///
/// It isn't refused: it may be tried again, or no response may be sent.
pub(crate) fn refusal_for(why: NoReservation) -> Result<Code, NoResponse>
    ensures { result ≡ refusal_for why }
{
    match why {
        NoReservation::NoRoom => Ok(Code::NoRoom),
        NoReservation::Stopping => Ok(Code::Busy),
        NoReservation::NoMemory => Ok(Code::NoMemory),
        NoReservation::Crowded => Err(NoResponse::Crowded),
        NoReservation::Failed(failure) => Err(NoResponse::NotTold(CommitFault::Failed(failure))),
    }
}

/// The client that makes a call.
fn caller(call: &Call) -> Actor
    ensures { result ≡ caller_of call.now }
{
    match call {
        Call::Author(_) => Actor::Author,
        Call::Operator(place, _) => Actor::Operator(*place),
    }
}

/// The index of the client that makes a call, among those that share the log.
pub(crate) fn share_index(call: &Call) -> usize
    ensures { result ≡ sharer_of call.now }
{
    index_of(caller(call))
}

/// The identifier of the operator at this place.
pub(crate) fn id_at(config: &Config, place: usize) -> Id
    requires { place < length (configuration config.now).operators }
    ensures { option_map (λ o. o.id) (slice_get (configuration config.now).operators place) ≡ Some result }
{
    config.operators()[place].id
}

/// The operator at this place, as a record names it.
pub(crate) fn operator_client(config: &Config, place: usize) -> EntryClient
    requires { place < length (configuration config.now).operators }
    ensures { client_at (configuration config.now) (Operator place) ≡ Some result }
{
    EntryClient::Operator(id_at(config, place))
}

/// The client that makes a call, as a record names it.
pub(crate) fn client_of(config: &Config, call: &Call) -> EntryClient
    requires { IsWithin (length (configuration config.now).operators) (caller_of call.now) }
    ensures { client_at (configuration config.now) (caller_of call.now) ≡ Some result }
{
    match call {
        Call::Author(_) => EntryClient::Author,
        Call::Operator(place, _) => operator_client(config, *place),
    }
}

/// Whether a request with this status was accepted: its record is appended where it may have changed something.
pub fn is_accepted(status: u16) -> bool
    ensures { result ≡ (status == 200) }
{
    status == SUCCESS
}

/// A moment is within the limits of an entry.
fn is_of_an_entry(at: Moment)
    ensures { at ≤ last_moment }
{}

/// The payload of the record of a request of this client.
///
/// # Errors
///
/// `NoMemory`: the request's target is too long for a record, or out of memory.
pub(crate) fn record_text(
    alloc: Global,
    client: EntryClient,
    request: &Request<'_>,
) -> Result<Vec<u8>, NoReservation>
    ensures text { IfOk result (λ text. text.items ≡ record_by client (request_of request.now)) }
    ensures within { OnOk result (IsRecordable (request_of request.now)) }
{
    is_of_an_entry(request.at);
    let entry = JournalEntry {
        client,
        at: request.at,
        verb: request.verb,
        target: request.target,
        body: request.body,
    };
    match entry_text(alloc, &entry) {
        Ok(text) => Ok(text),
        Err(_) => Err(NoReservation::NoMemory),
    }
}

/// Releases what was reserved.
pub(crate) fn give_back<R: Wait, N: LogName, L: Log, S: Space>(
    rt: &R,
    keeper: &CommitLog<N, L, S>,
    reserved: CallReservation,
) {
    match reserved {
        CallReservation::Reads => {}
        CallReservation::Holds(place) => keeper.release(rt, place),
    }
}

/// Appends the record of a request that was accepted, and releases the reservation of any other. It is called under the
/// lock of the desk or room that answered with this status, by who has all the client's records before it. Returns the
/// log position of all that was appended by then, which has all these records.
///
/// # Errors
///
/// The log failed.
pub(crate) fn append_or_release<R: Wait, N: LogName, L: Log, S: Space>(
    rt: &R,
    keeper: &CommitLog<N, L, S>,
    own: &mut OwnRecords<N, L>,
    reserved: CallReservation,
    status: u16,
) -> Result<LogPosition<N, L>, CommitFault>
    requires { IsOwnedBy N.client_of own.old.client reserved }
    ensures settled { IfOk result (IsSettled reserved status) }
    ensures stamp { IfOk result (λ stamp. IsPrefix own.new.texts stamp) }
    ensures records { OnOk result (of_client N.client_of own.old.client own.new.texts
        ≡ of_client N.client_of own.old.client own.old.texts ++ appended_by reserved status) }
    ensures client { own.new.client ≡ own.old.client }
{
    match reserved {
        CallReservation::Reads => {}
        CallReservation::Holds(place) => {
            if is_accepted(status) {
                return keeper.append(rt, own, place);
            }
            keeper.release(rt, place);
        }
    }
    Ok(keeper.log_position(own.position()))
}
