//! Replies of the past, by a journal's entries.
ghost use Rattle.std.specs.Prelude.{◌≡◌, ◌⊎◌, ◌<◌, IfOk, Some, length, map, slice_get};
ghost use Rattle.journal_entry.specs.Entries.{entry_of};
ghost use Rattle.mds_request.specs.Configuration.{configuration, operator as operator_view};
ghost use Rattle.mds_request.specs.Reply.{refused};
ghost use Rattle.mds_request.specs.declared.code.Code.TheVariants.{NoMemory};
ghost use Rattle.server_app.specs.OperatorNames.{badges_view};
ghost use Rattle.server_past.specs.Past.{IsSubjectWithin, IsToldBy, call_for, each_body, own_reply, reply_about};

use crate::journals::Untold;
use crate::subject::PastSubject;
use journal_entry::JournalEntry;
use journal_folder::startable_entries;
use journal_samples::{OperatorReplay, SampleFault};
use mds_desk::SharedReply;
use mds_request::{Config, Operator, OperatorCall, Reply};
use mds_text::Moment;
use server_app::OperatorNames;
use server_durable::{combine_compliance, is_accepted, own_request};
use server_routes::FleetView;
use std::alloc::Global;

/// The operator's call that has a view.
fn call_for(view: FleetView) -> OperatorCall
    ensures { result ≡ call_for view }
{
    match view {
        FleetView::Compliance => OperatorCall::Compliance,
        FleetView::Vehicles => OperatorCall::Vehicles,
    }
}

/// The operator at this place.
fn operator_at(config: &Config, place: usize) -> &Operator
    requires { place < length (configuration config.now).operators }
    ensures { slice_get (configuration config.now).operators place ≡ Some (operator_view result.now) }
{
    &config.operators()[place]
}

/// The reply that the operator at this place would have had to its own request for a view at a moment: by what stands
/// after the entries in front of the first later one. It may be the refusal for being out of memory.
///
/// # Errors
///
/// The first entry that isn't answered with success; out of memory.
fn own_reply(
    alloc: Global,
    config: &Config,
    entries: &[JournalEntry<'_>],
    place: usize,
    view: FleetView,
    at: Moment,
) -> Result<Reply, SampleFault>
    requires { place < length (configuration config.now).operators }
    ensures { IfOk result (λ reply.
        (reply ≡ own_reply (configuration config.now) (map entry_of entries.now) view at place)
        ⊎ (reply ≡ refused NoMemory)) }
{
    let request = own_request(operator_at(config, place), view, at);
    let mut replay = OperatorReplay::new(alloc, config, place)?;
    replay.reply(alloc, entries, &call_for(view), &request)
}

/// What each operator would have been answered about its compliance at a moment, in the configuration's order.
///
/// # Errors
///
/// As `own_reply`.
fn each_reply(
    alloc: Global,
    config: &Config,
    entries: &[JournalEntry<'_>],
    at: Moment,
) -> Result<Vec<SharedReply>, SampleFault>
    ensures { IfOk result (λ replies. map (λ reply. reply.body) replies.items
        ≡ each_body (configuration config.now) (map entry_of entries.now) at) }
{
    let operators = config.operators().len();
    let mut replies = Vec::with_capacity(alloc, operators)?;
    for place in 0..operators {
        let reply = own_reply(alloc, config, entries, place, FleetView::Compliance, at)?;
        if !is_accepted(reply.status()) {
            return Err(SampleFault::NoMemory);
        }
        replies.push(SharedReply::from(reply))?;
    }
    Ok(replies)
}

/// The reply about a subject at a moment, by a journal's entries. It may be the refusal for being out of memory.
///
/// # Errors
///
/// As `own_reply`.
fn reply_about(
    alloc: Global,
    config: &Config,
    names: &OperatorNames,
    entries: &[JournalEntry<'_>],
    subject: PastSubject,
    at: Moment,
) -> Result<SharedReply, SampleFault>
    requires { IsSubjectWithin (length (configuration config.now).operators) subject }
    ensures { IfOk result (λ reply.
        (reply ≡ reply_about (configuration config.now) (badges_view names.now) (map entry_of entries.now) at subject)
        ⊎ (reply ≡ refused NoMemory)) }
{
    match subject {
        PastSubject::One(place, view) => {
            let reply = own_reply(alloc, config, entries, place, view, at)?;
            Ok(SharedReply::from(reply))
        }
        PastSubject::Each => {
            let replies = each_reply(alloc, config, entries, at)?;
            let reply = combine_compliance(alloc, at, &replies, names.operators())?;
            Ok(reply)
        }
    }
}

/// The reply about a subject at a moment, by a journal's bytes. It may be the refusal for being out of memory.
///
/// # Errors
///
/// The bytes are damaged, or an entry can't be read or isn't answered with success; out of memory.
pub(crate) fn reply_from(
    alloc: Global,
    config: &Config,
    names: &OperatorNames,
    bytes: &[u8],
    subject: PastSubject,
    at: Moment,
) -> Result<SharedReply, Untold>
    requires { IsSubjectWithin (length (configuration config.now).operators) subject }
    ensures { IfOk result (IsToldBy (configuration config.now) (badges_view names.now) bytes.now subject at) }
{
    let entries = startable_entries(alloc, bytes)?;
    let reply = reply_about(alloc, config, names, &entries, subject, at)?;
    Ok(reply)
}
