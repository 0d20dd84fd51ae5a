//! Sends drafts to a server, and reports its responses.

use crate::dialing::Dialer;
use crate::draft_limits::is_visible;
use crate::end::{TransferEnd, TransferTally};
use crate::host::{DialHost, TransferHost};
use crate::meaning::{Meaning, meaning_of};
use crate::messages::{DocumentLocation, location_at, print_message, refusal_text};
use cli_client::{Client, ClientRequest, HttpResponse, RemoteServer, ResponseFault};
use cli_documents::{ImportDraft, target_of};
use cli_host::MessageHost;

/// After each so many documents progress is reported.
const STEP: usize = 64;

/// A client of this server, without a connection as yet.
///
/// # Errors
///
/// `BadPlace` where the address or the access token may not stand in a request.
pub(crate) fn client_of<'a, R: DialHost>(
    rt: &'a R,
    server: &RemoteServer<'a>,
) -> Result<Client<'a, Dialer<'a, R>>, TransferEnd> {
    if !is_visible(server.host) || !is_visible(server.token) {
        return Err(TransferEnd::BadPlace);
    }
    let dialer = Dialer {
        rt,
        address: server.host,
    };
    Ok(Client::new(dialer, *server))
}

/// The response, or the end of a transfer that got none.
///
/// # Errors
///
/// `NoServer`, `BadReply`, `NoMemory`.
pub(crate) fn response_or_end(
    asked: Result<HttpResponse, ResponseFault>,
) -> Result<HttpResponse, TransferEnd> {
    match asked {
        Ok(reply) => Ok(reply),
        Err(fault) => Err(TransferEnd::from(fault)),
    }
}

/// Reports the status and the code of a refusal.
///
/// # Errors
///
/// `NoMemory`.
pub(crate) fn report_refusal<R: MessageHost>(
    rt: &R,
    spot: DocumentLocation<'_>,
    reply: &HttpResponse,
) -> Result<(), TransferEnd> {
    let word = refusal_text(rt.alloc(), &reply.body)?;
    let status = reply.status;
    let words = format!(in rt.alloc(); "{status} {}", word.as_str())?;
    print_message(rt, spot, words.as_str())
}

/// Counts what a response says of what was sent, and reports a refusal.
///
/// # Errors
///
/// `Barred` and `NoServer` where nothing else would be accepted either, `NoMemory`.
pub(crate) fn note_reply<R: MessageHost>(
    rt: &R,
    spot: DocumentLocation<'_>,
    reply: &HttpResponse,
    tally: &mut TransferTally,
) -> Result<(), TransferEnd> {
    let meaning = meaning_of(reply.status);
    if meaning != Meaning::Taken {
        report_refusal(rt, spot, reply)?;
    }
    match meaning {
        Meaning::Taken => tally.count_sent(),
        Meaning::Refused => tally.count_refused(),
        Meaning::Barred => return Err(TransferEnd::Barred),
        Meaning::Unavailable => return Err(TransferEnd::NoServer),
    }
    Ok(())
}

/// Sends drafts in their order, and reports refusals and progress.
///
/// # Errors
///
/// `BadPlace`, `NoServer`, `BadReply`, `Barred` and `NoMemory`: the drafts behind aren't sent then.
pub(crate) fn send_drafts<R: TransferHost>(
    rt: &R,
    server: &RemoteServer<'_>,
    files: &[String],
    drafts: &[ImportDraft],
    tally: &mut TransferTally,
) -> Result<(), TransferEnd> {
    let mut client = client_of(rt, server)?;
    let all = drafts.len();
    for (place, draft) in drafts.iter().enumerate() {
        if place > 0 && place % STEP == 0 {
            let _ = eprintln!(rt; "ruffletuff: {place} of {all} documents are through");
        }
        let target = target_of(rt.alloc(), draft)?;
        let call = ClientRequest {
            method: "PUT",
            target: target.as_str(),
            body: &draft.body,
        };
        let reply = response_or_end(client.ask(rt.alloc(), &call))?;
        note_reply(rt, location_at(files, draft.origin), &reply, tally)?;
    }
    Ok(())
}
