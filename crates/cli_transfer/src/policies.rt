//! Imports documents of policies and geographies as drafts.

use crate::draft_limits::skip_reason;
use crate::end::{TransferEnd, TransferTally};
use crate::escape::escape_bytes;
use crate::host::TransferHost;
use crate::messages::{DocumentLocation, print_message};
use crate::sending::send_drafts;
use crate::sources::{ParsedFile, read_and_parse};
use cli_args::Import;
use cli_client::RemoteServer;
use cli_documents::{
    ImportDraft, Origin, PreparedDocument, RefusalReason, RefusedDocument, decimal_at, documents,
    order_drafts, prepare, prepare_feature, target_of, unjudged_rule_ids,
};
use cli_host::{MessageHost, OutputHost};
use mds_text::{DraftKind, Tree};
use std::alloc::{AllocError, Global};
use std::io::Print;

/// The drafts of the files read so far, and how many documents or files were refused.
#[derive(Drop)]
struct PolicyImport {
    drafts: Vec<ImportDraft>,
    tally: TransferTally,
}

/// A file whose documents are imported.
#[derive(Clone, Copy)]
struct DocumentFile<'a> {
    path: &'a str,
    /// Its index among the files.
    place: usize,
    /// Whether it has numbers that aren't plain.
    decimals: bool,
}

impl<'a> DocumentFile<'a> {
    fn location(self, document: usize) -> DocumentLocation<'a> {
        DocumentLocation {
            file: self.path,
            document: Some(document),
        }
    }

    fn origin(self, document: usize) -> Origin {
        Origin {
            file: self.place,
            document,
        }
    }
}

/// Why a document is refused, in words.
fn refusal(alloc: Global, refused: &RefusedDocument<'_>) -> Result<String, AllocError> {
    let member = escape_bytes(alloc, refused.member.as_bytes())?;
    let why = match refused.why {
        RefusalReason::BadField => "it is missing, or isn't as it has to be",
        RefusalReason::Decimal => "a bound of a rule that is judged has to be a whole number",
    };
    format!(in alloc; "{}: {why}", member.as_str())
}

/// Reports the parts of a policy that the server stores and that have no effect.
///
/// # Errors
///
/// `NoMemory`.
fn report_without_effect<R: MessageHost>(
    rt: &R,
    sheet: DocumentFile<'_>,
    document: usize,
    value: &Tree,
) -> Result<(), TransferEnd> {
    let alloc = rt.alloc();
    for id in unjudged_rule_ids(alloc, value)? {
        let id = escape_bytes(alloc, id.as_bytes())?;
        let words = format!(in alloc; "rule {}: it is kept and not judged", id.as_str())?;
        print_message(rt, sheet.location(document), words.as_str())?;
    }
    if !sheet.decimals {
        return Ok(());
    }
    if let Some(member) = decimal_at("document", value) {
        let member = escape_bytes(alloc, member.as_bytes())?;
        let words = format!(in alloc;
            "{}: a number that isn't whole is kept as a text",
            member.as_str()
        )?;
        print_message(rt, sheet.location(document), words.as_str())?;
    }
    Ok(())
}

/// Adds a document's draft, or reports why it isn't sent.
///
/// # Errors
///
/// `NoMemory`.
fn take_in<R: MessageHost>(
    rt: &R,
    gathered: &mut PolicyImport,
    sheet: DocumentFile<'_>,
    document: usize,
    prepared: PreparedDocument<'_>,
) -> Result<(), TransferEnd> {
    match prepared {
        PreparedDocument::Draft(draft) => match skip_reason(&gathered.drafts, &draft) {
            None => {
                return match gathered.drafts.push(draft) {
                    Ok(()) => Ok(()),
                    Err(_) => Err(TransferEnd::NoMemory),
                };
            }
            Some(unkept) => print_message(rt, sheet.location(document), unkept.words())?,
        },
        PreparedDocument::Refused(refused) => {
            let words = refusal(rt.alloc(), &refused)?;
            print_message(rt, sheet.location(document), words.as_str())?;
        }
    }
    gathered.tally.count_refused();
    Ok(())
}

/// Adds the features of a file.
///
/// # Errors
///
/// `NoMemory`.
fn gather_features<R: MessageHost>(
    rt: &R,
    gathered: &mut PolicyImport,
    sheet: DocumentFile<'_>,
    features: &[Tree],
) -> Result<(), TransferEnd> {
    for (document, feature) in features.iter().enumerate() {
        let prepared = prepare_feature(rt.alloc(), sheet.origin(document), feature)?;
        take_in(rt, gathered, sheet, document, prepared)?;
    }
    Ok(())
}

/// Adds the documents of a list; `before` of them stand in front of it in its file.
///
/// # Errors
///
/// `NoMemory`.
fn gather_list<R: MessageHost>(
    rt: &R,
    gathered: &mut PolicyImport,
    sheet: DocumentFile<'_>,
    before: usize,
    list: &[Tree],
) -> Result<(), TransferEnd> {
    for (place, value) in list.iter().enumerate() {
        let document = before.saturating_add(place);
        let prepared = prepare(rt.alloc(), sheet.origin(document), sheet.decimals, value)?;
        if is_policy(&prepared) {
            report_without_effect(rt, sheet, document, value)?;
        }
        take_in(rt, gathered, sheet, document, prepared)?;
    }
    Ok(())
}

/// Whether a document becomes the draft of a policy.
fn is_policy(prepared: &PreparedDocument<'_>) -> bool {
    match prepared {
        PreparedDocument::Draft(draft) => matches!(draft.kind, DraftKind::Policy),
        PreparedDocument::Refused(_) => false,
    }
}

/// Adds the documents of a file.
///
/// # Errors
///
/// `NoMemory`.
fn gather<R: MessageHost>(
    rt: &R,
    gathered: &mut PolicyImport,
    sheet: DocumentFile<'_>,
    source: &ParsedFile,
) -> Result<(), TransferEnd> {
    let lists = documents(&source.tree);
    gather_features(rt, gathered, sheet, lists.features)?;
    gather_list(rt, gathered, sheet, 0, lists.first)?;
    gather_list(rt, gathered, sheet, lists.first.len(), lists.second)
}

/// Reads all files. One that can't be read is reported, and counts as refused.
///
/// # Errors
///
/// `NoMemory`.
fn gather_all<R: TransferHost>(rt: &R, files: &[String]) -> Result<PolicyImport, TransferEnd> {
    let mut gathered = PolicyImport {
        drafts: Vec::new(rt.alloc()),
        tally: TransferTally::new(),
    };
    for (place, path) in files.iter().enumerate() {
        let path = path.as_str();
        match read_and_parse(rt, path)? {
            Some(source) => {
                let sheet = DocumentFile {
                    path,
                    place,
                    decimals: source.decimals,
                };
                gather(rt, &mut gathered, sheet, &source)?;
            }
            None => gathered.tally.count_refused(),
        }
    }
    Ok(gathered)
}

/// Prints which drafts would be sent, in their order.
///
/// # Errors
///
/// `NotPrinted`, `NoMemory`.
fn print_drafts<R: OutputHost>(
    rt: &R,
    drafts: &[ImportDraft],
    tally: &mut TransferTally,
) -> Result<(), TransferEnd> {
    for draft in drafts {
        let target = target_of(rt.alloc(), draft)?;
        if println!(rt; "PUT {}", target.as_str()).is_err() {
            return Err(TransferEnd::NotPrinted);
        }
        tally.count_sent();
    }
    Ok(())
}

/// Prints how many documents were sent and how many refused, and gives the end of the transfer.
fn print_summary<R: Print>(rt: &R, import: &Import<'_>, tally: &TransferTally) -> TransferEnd {
    let TransferTally { sent, refused } = *tally;
    let said = match import.destination {
        Some(_) => println!(rt; "{sent} documents sent, {refused} refused"),
        None => println!(rt; "{sent} documents would be sent, {refused} refused"),
    };
    match said {
        Ok(()) => tally.end(),
        Err(_) => TransferEnd::NotPrinted,
    }
}

/// Sends the documents of files to a server as drafts, geographies first and each policy behind those that it
/// supersedes; without a server it prints what would be sent. Reports on standard error what isn't sent and why, and
/// what of a policy is stored and has no effect; prints on standard output, at the end, how many were sent and how many
/// refused.
pub fn import_policies<R: TransferHost>(
    rt: &R,
    import: &Import<'_>,
    server: Option<RemoteServer<'_>>,
) -> TransferEnd {
    let PolicyImport { drafts, mut tally } = match gather_all(rt, import.files) {
        Ok(gathered) => gathered,
        Err(end) => return end,
    };
    let drafts = match order_drafts(rt.alloc(), drafts) {
        Ok(drafts) => drafts,
        Err(_) => return TransferEnd::NoMemory,
    };
    let done = match server {
        Some(server) => send_drafts(rt, &server, import.files, &drafts, &mut tally),
        None => print_drafts(rt, &drafts, &mut tally),
    };
    let end = print_summary(rt, import, &tally);
    match done {
        Ok(()) => end,
        Err(end) => end,
    }
}
