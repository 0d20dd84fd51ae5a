//! Messages on standard error about a document or a file.

use crate::end::TransferEnd;
use crate::escape::escape_bytes;
use cli_documents::Origin;
use cli_host::MessageHost;
use mds_json::read_tree;
use mds_text::{TextFault, Tree};
use std::alloc::Global;

/// The most bytes of a response that are shown where it has no code of the protocol.
const MOST_SHOWN: usize = 200;

/// A document, or a file as a whole.
#[derive(Clone, Copy)]
pub struct DocumentLocation<'a> {
    pub file: &'a str,
    /// Its index in its file, from 0; `None` for the file as a whole.
    pub document: Option<usize>,
}

/// A document of these files.
pub(crate) fn location_at(files: &[String], origin: Origin) -> DocumentLocation<'_> {
    let file = match files.get(origin.file) {
        Some(file) => file.as_str(),
        None => "",
    };
    DocumentLocation {
        file,
        document: Some(origin.document),
    }
}

/// Prints a message about a document or a file on standard error. The words are printed as they are.
///
/// # Errors
///
/// `NoMemory`. That standard error can't be written isn't reported.
pub fn print_message<R: MessageHost>(
    rt: &R,
    spot: DocumentLocation<'_>,
    words: &str,
) -> Result<(), TransferEnd> {
    let file = escape_bytes(rt.alloc(), spot.file.as_bytes())?;
    let _ = match spot.document {
        Some(document) => {
            let number = document.saturating_add(1);
            eprintln!(rt; "{}: document {number}: {words}", file.as_str())
        }
        None => eprintln!(rt; "{}: {words}", file.as_str()),
    };
    Ok(())
}

/// The code of a refusal, escaped.
fn code_in(alloc: Global, tree: &Tree) -> Result<Option<String>, TransferEnd> {
    let Tree::Object(members) = tree else {
        return Ok(None);
    };
    for member in members {
        if let (true, Tree::Text(code)) = (member.name.as_str() == "error", &member.value) {
            return Ok(Some(escape_bytes(alloc, code.as_bytes())?));
        }
    }
    Ok(None)
}

/// What a response says, escaped: the code of its refusal, or else its first bytes.
///
/// # Errors
///
/// `NoMemory`.
pub fn refusal_text(alloc: Global, body: &[u8]) -> Result<String, TransferEnd> {
    let code = match read_tree(alloc, body) {
        Ok(tree) => code_in(alloc, &tree)?,
        Err(TextFault::NoMemory) => return Err(TransferEnd::NoMemory),
        Err(_) => None,
    };
    match code {
        Some(code) => Ok(code),
        None => Ok(escape_bytes(alloc, body.get(..MOST_SHOWN).unwrap_or(body))?),
    }
}
