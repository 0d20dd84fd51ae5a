//! Prints a folder's journal as a script, which `mds_replay` answers.
ghost use Rattle.std.specs.Prelude.{◌≡◌, ◌++◌, ◌∷◌, [], ℕ, List, map, IfOk, OnOk};
ghost use Rattle.std.specs.Io.KnownBytes.{Appends};
ghost use Rattle.journal_entry.specs.Entries.{entry_of};
ghost use Rattle.journal_folder.specs.Script.{blanked};
ghost use Rattle.mds_request.specs.Configuration.{configuration};
ghost use Rattle.cli_journal.specs.Script.{IsLineOf, behind_head};

use crate::configuration::{configuration_in, configuration_text};
use crate::exit_cause::ExitCause;
use crate::host::ReadHost;
use crate::integrity::check_startable;
use cli_args::AuditOptions;
use journal_entry::{EntryClient, JournalEntry, Unfit, request_by};
use journal_folder::{
    Extract, FolderFault, entries_in, extract_entries, journal_bytes, push_blanked, request_line,
    survey_of,
};
use mds_request::Config;
use std::alloc::{AllocError, Global};
use std::io::{self, BufWriter, Write};

/// Writes bytes.
///
/// # Errors
///
/// `NotPrinted`.
fn put<W: Write>(out: &mut W, bytes: &[u8]) -> Result<(), ExitCause>
    ensures { OnOk result (Appends (W.contents out.old) (W.contents out.new) bytes.now) }
{
    match out.write_all(bytes) {
        Ok(()) => Ok(()),
        Err(_) => Err(ExitCause::NotPrinted),
    }
}

/// The script's first line: the configuration, with a line end.
///
/// # Errors
///
/// Memory ran out.
fn first_line(alloc: Global, text: &[u8]) -> Result<Vec<u8>, AllocError>
    ensures { IfOk result (λ line. line.items ≡ blanked text.now ++ 10 ∷ []) }
{
    let mut line = Vec::new(alloc);
    push_blanked(&mut line, text)?;
    line.push(b'\n')?;
    Ok(line)
}

/// Why an entry is no request of a configuration: its operator isn't in it. The author always is.
fn without_token(client: EntryClient) -> ExitCause {
    match client {
        EntryClient::Author => ExitCause::NoMemory,
        EntryClient::Operator(id) => ExitCause::Folder(FolderFault::Unfitting(Unfit::Missing(id))),
    }
}

/// The line of an entry: its request, with its client's access token in a configuration.
///
/// # Errors
///
/// `Folder` where its operator isn't in the configuration, `NoMemory`.
fn line_of(alloc: Global, config: &Config, entry: &JournalEntry<'_>) -> Result<Vec<u8>, ExitCause>
    ensures { IfOk result (λ line. IsLineOf (configuration config.now) (entry_of entry.now) line.items) }
{
    match request_by(config, entry) {
        Some(request) => match request_line(alloc, &request) {
            Ok(line) => Ok(line),
            Err(_) => Err(ExitCause::NoMemory),
        },
        None => Err(without_token(entry.client)),
    }
}

/// Writes the line of an entry.
///
/// # Errors
///
/// As `line_of`, and `NotPrinted`.
fn print_line<W: Write>(
    alloc: Global,
    out: &mut W,
    config: &Config,
    entry: &JournalEntry<'_>,
) -> Result<(), ExitCause>
    ensures { OnOk result ((line : List ℕ) × IsLineOf (configuration config.now) (entry_of entry.now) line
        × Appends (W.contents out.old) (W.contents out.new) line) }
{
    let line = line_of(alloc, config, entry)?;
    put(out, &line)
}

/// Writes the line of each entry.
///
/// # Errors
///
/// As `line_of`, and `NotPrinted`.
fn print_lines<W: Write>(
    alloc: Global,
    out: &mut W,
    config: &Config,
    entries: &[JournalEntry<'_>],
) -> Result<(), ExitCause> {
    for entry in entries {
        print_line(alloc, out, config, entry)?;
    }
    Ok(())
}

/// The payloads behind a journal's head, which are those of its entries.
pub fn behind_head<'a>(texts: &'a [Vec<u8>]) -> &'a [Vec<u8>]
    ensures { map (λ t. t.items) result.now ≡ behind_head (map (λ t. t.items) texts.now) }
{
    match texts {
        [] => texts,
        [_, entries @ ..] => entries,
    }
}

/// Writes the script of a configuration's text and a journal's payloads.
///
/// # Errors
///
/// `Misconfigured`; `Folder` where a payload is no entry, or an entry's operator isn't in the configuration;
/// `NotPrinted`, `NoMemory`. What was written by then is a prefix of the script.
fn print_script<W: Write>(
    alloc: Global,
    out: &mut W,
    text: &[u8],
    texts: &[Vec<u8>],
    extract: &Extract,
) -> Result<(), ExitCause> {
    let config = configuration_in(alloc, text)?;
    let all = match entries_in(alloc, 1, behind_head(texts)) {
        Ok(all) => all,
        Err(fault) => return Err(ExitCause::Folder(fault)),
    };
    let entries = match extract_entries(alloc, &all, extract) {
        Ok(entries) => entries,
        Err(_) => return Err(ExitCause::NoMemory),
    };
    put(out, &first_line(alloc, text)?)?;
    print_lines(alloc, out, &config, &entries)
}

/// Prints the journal of a folder, or a file that is one itself, as a script: the configuration on one line, then the
/// request of each entry that is asked for. Nothing is locked or changed.
///
/// # Errors
///
/// `Misconfigured`, `Folder`, `NotPrinted` or `NoMemory`. What was printed by then is a prefix of the script.
pub fn audit<R: ReadHost>(rt: &R, asked: &AuditOptions<'_>) -> Result<(), ExitCause> {
    let alloc = rt.alloc();
    let text = configuration_text(rt, alloc, asked.config)?;
    let bytes = journal_bytes(rt, alloc, asked.folder)?;
    let survey = survey_of(alloc, &bytes)?;
    check_startable(survey.whole, survey.ending)?;
    let extract = Extract {
        until: asked.until,
        operator: asked.operator,
    };
    let Ok(mut out) = BufWriter::new(alloc, io::writer(rt)) else {
        return Err(ExitCause::NoMemory);
    };
    print_script(alloc, &mut out, &text, &survey.texts, &extract)?;
    match out.flush() {
        Ok(()) => Ok(()),
        Err(_) => Err(ExitCause::NotPrinted),
    }
}
