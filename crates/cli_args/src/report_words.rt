//! What `report` asks for.
ghost use Rattle.std.specs.Prelude.{◌≡◌, ◌≤◌, IfOk, IfSome, map, string_bytes, option_map};
ghost use Rattle.cli_args.specs.declared.report.TheConstants.{MOST_MINUTES};
ghost use Rattle.cli_args.specs.Reports.{is_single, is_option, are_options, operators_in, every_in, report_of_all, report_by, report_of, report_view};

use crate::moment::count_of;
use crate::options::{is_new, leading_count, value_of};
use crate::report::{EVERY, MOST_MINUTES, ReportOptions};
use mds_text::Id;
use std::alloc::{AllocError, Global};

/// The option whose value is an operator that is reported; it may be given several times.
const OPERATOR: &str = "--operator";

/// The identifiers behind each `--operator`.
///
/// # Errors
///
/// Memory ran out.
pub(crate) fn operators_in(alloc: Global, words: &[String]) -> Result<Vec<Id>, AllocError>
    ensures { IfOk result (λ ids. ids.items ≡ operators_in (map string_bytes words.now)) }
{
    let mut ids = Vec::new(alloc);
    let mut rest = words;
    while let Some((word, values)) = rest.split_first() {
        let Some((value, behind)) = values.split_first() else {
            return Ok(ids);
        };
        if word.as_str() == OPERATOR {
            if let Some(id) = Id::read(value.as_str()) {
                ids.push(id)?;
            }
        }
        rest = behind;
    }
    Ok(ids)
}

/// Whether a word is an option that is given once at most, and isn't given again behind.
#[tactic(auto, unfolding(crate::specs::Reports::is_single))]
fn is_single(word: &str, behind: &[String]) -> bool
    ensures { result ≡ is_single word.now (map string_bytes behind.now) }
{
    let names = &["--config", "--from", "--to", "--every", "--out"];
    is_new(names, word, behind)
}

/// Whether a word with its value is an option: `--operator` with an identifier, or another that isn't given again.
fn is_option(word: &str, value: &str, behind: &[String]) -> bool
    ensures { result ≡ is_option word.now value.now (map string_bytes behind.now) }
{
    if word == OPERATOR {
        Id::read(value).is_some()
    } else {
        is_single(word, behind)
    }
}

/// Whether the words are options of a report.
fn are_options(words: &[String]) -> bool
    ensures { result ≡ are_options (map string_bytes words.now) }
{
    let mut rest = words;
    while let Some((word, values)) = rest.split_first() {
        let Some((value, behind)) = values.split_first() else {
            return false;
        };
        if !is_option(word.as_str(), value.as_str(), behind) {
            return false;
        }
        rest = behind;
    }
    true
}

/// Reads the minutes from one moment to the next, which may be left out; `None` where they are none
/// from 1 to `MOST_MINUTES`.
fn every_in(word: Option<&str>) -> Option<u64>
    ensures value { result ≡ every_in (option_map (λ word. word.now) word.entry) }
    ensures some { IfSome result (λ every. 1 ≤ every) }
    ensures bound { IfSome result (λ every. every ≤ MOST_MINUTES) }
{
    let Some(word) = word else {
        return Some(EVERY);
    };
    match count_of(word) {
        Some(count) if count >= 1 && count <= MOST_MINUTES => Some(count),
        _ => None,
    }
}

/// The report of these journals that options in any order ask for; `None` where these are wrong.
fn report_of_all<'a>(folders: &'a [String], options: &'a [String]) -> Option<ReportOptions<'a>>
    ensures { option_map report_view result ≡ report_of_all (map string_bytes folders.now) (map string_bytes options.now) }
{
    if !are_options(options) {
        return None;
    }
    let config = value_of("--config", options)?;
    let from = value_of("--from", options)?;
    let to = value_of("--to", options)?;
    let every = every_in(value_of("--every", options))?;
    let out = value_of("--out", options)?;
    Some(ReportOptions {
        folders,
        config,
        from,
        to,
        every,
        out,
        options,
    })
}

/// The same, where there is a journal.
fn report_by<'a>(folders: &'a [String], options: &'a [String]) -> Option<ReportOptions<'a>>
    ensures { option_map report_view result ≡ report_by (map string_bytes folders.now) (map string_bytes options.now) }
{
    if folders.is_empty() {
        return None;
    }
    report_of_all(folders, options)
}

/// What `report` asks for, with its arguments; `None` where they are wrong.
pub(crate) fn report_of(words: &[String]) -> Option<ReportOptions<'_>>
    ensures { option_map report_view result ≡ report_of (map string_bytes words.now) }
{
    let (folders, options) = words.split_at(leading_count(words));
    report_by(folders, options)
}
