//! Reads the configuration from its file.
ghost use Rattle.std.specs.Prelude.{◌≡◌, ◌≤◌, length, IfOk, Ok};
ghost use Rattle.mds_script.specs.declared.gather.TheConstants.{LINE_LIMIT};
ghost use Rattle.mds_request.specs.Configuration.{configuration, read_configuration};
ghost use Rattle.server_app.specs.OperatorNames.{badges_view, read_badges};

use crate::config_file::ConfigFile;
use crate::exit_cause::ExitCause;
use cli_host::{ConfigHost, FileHost};
use mds_config_error::Detail;
use mds_request::{Config, ConfigFault};
use mds_script::LINE_LIMIT;
use mds_text::TextFault;
use server_app::OperatorNames;
use std::alloc::Global;
use std::fs::File;
use std::io::{ErrorKind, Read};

/// Reads a text that is at most as long as a configuration may be.
///
/// # Errors
///
/// `Misconfigured` where it can't be read or is longer than a line of a script may be, `NoMemory`.
pub fn text_in(alloc: Global, source: File) -> Result<Vec<u8>, ExitCause>
    ensures { IfOk result (λ text. length text.items ≤ LINE_LIMIT) }
{
    let mut text = Vec::new(alloc);
    let mut front = source.take(LINE_LIMIT as u64 + 1);
    if let Err(error) = front.read_to_end(&mut text) {
        return Err(match error.kind() {
            ErrorKind::OutOfMemory => ExitCause::NoMemory,
            _ => ExitCause::Misconfigured(Detail::Unreadable),
        });
    }
    check_length(text)
}

/// The text, if it isn't longer than a configuration may be.
///
/// # Errors
///
/// `Misconfigured` where it is longer.
pub fn check_length(text: Vec<u8>) -> Result<Vec<u8>, ExitCause>
    ensures { IfOk result (λ text. length text.items ≤ LINE_LIMIT) }
{
    if text.len() > LINE_LIMIT {
        return Err(ExitCause::Misconfigured(Detail::TooLong));
    }
    Ok(text)
}

/// The text of a configuration's file, with a rule in the place of its zone's name.
///
/// # Errors
///
/// `Misconfigured` where it can't be read or is longer than a line of a script may be, `NoMemory`.
pub fn configuration_text<R: FileHost>(
    rt: &R,
    alloc: Global,
    path: &str,
) -> Result<Vec<u8>, ExitCause>
    ensures { IfOk result (λ text. length text.items ≤ LINE_LIMIT) }
{
    let source = ConfigFile::read(rt, path)?;
    source.resolve(alloc)
}

/// The same, where a server starts: findings in it, as members that nobody reads, are reported on standard error.
///
/// # Errors
///
/// `Misconfigured` where it can't be read or is longer than a line of a script may be, `NoOversight` where the value of
/// a member `oversight` is none of its texts, `NoPage` where a part of the member `page` is wrong, `NoMemory`.
pub fn read_text_and_report<R: ConfigHost>(
    rt: &R,
    alloc: Global,
    path: &str,
) -> Result<Vec<u8>, ExitCause>
    ensures { IfOk result (λ text. length text.items ≤ LINE_LIMIT) }
{
    let source = ConfigFile::read(rt, path)?;
    source.report_findings(rt, path, true)?;
    source.resolve(alloc)
}

/// Reads the configuration in a text. Line ends in it don't matter.
///
/// # Errors
///
/// `Misconfigured` with what is wrong, where it is none; `NoMemory`.
pub fn configuration_in(alloc: Global, text: &[u8]) -> Result<Config, ExitCause>
    ensures { IfOk result (λ config. read_configuration text.now ≡ Ok (configuration config)) }
{
    match Config::read(alloc, text) {
        Ok(config) => Ok(config),
        Err(ConfigFault::NoMemory | ConfigFault::Text(TextFault::NoMemory)) => {
            Err(ExitCause::NoMemory)
        }
        Err(_) => Err(ExitCause::Misconfigured(Detail::of(alloc, text))),
    }
}

/// Reads the operators' names for people in a configuration's text: see `server_app::laws::configurations_have_names`.
///
/// # Errors
///
/// `NoMemory`.
pub fn operator_names_in(alloc: Global, text: &[u8]) -> Result<OperatorNames, ExitCause>
    ensures { IfOk result (λ badges. read_badges text.now ≡ Ok (badges_view badges)) }
{
    match OperatorNames::read(alloc, text) {
        Ok(badges) => Ok(badges),
        Err(_) => Err(ExitCause::NoMemory),
    }
}
