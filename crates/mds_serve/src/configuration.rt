//! The configuration on standard input.
ghost use Rattle.std.specs.Prelude.{◌≡◌, ◌≢◌, IfErr, IfOk, None, Some};
ghost use Rattle.mds_config_error.specs.Wording.{IsFound};
ghost use Rattle.mds_config_error.specs.declared.detail.Detail.{Detail};
ghost use Rattle.mds_serve.specs.FirstLine.{IsReadFrom, IsRefused};
ghost use Rattle.server_start.specs.Exit.{fault_of};
ghost use Rattle.server_start.specs.declared.fault.ServeFault.TheVariants.{BadConfig};

use crate::failure::StartFailure;
use mds_config_error::Detail;
use mds_request::{Config, ConfigFault};
use mds_script::{LINE_LIMIT, without_end};
use server_start::ServeFault;
use std::alloc::Global;
use std::io::{BufRead, ErrorKind, Read};

/// Reads the configuration in the first line.
///
/// # Errors
///
/// The line can't be read, is longer than the limit, or is no configuration (`BadConfig`, with
/// which of these or what is wrong), or there was no memory (`NotOpened`).
pub fn read_configuration<S: BufRead + Drop>(
    alloc: Global,
    source: S,
) -> Result<Config, StartFailure> {
    let mut line = Vec::new(alloc);
    let mut front = source.take(LINE_LIMIT as u64 + 2);
    if let Err(error) = front.read_until(b'\n', &mut line) {
        return Err(match error.kind() {
            ErrorKind::OutOfMemory => StartFailure::from(ServeFault::NotOpened),
            _ => StartFailure::bad_config(Detail::Unreadable),
        });
    }
    configuration_in(alloc, without_end(&line))
}

/// The configuration in the first line, without its end.
///
/// # Errors
///
/// `BadConfig`: the line is longer than the limit, or is no configuration, with which of these or what is wrong.
/// `NotOpened`: out of memory.
fn configuration_in(alloc: Global, text: &[u8]) -> Result<Config, StartFailure>
    ensures read { IfOk result (IsReadFrom text.now) }
    ensures refused { IfErr result (IsRefused text.now) }
{
    if text.len() > LINE_LIMIT {
        return Err(StartFailure::bad_config(Detail::TooLong));
    }
    match Config::read(alloc, text) {
        Ok(config) => Ok(config),
        Err(fault) => Err(refusal_of(alloc, text, fault)),
    }
}

/// Why a text that is no configuration is refused: with what is wrong with it, where memory didn't run out.
fn refusal_of(alloc: Global, text: &[u8], fault: ConfigFault) -> StartFailure
    ensures wrong { fault_of fault ≡ BadConfig
        → (detail : Detail) × (result ≡ record { fault = BadConfig; detail = Some detail }) × IsFound detail text.now }
    ensures other { fault_of fault ≢ BadConfig → result ≡ record { fault = fault_of fault; detail = None } }
{
    match ServeFault::from(fault) {
        ServeFault::BadConfig => StartFailure::bad_config(Detail::of(alloc, text)),
        other => StartFailure::from(other),
    }
}
