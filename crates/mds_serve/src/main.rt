//! Serves one city over HTTP from memory: a configuration line comes in on standard input, then
//! connections are answered. It ends once so many connections are over, where a number is given.
#![tactic(auto)]

mod arguments;
mod configuration;
mod failure;
mod running;
mod runtime;

use running::run;
use server_start::{ServeFault, USAGE};
use std::process::ExitCode;

/// Serves, and ends with the status 0; 1 where nothing can be listened to, 2 for wrong arguments or
/// a bad configuration, 3 where the server couldn't be opened. After a fault standard error says
/// why, and for wrong arguments or a bad configuration a second line says how the program is called
/// or what is wrong.
fn main(rt: HostRuntime) -> ExitCode {
    match run(&rt) {
        Ok(()) => ExitCode::SUCCESS,
        Err(ending) => {
            let _ = eprintln!(rt; "{}", ending.fault.message());
            if ending.fault == ServeFault::Usage {
                let _ = eprintln!(rt; "{}", USAGE);
            }
            if let Some(detail) = ending.detail {
                let _ = eprintln!(rt; "{detail}");
            }
            ExitCode::from(ending.fault.status())
        }
    }
}
