//! Answers a script of requests: a configuration line and request lines come in on standard input,
//! one answer line goes out for each request.
#![tactic(auto)]

use mds_config_error::Detail;
use mds_script::{ReplayFault, run_with_detail};
use mds_verdict::Plain;
use mds_world::World;
use std::alloc::Global;
use std::io;
use std::process::ExitCode;

/// The size in bytes of the block that is allocated at the start.
const BLOCK: usize = 4 << 20;

/// Allocates a block of memory and frees it. From then on the C library's allocator keeps up to twice as much of what
/// is freed; else it would give more than a little back to the system and take it again, page by page, for the next
/// long document.
fn keep_freed_memory(alloc: Global) {
    let _ = Vec::<u8>::with_capacity(alloc, BLOCK);
}

/// Replays standard input to standard output. The exit status is 0; 1 after a fault of reading or writing; 2 for a
/// bad configuration; 3 where memory runs out. After a fault standard error says why, and of a bad configuration what
/// is wrong with it, in a second line.
fn main(rt: HostRuntime) -> ExitCode {
    keep_freed_memory(rt.alloc());
    let mut detail = Detail::Untold;
    let writer = io::writer(&rt);
    match run_with_detail::<World<Plain>, _, _>(rt.alloc(), rt.reader(), writer, &mut detail) {
        Ok(_) => ExitCode::SUCCESS,
        Err(fault) => {
            let _ = eprintln!(rt; "{}", fault.message());
            if fault == ReplayFault::BadConfig {
                let _ = eprintln!(rt; "{detail}");
            }
            ExitCode::from(fault.status())
        }
    }
}
