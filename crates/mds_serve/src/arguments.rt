//! The arguments of the program.

use server_start::ServeFault;
use std::alloc::AllocGlobal;
use std::env;
use std::env::Env;

/// Where to listen, and how many connections to serve.
#[derive(Clone, Copy)]
pub struct Arguments<'a> {
    /// Where to listen.
    pub address: &'a str,
    /// How many connections to serve; none, without end.
    pub connections: Option<usize>,
}

/// The words after the program's name.
///
/// # Errors
///
/// `Usage` where they can't be read, `NotOpened` where there is no memory.
pub fn read_words<R: AllocGlobal + Env>(rt: &R) -> Result<Vec<String>, ServeFault> {
    let Ok(mut all) = env::args(rt) else {
        return Err(ServeFault::Usage);
    };
    let _program = all.next();
    let mut words = Vec::new(rt.alloc());
    for word in all {
        if words.push(word).is_err() {
            return Err(ServeFault::NotOpened);
        }
    }
    Ok(words)
}
