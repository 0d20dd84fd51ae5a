//! The program's arguments.

use cli_journal::ExitCause;
use std::alloc::AllocGlobal;
use std::env;
use std::env::Env;

/// The arguments behind the program's name.
///
/// # Errors
///
/// `Usage` where they can't be read, `NoMemory`.
pub fn read_words<R: Env + AllocGlobal>(rt: &R) -> Result<Vec<String>, ExitCause> {
    let Ok(mut all) = env::args(rt) else {
        return Err(ExitCause::Usage);
    };
    let _program = all.next();
    let mut words = Vec::new(rt.alloc());
    for word in all {
        if words.push(word).is_err() {
            return Err(ExitCause::NoMemory);
        }
    }
    Ok(words)
}
