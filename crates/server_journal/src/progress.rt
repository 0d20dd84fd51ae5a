//! Reports the progress of replaying the journal.
ghost use Rattle.std.specs.Prelude.{◌≡◌};
ghost use Rattle.server_journal.specs.Progress.{is_told};

use journal_recovery::Progress;
use std::io::Eprint;

/// Progress is reported after every so many entries.
const STEP: usize = 100_000;

/// Whether progress is reported after this many entries.
fn is_reported(entries: usize) -> bool
    ensures { result ≡ is_told entries }
{
    entries % STEP == 0
}

/// Reports the progress of replaying the journal on standard error.
#[derive(Drop)]
pub struct ReplayProgress<R>(pub R);

impl<R: Eprint> Progress for ReplayProgress<R> {
    fn on_replayed(&mut self, entries: usize) {
        if is_reported(entries) {
            let _ = eprintln!(self.0; "ruffletuff: {entries} entries answered again");
        }
    }
}
