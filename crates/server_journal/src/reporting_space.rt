//! Disk room, with a message on standard error once the disk is full.
ghost use Rattle.std.specs.Prelude.{◌≡◌};
ghost use Rattle.server_journal.specs.Full.{is_full, is_told};

use journal_commit::{NoRoom, Space};
use std::io::Eprint;

/// How many bytes are asked for at once. Where they are refused, only what is needed is asked for.
const PLENTY: u64 = 4_194_304;

/// Whether the disk counts as full, after so many bytes were set aside or refused: it does once less than `PLENTY` was
/// refused, until `PLENTY` is set aside.
fn is_full(was_full: bool, bytes: u64, is_done: bool) -> bool
    ensures { result ≡ is_full was_full bytes is_done }
{
    if bytes >= PLENTY {
        was_full && !is_done
    } else {
        was_full || !is_done
    }
}

/// Whether it is reported that the disk is full: where it has just become so.
fn is_reported(was_full: bool, is_full: bool) -> bool
    ensures { result ≡ is_told was_full is_full }
{
    is_full && !was_full
}

/// Disk room that reports on standard error that the disk is full: once, until `PLENTY` is set aside again.
#[derive(Drop)]
pub struct ReportingSpace<R, S: Space> {
    rt: R,
    /// The disk room.
    pub space: S,
    is_full: bool,
}

impl<R: Eprint, S: Space> ReportingSpace<R, S> {
    /// This room, of which nothing was reported as yet.
    pub fn new(rt: R, space: S) -> ReportingSpace<R, S>
        ensures { result.space ≡ space }
    {
        ReportingSpace {
            rt,
            space,
            is_full: false,
        }
    }

    /// Takes note of bytes that were set aside or refused, and reports it where the disk has become full.
    fn note(&mut self, bytes: u64, is_done: bool)
        ensures { self.new.space ≡ self.old.space }
    {
        let is_full = is_full(self.is_full, bytes, is_done);
        if is_reported(self.is_full, is_full) {
            let _ = eprintln!(self.rt;
                "ruffletuff: the disk has no room: changes are answered 503 until it has"
            );
        }
        self.is_full = is_full;
    }
}

impl<R: Eprint + Drop, S: Space> Space for ReportingSpace<R, S> {
    ghost aside = { λ room. S.aside room.space };

    fn set_aside(&mut self, bytes: u64) -> Result<(), NoRoom> {
        let done = self.space.set_aside(bytes);
        self.note(bytes, done.is_ok());
        done
    }

    fn give_back(&mut self, bytes: u64) {
        self.space.give_back(bytes);
    }
}
