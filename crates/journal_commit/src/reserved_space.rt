//! The disk space reserved for what waits.
ghost use Rattle.std.specs.Prelude.{◌≡◌, ◌+◌, ◌-◌, ◌≤◌, OnOk, OnErr};
ghost use Rattle.journal_commit.specs.declared.decisions.TheConstants.{MOST_BYTES};
ghost use Rattle.journal_commit.specs.declared.reserved_space.TheConstants.{STEP};

use crate::space::{NoRoom, Space};

/// How many bytes are reserved on the disk at once, where it has as many.
pub(crate) const STEP: u64 = 4_194_304;

/// The reserved disk space: for what waits and for reservations, and some more, so that the disk is seldom asked.
#[derive(Drop)]
pub(crate) struct ReservedSpace<S: Space> {
    space: S,
    /// How many bytes are for what waits and for reservations.
    pub(crate) used: u64,
    /// How many more bytes are reserved on the disk.
    spare: u64,
    ghost counted: { S.aside space ≡ used + spare },
    ghost few: { spare ≤ STEP + STEP },
    ghost bounded: { used ≤ MOST_BYTES },
}

impl<S: Space> ReservedSpace<S> {
    /// Nothing is used.
    pub(crate) fn new(space: S) -> ReservedSpace<S>
        requires { S.aside space ≡ 0 }
        ensures { result.used ≡ 0 }
    {
        ReservedSpace {
            space,
            used: 0,
            spare: 0,
        }
    }

    /// Reserves `STEP` more bytes on the disk, or only those that are lacking.
    fn grow(&mut self, lacking: u64) -> Result<(), NoRoom>
        requires spare { self.old.spare ≤ STEP }
        requires lacking { lacking ≤ STEP }
        ensures more { OnOk result (self.old.spare + lacking ≤ self.new.spare) }
        ensures used { self.new.used ≡ self.old.used }
    {
        if self.space.set_aside(STEP).is_ok() {
            self.spare += STEP;
            return Ok(());
        }
        self.space.set_aside(lacking)?;
        self.spare += lacking;
        Ok(())
    }

    /// Takes so many bytes of it, and reserves more on the disk first where there are too few.
    ///
    /// # Errors
    ///
    /// The disk has no room for as many. As many are used as before.
    pub(crate) fn take(&mut self, bytes: u64) -> Result<(), NoRoom>
        requires least { bytes ≤ STEP }
        requires bounded { self.old.used + bytes ≤ MOST_BYTES }
        ensures used { OnOk result (self.new.used ≡ self.old.used + bytes) }
        ensures unchanged { OnErr result (self.new.used ≡ self.old.used) }
    {
        if bytes > self.spare {
            self.grow(bytes - self.spare)?;
        }
        self.spare -= bytes;
        self.used += bytes;
        Ok(())
    }

    /// Releases so many bytes, for what is about to be written, or because nothing is.
    pub(crate) fn give_back(&mut self, bytes: u64)
        requires { bytes ≤ self.old.used }
        ensures { self.new.used ≡ self.old.used - bytes }
    {
        self.space.give_back(bytes);
        self.used -= bytes;
    }
}
