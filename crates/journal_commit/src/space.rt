//! Disk space that is reserved before it is needed.
/// There is no room for so much.
#[derive(Clone, Copy, Debug, PartialEq, Eq)]
pub struct NoRoom;

/// Reserves disk space for records, so that a full disk is known before a request is carried out.
pub trait Space: Drop {
    ghost use Rattle.std.specs.Prelude.{◌≡◌, ◌+◌, ◌-◌, ◌≤◌, ℕ, OnOk, OnErr};

    /// How many bytes are reserved.
    ghost aside: { Self → ℕ };

    /// Reserves so many more bytes. After an error as many are reserved as before.
    fn set_aside(&mut self, bytes: u64) -> Result<(), NoRoom>
        ensures done { OnOk result (aside self.new ≡ aside self.old + bytes) }
        ensures unchanged { OnErr result (aside self.new ≡ aside self.old) };

    /// Releases so many bytes, for what is about to be written or because nothing is.
    fn give_back(&mut self, bytes: u64)
        requires { bytes ≤ aside self.old }
        ensures { aside self.new ≡ aside self.old - bytes };
}

/// Space that is only counted, for tests and for logs that no disk limits.
#[derive(Debug, Drop)]
pub struct CountedSpace {
    /// How many bytes are left.
    pub left: u64,
    /// How many are reserved.
    pub aside: u64,
}

impl Space for CountedSpace {
    ghost aside = { λ s. s.aside };

    fn set_aside(&mut self, bytes: u64) -> Result<(), NoRoom> {
        if bytes > self.left || bytes > u64::MAX - self.aside {
            return Err(NoRoom);
        }
        self.left -= bytes;
        self.aside += bytes;
        Ok(())
    }

    fn give_back(&mut self, bytes: u64) {
        self.aside -= bytes;
        self.left = self.left.saturating_add(bytes);
    }
}
