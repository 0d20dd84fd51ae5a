//! Ballast: disk space reserved as a file of zeros.
ghost use Rattle.std.specs.Prelude.{◌≡◌, IfOk};

use crate::space::{NoRoom, Space};
use std::fs::OpenFile;
use std::io::{Seek, SeekFrom, Write};

/// How many zeros are written at once.
const CHUNK: usize = 4096;

/// A file of zeros on the log's disk. It grows where disk space is reserved, and is cut just before as much is written
/// to the log. Nothing else writes to it. The proofs don't know that the disk gives the freed space to the next write.
#[derive(Debug, Drop)]
pub struct Ballast<F> {
    file: F,
    /// How many bytes it has.
    pub bytes: u64,
}

impl<F: OpenFile + Drop> Ballast<F> {
    /// The disk space reserved in this file, which is emptied.
    ///
    /// # Errors
    ///
    /// The file couldn't be cut.
    pub fn new(file: F) -> Result<Ballast<F>, NoRoom>
        ensures { IfOk result (λ ballast. ballast.bytes ≡ 0) }
    {
        let mut file = file;
        if file.set_len(0).is_err() {
            return Err(NoRoom);
        }
        Ok(Ballast { file, bytes: 0 })
    }
}

/// Appends so many zeros to a file, and returns whether it did.
fn append_zeros<F: Write + Seek>(file: &mut F, bytes: u64) -> bool {
    let zeros = [0u8; CHUNK];
    if file.seek(SeekFrom::End(0)).is_err() {
        return false;
    }
    for _ in 0..bytes / CHUNK as u64 {
        if file.write_all(&zeros).is_err() {
            return false;
        }
    }
    let rest = (bytes % CHUNK as u64) as usize;
    file.write_all(&zeros[..rest]).is_ok()
}

impl<F: Write + Seek + OpenFile + Drop> Space for Ballast<F> {
    ghost aside = { λ b. b.bytes };

    fn set_aside(&mut self, bytes: u64) -> Result<(), NoRoom> {
        if bytes > u64::MAX - self.bytes {
            return Err(NoRoom);
        }
        if !append_zeros(&mut self.file, bytes) {
            // What was written of it is freed, as far as the file can be cut.
            let _ = self.file.set_len(self.bytes);
            return Err(NoRoom);
        }
        self.bytes += bytes;
        Ok(())
    }

    fn give_back(&mut self, bytes: u64) {
        self.bytes -= bytes;
        let _ = self.file.set_len(self.bytes);
    }
}
