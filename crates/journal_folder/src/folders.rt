//! File operations by path, in any thread.

use std::fs::{self, File, Metadata};
use std::io;
use std::os::unix::fs::OpenOptionsExt;

/// The mode of a new file: its owner alone may read and write it.
const MODE: u32 = 0o600;

/// Opens, makes, renames and removes files by their paths in any thread: std's `Files` may do so in the one thread
/// alone to which it is given.
pub trait Folders {
    /// Opens a file, or a folder, to read it.
    ///
    /// # Errors
    ///
    /// The system's.
    fn open(&self, path: &str) -> io::Result<File>;

    /// What stands at a path; a link isn't followed.
    ///
    /// # Errors
    ///
    /// The system's.
    fn look(&self, path: &str) -> io::Result<Metadata>;

    /// Makes a file to read and write it. A file or link that has its name is removed first.
    ///
    /// # Errors
    ///
    /// The system's.
    fn make(&self, path: &str) -> io::Result<File>;

    /// Gives a file the name of another, in the place of that one, atomically.
    ///
    /// # Errors
    ///
    /// The system's.
    fn rename(&self, from: &str, to: &str) -> io::Result<()>;

    /// Removes a file.
    ///
    /// # Errors
    ///
    /// The system's.
    fn remove(&self, path: &str) -> io::Result<()>;
}

impl Folders for HostRuntime {
    fn open(&self, path: &str) -> io::Result<File> {
        File::open(self, path)
    }

    fn look(&self, path: &str) -> io::Result<Metadata> {
        fs::symlink_metadata(self, path)
    }

    fn make(&self, path: &str) -> io::Result<File> {
        // If nothing has the name, there is nothing to remove.
        let _ = fs::remove_file(self, path);
        let mut how = File::options();
        how.read(true).write(true).create_new(true).mode(MODE);
        how.open(self, path)
    }

    fn rename(&self, from: &str, to: &str) -> io::Result<()> {
        fs::rename(self, from, to)
    }

    fn remove(&self, path: &str) -> io::Result<()> {
        fs::remove_file(self, path)
    }
}
