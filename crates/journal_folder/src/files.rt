//! Files of a folder, opened by their names without following a link.
ghost use Rattle.std.specs.Prelude.{◌≡◌};
ghost use Rattle.journal_folder.specs.Files.{owner_of};

use crate::fault::FolderFault;
use std::fs::{self, File, Files, Metadata, TryLockError};
use std::io::ErrorKind;
use std::os::unix::fs::{MetadataExt, OpenOptionsExt};

/// The mode of a file of the folder: only its owner may read and write it.
const MODE: u32 = 0o600;

/// How often opening a file is tried, where its name was given to another meanwhile.
const ATTEMPTS: u32 = 16;

/// What identifies a file in the system: its device, and its inode number there.
#[derive(Clone, Copy, Debug, PartialEq, Eq)]
pub struct Identity {
    /// The device.
    pub device: u64,
    /// The inode number there.
    pub number: u64,
}

/// What stands at a name.
#[derive(Clone, Copy, Debug, PartialEq, Eq)]
pub enum PathEntry {
    /// Nothing.
    Nothing,
    /// A file.
    File(Identity),
    /// A link, or something else that is no file.
    Other,
}

/// Whose the name is by which a file was opened.
#[derive(Clone, Copy, Debug, PartialEq, Eq)]
pub enum NameOwner {
    /// It is that file's.
    Opened,
    /// It is another file's by now, or nothing's.
    Another,
    /// It is no file's.
    NoFile,
}

/// Whose the name is by which a file was opened, by what stands at it now.
pub fn owner_of(opened: Identity, entry: PathEntry) -> NameOwner
    ensures { result ≡ owner_of opened entry }
{
    match entry {
        PathEntry::Nothing => NameOwner::Another,
        PathEntry::File(found) if found == opened => NameOwner::Opened,
        PathEntry::File(_) => NameOwner::Another,
        PathEntry::Other => NameOwner::NoFile,
    }
}

/// The identity of the file with this metadata.
fn identity_of(metadata: &Metadata) -> Identity {
    Identity {
        device: metadata.dev(),
        number: metadata.ino(),
    }
}

/// What stands at a path. Its last component isn't followed where it is a link.
fn entry_at<R: Files<File = File>>(rt: &R, path: &str) -> Result<PathEntry, FolderFault> {
    match fs::symlink_metadata(rt, path) {
        Ok(metadata) if metadata.is_file() => Ok(PathEntry::File(identity_of(&metadata))),
        Ok(_) => Ok(PathEntry::Other),
        Err(error) if error.kind() == ErrorKind::NotFound => Ok(PathEntry::Nothing),
        Err(_) => Err(FolderFault::Unusable),
    }
}

/// Whether a path still names the file that was opened by it.
///
/// # Errors
///
/// `Linked` where it names no file, `Unusable` where that can't be seen.
fn is_named<R: Files<File = File>>(rt: &R, path: &str, file: &File) -> Result<bool, FolderFault> {
    let Ok(metadata) = file.metadata() else {
        return Err(FolderFault::Unusable);
    };
    match owner_of(identity_of(&metadata), entry_at(rt, path)?) {
        NameOwner::Opened => Ok(true),
        NameOwner::Another => Ok(false),
        NameOwner::NoFile => Err(FolderFault::Linked),
    }
}

/// Opens the file at a path, which is made where nothing stands there; none, where the path came to name another
/// meanwhile.
fn try_open<R: Files<File = File>>(rt: &R, path: &str) -> Result<Option<File>, FolderFault> {
    let is_new = match entry_at(rt, path)? {
        PathEntry::Nothing => true,
        PathEntry::File(_) => false,
        PathEntry::Other => return Err(FolderFault::Linked),
    };
    let mut how = File::options();
    how.read(true).write(true).create_new(is_new).mode(MODE);
    match how.open(rt, path) {
        Ok(file) if is_named(rt, path, &file)? => Ok(Some(file)),
        Ok(_) => Ok(None),
        Err(error) if error.kind() == ErrorKind::NotFound && !is_new => Ok(None),
        Err(error) if error.kind() == ErrorKind::AlreadyExists => Ok(None),
        Err(_) => Err(FolderFault::Unusable),
    }
}

/// Opens the file at a path for reading and writing. It is made where nothing stands there.
///
/// # Errors
///
/// `Linked` where something stands there that is no file, `Unusable` where it can't be made or opened.
pub(crate) fn open_file<R: Files<File = File>>(rt: &R, path: &str) -> Result<File, FolderFault> {
    for _ in 0..ATTEMPTS {
        if let Some(file) = try_open(rt, path)? {
            return Ok(file);
        }
    }
    Err(FolderFault::Unusable)
}

/// Locks a file as long as it is open. The system unlocks it where the program ends, however it does.
///
/// # Errors
///
/// `Locked` where another program has locked it, `Unusable` where the system can't tell.
pub fn lock_file(file: &File) -> Result<(), FolderFault> {
    match file.try_lock() {
        Ok(()) => Ok(()),
        Err(TryLockError::WouldBlock) => Err(FolderFault::Locked),
        Err(TryLockError::Error(_)) => Err(FolderFault::Unusable),
    }
}

/// Opens the file at a path, as `open_file` does, and locks it: the path still named it once it was locked, so that
/// whoever opens the path then finds a locked file.
///
/// # Errors
///
/// As `open_file`, and `Locked` where another program has it.
pub(crate) fn open_locked<R: Files<File = File>>(rt: &R, path: &str) -> Result<File, FolderFault> {
    for _ in 0..ATTEMPTS {
        let Some(file) = try_open(rt, path)? else {
            continue;
        };
        lock_file(&file)?;
        if is_named(rt, path, &file)? {
            return Ok(file);
        }
    }
    Err(FolderFault::Locked)
}

/// Opens the file at a path for reading only.
///
/// # Errors
///
/// `Linked` where something stands there that is no file, `Unusable` where it can't be opened.
pub(crate) fn open_to_read<R: Files<File = File>>(rt: &R, path: &str) -> Result<File, FolderFault> {
    for _ in 0..ATTEMPTS {
        if entry_at(rt, path)? == PathEntry::Other {
            return Err(FolderFault::Linked);
        }
        let Ok(file) = File::open(rt, path) else {
            return Err(FolderFault::Unusable);
        };
        if is_named(rt, path, &file)? {
            return Ok(file);
        }
    }
    Err(FolderFault::Unusable)
}

/// Creates a new file at a path, for reading and writing; none, where something stands there.
///
/// # Errors
///
/// `Unusable` where it can't be made.
pub(crate) fn open_new<R: Files<File = File>>(
    rt: &R,
    path: &str,
) -> Result<Option<File>, FolderFault> {
    let mut how = File::options();
    how.read(true).write(true).create_new(true).mode(MODE);
    match how.open(rt, path) {
        Ok(file) => Ok(Some(file)),
        Err(error) if error.kind() == ErrorKind::AlreadyExists => Ok(None),
        Err(_) => Err(FolderFault::Unusable),
    }
}

/// Creates a new, locked file at a path, for reading and writing. What stood there is removed: a link itself, and not
/// what it leads to.
///
/// # Errors
///
/// `Unusable` where it can't be made, `Locked` where another program has it.
pub fn create_locked<R: Files<File = File>>(rt: &R, path: &str) -> Result<File, FolderFault> {
    match fs::remove_file(rt, path) {
        Ok(()) => {}
        Err(error) if error.kind() == ErrorKind::NotFound => {}
        Err(_) => return Err(FolderFault::Unusable),
    }
    let Some(file) = open_new(rt, path)? else {
        return Err(FolderFault::Unusable);
    };
    lock_file(&file)?;
    Ok(file)
}
