//! Files: a user's, and a folder's journal.

use crate::end::LogCommandEnd;
use cli_host::FileHost;
use std::fs::{self, DirBuilder, File, Files, TryLockError};
use std::io::{ErrorKind, Read, Write};
use std::os::unix::fs::{DirBuilderExt, OpenOptionsExt};

/// The mode of a file that is written: only its owner may read and write it.
const FILE_MODE: u32 = 0o600;

/// The mode of a folder that is made: only its owner may use it.
const FOLDER_MODE: u32 = 0o700;

/// The most bytes of a user's file.
const MOST_USER: u64 = 4096;

/// Why a file has no user.
#[derive(Clone, Copy, Debug, Drop, PartialEq, Eq)]
pub enum UserFault {
    /// It is a FIFO, a socket, a device or a folder.
    NotRegular,
    /// It isn't there, or may not be read.
    Unreadable,
    /// It isn't a name, a colon and a password.
    BadShape,
}

impl UserFault {
    /// The fault in words.
    pub fn words(self) -> &'static str {
        match self {
            UserFault::NotRegular => "the user's file isn't a regular file",
            UserFault::Unreadable => "the user's file can't be read",
            UserFault::BadShape => "the user's file isn't a name, a colon and a password",
        }
    }
}

/// The bytes of a user's file, `MOST_USER` at most.
///
/// # Errors
///
/// `NoUser`, `NoMemory`.
pub(crate) fn user_bytes<R: FileHost>(rt: &R, path: &str) -> Result<Vec<u8>, LogCommandEnd> {
    match fs::metadata(rt, path) {
        Ok(metadata) if !metadata.is_file() => {
            return Err(LogCommandEnd::NoUser(UserFault::NotRegular));
        }
        Ok(_) => {}
        Err(_) => return Err(LogCommandEnd::NoUser(UserFault::Unreadable)),
    }
    let Ok(file) = File::open(rt, path) else {
        return Err(LogCommandEnd::NoUser(UserFault::Unreadable));
    };
    let mut bytes = Vec::new(rt.alloc());
    let mut front = file.take(MOST_USER + 1);
    match front.read_to_end(&mut bytes) {
        Ok(_) if bytes.len() as u64 > MOST_USER => {
            Err(LogCommandEnd::NoUser(UserFault::BadShape))
        }
        Ok(_) => Ok(bytes),
        Err(error) if error.kind() == ErrorKind::OutOfMemory => Err(LogCommandEnd::NoMemory),
        Err(_) => Err(LogCommandEnd::NoUser(UserFault::Unreadable)),
    }
}

/// A folder's journal, which no other program has as long as it is open.
#[derive(Drop)]
pub(crate) struct LockedJournal {
    /// Locked.
    pub file: File,
    /// What is in it.
    pub bytes: Vec<u8>,
}

/// Locks a folder's journal, and reads it.
///
/// # Errors
///
/// `NoJournal` where the folder has none, `Locked`, `Unusable`, `NoMemory`.
pub(crate) fn locked_journal<R: FileHost>(
    rt: &R,
    folder: &str,
) -> Result<LockedJournal, LogCommandEnd> {
    let path = format!(in rt.alloc(); "{folder}/journal")?;
    let mut file = match File::open(rt, path.as_str()) {
        Ok(file) => file,
        Err(error) if error.kind() == ErrorKind::NotFound => return Err(LogCommandEnd::NoJournal),
        Err(_) => return Err(LogCommandEnd::Unusable),
    };
    match file.try_lock() {
        Ok(()) => {}
        Err(TryLockError::WouldBlock) => return Err(LogCommandEnd::Locked),
        Err(TryLockError::Error(_)) => return Err(LogCommandEnd::Unusable),
    }
    let mut bytes = Vec::new(rt.alloc());
    match file.read_to_end(&mut bytes) {
        Ok(_) => Ok(LockedJournal { file, bytes }),
        Err(error) if error.kind() == ErrorKind::OutOfMemory => Err(LogCommandEnd::NoMemory),
        Err(_) => Err(LogCommandEnd::Unusable),
    }
}

/// Makes a folder where it isn't there, with those above it.
///
/// # Errors
///
/// `Unusable`.
fn ensure_folder<R: FileHost>(rt: &R, folder: &str) -> Result<(), LogCommandEnd> {
    let mut how = DirBuilder::new();
    how.recursive(true).mode(FOLDER_MODE);
    match how.create(rt, folder) {
        Ok(()) => Ok(()),
        Err(_) => Err(LogCommandEnd::Unusable),
    }
}

/// Sees to it that a folder is there, and has no journal.
///
/// # Errors
///
/// `Present` where something stands in its place, `Unusable`, `NoMemory`.
pub(crate) fn ensure_no_journal<R: FileHost>(rt: &R, folder: &str) -> Result<(), LogCommandEnd> {
    ensure_folder(rt, folder)?;
    let path = format!(in rt.alloc(); "{folder}/journal")?;
    match fs::symlink_metadata(rt, path.as_str()) {
        Ok(_) => Err(LogCommandEnd::Present),
        Err(error) if error.kind() == ErrorKind::NotFound => Ok(()),
        Err(_) => Err(LogCommandEnd::Unusable),
    }
}

/// Writes a new file, and waits until it is on the disk. What stood at its path is removed.
///
/// # Errors
///
/// `NotWritten`.
fn write_synced<R: FileHost>(rt: &R, path: &str, bytes: &[u8]) -> Result<(), LogCommandEnd> {
    let _ = fs::remove_file(rt, path);
    let mut how = File::options();
    how.write(true).create_new(true).mode(FILE_MODE);
    let Ok(mut file) = how.open(rt, path) else {
        return Err(LogCommandEnd::NotWritten);
    };
    if file.write_all(bytes).is_err() || file.sync_all().is_err() {
        return Err(LogCommandEnd::NotWritten);
    }
    Ok(())
}

/// Waits until the names of a folder's files are on the disk.
///
/// # Errors
///
/// `NotWritten`.
fn sync_names<R: FileHost>(rt: &R, folder: &str) -> Result<(), LogCommandEnd> {
    let Ok(names) = File::open(rt, folder) else {
        return Err(LogCommandEnd::NotWritten);
    };
    match names.sync_all() {
        Ok(()) => Ok(()),
        Err(_) => Err(LogCommandEnd::NotWritten),
    }
}

/// Writes a folder's journal, which has none: beside, and once it is on the disk it gets its name, unless another stands
/// there by then.
///
/// # Errors
///
/// `Present`, `NotWritten`, `NoMemory`.
pub(crate) fn write_journal<R: FileHost>(
    rt: &R,
    folder: &str,
    bytes: &[u8],
) -> Result<(), LogCommandEnd> {
    let path = format!(in rt.alloc(); "{folder}/journal")?;
    let beside = format!(in rt.alloc(); "{folder}/journal.fetched")?;
    write_synced(rt, beside.as_str(), bytes)?;
    let named = fs::hard_link(rt, beside.as_str(), path.as_str());
    let _ = fs::remove_file(rt, beside.as_str());
    match named {
        Ok(()) => sync_names(rt, folder),
        Err(error) if error.kind() == ErrorKind::AlreadyExists => Err(LogCommandEnd::Present),
        Err(_) => Err(LogCommandEnd::NotWritten),
    }
}
