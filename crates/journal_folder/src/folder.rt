//! A city's folder and its files.

use crate::fault::FolderFault;
use crate::files::{lock_file, open_file, open_locked, open_to_read};
use std::alloc::Global;
use std::fs::{self, DirBuilder, File, Files, Permissions};
use std::io::{ErrorKind, Read};
use std::os::unix::fs::{DirBuilderExt, PermissionsExt};

/// The mode of a folder that is made: only its owner may use it.
const FOLDER_MODE: u32 = 0o700;

/// The files of a city's folder, which only this program has until the journal is closed.
#[derive(Drop)]
pub struct Folder {
    /// Locked as long as it is open, for programs that lock only this file.
    pub lock: File,
    /// Locked as long as it is open, or another handle of it by `try_clone`.
    pub journal: File,
    /// Disk space reserved for the journal.
    pub ballast: File,
}

/// Waits until the names of a folder's files are on the disk.
///
/// # Errors
///
/// `Unusable` where the folder can't be opened or synced.
pub fn sync_names<R: Files<File = File>>(rt: &R, folder: &str) -> Result<(), FolderFault> {
    let Ok(names) = File::open(rt, folder) else {
        return Err(FolderFault::Unusable);
    };
    match names.sync_all() {
        Ok(()) => Ok(()),
        Err(_) => Err(FolderFault::Unusable),
    }
}

/// Makes a folder that isn't there, with those above it. Only its owner may use it, whatever umask the process has.
fn create_folder<R: Files<File = File>>(rt: &R, folder: &str) -> Result<(), FolderFault> {
    let mut how = DirBuilder::new();
    how.recursive(true).mode(FOLDER_MODE);
    if how.create(rt, folder).is_err() {
        return Err(FolderFault::Unusable);
    }
    match fs::set_permissions(rt, folder, Permissions::from_mode(FOLDER_MODE)) {
        Ok(()) => Ok(()),
        Err(_) => Err(FolderFault::Unusable),
    }
}

/// Makes a folder where it isn't there, and waits until its name is on the disk: each time, since a start that made it
/// may have been killed before that. Where the folder above can't be read, it doesn't wait.
fn ensure_folder<R: Files<File = File>>(
    rt: &R,
    alloc: Global,
    folder: &str,
) -> Result<(), FolderFault> {
    match fs::metadata(rt, folder) {
        Ok(found) if found.is_dir() => {}
        Err(error) if error.kind() == ErrorKind::NotFound => create_folder(rt, folder)?,
        _ => return Err(FolderFault::Unusable),
    }
    let above = format!(in alloc; "{folder}/..")?;
    if File::open(rt, above.as_str()).is_err() {
        return Ok(());
    }
    sync_names(rt, above.as_str())
}

/// The path of a file in a folder.
pub(crate) fn path_of(alloc: Global, folder: &str, name: &str) -> Result<String, FolderFault> {
    Ok(format!(in alloc; "{folder}/{name}")?)
}

/// Opens and locks the files of a city's folder. The folder and the files are made where they aren't there, and their
/// names are on the disk. No link in the folder is followed. The lock is on the journal itself: whatever else is
/// removed from the folder, no second program has it.
///
/// # Errors
///
/// `Unusable` where the folder or a file can't be made or opened, `Linked` where something that is no file stands in
/// the place of one, `Locked` where another program has it, `NoMemory`.
pub fn open_folder<R: Files<File = File>>(
    rt: &R,
    alloc: Global,
    folder: &str,
) -> Result<Folder, FolderFault> {
    ensure_folder(rt, alloc, folder)?;
    let lock = open_file(rt, path_of(alloc, folder, "lock")?.as_str())?;
    lock_file(&lock)?;
    let journal = open_locked(rt, path_of(alloc, folder, "journal")?.as_str())?;
    let ballast = open_file(rt, path_of(alloc, folder, "ballast")?.as_str())?;
    sync_names(rt, folder)?;
    Ok(Folder {
        lock,
        journal,
        ballast,
    })
}

/// Opens the journal at a path, only to look at it: a folder's, or the file itself where the path names no folder.
fn open_journal<R: Files<File = File>>(
    rt: &R,
    alloc: Global,
    path: &str,
) -> Result<File, FolderFault> {
    let is_folder = match fs::metadata(rt, path) {
        Ok(found) => found.is_dir(),
        Err(_) => return Err(FolderFault::Unusable),
    };
    if is_folder {
        return open_to_read(rt, path_of(alloc, path, "journal")?.as_str());
    }
    match File::open(rt, path) {
        Ok(file) => Ok(file),
        Err(_) => Err(FolderFault::Unusable),
    }
}

/// All bytes of a file that is open.
///
/// # Errors
///
/// `Unusable` where it can't be read, `NoMemory`.
pub(crate) fn bytes_of(alloc: Global, file: File) -> Result<Vec<u8>, FolderFault> {
    let mut file = file;
    let mut bytes = Vec::new(alloc);
    match file.read_to_end(&mut bytes) {
        Ok(_) => Ok(bytes),
        Err(fault) if fault.kind() == ErrorKind::OutOfMemory => Err(FolderFault::NoMemory),
        Err(_) => Err(FolderFault::Unusable),
    }
}

/// Reads the bytes of the journal at a path, only to look at it: nothing is locked or changed, so a program may be
/// writing it. The journal is the folder's, or the file itself where the path names no folder: an archived journal is
/// such a file.
///
/// # Errors
///
/// `Unusable` where there is no journal or it can't be read, `Linked` where what stands there is no file, `NoMemory`.
pub fn journal_bytes<R: Files<File = File>>(
    rt: &R,
    alloc: Global,
    path: &str,
) -> Result<Vec<u8>, FolderFault> {
    bytes_of(alloc, open_journal(rt, alloc, path)?)
}
