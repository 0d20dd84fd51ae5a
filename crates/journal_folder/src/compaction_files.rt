//! The file `compactions` of a city's folder, and the journal that tells what stood at a moment.

use crate::archive::ArchiveFault;
use crate::archive_files::archive_in;
use crate::compactions::{
    ArchivedJournal, Compaction, PastSource, first_text, further_text, read_compactions, source_of,
};
use crate::fault::FolderFault;
use crate::folder::{bytes_of, path_of};
use crate::folders::Folders;
use crate::latest::journal_latest;
use mds_text::Moment;
use std::alloc::Global;
use std::fs::File;
use std::io::{ErrorKind, Write};

/// How often the journal of a moment is looked for, where compactions are recorded meanwhile.
const ATTEMPTS: u32 = 16;

/// The name of the file.
const COMPACTIONS: &str = "compactions";

/// A journal whose place a shorter one is to take.
#[derive(Drop)]
pub struct CompactedJournal {
    /// The latest moment of its entries.
    pub latest: Moment,
    /// The name under which it is archived; `None` where it isn't.
    pub archived: Option<String>,
}

/// What a city's folder had of its compactions when it was opened.
#[derive(Clone, Copy, Debug, PartialEq, Eq)]
pub enum RecordedCompactions {
    /// A file with a line for each.
    Whole,
    /// No file.
    Missing,
    /// A file that has no such lines.
    Damaged,
}

/// What the file of a folder has.
#[derive(Drop)]
enum RecordedText {
    Whole(String),
    Missing,
    Damaged,
}

/// Opens the file at a path to read it; `None` where nothing stands there.
///
/// # Errors
///
/// `Linked` where what stands there is no file, `Unusable` where it can't be opened.
fn open_at<R: Folders>(rt: &R, path: &str) -> Result<Option<File>, FolderFault> {
    match rt.look(path) {
        Ok(found) if found.is_file() => {}
        Ok(_) => return Err(FolderFault::Linked),
        Err(error) if error.kind() == ErrorKind::NotFound => return Ok(None),
        Err(_) => return Err(FolderFault::Unusable),
    }
    match rt.open(path) {
        Ok(file) => Ok(Some(file)),
        Err(error) if error.kind() == ErrorKind::NotFound => Ok(None),
        Err(_) => Err(FolderFault::Unusable),
    }
}

/// What the file `compactions` of a folder has.
fn recorded_text<R: Folders>(
    rt: &R,
    alloc: Global,
    folder: &str,
) -> Result<RecordedText, FolderFault> {
    let path = path_of(alloc, folder, COMPACTIONS)?;
    let Some(file) = open_at(rt, path.as_str())? else {
        return Ok(RecordedText::Missing);
    };
    let Ok(text) = String::from_utf8(bytes_of(alloc, file)?) else {
        return Ok(RecordedText::Damaged);
    };
    if read_compactions(alloc, text.as_str())?.is_none() {
        return Ok(RecordedText::Damaged);
    }
    Ok(RecordedText::Whole(text))
}

/// Writes a text to a new file and syncs it; returns whether that succeeded.
fn is_written<R: Folders>(rt: &R, path: &str, text: &str) -> bool {
    let Ok(mut file) = rt.make(path) else {
        return false;
    };
    file.write_all(text.as_bytes()).is_ok() && file.sync_all().is_ok()
}

/// Waits until the names of a folder's files are on the disk.
fn sync_folder<R: Folders>(rt: &R, folder: &str) -> Result<(), FolderFault> {
    match rt.open(folder) {
        Ok(names) if names.sync_all().is_ok() => Ok(()),
        _ => Err(FolderFault::Unusable),
    }
}

/// Puts a text into the file `compactions` of a folder, and waits until that is on the disk: it is written to
/// `compactions.part`, which is renamed once it is synced. A crash leaves the file as it was, or with this text.
fn replace_text<R: Folders>(
    rt: &R,
    alloc: Global,
    folder: &str,
    text: &str,
) -> Result<(), FolderFault> {
    let part = path_of(alloc, folder, "compactions.part")?;
    let path = path_of(alloc, folder, COMPACTIONS)?;
    if !is_written(rt, part.as_str(), text) || rt.rename(part.as_str(), path.as_str()).is_err() {
        // A file that couldn't be written whole takes no disk space.
        let _ = rt.remove(part.as_str());
        return Err(FolderFault::Unusable);
    }
    sync_folder(rt, folder)
}

/// Keeps a damaged file `compactions` as `compactions.damaged`.
fn set_aside<R: Folders>(rt: &R, alloc: Global, folder: &str) -> Result<(), FolderFault> {
    let path = path_of(alloc, folder, COMPACTIONS)?;
    let aside = path_of(alloc, folder, "compactions.damaged")?;
    match rt.rename(path.as_str(), aside.as_str()) {
        Ok(()) => Ok(()),
        Err(_) => Err(FolderFault::Unusable),
    }
}

/// The bytes of the file at a path; `None` where nothing stands there.
fn bytes_at<R: Folders>(rt: &R, alloc: Global, path: &str) -> Result<Option<Vec<u8>>, FolderFault> {
    match open_at(rt, path)? {
        Some(file) => Ok(Some(bytes_of(alloc, file)?)),
        None => Ok(None),
    }
}

/// The latest moment of the entries of a folder's journal.
fn present_latest<R: Folders>(
    rt: &R,
    alloc: Global,
    folder: &str,
) -> Result<Option<Moment>, FolderFault> {
    let path = path_of(alloc, folder, "journal")?;
    let Some(bytes) = bytes_at(rt, alloc, path.as_str())? else {
        return Ok(None);
    };
    match journal_latest(alloc, &bytes) {
        Ok(latest) => Ok(latest),
        Err(ArchiveFault::NoMemory) => Err(FolderFault::NoMemory),
        Err(_) => Err(FolderFault::Unusable),
    }
}

/// Sees to it that the folder of a city has a file `compactions`, whose journal this program has, and is whole: where
/// there is none, as an earlier version leaves it, or one that is damaged, it isn't known what was dropped up to the
/// latest entry, and a new file says so. The damaged one is kept as `compactions.damaged`. Returns what there was.
///
/// # Errors
///
/// `Linked` where the file is none, `Unusable` where it can't be read or written, `NoMemory`.
pub fn open_compactions<R: Folders>(
    rt: &R,
    alloc: Global,
    folder: &str,
) -> Result<RecordedCompactions, FolderFault> {
    let found = match recorded_text(rt, alloc, folder)? {
        RecordedText::Whole(_) => return Ok(RecordedCompactions::Whole),
        RecordedText::Missing => RecordedCompactions::Missing,
        RecordedText::Damaged => RecordedCompactions::Damaged,
    };
    let latest = present_latest(rt, alloc, folder)?;
    let text = first_text(alloc, latest)?;
    if found == RecordedCompactions::Damaged {
        set_aside(rt, alloc, folder)?;
    }
    replace_text(rt, alloc, folder, text.as_str())?;
    Ok(found)
}

/// Archives a journal whose place a shorter one is to take, by its bytes, in the folder of an archive, where one is
/// given. Returns what is to be recorded of its compaction: `None` where it has no entries.
///
/// # Errors
///
/// Those of `archive_in`.
pub fn archive_compacted<R: Folders>(
    rt: &R,
    alloc: Global,
    archive: Option<&str>,
    bytes: &[u8],
) -> Result<Option<CompactedJournal>, ArchiveFault> {
    let Some(latest) = journal_latest(alloc, bytes)? else {
        return Ok(None);
    };
    let archived = match archive {
        Some(archive) => archive_in(rt, alloc, archive, bytes)?,
        None => None,
    };
    Ok(Some(CompactedJournal { latest, archived }))
}

/// Records the compaction of a journal in the file `compactions` of a city's folder, before the shorter journal takes its
/// place, and waits until that is on the disk. A crash leaves the file as it was, or with this compaction. Where there is
/// none, or a damaged one, it begins as `open_compactions` makes it.
///
/// # Errors
///
/// As `open_compactions`. Then the file is as it was, or missing where it was damaged; where only the folder couldn't be
/// synced, it has this compaction.
pub fn record_compaction<R: Folders>(
    rt: &R,
    alloc: Global,
    folder: &str,
    journal: &CompactedJournal,
) -> Result<(), FolderFault> {
    let found = recorded_text(rt, alloc, folder)?;
    if matches!(found, RecordedText::Damaged) {
        set_aside(rt, alloc, folder)?;
    }
    let text = match found {
        RecordedText::Whole(text) => text,
        RecordedText::Missing | RecordedText::Damaged => first_text(alloc, Some(journal.latest))?,
    };
    let archived = match &journal.archived {
        Some(name) => Some(name.as_str()),
        None => None,
    };
    let compaction = Compaction {
        latest: journal.latest,
        archived,
    };
    let longer = further_text(alloc, text.as_str(), &compaction)?;
    replace_text(rt, alloc, folder, longer.as_str())
}

/// The bytes of an archived journal; `None` where it isn't in the archive any more, or isn't the one that was archived.
fn archived_bytes<R: Folders>(
    rt: &R,
    alloc: Global,
    archive: &str,
    journal: &ArchivedJournal<'_>,
) -> Result<Option<Vec<u8>>, FolderFault> {
    let path = path_of(alloc, archive, journal.name)?;
    let bytes = match bytes_at(rt, alloc, path.as_str()) {
        Ok(Some(bytes)) => bytes,
        Ok(None) | Err(FolderFault::Linked) => return Ok(None),
        Err(fault) => return Err(fault),
    };
    match journal_latest(alloc, &bytes) {
        Ok(Some(latest)) if latest == journal.latest => Ok(Some(bytes)),
        Err(ArchiveFault::NoMemory) => Err(FolderFault::NoMemory),
        _ => Ok(None),
    }
}

/// The bytes of the journal that stands in a folder, if the file `compactions` still has this text once it is open.
fn present_bytes<R: Folders>(
    rt: &R,
    alloc: Global,
    folder: &str,
    text: &str,
) -> Result<Option<Vec<u8>>, FolderFault> {
    let path = path_of(alloc, folder, "journal")?;
    let Some(file) = open_at(rt, path.as_str())? else {
        return Err(FolderFault::Unusable);
    };
    match recorded_text(rt, alloc, folder)? {
        RecordedText::Whole(again) if again.as_str() == text => Ok(Some(bytes_of(alloc, file)?)),
        _ => Ok(None),
    }
}

/// The bytes of the journal that tells what stood at a moment, of the city in a folder: those of the journal there, of
/// which more may be appended meanwhile, or of an archived one, where the folder of an archive is given. `None` where
/// what stood then isn't kept any more, or it isn't known whether it is: where the archived journal isn't there under its
/// name, or is another one, and where the folder has no file `compactions`, or a damaged one. It locks and changes
/// nothing, and may be called while the city is served.
///
/// # Errors
///
/// `Unusable` where a file can't be read, or the journal is compacted again and again meanwhile; `Linked` where a link
/// stands in the place of a file; `NoMemory`.
pub fn journal_at<R: Folders>(
    rt: &R,
    alloc: Global,
    folder: &str,
    archive: Option<&str>,
    at: Moment,
) -> Result<Option<Vec<u8>>, FolderFault> {
    for _ in 0..ATTEMPTS {
        let RecordedText::Whole(text) = recorded_text(rt, alloc, folder)? else {
            return Ok(None);
        };
        let Some(compactions) = read_compactions(alloc, text.as_str())? else {
            return Ok(None);
        };
        match (source_of(&compactions, at), archive) {
            (PastSource::Present, _) => {
                if let Some(bytes) = present_bytes(rt, alloc, folder, text.as_str())? {
                    return Ok(Some(bytes));
                }
            }
            (PastSource::Archived(journal), Some(archive)) => {
                return archived_bytes(rt, alloc, archive, &journal);
            }
            (PastSource::Archived(_), None) | (PastSource::NotKept, _) => return Ok(None),
        }
    }
    Err(FolderFault::Unusable)
}
