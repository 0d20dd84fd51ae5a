//! The files of a report: each has another name until all of them are whole.

use cli_host::FileHost;
use cli_journal::{ExitCause, REPORT_FILES, ReportFault, ReportFile};
use journal_folder::sync_names;
use std::alloc::{AllocError, AllocGlobal};
use std::fs::{self, File};
use std::io::{ErrorKind, Write};

/// The path of a file of a report.
fn path_of<R: AllocGlobal>(rt: &R, folder: &str, file: ReportFile) -> Result<String, AllocError> {
    format!(in rt.alloc(); "{folder}/{}", file.name())
}

/// The path that a file of a report has until all are whole.
fn part_path<R: AllocGlobal>(rt: &R, folder: &str, file: ReportFile) -> Result<String, AllocError> {
    format!(in rt.alloc(); "{folder}/{}.part", file.name())
}

/// Checks that a report can be written into a folder: it is there, and has no file of a report.
///
/// # Errors
///
/// `Report` with `NoFolder` or `Present`; `NoMemory`.
pub fn check_folder<R: FileHost>(rt: &R, folder: &str) -> Result<(), ExitCause> {
    match fs::metadata(rt, folder) {
        Ok(found) if found.is_dir() => {}
        _ => return Err(ExitCause::Report(ReportFault::NoFolder)),
    }
    for file in &REPORT_FILES {
        let path = path_of(rt, folder, *file)?;
        match fs::symlink_metadata(rt, path.as_str()) {
            Err(error) if error.kind() == ErrorKind::NotFound => {}
            Ok(_) => return Err(ExitCause::Report(ReportFault::Present(*file))),
            Err(_) => return Err(ExitCause::Report(ReportFault::NoFolder)),
        }
    }
    Ok(())
}

/// Removes what is left of a report that wasn't finished, if that can be done.
pub fn clear_parts<R: FileHost>(rt: &R, folder: &str) {
    for file in &REPORT_FILES {
        if let Ok(path) = part_path(rt, folder, *file) {
            let _ = fs::remove_file(rt, path.as_str());
        }
    }
}

/// Makes a new file for a part of a report. What another report left at its path is removed.
fn create_part<R: FileHost>(rt: &R, folder: &str, file: ReportFile) -> Result<File, ExitCause> {
    let path = part_path(rt, folder, file)?;
    // If nothing has the name, there is nothing to remove.
    let _ = fs::remove_file(rt, path.as_str());
    let mut how = File::options();
    how.write(true).create_new(true);
    match how.open(rt, path.as_str()) {
        Ok(file) => Ok(file),
        Err(_) => Err(ExitCause::Report(ReportFault::NotWritten)),
    }
}

/// Writes bytes to a file of a report.
///
/// # Errors
///
/// `NotWritten`.
fn write(file: &mut File, bytes: &[u8]) -> Result<(), ReportFault> {
    match file.write_all(bytes) {
        Ok(()) => Ok(()),
        Err(_) => Err(ReportFault::NotWritten),
    }
}

/// Bytes of each file of a report.
#[derive(Drop)]
pub struct ReportBytes {
    pub verdicts: Vec<u8>,
    pub summary: Vec<u8>,
    pub page: Vec<u8>,
}

/// The files of a report, which have other names until all are whole.
#[derive(Drop)]
pub struct ReportFiles {
    verdicts: File,
    summary: File,
    page: File,
}

impl ReportFiles {
    /// Makes the files in a folder.
    ///
    /// # Errors
    ///
    /// `Report` with `NotWritten`; `NoMemory`.
    pub fn create<R: FileHost>(rt: &R, folder: &str) -> Result<ReportFiles, ExitCause> {
        Ok(ReportFiles {
            verdicts: create_part(rt, folder, ReportFile::Verdicts)?,
            summary: create_part(rt, folder, ReportFile::Summary)?,
            page: create_part(rt, folder, ReportFile::Page)?,
        })
    }

    /// Appends bytes to each file.
    ///
    /// # Errors
    ///
    /// `NotWritten`.
    pub fn append(&mut self, bytes: &ReportBytes) -> Result<(), ReportFault> {
        write(&mut self.verdicts, &bytes.verdicts)?;
        write(&mut self.summary, &bytes.summary)?;
        write(&mut self.page, &bytes.page)
    }

    /// Waits until what was appended is on the disk.
    ///
    /// # Errors
    ///
    /// `NotWritten`.
    fn sync(&self) -> Result<(), ReportFault> {
        for file in [&self.verdicts, &self.summary, &self.page] {
            if file.sync_all().is_err() {
                return Err(ReportFault::NotWritten);
            }
        }
        Ok(())
    }

    /// Gives each file its name, once all are on the disk.
    ///
    /// # Errors
    ///
    /// `Report` with `Present` where one of the names was given to another file meanwhile, or `NotWritten`; `NoMemory`.
    pub fn finish<R: FileHost>(self, rt: &R, folder: &str) -> Result<(), ExitCause> {
        self.sync()?;
        check_folder(rt, folder)?;
        for (number, file) in REPORT_FILES.iter().enumerate() {
            if let Err(ending) = name_file(rt, folder, *file) {
                clear_files(rt, folder, &REPORT_FILES[..number]);
                return Err(ending);
            }
        }
        match sync_names(rt, folder) {
            Ok(()) => Ok(()),
            Err(_) => Err(ExitCause::Report(ReportFault::NotWritten)),
        }
    }
}

/// Gives a file of a report its name.
fn name_file<R: FileHost>(rt: &R, folder: &str, file: ReportFile) -> Result<(), ExitCause> {
    let part = part_path(rt, folder, file)?;
    let path = path_of(rt, folder, file)?;
    match fs::rename(rt, part.as_str(), path.as_str()) {
        Ok(()) => Ok(()),
        Err(_) => Err(ExitCause::Report(ReportFault::NotWritten)),
    }
}

/// Removes files of a report that is given up, if that can be done.
fn clear_files<R: FileHost>(rt: &R, folder: &str, files: &[ReportFile]) {
    for file in files {
        if let Ok(path) = path_of(rt, folder, *file) {
            let _ = fs::remove_file(rt, path.as_str());
        }
    }
}
