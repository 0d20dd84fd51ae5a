//! Opening files to read them.
ghost use Rattle.std.specs.Prelude.{◌≡◌};
ghost use Rattle.cli_transfer.specs.Openings.{is_given_open, is_opened};

use std::fs::{self, File, Files};

/// The beginning of the path of a file that is open already, as a shell's `<(..)` has it.
const OPEN_FILES: &str = "/dev/fd/";

/// The path of standard input.
const STANDARD_INPUT: &str = "/dev/stdin";

/// Why a file isn't opened.
#[derive(Clone, Copy, Debug, PartialEq, Eq)]
pub enum FileOpenFault {
    /// It is a FIFO, a socket, a device or a folder: to open it, or to read it, might never end.
    NotRegular,
    /// It isn't there, or may not be read.
    Unreadable,
}

/// Whether a path names a file that was opened for the program by whoever started it.
fn is_given_open(path: &str) -> bool
    ensures { result ≡ is_given_open path.now }
{
    path == STANDARD_INPUT || path.starts_with(OPEN_FILES)
}

/// Whether the file of a path may be opened: a regular one, or one that the program was given open.
fn is_opened(path: &str, is_regular: bool) -> bool
    ensures { result ≡ is_opened path.now is_regular }
{
    is_regular || is_given_open(path)
}

/// Opens a file to read it.
///
/// # Errors
///
/// As `FileOpenFault` says.
pub(crate) fn open_source<R: Files<File = File>>(
    rt: &R,
    path: &str,
) -> Result<File, FileOpenFault> {
    match fs::metadata(rt, path) {
        Ok(metadata) if !is_opened(path, metadata.is_file()) => Err(FileOpenFault::NotRegular),
        Ok(_) => match File::open(rt, path) {
            Ok(file) => Ok(file),
            Err(_) => Err(FileOpenFault::Unreadable),
        },
        Err(_) => Err(FileOpenFault::Unreadable),
    }
}

impl FileOpenFault {
    /// The fault in words.
    pub(crate) fn words(self) -> &'static str {
        match self {
            FileOpenFault::NotRegular => "it isn't a regular file",
            FileOpenFault::Unreadable => "it can't be read",
        }
    }
}
