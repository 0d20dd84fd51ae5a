//! What the commands on a city's folder need of the machine.

use cli_host::{FileHost, MessageHost};
use journal_folder::Folders;
use std::io::Print;
use std::sync::Wait;
use std::time::Clock;

/// What `check` and `audit` need: files and standard output.
pub trait ReadHost: FileHost + Print {}

impl<R: FileHost + Print> ReadHost for R {}

/// What `thin` needs: in addition standard error, file operations by path, the clock, and blocking waits.
pub trait ThinHost: ReadHost + MessageHost + Folders + Clock + Wait {}

impl<R: ReadHost + MessageHost + Folders + Clock + Wait> ThinHost for R {}
