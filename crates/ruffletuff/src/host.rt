//! The runtimes that the program's parts need.

use journal_commit::Space;
use journal_file::Log;
use server_http::{ConnectionHost, ConnectionRuntime};
use server_journal::JournalHost;
use std::fs::{File, Files};
use std::io::Print;
use std::net::{Net, TcpListener, TcpStream};

/// The runtime of each thread of the program: what the threads of a server have, what a journal's files need, and
/// standard output.
pub trait ThreadHost: ConnectionHost + JournalHost + Print {}

impl ThreadHost for HostRuntime {}

/// The runtime of what serves: that of each thread, with blocking waits and the starting of threads.
pub trait ServerHost: ThreadHost + ConnectionRuntime {}

impl<R: ThreadHost + ConnectionRuntime> ServerHost for R {}

/// The runtime of what opens a city's folder: in addition std's files.
pub trait FolderHost: ServerHost + Files<File = File> {}

impl<R: ServerHost + Files<File = File>> FolderHost for R {}

/// The runtime of the program's commands: in addition std's sockets.
pub trait CommandHost: FolderHost + Net<Listener = TcpListener, Stream = TcpStream> {}

impl<R: FolderHost + Net<Listener = TcpListener, Stream = TcpStream>> CommandHost for R {}

/// A log that the thread which writes it takes over.
pub trait SendLog: Log + Send {}

impl<L: Log + Send> SendLog for L {}

/// The space that records are reserved in, which threads hand on.
pub trait SendSpace: Space + Send {}

impl<S: Space + Send> SendSpace for S {}
