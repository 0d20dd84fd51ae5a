//! Compacts the journal of a city while the city is served.
ghost use Rattle.std.specs.Prelude.{◌≡◌};

use crate::file_swap::{FileJournal, JournalHandoff};
use crate::host::CompactorHost;
use crate::thread_job::ThreadJob;
use journal_compaction::{
    AnswersAgree, CompactFault, ConfigName, JournalPrefix, check_empty, compact_prefix,
    record_compacted,
};
use journal_file::{FileStorage, Journal, LogEnd};
use journal_folder::{CompactedJournal, FolderFault, archive_compacted, lock_file};
use journal_swap::{CatchUpFault, CompactedLog, is_small_lag};
use mds_text::Moment;
use server_admission::{MachineClock, Moments};
use std::alloc::{AllocError, Global};
use std::fs::File;
use std::io::Read;

/// How often a compacted journal is brought up to date, at the most, until it lacks little.
const MOST_ROUNDS: u32 = 16;

/// Why no compacted journal is offered.
#[derive(Clone, Copy)]
enum NotOffered {
    /// The server is to end.
    Closed,
    /// The journal can't be compacted.
    Fault(CompactFault),
}

impl From<CompactFault> for NotOffered {
    fn from(fault: CompactFault) -> NotOffered {
        NotOffered::Fault(fault)
    }
}

/// Compacts the journal of a city's folder while the city is served, in a thread of its own: it waits until the journal
/// is due, writes a shorter one next to it, as `journal_compaction` does, archives the journal where that is asked for,
/// brings the shorter one up to what is appended meanwhile, records the compaction in the folder, and hands the shorter
/// journal to the flusher.
#[derive(Drop)]
pub struct Compactor<'a, R, C: ConfigName> {
    /// The runtime, by which it waits for locks.
    pub rt: R,
    /// The city's folder.
    pub folder: &'a str,
    /// The folder in which a journal is archived before a compacted one takes its place; `None` for nowhere.
    pub archive: Option<&'a str>,
    /// The text of the configuration of this name.
    pub config: &'a [u8],
    /// Where the compacted journal is handed over.
    pub meeting: &'a JournalHandoff<C>,
    ghost named: { config.now ≡ C.text },
}

/// The next `count` bytes of a file.
///
/// # Errors
///
/// `NoMemory`, or `Folder` where they can't be read.
fn next_bytes(alloc: Global, file: &mut File, count: u64) -> Result<Vec<u8>, CompactFault> {
    let mut bytes = vec![in alloc; 0u8; count as usize]?;
    match file.read_exact(&mut bytes) {
        Ok(()) => Ok(bytes),
        Err(_) => Err(CompactFault::Folder(FolderFault::Unusable)),
    }
}

/// Why a compacted journal that can't be brought up to date isn't offered.
fn catching_fault(fault: CatchUpFault) -> CompactFault {
    match fault {
        CatchUpFault::Damaged => CompactFault::Folder(FolderFault::Unusable),
        CatchUpFault::NoMemory => CompactFault::NoMemory,
        CatchUpFault::NotWritten | CatchUpFault::NotKept => CompactFault::NotWritten,
    }
}

impl<R: CompactorHost, C: ConfigName> Compactor<'_, R, C> {
    /// The path of a file in the folder.
    fn path(&self, name: &str) -> Result<String, AllocError> {
        format!(in self.rt.alloc(); "{}/{name}", self.folder)
    }

    /// The moment at which servers from both journals are asked: that of the machine's clock, or else the Unix epoch,
    /// since nothing that is asked depends on it.
    fn moment(&self) -> Moment {
        match MachineClock(self.rt).now() {
            Some(now) => now,
            None => Moment::new(0).unwrap(),
        }
    }

    /// Opens the journal's file.
    fn journal(&self) -> Result<File, CompactFault> {
        let path = self.path("journal")?;
        match self.rt.open(path.as_str()) {
            Ok(file) => Ok(file),
            Err(_) => Err(CompactFault::Folder(FolderFault::Unusable)),
        }
    }

    /// Makes the compacted journal's file, empty. It is locked before it gets the journal's name, so that whoever opens
    /// the journal finds a locked file.
    fn create_compacted(&self) -> Result<File, CompactFault> {
        let path = self.path("journal.thinned")?;
        let Ok(file) = self.rt.make(path.as_str()) else {
            return Err(CompactFault::NotWritten);
        };
        match lock_file(&file) {
            Ok(()) => Ok(file),
            Err(_) => Err(CompactFault::NotWritten),
        }
    }

    /// Removes what is left of a compacted journal, if that can be done.
    fn clear(&self) {
        if let Ok(path) = self.path("journal.thinned") {
            let _ = self.rt.remove(path.as_str());
        }
    }

    /// A compacted journal of what a journal's file has up to a log end, and what is to be recorded of its compaction.
    /// The journal is archived, where that is asked for, once the two are compared: what is appended behind it comes to
    /// stand in the compacted journal.
    fn shorten(
        &self,
        file: &mut File,
        seal: LogEnd,
    ) -> Result<
        (
            CompactedLog<FileJournal, AnswersAgree<C>>,
            Option<CompactedJournal>,
        ),
        CompactFault,
    > {
        let alloc = self.rt.alloc();
        let bytes = next_bytes(alloc, file, seal.position)?;
        let log = match Journal::open(alloc, FileStorage::new(self.create_compacted()?)) {
            Ok(log) => check_empty(log)?,
            Err(_) => return Err(CompactFault::NotWritten),
        };
        let front = JournalPrefix {
            config: self.config,
            bytes: &bytes,
            seal,
            at: self.moment(),
        };
        let shorter = compact_prefix(&self.rt, alloc, &front, log)?;
        let compacted = archive_compacted(&self.rt, alloc, self.archive, &bytes)?;
        Ok((shorter, compacted))
    }

    /// Brings a compacted journal up to the log end at which the journal is synced next, and gives how many bytes it
    /// lacked.
    fn bring_up(
        &self,
        file: &mut File,
        shorter: CompactedLog<FileJournal, AnswersAgree<C>>,
    ) -> Result<(CompactedLog<FileJournal, AnswersAgree<C>>, u64), NotOffered> {
        let alloc = self.rt.alloc();
        self.meeting.request_log_end(&self.rt);
        let Some(to) = self.meeting.next(&self.rt) else {
            return Err(NotOffered::Closed);
        };
        let lacking = to.position.saturating_sub(shorter.log_end().position);
        let bytes = next_bytes(alloc, file, lacking)?;
        match shorter.catch_up(alloc, to, &bytes) {
            Ok(shorter) => Ok((shorter, lacking)),
            Err(fault) => Err(NotOffered::Fault(catching_fault(fault))),
        }
    }

    /// Makes a compacted journal of what the journal has up to a log end, brings it up to date until it lacks little,
    /// or often enough, records the compaction, and offers the compacted journal. Gives the journal's file, which is to
    /// stay open until the compacted one has its place: whoever closes it last frees its room on the disk.
    fn offer(&self, seal: LogEnd) -> Result<File, NotOffered> {
        let mut file = self.journal()?;
        let (mut shorter, compacted) = self.shorten(&mut file, seal)?;
        for _ in 0..MOST_ROUNDS {
            let (further, lacked) = self.bring_up(&mut file, shorter)?;
            shorter = further;
            if is_small_lag(lacked) {
                break;
            }
        }
        record_compacted(&self.rt, self.rt.alloc(), self.folder, &compacted)?;
        self.meeting.offer(&self.rt, shorter);
        Ok(file)
    }

    /// Compacts what the journal has up to a log end. What can't be finished is removed, and the outcome is reported.
    fn compact_up_to(&self, seal: LogEnd) {
        match self.offer(seal) {
            Ok(_file) => match self.meeting.wait_outcome(&self.rt) {
                Some(true) => {
                    let _ = eprintln!(self.rt; "ruffletuff: the journal is thinned");
                }
                Some(false) => {
                    self.clear();
                    let _ = eprintln!(self.rt;
                        "ruffletuff: the journal isn't thinned: too much was appended meanwhile, or it can't be written"
                    );
                }
                None => self.clear(),
            },
            Err(NotOffered::Closed) => self.clear(),
            Err(NotOffered::Fault(fault)) => {
                self.clear();
                self.meeting.report_outcome(&self.rt, false, seal.position);
                self.report_fault(&fault);
            }
        }
    }

    /// Reports why the journal can't be compacted.
    fn report_fault(&self, fault: &CompactFault) {
        let _ = eprintln!(self.rt; "ruffletuff: the journal isn't thinned: {fault}");
    }
}

impl<R: CompactorHost, C: ConfigName> ThreadJob for Compactor<'_, R, C> {
    type Outcome = ();

    fn run(self) {
        for _ in self.rt.forever() {
            let Some(seal) = self.meeting.next(&self.rt) else {
                return;
            };
            self.compact_up_to(seal);
        }
    }
}
