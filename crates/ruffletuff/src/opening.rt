//! Opens a city: its folder, its listener, its journal, its room and desks.
ghost use Rattle.std.specs.Prelude.{◌≡◌, ℕ, List, IfOk, map};
ghost use Rattle.mds_request.specs.Configuration.{configuration};
ghost use Rattle.mds_snapshot.specs.Opening.{book_of};
ghost use Rattle.server_durable.specs.Owners.{client_in};
ghost use Rattle.server_state.specs.TurnLists.{books_of, room_book_of};
ghost use Rattle.journal_recovery.specs.Recovery.{server_of};
ghost use Rattle.server_journal.specs.Starting.{IsStartedFrom};

use crate::admin::AdminState;
use crate::host::{CommandHost, FolderHost, SendLog, SendSpace, ServerHost, ThreadHost};
use crate::journal_exit::report_fault;
use crate::listening::{BoundListener, listen};
use crate::serving::{ServingParts, persist_and_serve};
use cli_args::ServeOptions;
use cli_config::Limits;
use cli_host::{FileHost, MessageHost};
use cli_journal::{ExitCause, clear, ensure_compactions, journal_length, report_cut};
use journal_commit::{Ballast, SharedLogName, UnnamedHistory};
use journal_compaction::{AnswersAgree, ConfigName, SharedConfigName};
use journal_file::{FileStorage, HasLogEnd, Journal, Log};
use journal_folder::{CutFiles, Folder, FolderFault, Folders, begin_journal, open_folder};
use journal_swap::{CompactionSchedule, CompactionSource, Handoff, SwapLog};
use mds_desk::{AuthorRoom, Desk};
use mds_request::Config;
use mds_snapshot::{Blank, prepare};
use mds_text::Id;
use server_control::{Counters, Figure};
use server_http::Queues;
use server_journal::{
    Compactor, FileJournal, JournalHandoff, JournalSwapper, ReportingSpace, dropped_ids, resume,
    run_concurrently,
};
use server_start::workers;
use server_state::{Hall, HallName, SharedHallName, TurnLists};
use std::alloc::{AllocGlobal, Global};
use std::fs::File;
use std::marker::Brand;
use std::sync::{Arc, Wait};
use std::thread::{Threads, available_parallelism};

/// Sets the metric of the journal's bytes.
fn count_bytes<R: FileHost>(rt: &R, folder: &str, counters: &Counters) {
    if let Some(length) = journal_length(rt, folder) {
        counters.set(Figure::JournalBytes, length);
    }
}

/// How many threads serve a city on this machine.
fn threads_for<R: Threads>(rt: &R, config: &Config) -> usize {
    let processors = available_parallelism(rt).map_or(1, |n| n.get());
    workers(processors, config)
}

/// A configuration with its text.
#[derive(Drop)]
pub struct ConfigWithText<'a> {
    /// The configuration.
    pub config: Config,
    /// The text that it was read from.
    pub text: &'a [u8],
}

/// A city that is to be served, with the open files of its folder.
#[derive(Drop)]
struct CityOpening<'a, C: ConfigName> {
    /// The city's folder.
    folder: &'a str,
    /// The folder in which its journals are archived; `None` for nowhere.
    archive: Option<&'a str>,
    /// The listener, and the threads that are to serve its connections.
    listening: BoundListener,
    /// The operator whose entries are left out.
    dropped: Option<Id>,
    config: Config,
    board: AdminState<'a>,
    /// Where the flusher and the compaction hand over.
    meeting: &'a Arc<JournalHandoff<C>>,
    journal: File,
    ballast: File,
}

impl<C: ConfigName> CityOpening<'_, C> {
    /// What swaps the journal's file for compacted ones.
    ///
    /// # Errors
    ///
    /// `Folder` as `JournalSwapper::new`, `NoMemory`.
    fn journal_swapper<R: Folders + AllocGlobal + Copy + Drop>(
        &self,
        rt: &R,
    ) -> Result<JournalSwapper<R, C>, ExitCause> {
        let meeting = Arc::try_clone(self.meeting)?;
        let counters = Arc::try_clone(self.board.shared)?;
        Ok(JournalSwapper::new(*rt, rt.alloc(), self.folder, meeting, counters)?)
    }
}

/// Locks and opens the city of a service's folder, and serves it until it is to end. It listens before the journal is
/// read: connections that come meanwhile wait until the city is open. While it is served its journal is compacted, in a
/// thread of its own, each time that it has grown enough.
///
/// # Errors
///
/// The first fault, in the order in which things are opened: the folder with its files, the listener, the ballast, the
/// journal, what a server starts from; then what ended the server.
pub fn serve_city<'a, R: CommandHost>(
    rt: &R,
    service: &'a ServeOptions<'a>,
    given: ConfigWithText<'a>,
    board: AdminState<'a>,
) -> Result<(), ExitCause> {
    serve_city_as::<Brand, R>(rt, service, given, board)
}

/// The same, by the name of the configuration by which the journal is compacted.
///
/// # Errors
///
/// As `serve_city`.
fn serve_city_as<'a, C: SharedConfigName, R: CommandHost>(
    rt: &R,
    service: &'a ServeOptions<'a>,
    given: ConfigWithText<'a>,
    board: AdminState<'a>,
) -> Result<(), ExitCause>
    requires { given.text.now ≡ C.text }
{
    let ConfigWithText { config, text } = given;
    let Folder {
        lock: _lock,
        journal,
        ballast,
    } = open_folder(rt, rt.alloc(), service.state)?;
    let listening = listen(rt, service.listen, threads_for(rt, &config))?;
    clear(rt, service.state);
    let Ok(meeting) = Arc::new(
        rt.alloc(),
        Handoff::<FileJournal, AnswersAgree<C>>::new(CompactionSchedule::new(service.thin_at)),
    ) else {
        return Err(ExitCause::NoMemory);
    };
    let thinner = Compactor {
        rt: *rt,
        folder: service.state,
        archive: service.archive,
        config: text,
        meeting: &*meeting,
    };
    let opening = CityOpening {
        folder: service.state,
        archive: service.archive,
        listening,
        dropped: service.dropped,
        config,
        board,
        meeting: &meeting,
        journal,
        ballast,
    };
    let ((), served) = run_concurrently(rt, thinner, move || serve_and_close(rt, opening));
    served
}

/// Serves a city whose folder is open, and then ends the compaction of its journal.
///
/// # Errors
///
/// As `serve_city`.
fn serve_and_close<C: SharedConfigName, R: FolderHost>(
    rt: &R,
    opening: CityOpening<'_, C>,
) -> Result<(), ExitCause> {
    let meeting = opening.meeting;
    let served = open_and_serve(rt, opening);
    meeting.close(rt);
    served
}

/// Opens the journal of a city whose folder is open, and serves the city until it is to end.
///
/// # Errors
///
/// As `serve_city`.
fn open_and_serve<C: SharedConfigName, R: FolderHost>(
    rt: &R,
    opening: CityOpening<'_, C>,
) -> Result<(), ExitCause> {
    match opening.journal_swapper(rt) {
        Ok(standing) => serve_with_swaps(rt, opening, standing),
        Err(ending) => Err(ending),
    }
}

/// Opens the journal of a city whose folder is open, and serves the city until it is to end. `beside` swaps the journal's
/// file for compacted ones.
///
/// # Errors
///
/// As `serve_city`.
fn serve_with_swaps<
    C: SharedConfigName,
    B: CompactionSource<FileJournal, AnswersAgree<C>> + Send,
    R: FolderHost,
>(rt: &R, opening: CityOpening<'_, C>, beside: B) -> Result<(), ExitCause> {
    let CityOpening {
        folder,
        archive,
        listening,
        dropped,
        config,
        board,
        meeting: _,
        journal,
        ballast,
    } = opening;
    // Ballast is given back first, so that on a full disk there is room to keep what is cut off the journal.
    let Ok(space) = Ballast::new(ballast) else {
        return Err(ExitCause::Folder(FolderFault::Unusable));
    };
    let dropped = dropped_ids(rt.alloc(), dropped)?;
    let stage = ServingParts {
        folder,
        archive,
        listening,
        dropped: &dropped,
        queues: Queues::new(rt.alloc(), &config)?,
        board,
    };
    let space = ReportingSpace::new(*rt, space);
    serve_journal::<C, B, ReportingSpace<R, Ballast<File>>, R>(
        rt, journal, beside, space, config, stage,
    )
}

/// Reads the journal of a folder, cuts off what wasn't synced, sees to it that what was compacted of it is recorded, and
/// serves its city until it is to end.
///
/// # Errors
///
/// As `serve_city`.
fn serve_journal<
    C: SharedConfigName,
    B: CompactionSource<FileJournal, AnswersAgree<C>> + Send,
    S: SendSpace,
    R,
>(
    rt: &R,
    journal: File,
    beside: B,
    space: S,
    config: Config,
    stage: ServingParts<'_>,
) -> Result<(), ExitCause>
where
    R: FolderHost,
    requires { S.aside space ≡ 0 }
{
    let mut aside = CutFiles::new(*rt, rt.alloc(), stage.folder)?;
    let log = match Journal::recover(rt.alloc(), FileStorage::new(journal), &mut aside) {
        Ok(log) => log,
        Err(fault) => return Err(ExitCause::Folder(FolderFault::from(fault))),
    };
    report_cut(rt, log.cut());
    count_bytes(rt, stage.folder, stage.board.counters);
    ensure_compactions(rt, stage.folder)?;
    serve_swap_log::<C, FileJournal, B, S, R>(rt, log, beside, space, config, stage)
}

/// Starts a server from a log, whose file is swapped from now on for compacted ones by `beside`, and serves it.
///
/// # Errors
///
/// As `serve_opening`, and `NoMemory`.
fn serve_swap_log<
    C: SharedConfigName,
    L: HasLogEnd + Send,
    B: CompactionSource<L, AnswersAgree<C>> + Send,
    S: SendSpace,
    R,
>(
    rt: &R,
    log: L,
    beside: B,
    space: S,
    config: Config,
    stage: ServingParts<'_>,
) -> Result<(), ExitCause>
where
    R: ServerHost,
    requires listed { (first : List (List ℕ)) × L.may_be log first }
    requires space { S.aside space ≡ 0 }
{
    let log = SwapLog::new(rt.alloc(), log, beside);
    serve_log::<SwapLog<L, AnswersAgree<C>, B>, S, R>(rt, log, space, config, stage)
}

/// Starts a server from a log and serves it.
///
/// # Errors
///
/// As `serve_opening`, and `NoMemory`.
fn serve_log<L: SendLog, S: SendSpace, R>(
    rt: &R,
    log: L,
    space: S,
    config: Config,
    stage: ServingParts<'_>,
) -> Result<(), ExitCause>
where
    R: ServerHost,
    requires listed { (first : List (List ℕ)) × L.may_be log first }
    requires space { S.aside space ≡ 0 }
{
    let blank = prepare(rt.alloc())?;
    let lists = TurnLists::new(rt.alloc(), config.operators().len())?;
    let read = read_log(rt.alloc(), log, &config)?;
    serve_opening::<Brand, Brand, L, S, R>(rt, read, space, config, (blank, lists), stage)
}

/// A log, the payloads that it has, and a history that continues it.
#[derive(Drop)]
struct ReadLog<L: Log> {
    log: L,
    texts: Vec<Vec<u8>>,
    history: UnnamedHistory<L>,
}

/// Reads a log, which gets the configuration's head as its first payload where it is empty, and begins a history after
/// what it has.
///
/// # Errors
///
/// `Folder` where the log couldn't be read, begun or continued, or out of memory.
fn read_log<L: Log>(alloc: Global, log: L, config: &Config) -> Result<ReadLog<L>, ExitCause>
    requires { (first : List (List ℕ)) × L.may_be log first }
    ensures { IfOk result (λ read. L.may_be read.log (map (λ t. t.items) read.texts.items)) }
{
    let mut log = log;
    let texts = begin_journal(alloc, &mut log, config)?;
    let Ok(history) = UnnamedHistory::new(&mut log) else {
        return Err(ExitCause::Folder(FolderFault::Unusable));
    };
    Ok(ReadLog {
        log,
        texts,
        history,
    })
}

/// The author's room and the desks, as the server that wrote a journal of these payloads left them: see
/// `server_journal::resume`. Where the limit of an operator is too low for the journal, that is reported.
///
/// # Errors
///
/// As `exit_of` says of `resume`, and `NoMemory`.
fn resume_and_report<K: HallName, R: ThreadHost + Wait>(
    rt: &R,
    texts: Vec<Vec<u8>>,
    config: Config,
    blank: Blank,
    dropped: &[Id],
    counters: &Counters,
) -> Result<(AuthorRoom<K>, Vec<Desk<K>>), ExitCause>
    requires book { book_of blank ≡ K.book }
    ensures { IfOk result (λ r. IsStartedFrom (configuration config) dropped.now (map (λ t. t.items) texts.items)
        (server_of r.0 r.1.items)) }
{
    let limits = Limits::of(rt.alloc(), &config)?;
    match resume::<K, R>(rt, &texts, config, blank, dropped, counters) {
        Ok(resumed) => Ok(resumed),
        Err(fault) => Err(report_fault(rt, &limits, &fault)),
    }
}

/// Starts a server from what a log has, under the names of one opening, of its desks' lists and of the log, and serves it.
///
/// # Errors
///
/// As `resume_and_report`, or as `persist_and_serve`.
fn serve_opening<K: SharedHallName, N: SharedLogName, L: SendLog, S: SendSpace, R>(
    rt: &R,
    read: ReadLog<L>,
    space: S,
    config: Config,
    opened: (Blank, TurnLists),
    stage: ServingParts<'_>,
) -> Result<(), ExitCause>
where
    R: ServerHost,
    requires book { book_of opened.0 ≡ K.book }
    requires configured { configuration config ≡ K.configuration }
    requires turns { books_of opened.1 ≡ K.turns }
    requires room_turns { room_book_of opened.1 ≡ K.room_turns }
    requires history { read.history.seen.book ≡ N.book }
    requires clients { N.client_of ≡ client_in K.configuration }
    requires first { map (λ t. t.items) read.texts.items ≡ N.first }
    requires listed { L.may_be read.log N.first }
    requires space { S.aside space ≡ 0 }
{
    let ReadLog {
        log,
        texts,
        history,
    } = read;
    let (blank, lists) = opened;
    let counters = stage.board.counters;
    let (room, desks) = resume_and_report::<K, R>(
        rt,
        texts,
        config,
        blank,
        stage.dropped,
        counters,
    )?;
    let hall = Hall::<K>::of(rt, rt.alloc(), room, desks, lists)?;
    let folder = stage.folder;
    let end = persist_and_serve::<K, N, L, S, R>(rt, hall, history, log, space, stage)?;
    if end.is_none() {
        warn_not_compared(rt, folder);
    }
    Ok(())
}

/// Warns that the journal wasn't compared with what was answered, as where a connection outlasts the server.
fn warn_not_compared<R: MessageHost>(rt: &R, folder: &str) {
    let message = ExitCause::NotWhole.message();
    let _ = eprintln!(rt; "{message}: {folder}");
}
