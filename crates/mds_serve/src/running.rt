//! From the arguments and the configuration to the last connection.
ghost use Rattle.std.specs.Prelude.{◌≡◌, ◌<◌};
ghost use Rattle.mds_request.specs.Configuration.{configuration};
ghost use Rattle.mds_snapshot.specs.Opening.{book_of};
ghost use Rattle.server_state.specs.TurnLists.{books_of, room_book_of};

use crate::arguments::{Arguments, read_words};
use crate::configuration::read_configuration;
use crate::failure::StartFailure;
use crate::runtime::ServerRuntime;
use mds_request::Config;
use mds_snapshot::{Blank, prepare};
use server_admission::MachineClock;
use server_http::{Queues, bind_first};
use server_start::{
    HELP, HallService, ServeCommand, ServeFault, VERSION, command_of, serve, workers,
};
use server_state::{Hall, SharedHallName, TurnLists};
use std::env::Env;
use std::io::{self, Input};
use std::marker::Brand;
use std::thread::available_parallelism;
use tokio::runtime::Runtime;

/// Reads the arguments, and says how the program is called, says its version, or serves.
///
/// # Errors
///
/// The first fault, in the order of `ServeFault`'s cases.
pub fn run<R: ServerRuntime + Env + Input>(rt: &R) -> Result<(), StartFailure> {
    let words = read_words(rt)?;
    match command_of(&words) {
        Some(ServeCommand::Help) => {
            let _ = print!(rt; "{}", HELP);
            Ok(())
        }
        Some(ServeCommand::Version) => {
            let _ = println!(rt; "mds_serve {}", VERSION);
            Ok(())
        }
        Some(
            ServeCommand::Serve {
                address,
                connections,
            },
        ) => {
            let arguments = Arguments {
                address,
                connections,
            };
            let config = read_configuration(rt.alloc(), rt.reader())?;
            Ok(prepare_and_serve(rt, arguments, config)?)
        }
        None => Err(StartFailure::from(ServeFault::Usage)),
    }
}

/// Opens the server and serves.
fn prepare_and_serve<R: ServerRuntime>(
    rt: &R,
    arguments: Arguments<'_>,
    config: Config,
) -> Result<(), ServeFault> {
    let blank = prepare(rt.alloc())?;
    let lists = TurnLists::new(rt.alloc(), config.operators().len())?;
    open::<Brand, R>(rt, arguments, config, blank, lists)
}

/// Opens a hall, serves and ends it.
fn open<K: SharedHallName, R: ServerRuntime>(
    rt: &R,
    arguments: Arguments<'_>,
    config: Config,
    blank: Blank,
    lists: TurnLists,
) -> Result<(), ServeFault>
    requires book { book_of blank ≡ K.book }
    requires configured { configuration config ≡ K.configuration }
    requires turns { books_of lists ≡ K.turns }
    requires room_turns { room_book_of lists ≡ K.room_turns }
{
    let queues = Queues::new(rt.alloc(), &config)?;
    let processors = available_parallelism(rt).map_or(1, |n| n.get());
    let threads = workers(processors, &config);
    let hall = Hall::<K>::new(rt, rt.alloc(), config, blank, lists)?;
    match listen(rt, threads, arguments, hall, queues, MachineClock(*rt)) {
        Ok(()) => Ok(()),
        Err(_) => Err(ServeFault::NoListener),
    }
}

/// Binds, says so, serves by so many threads and ends the hall.
fn listen<K: SharedHallName, R: ServerRuntime>(
    rt: &R,
    threads: usize,
    arguments: Arguments<'_>,
    hall: Hall<K>,
    queues: Queues,
    moments: MachineClock<R>,
) -> io::Result<()>
    requires { 0 < threads }
{
    let mut runtime = Runtime::with_worker_threads(rt, threads)?;
    let listener = bind_first(rt, arguments.address, runtime.handle().reactor())?;
    let _ = println!(rt; "ready");
    let reception = HallService::new(*rt, hall, moments);
    serve(
        rt,
        &mut runtime,
        listener,
        reception,
        queues,
        arguments.connections,
    )
}
