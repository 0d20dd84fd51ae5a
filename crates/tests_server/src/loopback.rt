//! Connections over loopback, with a fixed clock.
ghost use Rattle.std.specs.Prelude.{◌≡◌};
ghost use Rattle.mds_request.specs.Configuration.{configuration};
ghost use Rattle.mds_snapshot.specs.Opening.{book_of};
ghost use Rattle.server_state.specs.TurnLists.{books_of, room_book_of};

use mds_request::Config;
use mds_snapshot::{Blank, prepare};
use mds_text::Moment;
use server_admission::Moments;
use server_http::{ConnectionRuntime, Queues, bind_first};
use server_start::{HallService, serve};
use server_state::{Hall, SharedHallName, TurnLists};
use std::alloc::Global;
use std::io::{self, Read, Write};
use std::marker::Brand;
use std::net::{Net, SocketAddr, TcpStream};
use std::process::Abort;
use std::test::Fail;
use std::thread::join;
use tokio::net::TcpListener;
use tokio::runtime::Runtime;

const CONFIGURATION: &[u8] =
    br#"{"author":"city","operators":[{"id":"00000000-0000-4000-8000-0000000000a1","limit":2,"token":"alfa"},{"id":"00000000-0000-4000-8000-0000000000b1","limit":2,"token":"bravo"}],"zone":"Z"}"#;

/// What these tests need of the runtime, besides its sockets.
trait LoopbackRuntime: ConnectionRuntime + Abort {}

impl<R: ConnectionRuntime + Abort> LoopbackRuntime for R {}

/// A request, and the status and the body of its answer.
struct LoopbackExchange {
    line: &'static str,
    token: &'static str,
    body: &'static str,
    status: &'static str,
    answer: &'static str,
}

const SUCCESS: &str = "HTTP/1.1 200 ";

/// A policy is published, and alfa asks for compliance.
const EXCHANGES: &[LoopbackExchange] = &[
    LoopbackExchange {
        line: "PUT /drafts/geographies/00000000-0000-4000-8000-000000000101",
        token: "city",
        body: r#"{"geography_id":"00000000-0000-4000-8000-000000000101","name":"square","geography_json":{"type":"Polygon","coordinates":[[[0,0],[10,0],[10,10],[0,10],[0,0]]]}}"#,
        status: SUCCESS,
        answer: r#"{"result":"new"}"#,
    },
    LoopbackExchange {
        line: "PUT /drafts/policies/00000000-0000-4000-8000-000000000201",
        token: "city",
        body: r#"{"policy_id":"00000000-0000-4000-8000-000000000201","name":"cap","start_date":1000,"rules":[{"rule_id":"00000000-0000-4000-8000-000000000301","name":"cap","rule_type":"count","geographies":["00000000-0000-4000-8000-000000000101"],"maximum":1}]}"#,
        status: SUCCESS,
        answer: r#"{"result":"new"}"#,
    },
    LoopbackExchange {
        line: "POST /publish",
        token: "city",
        body: r#"{"geographies":["00000000-0000-4000-8000-000000000101"],"policies":["00000000-0000-4000-8000-000000000201"]}"#,
        status: SUCCESS,
        answer: r#"{"published_date":2000,"revision":1}"#,
    },
    LoopbackExchange {
        line: "GET /compliance",
        token: "alfa",
        body: "",
        status: SUCCESS,
        answer: r#"{"at":2000,"policies":[{"policy_id":"00000000-0000-4000-8000-000000000201","rules":[{"measure":0,"rule_id":"00000000-0000-4000-8000-000000000301","status":"ok"}]}],"revision":1,"version":2}"#,
    },
];

/// Requests and their answers where the clock gives no moment, which is found before the access
/// token is read.
const AT_NO_MOMENT: &[LoopbackExchange] = &[
    LoopbackExchange {
        line: "GET /policies",
        token: "alfa",
        body: "",
        status: "HTTP/1.1 503 ",
        answer: r#"{"error":"clock"}"#,
    },
    LoopbackExchange {
        line: "GET /policies",
        token: "nobody",
        body: "",
        status: "HTTP/1.1 503 ",
        answer: r#"{"error":"clock"}"#,
    },
];

/// A clock that always gives this moment, or none.
#[derive(Clone, Copy)]
struct FixedClock(Option<Moment>);

impl Moments for FixedClock {
    fn now(&self) -> Option<Moment> {
        self.0
    }
}

/// Requests, and the clock at which they come.
#[derive(Clone, Copy)]
enum Script {
    Published,
    NoMoment,
}

impl Script {
    fn exchanges(self) -> &'static [LoopbackExchange] {
        match self {
            Script::Published => EXCHANGES,
            Script::NoMoment => AT_NO_MOMENT,
        }
    }

    fn clock(self) -> FixedClock {
        match self {
            Script::Published => FixedClock(Moment::new(2000)),
            Script::NoMoment => FixedClock(None),
        }
    }
}

/// A connection, the request to send over it, and what its response must begin and end with.
#[derive(Drop)]
struct LoopbackClient {
    stream: TcpStream,
    request: String,
    status: &'static str,
    answer: String,
}

/// Opens a connection for an exchange.
fn open_client<R: Net<Stream = TcpStream>>(
    rt: &R,
    alloc: Global,
    address: SocketAddr,
    exchange: &LoopbackExchange,
) -> io::Result<LoopbackClient> {
    Ok(LoopbackClient {
        stream: TcpStream::connect(rt, address)?,
        request: format!(in alloc;
            "{} HTTP/1.1\r\nhost: localhost\r\nauthorization: Bearer {}\r\ncontent-length: {}\r\nconnection: close\r\n\r\n{}",
            exchange.line,
            exchange.token,
            exchange.body.len(),
            exchange.body
        )?,
        status: exchange.status,
        answer: format!(in alloc; "\r\n\r\n{}", exchange.answer)?,
    })
}

/// Sends the request, and returns whether the response is the expected one.
fn is_answered(alloc: Global, asked: &mut LoopbackClient) -> io::Result<bool> {
    asked.stream.write_all(asked.request.as_bytes())?;
    let mut answer = Vec::new(alloc);
    asked.stream.read_to_end(&mut answer)?;
    Ok(answer.starts_with(asked.status.as_bytes()) && answer.ends_with(asked.answer.as_bytes()))
}

/// Sends requests one after another, each once the one before is answered. Returns whether all
/// responses are the expected ones.
fn are_answered(alloc: Global, mut clients: Vec<LoopbackClient>) -> bool {
    let mut wanted = true;
    for asked in &mut clients {
        wanted &= matches!(is_answered(alloc, asked), Ok(true));
    }
    wanted
}

/// Opens a connection for each exchange.
fn clients_of<R: Net<Stream = TcpStream>>(
    rt: &R,
    alloc: Global,
    address: SocketAddr,
    exchanges: &[LoopbackExchange],
) -> io::Result<Vec<LoopbackClient>> {
    let mut clients = Vec::with_capacity(alloc, exchanges.len())?;
    for exchange in exchanges {
        clients.push(open_client(rt, alloc, address, exchange)?)?;
    }
    Ok(clients)
}

/// The runtime, the listener of the server, and its clients.
#[derive(Drop)]
struct LoopbackSetup {
    runtime: Runtime,
    listener: TcpListener,
    clients: Vec<LoopbackClient>,
}

/// The runtime with a listener on a free port, and its clients.
fn listen_with_clients<R: Net<Stream = TcpStream>>(
    rt: &R,
    alloc: Global,
    runtime: Runtime,
    exchanges: &[LoopbackExchange],
) -> io::Result<LoopbackSetup> {
    let listener = bind_first(rt, "127.0.0.1:0", runtime.handle().reactor())?;
    let address = listener.local_addr()?;
    let clients = clients_of(rt, alloc, address, exchanges)?;
    Ok(LoopbackSetup {
        runtime,
        listener,
        clients,
    })
}

/// Serves one of the scripts. The hall is made once all else is there, so that no earlier failure
/// leaves one to finish.
fn serve_script<K: SharedHallName, R: LoopbackRuntime>(
    rt: &R,
    scene: LoopbackSetup,
    config: Config,
    blank: Blank,
    lists: TurnLists,
    script: Script,
) -> Result<(), Fail>
    requires book { book_of blank ≡ K.book }
    requires configured { configuration config ≡ K.configuration }
    requires turns { books_of lists ≡ K.turns }
    requires room_turns { room_book_of lists ≡ K.room_turns }
{
    let queues = Queues::new(rt.alloc(), &config)?;
    let hall = Hall::<K>::new(rt, rt.alloc(), config, blank, lists)?;
    let (wanted, served) = send_and_serve(rt, scene, hall, queues, script.clock());
    served?;
    assert!(rt; wanted);
    Ok(())
}

/// Sends the requests, and serves concurrently.
fn send_and_serve<K: SharedHallName, R: LoopbackRuntime>(
    rt: &R,
    scene: LoopbackSetup,
    hall: Hall<K>,
    queues: Queues,
    moments: FixedClock,
) -> (bool, io::Result<()>) {
    let LoopbackSetup {
        mut runtime,
        listener,
        clients,
    } = scene;
    let (alloc, count) = (rt.alloc(), clients.len());
    let reception = HallService::new(*rt, hall, moments);
    join(
        rt,
        move || are_answered(alloc, clients),
        || serve(rt, &mut runtime, listener, reception, queues, Some(count)),
    )
}

/// Runs one of the scripts.
fn run_script<R>(rt: &R, script: Script) -> Result<(), Fail>
where
    R: LoopbackRuntime + Net<Stream = TcpStream>,
{
    let runtime = Runtime::with_worker_threads(rt, 2)?;
    let scene = listen_with_clients(rt, rt.alloc(), runtime, script.exchanges())?;
    let config = Config::read(rt.alloc(), CONFIGURATION)?;
    let blank = prepare(rt.alloc())?;
    let lists = TurnLists::new(rt.alloc(), config.operators().len())?;
    serve_script::<Brand, _>(rt, scene, config, blank, lists, script)
}

/// A policy is published, and an operator asks for compliance.
#[test]
fn answers_over_loopback(rt: HostRuntime) -> Result<(), Fail> {
    run_script(&rt, Script::Published)
}

/// Without a moment each request is answered with `clock`.
#[test]
fn has_no_moment_over_loopback(rt: HostRuntime) -> Result<(), Fail> {
    run_script(&rt, Script::NoMoment)
}
