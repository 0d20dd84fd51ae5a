//! Tests of the control port over loopback.
use server_control::{
    CallKind, Control, ControlAnswer, ControlClientRuntime, ControlHead, ControlReply, Counters,
    Figure, Fleet, Hosts, Port, StopServer, control_head_of, metrics, reply_due, serve_control,
    stop,
};
use std::alloc::{AllocError, Global};
use std::fs;
use std::fs::Files;
use std::io::{self, Read, Write};
use std::net::{SocketAddr, TcpStream};
use std::os::unix::fs::PermissionsExt;
use std::os::unix::net::{UnixListener, UnixStream};
use std::process::Abort;
use std::sync::Arc;
use std::sync::atomic::{AtomicBool, AtomicU64, Ordering};
use std::test::Fail;
use std::thread::join;
use std::time::{Clock, Duration, Instant};

/// A server that notes that it is to stop.
#[derive(Drop)]
struct Noted(AtomicBool);

impl StopServer for Noted {
    fn stop(&self) {
        self.0.store(true, Ordering::SeqCst);
    }
}

/// Counters of a server without connections and operators.
fn zero_counters(alloc: Global) -> Result<Counters, AllocError> {
    let connections = Arc::new(alloc, AtomicU64::new(0))?;
    Counters::new(alloc, connections, Vec::new(alloc))
}

/// A reply with a body.
fn reply(answer: ControlAnswer) -> ControlReply {
    ControlReply {
        answer,
        has_body: true,
    }
}

/// What is replied to a request of these lines at `127.0.0.1:9090`, which has the name `city` too.
fn heading_in(alloc: Global, lines: &str) -> Result<ControlHead, AllocError> {
    let hosts = Hosts::new(alloc, "0.0.0.0", "127.0.0.1", 9090, Some("City.Example"))?;
    Ok(control_head_of(lines.as_bytes(), &hosts, true))
}

/// Heads, and what is answered to each.
const HEADS: &[(&str, ControlAnswer)] = &[
    (
        "GET /healthz HTTP/1.1\r\nhOsT: 127.0.0.1:9090\r\n\r\n",
        ControlAnswer::Healthy,
    ),
    (
        "GET /healthz HTTP/1.1\r\nhOsT: 127.0.0.1\r\n\r\n",
        ControlAnswer::Healthy,
    ),
    (
        "GET /healthz HTTP/1.1\r\nhOsT: 0.0.0.0:9090\r\n\r\n",
        ControlAnswer::Healthy,
    ),
    (
        "GET /healthz HTTP/1.1\r\nhOsT: localhost:9090\r\n\r\n",
        ControlAnswer::Healthy,
    ),
    (
        "GET /healthz HTTP/1.1\r\nhOsT: LOCALHOST \t\r\n\r\n",
        ControlAnswer::Healthy,
    ),
    (
        "GET /healthz HTTP/1.1\r\nhOsT: city.example\r\n\r\n",
        ControlAnswer::Healthy,
    ),
    (
        "GET /healthz HTTP/1.1\r\nhOsT: city.example:9090\r\n\r\n",
        ControlAnswer::Healthy,
    ),
    // Another host.
    (
        "POST /stop HTTP/1.1\r\nhost: \r\n\r\n",
        ControlAnswer::Forbidden,
    ),
    (
        "POST /stop HTTP/1.1\r\nhost: evil.example\r\n\r\n",
        ControlAnswer::Forbidden,
    ),
    (
        "POST /stop HTTP/1.1\r\nhost: evil.example:9090\r\n\r\n",
        ControlAnswer::Forbidden,
    ),
    (
        "POST /stop HTTP/1.1\r\nhost: 127.0.0.1:9091\r\n\r\n",
        ControlAnswer::Forbidden,
    ),
    (
        "POST /stop HTTP/1.1\r\nhost: 127.0.0.1:\r\n\r\n",
        ControlAnswer::Forbidden,
    ),
    (
        "POST /stop HTTP/1.1\r\nhost: 127.0.0.2:9090\r\n\r\n",
        ControlAnswer::Forbidden,
    ),
    (
        "POST /stop HTTP/1.1\r\nhost: localhost.evil.example\r\n\r\n",
        ControlAnswer::Forbidden,
    ),
    (
        "POST /stop HTTP/1.1\r\nhost: city.example.\r\n\r\n",
        ControlAnswer::Forbidden,
    ),
    (
        "POST /stop HTTP/1.1\r\nhost: 127.0.0.1:9090, evil.example\r\n\r\n",
        ControlAnswer::Forbidden,
    ),
    // One host is wanted, of HTTP/1.1 at least.
    ("GET /healthz HTTP/1.1\r\n\r\n", ControlAnswer::Unread),
    ("GET /healthz HTTP/1.0\r\n\r\n", ControlAnswer::Healthy),
    (
        "GET /healthz HTTP/1.1\r\nhost: localhost\r\nHost: localhost\r\n\r\n",
        ControlAnswer::Unread,
    ),
    (
        "GET /healthz HTTP/1.0\r\nhost: evil.example\r\n\r\n",
        ControlAnswer::Forbidden,
    ),
    (
        "GET /healthz HTTP/1.1\nhost: localhost\n\n",
        ControlAnswer::Healthy,
    ),
];

/// Checks what is replied to a head.
fn expect_head(rt: &impl Abort, alloc: Global, lines: &str, wanted: ControlHead) {
    let found = heading_in(alloc, lines).expect(rt, "memory");
    assert!(rt; found == wanted, "{lines}");
}

/// Checks what is replied to a head at a Unix socket.
fn expect_anywhere(rt: &impl Abort, lines: &str, wanted: ControlHead) {
    let found = control_head_of(lines.as_bytes(), &Hosts::Any, true);
    assert!(rt; found == wanted, "{lines}");
}

#[test]
fn heads_are_answered(rt: HostRuntime) {
    for &(lines, wanted) in HEADS {
        let wanted = ControlHead::Whole(reply(wanted));
        expect_head(&rt, rt.alloc(), lines, wanted);
    }
}

/// Fields that a browser sends for a page.
const FIELDS_OF_A_PAGE: &[&str] = &[
    "POST /stop HTTP/1.1\r\nhost: localhost\r\nOrigin: http://evil.example\r\n\r\n",
    "POST /stop HTTP/1.1\r\nhost: localhost\r\nORIGIN: null\r\n\r\n",
    "POST /stop HTTP/1.1\r\nhost: localhost\r\norigin:\r\n\r\n",
    "POST /stop HTTP/1.1\r\nhost: localhost\r\nSec-Fetch-Site: cross-site\r\n\r\n",
    "POST /stop HTTP/1.1\r\nhost: localhost\r\nsec-fetch-site: same-origin\r\n\r\n",
];

/// A page is refused whatever the hosts.
#[test]
fn refuses_a_page(rt: HostRuntime) {
    let wanted = ControlHead::Whole(reply(ControlAnswer::Forbidden));
    for lines in FIELDS_OF_A_PAGE {
        expect_head(&rt, rt.alloc(), lines, wanted);
        expect_anywhere(&rt, lines, wanted);
    }
}

/// At a Unix socket no host is wanted.
#[test]
fn wants_no_host_where_any_is_right(rt: HostRuntime) {
    let wanted = ControlHead::Whole(reply(ControlAnswer::Healthy));
    expect_anywhere(&rt, "GET /healthz HTTP/1.1\r\n\r\n", wanted);
}

/// Heads of HEAD, and what is answered to each.
const BARE_HEADS: &[(&str, ControlAnswer)] = &[
    ("HEAD /healthz HTTP/1.0\r\n\r\n", ControlAnswer::Healthy),
    ("HEAD /lost HTTP/1.0\r\n\r\n", ControlAnswer::NotFound),
    ("HEAD /healthz HTTP/1.1\r\n\r\n", ControlAnswer::Unread),
];

/// HEAD is answered as GET, without a body (RFC 9110, section 9.3.2).
#[test]
fn sends_no_body_to_a_head(rt: HostRuntime) {
    for &(lines, answer) in BARE_HEADS {
        let wanted = ControlReply {
            answer,
            has_body: false,
        };
        let whole = ControlHead::Whole(wanted);
        expect_head(&rt, rt.alloc(), lines, whole);
        assert!(rt; reply_due(whole, 26, false) == Some(wanted));
    }
}

#[test]
fn heads_that_are_not_whole(rt: HostRuntime) {
    let part = "GET /healthz HTTP/1.1\nhost: localhost\n";
    expect_head(&rt, rt.alloc(), part, ControlHead::Partial);
    expect_head(&rt, rt.alloc(), "GET\r\n\r\n", ControlHead::Broken);
}

/// Heads that aren't waited for, the bytes of each, and whether it comes no further.
const UNREAD_HEADS: &[(ControlHead, usize, bool)] = &[
    (ControlHead::Partial, 8193, false),
    (ControlHead::Partial, 10, true),
    (ControlHead::Broken, 10, false),
];

#[test]
fn waits_for_the_rest_of_a_head(rt: HostRuntime) {
    assert!(rt; reply_due(ControlHead::Partial, 8192, false).is_none());
    for &(heading, count, is_over) in UNREAD_HEADS {
        assert!(rt; reply_due(heading, count, is_over) == Some(reply(ControlAnswer::Unread)));
    }
}

/// The response to one head.
fn reply_to<R: ControlClientRuntime>(
    rt: &R,
    address: SocketAddr,
    head: &str,
) -> io::Result<Vec<u8>> {
    let mut stream = TcpStream::connect(rt, address)?;
    stream.write_all(head.as_bytes())?;
    let mut reply = Vec::new(rt.alloc());
    stream.read_to_end(&mut reply)?;
    Ok(reply)
}

const HEALTH: &str = "GET /healthz HTTP/1.1\r\nhost: localhost\r\n\r\n";

/// Whether the response to this head begins and ends so.
fn is_replied<R: ControlClientRuntime>(
    rt: &R,
    address: SocketAddr,
    head: &str,
    begin: &[u8],
    end: &[u8],
) -> io::Result<bool> {
    let reply = reply_to(rt, address, head)?;
    Ok(reply.starts_with(begin) && reply.ends_with(end))
}

/// Requests that are refused, and how the response to each begins.
const REFUSED: &[(&str, &[u8])] = &[
    ("GET /lost HTTP/1.0\r\n\r\n", b"HTTP/1.1 404 "),
    ("GET /stop HTTP/1.0\r\n\r\n", b"HTTP/1.1 405 "),
    ("GET /stop\r\n\r\n", b"HTTP/1.1 400 "),
    (
        "POST /stop HTTP/1.1\r\nhost: evil.example\r\n\r\n",
        b"HTTP/1.1 403 ",
    ),
];

/// Whether each of these requests is refused.
fn are_refused<R: ControlClientRuntime>(rt: &R, address: SocketAddr) -> io::Result<bool> {
    for &(head, begin) in REFUSED {
        if !is_replied(rt, address, head, begin, b"")? {
            return Ok(false);
        }
    }
    Ok(true)
}

/// Whether HEAD is answered as GET is, without the body.
fn is_bare<R: ControlClientRuntime>(rt: &R, address: SocketAddr) -> io::Result<bool> {
    let served = reply_to(rt, address, HEALTH)?;
    let bare = reply_to(rt, address, "HEAD /healthz HTTP/1.0\r\n\r\n")?;
    Ok(served.strip_suffix(b"ok\n".as_slice()) == Some(bare.as_slice()))
}

/// The head of a request for the metrics.
const METRICS: &str = "GET /metrics HTTP/1.0\r\n\r\n";

/// The last line of the metrics where nothing was answered.
const LAST_COUNT: &[u8] = b"\nruffletuff_answer_milliseconds_count 0\n";

/// Whether each request has its response while the server serves.
fn are_served<R: ControlClientRuntime>(rt: &R, address: SocketAddr) -> io::Result<bool> {
    let is_healthy = is_replied(rt, address, HEALTH, b"HTTP/1.1 200 ", b"\r\n\r\nok\n")?;
    let is_bare = is_bare(rt, address)?;
    let is_counted = is_replied(rt, address, METRICS, b"HTTP/1.1 200 ", LAST_COUNT)?;
    Ok(is_healthy && is_bare && is_counted && are_refused(rt, address)?)
}

/// Whether each request has its response.
fn are_right<R: ControlClientRuntime>(
    rt: &R,
    address: SocketAddr,
    control: &Control,
) -> io::Result<bool> {
    let is_early = is_replied(rt, address, HEALTH, b"HTTP/1.1 503 ", b"")?;
    control.set_serving();
    let are_served = are_served(rt, address)?;
    let stops = stop(rt, format!(in rt.alloc(); "{address}")?.as_str())?;
    let is_late = is_replied(rt, address, HEALTH, b"HTTP/1.1 503 ", b"")?;
    Ok(is_early && are_served && stops && is_late)
}

#[test]
fn answers_and_stops(rt: HostRuntime) -> Result<(), Fail> {
    let mut port = Port::bind(&rt, "127.0.0.1:0", None)?;
    let (address, waker) = (port.local_addr()?, port.waker()?);
    let counters = zero_counters(rt.alloc())?;
    let control = Control::new();
    let noted = Noted(AtomicBool::new(false));
    let (right, ()) = join(
        &rt,
        || {
            let right = are_right(&rt, address, &control);
            control.end(&waker);
            right
        },
        || serve_control(&rt, &mut port, &control, &counters, &noted),
    );
    assert!(rt; right?);
    assert!(rt; noted.0.load(Ordering::SeqCst));
    Ok(())
}

/// How long a request takes next to so many connections that send nothing.
fn time_next_to<R: ControlClientRuntime + Clock>(
    rt: &R,
    address: SocketAddr,
    count: usize,
) -> io::Result<Duration> {
    let mut idle = Vec::new(rt.alloc());
    for _ in 0..count {
        idle.push(TcpStream::connect(rt, address)?)?;
    }
    let begin = Instant::now(rt)?;
    reply_to(rt, address, HEALTH)?;
    begin.elapsed(rt)
}

#[test]
fn answers_beside_idle_connections(rt: HostRuntime) -> Result<(), Fail> {
    let mut port = Port::bind(&rt, "127.0.0.1:0", None)?;
    let (address, waker) = (port.local_addr()?, port.waker()?);
    let counters = zero_counters(rt.alloc())?;
    let control = Control::new();
    let noted = Noted(AtomicBool::new(false));
    let (times, ()) = join(
        &rt,
        || {
            let times = (
                time_next_to(&rt, address, 50),
                time_next_to(&rt, address, 200),
            );
            control.end(&waker);
            times
        },
        || serve_control(&rt, &mut port, &control, &counters, &noted),
    );
    let limit = Duration::from_secs(1);
    assert!(rt; times.0? < limit);
    assert!(rt; times.1? < limit);
    Ok(())
}

/// The path of a Unix socket that is listened at.
const SOCKET: &str = "unix:control.sock";

/// Whether a Unix socket is its owner's alone, is reached whatever the host, and stops the server.
fn is_right_at_socket<R: ControlClientRuntime + Files>(rt: &R) -> io::Result<bool> {
    let mode = fs::symlink_metadata(rt, "control.sock")?
        .permissions()
        .mode();
    let mut stream = UnixStream::connect(rt, "control.sock")?;
    stream.write_all(b"GET /healthz HTTP/1.1\r\nhost: any\r\n\r\n")?;
    let mut reply = Vec::new(rt.alloc());
    stream.read_to_end(&mut reply)?;
    Ok(mode & 0o777 == 0o600 && reply.starts_with(b"HTTP/1.1 503 ") && stop(rt, SOCKET)?)
}

#[test]
fn listens_at_a_socket(rt: HostRuntime) -> Result<(), Fail> {
    let abandoned = UnixListener::bind(&rt, "control.sock")?;
    drop(abandoned);
    let mut port = Port::bind(&rt, SOCKET, None)?;
    assert!(rt; Port::bind(&rt, SOCKET, None).is_err());
    let waker = port.waker()?;
    let counters = zero_counters(rt.alloc())?;
    let control = Control::new();
    let noted = Noted(AtomicBool::new(false));
    let (right, ()) = join(
        &rt,
        || {
            let right = is_right_at_socket(&rt);
            control.end(&waker);
            right
        },
        || serve_control(&rt, &mut port, &control, &counters, &noted),
    );
    fs::remove_file(&rt, "control.sock")?;
    assert!(rt; right?);
    assert!(rt; noted.0.load(Ordering::SeqCst));
    Ok(())
}

/// The text of the metrics.
fn metrics_text(rt: &impl Abort, alloc: Global, counters: &Counters) -> String {
    let lines = counters.lines(alloc).expect(rt, "memory");
    metrics(alloc, &lines).expect(rt, "memory")
}

/// Whether a text has this line.
fn has_line(text: &str, line: &str) -> bool {
    text.lines().any(|found| found == line)
}

/// Checks that the metrics have these lines.
fn expect_lines(rt: &impl Abort, alloc: Global, counters: &Counters, lines: &[&str]) {
    let text = metrics_text(rt, alloc, counters);
    for line in lines {
        assert!(rt; has_line(text.as_str(), line), "{line}");
    }
}

/// The metrics of a server that has counted nothing.
const NOTHING_COUNTED: &str = "\
# HELP ruffletuff_connections connections that are open\n\
# TYPE ruffletuff_connections gauge\n\
ruffletuff_connections 0\n\
# HELP ruffletuff_requests_total requests answered, by kind and class of status\n\
# TYPE ruffletuff_requests_total counter\n\
ruffletuff_requests_total{call=\"read\",status=\"2xx\"} 0\n\
ruffletuff_requests_total{call=\"read\",status=\"4xx\"} 0\n\
ruffletuff_requests_total{call=\"read\",status=\"5xx\"} 0\n\
ruffletuff_requests_total{call=\"change\",status=\"2xx\"} 0\n\
ruffletuff_requests_total{call=\"change\",status=\"4xx\"} 0\n\
ruffletuff_requests_total{call=\"change\",status=\"5xx\"} 0\n\
ruffletuff_requests_total{call=\"publish\",status=\"2xx\"} 0\n\
ruffletuff_requests_total{call=\"publish\",status=\"4xx\"} 0\n\
ruffletuff_requests_total{call=\"publish\",status=\"5xx\"} 0\n\
# HELP ruffletuff_journal_bytes bytes of the journal\n\
# TYPE ruffletuff_journal_bytes gauge\n\
ruffletuff_journal_bytes 0\n\
# HELP ruffletuff_syncs_total how often the journal was synced\n\
# TYPE ruffletuff_syncs_total counter\n\
ruffletuff_syncs_total 0\n\
# HELP ruffletuff_pending_replies replies on their way: asked for, not yet told\n\
# TYPE ruffletuff_pending_replies gauge\n\
ruffletuff_pending_replies 0\n\
# HELP ruffletuff_revision publications: those in the journal at the start, and those told since\n\
# TYPE ruffletuff_revision gauge\n\
ruffletuff_revision 0\n\
# HELP ruffletuff_answer_milliseconds milliseconds from when a request's turn came to its answer\n\
# TYPE ruffletuff_answer_milliseconds histogram\n\
ruffletuff_answer_milliseconds_bucket{le=\"5\"} 0\n\
ruffletuff_answer_milliseconds_bucket{le=\"10\"} 0\n\
ruffletuff_answer_milliseconds_bucket{le=\"25\"} 0\n\
ruffletuff_answer_milliseconds_bucket{le=\"100\"} 0\n\
ruffletuff_answer_milliseconds_bucket{le=\"250\"} 0\n\
ruffletuff_answer_milliseconds_bucket{le=\"1000\"} 0\n\
ruffletuff_answer_milliseconds_bucket{le=\"+Inf\"} 0\n\
ruffletuff_answer_milliseconds_sum 0\n\
ruffletuff_answer_milliseconds_count 0\n\
";

#[test]
fn tells_each_line(rt: HostRuntime) {
    let counters = zero_counters(rt.alloc()).expect(&rt, "memory");
    let text = metrics_text(&rt, rt.alloc(), &counters);
    assert!(rt; text.as_str() == NOTHING_COUNTED);
}

/// Lines of the metrics behind a publication that failed, a question and a change that was refused.
const COUNTED: &[&str] = &[
    "ruffletuff_requests_total{call=\"publish\",status=\"5xx\"} 1",
    "ruffletuff_requests_total{call=\"read\",status=\"2xx\"} 1",
    "ruffletuff_requests_total{call=\"change\",status=\"2xx\"} 0",
    "ruffletuff_requests_total{call=\"change\",status=\"4xx\"} 1",
    "ruffletuff_answer_milliseconds_bucket{le=\"10\"} 0",
    "ruffletuff_answer_milliseconds_bucket{le=\"25\"} 1",
    "ruffletuff_answer_milliseconds_bucket{le=\"1000\"} 1",
    "ruffletuff_answer_milliseconds_bucket{le=\"+Inf\"} 3",
    "ruffletuff_answer_milliseconds_sum 4020",
    "ruffletuff_answer_milliseconds_count 3",
    "# TYPE ruffletuff_syncs_total counter",
    "ruffletuff_syncs_total 3",
    "ruffletuff_pending_replies 1",
    "ruffletuff_revision 5",
];

#[test]
fn counts_in_its_rows(rt: HostRuntime) {
    let counters = zero_counters(rt.alloc()).expect(&rt, "memory");
    counters.count_answer(CallKind::Publish, 503, 20);
    counters.count_answer(CallKind::Read, 200, 2000);
    counters.count_answer(CallKind::Change, 404, 2000);
    counters.add(Figure::Syncs, 3);
    counters.set(Figure::Revision, 5);
    counters.add(Figure::Pending, 2);
    counters.subtract(Figure::Pending, 1);
    expect_lines(&rt, rt.alloc(), &counters, COUNTED);
}

/// Lines of the metrics of a server with three connections and two operators.
const OF_TWO_FLEETS: &[&str] = &[
    "# TYPE ruffletuff_connections gauge",
    "ruffletuff_connections 3",
    "# TYPE ruffletuff_vehicles gauge",
    "ruffletuff_vehicles{operator=\"3b0f6c9e-1d7a-4d2b-8f35-7a9d0a4c1101\"} 7",
    "ruffletuff_vehicles{operator=\"5d8e1f70-62c4-4e9b-b0a6-2f1c9e3d2201\"} 250000",
];

/// Counters of a server with so many connections and two operators.
fn counters_of_two(alloc: Global, connections: Arc<AtomicU64>) -> Result<Counters, AllocError> {
    let mut fleets = Vec::new(alloc);
    fleets.push(Fleet::new(alloc, "3b0f6c9e-1d7a-4d2b-8f35-7a9d0a4c1101")?)?;
    fleets.push(Fleet::new(alloc, "5d8e1f70-62c4-4e9b-b0a6-2f1c9e3d2201")?)?;
    Counters::new(alloc, connections, fleets)
}

/// Sets how many vehicles the operators have.
fn set_vehicles(rt: &impl Abort, counters: &Counters) {
    for (fleet, count) in counters.fleets().iter().zip([7, 250_000]) {
        let vehicles = fleet.vehicles().expect(rt, "a count");
        vehicles.store(count, Ordering::SeqCst);
    }
}

#[test]
fn tells_connections_and_vehicles(rt: HostRuntime) {
    let alloc = rt.alloc();
    let connections = Arc::new(alloc, AtomicU64::new(0))
        .ok()
        .expect(&rt, "memory");
    let shared = Arc::try_clone(&connections).expect(&rt, "memory");
    let counters = counters_of_two(alloc, shared).expect(&rt, "memory");
    connections.store(3, Ordering::SeqCst);
    set_vehicles(&rt, &counters);
    expect_lines(&rt, alloc, &counters, OF_TWO_FLEETS);
}
