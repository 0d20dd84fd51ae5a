//! Tests of requests to a cluster's members: members in memory, each of which expects certain requests and answers them
//! as etcd 3.4.23 does.
use journal_gateway::{
    Dial, Gateway, GatewayFault, GatewayUser, MemberStream, ReplyMeaning, is_member, meaning_of,
    members_in, needs_token, next_member, read_token, token_request, user_in,
};
use std::alloc::Global;
use std::io::{self, ErrorKind, Read, Write};
use std::process::Abort;

/// A request that is expected, and what comes back, read by read.
#[derive(Clone, Copy)]
struct Step {
    request: &'static str,
    reads: &'static [&'static str],
}

/// A connection that is expected: to which address, and what is asked over it. One without steps isn't taken.
#[derive(Clone, Copy)]
struct ScriptedConnection {
    address: &'static str,
    steps: &'static [Step],
}

/// Members in memory, which take these connections in their order.
#[derive(Drop)]
struct Members {
    alloc: Global,
    connections: &'static [ScriptedConnection],
}

/// A connection to a member in memory.
#[derive(Drop)]
struct MemoryStream {
    steps: &'static [Step],
    /// What was written of the request.
    written: Vec<u8>,
    /// How many reads of the response were given.
    given: usize,
}

impl Read for MemoryStream {
    fn read(&mut self, buf: &mut [u8]) -> io::Result<usize> {
        let Some((step, behind)) = self.steps.split_first() else {
            return Ok(0);
        };
        if self.written.as_slice() != step.request.as_bytes() {
            return Err(ErrorKind::InvalidData.into());
        }
        let Some(piece) = step.reads.get(self.given) else {
            return Ok(0);
        };
        let count = piece.len().min(buf.len());
        buf[..count].copy_from_slice(&piece.as_bytes()[..count]);
        self.given = self.given.saturating_add(1);
        if self.given >= step.reads.len() {
            self.steps = behind;
            self.written.clear();
            self.given = 0;
        }
        Ok(count)
    }
}

impl Write for MemoryStream {
    fn write(&mut self, buf: &[u8]) -> io::Result<usize> {
        match self.written.extend_from_slice(buf) {
            Ok(()) => Ok(buf.len()),
            Err(_) => Err(ErrorKind::OutOfMemory.into()),
        }
    }

    fn flush(&mut self) -> io::Result<()> {
        Ok(())
    }
}

impl MemberStream for MemoryStream {
    fn begin(&mut self) -> io::Result<()> {
        Ok(())
    }
}

impl Dial for Members {
    type Stream = MemoryStream;

    fn dial(&mut self, address: &str) -> io::Result<MemoryStream> {
        let Some((first, behind)) = self.connections.split_first() else {
            return Err(ErrorKind::NotFound.into());
        };
        self.connections = behind;
        if first.address != address || first.steps.is_empty() {
            return Err(ErrorKind::ConnectionRefused.into());
        }
        Ok(MemoryStream {
            steps: first.steps,
            written: Vec::new(self.alloc),
            given: 0,
        })
    }

    fn pause(&mut self) {}
}

/// A look that comes in chunks, and a transaction at a member that has lost its majority: with a trailer, as etcd sends
/// it with errors.
const FIRST_MEMBER: &[Step] = &[
    Step {
        request: "POST /v3/kv/range HTTP/1.1\r\nhost: a:1\r\ncontent-length: 2\r\n\r\n{}",
        reads: &[
            "HTTP/1.1 200 OK\r\nContent-Type: application/json\r\nTransfer-Encoding: chunked\r\n\r\n3\r\n{\"k\r\n",
            "6\r\nvs\":[]\r\n1\r\n}\r\n0\r\n\r\n",
        ],
    },
    Step {
        request: "POST /v3/kv/txn HTTP/1.1\r\nhost: a:1\r\ncontent-length: 3\r\n\r\n[1]",
        reads: &[
            "HTTP/1.1 503 Service Unavailable\r\nTrailer: Grpc-Trailer-Content-Type\r\nTransfer-Encoding: chunked\r\n\r\n2\r\n{}\r\n0\r\nGrpc-Trailer-Content-Type: application/grpc\r\n\r\n",
        ],
    },
];

/// The same transaction at the third member.
const THIRD_MEMBER: &[Step] = &[Step {
    request: "POST /v3/kv/txn HTTP/1.1\r\nhost: c:1\r\ncontent-length: 3\r\n\r\n[1]",
    reads: &["HTTP/1.1 200 OK\r\nContent-Length: 6\r\n\r\n", "\"done\""],
}];

/// A response that ends before its body does.
const BROKEN_OFF: &[Step] = &[Step {
    request: "POST /v3/kv/range HTTP/1.1\r\nhost: a:1\r\ncontent-length: 2\r\n\r\n{}",
    reads: &["HTTP/1.1 200 OK\r\nContent-Length: 9\r\n\r\n{\"kvs\"", ""],
}];

/// A token, which has ended by the next request.
const ENDED_TOKEN: &[Step] = &[
    Step {
        request: "POST /v3/auth/authenticate HTTP/1.1\r\nhost: a:1\r\ncontent-length: 33\r\n\r\n{\"name\":\"city\",\"password\":\"a\\\"b\"}",
        reads: &["HTTP/1.1 200 OK\r\nContent-Length: 27\r\n\r\n{\"header\":{},\"token\":\"T.1\"}"],
    },
    Step {
        request: "POST /v3/kv/range HTTP/1.1\r\nhost: a:1\r\nauthorization: T.1\r\ncontent-length: 2\r\n\r\n{}",
        reads: &["HTTP/1.1 401 Unauthorized\r\nContent-Length: 2\r\n\r\n{}"],
    },
];

/// A new token, by which the same is answered.
const NEW_TOKEN: &[Step] = &[
    Step {
        request: "POST /v3/auth/authenticate HTTP/1.1\r\nhost: a:1\r\ncontent-length: 33\r\n\r\n{\"name\":\"city\",\"password\":\"a\\\"b\"}",
        reads: &["HTTP/1.1 200 OK\r\nContent-Length: 27\r\n\r\n{\"header\":{},\"token\":\"T.2\"}"],
    },
    Step {
        request: "POST /v3/kv/range HTTP/1.1\r\nhost: a:1\r\nauthorization: T.2\r\ncontent-length: 2\r\n\r\n{}",
        reads: &["HTTP/1.1 200 OK\r\nContent-Length: 2\r\n\r\n{}"],
    },
];

/// A user who may not see these keys.
const FOREIGN_KEYS: &[Step] = &[Step {
    request: "POST /v3/kv/range HTTP/1.1\r\nhost: a:1\r\ncontent-length: 2\r\n\r\n{}",
    reads: &["HTTP/1.1 403 Forbidden\r\nContent-Length: 2\r\n\r\n{}"],
}];

/// The members that are asked: one that fails, one that takes no connection, and one that answers.
const IN_TURN: &[ScriptedConnection] = &[
    ScriptedConnection {
        address: "a:1",
        steps: FIRST_MEMBER,
    },
    ScriptedConnection {
        address: "b:1",
        steps: &[],
    },
    ScriptedConnection {
        address: "c:1",
        steps: THIRD_MEMBER,
    },
];

/// One member, which breaks off.
const ONE_BROKEN_OFF: &[ScriptedConnection] = &[ScriptedConnection {
    address: "a:1",
    steps: BROKEN_OFF,
}];

/// One member, which ends a token.
const TWO_TOKENS: &[ScriptedConnection] = &[
    ScriptedConnection {
        address: "a:1",
        steps: ENDED_TOKEN,
    },
    ScriptedConnection {
        address: "a:1",
        steps: NEW_TOKEN,
    },
];

/// One member, which refuses.
const ONE_REFUSAL: &[ScriptedConnection] = &[ScriptedConnection {
    address: "a:1",
    steps: FOREIGN_KEYS,
}];

/// The members that are given as the address of a cluster.
fn members_of(rt: &impl Abort, alloc: Global, word: &str) -> Vec<String> {
    match members_in(alloc, word).expect(rt, "memory") {
        Some(members) => members,
        None => Vec::new(alloc),
    }
}

/// What is answered to a body at a path, as text.
fn expect_answer(
    rt: &impl Abort,
    gateway: &mut Gateway<'_, Members>,
    path: &str,
    body: &str,
    wanted: &str,
) {
    match gateway.post(path, body.as_bytes()) {
        Ok(answer) => assert!(rt; answer.as_slice() == wanted.as_bytes(), "{path}"),
        Err(_) => assert!(rt; false, "{path}"),
    }
}

#[test]
fn members_are_asked_in_turn(rt: HostRuntime) {
    let alloc = rt.alloc();
    let members = members_of(&rt, alloc, "etcd:a:1,b:1,c:1");
    assert!(rt; members.len() == 3);
    let dial = Members {
        alloc,
        connections: IN_TURN,
    };
    let mut gateway = Gateway::new(alloc, dial, &members, None, 3);
    expect_answer(&rt, &mut gateway, "/v3/kv/range", "{}", "{\"kvs\":[]}");
    expect_answer(&rt, &mut gateway, "/v3/kv/txn", "[1]", "\"done\"");
}

#[test]
fn a_part_of_an_answer_is_none(rt: HostRuntime) {
    let alloc = rt.alloc();
    let members = members_of(&rt, alloc, "etcd:a:1");
    let dial = Members {
        alloc,
        connections: ONE_BROKEN_OFF,
    };
    let mut gateway = Gateway::new(alloc, dial, &members, None, 1);
    let broken = gateway.post("/v3/kv/range", b"{}").err();
    assert!(rt; broken == Some(GatewayFault::Incomplete));
    let refused = gateway.post("/v3/kv/range", b"{}").err();
    assert!(rt; refused == Some(GatewayFault::NoConnection));
}

#[test]
fn tokens_are_asked_for_anew(rt: HostRuntime) {
    let alloc = rt.alloc();
    let members = members_of(&rt, alloc, "etcd:a:1,b:1");
    let dial = Members {
        alloc,
        connections: TWO_TOKENS,
    };
    let user = user_in(b"city:a\"b\n").expect(&rt, "a user");
    assert!(rt;
        user == GatewayUser {
            name: "city",
            password: "a\"b"
        }
    );
    let mut gateway = Gateway::new(alloc, dial, &members, Some(user), 2);
    expect_answer(&rt, &mut gateway, "/v3/kv/range", "{}", "{}");
}

#[test]
fn a_refusal_is_told(rt: HostRuntime) {
    let alloc = rt.alloc();
    let members = members_of(&rt, alloc, "etcd:a:1");
    let dial = Members {
        alloc,
        connections: ONE_REFUSAL,
    };
    let mut gateway = Gateway::new(alloc, dial, &members, None, 1);
    let refused = gateway.post("/v3/kv/range", b"{}").err();
    assert!(rt; refused == Some(GatewayFault::Refused(403)));
}

#[test]
fn responses_mean_little(rt: HostRuntime) {
    assert!(rt; meaning_of(200) == ReplyMeaning::Answer);
    assert!(rt; meaning_of(401) == ReplyMeaning::EndedToken);
    assert!(rt; meaning_of(503) == ReplyMeaning::Undecided);
    assert!(rt; needs_token(true, false) && !needs_token(false, false));
    assert!(rt; next_member(0, 3) == 1 && next_member(2, 3) == 0);
}

#[test]
fn addresses_and_users_are_read(rt: HostRuntime) {
    let alloc = rt.alloc();
    assert!(rt; is_member("127.0.0.1:2379") && !is_member("localhost") && !is_member("a b:1"));
    let members = members_of(&rt, alloc, "etcd:h1:2379,[::1]:2379");
    assert!(rt; members.len() == 2);
    assert!(rt; members_of(&rt, alloc, "http://h1:2379").is_empty());
    assert!(rt; members_of(&rt, alloc, "etcd:h1:1,").is_empty());
    assert!(rt; user_in(b":a").is_none() && user_in(b"a").is_none());
    let request = token_request(alloc, "n", "p").expect(&rt, "memory");
    assert!(rt; request.as_slice() == b"{\"name\":\"n\",\"password\":\"p\"}".as_slice());
    let token = read_token(alloc, b"{\"header\":{},\"token\":\"NK.20\"}").expect(&rt, "a token");
    assert!(rt; token.as_str() == "NK.20");
    assert!(rt; read_token(alloc, b"{\"token\":\"a b\"}").err() == Some(GatewayFault::NoToken));
    assert!(rt; read_token(alloc, b"{}").err() == Some(GatewayFault::NoToken));
}
