//! Tests of what is said to etcd and of what it answers: requests by etcd's documentation of its gateway, base64 by
//! another program and by RFC 4648, and answers in the form in which etcd 3.4.23 gives them.
use journal_etcd::{
    AnswerError, AnswerFault, GatewayPath, Keys, RequestFault, TransactionAnswer, chunks_request,
    head_value, look_request, owner_value, read_chunks, read_head, read_look, read_owner,
    read_transaction, transaction_request,
};
use journal_file::LogEnd;
use journal_register::{
    ChunkKey, Extent, FIRST_HEAD, Generation, Head, Look, NO_HEAD, NOBODY, Outcome, Owner,
    Transaction,
};
use std::alloc::Global;
use std::process::Abort;

/// The prefix of the register's keys.
const KEYS: Keys<'static> = Keys { prefix: "c" };

/// The owner that the first claim makes.
const FIRST: Owner = Owner { epoch: 1, nonce: 7 };

/// The owner that claimed the register from it.
const SECOND: Owner = Owner { epoch: 2, nonce: 9 };

/// Where the journal ends behind one chunk.
const ONE_END: LogEnd = LogEnd {
    position: 310,
    sum: 5,
    count: 2,
};

/// The answer to a look where neither key is there.
const MISSING: &str =
    r#"{"header":{"cluster_id":"9038501614830948466","member_id":"8781887886688708772","revision":"42513","raft_term":"55"}}"#;

/// The answer to a look at the register of the first claim.
const CLAIMED: &str =
    r#"{"header":{"cluster_id":"9038501614830948466","member_id":"8781887886688708772","revision":"42514","raft_term":"55"},"kvs":[{"key":"Yy9oZWFk","create_revision":"42514","mod_revision":"42514","version":"1","value":"MSAxIDAgMCAwIDAgMCAwIDAgMCAwIDAgMCAwIDAgMCAwIDAg"},{"key":"Yy9vd25lcg==","create_revision":"42514","mod_revision":"42514","version":"1","value":"MSAxIDcg"}],"count":"2"}"#;

/// The answer to the first claim.
const WON: &str =
    r#"{"header":{"cluster_id":"9038501614830948466","member_id":"8781887886688708772","revision":"42514","raft_term":"55"},"succeeded":true,"responses":[{"response_put":{"header":{"revision":"42514"}}},{"response_put":{"header":{"revision":"42514"}}},{"response_range":{"header":{"revision":"42514"},"kvs":[{"key":"Yy9oZWFk","create_revision":"42514","mod_revision":"42514","version":"1","value":"MSAxIDAgMCAwIDAgMCAwIDAgMCAwIDAgMCAwIDAgMCAwIDAg"},{"key":"Yy9vd25lcg==","create_revision":"42514","mod_revision":"42514","version":"1","value":"MSAxIDcg"}],"count":"2"}}]}"#;

/// The answer to the same claim, sent again.
const AGAIN: &str =
    r#"{"header":{"cluster_id":"9038501614830948466","member_id":"8781887886688708772","revision":"42514","raft_term":"55"},"responses":[{"response_range":{"header":{"revision":"42514"},"kvs":[{"key":"Yy9oZWFk","create_revision":"42514","mod_revision":"42514","version":"1","value":"MSAxIDAgMCAwIDAgMCAwIDAgMCAwIDAgMCAwIDAgMCAwIDAg"},{"key":"Yy9vd25lcg==","create_revision":"42514","mod_revision":"42514","version":"1","value":"MSAxIDcg"}],"count":"2"}}]}"#;

/// The answer to it where another has claimed the register since.
const LOST: &str =
    r#"{"header":{"cluster_id":"9038501614830948466","member_id":"8781887886688708772","revision":"42516","raft_term":"55"},"responses":[{"response_range":{"header":{"revision":"42516"},"kvs":[{"key":"Yy9oZWFk","create_revision":"42514","mod_revision":"42514","version":"1","value":"MSAxIDAgMCAwIDAgMCAwIDAgMCAwIDAgMCAwIDAgMCAwIDAg"},{"key":"Yy9vd25lcg==","create_revision":"42514","mod_revision":"42516","version":"2","value":"MSAyIDkg"}],"count":"2"}}]}"#;

/// The answer to a transaction that asked for no range when its compares held.
const PUT_ALONE: &str =
    r#"{"header":{"cluster_id":"9038501614830948466","member_id":"8781887886688708772","revision":"42514","raft_term":"55"},"succeeded":true,"responses":[{"response_put":{"header":{"revision":"42514"}}}]}"#;

/// Bodies of answers to a look that aren't read, and why.
const FAULTS: &[(&str, AnswerFault)] = &[
    ("", AnswerFault::NotJson),
    ("{", AnswerFault::NotJson),
    (
        "CommonName of client sending a request against gateway will be ignored and not used as expected\n",
        AnswerFault::NotJson,
    ),
    ("[]", AnswerFault::BadShape),
    (
        r#"{"error":"etcdserver: request timed out","message":"etcdserver: request timed out","code":14}"#,
        AnswerFault::BadShape,
    ),
    (r#"{"header":{"revision":"42513"}}"#, AnswerFault::BadShape),
    (
        r#"{"header":{"cluster_id":1,"revision":"42513"}}"#,
        AnswerFault::BadShape,
    ),
    (
        r#"{"header":{"cluster_id":"18446744073709551616","revision":"1"}}"#,
        AnswerFault::BadNumber,
    ),
    (
        r#"{"header":{"cluster_id":"1","revision":"-1"}}"#,
        AnswerFault::BadNumber,
    ),
    (
        r#"{"header":{"cluster_id":"1","revision":""}}"#,
        AnswerFault::BadNumber,
    ),
    // One key alone, no base64, another key, and another form of the owner: 1 01 7.
    (
        r#"{"header":{"cluster_id":"1","revision":"1"},"kvs":[{"key":"Yy9oZWFk","value":"MSAxIDAgMCAwIDAgMCAwIDAgMCAwIDAgMCAwIDAgMCAwIDAg"}]}"#,
        AnswerFault::BadShape,
    ),
    (
        r#"{"header":{"cluster_id":"1","revision":"1"},"kvs":[{"key":"Yy9oZWFk","value":"MSAxIDAgMCAwIDAgMCAwIDAgMCAwIDAgMCAwIDAgMCAwIDAg"},{"key":"Yy9vd25lcg","value":"MSAxIDcg"}]}"#,
        AnswerFault::BadShape,
    ),
    (
        r#"{"header":{"cluster_id":"1","revision":"1"},"kvs":[{"key":"Yy9oZWFkMg==","value":"MSAxIDAgMCAwIDAgMCAwIDAgMCAwIDAgMCAwIDAgMCAwIDAg"},{"key":"Yy9vd25lcg==","value":"MSAxIDcg"}]}"#,
        AnswerFault::BadShape,
    ),
    (
        r#"{"header":{"cluster_id":"1","revision":"1"},"kvs":[{"key":"Yy9oZWFk","value":"MSAxIDAgMCAwIDAgMCAwIDAgMCAwIDAgMCAwIDAgMCAwIDAg"},{"key":"Yy9vd25lcg==","value":"MSAwMSA3IA=="}]}"#,
        AnswerFault::BadShape,
    ),
];

/// The requests of the first claim, of the append of a first chunk, and part of that of a removal.
const CLAIM_REQUEST: &str =
    r#"{"compare":[{"key":"Yy9vd25lcg==","target":"CREATE","result":"EQUAL","create_revision":"0"},{"key":"Yy9oZWFk","target":"CREATE","result":"EQUAL","create_revision":"0"}],"success":[{"request_put":{"key":"Yy9vd25lcg==","value":"MSAxIDcg"}},{"request_put":{"key":"Yy9oZWFk","value":"MSAxIDAgMCAwIDAgMCAwIDAgMCAwIDAgMCAwIDAgMCAwIDAg"}},{"request_range":{"key":"Yy9oZWFk","range_end":"Yy9w"}}],"failure":[{"request_range":{"key":"Yy9oZWFk","range_end":"Yy9w"}}]}"#;

const APPEND_REQUEST: &str =
    r#"{"compare":[{"key":"Yy9vd25lcg==","target":"VALUE","result":"EQUAL","value":"MSAxIDcg"},{"key":"Yy9oZWFk","target":"VALUE","result":"EQUAL","value":"MSAxIDAgMCAwIDAgMCAwIDAgMCAwIDAgMCAwIDAgMCAwIDAg"}],"success":[{"request_put":{"key":"Yy9oZWFk","value":"MSAxIDAgMSAzMTAgNSAyIDAgMCAwIDAgMCAwIDAgMCAwIDAgMCA="}},{"request_put":{"key":"Yy9jLzAwMDAwMDAwMDAwMDAwMDEwMDAwMDAwMDAwMDAwMDAwLzAwMDAwMDAwMDAwMDAwMDA=","value":"Y2h1bms="}},{"request_range":{"key":"Yy9oZWFk","range_end":"Yy9w"}}],"failure":[{"request_range":{"key":"Yy9oZWFk","range_end":"Yy9w"}}]}"#;

const REMOVAL_PART: &str =
    r#""success":[{"request_delete_range":{"key":"Yy9jLzAwMDAwMDAwMDAwMDAwMDEwMDAwMDAwMDAwMDAwMDAwLw==","range_end":"Yy9jLzAwMDAwMDAwMDAwMDAwMDEwMDAwMDAwMDAwMDAwMDAwMA=="}},{"request_range""#;

/// The request for the chunks of the first generation from the eleventh on, and the answer with two of three.
const CHUNKS_REQUEST: &str =
    r#"{"key":"Yy9jLzAwMDAwMDAwMDAwMDAwMDEwMDAwMDAwMDAwMDAwMDAwLzAwMDAwMDAwMDAwMDAwMGE=","range_end":"Yy9jLzAwMDAwMDAwMDAwMDAwMDEwMDAwMDAwMDAwMDAwMDAwMA==","limit":"16"}"#;

const TWO_CHUNKS: &str =
    r#"{"header":{"cluster_id":"1","member_id":"2","revision":"9","raft_term":"2"},"kvs":[{"key":"Yy9jLzAwMDAwMDAwMDAwMDAwMDEwMDAwMDAwMDAwMDAwMDAwLzAwMDAwMDAwMDAwMDAwMGE=","create_revision":"3","mod_revision":"3","version":"1","value":"YWI="},{"key":"Yy9jLzAwMDAwMDAwMDAwMDAwMDEwMDAwMDAwMDAwMDAwMDAwLzAwMDAwMDAwMDAwMDAwMGI=","create_revision":"4","mod_revision":"4","version":"1","value":"Yw=="}],"more":true,"count":"3"}"#;

/// The same, where the second of the two isn't the next.
const NOT_NEXT: &str =
    r#"{"header":{},"kvs":[{"key":"Yy9jLzAwMDAwMDAwMDAwMDAwMDEwMDAwMDAwMDAwMDAwMDAwLzAwMDAwMDAwMDAwMDAwMGE=","value":"YWI="},{"key":"Yy9jLzAwMDAwMDAwMDAwMDAwMDEwMDAwMDAwMDAwMDAwMDAwLzAwMDAwMDAwMDAwMDAwMGM=","value":"Yw=="}]}"#;

/// The eleventh chunk.
const ELEVENTH: ChunkKey = ChunkKey {
    generation: Generation {
        epoch: 1,
        attempt: 0,
    },
    index: 10,
};

/// What the look at the register without its keys shows.
const UNCLAIMED: Look = Look {
    cluster: 9_038_501_614_830_948_466,
    revision: 42_513,
    owner: NOBODY,
    head: NO_HEAD,
};

/// The head of a second generation without chunks.
const SWITCHED: Head = Head {
    extent: Extent {
        generation: Generation {
            epoch: 1,
            attempt: 1,
        },
        chunks: 0,
        end: ONE_END,
    },
    ..FIRST_HEAD
};

fn first_claim(rt: &impl Abort) -> Transaction {
    Transaction::claim(NOBODY, 7).expect(rt, "a claim")
}

/// Checks that a text isn't read as an owner, for this reason.
fn expect_no_owner(rt: &impl Abort, alloc: Global, text: &[u8], fault: AnswerFault) {
    assert!(rt; read_owner(alloc, text) == Err(AnswerError::Fault(fault)));
}

/// Checks that an answer isn't read as one to a look, for this reason.
fn expect_no_look(rt: &impl Abort, alloc: Global, text: &[u8], fault: AnswerFault) {
    assert!(rt; read_look(alloc, &KEYS, text) == Err(AnswerError::Fault(fault)));
}

/// Checks that this is what an owner's key has, and that the owner is read from it.
fn expect_owner_value(rt: &impl Abort, alloc: Global, text: &[u8]) {
    let value = owner_value(alloc, FIRST).expect(rt, "memory");
    assert!(rt; value.as_slice() == text);
    assert!(rt; read_owner(alloc, text) == Ok(FIRST));
}

/// Checks that this is what a head's key has, and that the head is read from it.
fn expect_head_value(rt: &impl Abort, alloc: Global, text: &[u8]) {
    let value = head_value(alloc, FIRST_HEAD).expect(rt, "memory");
    assert!(rt; value.as_slice() == text);
    assert!(rt; read_head(alloc, text) == Ok(FIRST_HEAD));
}

#[test]
fn values_are_numbers(rt: HostRuntime) {
    let alloc = rt.alloc();
    expect_owner_value(&rt, alloc, b"1 1 7 ");
    expect_head_value(&rt, alloc, b"1 1 0 0 0 0 0 0 0 0 0 0 0 0 0 0 0 0 ");
    expect_no_owner(&rt, alloc, b"1 01 7 ", AnswerFault::BadShape);
    expect_no_owner(&rt, alloc, b"1 1 7", AnswerFault::BadShape);
    expect_no_owner(&rt, alloc, b"2 1 7 ", AnswerFault::BadShape);
    expect_no_owner(&rt, alloc, b"1 1 7 8 ", AnswerFault::BadShape);
    expect_no_owner(&rt, alloc, b"1 +1 7 ", AnswerFault::BadNumber);
    let long = b"1 18446744073709551616 7 ";
    expect_no_owner(&rt, alloc, long, AnswerFault::BadNumber);
    let owner_alone = read_head(alloc, b"1 1 7 ");
    assert!(rt; owner_alone == Err(AnswerError::Fault(AnswerFault::BadShape)));
}

/// The request of a transaction with these bytes of a chunk.
fn request(rt: &impl Abort, alloc: Global, transaction: &Transaction, bytes: &[u8]) -> String {
    transaction_request(alloc, &KEYS, transaction, bytes).expect(rt, "a request")
}

/// Checks that a transaction has no request with these bytes of a chunk.
fn expect_bad_chunk(rt: &impl Abort, alloc: Global, transaction: &Transaction, bytes: &[u8]) {
    match transaction_request(alloc, &KEYS, transaction, bytes) {
        Ok(_) => assert!(rt; false),
        Err(fault) => assert!(rt; fault == RequestFault::BadChunk),
    }
}

#[test]
fn first_claim_compares_that_nothing_is_there(rt: HostRuntime) {
    let text = request(&rt, rt.alloc(), &first_claim(&rt), b"");
    assert!(rt; text.as_str() == CLAIM_REQUEST);
    assert!(rt; GatewayPath::Transaction.as_str() == "/v3/kv/txn");
}

#[test]
fn append_puts_chunk_and_head(rt: HostRuntime) {
    let append = Transaction::append(FIRST, FIRST_HEAD, 0, ONE_END).expect(&rt, "an append");
    let text = request(&rt, rt.alloc(), &append, b"chunk");
    assert!(rt; text.as_str() == APPEND_REQUEST);
}

#[test]
fn removal_has_all_chunks_of_a_generation(rt: HostRuntime) {
    let removal = Transaction::remove(FIRST, SWITCHED, FIRST_HEAD.extent.generation);
    let text = request(&rt, rt.alloc(), &removal.expect(&rt, "a removal"), b"");
    assert!(rt; text.as_str().contains(REMOVAL_PART));
}

#[test]
fn look_ranges_over_both_keys(rt: HostRuntime) {
    let look = look_request(rt.alloc(), &KEYS).expect(&rt, "a request");
    assert!(rt; look.as_str() == r#"{"key":"Yy9oZWFk","range_end":"Yy9w"}"#);
    assert!(rt; GatewayPath::Range.as_str() == "/v3/kv/range");
}

#[test]
fn chunks_have_bytes(rt: HostRuntime) {
    let stage = Transaction::put_behind(FIRST, FIRST_HEAD, 0).expect(&rt, "a transaction");
    expect_bad_chunk(&rt, rt.alloc(), &stage, b"");
    expect_bad_chunk(&rt, rt.alloc(), &first_claim(&rt), b"chunk");
}

/// Checks the look that an answer shows.
fn expect_look(rt: &impl Abort, alloc: Global, text: &str, wanted: Look) {
    assert!(rt; read_look(alloc, &KEYS, text.as_bytes()) == Ok(wanted));
}

#[test]
fn looks_are_read(rt: HostRuntime) {
    let alloc = rt.alloc();
    expect_look(&rt, alloc, MISSING, UNCLAIMED);
    let claimed = read_look(alloc, &KEYS, CLAIMED.as_bytes()).expect(&rt, "a look");
    assert!(rt; claimed.owner == FIRST && claimed.head == FIRST_HEAD && claimed.revision == 42_514);
    let foreign = read_look(alloc, &Keys { prefix: "d" }, CLAIMED.as_bytes());
    assert!(rt; foreign == Err(AnswerError::Fault(AnswerFault::BadShape)));
}

/// What an answer to the first claim says.
fn answer(rt: &impl Abort, alloc: Global, text: &str) -> TransactionAnswer {
    read_transaction(alloc, &KEYS, &first_claim(rt), text.as_bytes()).expect(rt, "an answer")
}

#[test]
fn transactions_have_an_outcome(rt: HostRuntime) {
    let alloc = rt.alloc();
    let won = answer(&rt, alloc, WON);
    assert!(rt; won.outcome == Outcome::Applied && won.look.owner == FIRST);
    let again = answer(&rt, alloc, AGAIN);
    assert!(rt; again.outcome == Outcome::Applied && again.look == won.look);
    let lost = answer(&rt, alloc, LOST);
    assert!(rt; lost.outcome == Outcome::Overtaken && lost.look.revision == 42_516);
    assert!(rt; lost.look.owner == SECOND);
    let put_alone = read_transaction(alloc, &KEYS, &first_claim(&rt), PUT_ALONE.as_bytes());
    let fault = put_alone.err().expect(&rt, "a fault");
    assert!(rt; fault == AnswerError::Fault(AnswerFault::BadShape));
}

#[test]
fn faults_are_named(rt: HostRuntime) {
    for (body, fault) in FAULTS {
        expect_no_look(&rt, rt.alloc(), body.as_bytes(), *fault);
    }
    expect_no_look(&rt, rt.alloc(), b"{}\xff", AnswerFault::NotJson);
}

#[test]
fn chunks_are_read_in_their_order(rt: HostRuntime) {
    let alloc = rt.alloc();
    let request = chunks_request(alloc, &KEYS, ELEVENTH, 16).expect(&rt, "a request");
    assert!(rt; request.as_str() == CHUNKS_REQUEST);
    let run = read_chunks(alloc, &KEYS, ELEVENTH, 16, TWO_CHUNKS.as_bytes()).expect(&rt, "chunks");
    assert!(rt; run.count == 2 && run.bytes.as_slice() == b"abc".as_slice());
    let first = read_chunks(alloc, &KEYS, ELEVENTH, 1, TWO_CHUNKS.as_bytes()).expect(
        &rt, "a chunk",
    );
    assert!(rt; first.count == 1 && first.bytes.as_slice() == b"ab".as_slice());
    let bad = Some(AnswerError::Fault(AnswerFault::BadShape));
    assert!(rt; read_chunks(alloc, &KEYS, ELEVENTH, 16, NOT_NEXT.as_bytes()).err() == bad);
    assert!(rt; read_chunks(alloc, &KEYS, ELEVENTH, 16, MISSING.as_bytes()).err() == bad);
}
