//! A whole script, read and written in small pieces, and with a read, a write or an allocation that fails.
use mds_script::{ReplayFault, run};
use mds_verdict::Plain;
use mds_world::World;
use std::alloc::Global;
use std::io::{self, ErrorKind, Read, Write};
use std::process::Abort;

/// A script: at most one vehicle is allowed in a square; a first one is reported, then a second.
const CAP: &[u8] =
    br#"{"author":"city","operators":[{"id":"00000000-0000-4000-8000-0000000000a1","limit":2,"token":"alfa"},{"id":"00000000-0000-4000-8000-0000000000b1","limit":2,"token":"bravo"}],"zone":"Z"}
1000 city PUT /drafts/geographies/00000000-0000-4000-8000-000000000101 {"geography_id":"00000000-0000-4000-8000-000000000101","name":"square","geography_json":{"type":"Polygon","coordinates":[[[0,0],[10,0],[10,10],[0,10],[0,0]]]}}
1000 city PUT /drafts/policies/00000000-0000-4000-8000-000000000201 {"policy_id":"00000000-0000-4000-8000-000000000201","name":"cap","start_date":1000,"rules":[{"rule_id":"00000000-0000-4000-8000-000000000301","name":"cap","rule_type":"count","geographies":["00000000-0000-4000-8000-000000000101"],"maximum":1}]}
1000 city POST /publish {"geographies":["00000000-0000-4000-8000-000000000101"],"policies":["00000000-0000-4000-8000-000000000201"]}
2000 alfa POST /fleet/events {"device_id":"00000000-0000-4000-8000-000000000401","vehicle_type":"scooter","propulsion_types":["electric"],"vehicle_state":"available","event_types":["trip_end"],"timestamp":2000,"location":{"lat":5,"lng":5}}
2000 alfa GET /compliance
2001 alfa POST /fleet/events {"device_id":"00000000-0000-4000-8000-000000000402","vehicle_type":"scooter","propulsion_types":["electric"],"vehicle_state":"available","event_types":["trip_end"],"timestamp":2001,"location":{"lat":5,"lng":5}}
2001 alfa GET /compliance
"#;

const CAP_ANSWERS: &[u8] = br#"200 {"result":"new"}
200 {"result":"new"}
200 {"published_date":1000,"revision":1}
200 {"result":"new"}
200 {"at":2000,"policies":[{"policy_id":"00000000-0000-4000-8000-000000000201","rules":[{"measure":1,"rule_id":"00000000-0000-4000-8000-000000000301","status":"ok"}]}],"revision":1,"version":2}
200 {"result":"new"}
200 {"at":2001,"policies":[{"policy_id":"00000000-0000-4000-8000-000000000201","rules":[{"devices":["00000000-0000-4000-8000-000000000401","00000000-0000-4000-8000-000000000402"],"measure":2,"rule_id":"00000000-0000-4000-8000-000000000301","status":"violated"}]}],"revision":1,"version":2}
"#;

/// A reader that gives few bytes at a time, and of which one read may fail.
#[derive(Drop)]
struct SlowReader<'a> {
    rest: &'a [u8],
    size: usize,
    // how many reads succeed before the one that fails
    sound: Option<usize>,
}

impl Read for SlowReader<'_> {
    fn read(&mut self, buffer: &mut [u8]) -> io::Result<usize> {
        match self.sound {
            Some(0) => {
                self.sound = None;
                return Err(io::Error::from(ErrorKind::Other));
            }
            Some(sound) => self.sound = Some(sound - 1),
            None => {}
        }
        let count = self.rest.len().min(buffer.len()).min(self.size);
        let (front, rest) = self.rest.split_at(count);
        buffer[..count].copy_from_slice(front);
        self.rest = rest;
        Ok(count)
    }
}

/// A writer that keeps what is written, few bytes at a time, until a write or a flush fails.
#[derive(Drop)]
struct SlowWriter {
    written: Vec<u8>,
    size: usize,
    // how many writes succeed before those that fail
    sound: usize,
    flushes: bool,
}

impl SlowWriter {
    fn new(alloc: Global, size: usize, sound: usize) -> SlowWriter {
        SlowWriter {
            written: Vec::new(alloc),
            size,
            sound,
            flushes: true,
        }
    }
}

impl Write for SlowWriter {
    fn write(&mut self, bytes: &[u8]) -> io::Result<usize> {
        if self.sound == 0 {
            return Err(io::Error::from(ErrorKind::Other));
        }
        self.sound -= 1;
        let count = bytes.len().min(self.size);
        self.written.extend_from_slice(&bytes[..count])?;
        Ok(count)
    }

    fn flush(&mut self) -> io::Result<()> {
        if self.flushes {
            Ok(())
        } else {
            Err(io::Error::from(ErrorKind::Other))
        }
    }
}

/// The output for a script.
fn replay_output(alloc: Global, script: &[u8]) -> Result<Vec<u8>, ReplayFault> {
    run::<World<Plain>, _, _>(alloc, script, Vec::new(alloc))
}

const SIZES: &[usize] = &[1, 2, 7, 1000];

/// Whether the script is answered where at most so many bytes are read and written at a time.
fn is_answered(alloc: Global, size: usize) -> bool {
    let source = SlowReader {
        rest: CAP,
        size,
        sound: None,
    };
    let mut sink = SlowWriter::new(alloc, size, usize::MAX);
    let ended = run::<World<Plain>, _, _>(alloc, source, &mut sink).map(drop);
    ended == Ok(()) && sink.written.as_slice() == CAP_ANSWERS
}

#[test]
fn takes_pieces_of_any_size(rt: HostRuntime) {
    for size in SIZES {
        assert!(rt; is_answered(rt.alloc(), *size), "{size} at a time");
    }
}

/// Whether the replay ended with this fault, after a prefix of the answers was written.
fn is_prefix_at_fault(
    ended: Result<(), ReplayFault>,
    fault: ReplayFault,
    sink: &SlowWriter,
) -> bool {
    ended == Err(fault) && CAP_ANSWERS.starts_with(&sink.written)
}

/// Whether the replay stops at the read after so many.
fn stops_reading(alloc: Global, sound: usize) -> bool {
    let source = SlowReader {
        rest: CAP,
        size: 100,
        sound: Some(sound),
    };
    let mut sink = SlowWriter::new(alloc, 1000, usize::MAX);
    let ended = run::<World<Plain>, _, _>(alloc, source, &mut sink).map(drop);
    is_prefix_at_fault(ended, ReplayFault::Read, &sink)
}

/// One read fails, and those after it would succeed: a prefix of the answers was written.
#[test]
fn stops_at_a_failed_read(rt: HostRuntime) {
    for sound in 0..=CAP.len().div_ceil(100) {
        assert!(rt; stops_reading(rt.alloc(), sound), "after {sound} reads");
    }
}

/// Whether the replay stops at the write after so many.
fn stops_writing(alloc: Global, sound: usize) -> bool {
    let mut sink = SlowWriter::new(alloc, 40, sound);
    let ended = run::<World<Plain>, _, _>(alloc, CAP, &mut sink).map(drop);
    is_prefix_at_fault(ended, ReplayFault::Write, &sink)
}

#[test]
fn stops_at_a_failed_write(rt: HostRuntime) {
    for sound in 0..CAP_ANSWERS.len().div_ceil(40) {
        assert!(rt; stops_writing(rt.alloc(), sound), "after {sound} writes");
    }
}

#[test]
fn reports_a_failed_flush(rt: HostRuntime) {
    let mut sink = SlowWriter::new(rt.alloc(), 1000, usize::MAX);
    sink.flushes = false;
    let ended = run::<World<Plain>, _, _>(rt.alloc(), CAP, &mut sink).map(drop);
    assert!(rt; ended == Err(ReplayFault::Write));
}

const NO_MEMORY: &[u8] = b"503 {\"error\":\"no_memory\"}\n";

/// Checks that the lines are the answers, or a prefix of them and then one 503 `no_memory`.
fn assert_answers_or_prefix(rt: &impl Abort, written: &[u8]) {
    let mut lines = written.split_inclusive(|byte| *byte == b'\n');
    for answer in CAP_ANSWERS.split_inclusive(|byte| *byte == b'\n') {
        match lines.next() {
            Some(line) if line == answer => {}
            Some(line) => {
                assert!(rt; line == NO_MEMORY);
                return;
            }
            None => panic!(rt; "an answer is missing"),
        }
    }
    assert!(rt; lines.next().is_none());
}

/// With one allocation refused, whichever it is: either the replay runs out of memory, or one answer is 503 and those
/// before it are as usual.
#[test]
fn survives_out_of_memory(rt: HostRuntime) {
    match replay_output(rt.alloc(), CAP) {
        Ok(written) => assert_answers_or_prefix(&rt, &written),
        // the vector that is written to ran out of memory
        Err(ReplayFault::NoMemory | ReplayFault::Write) => {}
        Err(fault) => panic!(rt; "{}", fault.message()),
    }
}
