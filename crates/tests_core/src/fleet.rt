//! A book: with one allocation refused, the words that its vehicles share, and the buffers that it reuses. A script
//! compares a book of many vehicles with a plain list (`tests/replays.py`).

use crate::square::{device, instant, position, word, words};
use mds_fleet::{Book, BookFault, Report, Taken};
use mds_match::Words;
use std::alloc::Global;
use std::process::Abort;
use std::sync::Arc;
use tests_fixtures::REPORT_FIRST;

/// More devices than a node of the book's map holds.
const DEVICES: u32 = 40;

/// A word without types, made a second time where memory ran out.
fn words_at_last(rt: &impl Abort, alloc: Global, text: &str) -> Arc<Words> {
    match words(rt, alloc, text) {
        Ok(words) => words,
        Err(_) => words(rt, alloc, text).expect(rt, "memory"),
    }
}

/// A report without types of propulsion and of events.
fn report(rt: &impl Abort, alloc: Global, number: u32, timestamp: i64) -> Report {
    Report {
        device: device(rt, number),
        make: words_at_last(rt, alloc, "scooter"),
        condition: words_at_last(rt, alloc, "available"),
        timestamp: instant(rt, timestamp),
        position: position(rt, 5, 5),
    }
}

/// Makes the first report of a device. It is accepted; or memory runs out, nothing changes, and a second try is
/// accepted.
fn expect_new(rt: &impl Abort, alloc: Global, book: &mut Book, number: u32) {
    let mut taken = book.report(report(rt, alloc, number, 2000), instant(rt, 2000));
    if taken == Err(BookFault::NoMemory) {
        assert!(rt; book.get(device(rt, number)).is_none());
        taken = book.report(report(rt, alloc, number, 2000), instant(rt, 2000));
    }
    assert!(rt; taken == Ok(Taken::New));
}

/// Makes a further report of a known device, one of a device too many, and removals, none of which needs memory.
fn expect_changed(rt: &impl Abort, alloc: Global, book: &mut Book) {
    let changed = book.report(report(rt, alloc, 0, 2001), instant(rt, 2001));
    assert!(rt; changed == Ok(Taken::Changed));
    let further = book.report(report(rt, alloc, DEVICES, 2001), instant(rt, 2001));
    assert!(rt; further == Err(BookFault::FleetFull));
    for number in 0..DEVICES {
        let removed = book.remove(device(rt, number)).expect(rt, "held");
        assert!(rt; removed.device == device(rt, number));
    }
}

/// With one allocation refused, whichever it is, one report runs out of memory and changes nothing, and the same
/// report is accepted at the second try.
#[test]
fn accepts_and_removes_or_runs_out_of_memory(rt: HostRuntime) {
    let alloc = rt.alloc();
    let mut book = Book::new(alloc, DEVICES);
    for number in 0..DEVICES {
        expect_new(&rt, alloc, &mut book, number);
    }
    assert!(rt; book.len() == 40);
    expect_changed(&rt, alloc, &mut book);
    assert!(rt; book.len() == 0);
}

/// Vehicles with the same words share one `Arc` of them, also after further reports.
#[test]
fn shares_words(rt: HostRuntime) {
    let alloc = rt.alloc();
    let mut book = Book::new(alloc, DEVICES);
    for moment in [2000, 2001] {
        for number in 0..3 {
            let taken = book.report(report(&rt, alloc, number, moment), instant(&rt, moment));
            assert!(rt; taken.is_ok());
        }
    }
    let vehicle = book.get(device(&rt, 0)).expect(&rt, "held");
    assert!(rt; vehicle.vehicle_type() == word(&rt, "scooter"));
    assert!(rt; vehicle.state() == word(&rt, "available"));
    // Three vehicles, and the book, for those to come.
    assert!(rt; Arc::strong_count(&vehicle.make) == 4);
    assert!(rt; Arc::strong_count(&vehicle.condition) == 4);
}

/// Texts are read alike by the buffers that a book reuses: again and again, and after a text that is no JSON. So is a
/// text that is too long for these buffers.
#[test]
fn reads_by_its_own_buffers(rt: HostRuntime) {
    let alloc = rt.alloc();
    let mut book = Book::new(alloc, DEVICES);
    let mut text = Vec::new(alloc);
    text.extend_from_slice(REPORT_FIRST.body.as_bytes())
        .expect(&rt, "memory");
    for spaces in [0, 10, 5_000] {
        for _ in 0..spaces {
            text.push(b' ').expect(&rt, "memory");
        }
        let report = book.read_report(&text).expect(&rt, "a report");
        assert!(rt; report.vehicle_type() == word(&rt, "scooter"));
        assert!(rt; report.timestamp == instant(&rt, 2000));
        assert!(rt; book.read_report(b"{").is_err());
    }
}
