//! Tests of the payloads of entries, whose bytes are worked out by hand.
use journal_entry::{
    EntryClient, EntryFault, HeadFault, JournalEntry, OperatorShare, entry_text, head_text,
    read_entry, read_head,
};
use mds_request::Verb;
use mds_text::{Id, Moment};
use std::alloc::Global;
use std::process::Abort;
use std::test::Fail;

const ALFA: &str = "00000000-0000-4000-8000-0000000000a1";

/// Version 1, moment 1000 (3 times 256 and 232), POST, an operator's identifier, a target of 13 bytes, a body of 2.
const REPORT: &[u8] =
    b"\x01\0\0\0\0\0\0\x03\xe8\x03\x0100000000-0000-4000-8000-0000000000a1\0\0\0\x0d/fleet/events{}";

/// Layout 1, one operator with a limit of 200,000 (3 times 65,536, 13 times 256 and 64).
const HEAD: &[u8] = b"ruffletuff\x0100000000-0000-4000-8000-0000000000a1\0\x03\x0d\x40";

/// An operator's report has this payload, which decodes to the report.
fn has_its_text<'a>(
    rt: &impl Abort,
    alloc: Global,
    target: &'a [u8],
    body: &'a [u8],
    expected: &'a [u8],
) -> Result<(), Fail> {
    let entry = JournalEntry {
        client: EntryClient::Operator(Id::read(ALFA).ok_or("id")?),
        at: Moment::new(1000).ok_or("moment")?,
        verb: Verb::Post,
        target,
        body,
    };
    let text = entry_text(alloc, &entry).ok().ok_or("text")?;
    assert!(rt; text.as_slice() == expected);
    let Ok(read) = read_entry(alloc, expected) else {
        assert!(rt; false);
        return Ok(());
    };
    assert!(rt; read.client == entry.client);
    assert!(rt; read.at == entry.at);
    assert!(rt; read.verb == Verb::Post);
    assert!(rt; read.target == target);
    assert!(rt; read.body == body);
    Ok(())
}

#[test]
fn an_entry_has_its_text(rt: HostRuntime) -> Result<(), Fail> {
    has_its_text(&rt, rt.alloc(), b"/fleet/events", b"{}", REPORT)
}

#[test]
fn another_version_is_named(rt: HostRuntime) {
    assert!(rt; matches!(read_entry(rt.alloc(), b"\x02"), Err(EntryFault::Version(2))));
    assert!(rt; matches!(read_entry(rt.alloc(), b"\x01"), Err(EntryFault::Malformed)));
    assert!(rt;
        matches!(
            read_head(rt.alloc(), b"ruffletuff\x02"),
            Err(HeadFault::Version(2))
        )
    );
    assert!(rt;
        matches!(
            read_head(rt.alloc(), b"ruffle\x01"),
            Err(HeadFault::Malformed)
        )
    );
}

#[test]
fn a_head_has_its_text(rt: HostRuntime) -> Result<(), Fail> {
    let share = OperatorShare {
        id: Id::read(ALFA).ok_or("id")?,
        vehicles: 200_000,
    };
    let text = head_text(rt.alloc(), &[share])?;
    assert!(rt; text.as_slice() == HEAD);
    let shares = read_head(rt.alloc(), HEAD).ok().ok_or("head")?;
    assert!(rt; shares.len() == 1);
    assert!(rt; shares[0] == share);
    Ok(())
}
