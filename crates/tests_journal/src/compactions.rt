//! Tests of what is recorded of compactions: texts and histories worked out by hand, and which journal tells of a moment.
use crate::archive::{MemoryArchive, journal_bytes};
use crate::journal::{FIRST_LATER, OLD, TimedExchange};
use journal_folder::{
    ArchiveFault, Compaction, PastSource, archive_journal, first_text, further_text,
    journal_latest, latest_moment, read_compactions, source_of,
};
use mds_text::Moment;
use std::alloc::Global;
use std::process::Abort;
use tests_fixtures::{PUBLISH, PUT_CAP, PUT_SQUARE, REPORT_FIRST, REPORT_SECOND};

/// A journal of a machine whose clock went back before the last entry.
const BACK: &[TimedExchange<'static>] = &[
    (1000, &PUT_SQUARE),
    (1000, &PUT_CAP),
    (1000, &PUBLISH),
    (2001, &REPORT_FIRST),
    (2000, &REPORT_SECOND),
];

/// The compacted journal, and a report behind it.
const SECOND: &[TimedExchange<'static>] = &[
    (1000, &PUT_SQUARE),
    (1000, &PUT_CAP),
    (1000, &PUBLISH),
    (2000, &REPORT_FIRST),
    (2002, FIRST_LATER),
    (3000, &REPORT_SECOND),
];

/// That one, compacted, and a further report.
const THIRD: &[TimedExchange<'static>] = &[
    (1000, &PUT_SQUARE),
    (1000, &PUT_CAP),
    (1000, &PUBLISH),
    (2000, &REPORT_FIRST),
    (2002, FIRST_LATER),
    (3000, &REPORT_SECOND),
    (4000, FIRST_LATER),
];

/// Texts that have no line for each compaction.
const DAMAGED: &[&str] = &[
    "2002 -",
    "2002\n",
    "\n",
    " -\n",
    "2002  -\n",
    "02002 -\n",
    "+2002 -\n",
    "-2002 -\n",
    "2002 -\r\n",
    "2002 - \n",
    "2002 other\n",
    "2002 journal\n",
    "2002 journal-1/../2\n",
    "2002 journal-1 2\n",
    "4102444800000 -\n",
    "99999999999999999999 -\n",
    "now -\n",
    "2002 -\n\n",
    "2002 -\nrest",
];

/// A moment.
fn moment(rt: &impl Abort, millis: i64) -> Moment {
    Moment::new(millis).expect(rt, "a moment")
}

/// Checks that an archived journal tells of a moment: the one of this name and with this latest moment.
fn expect_archived(
    rt: &impl Abort,
    compactions: &[Compaction<'_>],
    at: i64,
    name: &str,
    latest: i64,
) {
    match source_of(compactions, moment(rt, at)) {
        PastSource::Archived(journal) => {
            assert!(rt; journal.name == name && journal.latest.get() == latest)
        }
        _ => assert!(rt; false),
    }
}

/// Checks that the journal in the folder tells of a moment.
fn expect_present(rt: &impl Abort, compactions: &[Compaction<'_>], at: i64) {
    assert!(rt; matches!(source_of(compactions, moment(rt, at)), PastSource::Present));
}

/// Checks that no journal tells of a moment any more.
fn expect_not_kept(rt: &impl Abort, compactions: &[Compaction<'_>], at: i64) {
    assert!(rt; matches!(source_of(compactions, moment(rt, at)), PastSource::NotKept));
}

/// The compactions of a text that has a line for each.
fn compactions<'a>(rt: &impl Abort, alloc: Global, text: &'a str) -> Vec<Compaction<'a>> {
    match read_compactions(alloc, text) {
        Ok(Some(compactions)) => compactions,
        _ => panic!(rt; "compactions"),
    }
}

/// The latest moment is the greatest, though the last entry is of an earlier one; a journal without entries has none.
#[test]
fn journals_have_latest_moments(rt: HostRuntime) {
    let alloc = rt.alloc();
    let bytes = journal_bytes(alloc, BACK).expect(&rt, "a journal");
    match journal_latest(alloc, &bytes) {
        Ok(Some(latest)) => assert!(rt; latest.get() == 2001),
        _ => assert!(rt; false),
    }
    let bytes = journal_bytes(alloc, &[]).expect(&rt, "a journal");
    assert!(rt; matches!(journal_latest(alloc, &bytes), Ok(None)));
    assert!(rt; latest_moment(&[]).is_none());
}

/// Bytes that are no whole journal have no latest moment.
#[test]
fn no_journal_has_no_latest_moment(rt: HostRuntime) {
    let alloc = rt.alloc();
    let mut cut = journal_bytes(alloc, OLD).expect(&rt, "a journal");
    let _ = cut.pop();
    assert!(rt; matches!(journal_latest(alloc, &cut), Err(ArchiveFault::Damaged)));
}

/// Lines are read in their order, with a name and without.
#[test]
fn lines_are_read(rt: HostRuntime) {
    let text = "2002 journal-1000-2002.1\n0 -\n4102444799999 journal-0-4102444799999\n";
    let read = compactions(&rt, rt.alloc(), text);
    assert!(rt; read.len() == 3);
    assert!(rt; read[0].latest.get() == 2002 && read[0].archived == Some("journal-1000-2002.1"));
    assert!(rt; read[1].latest.get() == 0 && read[1].archived.is_none());
    assert!(rt; read[2].latest.get() == 4_102_444_799_999);
    assert!(rt; compactions(&rt, rt.alloc(), "").is_empty());
}

/// Another text is damaged.
#[test]
fn other_texts_are_damaged(rt: HostRuntime) {
    for text in DAMAGED {
        let read = read_compactions(rt.alloc(), text);
        assert!(rt; matches!(read, Ok(None)), "{text}");
    }
}

/// A folder of which nothing is known begins with its journal's latest moment, and a further line comes behind.
#[test]
fn lines_are_written(rt: HostRuntime) {
    let alloc = rt.alloc();
    let empty = first_text(alloc, None).expect(&rt, "memory");
    assert!(rt; empty.as_str() == "");
    let first = first_text(alloc, Some(moment(&rt, 2002))).expect(&rt, "memory");
    assert!(rt; first.as_str() == "2002 -\n");
    let further = Compaction {
        latest: moment(&rt, 3000),
        archived: Some("journal-2002-3000"),
    };
    let text = further_text(alloc, first.as_str(), &further).expect(&rt, "memory");
    assert!(rt; text.as_str() == "2002 -\n3000 journal-2002-3000\n");
}

/// Of a moment tells the journal of the first compaction that had a later entry; a compaction's latest moment is told by
/// what comes after it.
#[test]
fn the_first_journal_that_goes_further_tells(rt: HostRuntime) {
    let alloc = rt.alloc();
    let text = "1000 -\n2000 journal-1-2000\n3000 journal-2-3000\n";
    let known = compactions(&rt, alloc, text);
    expect_not_kept(&rt, &known, 0);
    expect_not_kept(&rt, &known, 999);
    expect_archived(&rt, &known, 1000, "journal-1-2000", 2000);
    expect_archived(&rt, &known, 1999, "journal-1-2000", 2000);
    expect_archived(&rt, &known, 2000, "journal-2-3000", 3000);
    expect_present(&rt, &known, 3000);
    expect_present(&rt, &[], 0);
    // The clock went back between them: what the second one dropped is in front of all moments from 3000 on.
    let known = compactions(&rt, alloc, "3000 journal-1-3000\n2000 -\n");
    expect_archived(&rt, &known, 2500, "journal-1-3000", 3000);
    expect_present(&rt, &known, 3000);
}

/// The text once the journal of these bytes is compacted, which is archived where an archive is given.
fn text_after_compaction(
    rt: &impl Abort,
    alloc: Global,
    text: &str,
    archive: Option<&mut MemoryArchive>,
    bytes: &[u8],
) -> String {
    let latest = journal_latest(alloc, bytes).expect(rt, "a journal");
    let name = match archive {
        Some(archive) => archive_journal(alloc, archive, bytes).expect(rt, "an archived journal"),
        None => None,
    };
    let archived = match &name {
        Some(name) => Some(name.as_str()),
        None => None,
    };
    let compaction = Compaction {
        latest: latest.expect(rt, "an entry"),
        archived,
    };
    further_text(alloc, text, &compaction).expect(rt, "memory")
}

/// A new city's journal is compacted three times, the second time without an archive. What stood in front of the first
/// two is told by the first archived journal, and what came between them isn't kept.
#[test]
fn a_history_has_a_journal_for_each_moment(rt: HostRuntime) {
    let alloc = rt.alloc();
    let old = journal_bytes(alloc, OLD).expect(&rt, "a journal");
    let second = journal_bytes(alloc, SECOND).expect(&rt, "a journal");
    let third = journal_bytes(alloc, THIRD).expect(&rt, "a journal");
    let mut kept = MemoryArchive::new(alloc, u32::MAX);
    let text = first_text(alloc, None).expect(&rt, "memory");
    let text = text_after_compaction(&rt, alloc, text.as_str(), Some(&mut kept), &old);
    let text = text_after_compaction(&rt, alloc, text.as_str(), None, &second);
    let text = text_after_compaction(&rt, alloc, text.as_str(), Some(&mut kept), &third);
    assert!(rt; text.as_str() == "2002 journal-1000-2002\n3000 -\n4000 journal-1000-4000\n");
    let known = compactions(&rt, alloc, text.as_str());
    expect_archived(&rt, &known, 2001, "journal-1000-2002", 2002);
    expect_not_kept(&rt, &known, 2002);
    expect_not_kept(&rt, &known, 2999);
    expect_archived(&rt, &known, 3000, "journal-1000-4000", 4000);
    expect_archived(&rt, &known, 3999, "journal-1000-4000", 4000);
    expect_present(&rt, &known, 4000);
    assert!(rt; kept.file("journal-1000-2002") == Some(old.as_slice()));
    assert!(rt; kept.file("journal-1000-4000") == Some(third.as_slice()));
}
