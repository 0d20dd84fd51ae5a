//! Compaction of a journal on a disk that fails at each of its calls.
use crate::disk::{Disk, FailingCalls, JournalOnDisk, NewFileStorage};
use crate::journal::{COMPACTED, OLD, texts};
use crate::runtime::JournalRuntime;
use journal_compaction::{CompactFault, Counts, SourceJournal, compact_at};
use journal_file::Journal;
use journal_folder::{ArchiveFault, FolderFault};
use mds_text::Moment;
use std::alloc::Global;
use std::process::Abort;
use std::sync::Wait;
use tests_fixtures::CONFIGURATION;

/// How many calls on a disk succeed before the last one of a compaction: one to make an empty file, three to open and
/// read it, two to append the head and the entries, one to read them back, one to sync them, one to archive the old
/// journal, one to record that it is compacted, and one to rename the file. The last one syncs the file names.
const LAST: u32 = 11;

/// How many succeed of them before the compaction is recorded.
const RECORDED: u32 = 9;

/// The old journal was compacted.
const SIX_TO_FIVE: CompactionOutcome = CompactionOutcome::Thinned(Counts {
    before: 6,
    after: 5,
});

/// The compacted journal was compacted again.
const FIVE_TO_FIVE: CompactionOutcome = CompactionOutcome::Thinned(Counts {
    before: 5,
    after: 5,
});

/// How a compaction ended.
#[derive(Clone, Copy, Debug, PartialEq, Eq)]
enum CompactionOutcome {
    Thinned(Counts),
    /// A call on the disk failed.
    NotAnswered,
    /// Memory ran out.
    NoMemory,
    /// Another fault.
    Refused,
}

/// The outcome that a fault stands for.
fn outcome_of(fault: CompactFault) -> CompactionOutcome {
    match fault {
        CompactFault::NotWritten
        | CompactFault::Folder(FolderFault::Unusable)
        | CompactFault::NotArchived(ArchiveFault::Unusable) => CompactionOutcome::NotAnswered,
        CompactFault::NoMemory => CompactionOutcome::NoMemory,
        _ => CompactionOutcome::Refused,
    }
}

/// Compacts a journal of these payloads on the disk that has it, and compares the servers at this moment.
fn compact_payloads<R: Wait>(
    rt: &R,
    alloc: Global,
    disk: &Disk,
    texts: &[Vec<u8>],
    at: Moment,
) -> CompactionOutcome {
    let old = SourceJournal {
        config: CONFIGURATION,
        texts,
        at,
    };
    match compact_at::<JournalOnDisk<'_>, Journal<NewFileStorage<'_>>, R>(
        rt,
        alloc,
        &mut JournalOnDisk { disk },
        &old,
    ) {
        Ok(counts) => CompactionOutcome::Thinned(counts),
        Err(fault) => outcome_of(fault),
    }
}

/// Compacts the journal of a disk, and compares the servers at 2003.
fn compact_on<R: Wait>(rt: &R, alloc: Global, disk: &Disk) -> CompactionOutcome {
    let Some(at) = Moment::new(2003) else {
        return CompactionOutcome::Refused;
    };
    match disk.texts() {
        Some(texts) => compact_payloads(rt, alloc, disk, &texts, at),
        None => CompactionOutcome::NoMemory,
    }
}

/// Compacts with one allocation that may be refused: then the outcome is `NoMemory`, the old journal is still there,
/// and a second call succeeds. `None` where the allocation was one of the test's own.
fn compacts<R: JournalRuntime>(rt: &R) -> Option<()> {
    let alloc = rt.alloc();
    let old = texts(alloc, OLD)?;
    let thinned = texts(alloc, COMPACTED)?;
    let disk = Disk::new(alloc, &old, u32::MAX, FailingCalls::Onward)?;
    let mut outcome = compact_on(rt, alloc, &disk);
    if outcome == CompactionOutcome::NoMemory {
        assert!(rt; has_journal(rt, &disk, &old));
        outcome = compact_on(rt, alloc, &disk);
    }
    assert!(rt; outcome == SIX_TO_FIVE);
    let standing = disk.texts()?;
    assert!(rt; standing == thinned);
    Some(())
}

/// Whether a disk's journal has these payloads.
fn has_journal(rt: &impl Abort, disk: &Disk, texts: &[Vec<u8>]) -> bool {
    let standing = disk.texts().expect(rt, "a journal");
    standing.as_slice() == texts
}

/// Whether the journal that a disk archived last has these payloads.
fn has_archived(rt: &impl Abort, disk: &Disk, texts: &[Vec<u8>]) -> bool {
    let archived = disk.archived_texts().expect(rt, "an archived journal");
    archived.as_slice() == texts
}

/// Compacts on a disk on which so many calls succeed. Then the fault is reported, and the old journal is still there;
/// or the compacted one, where it was renamed and it isn't known whether that is synced. A second call on the mended
/// disk succeeds, and then the compacted journal is there. Whichever journal was replaced is archived, and its compaction
/// recorded; it is also where the file couldn't be renamed then.
fn fails<R: JournalRuntime>(rt: &R, calls: u32, failing: FailingCalls) {
    let alloc = rt.alloc();
    let old = texts(alloc, OLD).expect(rt, "a journal");
    let thinned = texts(alloc, COMPACTED).expect(rt, "a thinned journal");
    let disk = Disk::new(alloc, &old, calls, failing).expect(rt, "a disk");
    assert!(rt;
        compact_on(rt, alloc, &disk) == CompactionOutcome::NotAnswered,
        "at call {calls}"
    );
    let (standing, again) = if calls == LAST {
        assert!(rt; has_archived(rt, &disk, &old));
        (&thinned, FIVE_TO_FIVE)
    } else {
        (&old, SIX_TO_FIVE)
    };
    assert!(rt; has_journal(rt, &disk, standing), "at call {calls}");
    let recorded = u32::from(calls > RECORDED);
    assert!(rt; disk.compaction_count() == recorded, "at call {calls}");
    disk.mend();
    assert!(rt; compact_on(rt, alloc, &disk) == again, "at call {calls}");
    assert!(rt; has_archived(rt, &disk, standing), "at call {calls}");
    assert!(rt; disk.compaction_count() == recorded + 1, "at call {calls}");
    assert!(rt; has_journal(rt, &disk, &thinned), "at call {calls}");
}

#[test]
fn a_disk_that_stops_leaves_a_whole_journal(rt: HostRuntime) {
    for calls in 0..=LAST {
        fails(&rt, calls, FailingCalls::Onward);
    }
}

#[test]
fn a_call_that_fails_leaves_a_whole_journal(rt: HostRuntime) {
    for calls in 0..=LAST {
        fails(&rt, calls, FailingCalls::Once);
    }
}

/// Six entries are compacted to five, by so many calls.
#[test]
fn compacts_with_no_call_more(rt: HostRuntime) {
    let old = texts(rt.alloc(), OLD).expect(&rt, "a journal");
    let thinned = texts(rt.alloc(), COMPACTED).expect(&rt, "a thinned journal");
    let disk = Disk::new(rt.alloc(), &old, LAST + 1, FailingCalls::Onward).expect(&rt, "a disk");
    assert!(rt; compact_on(&rt, rt.alloc(), &disk) == SIX_TO_FIVE);
    assert!(rt; has_journal(&rt, &disk, &thinned));
}

#[test]
fn compacts_or_runs_out_of_memory(rt: HostRuntime) {
    if compacts(&rt).is_none() {
        compacts(&rt).expect(&rt, "memory");
    }
}
