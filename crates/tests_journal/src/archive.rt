//! Tests of archived journals, by their bytes: the names and the bytes of the files that an archive in memory has in the
//! end, and the entries that lie in a journal's bytes.
use crate::journal::{COMPACTED, OLD, TimedExchange, texts};
use journal_file::{Journal, Log, MemoryStorage};
use journal_folder::{
    Archive, ArchiveFault, ArchiveSlot, archive_journal, journal_span, lent_entries_in,
    lent_survey_of,
};
use std::alloc::Global;
use std::process::Abort;

/// An archive in memory, on which so many calls succeed before each one fails.
#[derive(Drop)]
pub(crate) struct MemoryArchive {
    alloc: Global,
    names: Vec<String>,
    files: Vec<Vec<u8>>,
    calls_left: u32,
}

impl MemoryArchive {
    /// An empty archive.
    pub(crate) fn new(alloc: Global, calls_left: u32) -> MemoryArchive {
        MemoryArchive {
            alloc,
            names: Vec::new(alloc),
            files: Vec::new(alloc),
            calls_left,
        }
    }

    /// The bytes of the file of this name.
    pub(crate) fn file(&self, name: &str) -> Option<&[u8]> {
        for place in 0..self.names.len() {
            if self.names[place].as_str() == name {
                return Some(self.files.get(place)?.as_slice());
            }
        }
        None
    }

    /// Counts a call.
    ///
    /// # Errors
    ///
    /// `Unusable` where it fails.
    fn count_call(&mut self) -> Result<(), ArchiveFault> {
        if self.calls_left == 0 {
            return Err(ArchiveFault::Unusable);
        }
        self.calls_left -= 1;
        Ok(())
    }
}

impl Archive for MemoryArchive {
    ghost use Rattle.std.specs.Prelude.{⊤};

    // these tests look at the files themselves
    ghost has = { λ _ _ _. ⊤ };

    fn slot_at(&mut self, name: &str, bytes: &[u8]) -> Result<ArchiveSlot, ArchiveFault> {
        self.count_call()?;
        Ok(match self.file(name) {
            None => ArchiveSlot::Free,
            Some(found) if found == bytes => ArchiveSlot::Same,
            Some(_) => ArchiveSlot::Taken,
        })
    }

    fn keep(&mut self, name: &str, bytes: &[u8]) -> Result<(), ArchiveFault> {
        self.count_call()?;
        let name = String::from_str(self.alloc, name)?;
        let file = Vec::from_slice(self.alloc, bytes)?;
        if self.files.push(file).is_err() || self.names.push(name).is_err() {
            return Err(ArchiveFault::NoMemory);
        }
        Ok(())
    }
}

/// The bytes of a journal of these requests; `None` where memory ran out.
pub(crate) fn journal_bytes(alloc: Global, asked: &[TimedExchange<'_>]) -> Option<Vec<u8>> {
    let storage = MemoryStorage {
        bytes: Vec::new(alloc),
        calls_left: 5,
        is_synced: true,
    };
    let mut log = Journal::open(alloc, storage).ok()?;
    log.append(0, &texts(alloc, asked)?).ok()?;
    Some(log.into_storage().bytes)
}

/// Archives bytes, which succeeds, and checks that they have this name then, or none.
fn archive(rt: &impl Abort, kept: &mut MemoryArchive, bytes: &[u8], name: Option<&str>) {
    let alloc = kept.alloc;
    let archived = archive_journal(alloc, kept, bytes).expect(rt, "an archived journal");
    match (archived, name) {
        (Some(archived), Some(name)) => assert!(rt; archived.as_str() == name),
        (None, None) => {}
        _ => assert!(rt; false),
    }
}

/// Checks that bytes aren't archived, since they are no whole journal.
fn expect_damaged(rt: &impl Abort, kept: &mut MemoryArchive, bytes: &[u8]) {
    let alloc = kept.alloc;
    assert!(rt;
        matches!(
            archive_journal(alloc, kept, bytes),
            Err(ArchiveFault::Damaged)
        )
    );
}

/// The span of a journal is of its first and its last entry; one without entries has none.
#[test]
fn journals_have_spans(rt: HostRuntime) {
    let alloc = rt.alloc();
    let bytes = journal_bytes(alloc, OLD).expect(&rt, "a journal");
    match journal_span(alloc, &bytes) {
        Ok(Some(span)) => assert!(rt; span.first.get() == 1000 && span.last.get() == 2002),
        _ => assert!(rt; false),
    }
    let bytes = journal_bytes(alloc, &[]).expect(&rt, "a journal");
    assert!(rt; matches!(journal_span(alloc, &bytes), Ok(None)));
}

/// Checks that the entries behind the head lie in a journal's bytes: so many, and the first one of this moment.
fn expect_entries(rt: &impl Abort, alloc: Global, texts: &[&[u8]], count: usize, first: i64) {
    match lent_entries_in(alloc, 1, texts) {
        Ok(entries) => {
            assert!(rt; entries.len() == count);
            assert!(rt; matches!(entries.first(), Some(entry) if entry.at.get() == first));
        }
        Err(_) => assert!(rt; false),
    }
}

/// The payloads of a journal are found where they lie in its bytes, the head first, without the marks.
#[test]
fn entries_lie_in_the_bytes(rt: HostRuntime) {
    let alloc = rt.alloc();
    let bytes = journal_bytes(alloc, OLD).expect(&rt, "a journal");
    let survey = lent_survey_of(alloc, &bytes).expect(&rt, "memory");
    assert!(rt; survey.whole == bytes.len() as u64);
    match survey.texts.split_first() {
        Some((_, rest)) => expect_entries(&rt, alloc, rest, 6, 1000),
        None => assert!(rt; false),
    }
}

/// A journal is archived once, under the same name each time, and another of the same span beside it; the first one stays
/// as it was.
#[test]
fn journals_are_archived_by_their_spans(rt: HostRuntime) {
    let alloc = rt.alloc();
    let old = journal_bytes(alloc, OLD).expect(&rt, "a journal");
    let thinned = journal_bytes(alloc, COMPACTED).expect(&rt, "a thinned journal");
    let mut kept = MemoryArchive::new(alloc, u32::MAX);
    for _ in 0..2u32 {
        archive(&rt, &mut kept, &old, Some("journal-1000-2002"));
        archive(&rt, &mut kept, &thinned, Some("journal-1000-2002.1"));
    }
    assert!(rt; kept.files.len() == 2);
    assert!(rt; kept.file("journal-1000-2002") == Some(old.as_slice()));
    assert!(rt; kept.file("journal-1000-2002.1") == Some(thinned.as_slice()));
}

/// Bytes that are no whole journal aren't archived, nor is a journal without entries.
#[test]
fn other_bytes_are_not_archived(rt: HostRuntime) {
    let alloc = rt.alloc();
    let mut cut = journal_bytes(alloc, OLD).expect(&rt, "a journal");
    let _ = cut.pop();
    let mut kept = MemoryArchive::new(alloc, u32::MAX);
    expect_damaged(&rt, &mut kept, &cut);
    expect_damaged(&rt, &mut kept, b"other");
    let empty = journal_bytes(alloc, &[]).expect(&rt, "a journal");
    archive(&rt, &mut kept, &empty, None);
    assert!(rt; kept.files.is_empty());
}

/// Where a call of the archive fails that is reported.
#[test]
fn an_archive_that_fails_is_reported(rt: HostRuntime) {
    let alloc = rt.alloc();
    let old = journal_bytes(alloc, OLD).expect(&rt, "a journal");
    for calls in 0..2u32 {
        let mut kept = MemoryArchive::new(alloc, calls);
        let archived = archive_journal(alloc, &mut kept, &old);
        assert!(rt; matches!(archived, Err(ArchiveFault::Unusable)));
        assert!(rt; kept.files.is_empty());
    }
}
