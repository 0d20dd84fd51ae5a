//! Tests of what a state folder decides on files and on journals.
use journal_file::{JournalEnding, JournalOpenFault, Signature};
use journal_folder::{
    ArchiveSlot, Damage, FolderFault, Identity, JournalSpan, NameOwner, PathEntry, archive_name,
    damage_of, owner_of, slot_of, survey_of,
};
use mds_text::Moment;

const OPENED: Identity = Identity {
    device: 1,
    number: 7,
};

#[test]
fn owners_are_decided(rt: HostRuntime) {
    let renamed = Identity {
        device: 1,
        number: 8,
    };
    assert!(rt; owner_of(OPENED, PathEntry::File(OPENED)) == NameOwner::Opened);
    assert!(rt; owner_of(OPENED, PathEntry::File(renamed)) == NameOwner::Another);
    assert!(rt; owner_of(OPENED, PathEntry::Nothing) == NameOwner::Another);
    assert!(rt; owner_of(OPENED, PathEntry::Other) == NameOwner::NoFile);
}

#[test]
fn damage_is_described(rt: HostRuntime) {
    assert!(rt; damage_of(59, JournalEnding::Torn).is_none());
    assert!(rt; damage_of(59, JournalEnding::Unexplained) == Some(Damage::Unexplained(59)));
    let survey = survey_of(rt.alloc(), b"\x1f\x8b\x08").expect(&rt, "memory");
    let damage = damage_of(survey.whole, survey.ending);
    assert!(rt; damage == Some(Damage::Foreign(Signature::Gzip)));
    let words = "it doesn't begin as a journal does, but with data that was compressed with gzip";
    let told = format!(in rt.alloc(); "{}", Damage::Foreign(Signature::Gzip)).expect(&rt, "memory");
    assert!(rt; told.as_str() == words);
}

#[test]
fn archived_journals_have_names(rt: HostRuntime) {
    let span = JournalSpan {
        first: Moment::new(0).expect(&rt, "a moment"),
        last: Moment::new(4_102_444_799_999).expect(&rt, "a moment"),
    };
    let name = archive_name(rt.alloc(), &span, 0).expect(&rt, "memory");
    assert!(rt; name.as_str() == "journal-0-4102444799999");
    let name = archive_name(rt.alloc(), &span, 12).expect(&rt, "memory");
    assert!(rt; name.as_str() == "journal-0-4102444799999.12");
}

#[test]
fn names_with_other_bytes_are_taken(rt: HostRuntime) {
    assert!(rt; slot_of(None, b"one") == ArchiveSlot::Free);
    assert!(rt; slot_of(Some(b"one"), b"one") == ArchiveSlot::Same);
    assert!(rt; slot_of(Some(b"two"), b"one") == ArchiveSlot::Taken);
}

#[test]
fn refusals_have_statuses(rt: HostRuntime) {
    assert!(rt; FolderFault::from(JournalOpenFault::Moved(71)).status() == 5);
    assert!(rt; FolderFault::from(JournalOpenFault::NotKept).status() == 4);
    assert!(rt; FolderFault::Linked.status() == 4);
}
