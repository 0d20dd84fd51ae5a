//! The public documents are made behind the note that they are cached with.
use mds_snapshot::Note;
use server_public::{CachedDocuments, DocumentSource, PublicDocuments};
use server_state::HallName;
use std::alloc::AllocError;
use std::cell::Cell;
use std::marker::Brand;

/// A source without documents, which sees whether it is asked for the note first.
#[derive(Drop)]
struct NoteProbe {
    is_noted: Cell<bool>,
    is_noted_first: Cell<bool>,
}

impl<K: HallName> DocumentSource<K> for NoteProbe {
    fn note(&self) -> Option<Note<K>> {
        self.is_noted.set(true);
        None
    }

    fn documents(&self) -> Result<PublicDocuments, AllocError> {
        self.is_noted_first.set(self.is_noted.get());
        Err(AllocError)
    }
}

/// A publication that comes while documents are made is later than their note, so that they are made again.
#[test]
fn the_note_is_read_before_the_documents(rt: HostRuntime) {
    let probe = NoteProbe {
        is_noted: Cell::new(false),
        is_noted_first: Cell::new(false),
    };
    assert!(rt; CachedDocuments::<Brand>::of(&probe).is_err());
    assert!(rt; probe.is_noted_first.get());
}
