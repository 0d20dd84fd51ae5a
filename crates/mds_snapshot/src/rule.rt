//! The invariant of the two copies, and which step moves what a reader or the writer has seen.
//!
//! | Step | What moves |
//! |---|---|
//! | making the publisher's slot, in `open` | its first view, the empty list |
//! | handing out a pane's slot, in `open` | its first view, the empty list |
//! | `Pane::look` | that pane's view, to the front entered |
//! | `Look::leave` | none |
//! | `Publisher::publish` | the publisher's view, to the list with the batch |
//! | making the note, in `publish` | none: a note is a token next to the copies |
//! | `Pane::learn` | what that pane knows, next to the copies |
//! | dropping a pane or finishing the publisher | none |
//!
//! No clause speaks of two panes at once: each step is proved for its one slot. `Note::again` is no step.
use crate::history::{LoggedBatch, OpeningName};
use crate::snapshot_copy::SnapshotCopy;
use crossbeam_utils::rule::{Outcome, Protocol};
use std::marker::PhantomData;

/// The protocol of the copies: what each reader and the writer have seen is a front of what is visible.
pub struct Fronts<K: OpeningName> {
    of: PhantomData<K>,
}

impl<K: OpeningName> Protocol<SnapshotCopy, [LoggedBatch; 0]> for Fronts<K> {
    ghost use Rattle.std.specs.Prelude.{[]};
    ghost use Rattle.mds_snapshot.specs.Copies.{IsKeptAt};

    ghost holds = { IsKeptAt K.book };

    ghost first = { [] };
}

impl<K: OpeningName> Outcome<SnapshotCopy, [LoggedBatch; 0]> for Fronts<K> {
    ghost use Rattle.mds_snapshot.specs.Copies.{Sees};

    ghost then = { Sees K.book };
}
