//! What is published, read under the room's lock, and nothing else.
ghost use Rattle.std.specs.Prelude.{IfOk};
ghost use Rattle.server_state.specs.Query.{RoomTells};

use crate::durable_hall::DurableHall;
use journal_commit::{LogName, Space};
use journal_file::Log;
use mds_catalog::Catalogue;
use mds_desk::{DeskQuery, RoomQuery};
use mds_drafts::Drafts;
use mds_snapshot::Note;
use server_state::HallName;
use std::alloc::{AllocError, Global};
use std::sync::Wait;

/// A `DeskQuery` of the publications of the author's room, whatever its drafts are.
#[derive(Drop)]
struct RoomPublications<'a, T> {
    telling: &'a T,
}

impl<T: DeskQuery> RoomQuery for RoomPublications<'_, T> {
    type Told = T::Told;

    ghost tells = { λ published drafts publications told. T.tells published.telling.now publications told };

    fn run_query(
        &self,
        alloc: Global,
        _drafts: &Drafts,
        catalogue: &Catalogue,
    ) -> Result<T::Told, AllocError> {
        self.telling.run_query(alloc, catalogue)
    }
}

impl<K: HallName, N: LogName, L: Log, S: Space> DurableHall<K, N, L, S> {
    /// The note of the last publication; none where nothing was published since the city was opened.
    pub fn note<R: Wait>(&self, rt: &R) -> Option<Note<K>> {
        self.hall.note(rt)
    }

    /// What a `DeskQuery` makes of what is published, under the room's lock. It waits for no sync: a publication was
    /// synced before the room shows it. Nothing changes.
    ///
    /// # Errors
    ///
    /// Out of memory.
    pub fn read_publications<T: DeskQuery, R: Wait>(
        &self,
        rt: &R,
        telling: &T,
    ) -> Result<T::Told, AllocError>
        ensures { IfOk result (RoomTells K.configuration (λ drafts publications told. T.tells telling.now publications told)) }
    {
        let room = self.hall.room(rt);
        room.query(&RoomPublications { telling })
    }
}
