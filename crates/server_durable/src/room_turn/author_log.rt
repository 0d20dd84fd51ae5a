//! What is known of the author's records in the log between the turns of the room.
ghost use Rattle.std.specs.Prelude.{◌≡◌, [], IfSome, MatchOption, true};
ghost use Rattle.journal_commit.specs.Clients.{of_client};
ghost use Rattle.mds_request.specs.declared.config.Actor.TheVariants.{Author};
ghost use Rattle.server_admission.specs.Actor.{index_of};
ghost use Rattle.server_durable.specs.Logged.{AreLogged, OwnsTurns};
ghost use Rattle.server_durable.specs.Owners.{ReadsClients};

use crate::client_records::AuthorRecords;
use journal_commit::{CommitLog, LogName, LogPosition, Space};
use journal_file::Log;
use server_state::{HallName, HallRoom, RoomTurns};
use std::sync::Wait;

/// The author's own records, and all turns of the room whose records they are: there are none of them before the first
/// turn.
#[derive(Drop)]
pub(crate) struct AuthorLog<K: HallName, N: LogName, L: Log> {
    turns: Option<RoomTurns<K>>,
    pub records: AuthorRecords<K, N, L>,
    ghost logged: { ∥ MatchOption turns (records.own.texts ≡ []) (λ known. OwnsTurns K.configuration N.client_of records.own known.front.seen.log) ∥₁ },
}

/// Whether these are the same turns of the room.
fn are_same<K: HallName>(known: &RoomTurns<K>, turns: &RoomTurns<K>) -> bool
    ensures { result ≡ true → known.now.front.seen.log ≡ turns.now.front.seen.log }
{
    known.begins(turns) && turns.begins(known)
}

impl<K: HallName, N: LogName, L: Log> AuthorLog<K, N, L> {
    /// The author has no records yet.
    pub(crate) fn new(nothing: &LogPosition<N, L>) -> AuthorLog<K, N, L>
        requires clients { ReadsClients K.configuration N.client_of }
        requires nothing { nothing.now ≡ [] }
    {
        AuthorLog {
            turns: None,
            records: AuthorRecords::new(nothing),
        }
    }

    /// The author's own records, which are those of all these turns of the room.
    pub(crate) fn of(turns: RoomTurns<K>, records: AuthorRecords<K, N, L>) -> AuthorLog<K, N, L>
        requires { ∥ OwnsTurns K.configuration N.client_of records.own turns.front.seen.log ∥₁ }
    {
        AuthorLog {
            turns: Some(turns),
            records,
        }
    }

    /// The author's own records, where they are those of all turns of this room so far. They always are.
    pub(crate) fn records_of(self, room: &HallRoom<K>) -> Option<AuthorRecords<K, N, L>>
        ensures same { IfSome result (λ records. records ≡ self.records) }
        ensures owns { IfSome result (λ records. ∥ OwnsTurns K.configuration N.client_of records.own room.now.turns.front.seen.log ∥₁) }
    {
        let AuthorLog { turns, records } = self;
        let all = room.turns()?;
        let Some(known) = turns else {
            if all.len() == 1 {
                return Some(records);
            }
            return None;
        };
        if are_same(&known, &all) {
            Some(records)
        } else {
            None
        }
    }

    /// The log position of all that was appended by now, where the author's records there are just those of all turns of
    /// this room. They always are where nothing is appended any more.
    pub(crate) fn whole_position<R: Wait, S: Space>(
        self,
        rt: &R,
        keeper: &CommitLog<N, L, S>,
        room: &HallRoom<K>,
    ) -> Option<LogPosition<N, L>>
        ensures { IfSome result (λ all. ∥ AreLogged K.configuration room.now.turns.front.seen.log
            (of_client N.client_of (index_of Author) all) ∥₁) }
    {
        let records = self.records_of(room)?;
        keeper.whole_position(rt, &records.own)
    }
}
