//! A turn of the author's room, which ends once its record is committed.
ghost use Rattle.std.specs.Prelude.{◌≡◌, ◌⊎◌, ◌++◌, ◌∷◌, [], Ok, Err, IfNone, IfOk, IfSome, IsSome, IsSomeAnd};
ghost use Rattle.std.specs.Mem.{manually_drop_value};
ghost use Rattle.journal_commit.specs.declared.commit_log.CommitFault.TheVariants as fault;
ghost use Rattle.journal_commit.specs.declared.failure.LogFailure.{LogFailure};
ghost use Rattle.mds_desk.specs.Room.{TakesRoomTurn, room_of};
ghost use Rattle.mds_request.specs.Call.{call_of};
ghost use Rattle.mds_request.specs.Reply.{refused};
ghost use Rattle.mds_request.specs.declared.call.Call.TheVariants.{Author as ByAuthor};
ghost use Rattle.mds_request.specs.declared.code.Code.TheVariants.{NoMemory};
ghost use Rattle.mds_request.specs.declared.config.Actor.TheVariants.{Author};
ghost use Rattle.server_admission.specs.Actor.{index_of};
ghost use Rattle.server_state.specs.RoomTurns.{IsToldRoomTurn};
ghost use Rattle.server_state.specs.Turn.{RoomReplies};
ghost use Rattle.server_state.specs.TurnItem.{Answered};
ghost use Rattle.server_state.specs.WholeRequest.{request_heard};
ghost use Rattle.server_durable.specs.Logged.{OwnsTurns, ShowsTurns};
ghost use Rattle.server_durable.specs.Records.{IsAmong, IsReserved, IsShown};
ghost use Rattle.server_durable.specs.RoomLogged.{WillOwnTurns};

mod author_log;
mod record_commit;

use crate::context::TurnRuntime;
use crate::durable_hall::AnswerAtPosition;
pub(crate) use author_log::AuthorLog;
use journal_commit::{CommitFault, LogName, Space};
use journal_file::Log;
use mds_desk::SharedReply;
use mds_request::AuthorCall;
use mds_snapshot::Note;
pub(crate) use record_commit::{RecordCommit, RecordPayload};
use server_state::{Hall, HallName, HallRoom, RoomTurns, WholeRequest};

/// What one turn of the author's room gave, and the commit of its record. It has to be ended by `complete`, under the
/// room's lock.
pub(crate) struct RoomTurn<T: RecordPayload, K: HallName, R, N: LogName, L: Log, S: Space> {
    answer: SharedReply,
    /// The note of the publication, where the turn made one.
    note: Option<Note<K>>,
    /// All turns of the room. This one is the last. They are always there.
    turns: Option<RoomTurns<K>>,
    recording: RecordCommit<T, K, R, N, L, S>,
}

impl<T: RecordPayload, K: HallName, R: TurnRuntime, N: LogName, L: Log, S: Space> RoomTurn<
    T,
    K,
    R,
    N,
    L,
    S,
> {
    /// Takes one turn of the room for a call of the author, that of the request. There is a note exactly where the room
    /// has one publication more.
    pub(crate) fn take(
        rt: &R,
        room: &mut HallRoom<K>,
        call: AuthorCall,
        heard: WholeRequest<'_>,
        recording: RecordCommit<T, K, R, N, L, S>,
    ) -> RoomTurn<T, K, R, N, L, S>
        requires resolved { call_of K.configuration (request_heard heard) ≡ Ok (ByAuthor call) }
        requires reserved { IsReserved K.configuration (request_heard heard) T.reserved }
        requires owns { ∥ OwnsTurns K.configuration N.client_of T.own room.old.turns.front.seen.log ∥₁ }
        ensures turn { TakesRoomTurn (room_of (manually_drop_value room.old.room)) (request_heard heard.entry)
            result.answer result.note (room_of (manually_drop_value room.new.room)) }
        ensures replies { RoomReplies K.configuration (request_heard heard.entry) result.answer }
        ensures given { IfSome result.note (λ list. IsShown L.may_be L.is_synced T.text result.recording.shown) }
        ensures asked { (result.recording ≡ recording) ⊎ (IsSome result.note ⊎ (result.answer ≡ refused NoMemory)) }
        ensures told { IfSome result.turns (λ turns. ∥ IsToldRoomTurn K.configuration (request_heard heard.entry) result.answer turns.front.seen.log ∥₁) }
        ensures behind { IfSome result.turns (λ turns. turns.front.seen.log
            ≡ room.old.turns.front.seen.log ++ Answered (request_heard heard.entry) result.answer ∷ []) }
        ensures owned { IfSome result.turns (λ turns.
            ∥ WillOwnTurns K.configuration N.client_of T.reserved T.own result.answer.status turns.front.seen.log ∥₁) }
    {
        let mut recording = recording;
        let (answer, note) = room.carry_out(rt, heard, &call, &mut recording);
        RoomTurn {
            answer,
            note,
            turns: room.turns(),
            recording,
        }
    }

    /// Completes the record of the turn, whose note is the latest of the hall from then on. The author's records are put
    /// back as those of all turns of the room, unless the log failed.
    ///
    /// # Errors
    ///
    /// The log failed. It also fails where a record was appended for a publication that didn't happen.
    pub(crate) fn complete(
        self,
        hall: &Hall<K>,
        back: &mut Option<AuthorLog<K, N, L>>,
    ) -> Result<AnswerAtPosition<N, L>, CommitFault>
        requires { IfSome self.turns (λ turns.
            ∥ WillOwnTurns K.configuration N.client_of T.reserved T.own self.answer.status turns.front.seen.log ∥₁) }
        ensures answer { IfOk result (λ answered. answered.answer ≡ self.answer) }
        ensures shown { IsShown L.may_be L.is_synced T.text self.recording.shown → IfOk result (λ answered. IsAmong T.text answered.stamp) }
        ensures held { IfNone self.recording.shown (IfSome self.recording.held (λ _. self.answer.status ≡ 200
            → IfOk result (λ answered. IsAmong T.text answered.stamp))) }
        ensures ahead { IfSome self.recording.shown (λ _. IfNone self.note ((failure : LogFailure) × (result ≡ Err (fault.Failed failure)))) }
        ensures shows { IfOk result (λ answered. IsSomeAnd self.turns (λ turns.
            ∥ ShowsTurns K.configuration N.client_of (index_of Author) turns.front.seen.log answered.stamp ∥₁)) }
    {
        let RoomTurn {
            answer,
            note,
            turns,
            recording,
        } = self;
        match recording.complete(hall, note, turns, back, answer.status()) {
            Ok(stamp) => Ok(AnswerAtPosition { answer, stamp }),
            Err(fault) => Err(fault),
        }
    }
}
