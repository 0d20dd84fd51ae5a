//! Answers for people, outside the protocol's calls. They are read under the lock of the desk or of the room, and have
//! no record.
ghost use Rattle.std.specs.Prelude.{◌≡◌, ◌<◌, IfErr, IfOk, length};
ghost use Rattle.server_app.specs.OperatorNames.{badges_view};
ghost use Rattle.server_app.specs.Whoami.{who_reply};
ghost use Rattle.mds_request.specs.Reply.{refused};
ghost use Rattle.mds_request.specs.declared.code.Code.TheVariants.{NoMemory};
ghost use Rattle.server_state.specs.Query.{RoomTells};
ghost use Rattle.server_durable.specs.People.{IsToldReply, SaysTold, TellsAuthor, TellsOperator, room_told};
ghost use Rattle.server_durable.specs.CacheControl.{Waits};
ghost use Rattle.server_routes.specs.declared.app.Question.TheVariants.{Withdrawals};

use crate::durable_hall::{AnswerAtPosition, DurableHall};
use crate::pending::{NoResponse, ResponseAfterSync};
use crate::records::id_at;
use journal_commit::{CommitFault, LogName, Space};
use journal_file::Log;
use mds_catalog::Catalogue;
use mds_desk::{DeskQuery, RoomQuery, SharedReply};
use mds_drafts::Drafts;
use mds_request::{Actor, Code, Reply};
use mds_text::Id;
use server_app::{list_drafts, whoami, withdrawals};
use server_routes::Question;
use server_state::HallName;
use std::alloc::{AllocError, Global};
use std::sync::Wait;

/// Which of an operator's policies are withdrawn.
#[derive(Clone, Copy)]
pub(crate) struct OperatorWithdrawals {
    operator: Id,
}

impl DeskQuery for OperatorWithdrawals {
    ghost use Rattle.std.specs.Prelude.{◌≡◌, Some};
    ghost use Rattle.server_app.specs.Withdrawals.{withdrawals_reply};

    type Told = Reply;

    ghost tells = { λ telling publications reply. reply ≡ withdrawals_reply publications (Some telling.operator) };

    fn run_query(&self, alloc: Global, catalogue: &Catalogue) -> Result<Reply, AllocError> {
        withdrawals(alloc, catalogue, Some(self.operator))
    }
}

/// What the author asks of its room.
#[derive(Clone, Copy)]
pub(crate) enum RoomQuestion {
    /// Which policies are withdrawn.
    Withdrawals,
    /// Which drafts there are.
    Drafts,
}

impl RoomQuery for RoomQuestion {
    ghost use Rattle.std.specs.Prelude.{◌≡◌};
    ghost use Rattle.server_durable.specs.People.{room_told};

    type Told = Reply;

    ghost tells = { λ asked drafts publications reply. reply ≡ room_told asked drafts publications };

    fn run_query(
        &self,
        alloc: Global,
        drafts: &Drafts,
        catalogue: &Catalogue,
    ) -> Result<Reply, AllocError> {
        match self {
            RoomQuestion::Withdrawals => withdrawals(alloc, catalogue, None),
            RoomQuestion::Drafts => list_drafts(alloc, drafts),
        }
    }
}

/// This reply, or the refusal for being out of memory.
fn or_no_memory(told: Result<Reply, AllocError>) -> SharedReply
    ensures told { IfOk told (λ reply. result ≡ reply) }
    ensures refused { IfErr told (λ _. result ≡ refused NoMemory) }
{
    match told {
        Ok(reply) => SharedReply::from(reply),
        Err(_) => SharedReply::from(Code::NoMemory),
    }
}

/// This reply, or the refusal in its place.
fn or_refused(told: Result<Reply, Code>) -> SharedReply
    ensures told { IfOk told (λ reply. result ≡ reply) }
    ensures refused { IfErr told (λ code. result ≡ refused code) }
{
    match told {
        Ok(reply) => SharedReply::from(reply),
        Err(code) => SharedReply::from(code),
    }
}

impl<K: HallName, N: LogName, L: Log, S: Space> DurableHall<K, N, L, S> {
    /// Answers who the client is.
    ///
    /// # Errors
    ///
    /// Out of memory for the response.
    fn answer_whoami(
        &self,
        alloc: Global,
        client: Actor,
    ) -> Result<ResponseAfterSync<N, L, S>, NoResponse>
        ensures { IfOk result (λ s. Waits (SaysTold (λ reply. reply ≡ who_reply (badges_view self.now.badges) client)) s.reply) }
    {
        let stamp = self.nothing.again();
        let answer = or_no_memory(whoami(alloc, &self.badges, client));
        self.reply(alloc, AnswerAtPosition { answer, stamp })
    }

    /// The answer about withdrawals to the operator at this place, from one snapshot of its desk, under the desk's
    /// lock.
    ///
    /// # Errors
    ///
    /// Out of memory.
    fn withdrawals_at<R: Wait>(
        &self,
        rt: &R,
        place: usize,
    ) -> Result<AnswerAtPosition<N, L>, CommitFault>
        requires { place < length K.configuration.operators }
        ensures { IfOk result (λ answered. IsToldReply (TellsOperator K.configuration (badges_view self.now.badges)
            place Withdrawals) answered.answer) }
    {
        let config = self.hall.configuration()?;
        let telling = OperatorWithdrawals {
            operator: id_at(&*config, place),
        };
        let Some(mut desk) = self.hall.desk_at(rt, place) else {
            return Err(CommitFault::NoMemory);
        };
        let note = self.hall.note(rt);
        let answer = or_refused(desk.query(note.as_ref(), &telling));
        let stamp = self.current_position();
        Ok(AnswerAtPosition { answer, stamp })
    }

    /// Answers the operator at this place which of its policies are withdrawn.
    ///
    /// # Errors
    ///
    /// Out of memory.
    fn answer_withdrawals<R: Wait>(
        &self,
        rt: &R,
        alloc: Global,
        place: usize,
    ) -> Result<ResponseAfterSync<N, L, S>, NoResponse>
        requires { place < length K.configuration.operators }
        ensures { IfOk result (λ s. Waits (SaysTold (TellsOperator K.configuration (badges_view self.now.badges)
            place Withdrawals)) s.reply) }
    {
        match self.withdrawals_at(rt, place) {
            Ok(answered) => self.reply(alloc, answered),
            Err(fault) => Err(NoResponse::NotTold(fault)),
        }
    }

    /// The answer to the author about its room, under the room's lock.
    fn answer_room_question<R: Wait>(&self, rt: &R, asked: RoomQuestion) -> AnswerAtPosition<N, L>
        ensures { IsToldReply (RoomTells K.configuration
            (λ drafts publications told. told ≡ room_told asked drafts publications)) result.answer }
    {
        let room = self.hall.room(rt);
        let answer = or_no_memory(room.query(&asked));
        let stamp = self.current_position();
        AnswerAtPosition { answer, stamp }
    }

    /// Answers the author about its room.
    ///
    /// # Errors
    ///
    /// Out of memory for the response.
    fn respond_of_room<R: Wait>(
        &self,
        rt: &R,
        alloc: Global,
        asked: RoomQuestion,
    ) -> Result<ResponseAfterSync<N, L, S>, NoResponse>
        ensures { IfOk result (λ s. Waits (SaysTold (RoomTells K.configuration
            (λ drafts publications told. told ≡ room_told asked drafts publications))) s.reply) }
    {
        let answered = self.answer_room_question(rt, asked);
        self.reply(alloc, answered)
    }
}

/// Answers the author's question outside the protocol's calls.
///
/// # Errors
///
/// Out of memory for the response.
pub(crate) fn answer_author<K: HallName, N: LogName, R: Wait, L: Log, S: Space>(
    rt: &R,
    alloc: Global,
    question: Question,
    city: &DurableHall<K, N, L, S>,
) -> Result<ResponseAfterSync<N, L, S>, NoResponse>
    ensures { IfOk result (λ s. Waits (SaysTold (TellsAuthor K.configuration (badges_view city.now.badges) question)) s.reply) }
{
    match question {
        Question::Whoami => city.answer_whoami(alloc, Actor::Author),
        Question::Withdrawals => city.respond_of_room(rt, alloc, RoomQuestion::Withdrawals),
        Question::Drafts => city.respond_of_room(rt, alloc, RoomQuestion::Drafts),
    }
}

/// Answers the question of the operator at this place, outside the protocol's calls.
///
/// # Errors
///
/// Out of memory for the response.
pub(crate) fn answer_operator<K: HallName, N: LogName, R: Wait, L: Log, S: Space>(
    rt: &R,
    alloc: Global,
    place: usize,
    question: Question,
    city: &DurableHall<K, N, L, S>,
) -> Result<ResponseAfterSync<N, L, S>, NoResponse>
    requires { place < length K.configuration.operators }
    ensures { IfOk result (λ s. Waits (SaysTold (TellsOperator K.configuration (badges_view city.now.badges) place question)) s.reply) }
{
    match question {
        Question::Whoami => city.answer_whoami(alloc, Actor::Operator(place)),
        Question::Withdrawals => city.answer_withdrawals(rt, alloc, place),
        Question::Drafts => city.refuse(alloc, Code::Role),
    }
}
