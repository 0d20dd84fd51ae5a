//! Answers to questions about the past, one at a time.
ghost use Rattle.std.specs.Prelude.{◌≡◌, IfOk, IfSome, length};
ghost use Rattle.mds_request.specs.Configuration.{configuration};
ghost use Rattle.server_app.specs.OperatorNames.{badges_view};
ghost use Rattle.server_past.specs.Past.{IsPastReply, IsSubjectWithin, IsTold, IsUntold};
ghost use Rattle.server_past.specs.Response.{IsPastAnswer, PastResponds, reply_in};

use crate::answer::{PastAnswer, response_of};
use crate::journals::{PastJournals, Untold};
use crate::replies::reply_from;
use crate::subject::{PastSubject, subject_and_moment};
use journal_commit::{LogName, Space};
use journal_file::Log;
use mds_desk::SharedReply;
use mds_request::{Code, Config};
use mds_text::Moment;
use server_admission::Arrived;
use server_app::OperatorNames;
use server_durable::{DurableHall, NoResponse, PendingResponse, ResponseAfterSync};
use server_http::Crowded;
use server_routes::{PastQuestion, ResolvedPast};
use server_state::{HallName, read_whole};
use std::alloc::{AllocError, Global};
use std::sync::Mutex;

/// The past of a city's fleets, by the journals that tell of it. One question is worked out at a time, so that however
/// many ask, the bytes and the entries of one journal lie in memory.
#[derive(Drop)]
pub struct PastFleets<P> {
    journals: P,
    /// Held by the question that is worked out; only tried.
    turn: Mutex<()>,
}

impl<P> PastFleets<P> {
    /// The past that these journals tell of.
    pub fn new(journals: P) -> PastFleets<P>
        ensures { result.journals ≡ journals }
    {
        PastFleets {
            journals,
            turn: Mutex::new(()),
        }
    }
}

impl<P: PastJournals> PastFleets<P> {
    /// The answer where a journal tells nothing. A journal's fault is reported.
    fn answer_without(&self, at: Moment, why: Untold) -> PastAnswer
        ensures { IsUntold (reply_in result) }
    {
        match why {
            Untold::NoMemory => PastAnswer::Told(SharedReply::from(Code::NoMemory)),
            Untold::Fault(fault) => {
                self.journals.report_fault(at, fault);
                PastAnswer::NotKept
            }
        }
    }

    /// The answer about a subject at a moment, by the journal that tells of it.
    fn answer_from_journal(
        &self,
        alloc: Global,
        config: &Config,
        names: &OperatorNames,
        subject: PastSubject,
        at: Moment,
    ) -> PastAnswer
        requires { IsSubjectWithin (length (configuration config.now).operators) subject }
        ensures { IsTold (configuration config.now) (badges_view names.now) (P.tells self.now.journals)
            subject at (reply_in result) }
    {
        let bytes = match self.journals.journal_at(alloc, at) {
            Ok(Some(bytes)) => bytes,
            Ok(None) => return PastAnswer::NotKept,
            Err(fault) => return self.answer_without(at, Untold::from(fault)),
        };
        match reply_from(alloc, config, names, &bytes, subject, at) {
            Ok(reply) => PastAnswer::Told(reply),
            Err(why) => self.answer_without(at, why),
        }
    }

    /// The same, unless another question about the past is worked out now: then `busy`.
    fn answer_alone(
        &self,
        alloc: Global,
        config: &Config,
        names: &OperatorNames,
        subject: PastSubject,
        at: Moment,
    ) -> PastAnswer
        requires { IsSubjectWithin (length (configuration config.now).operators) subject }
        ensures { IsTold (configuration config.now) (badges_view names.now) (P.tells self.now.journals)
            subject at (reply_in result) }
    {
        match self.turn.try_lock() {
            Some(_turn) => self.answer_from_journal(alloc, config, names, subject, at),
            None => PastAnswer::Told(SharedReply::from(Code::Busy)),
        }
    }

    /// The answer to a question about the past, asked at this moment.
    ///
    /// # Errors
    ///
    /// There are too many references to the configuration.
    fn answer_question<K: HallName, N: LogName, L: Log, S: Space>(
        &self,
        alloc: Global,
        city: &DurableHall<K, N, L, S>,
        question: PastQuestion,
        now: Moment,
    ) -> Result<PastAnswer, AllocError>
        ensures { IfOk result (λ answer. IsPastReply K.configuration (badges_view city.now.badges)
            (P.tells self.now.journals) question now (reply_in answer)) }
    {
        let config = city.configuration()?;
        let names = city.operator_names();
        match subject_and_moment(&*config, names, question, now) {
            Ok((subject, at)) => Ok(self.answer_alone(alloc, &*config, names, subject, at)),
            Err(code) => Ok(PastAnswer::Told(SharedReply::from(code))),
        }
    }

    /// The answer to the request of a head and the body that arrived for it.
    ///
    /// # Errors
    ///
    /// As `answer_question`.
    fn answer_head<K: HallName, N: LogName, L: Log, S: Space>(
        &self,
        alloc: Global,
        city: &DurableHall<K, N, L, S>,
        at: Option<Moment>,
        head: &ResolvedPast<K>,
        body: &Arrived,
    ) -> Result<PastAnswer, AllocError>
        ensures { IfOk result (λ answer. IsPastAnswer K.configuration (badges_view city.now.badges)
            (P.tells self.now.journals) head.now.parts body.now at (reply_in answer)) }
    {
        match read_whole(head.parts(), body, at) {
            Ok(heard) => self.answer_question(alloc, city, head.question(), heard.moment()),
            Err(code) => Ok(PastAnswer::Told(SharedReply::from(code))),
        }
    }

    /// The response to the request of a head and the body that arrived for it, once all that had been appended by then
    /// is synced.
    ///
    /// # Errors
    ///
    /// As `answer_question`, or out of memory for the response.
    fn respond<K: HallName, N: LogName, L: Log, S: Space>(
        &self,
        alloc: Global,
        city: &DurableHall<K, N, L, S>,
        at: Option<Moment>,
        head: &ResolvedPast<K>,
        body: &Arrived,
    ) -> Result<ResponseAfterSync<N, L, S>, NoResponse>
        ensures { IfOk result (λ s. PastResponds K.configuration (badges_view city.now.badges)
            (P.tells self.now.journals) head.now.parts body.now at s.reply) }
    {
        let answer = self.answer_head(alloc, city, at, head, body)?;
        let response = response_of(alloc, answer)?;
        city.respond_now(response)
    }

    /// Answers the request of a head that asks for a moment of the past, and the body that arrived for it, at this
    /// moment of the machine's clock. A journal is read from the disk, and takes the time that it takes: no lock of a
    /// desk or the room is held. The response leaves once all that had been appended by then is synced. Where no
    /// response may be sent, the pending response is an error.
    ///
    /// # Errors
    ///
    /// None: nothing of the log is reserved.
    pub fn answer<K: HallName, N: LogName, L: Log, S: Space>(
        &self,
        alloc: Global,
        city: &DurableHall<K, N, L, S>,
        at: Option<Moment>,
        head: &ResolvedPast<K>,
        body: &Arrived,
    ) -> Result<PendingResponse<N, L, S>, Crowded>
        ensures { IfOk result (λ pending. IfSome pending.told (λ s. PastResponds K.configuration
            (badges_view city.now.badges) (P.tells self.now.journals) head.now.parts body.now at s.reply)) }
    {
        PendingResponse::of(self.respond(alloc, city, at, head, body))
    }
}
