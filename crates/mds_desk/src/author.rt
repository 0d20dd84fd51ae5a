//! The author's room: the author's session, with its drafts and the publisher.
ghost use Rattle.std.specs.Prelude.{◌≡◌, ◌⊎◌};

use crate::answer::SharedReply;
use crate::cache_key::{CacheKey, author_key};
use crate::desk::Desk;
use crate::publish_guard::{AlwaysPublish, PublishGuard};
use crate::query::RoomQuery;
use crate::resolving::refusal_of_another;
use crate::shared_cache::SharedCache;
use mds_drafts::Drafts;
use mds_request::{Actor, AuthorCall, Call, Code, Config, Request, Routes, read_call};
use mds_snapshot::{Note, OpeningName, Publisher};
use mds_world::{AuthorAct, author_step};
use std::alloc::{AllocError, Global};
use std::sync::{Arc, Wait};

/// The author's session: its drafts, and what is published. It is not `Drop`: end it with `finish`. Contracts see the
/// configuration, the drafts and the list of publications.
pub struct AuthorRoom<K: OpeningName> {
    alloc: Global,
    config: Arc<Config>,
    routes: Arc<Routes>,
    drafts: Drafts,
    publisher: Publisher<K>,
    cache: SharedCache<K>,
}

impl<K: OpeningName> AuthorRoom<K> {
    ghost use Rattle.std.specs.Prelude.{[], true, false, None, Err, IfErr, IfOk, IfSome, IsSome, MatchBool, Ok};
    ghost use mathlib.Core.List.{IsPrefix};
    ghost use Rattle.mds_request.specs.Call.{call_of};
    ghost use Rattle.mds_request.specs.Configuration.{configuration};
    ghost use Rattle.mds_request.specs.Request.{request_of};
    ghost use Rattle.mds_request.specs.declared.call.Call.TheVariants.{Author as ByAuthor};
    ghost use Rattle.mds_request.specs.Reply.{refused};
    ghost use Rattle.mds_request.specs.declared.code.Code.TheVariants.{NoMemory};
    ghost use Rattle.mds_snapshot.specs.Publishing.{IsShorterFront};
    ghost use Rattle.mds_machine.specs.Answer.{Gives};
    ghost use Rattle.mds_machine.specs.Author.{author_does};
    ghost use Rattle.mds_desk.specs.CacheKey.{AnswersAuthor};
    ghost use Rattle.mds_desk.specs.Desk.{state_of};
    ghost use Rattle.mds_desk.specs.Room.{room_of, new_room, held_in, IsNoted, IsRefusedInRoom, TakesRoomTurn};

    /// The room with this publisher and response cache, without drafts.
    pub(crate) fn new(
        alloc: Global,
        config: Arc<Config>,
        routes: Arc<Routes>,
        publisher: Publisher<K>,
        cache: SharedCache<K>,
    ) -> AuthorRoom<K>
        requires { publisher ≡ record { publications = []; is_open = true } }
        ensures { room_of result ≡ new_room (configuration config.value) }
    {
        AuthorRoom {
            alloc,
            config,
            routes,
            drafts: Drafts::new(alloc),
            publisher,
            cache,
        }
    }

    /// Answers a request, and carries it out. A publication returns a note of the list, for desks to learn.
    ///
    /// For a request of the author the reply is the success, the first refusal that applies, or 503 `no_memory`; for
    /// any other request it is `too_large` or `token`. A request without success changes nothing. The reply to a
    /// publication is made before it is published, so that nothing is published without a success being reported. Once
    /// memory ran out in the publishing itself, each further publication is answered 503.
    pub fn answer<R: Wait>(
        &mut self,
        rt: &R,
        request: &Request<'_>,
    ) -> (SharedReply, Option<Note<K>>)
        ensures { TakesRoomTurn (room_of self.old) (request_of request.now) result.0 result.1 (room_of self.new) }
    {
        self.answer_with(rt, request, &mut AlwaysPublish)
    }

    /// The same, but asks `leave` for permission once the reply to a publication is made, just before the publication
    /// becomes visible. Without permission the reply is 503 `no_memory`, and nothing has changed. Where it is given and
    /// the publishing then runs out of memory, the reply is that too, and there is no note.
    pub fn answer_with<R: Wait, L: PublishGuard>(
        &mut self,
        rt: &R,
        request: &Request<'_>,
        leave: &mut L,
    ) -> (SharedReply, Option<Note<K>>)
        ensures turn { TakesRoomTurn (room_of self.old) (request_of request.now) result.0 result.1 (room_of self.new) }
        ensures given { IfSome result.1 (λ list. L.given leave.new) }
        ensures asked { (leave.new ≡ leave.old) ⊎ (IsSome result.1 ⊎ (result.0 ≡ refused NoMemory)) }
    {
        match self.call(request) {
            Ok(call) => self.carry_out(rt, request, &call, leave),
            Err(code) => (SharedReply::from(code), None),
        }
    }

    /// The author's call of a request.
    ///
    /// # Errors
    ///
    /// The refusal: of the author's request by the table of calls, of any other by `TooLarge` or `Token`.
    fn call(&self, request: &Request<'_>) -> Result<AuthorCall, Code>
        ensures calls { IfOk result (λ call. call_of (room_of self.now).configuration (request_of request.now) ≡ Ok (ByAuthor call)) }
        ensures refused { IfErr result (IsRefusedInRoom (room_of self.now).configuration (request_of request.now)) }
    {
        match read_call(&self.routes, &self.config, request) {
            Ok(Call::Author(call)) => Ok(call),
            Ok(Call::Operator(_, _)) => Err(Code::Token),
            Err(code) => Err(self.refusal(request, code)),
        }
    }

    /// The refusal in this room of a request that the table of calls refuses with this code.
    fn refusal(&self, request: &Request<'_>, code: Code) -> Code
        requires { call_of (room_of self.now).configuration (request_of request.now) ≡ Err code }
        ensures { IsRefusedInRoom (room_of self.now).configuration (request_of request.now) result }
    {
        match self.config.actor(request.token) {
            Actor::Author => code,
            _ => refusal_of_another(code),
        }
    }

    /// Carries out a call of the author, the one of the request: answers it with the cached body, or makes the answer.
    /// Asks for permission as `answer_with` does, with the same reply and note.
    pub fn carry_out<R: Wait, L: PublishGuard>(
        &mut self,
        rt: &R,
        request: &Request<'_>,
        call: &AuthorCall,
        leave: &mut L,
    ) -> (SharedReply, Option<Note<K>>)
        requires resolved { call_of (room_of self.old).configuration (request_of request.now) ≡ Ok (ByAuthor call.now) }
        ensures turn { TakesRoomTurn (room_of self.old) (request_of request.now) result.0 result.1 (room_of self.new) }
        ensures given { IfSome result.1 (λ list. L.given leave.new) }
        ensures asked { (leave.new ≡ leave.old) ⊎ (IsSome result.1 ⊎ (result.0 ≡ refused NoMemory)) }
    {
        let asked = author_key(self.publisher.catalogue(), call);
        match self.cache.find(&asked, &self.publisher.note()) {
            Some(body) => (SharedReply::from_cached(body), None),
            None => self.perform(rt, asked, call, request, leave),
        }
    }

    /// Carries out a call without a cached body. After a publication its drafts are removed. A reply about what is
    /// published is cached from then on, until the next publication.
    fn perform<R: Wait, L: PublishGuard>(
        &mut self,
        rt: &R,
        asked: Option<CacheKey>,
        call: &AuthorCall,
        request: &Request<'_>,
        leave: &mut L,
    ) -> (SharedReply, Option<Note<K>>)
        requires { IfSome asked (AnswersAuthor (room_of self.old).publications call.now) }
        ensures same { (room_of self.new).configuration ≡ (room_of self.old).configuration }
        ensures answer { Gives (Unit {0}) (held_in (room_of self.old))
            (author_does (room_of self.old).drafts (room_of self.old).publications call.now (request_of request.now)) result.0 (held_in (room_of self.new)) }
        ensures noted { IsNoted (room_of self.old).publications result.1 (room_of self.new).publications }
        ensures stays_closed { (room_of self.old).is_open ≡ false → ((room_of self.new).is_open ≡ false) × (result.1 ≡ None) }
        ensures stays_open { (room_of self.old).is_open ≡ true → ((room_of self.new).is_open ≡ true) ⊎ (result.0 ≡ refused NoMemory) }
        ensures open_noted { IfSome result.1 (λ list. (room_of self.new).is_open ≡ true) }
        ensures given { IfSome result.1 (λ list. L.given leave.new) }
        ensures asked { (leave.new ≡ leave.old) ⊎ (IsSome result.1 ⊎ (result.0 ≡ refused NoMemory)) }
    {
        let catalogue = self.publisher.catalogue();
        match author_step(self.alloc, &mut self.drafts, catalogue, call, request) {
            AuthorAct::Answer(reply) => {
                let note = self.publisher.note();
                (self.cache.answer(self.alloc, asked, &note, reply), None)
            }
            AuthorAct::Publish(batch, reply) => {
                let Ok(share) = Arc::try_clone(&batch) else {
                    return (SharedReply::from(Code::NoMemory), None);
                };
                if !leave.may_publish() {
                    return (SharedReply::from(Code::NoMemory), None);
                }
                match self.publisher.publish(rt, share) {
                    Ok(note) => {
                        self.drafts.take_out(&batch);
                        self.cache.advance_to(&note);
                        (SharedReply::from(reply), Some(note))
                    }
                    Err(_) => (SharedReply::from(Code::NoMemory), None),
                }
            }
        }
    }

    /// Answers a query outside the protocol, about the drafts and about what is published. Nothing changes.
    ///
    /// # Errors
    ///
    /// Out of memory.
    pub fn run_query<T: RoomQuery>(&self, telling: &T) -> Result<T::Told, AllocError>
        ensures { IfOk result (T.tells telling.now (room_of self.now).drafts (room_of self.now).publications) }
    {
        telling.run_query(self.alloc, &self.drafts, self.publisher.catalogue())
    }

    /// A reference to the configuration.
    ///
    /// # Errors
    ///
    /// No further reference could be made.
    pub fn configuration(&self) -> Result<Arc<Config>, AllocError>
        ensures { IfOk result (λ c. configuration c.value ≡ (room_of self.now).configuration) }
    {
        Arc::try_clone(&self.config)
    }

    /// A reference to the table of routes.
    ///
    /// # Errors
    ///
    /// No further reference could be made.
    pub fn routes(&self) -> Result<Arc<Routes>, AllocError> {
        Arc::try_clone(&self.routes)
    }

    /// Whether all that a desk of the same opening knows is published here; if not, the desk knows all that is
    /// published here, and more. Allocates nothing.
    pub fn has_published(&self, desk: &Desk<K>) -> bool
        ensures { MatchBool result (IsPrefix (state_of desk.now).known (room_of self.now).publications)
            (IsShorterFront (room_of self.now).publications (state_of desk.now).known) }
    {
        self.publisher.has_published(desk.pane())
    }

    /// Ends the room. Waits for the looks that are held; every request at a desk is then answered 503 `no_snapshot`.
    pub fn finish<R: Wait>(self, rt: &R) {
        let Self {
            alloc: _,
            config: _config,
            routes: _routes,
            drafts: _drafts,
            publisher,
            cache: _cache,
        } = self;
        publisher.finish(rt);
    }
}
