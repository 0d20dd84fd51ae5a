//! The whole state machine in one value.
ghost use Rattle.std.specs.Prelude.{◌≡◌, All, map, length, IfOk, OnErr};
ghost use Rattle.std.specs.FinMap.{empty};
ghost use Rattle.mds_bitmaps.specs.Index.{Published};
ghost use Rattle.mds_fleet.specs.Fleet.{Fits};
ghost use Rattle.mds_catalog.specs.Catalogue.{publications_of};
ghost use Rattle.mds_request.specs.Configuration.{configuration, operator as operator_of};
ghost use Rattle.mds_world.specs.Lasting.{all_fit_prop, lasting_in};

use crate::author::{AuthorAct, author_step};
use crate::operator::{OperatorContext, indexed_operator_step};
use mds_catalog::Catalogue;
use mds_drafts::Drafts;
use mds_fleet::Book;
use mds_request::{
    AuthorCall, Call, Config, Operator, OperatorCall, Reply, Request, Routes, read_call,
};
use mds_verdict::Evaluator;
use std::alloc::{AllocError, Global};

/// The machine between two requests: the configuration, what is published, the author's drafts and each operator's
/// book. Contracts see its state.
#[derive(Drop)]
pub struct World<E: Drop> {
    config: Config,
    routes: Routes,
    catalogue: Catalogue,
    drafts: Drafts,
    // a book for each operator, in the order of the configuration
    books: Vec<Book>,
    evaluator: E,
    ghost limits: { map (λ book. book.limit) books.items ≡ map (λ operator. operator.limit) (configuration config).operators },
    // the index of each book is right for what is published
    ghost fits: { All (Fits (lasting_in (publications_of catalogue))) books.items } by { all_fit_prop (lasting_in (publications_of catalogue)) books.items },
}

/// An empty book for each operator, with the operator's limit.
fn empty_books(alloc: Global, operators: &[Operator]) -> Result<Vec<Book>, AllocError>
    ensures rows { IfOk result (λ books. map (λ book. book.rows) books.items ≡ map (λ operator. empty) (map operator_of operators.now)) }
    ensures limits { IfOk result (λ books. map (λ book. book.limit) books.items ≡ map (λ operator. operator.limit) (map operator_of operators.now)) }
    ensures fits { IfOk result (λ books. (published : Published) → All (Fits published) books.items) }
{
    let mut books = Vec::with_capacity(alloc, operators.len())?;
    for operator in operators {
        books.push(Book::new(alloc, operator.limit as u32))?;
    }
    Ok(books)
}

impl<E: Evaluator<Catalogue> + Drop> World<E> {
    ghost use Rattle.std.specs.Prelude.{◌≢◌, ◌<◌};
    ghost use Rattle.mds_request.specs.Request.{request_of};
    ghost use Rattle.mds_request.specs.declared.call.Call.TheVariants as call_kinds;
    ghost use Rattle.mds_machine.specs.Answer.{Gives};
    ghost use Rattle.mds_machine.specs.Isolation.{IsIsolatedFrom, IsMeantFrom};
    ghost use Rattle.mds_machine.specs.Step.{Step, Run, call_does, exchanges, new_state};
    ghost use Rattle.mds_world.specs.World.{state_of};

    /// A new machine of this configuration: without publications, drafts or vehicles.
    ///
    /// # Errors
    ///
    /// Out of memory.
    pub fn new(alloc: Global, config: Config, evaluator: E) -> Result<World<E>, AllocError>
        ensures { IfOk result (λ w. state_of w ≡ new_state (configuration config)) }
    {
        let books = empty_books(alloc, config.operators())?;
        let routes = Routes::new(alloc)?;
        let catalogue = Catalogue::with_room(alloc)?;
        Ok(World {
            config,
            routes,
            catalogue,
            drafts: Drafts::new(alloc),
            books,
            evaluator,
        })
    }

    /// Answers a request, and carries it out: one step of the machine.
    ///
    /// The reply is the success, the first refusal that applies, or 503 `no_memory`; a request without success changes
    /// nothing.
    pub fn answer(&mut self, request: &Request<'_>) -> Reply
        requires { E.may_judge }
        ensures step { Step (state_of self.old) (request_of request.now) result (state_of self.new) }
        ensures refused { result.status ≢ 200 → state_of self.new ≡ state_of self.old }
    {
        match read_call(&self.routes, &self.config, request) {
            Ok(Call::Author(call)) => self.author_call(&call, request),
            Ok(Call::Operator(place, call)) => self.operator_call(place, &call, request),
            Err(code) => Reply::from(code),
        }
    }

    /// Answers requests one after another, each as `answer` does, and returns their replies in that order.
    ///
    /// A reply may be 503 `no_memory`; the requests after it are answered all the same.
    ///
    /// # Errors
    ///
    /// Out of memory for the list of replies. Then no request was answered, and nothing has changed.
    pub fn run(&mut self, requests: &[Request<'_>]) -> Result<Vec<Reply>, AllocError>
        requires { E.may_judge }
        ensures history { IfOk result (λ replies. Run (state_of self.old) (exchanges (map request_of requests.now) replies.items) (state_of self.new)) }
        ensures each { IfOk result (λ replies. length replies.items ≡ length requests.now) }
        ensures isolation { IfOk result (λ replies. IsIsolatedFrom (state_of self.old) (exchanges (map request_of requests.now) replies.items) (state_of self.new)) }
        ensures meaning { IfOk result (λ replies. IsMeantFrom (state_of self.old) (exchanges (map request_of requests.now) replies.items) (state_of self.new)) }
        ensures unchanged { OnErr result (self.new ≡ self.old) }
    {
        let alloc = *self.books.allocator();
        let mut replies = Vec::with_capacity(alloc, requests.len())?;
        for request in requests {
            let reply = self.answer(request);
            replies.push_reserved(reply);
        }
        Ok(replies)
    }

    /// Answers a call of the author. After a publication its drafts are removed.
    fn author_call(&mut self, call: &AuthorCall, request: &Request<'_>) -> Reply
        ensures { Gives (Unit {0}) (state_of self.old) (call_does (state_of self.old) (call_kinds.Author call.now) (request_of request.now)) result (state_of self.new) }
    {
        let alloc = *self.books.allocator();
        match author_step(alloc, &mut self.drafts, &self.catalogue, call, request) {
            AuthorAct::Answer(reply) => reply,
            AuthorAct::Publish(batch, reply) => {
                self.drafts.take_out(&batch);
                self.catalogue.adopt(batch);
                reply
            }
        }
    }

    /// Answers a call of the operator at this place of the configuration.
    fn operator_call(&mut self, place: usize, call: &OperatorCall, request: &Request<'_>) -> Reply
        requires ready { E.may_judge }
        requires place { place < length (state_of self.old).configuration.operators }
        ensures { Gives (Unit {0}) (state_of self.old) (call_does (state_of self.old) (call_kinds.Operator place call.now) (request_of request.now)) result (state_of self.new) }
    {
        let context = OperatorContext {
            alloc: *self.books.allocator(),
            config: &self.config,
            place,
            evaluator: &self.evaluator,
        };
        let book = &mut self.books[place];
        indexed_operator_step(&context, book, &self.catalogue, call, request)
    }
}
