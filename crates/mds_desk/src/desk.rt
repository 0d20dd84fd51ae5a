//! An operator's desk: the operator's session, with its book and a snapshot reader.
ghost use Rattle.std.specs.Prelude.{◌≡◌, ◌⊎◌, IfErr, IfOk, Ok, Some, option_map, slice_get};
ghost use Rattle.std.specs.FinMap.{len};
ghost use Rattle.mds_fleet.specs.Fleet.{Fits};
ghost use Rattle.mds_request.specs.Call.{call_of};
ghost use Rattle.mds_request.specs.Configuration.{configuration};
ghost use Rattle.mds_request.specs.declared.call.Call.TheVariants.{Operator as OperatorAt};
ghost use Rattle.mds_request.specs.declared.code.Code.TheVariants.{NoMemory, NoSnapshot};
ghost use Rattle.mds_world.specs.Lasting.{fits_prop, lasting_in};

use crate::answer::SharedReply;
use crate::context::DeskContext;
use crate::gate::Gate;
use crate::operator::answer_at;
use crate::query::DeskQuery;
use core::mem::replace_with;
use mds_catalog::Catalogue;
use mds_fleet::Book;
use mds_request::{Code, OperatorCall, Request};
use mds_snapshot::{Look, Note, OpeningName, Pane};
use mds_verdict::Evaluator;
use std::alloc::{AllocError, Global};

/// The operator's session: its book, and its pane on what is published. The operator is answered without waiting for a
/// lock: the response cache is shared by all desks, and is skipped while it is locked. Contracts see the configuration,
/// the operator's place in it, the publications that were seen or learnt, and the operator's rows.
#[derive(Drop)]
pub struct Desk<K: OpeningName> {
    context: DeskContext<K>,
    book: Book,
    pane: Pane<K>,
    ghost limit: { Some book.limit ≡ option_map (λ o. o.limit) (slice_get (configuration context.config.value).operators context.place) },
    // the book's index is right for all publications that were seen or learnt
    ghost fits: { Fits (lasting_in pane) book } by { fits_prop (lasting_in pane) book },
}

/// The answer to a query about a front of what is published.
///
/// # Errors
///
/// `NoMemory`: memory ran out.
fn query_look<K: OpeningName, T: DeskQuery>(
    alloc: Global,
    look: &Look<K>,
    telling: &T,
) -> Result<T::Told, Code>
    ensures told { IfOk result (T.tells telling.now look.now) }
    ensures refused { IfErr result (λ code. code ≡ NoMemory) }
{
    match telling.run_query(alloc, look.catalogue()) {
        Ok(told) => Ok(told),
        Err(_) => Err(Code::NoMemory),
    }
}

impl<K: OpeningName> Desk<K> {
    ghost use Rattle.std.specs.Prelude.{[], map, OnErr};
    ghost use Rattle.mds_request.specs.Request.{request_of};
    ghost use Rattle.mds_desk.specs.Desk.{state_of, new_desk, TakesTurn, TakesRun, Learns};

    /// The desk of the operator at this place, which knows no publications and has no vehicles.
    pub(crate) fn new(context: DeskContext<K>, pane: Pane<K>) -> Desk<K>
        requires { pane ≡ [] }
        ensures { state_of result ≡ new_desk (configuration context.config.value) context.place }
    {
        let limit = context.config.operators()[context.place].limit as u32;
        let book = Book::new(context.alloc, limit);
        Desk {
            context,
            book,
            pane,
        }
    }

    pub(crate) fn pane(&self) -> &Pane<K>
        ensures { result.now ≡ (state_of self.now).known }
    {
        &self.pane
    }

    /// Answers a request: reads its call and carries it out (`carry_out`), or returns the first refusal.
    ///
    /// For a request of this desk's operator the reply is the success or the first refusal that applies; for any other
    /// request it is `too_large` or `token`, and the vehicles stay. What the table of calls refuses is answered without
    /// a snapshot of what is published.
    pub fn answer<G: Gate, E: Evaluator<Catalogue>>(
        &mut self,
        request: &Request<'_>,
        gate: &mut G,
        evaluator: &E,
    ) -> SharedReply
        requires { E.may_judge }
        ensures { TakesTurn (state_of self.old) (request_of request.now) result (state_of self.new) }
    {
        match self.context.call(request) {
            Ok(call) => self.carry_out(request, &call, gate, evaluator),
            Err(code) => SharedReply::from(code),
        }
    }

    /// Carries out a call of this desk's operator, the one of the request, with one snapshot of what is published:
    /// publications with all that this desk has seen or learnt as a prefix.
    ///
    /// The reply is the success or the first refusal that applies at that front. Where memory runs out or there is no
    /// snapshot, which is so once the author's room is finished, the reply is 503 and the vehicles stay.
    pub fn carry_out<G: Gate, E: Evaluator<Catalogue>>(
        &mut self,
        request: &Request<'_>,
        call: &OperatorCall,
        gate: &mut G,
        evaluator: &E,
    ) -> SharedReply
        requires judge { E.may_judge }
        requires resolved { call_of (state_of self.old).configuration (request_of request.now) ≡ Ok (OperatorAt (state_of self.old).place call.now) }
        ensures { TakesTurn (state_of self.old) (request_of request.now) result (state_of self.new) }
    {
        replace_with(
            self,
            (request, call, gate, evaluator),
            |desk, (request, call, gate, evaluator)| {
                desk.take_turn(request, call, gate, evaluator)
            },
        )
    }

    /// Answers requests one after another, each as `answer` does, and returns their replies in that order.
    ///
    /// The fronts at which they are answered rise, and the first has all that this desk has seen or learnt as a prefix.
    /// A reply may be 503; the requests after it are answered all the same.
    ///
    /// # Errors
    ///
    /// Out of memory for the list of replies. Then no request was answered, and nothing has changed.
    pub fn run<G: Gate, E: Evaluator<Catalogue>>(
        &mut self,
        requests: &[Request<'_>],
        gate: &mut G,
        evaluator: &E,
    ) -> Result<Vec<SharedReply>, AllocError>
        requires { E.may_judge }
        ensures run { IfOk result (λ replies. TakesRun (state_of self.old) (map request_of requests.now) replies.items (state_of self.new)) }
        ensures unchanged { OnErr result (self.new ≡ self.old) }
    {
        let mut answers = Vec::with_capacity(self.context.alloc, requests.len())?;
        for request in requests {
            let answer = self.answer(request, gate, evaluator);
            answers.push_reserved(answer);
        }
        Ok(answers)
    }

    /// Learns what was published: later requests are answered at fronts that have the note's list as a prefix too.
    /// Allocates nothing.
    pub fn learn(&mut self, note: &Note<K>)
        ensures { Learns (state_of self.old) note.now (state_of self.new) }
    {
        self.pane.learn(note);
    }

    /// The number of the operator's vehicles. Allocates nothing.
    pub fn vehicles(&self) -> usize
        ensures { result ≡ len (state_of self.now).rows }
    {
        self.book.len()
    }

    /// Answers a query outside the protocol, with one snapshot of what is published: publications with all that this
    /// desk has seen or learnt as a prefix, which it knows from then on. The vehicles stay.
    ///
    /// # Errors
    ///
    /// `NoSnapshot` where there is no snapshot, and the desk is unchanged; `NoMemory` where memory ran out.
    pub fn run_query<T: DeskQuery>(&mut self, telling: &T) -> Result<T::Told, Code>
        ensures learnt { Learns (state_of self.old) (state_of self.new).known (state_of self.new) }
        ensures told { IfOk result (T.tells telling.now (state_of self.new).known) }
        ensures refused { IfErr result (λ code. (code ≡ NoMemory) ⊎ ((code ≡ NoSnapshot) × (state_of self.new ≡ state_of self.old))) }
    {
        replace_with(self, telling, |desk, telling| desk.run_query_owned(telling))
    }

    fn run_query_owned<T: DeskQuery>(self, telling: &T) -> (Desk<K>, Result<T::Told, Code>)
        ensures learnt { Learns (state_of self) (state_of result.0).known (state_of result.0) }
        ensures told { IfOk result.1 (T.tells telling.now (state_of result.0).known) }
        ensures refused { IfErr result.1 (λ code. (code ≡ NoMemory) ⊎ ((code ≡ NoSnapshot) × (state_of result.0 ≡ state_of self))) }
    {
        let Self {
            context,
            book,
            pane,
        } = self;
        match pane.look() {
            Ok(look) => {
                let told = query_look(context.alloc, &look, telling);
                let pane = look.leave();
                let desk = Desk {
                    context,
                    book,
                    pane,
                };
                (desk, told)
            }
            Err(none) => {
                let pane = none.pane;
                let desk = Desk {
                    context,
                    book,
                    pane,
                };
                (desk, Err(Code::NoSnapshot))
            }
        }
    }

    fn take_turn<G: Gate, E: Evaluator<Catalogue>>(
        self,
        request: &Request<'_>,
        call: &OperatorCall,
        gate: &mut G,
        evaluator: &E,
    ) -> (Desk<K>, SharedReply)
        requires judge { E.may_judge }
        requires resolved { call_of (state_of self).configuration (request_of request.now) ≡ Ok (OperatorAt (state_of self).place call.now) }
        ensures { TakesTurn (state_of self) (request_of request.now) result.1 (state_of result.0) }
    {
        let Self {
            context,
            mut book,
            pane,
        } = self;
        match pane.look() {
            Ok(look) => {
                gate.held();
                let (pane, answer) = answer_at(&context, &mut book, look, call, request, evaluator);
                let desk = Desk {
                    context,
                    book,
                    pane,
                };
                (desk, answer)
            }
            Err(none) => {
                let desk = Desk {
                    context,
                    book,
                    pane: none.pane,
                };
                (desk, SharedReply::from(Code::NoSnapshot))
            }
        }
    }
}
