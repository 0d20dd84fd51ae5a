//! What a server holds of one operator: what is published, the author's drafts and the operator's vehicles.
ghost use Rattle.std.specs.Prelude.{◌≡◌, ◌<◌, ◌++◌, length, map, slice_get, option_map, Some, IfOk, OnOk};
ghost use Rattle.std.specs.FinMap as finite;
ghost use Rattle.mds_match.specs.Row.{row_of};
ghost use Rattle.mds_verdict.specs.Verdict.{Ascends};
ghost use Rattle.mds_catalog.specs.Catalogue.{publications_of};
ghost use Rattle.mds_request.specs.Configuration.{configuration};

use crate::sample::{RuleSample, push_policy};
use mds_catalog::Catalogue;
use mds_drafts::Drafts;
use mds_fleet::Book;
use mds_match::Vehicle;
use mds_request::{AuthorCall, Call, Config, OperatorCall, Reply, Request, Routes, read_call};
use mds_text::{Id, Moment};
use mds_verdict::{Evaluator, Plain};
use mds_world::{AuthorAct, author_step, operator_step};
use std::alloc::{AllocError, Global};

/// What a server holds of one operator between two requests. Contracts see a `Standing`.
#[derive(Drop)]
pub(crate) struct OperatorStanding<'a> {
    pub(crate) config: &'a Config,
    // the operator's place in the configuration
    pub(crate) place: usize,
    id: Id,
    routes: Routes,
    catalogue: Catalogue,
    drafts: Drafts,
    book: Book,
    ghost within: { place < length (configuration config.now).operators },
    ghost named: { Some id ≡ option_map (λ o. o.id) (slice_get (configuration config.now).operators place) },
    ghost limited: { Some book.limit ≡ option_map (λ o. o.limit) (slice_get (configuration config.now).operators place) },
}

/// The vehicles of a book, ascending by device id.
#[tactic(auto, using(crate::proofs::Ascending::ascends))]
fn fleet(book: &Book) -> Result<Vec<&Vehicle>, AllocError>
    ensures whole { IfOk result (λ v. map (λ r. row_of r.now) v.items ≡ finite.values book.now.rows) }
    ensures ascends { IfOk result (λ v. Ascends (map (λ r. row_of r.now) v.items)) }
{
    book.rows()
}

impl<'a> OperatorStanding<'a> {
    ghost use Rattle.mds_request.specs.Request.{request_of};
    ghost use Rattle.mds_request.specs.declared.call.Call.TheVariants as call_kinds;
    ghost use Rattle.mds_machine.specs.Answer.{Gives};
    ghost use Rattle.journal_samples.specs.Samples.{samples_at};
    ghost use Rattle.journal_samples.specs.Standing.{after_request, call_does, new_standing};
    ghost use Rattle.journal_samples.specs.Held.{standing_of};

    /// Without publications, drafts or vehicles.
    ///
    /// # Errors
    ///
    /// Out of memory.
    pub(crate) fn new(
        alloc: Global,
        config: &'a Config,
        place: usize,
    ) -> Result<OperatorStanding<'a>, AllocError>
        requires { place < length (configuration config.now).operators }
        ensures { IfOk result (λ s. standing_of s ≡ new_standing (configuration config.now) place) }
    {
        let operator = &config.operators()[place];
        Ok(OperatorStanding {
            config,
            place,
            id: operator.id,
            routes: Routes::new(alloc)?,
            catalogue: Catalogue::with_room(alloc)?,
            drafts: Drafts::new(alloc),
            book: Book::new(alloc, operator.limit as u32),
        })
    }

    /// Answers a request of the author or of the operator, and carries it out.
    ///
    /// # Errors
    ///
    /// The status of an answer that is no success.
    #[tactic(auto, using(crate::proofs::Held::answered))]
    pub(crate) fn answer(&mut self, alloc: Global, request: &Request<'_>) -> Result<(), u16>
        ensures { OnOk result (standing_of self.new ≡ after_request (standing_of self.old) (request_of request.now)) }
    {
        let reply = match read_call(&self.routes, self.config, request) {
            Ok(Call::Author(call)) => self.author_call(alloc, &call, request),
            Ok(Call::Operator(place, call)) if place == self.place => {
                self.operator_call(alloc, &call, request)
            }
            Ok(Call::Operator(_, _)) => return Err(401),
            Err(code) => return Err(code.status()),
        };
        match reply.status() {
            200 => Ok(()),
            status => Err(status),
        }
    }

    /// Answers a call of the author. After a publication its drafts are removed.
    fn author_call(&mut self, alloc: Global, call: &AuthorCall, request: &Request<'_>) -> Reply
        ensures { Gives (Unit {0}) (standing_of self.old) (call_does (standing_of self.old) (call_kinds.Author call.now) (request_of request.now)) result (standing_of self.new) }
    {
        match author_step(alloc, &mut self.drafts, &self.catalogue, call, request) {
            AuthorAct::Answer(reply) => reply,
            AuthorAct::Publish(batch, reply) => {
                self.drafts.take_out(&batch);
                self.catalogue.adopt(batch);
                reply
            }
        }
    }

    /// Answers a call of the operator.
    #[tactic(auto, using(crate::proofs::Held::own))]
    pub(crate) fn operator_call(
        &mut self,
        alloc: Global,
        call: &OperatorCall,
        request: &Request<'_>,
    ) -> Reply
        ensures { Gives (Unit {0}) (standing_of self.old) (call_does (standing_of self.old) (call_kinds.Operator self.old.place call.now) (request_of request.now)) result (standing_of self.new) }
    {
        operator_step(
            alloc,
            &mut self.book,
            &self.catalogue,
            self.config,
            self.place,
            call,
            request,
            &Plain,
        )
    }

    /// Appends the samples of the operator at a moment, over what stands now.
    ///
    /// # Errors
    ///
    /// Out of memory.
    pub(crate) fn push_samples(
        &self,
        alloc: Global,
        found: &mut Vec<RuleSample>,
        at: Moment,
    ) -> Result<(), AllocError>
        ensures { OnOk result (found.new.items ≡ found.old.items ++ samples_at (standing_of self.now) at) }
    {
        let local = self.config.zone().local(at)?;
        let policies = self.catalogue.in_force(alloc, self.id, at)?;
        let vehicles = fleet(&self.book)?;
        for policy in &policies {
            let document = policy.document;
            let verdicts = Plain.verdicts(alloc, document, &self.catalogue, &vehicles, local, at)?;
            push_policy(found, at, document.id(), &verdicts)?;
        }
        Ok(())
    }

    /// What is published.
    pub(crate) fn catalogue(&self) -> &Catalogue
        ensures { publications_of result.now ≡ (standing_of self.now).publications }
    {
        &self.catalogue
    }
}
