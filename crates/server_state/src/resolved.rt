//! A head that asks for a call of the protocol, resolved: its client, and the call or its refusal.
ghost use Rattle.std.specs.Prelude.{◌≡◌, IfOk};
ghost use Rattle.mds_request.specs.Call.{call_of};
ghost use Rattle.mds_request.specs.Configuration.{actor_of};
ghost use Rattle.server_state.specs.HttpRequest.{token_of};
ghost use Rattle.server_state.specs.WholeRequest.{request_heard};
ghost use Rattle.server_state.specs.Resolved.{call_in, cost_in};
ghost use Rattle.server_state.specs.Respond.{Responds};

use crate::answering::{HallContext, carry_out};
use crate::early::read_whole;
use crate::hall_name::HallName;
use crate::responding::response;
use crate::whole_request::WholeRequest;
use http::request::Parts;
use mds_catalog::Catalogue;
use mds_desk::{OpenGate, SharedReply};
use mds_request::{Actor, Call, Code};
use mds_text::Moment;
use mds_verdict::Evaluator;
use server_admission::{Arrived, Cost, cost_of};
use server_responses::HttpResult;
use std::marker::PhantomData;
use std::sync::Wait;

/// A head that is resolved, once: which client asks, and for what. `Hall::resolve` alone makes one.
#[derive(Drop)]
pub struct ResolvedCall<K: HallName> {
    parts: Parts,
    actor: Actor,
    call: Result<Call, Code>,
    of: PhantomData<K>,
    ghost asks: { actor ≡ actor_of K.configuration (token_of parts.headers) },
    ghost calls: { call ≡ call_in K.configuration parts },
}

impl<K: HallName> ResolvedCall<K> {
    /// A head with its client and its call, or its refusal.
    pub(crate) fn new(parts: Parts, actor: Actor, call: Result<Call, Code>) -> ResolvedCall<K>
        requires asks { actor ≡ actor_of K.configuration (token_of parts.headers) }
        requires calls { call ≡ call_in K.configuration parts }
        ensures { result.parts ≡ parts }
    {
        ResolvedCall {
            parts,
            actor,
            call,
            of: PhantomData,
        }
    }

    /// The client.
    pub fn actor(&self) -> Actor
        ensures { result ≡ actor_of K.configuration (token_of self.now.parts.headers) }
    {
        self.actor
    }

    /// The head.
    pub fn parts(&self) -> &Parts
        ensures { result.now ≡ self.now.parts }
    {
        &self.parts
    }

    /// What the answer takes of its client's queue, where the body has so many bytes. A refusal
    /// takes nothing.
    pub fn cost(&self, length: usize) -> Cost
        ensures { result ≡ cost_in (call_in K.configuration self.now.parts) length }
    {
        match &self.call {
            Ok(call) => cost_of(call, length),
            Err(_) => Cost::Free,
        }
    }

    /// The call of this head's request, whose body has arrived.
    ///
    /// # Errors
    ///
    /// The first refusal of the table of calls, as `mds_request::read_call` says.
    pub fn call(&self, heard: &WholeRequest<'_>) -> Result<Call, Code>
        requires { heard.now.parts.now ≡ self.now.parts }
        ensures { result ≡ call_of K.configuration (request_heard heard.now) }
    {
        self.call
    }

    /// Answers the request of this head and this body, at this moment of the machine's clock. What
    /// the table of calls refuses is answered without a lock.
    ///
    /// # Errors
    ///
    /// There was no memory for the response. The request may have been carried out.
    pub fn respond<R: Wait, E: Evaluator<Catalogue>>(
        &self,
        context: &HallContext<'_, K, R, E>,
        arrived: &Arrived,
        at: Option<Moment>,
    ) -> HttpResult
        requires { E.may_judge }
        ensures { IfOk result (Responds K.configuration self.now.parts arrived.now at) }
    {
        let heard = match read_whole(&self.parts, arrived, at) {
            Ok(heard) => heard,
            Err(code) => return response(context.alloc, SharedReply::from(code)),
        };
        carry_out(context, self.call(&heard), heard, &mut OpenGate)
    }
}
