//! The future of a request, from its head to its response.
ghost use Rattle.std.specs.Prelude.{◌⊎◌, IfOk};
ghost use Rattle.futures.specs.Task.{Covers, Keeps};
ghost use Rattle.futures.specs.Poll.{IfReady, OnPending};
ghost use Rattle.server_http.specs.Busy.{SaysBusy};
ghost use Rattle.server_http.specs.RequestStage.{Answers, CanPoll, FutureGives};

use crate::admitted_request::AdmittedRequest;
use crate::body_reader::BodyReader;
use crate::replies::busy;
use crate::server_conn::ServerConn;
use crate::slots::Admittance;
use crate::timed_body::TimedBody;
use futures::task::{Context, Poll};
use futures::{Future, ready};
use http::request::Parts;
use hyper::body::Incoming;
use server_admission::DISCARD_SECONDS;
use server_responses::HttpResult;
use std::alloc::AllocError;

/// The future of a request, from its head to its response.
#[derive(Drop)]
pub enum RequestFuture<P, H, F, I> {
    /// It may wait for its answer.
    Admitted(AdmittedRequest<P, H, F, I>),
    /// It may not: its body is discarded, and then it is refused as busy.
    Refused(RefusedRequest<P, I>),
}

/// A request that may not wait.
#[derive(Drop)]
pub struct RefusedRequest<P, I> {
    /// The connection; none, once the response is made.
    conn: Option<P>,
    body: TimedBody<I>,
}

impl<P: ServerConn, I: Drop> RequestFuture<P, P::Head, P::Reply, I> {
    /// The future of a request whose head has come.
    pub fn new(conn: &P, parts: Parts, body: Incoming<I>) -> RequestFuture<P, P::Head, P::Reply, I>
        ensures poll { CanPoll P.Reply.can_poll result }
        ensures answers { (given : _) → FutureGives P.answers P.Reply.gives result given
            → IfOk given (λ response. SaysBusy response ⊎ Answers P.resolves P.answers conn.now parts body response) }
    {
        let mut body = BodyReader::new(conn.alloc(), body);
        let head = conn.resolve(parts);
        let admittance = conn.admit(P::actor(&head), body.load_bytes());
        let conn = conn.clone_handle().ok();
        match admittance {
            Admittance::Admitted(_) => {
                let body = TimedBody::new(body);
                RequestFuture::Admitted(AdmittedRequest::new(conn, head, body))
            }
            Admittance::Busy => {
                body.discard();
                let body = TimedBody::new(body);
                RequestFuture::Refused(RefusedRequest { conn, body })
            }
        }
    }
}

impl<P: ServerConn, I: Drop> RefusedRequest<P, I> {
    /// Discards the body, and then says that the server is busy.
    fn refuse(&mut self, cx: &mut Context<'_>) -> Poll<HttpResult>
        ensures says { IfReady result (λ r. IfOk r SaysBusy) }
        ensures registered { OnPending result (Covers cx.new (λ _. ⊥)) }
        ensures kept { Keeps cx.old cx.new }
    {
        let Some(conn) = &self.conn else {
            return Poll::Ready(Err(AllocError));
        };
        ready!(self.body.poll(conn, DISCARD_SECONDS, cx));
        conn.finish_request();
        let response = busy(conn.alloc());
        self.conn = None;
        Poll::Ready(response)
    }
}

impl<P: ServerConn, I: Drop> Future for RequestFuture<P, P::Head, P::Reply, I> {
    type Output = HttpResult;

    ghost can_poll = { λ request. CanPoll P.Reply.can_poll request × P.may_answer };

    ghost gives = { FutureGives P.answers P.Reply.gives };

    fn poll(&mut self, cx: &mut Context<'_>) -> Poll<HttpResult> {
        match self {
            RequestFuture::Admitted(request) => request.proceed(cx),
            RequestFuture::Refused(request) => request.refuse(cx),
        }
    }
}
