//! The HTTP service of a connection.
ghost use Rattle.std.specs.Prelude.{◌⊎◌, IfOk};
ghost use Rattle.http.specs.Request.{body_of, head_of};
ghost use Rattle.server_http.specs.Busy.{SaysBusy};
ghost use Rattle.server_http.specs.RequestStage.{Answers, FutureGives};

use crate::request_future::RequestFuture;
use crate::server_conn::ServerConn;
use bytes::Bytes;
use http_body_util::Full;
use hyper::body::Incoming;
use hyper::service::Service;
use hyper::{Request, Response};
use std::alloc::AllocError;

/// The HTTP service of one connection.
#[derive(Drop)]
pub struct HttpService<P> {
    pub conn: P,
}

impl<P: ServerConn, I: Drop> Service<Request<Incoming<I>>> for HttpService<P> {
    type Response = Response<Full<Bytes>>;

    type Error = AllocError;

    type Future = RequestFuture<P, P::Head, P::Reply, I>;

    ghost can_call = { λ _. P.may_answer };

    // What the future gives is busy, or an answer to the head that came with the body that arrives.
    ghost calls = { λ service req future. (given : _) → FutureGives P.answers P.Reply.gives future given
        → IfOk given (λ response. SaysBusy response
        ⊎ Answers P.resolves P.answers service.conn (head_of req) (body_of req) response) };

    fn call(&self, req: Request<Incoming<I>>) -> RequestFuture<P, P::Head, P::Reply, I> {
        let (parts, body) = req.into_parts();
        RequestFuture::new(&self.conn, parts, body)
    }
}
