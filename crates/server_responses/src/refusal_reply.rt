//! A pending response that gets the header field of its refusal.
ghost use Rattle.std.specs.Prelude.{◌≡◌};
ghost use Rattle.server_responses.specs.RefusalField.{Follows};

use crate::fields::HttpResult;
use crate::hint::RefusalHint;
use crate::refusal_field::with_refusal_field;
use futures::Future;
use futures::task::{Context, Poll};

/// A pending response that gets the header field of its refusal.
#[derive(Drop)]
pub struct HintedReply<F> {
    reply: F,
    guide: RefusalHint,
}

impl<F: Future> HintedReply<F> {
    /// This pending response, to a request with that guide.
    pub fn new(reply: F, guide: RefusalHint) -> HintedReply<F>
        ensures reply { result.reply ≡ reply }
        ensures guide { result.guide ≡ guide }
    {
        HintedReply { reply, guide }
    }
}

impl<F: Future<Output = HttpResult>> Future for HintedReply<F> {
    type Output = HttpResult;

    ghost can_poll = { λ s. F.can_poll s.reply };

    ghost needs = { λ s source. F.needs s.reply source };

    // The response that comes, with its field.
    ghost gives = { λ s told. (given : _) × F.gives s.reply given × Follows s.guide.methods given told };

    fn poll(&mut self, cx: &mut Context<'_>) -> Poll<HttpResult> {
        match self.reply.poll(cx) {
            Poll::Pending => Poll::Pending,
            Poll::Ready(Ok(response)) => Poll::Ready(with_refusal_field(response, self.guide)),
            Poll::Ready(Err(fault)) => Poll::Ready(Err(fault)),
        }
    }
}
