//! A pending response.
ghost use Rattle.std.specs.Prelude.{◌≡◌, IfErr, IfOk, IfSome, Err, Ok};
ghost use Rattle.server_durable.specs.declared.pending.NoResponse.TheVariants as no_response;

use crate::pending::{NoResponse, ResponseAfterSync};
use futures::Future;
use futures::task::{Context, Poll};
use journal_commit::{LogName, Space};
use journal_file::Log;
use server_http::Crowded;
use server_responses::HttpResult;
use std::alloc::AllocError;

/// A response that waits until all that it shows is synced. Where no response may be sent it is an error, and the
/// connection closes.
#[derive(Drop)]
pub struct PendingResponse<N: LogName, L: Log, S: Space> {
    /// The response that waits; none where no response may be sent.
    pub told: Option<ResponseAfterSync<N, L, S>>,
}

impl<N: LogName, L: Log, S: Space> PendingResponse<N, L, S> {
    /// The pending response of what was answered: none within, where no response may be sent.
    ///
    /// # Errors
    ///
    /// The client's share of the log is used up: the request may be tried again.
    pub fn of(
        answered: Result<ResponseAfterSync<N, L, S>, NoResponse>,
    ) -> Result<PendingResponse<N, L, S>, Crowded>
        ensures told { IfOk result (λ pending. IfSome pending.told (λ s. answered ≡ Ok s)) }
        ensures crowded { IfErr result (λ _. answered ≡ Err no_response.Crowded) }
    {
        match answered {
            Ok(pending) => Ok(PendingResponse {
                told: Some(pending),
            }),
            Err(NoResponse::Crowded) => Err(Crowded),
            Err(NoResponse::NotTold(_)) => Ok(PendingResponse { told: None }),
        }
    }
}

impl<N: LogName, L: Log, S: Space> Future for PendingResponse<N, L, S> {
    ghost use Rattle.std.specs.Prelude.{◌≡◌, Some, IfOk, IfSome};
    ghost use Rattle.tokio.specs.Locks.{owned_notified_source};
    ghost use Rattle.journal_commit.specs.Durable.{AreDurable};

    type Output = HttpResult;

    // A response is given once all that it shows is durable.
    ghost gives = { λ leaving told. IfOk told (λ response. IfSome leaving.told (λ s.
        (s.reply ≡ Some response) × AreDurable L.may_be L.is_synced s.stamp)) };

    // While it waits, it is woken at the next sync.
    ghost needs = { λ leaving source. IfSome leaving.told (λ s.
        IfSome s.heard (λ heard. source ≡ owned_notified_source heard)) };

    fn poll(&mut self, cx: &mut Context<'_>) -> Poll<HttpResult> {
        let Some(settling) = &mut self.told else {
            return Poll::Ready(Err(AllocError));
        };
        match settling.poll(cx) {
            Poll::Pending => Poll::Pending,
            Poll::Ready(Ok(response)) => Poll::Ready(Ok(response)),
            Poll::Ready(Err(_)) => Poll::Ready(Err(AllocError)),
        }
    }
}
