//! A response that waits for its sync, or why there is none.
use bytes::Bytes;
use http::Response;
use http_body_util::Full;
use journal_commit::{AwaitSync, CommitFault};
use std::alloc::AllocError;

/// A response that waits until all that it shows is synced.
pub type ResponseAfterSync<N, L, S> = AwaitSync<Response<Full<Bytes>>, N, L, S>;

/// Why a request has no response.
#[derive(Clone, Copy, Debug, PartialEq, Eq)]
pub enum NoResponse {
    /// The client's share of the log is used up. The request wasn't carried out, and may be tried again.
    Crowded,
    /// No response may be sent: the log failed, or out of memory for the response. The request may have been carried
    /// out.
    NotTold(CommitFault),
}

impl From<CommitFault> for NoResponse {
    fn from(fault: CommitFault) -> NoResponse {
        NoResponse::NotTold(fault)
    }
}

impl From<AllocError> for NoResponse {
    fn from(_: AllocError) -> NoResponse {
        NoResponse::NotTold(CommitFault::NoMemory)
    }
}
