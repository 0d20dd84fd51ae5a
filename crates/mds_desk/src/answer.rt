//! The answer of a desk or of the author's room.
use bytes::Bytes;
use mds_request::{Code, Reply};
use std::alloc::{AllocError, Global};
use std::marker::Model;

/// Where an answer comes from.
#[derive(Drop)]
enum ReplySource {
    /// A reply that was made for the request.
    Made(Reply),
    /// The cached body of a success.
    Ready(Bytes),
}

/// The answer to a request: a reply that was made for it, or a success with a cached body. Contracts see its status and
/// its body.
#[derive(Drop)]
pub struct SharedReply {
    source: ReplySource,
}

impl Model for SharedReply {
    ghost use Rattle.mds_request.specs.Reply.{Reply};

    ghost Value = { Reply };

    ghost use Rattle.mds_desk.specs.Answer.{reply_of};

    ghost view = { λ a. reply_of a.source };
}

impl SharedReply {
    ghost use Rattle.std.specs.Prelude.{◌≡◌, IfOk};
    ghost use Rattle.mds_request.specs.Reply.{success};

    /// A success: status 200 with this body, which isn't copied.
    pub fn from_cached(body: Bytes) -> SharedReply
        ensures { result ≡ success body }
    {
        SharedReply {
            source: ReplySource::Ready(body),
        }
    }

    /// The status (RFC 9110, section 15).
    pub fn status(&self) -> u16
        ensures { result ≡ self.now.status }
    {
        match &self.source {
            ReplySource::Made(reply) => reply.status(),
            ReplySource::Ready(_) => 200,
        }
    }

    /// The body: one line, without the line feed.
    pub fn body(&self) -> &[u8]
        ensures { result.now ≡ self.now.body }
    {
        match &self.source {
            ReplySource::Made(reply) => reply.body(),
            ReplySource::Ready(body) => body.as_slice(),
        }
    }

    /// The body, owned, as bytes that can be shared. That of a success isn't copied.
    ///
    /// # Errors
    ///
    /// Out of memory for the body of a refusal, or for sharing the body of a reply that was made.
    pub fn into_bytes(self, alloc: Global) -> Result<Bytes, AllocError>
        ensures { IfOk result (λ body. body ≡ self.body) }
    {
        match self.source {
            ReplySource::Made(reply) => Ok(Bytes::from_vec(reply.into_body(alloc)?)?),
            ReplySource::Ready(body) => Ok(body),
        }
    }
}

impl From<Reply> for SharedReply {
    ghost use Rattle.std.specs.Prelude.{◌≡◌};

    ghost from_gives = { λ reply answer. answer ≡ reply };

    fn from(reply: Reply) -> SharedReply {
        SharedReply {
            source: ReplySource::Made(reply),
        }
    }
}

impl From<Code> for SharedReply {
    ghost use Rattle.std.specs.Prelude.{◌≡◌};
    ghost use Rattle.mds_request.specs.Reply.{refused};

    ghost from_gives = { λ code answer. answer ≡ refused code };

    fn from(code: Code) -> SharedReply {
        SharedReply::from(Reply::from(code))
    }
}
