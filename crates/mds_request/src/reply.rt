//! The reply to a request.
use crate::code::Code;
use std::alloc::{AllocError, Global};
use std::marker::Model;

/// The content of a reply.
#[derive(Drop)]
enum Content {
    /// Status 200 with this body.
    Success(Vec<u8>),
    /// The status and the body of this refusal.
    Refused(Code),
}

/// The reply to a request: a status and a body, which is one line of JSON. Contracts see the two.
#[derive(Drop)]
pub struct Reply {
    content: Content,
}

impl Model for Reply {
    ghost use Rattle.mds_request.specs.Reply.{Reply as Answer, answer_of, IsOneLine};

    ghost Value = { Answer };

    ghost view = { λ r. answer_of r.content };

    ghost invariant = { λ r. IsOneLine r.content };
}

impl Reply {
    ghost use Rattle.std.specs.Prelude.{◌≡◌, IfOk, IsTrue};
    ghost use Rattle.mds_request.specs.Reply.{is_line, success};

    /// A success: status 200 with this body, which has no line feed.
    pub fn ok(body: Vec<u8>) -> Reply
        requires { IsTrue (is_line body.items) }
        ensures { result ≡ success body.items }
    {
        Reply {
            content: Content::Success(body),
        }
    }

    /// The status (RFC 9110, section 15).
    pub fn status(&self) -> u16
        ensures { result ≡ self.now.status }
    {
        match &self.content {
            Content::Success(_) => 200,
            Content::Refused(code) => code.status(),
        }
    }

    /// The body: one line, without the line feed.
    pub fn body(&self) -> &[u8]
        ensures body { result.now ≡ self.now.body }
        ensures line { IsTrue (is_line result.now) }
    {
        match &self.content {
            Content::Success(body) => body.as_slice(),
            Content::Refused(code) => code.body(),
        }
    }

    /// The body, owned: that of a success isn't copied.
    ///
    /// # Errors
    ///
    /// Out of memory for the body of a refusal.
    pub fn into_body(self, alloc: Global) -> Result<Vec<u8>, AllocError>
        ensures { IfOk result (λ body. body.items ≡ self.body) }
    {
        match self.content {
            Content::Success(body) => Ok(body),
            Content::Refused(code) => Vec::from_slice(alloc, code.body()),
        }
    }
}

impl From<Code> for Reply {
    ghost use Rattle.std.specs.Prelude.{◌≡◌};
    ghost use Rattle.mds_request.specs.Reply.{refused};

    ghost from_gives = { λ code reply. reply ≡ refused code };

    fn from(code: Code) -> Reply {
        Reply {
            content: Content::Refused(code),
        }
    }
}
