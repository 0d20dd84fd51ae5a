//! A request's head, and the answer to it.
ghost use Rattle.std.specs.Prelude.{◌≡◌};
ghost use Rattle.server_control.specs.Requests.{answer_if, HeadingOf, due_of};

use crate::admission::{Admission, admission_of};
use crate::hosts::Hosts;
use crate::pages::{ControlAnswer, answer_for, is_head};
use httparse::Status;
use httparse::spans::{EMPTY_HEADER_SPAN, parse_request};

/// The most fields of a head.
const MOST_FIELDS: usize = 64;

/// The most bytes of a head.
pub(crate) const MOST_OF_HEAD: usize = 8192;

/// What is replied to a request.
#[derive(Clone, Copy, Debug, PartialEq, Eq)]
pub struct ControlReply {
    /// The answer.
    pub answer: ControlAnswer,
    /// Whether the answer's body is sent: to each method but HEAD (RFC 9110, section 9.3.2).
    pub has_body: bool,
}

/// What the bytes that have come begin with.
#[derive(Clone, Copy, Debug, PartialEq, Eq)]
pub enum ControlHead {
    /// A head, and what is replied to it.
    Whole(ControlReply),
    /// No whole head yet.
    Partial,
    /// Bytes that can't become a head, or a head with more than 64 fields.
    Broken,
}

/// The answer to a request with this admission, whose own answer this is.
fn answer_if(admission: Admission, asked: ControlAnswer) -> ControlAnswer
    ensures { result ≡ answer_if admission asked }
{
    match admission {
        Admission::Admitted => asked,
        Admission::Malformed => ControlAnswer::Unread,
        Admission::Forbidden => ControlAnswer::Forbidden,
    }
}

/// The reply to what is no request.
const UNREAD: ControlReply = ControlReply {
    answer: ControlAnswer::Unread,
    has_body: true,
};

/// What is replied to the head that bytes begin with (RFC 9112, sections 3 and 5), at a port with
/// these host names, of a server that serves or doesn't. A line may end by a line feed alone
/// (section 2.2).
pub fn control_head_of(bytes: &[u8], hosts: &Hosts, serves: bool) -> ControlHead
    ensures { HeadingOf bytes.now hosts.now serves result }
{
    let mut headers = [EMPTY_HEADER_SPAN; MOST_FIELDS];
    match parse_request(bytes, &mut headers) {
        Ok(Status::Complete(found)) => {
            let headers = &headers[..found.headers];
            let method = found.method.of(bytes);
            let asked = answer_for(method, found.path.of(bytes), serves);
            let admission = admission_of(hosts, found.version, bytes, headers);
            ControlHead::Whole(ControlReply {
                answer: answer_if(admission, asked),
                has_body: !is_head(method),
            })
        }
        Ok(Status::Partial) => ControlHead::Partial,
        Err(_) => ControlHead::Broken,
    }
}

/// The reply that is due to what so many bytes begin with, where they have ended or more may come;
/// none, while the rest of a head may come.
pub fn reply_due(heading: ControlHead, count: usize, is_over: bool) -> Option<ControlReply>
    ensures { result ≡ due_of heading count is_over }
{
    match heading {
        ControlHead::Whole(reply) => Some(reply),
        ControlHead::Broken => Some(UNREAD),
        ControlHead::Partial if is_over || count > MOST_OF_HEAD => Some(UNREAD),
        ControlHead::Partial => None,
    }
}
