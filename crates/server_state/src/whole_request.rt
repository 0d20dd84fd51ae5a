//! A request whose body has arrived.
ghost use Rattle.std.specs.Prelude.{◌≤◌, length};
ghost use Rattle.mds_text.specs.Fields.{last_moment};
ghost use Rattle.mds_request.specs.declared.call.TheConstants.{MOST_BODY};

use crate::http_request::request;
use http::request::Parts;
use mds_request::Request;
use mds_text::Moment;

/// A request whose body has arrived, at its moment. Its head and its body, which is within its
/// limit, are borrowed. `read_whole` alone makes one. It can't be copied, and the turn that answers it
/// consumes it, so that no request takes two turns.
#[derive(Drop)]
pub struct WholeRequest<'a> {
    parts: &'a Parts,
    body: &'a [u8],
    /// In milliseconds since the Unix epoch.
    at: u64,
    ghost within: { length body.now ≤ MOST_BODY },
    ghost in_range: { at ≤ last_moment },
}

impl<'a> WholeRequest<'a> {
    ghost use Rattle.std.specs.Prelude.{◌≡◌};
    ghost use Rattle.mds_request.specs.Request.{request_of};
    ghost use Rattle.server_state.specs.HttpRequest.{request_in};
    ghost use Rattle.server_state.specs.WholeRequest.{request_heard};

    /// The request of this head and this body, at this moment.
    pub(crate) fn new(parts: &'a Parts, body: &'a [u8], at: Moment) -> WholeRequest<'a>
        requires { length body.now ≤ MOST_BODY }
        ensures request { request_heard result ≡ request_in parts.now body.now at }
        ensures head { result.parts.now ≡ parts.now }
    {
        WholeRequest {
            parts,
            body,
            at: at.get() as u64,
        }
    }

    /// The moment, in milliseconds since the Unix epoch.
    pub fn moment(&self) -> Moment
        ensures { result ≡ self.now.at }
    {
        Moment::new(self.at as i64).unwrap()
    }

    /// The request in the form that calls are read from.
    pub fn request(&self) -> Request<'_>
        ensures { request_of result ≡ request_heard self.now }
    {
        request(self.parts, self.body, self.moment())
    }
}
