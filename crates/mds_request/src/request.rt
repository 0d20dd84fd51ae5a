//! A request as it came in, whatever carried it.
use mds_text::Moment;

/// A request as it came in. Its bytes are borrowed and may be any.
#[derive(Clone, Copy)]
pub struct Request<'a> {
    /// The moment at which it is answered. It may be before those of earlier requests.
    pub at: Moment,
    /// The access token of the request.
    pub token: &'a [u8],
    /// The method.
    pub verb: Verb,
    /// The path, with a query after the first `?` (RFC 9112, section 3.2.1).
    pub target: &'a [u8],
    /// The body, whole.
    pub body: &'a [u8],
}

/// The method of a request (RFC 9110, section 9).
#[derive(Clone, Copy, Debug, PartialEq, Eq)]
pub enum Verb {
    Get,
    Put,
    Post,
    Delete,
    /// Any other method.
    Other,
}

impl Verb {
    ghost use Rattle.std.specs.Prelude.{◌≡◌};
    ghost use Rattle.mds_request.specs.Request.{verb_of};

    /// The verb with this method name. Names are in capitals (RFC 9110, section 9.1); any other
    /// spelling is `Other`.
    pub fn read(name: &[u8]) -> Verb
        ensures { result ≡ verb_of name.now }
    {
        match name {
            b"GET" => Verb::Get,
            b"PUT" => Verb::Put,
            b"POST" => Verb::Post,
            b"DELETE" => Verb::Delete,
            _ => Verb::Other,
        }
    }
}
