//! Which response a request for a file gets.
ghost use Rattle.std.specs.Prelude.{◌≡◌};
ghost use Rattle.server_page.specs.FileReply.{told_of};

use crate::tag::is_named_in;
use http::HeaderMap;

/// Which response a request for a file gets.
#[derive(Clone, Copy)]
pub(crate) enum FileReply {
    /// The file.
    Whole,
    /// The client has the file as it is.
    Unchanged,
    /// A file can only be read.
    WrongMethod,
}

/// Which response a request with this method and these header fields gets, for a file with this
/// tag.
pub(crate) fn file_reply_of(method: &[u8], headers: &HeaderMap, tag: &[u8]) -> FileReply
    ensures { result ≡ told_of method.now headers.now tag.now }
{
    match method {
        b"GET" | b"HEAD" if is_named_in(headers, tag) => FileReply::Unchanged,
        b"GET" | b"HEAD" => FileReply::Whole,
        _ => FileReply::WrongMethod,
    }
}
