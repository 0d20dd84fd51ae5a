//! What the header field of a refusal is made from: the methods of its path.
ghost use Rattle.std.specs.Prelude.{◌≡◌, option_map};
ghost use Rattle.mds_request.specs.Call.{segments_in};
ghost use Rattle.server_responses.specs.Methods.{methods_at, text_of};

use crate::methods::{Methods, methods_of};

/// What the refusal of a request names.
#[derive(Clone, Copy, Debug, PartialEq, Eq)]
pub struct RefusalHint {
    /// The methods of the request's path; none, where no call has the path or the request isn't
    /// refused by its method.
    pub methods: Option<Methods>,
}

impl RefusalHint {
    /// For requests with this path, without its query, that the table of calls refuses by their
    /// method.
    pub fn of(path: &str) -> RefusalHint
        ensures { option_map text_of result.methods ≡ methods_at (segments_in path.now) }
    {
        RefusalHint {
            methods: methods_of(path),
        }
    }

    /// For all other requests, whatever their path is: their refusals name no methods.
    pub fn without_methods() -> RefusalHint
        ensures { result.methods ≡ None }
    {
        RefusalHint { methods: None }
    }
}
