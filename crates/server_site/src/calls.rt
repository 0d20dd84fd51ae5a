//! How a call of the city's state is counted, and what its refusal names.
ghost use Rattle.std.specs.Prelude.{◌≡◌, option_map};
ghost use Rattle.server_responses.specs.Methods.{text_of};
ghost use Rattle.server_site.specs.Calls.{kind_of, kind_of_own, methods_for};

use journal_laws::may_change;
use mds_request::{AuthorCall, Call, Code};
use server_control::CallKind;
use server_responses::RefusalHint;
use server_routes::StateCall;

/// The kind as which a call of the protocol is counted.
fn kind_of_own(call: &Call) -> CallKind
    ensures { result ≡ kind_of_own call.now }
{
    match call {
        Call::Author(AuthorCall::Publish) => CallKind::Publish,
        _ if may_change(&Ok(*call)) => CallKind::Change,
        _ => CallKind::Read,
    }
}

/// The kind as which a call of the city's state is counted: the author's call to publish, what may
/// change the persisted state, or all else, which includes a refusal of the table of calls.
pub fn kind_of(call: &Result<StateCall, Code>) -> CallKind
    ensures { result ≡ kind_of call.now }
{
    match call {
        Ok(StateCall::Call(call)) => kind_of_own(call),
        Ok(StateCall::Reports(_)) => CallKind::Change,
        Ok(StateCall::AuthorAsks(_) | StateCall::OperatorAsks(..)) | Err(_) => CallKind::Read,
        Ok(StateCall::AsksFleet(_)) => CallKind::Read,
    }
}

/// What the refusal of a call names: the methods of the request's path, given without its query,
/// where the table of calls refuses the call by its method (RFC 9110, section 10.2.1); else none.
pub fn hint_for(call: &Result<StateCall, Code>, path: &str) -> RefusalHint
    ensures { option_map text_of result.methods ≡ methods_for call.now path.now }
{
    match call {
        Err(Code::Method) => RefusalHint::of(path),
        _ => RefusalHint::without_methods(),
    }
}
