//! Which requests need a record in the journal.
ghost use Rattle.std.specs.Prelude.{◌≡◌, ◌==◌, ◌&&◌};
ghost use Rattle.mds_request.specs.Configuration.{configuration};
ghost use Rattle.mds_request.specs.Reply.{Reply};
ghost use Rattle.mds_request.specs.Request.{request_of};
ghost use Rattle.journal_laws.specs.Persisted.{is_kept, may_change};

use mds_request::{AuthorCall, Call, Code, Config, OperatorCall, Request, Routes, read_call};

/// The status of a success.
const SUCCESS: u16 = 200;

/// Whether a call may change something: the author's drafts and publications, an operator's reports and removals. Such
/// a call needs a reservation in the journal before it is carried out.
pub fn may_change(call: &Result<Call, Code>) -> bool
    ensures { result ≡ may_change call.now }
{
    match call {
        Ok(Call::Author(AuthorCall::PutDraft(_, _))) => true,
        Ok(Call::Author(AuthorCall::DropDraft(_, _))) => true,
        Ok(Call::Author(AuthorCall::Publish)) => true,
        Ok(Call::Operator(_, OperatorCall::Report)) => true,
        Ok(Call::Operator(_, OperatorCall::RemoveVehicle(_))) => true,
        _ => false,
    }
}

/// Whether a call that was answered with this status is persisted: a success that may have changed something.
pub fn persists(call: &Result<Call, Code>, status: u16) -> bool
    ensures { result ≡ (may_change call.now && (status == 200)) }
{
    may_change(call) && status == SUCCESS
}

/// Whether a request that was answered with this status is persisted.
pub fn is_persisted(routes: &Routes, config: &Config, request: &Request<'_>, status: u16) -> bool
    ensures { (reply : Reply) → reply.status ≡ status
        → result ≡ is_kept (configuration config.now) (record { request = request_of request.now; reply = reply }) }
{
    persists(&read_call(routes, config, request), status)
}
