//! The call of a request at a desk, or its refusal there.
ghost use Rattle.std.specs.Prelude.{◌≡◌, Err, IfErr, IfOk, Ok};
ghost use Rattle.mds_request.specs.Call.{call_of};
ghost use Rattle.mds_request.specs.Configuration.{configuration};
ghost use Rattle.mds_request.specs.Request.{request_of};
ghost use Rattle.mds_request.specs.declared.call.Call.TheVariants.{Operator as OperatorAt};
ghost use Rattle.mds_machine.specs.Desks.{refusal_of};
ghost use Rattle.mds_desk.specs.Desk.{IsRefusedAt};

use crate::context::DeskContext;
use mds_request::{Actor, Call, Code, OperatorCall, Request, read_call};
use mds_snapshot::OpeningName;

/// The refusal of another client's request that the table of calls refuses with this code: too large a body comes
/// first.
pub(crate) fn refusal_of_another(code: Code) -> Code
    ensures { result ≡ refusal_of (Err code) }
{
    match code {
        Code::TooLarge => Code::TooLarge,
        _ => Code::Token,
    }
}

impl<K: OpeningName> DeskContext<K> {
    /// The operator's call of a request.
    ///
    /// # Errors
    ///
    /// The refusal: of this operator's request by the table of calls, of any other by `TooLarge` or `Token`.
    pub(crate) fn call(&self, request: &Request<'_>) -> Result<OperatorCall, Code>
        ensures calls { IfOk result (λ call. call_of (configuration self.now.config.value) (request_of request.now) ≡ Ok (OperatorAt self.now.place call)) }
        ensures refused { IfErr result (IsRefusedAt (configuration self.now.config.value) self.now.place (request_of request.now)) }
    {
        match read_call(&self.routes, &self.config, request) {
            Ok(Call::Operator(client, call)) => {
                if client == self.place {
                    Ok(call)
                } else {
                    Err(Code::Token)
                }
            }
            Ok(Call::Author(_)) => Err(Code::Token),
            Err(code) => Err(self.refusal(request, code)),
        }
    }

    /// The refusal at this desk of a request that the table of calls refuses with this code.
    fn refusal(&self, request: &Request<'_>, code: Code) -> Code
        requires { call_of (configuration self.now.config.value) (request_of request.now) ≡ Err code }
        ensures { IsRefusedAt (configuration self.now.config.value) self.now.place (request_of request.now) result }
    {
        match self.config.actor(request.token) {
            Actor::Operator(client) if client == self.place => code,
            _ => refusal_of_another(code),
        }
    }
}
