//! What an answer takes of its client's queue.
ghost use Rattle.std.specs.Prelude.{◌≡◌};
ghost use Rattle.server_admission.specs.Cost.{author_cost, cost_of, operator_cost};

use crate::limits::SMALL_BODY;
use mds_request::{AuthorCall, Call, OperatorCall};

/// What an answer takes of its client's queue.
#[derive(Clone, Copy, Debug, PartialEq, Eq)]
pub enum Cost {
    /// Nothing: it is given at once.
    Free,
    /// One permit: it runs concurrently with other short ones.
    Shared,
    /// All permits: it may take long, and runs alone.
    Exclusive,
}

/// What the answer to a call of the author takes. Published documents are cached as bytes.
fn author_cost(call: &AuthorCall) -> Cost
    ensures { result ≡ author_cost call.now }
{
    match call {
        AuthorCall::Policies
        | AuthorCall::Policy(_)
        | AuthorCall::Geographies
        | AuthorCall::Geography(_) => Cost::Shared,
        AuthorCall::Draft(..)
        | AuthorCall::PutDraft(..)
        | AuthorCall::DropDraft(..)
        | AuthorCall::Publish => Cost::Exclusive,
    }
}

/// What the answer to a call of an operator takes, whose body has so many bytes. Published
/// documents are cached as bytes, and a report is one entry of a fleet.
fn operator_cost(call: &OperatorCall, length: usize) -> Cost
    ensures { result ≡ operator_cost call.now length }
{
    match call {
        OperatorCall::Policies
        | OperatorCall::Policy(_)
        | OperatorCall::Geographies
        | OperatorCall::Geography(_) => Cost::Shared,
        OperatorCall::Report if length <= SMALL_BODY => Cost::Shared,
        OperatorCall::Report
        | OperatorCall::Vehicles
        | OperatorCall::RemoveVehicle(_)
        | OperatorCall::Compliance
        | OperatorCall::PolicyCompliance(_) => Cost::Exclusive,
    }
}

/// What the answer to a call takes, whose body has so many bytes.
pub fn cost_of(call: &Call, length: usize) -> Cost
    ensures { result ≡ cost_of call.now length }
{
    match call {
        Call::Author(call) => author_cost(call),
        Call::Operator(_, call) => operator_cost(call, length),
    }
}
