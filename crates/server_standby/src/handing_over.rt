//! The end of a process's time as owner.
ghost use Rattle.std.specs.Prelude.{◌≡◌};
ghost use Rattle.server_standby.specs.Ends.{hand_over_of, end_of};

use journal_cluster::ClusterEngine;
use journal_gateway::Dial;
use journal_register::{Look, Outcome, Owner, Transaction};
use journal_remote::Engine;

/// How a process's time as owner ended, by a last look.
#[derive(Clone, Copy, Debug, PartialEq, Eq)]
pub enum TenureEnd {
    /// Another owns the register.
    Overtaken,
    /// The process still owns it.
    Held,
    /// No look was answered.
    Unknown,
}

/// The claim for nobody, by which an owner hands the register over; `None` where a look shows another owner, or epochs are
/// used up.
pub fn hand_over_of(owner: Owner, look: &Look) -> Option<Transaction>
    ensures { result ≡ hand_over_of owner look.now }
{
    if look.confirms(owner) {
        Transaction::claim(owner, 0)
    } else {
        None
    }
}

/// How an owner's time ended, by a look, where it was answered.
pub fn end_of(owner: Owner, look: Option<Look>) -> TenureEnd
    ensures { result ≡ end_of owner look }
{
    match look {
        None => TenureEnd::Unknown,
        Some(look) if look.confirms(owner) => TenureEnd::Held,
        Some(_) => TenureEnd::Overtaken,
    }
}

/// Hands a register over, so that a standby claims it at its next look. Returns whether it is known to be handed over.
pub fn hand_over<D: Dial>(engine: &mut ClusterEngine<'_, D>, owner: Owner) -> bool {
    let Some(look) = engine.look() else {
        return false;
    };
    match hand_over_of(owner, &look) {
        Some(claim) => claim.outcome(engine.transact(&claim, &[])) == Outcome::Applied,
        None => false,
    }
}
