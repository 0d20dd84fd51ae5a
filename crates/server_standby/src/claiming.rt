//! Claiming a register.
ghost use Rattle.std.specs.Prelude.{◌<◌, IfSome};

use journal_cluster::ClusterEngine;
use journal_gateway::Dial;
use journal_register::Outcome;
use journal_remote::{Engine, Tenure, Watch};
use std::random::RandomSource;

/// How many times a claim is sent, or a look made behind it, where nothing that decides comes back.
const TRIES: u32 = u32::MAX;

/// A random number that isn't 0; `None` where the machine has none.
pub fn nonce_of<R: RandomSource>(rt: &R) -> Option<u64>
    ensures { IfSome result (λ nonce. 0 < nonce) }
{
    let mut drawn = [0u8; 8];
    if rt.fill_bytes(&mut drawn).is_err() {
        return None;
    }
    Some(u64::from_be_bytes(drawn).max(1))
}

/// Claims a register from the owner that a standby saw, and returns its time as owner; `None` where another claimed it. It
/// goes on until an answer decides, since a claim whose answer is lost may have come.
pub fn claim<D: Dial>(
    engine: &mut ClusterEngine<'_, D>,
    watch: Watch,
    nonce: u64,
) -> Option<Tenure> {
    let claim = watch.claim(nonce)?;
    'claims: for _ in 0..TRIES {
        match claim.outcome(engine.transact(&claim, &[])) {
            Outcome::Unknown => {}
            Outcome::Applied => break 'claims,
            Outcome::Overtaken | Outcome::Elsewhere => return None,
        }
    }
    'looks: for _ in 0..TRIES {
        if let Some(look) = engine.look() {
            return Tenure::of_claim(&claim, &look);
        }
    }
    None
}
