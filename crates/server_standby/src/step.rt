//! What a standby does behind a look.
ghost use Rattle.std.specs.Prelude.{◌≡◌, ◌+◌, ◌%◌, ◌≤◌};
ghost use Rattle.server_standby.specs.Steps.{next_step, is_given_up, patience_of};

use journal_remote::Watch;

/// The most milliseconds that are added to a standby's patience, so that two don't claim at once.
const MOST_EXTRA: u64 = 1000;

/// What a standby does behind a look.
#[derive(Clone, Copy, Debug, PartialEq, Eq)]
pub enum StandbyStep {
    /// It ends, as it was told to.
    Stop,
    /// It claims the register.
    Claim,
    /// It looks again.
    Wait,
}

/// What a standby does that is told to stop or isn't, and has seen this by now: it has nothing to follow but the head,
/// since it reads the journal once it owns the register.
pub fn next_step(watch: Watch, now: u64, patience: u64, is_stopped: bool) -> StandbyStep
    ensures { result ≡ next_step watch now patience is_stopped }
{
    if is_stopped {
        StandbyStep::Stop
    } else if watch.is_claimable(watch.look.head.extent, now, patience, false) {
        StandbyStep::Claim
    } else {
        StandbyStep::Wait
    }
}

/// Whether a process ends that has begun at this moment and has had no look answered since.
pub fn is_given_up(begun: u64, now: u64, patience: u64) -> bool
    ensures { result ≡ is_given_up begun now patience }
{
    patience <= now.saturating_sub(begun)
}

/// For how many milliseconds a standby waits that is to wait for so many seconds, and has drawn this number.
pub fn patience_of(seconds: u64, nonce: u64) -> u64
    ensures { result ≡ patience_of seconds nonce }
{
    seconds
        .saturating_mul(1000)
        .saturating_add(nonce % MOST_EXTRA)
}
