//! Whether a client reads a response too slowly.
ghost use Rattle.std.specs.Prelude.{◌≡◌};
ghost use Rattle.server_admission.specs.SlowClient.{is_untaken};

use crate::limits::{LEAST_RATE, SLOW_SECONDS};

/// Whether too little of a response is written: nothing for as long as may be, or so many bytes are
/// too few in so many seconds since it first had to wait.
pub fn is_too_slow(is_stalled: bool, seconds: u32, taken: u64) -> bool
    ensures { result ≡ is_untaken is_stalled seconds taken }
{
    is_stalled || (seconds >= SLOW_SECONDS && taken < LEAST_RATE * u64::from(seconds))
}
