//! The moments of a report.
ghost use Rattle.std.specs.Prelude.{◌≡◌, ◌<◌, ◌^◌, IfOk, IfSome};
ghost use Rattle.cli_calendar.specs.Moments.{count_between, moments_between};

use mds_text::Moment;
use std::alloc::{AllocError, Global};

/// How many moments there are from one to before another, so many milliseconds apart.
fn count_between(from: u64, to: u64, every: u64) -> u64
    requires every { 0 < every }
    requires from { from < 2 ^ 62 }
    requires to { to < 2 ^ 62 }
    requires short { every < 2 ^ 62 }
    ensures { result ≡ count_between from to every }
{
    (to.saturating_sub(from) + (every - 1)) / every
}

/// The moment of this many milliseconds since the Unix epoch; `None` after 2099.
fn moment_of(millis: u64) -> Option<Moment>
    requires { millis < 2 ^ 63 }
    ensures { IfSome result (λ at. at ≡ millis) }
{
    Moment::new(millis as i64)
}

/// The moments from one to before another, so many milliseconds apart.
///
/// # Errors
///
/// Memory ran out.
pub fn moments_between(
    alloc: Global,
    from: Moment,
    to: Moment,
    every: u64,
) -> Result<Vec<Moment>, AllocError>
    requires every { 0 < every }
    requires short { every < 2 ^ 62 }
    ensures { IfOk result (λ moments. moments.items ≡ moments_between from to every) }
{
    let first = from.get().unsigned_abs();
    let count = count_between(first, to.get().unsigned_abs(), every);
    let mut moments = Vec::new(alloc);
    for number in 0..count {
        match moment_of(first + number * every) {
            Some(at) => moments.push(at)?,
            None => return Err(AllocError),
        }
    }
    Ok(moments)
}
