//! The moment of a clock reading.
ghost use Rattle.std.specs.Prelude.{◌≡◌, ◌≤◌, ◌+◌, ◌*◌, ◌↔◌, IsSome, IfSome};
ghost use Rattle.mds_text.specs.Fields.{last_moment};

use mds_text::Moment;

/// The last second that has a moment: the last of the year 2099 in UTC.
const LAST_SECOND: u64 = 4_102_444_799;

/// The moment so many seconds and milliseconds after the Unix epoch; none, where it is out of
/// range.
pub fn moment_of(seconds: u64, millis: u32) -> Option<Moment>
    ensures range { IsSome result ↔ (seconds * 1000 + millis ≤ last_moment) }
    ensures value { IfSome result (λ moment. moment ≡ seconds * 1000 + millis) }
{
    if seconds > LAST_SECOND {
        return None;
    }
    let total = seconds * 1000 + u64::from(millis);
    Moment::new(total as i64)
}
