//! Whether a vehicle counts towards a rule's measure, by when the run of its state began.
ghost use Rattle.std.specs.Prelude.{◌≡◌, ◌-◌};
ghost use Rattle.mds_verdict.specs.Verdict.{within, millis};
ghost use Rattle.mds_bitmaps.specs.Columns.{adds_since};

use mds_policy::{Bounds, Kind};
use mds_text::Moment;
use mds_verdict::{millis, within};

/// Whether a vehicle that a rule catches counts towards the rule's measure, where the run of its
/// state began at this millisecond.
pub(crate) fn adds_since(kind: Kind, bounds: Bounds, moment: Moment, since: u64) -> bool
    ensures { result ≡ adds_since kind bounds moment since }
{
    match kind {
        Kind::Count => true,
        Kind::Time(unit) => !within(bounds, millis(unit), dwell(since, moment)),
        Kind::Other => false,
    }
}

/// The milliseconds from the beginning of a state to this moment; 0 where it begins later.
fn dwell(since: u64, moment: Moment) -> u64
    ensures { result ≡ moment - since }
{
    (moment.get() as u64).saturating_sub(since)
}
