//! Local times: the day of the week and the second of the day.
use mds_text::Moment;

/// A local time: the day of the week, from 0 for Sunday to 6 for Saturday, and the whole second of
/// the local day.
#[derive(Clone, Copy, Debug, PartialEq, Eq)]
pub struct Local {
    pub weekday: u8,
    pub second: u32,
}

/// A moment and the local time at it.
#[derive(Clone, Copy)]
pub struct LocalMoment {
    /// Milliseconds since the Unix epoch.
    pub moment: Moment,
    /// The local time at that moment, in the zone in which rules are evaluated.
    pub local: Local,
}
