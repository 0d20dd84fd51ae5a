//! The moments at which requests are answered.
use crate::moment::moment_of;
use mds_text::Moment;
use std::time::{Clock, SystemTime, UNIX_EPOCH};

/// Gives the moment of a request.
pub trait Moments: Drop {
    /// The moment, in milliseconds since the Unix epoch; none, where it is out of range or can't be
    /// read.
    fn now(&self) -> Option<Moment>;
}

/// The machine's clock.
#[derive(Clone, Copy)]
pub struct MachineClock<C>(pub C);

impl<C: Clock + Copy> Moments for MachineClock<C> {
    fn now(&self) -> Option<Moment> {
        let now = SystemTime::now(&self.0).ok()?;
        let since = now.duration_since(UNIX_EPOCH).ok()?;
        moment_of(since.as_secs(), since.subsec_millis())
    }
}
