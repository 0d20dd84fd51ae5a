//! Positions in units of 10^-7 degree (RFC 7946, section 3.1.1).
use mds_text::Units7;

/// A position: a point of longitude and latitude (RFC 7946, section 3.1.1), without altitude.
#[derive(Clone, Copy, PartialEq, Eq)]
pub struct Position {
    /// The longitude in 10^-7 degree, positive to the east.
    pub lng: Units7,
    /// The latitude in 10^-7 degree, positive to the north.
    pub lat: Units7,
}
