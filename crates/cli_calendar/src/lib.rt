//! Moments of the command line: how they are read, also in a zone's local time, which local day and time a moment has, and
//! how both are written (RFC 3339).
#![tactic(auto)]

mod clock;
mod reading;
mod text;
mod times;

pub use clock::{clock_at, day_at, moment_showing};
pub use reading::moment_in;
pub use text::{date_text, local_text, utc_text};
pub use times::moments_between;
