//! When a rule is open in local time, which vehicles meet it, and which rule of a policy catches a
//! vehicle (MDS 2.0 Policy, order of operations).
#![tactic(auto)]

pub mod laws;
mod local;
mod matching;
mod places;
mod resolved;
mod vehicle;
mod window;
mod zone;

pub use local::{Local, LocalMoment};
pub use matching::{first, meets};
pub use places::Places;
pub use resolved::ResolvedPolicy;
pub use vehicle::{MOST_VEHICLES, Vehicle, Words};
pub use window::open_at;
pub use zone::{Zone, ZoneFault};
