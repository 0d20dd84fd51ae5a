//! Named time zones, as `America/New_York`: which texts are names, which file a zone has, and the rule of POSIX's TZ
//! variable in its footer (RFC 9636).
#![tactic(auto)]

mod fault;
mod footer;
mod messages;
mod name;
mod rule;

pub use fault::ZoneFileFault;
pub use footer::rule_in;
pub use messages::zone_message;
pub use name::{MOST_NAME, ZoneName};
pub use rule::ZoneRule;
