//! Checks of a configuration's text: what is wrong and where, members that nobody reads, and the rule for a zone's
//! name.
#![tactic(auto)]

mod finding;
mod gathering;
mod grammar;
mod lexemes;
mod limits;
mod located_members;
mod member_finding;
mod members;
mod nearest;
mod paths;
mod position;
mod walk;
mod zoning;

pub use finding::{ConfigFinding, FindingKind};
pub use gathering::review;
pub use limits::Limits;
pub use members::{KnownMember, MOST_NAME};
pub use nearest::Hint;
pub use position::{TextPosition, position_of};
pub use zoning::{ResolvedZone, with_zone, zone_name_in};
