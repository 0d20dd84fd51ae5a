//! The service of `ruffletuff`: the page, the public documents, the city or its past, by what a head was
//! resolved to.
#![tactic(auto)]

mod calls;
mod service;
mod site;

pub use calls::{hint_for, kind_of};
pub use service::{CityReply, ReadyReply, SiteReply};
pub use site::{Site, at_machine_clock};
