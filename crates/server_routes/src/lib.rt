//! The one table of routes: which client asks by a head, and for what: a file of the page, a public
//! document, a call outside the protocol or of it, or a moment of the past.
#![tactic(auto)]

mod app;
pub mod laws;
mod past;
mod public_target;
mod query;
mod resolved;
mod state;

pub use app::{AppCall, FleetView, Question, app_at, path_of};
pub use past::{PastQuestion, ResolvedPast};
pub use public_target::PublicTarget;
pub use resolved::{ResolvedHead, resolve};
pub use state::{FleetQuestion, ResolvedState, StateCall};
