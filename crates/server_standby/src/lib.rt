//! Who owns a city's journal in etcd: a standby watches the register and claims it, an owner shows that it lives and hands
//! the register over; and what a journal there takes of its room.
#![tactic(auto)]

mod claiming;
mod clock;
mod fault;
mod handing_over;
mod owned_storage;
mod progress;
mod room;
mod standing_by;
mod step;

pub use claiming::{claim, nonce_of};
pub use fault::StandbyFault;
pub use handing_over::{TenureEnd, end_of, hand_over, hand_over_of};
pub use owned_storage::OwnedStorage;
pub use progress::RegisterProgress;
pub use room::RegisterRoom;
pub use standing_by::{StandbyHost, StandbyPlan, stand_by};
pub use step::{StandbyStep, is_given_up, next_step, patience_of};
