//! A hall whose accepted changes are persisted: each is a record of a log, and each response is sent once all that it
//! shows is synced.
#![tactic(auto)]

mod batch;
mod cache_control;
mod client_records;
mod context;
mod desk_records;
mod durable_hall;
mod ending;
mod fleet_views;
pub mod laws;
mod many;
mod pending;
mod pending_response;
mod people;
mod published;
mod records;
mod report_lines;
mod responding;
mod room_turn;
mod service;

pub use batch::MOST_REPORTS;
pub use context::{Context, TurnRuntime};
pub use durable_hall::DurableHall;
pub use fleet_views::{combine_compliance, covers, own_request, place_of};
pub use pending::{NoResponse, ResponseAfterSync};
pub use pending_response::PendingResponse;
pub use records::is_accepted;
pub use responding::respond;
pub use service::DurableService;
